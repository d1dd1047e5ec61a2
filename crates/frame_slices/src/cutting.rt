// The slices of a frame, made.
ghost use Rattle.std.specs.Prelude.{◌≡◌, ◌<◌, ◌≤◌, false, replicate, IfOk};
ghost use Rattle.pix_desc.specs.Layouts.{IsValid};
ghost use Rattle.frame_slices.specs.FrameSlices.{palette_length, HavePalette, AreCut};

use crate::frame_slice::{FrameSlice, Place};
use frac_math::OutOfMemory;
use std::alloc::Global;

/// The slices of a frame, each of so many rows, the last one shorter where it must be. All their
/// bytes are 0.
pub fn cut(alloc: Global, whole: &Place, each: u32) -> Result<Vec<FrameSlice>, OutOfMemory>
    requires source { IsValid whole.now.source }
    requires target { IsValid whole.now.target }
    requires plain { whole.now.target.palette ≡ false }
    requires width { whole.now.width ≤ 16384 }
    requires some { 0 < whole.now.rows }
    requires rows { whole.now.rows ≤ 16384 }
    requires each { 0 < each }
    ensures made { IfOk result (λ slices. AreCut whole.now each slices.items) }
    ensures zeros { IfOk result
        (λ slices. HavePalette (replicate (palette_length whole.now.source) 0) slices.items) }
{
    let count = (whole.rows - 1) / each + 1;
    let mut slices = Vec::with_capacity(alloc, count as usize)?;
    for k in 0..count {
        let first = k * each;
        let place = Place {
            source: whole.source,
            target: whole.target,
            width: whole.width,
            first,
            rows: each.min(whole.rows - first),
        };
        slices.push(FrameSlice::new(alloc, &place)?)?;
    }
    Ok(slices)
}
