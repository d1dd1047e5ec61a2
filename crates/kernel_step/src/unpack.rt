// The fields of a whole number.
ghost use Rattle.std.specs.Prelude.{◌≡◌, ℕ, ◌+◌, ◌*◌, ◌/◌, ◌%◌, ◌^◌, ◌<◌, ◌≤◌, ◌⊎◌, true, length};
ghost use Rattle.std.specs.Prelude.{slice_index_or, IfSome};
ghost use Rattle.op_list.specs.Types.{bits_at};
ghost use Rattle.op_list.specs.Typing.{may_follow, are_good, stage_after};
ghost use Rattle.kernel_step.specs.Forms.{IsBounded, IsStep, Performs};

use crate::fields::{Field, bits_below};
use crate::form::{Form, whole_form};
use crate::numerator::Numerator;
use kernel_lane::merge_part;
use kernel_planes::{WholeNumber, copy_value, fill};
use op_list::{Op, PixelPosition, Stage};

// A field of value 0 of each pixel, as its value v.
#[inline(never)]
fn unpack_field<W: WholeNumber>(from: &[W], below: u32, width: u8, to: &mut [W], v: usize)
    requires block { (v < 4) × (length from.now ≡ 256) × (length to.old ≡ 256) }
    requires room { below + width ≤ W.bits }
    ensures set { (i : ℕ) (d : W) → i < 64
        → W.number (slice_index_or to.new (64 * v + i) d) ≡ W.number (slice_index_or from.now i d)
        / 2 ^ below % 2 ^ width }
    ensures kept { (j : ℕ) (d : W) → (j < 64 * v) ⊎ (64 * v + 64 ≤ j)
        → slice_index_or to.new j d ≡ slice_index_or to.old j d }
{
    if width == 0 {
        fill(to, v, W::narrow(0));
        return;
    }
    merge_part::<W, W, Field, 64>(Field { below, width }, to, 64 * v, from, 0);
}

/// An Unpack of the values of a block.
pub fn unpack_step<W: WholeNumber, N: Numerator>(
    widths: &[u8; 4],
    stage: Stage,
    _position: &PixelPosition,
    before: &Form,
    after: &Form,
    values: &mut [W],
    spare: &mut [W],
    _numbers: &[N],
)
    requires follows { may_follow stage (Op.Unpack widths.now) ≡ true }
    requires good { are_good stage (Op.Unpack widths.now) ≡ true }
    requires step { IsStep W.bits N.width stage before.now (Op.Unpack widths.now) after.now }
    requires stored { 2 ^ bits_at (stage_after stage (Op.Unpack widths.now)) ≤ 2 ^ W.bits }
    requires few { after.now.count ≤ 4 }
    requires block { (length values.old ≡ 256) × (length spare.old ≡ 256) }
    requires bounded { IsBounded W.number N.value stage before.now values.old _numbers.now }
    ensures bounded { IsBounded W.number N.value
        (stage_after stage (Op.Unpack widths.now)) after.now values.new _numbers.now }
    ensures holds { Performs W.number N.value stage before.now
        (Op.Unpack widths.now) after.now _position.now values.old _numbers.now values.new
        _numbers.now }
{
    copy_value(values, 0, spare, 0);
    for v in 0..after.count {
        unpack_field(spare, bits_below(widths, v), widths[v], values, v);
    }
}

/// The form after an Unpack.
pub fn unpack_form(before: &Form, count: usize) -> Option<Form>
    ensures few { IfSome result (λ form. form.count ≤ 4) }
    ensures some { IfSome result (λ form. 0 < before.now.count) }
{
    if count > 4 {
        return None;
    }
    if before.count == 0 {
        return None;
    }
    Some(whole_form(count))
}
