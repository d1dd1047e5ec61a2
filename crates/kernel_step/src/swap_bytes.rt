// The bytes of whole numbers in the other order.
ghost use Rattle.std.specs.Prelude.{◌≡◌, ℕ, ◌*◌, ◌/◌, ◌%◌, ◌^◌, ◌<◌, ◌≤◌, ◌⊎◌, true, length};
ghost use Rattle.op_list.specs.Types.{bits_at, bits, is_whole_type, is_rational};
ghost use Rattle.op_list.specs.Typing.{may_follow, are_good, stage_after};
ghost use Rattle.op_list.specs.Whole.{reversed_bytes};
ghost use Rattle.kernel_step.specs.Forms.{IsBounded, IsStep, Performs};

use crate::form::Form;
use crate::numerator::Numerator;
use kernel_lane::{Change, change_front};
use kernel_planes::WholeNumber;
use op_list::{Op, PixelPosition, Stage, reversed_bytes};

// A number with the bytes of so many bits in the other order.
#[derive(Clone, Copy)]
struct ReversedBytes {
    bits: u32,
}

impl<W: WholeNumber> Change<W> for ReversedBytes {
    ghost takes = { λ r x. ((r.bits ≡ 16) ⊎ (r.bits ≡ 32))
        × (reversed_bytes (r.bits / 8) (W.number x) < 2 ^ W.bits) };

    ghost makes = { λ r x y. W.number y ≡ reversed_bytes (r.bits / 8) (W.number x) };

    fn changed(self, x: W) -> W {
        W::narrow(reversed_bytes(x.wide(), self.bits))
    }
}

/// A SwapBytes of the values of a block.
pub fn swap_bytes_step<W: WholeNumber, N: Numerator>(
    stage: Stage,
    _position: &PixelPosition,
    before: &Form,
    after: &Form,
    values: &mut [W],
    _numbers: &[N],
)
    requires follows { may_follow stage Op.SwapBytes ≡ true }
    requires good { are_good stage Op.SwapBytes ≡ true }
    requires step { IsStep W.bits N.width stage before.now Op.SwapBytes after.now }
    requires stored { 2 ^ bits_at (stage_after stage Op.SwapBytes) ≤ 2 ^ W.bits }
    requires few { after.now.count ≤ 4 }
    requires block { length values.old ≡ 256 }
    requires bounded { IsBounded W.number N.value stage before.now values.old _numbers.now }
    ensures bounded { IsBounded W.number N.value
        (stage_after stage Op.SwapBytes) after.now values.new _numbers.now }
    ensures holds { Performs W.number N.value stage before.now Op.SwapBytes after.now _position.now
        values.old _numbers.now values.new _numbers.now }
{
    let rule = ReversedBytes { bits: stage.bits() };
    change_front::<W, ReversedBytes>(rule, values, 64 * after.count);
}
