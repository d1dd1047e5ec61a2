// Whole numbers times a power of two.
ghost use Rattle.std.specs.Prelude.{◌≡◌, ℕ, ◌*◌, ◌/◌, ◌%◌, ◌^◌, ◌<◌, ◌≤◌, true, length};
ghost use Rattle.op_list.specs.Types.{bits_at};
ghost use Rattle.op_list.specs.Typing.{may_follow, are_good, stage_after};
ghost use Rattle.kernel_step.specs.Forms.{IsBounded, IsStep, Performs};

use crate::form::Form;
use crate::numerator::Numerator;
use kernel_lane::{Change, change_front};
use kernel_planes::WholeNumber;
use op_list::{Op, PixelPosition, Stage};

// A number times 2^n, modulo 2^bits: what is above those bits is shifted out, and the rest back.
#[derive(Clone, Copy)]
struct ShiftedLeft {
    n: u8,
    bits: u32,
}

impl<W: WholeNumber> Change<W> for ShiftedLeft {
    ghost takes = { λ r _. (r.n < r.bits) × (r.bits ≤ W.bits) };

    ghost makes = { λ r x y. W.number y ≡ W.number x * 2 ^ r.n % 2 ^ r.bits };

    fn changed(self, x: W) -> W {
        let above = W::size() - self.bits;
        x.shifted_left(u32::from(self.n) + above)
            .shifted_right(above)
    }
}

/// A LeftShift of the values of a block.
pub fn left_shift_step<W: WholeNumber, N: Numerator>(
    n: u8,
    stage: Stage,
    _position: &PixelPosition,
    before: &Form,
    after: &Form,
    values: &mut [W],
    _numbers: &[N],
)
    requires follows { may_follow stage (Op.LeftShift n) ≡ true }
    requires good { are_good stage (Op.LeftShift n) ≡ true }
    requires step { IsStep W.bits N.width stage before.now (Op.LeftShift n) after.now }
    requires stored { 2 ^ bits_at (stage_after stage (Op.LeftShift n)) ≤ 2 ^ W.bits }
    requires few { after.now.count ≤ 4 }
    requires block { length values.old ≡ 256 }
    requires bounded { IsBounded W.number N.value stage before.now values.old _numbers.now }
    ensures bounded { IsBounded W.number N.value
        (stage_after stage (Op.LeftShift n)) after.now values.new _numbers.now }
    ensures holds { Performs W.number N.value stage before.now
        (Op.LeftShift n) after.now _position.now values.old _numbers.now values.new _numbers.now }
{
    let rule = ShiftedLeft {
        n,
        bits: stage.bits(),
    };
    change_front::<W, ShiftedLeft>(rule, values, 64 * after.count);
}
