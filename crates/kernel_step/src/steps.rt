ghost use Rattle.std.specs.Prelude.{◌≡◌, ◌≤◌, ◌^◌, true, length};
ghost use Rattle.op_list.specs.Types.{bits_at};
ghost use Rattle.op_list.specs.Typing.{may_follow, are_good, stage_after};
ghost use Rattle.kernel_step.specs.Forms.{AreReady, IsBounded, IsStep, Performs};

use crate::clear::clear_step;
use crate::convert::convert_step;
use crate::form::Form;
use crate::left_shift::left_shift_step;
use crate::linear::linear_step;
use crate::numerator::Numerator;
use crate::pack::pack_step;
use crate::right_shift::right_shift_step;
use crate::swap_bytes::swap_bytes_step;
use crate::swizzle::swizzle_step;
use crate::unpack::unpack_step;
use crate::value_step::value_step;
use kernel_planes::WholeNumber;
use op_list::{Op, PixelPosition, Stage};

// An operation on the values of a block.
pub fn step<W: WholeNumber, N: Numerator>(
    op: &Op,
    stage: Stage,
    position: &PixelPosition,
    before: &Form,
    after: &Form,
    values: &mut [W],
    spare: &mut [W],
    numbers: &mut [N],
    sums: &mut [N],
)
    requires follows { may_follow stage op.now ≡ true }
    requires good { are_good stage op.now ≡ true }
    requires step { IsStep W.bits N.width stage before.now op.now after.now }
    requires ready { AreReady W.number N.width stage op.now after.now values.old }
    requires stored { 2 ^ bits_at (stage_after stage op.now) ≤ 2 ^ W.bits }
    requires few { after.now.count ≤ 4 }
    requires block { (length values.old ≡ 256) × (length spare.old ≡ 256)
        × (length numbers.old ≡ 256) × (length sums.old ≡ 256) }
    requires bounded { IsBounded W.number N.value stage before.now values.old numbers.old }
    ensures bounded { IsBounded W.number N.value
        (stage_after stage op.now) after.now values.new numbers.new }
    ensures holds { Performs W.number N.value stage before.now op.now after.now position.now
        values.old numbers.old values.new numbers.new }
{
    match op {
        Op::Read { .. } => unreachable!(),
        Op::Write { .. } => unreachable!(),
        Op::SwapBytes => swap_bytes_step(stage, position, before, after, values, numbers),
        Op::Unpack { widths } => unpack_step(
            widths, stage, position, before, after, values, spare, numbers,
        ),
        Op::Pack { widths } => pack_step(widths, stage, position, before, after, values, numbers),
        Op::Clear { values: entries } => clear_step(
            entries, stage, position, before, after, values, numbers,
        ),
        Op::LeftShift { n } => left_shift_step(*n, stage, position, before, after, values, numbers),
        Op::RightShift { n } => right_shift_step(
            *n, stage, position, before, after, values, numbers,
        ),
        Op::Swizzle { from } => swizzle_step(
            from, stage, position, before, after, values, spare, numbers, sums,
        ),
        Op::Convert { to, expand } => convert_step(
            *to, *expand, stage, position, before, after, values, numbers,
        ),
        Op::Linear { rows } => linear_step(
            rows, stage, position, before, after, values, numbers, sums,
        ),
        Op::Dither { .. } | Op::Scale { .. } | Op::Min { .. } | Op::Max { .. } => value_step(
            op, stage, position, before, after, values, numbers, sums,
        ),
    }
}
