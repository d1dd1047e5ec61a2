ghost use Rattle.std.specs.Prelude.{◌≡◌, ◌≤◌, true, length};
ghost use Rattle.op_list.specs.Types.{bits_at, is_rational};
ghost use Rattle.op_list.specs.Typing.{may_follow, are_good};
ghost use Rattle.op_list.specs.Pixel.{frame_length};
ghost use Rattle.op_list.specs.Values.{are_fractions};
ghost use Rattle.op_list.specs.Apply.{apply};
ghost use Rattle.op_list.specs.Checked.{checked_apply};
ghost use Rattle.op_list.specs.Run.{MayApply};

use crate::fractions::{added, limited_above, limited_below, mapped, scaled};
use crate::numbers::{packed, shifted_left, shifted_right, swapped, unpacked, written};
use crate::op::Op;
use crate::position::PixelPosition;
use crate::read::read_values;
use crate::types::Stage;
use crate::values::Values;
use frac_math::dither_at;

impl Op {
    // What the operation makes of the values at a position of a frame. None where the numbers of a
    // fraction leave i128.
    #[tactic(auto, unfolding(crate::specs::Checked::checked_apply, crate::specs::Apply::apply))]
    pub(crate) fn apply(
        &self,
        frame: &[u8],
        position: &PixelPosition,
        stage: Stage,
        values: &Values,
    ) -> Option<Values>
        requires { MayApply frame.now position.now stage self.now values.now }
        ensures { result ≡ checked_apply frame.now position.now stage self.now values.now }
    {
        match self {
            Op::Read {
                elem,
                planes,
                palette,
            } => Some(Values::Numbers(read_values(*elem, planes, *palette, frame, position))),
            Op::Write { planes, .. } => Some(Values::Numbers(written(planes, values.numbers()))),
            Op::SwapBytes => Some(Values::Numbers(swapped(values.numbers(), stage.bits()))),
            Op::Unpack { widths } => Some(Values::Numbers(unpacked(widths, values.numbers()[0]))),
            Op::Pack { widths } => Some(Values::Numbers([
                packed(widths, values.numbers()),
                0,
                0,
                0,
            ])),
            Op::Clear { values: entries } => Some(values.cleared(entries, stage.bits())),
            Op::LeftShift { n } => Some(Values::Numbers(shifted_left(
                values.numbers(),
                *n,
                stage.bits(),
            ))),
            Op::RightShift { n } => Some(Values::Numbers(shifted_right(values.numbers(), *n))),
            Op::Swizzle { from } => Some(values.swizzled(from)),
            Op::Convert { to, expand } => Some(values.converted(*to, *expand)),
            Op::Dither { k } => Some(Values::Fractions(added(
                &dither_at(*k, position.x, position.y),
                values.fractions(),
            )?)),
            Op::Linear { rows } => Some(Values::Fractions(mapped(rows, values.fractions())?)),
            Op::Scale { by } => Some(Values::Fractions(scaled(by, values.fractions())?)),
            Op::Min { limits } => Some(Values::Fractions(limited_above(
                limits,
                values.fractions(),
            ))),
            Op::Max { limits } => Some(Values::Fractions(limited_below(
                limits,
                values.fractions(),
            ))),
        }
    }
}
