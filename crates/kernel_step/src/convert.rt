// The values of a block in another type.
ghost use Rattle.std.specs.Prelude.{◌≡◌, ◌≤◌, ◌<◌, ◌^◌, ℕ, true, length, slice_index, IfSome};
ghost use Rattle.op_list.specs.Types.{bits_at, is_whole, is_whole_type, is_rational};
ghost use Rattle.op_list.specs.Typing.{may_follow, are_good, stage_after};
ghost use Rattle.op_list.specs.declared.types.PixType.TheVariants.{Rat};
ghost use Rattle.kernel_step.specs.Forms.{AreHeld, AreKept, AreNarrowed, AreReady, AreWidened};
ghost use Rattle.kernel_step.specs.Forms.{IsBounded, IsStep};
ghost use Rattle.kernel_step.specs.Forms.{Performs, bits_of, width_of};

use crate::form::{Form, NumberWidth, Storage, kept_form};
use crate::numerator::Numerator;
use crate::to_fractions::{widen_form, widen_step};
use crate::to_whole::{narrow_form, narrow_step};
use crate::whole_types::retype_step;
use kernel_planes::WholeNumber;
use op_list::{Op, PixType, PixelPosition, Stage};

/// A Convert of the values of a block.
pub fn convert_step<W: WholeNumber, N: Numerator>(
    to: PixType,
    expand: bool,
    stage: Stage,
    position: &PixelPosition,
    before: &Form,
    after: &Form,
    values: &mut [W],
    numbers: &mut [N],
)
    requires follows { may_follow stage (Op.Convert to expand) ≡ true }
    requires step { IsStep W.bits N.width stage before.now (Op.Convert to expand) after.now }
    requires ready { AreReady W.number N.width stage
        (Op.Convert to expand) after.now values.old }
    requires stored { 2 ^ bits_at (stage_after stage (Op.Convert to expand)) ≤ 2 ^ W.bits }
    requires few { after.now.count ≤ 4 }
    requires block { (length values.old ≡ 256) × (length numbers.old ≡ 256) }
    requires bounded { IsBounded W.number N.value stage before.now values.old numbers.old }
    ensures bounded { IsBounded W.number N.value
        (stage_after stage (Op.Convert to expand)) after.now values.new numbers.new }
    ensures holds { Performs W.number N.value stage before.now
        (Op.Convert to expand) after.now position.now values.old numbers.old values.new
        numbers.new }
{
    match to {
        PixType::Rat => fractions_step(expand, stage, position, before, after, values, numbers),
        PixType::U8 | PixType::U16 | PixType::U32 => whole_step(
            to, expand, stage, position, before, after, values, numbers,
        ),
    }
}

// A Convert to fractions, of whole numbers or of fractions.
fn fractions_step<W: WholeNumber, N: Numerator>(
    expand: bool,
    stage: Stage,
    position: &PixelPosition,
    before: &Form,
    after: &Form,
    values: &[W],
    numbers: &mut [N],
)
    requires follows { may_follow stage (Op.Convert Rat expand) ≡ true }
    requires step { IsStep W.bits N.width stage before.now (Op.Convert Rat expand) after.now }
    requires ready { AreReady W.number N.width stage
        (Op.Convert Rat expand) after.now values.now }
    requires few { after.now.count ≤ 4 }
    requires block { (length values.now ≡ 256) × (length numbers.old ≡ 256) }
    requires bounded { IsBounded W.number N.value stage before.now values.now numbers.old }
    ensures bounded { IsBounded W.number N.value
        (stage_after stage (Op.Convert Rat expand)) after.now values.now numbers.new }
    ensures holds { Performs W.number N.value stage before.now
        (Op.Convert Rat expand) after.now position.now values.now numbers.old values.now
        numbers.new }
{
    if stage.is_whole() {
        widen_step(expand, stage, position, before, after, values, numbers)
    }
}

// A Convert to whole numbers, of fractions or of whole numbers.
fn whole_step<W: WholeNumber, N: Numerator>(
    to: PixType,
    expand: bool,
    stage: Stage,
    position: &PixelPosition,
    before: &Form,
    after: &Form,
    values: &mut [W],
    numbers: &[N],
)
    requires whole { is_whole_type to ≡ true }
    requires follows { may_follow stage (Op.Convert to expand) ≡ true }
    requires step { IsStep W.bits N.width stage before.now (Op.Convert to expand) after.now }
    requires stored { 2 ^ bits_at (stage_after stage (Op.Convert to expand)) ≤ 2 ^ W.bits }
    requires few { after.now.count ≤ 4 }
    requires block { (length values.old ≡ 256) × (length numbers.now ≡ 256) }
    requires bounded { IsBounded W.number N.value stage before.now values.old numbers.now }
    ensures bounded { IsBounded W.number N.value
        (stage_after stage (Op.Convert to expand)) after.now values.new numbers.now }
    ensures holds { Performs W.number N.value stage before.now
        (Op.Convert to expand) after.now position.now values.old numbers.now values.new
        numbers.now }
{
    if stage.is_rational() {
        narrow_step(to, expand, stage, position, before, after, values, numbers)
    } else {
        retype_step(to, expand, stage, position, before, after, values, numbers)
    }
}

/// The form after a Convert.
pub fn convert_form(
    to: PixType,
    expand: bool,
    stage: Stage,
    limits: &[u64; 4],
    before: &Form,
    count: usize,
    storage: Storage,
    number_width: NumberWidth,
) -> Option<Form>
    ensures few { IfSome result (λ form. form.count ≤ 4) }
    ensures step { IfSome result (λ form. IsStep (bits_of storage)
        (width_of number_width) stage before.now
        (Op.Convert to expand) form) }
    ensures held { IfSome result (λ form. AreHeld (width_of number_width)
        (slice_index limits.now) stage (Op.Convert to expand) form) }
{
    if stage.is_rational() {
        match to {
            PixType::Rat => kept_form(before, count),
            PixType::U8 | PixType::U16 | PixType::U32 => narrow_form(
                to,
                stage,
                before,
                count,
                storage,
                number_width,
            ),
        }
    } else {
        match to {
            PixType::Rat => widen_form(expand, stage, limits, before, count, number_width),
            PixType::U8 | PixType::U16 | PixType::U32 => kept_form(before, count),
        }
    }
}
