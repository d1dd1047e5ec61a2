// The form after one operation, within the width of a list.
ghost use Rattle.std.specs.Prelude.{◌≡◌, ℕ, ◌-◌, ◌/◌, ◌<◌, ◌≤◌, ◌^◌, true, false, IfSome};
ghost use Rattle.std.specs.Prelude.{unsigned_abs};
ghost use Rattle.op_list.specs.Types.{bits_at, is_rational, is_typed, is_whole_type};
ghost use Rattle.op_list.specs.Typing.{are_good, is_write, may_follow, stage_after};
ghost use Rattle.op_range.specs.Width.{width_after};
ghost use Rattle.kernel_step.specs.Forms.{AreKept, IsNarrowed, IsStep, IsWidened, bits_of};
ghost use Rattle.kernel_step.specs.Forms.{AreHeld, IsCleared, extent_at, factor, factors_at};
ghost use Rattle.kernel_step.specs.Forms.{width_of};
ghost use Rattle.op_list.specs.Values.{entry};
ghost use Rattle.kernel_step.specs.ValueSteps.{IsDivided};
ghost use Rattle.kernel_joint.specs.Joint.{AreSame, IsGiven, IsJoint, IsJointStep, IsSmall};
ghost use Rattle.kernel_joint.specs.Joint.{room};
ghost use Rattle.kernel_joint.specs.Joint.{extent_size};

use crate::joint_clear::joint_clear_form;
use crate::joint_form::{
    joint_kept_form, joint_made_form, joint_moved_form, joint_narrowed_form, joint_rows_form,
    joint_widened_form,
};
use frac_math::Frac;
use kernel_step::{Divisor, Form, NumberWidth, Storage};
use op_list::{Op, PixType, Stage};
use op_range::Width;

// How many times the joint denominator grows.
fn growth(width: &Width, next: &Width) -> u128
    requires { 0 < width.now.denominator }
    ensures { result ≡ next.now.denominator / width.now.denominator }
{
    next.denominator / width.denominator
}

// After a Convert.
fn converted(to: PixType, stage: Stage, before: &Form, number_width: NumberWidth) -> Form
    requires count { before.now.count ≡ 4 }
    requires room { is_rational stage ≡ false → is_whole_type to ≡ false
        → 2 ^ bits_at stage ≤ room number_width }
    requires divisors { is_rational stage ≡ true → (v : ℕ) → v < 4
        → IsDivided (width_of number_width) 0 (extent_at before.now v) Divisor.Plain }
    ensures count { result.count ≡ 4 }
    ensures kept { is_rational stage ≡ true → is_whole_type to ≡ false → AreKept before.now result }
    ensures narrowed { is_rational stage ≡ true → is_whole_type to ≡ true → (bits v : ℕ) → v < 4
        → IsNarrowed (width_of number_width) bits before.now result v }
    ensures widened { is_rational stage ≡ false → is_whole_type to ≡ false → (v : ℕ) → v < 4
        → IsWidened (width_of number_width) (2 ^ bits_at stage) (extent_at result v)
        × (extent_size (extent_at result v) ≡ 2 ^ bits_at stage - 1) }
{
    if stage.is_rational() {
        match to {
            PixType::Rat => joint_kept_form(before),
            PixType::U8 | PixType::U16 | PixType::U32 => joint_narrowed_form(before, number_width),
        }
    } else {
        match to {
            PixType::Rat => joint_widened_form(stage.bits(), number_width),
            PixType::U8 | PixType::U16 | PixType::U32 => joint_kept_form(before),
        }
    }
}

// After a Clear. Whole numbers owe no extent.
fn cleared(
    entries: &[Option<Frac>; 4],
    stage: Stage,
    before: &Form,
    number_width: NumberWidth,
) -> Form
    requires count { before.now.count ≡ 4 }
    requires small { is_rational stage ≡ true → (v : ℕ) → v < 4 → IfSome (entry entries.now v)
        (λ x. unsigned_abs x.numerator < room number_width) }
    ensures count { result.count ≡ 4 }
    ensures cleared { (v : ℕ) → v < 4 → IsCleared (width_of number_width) (is_rational stage)
        before.now v (entry entries.now v) (factor (factors_at result v) 0) (extent_at result v) }
{
    if stage.is_rational() {
        joint_clear_form(entries, before, number_width)
    } else {
        joint_kept_form(before)
    }
}

// After an operation, in blocks that hold its whole numbers.
fn stepped(
    op: &Op,
    stage: Stage,
    before: &Form,
    width: &Width,
    next: &Width,
    number_width: NumberWidth,
) -> Form
    requires typed { is_typed stage ≡ true }
    requires inner { is_write op.now ≡ false }
    requires given { IsGiven number_width stage op.now before.now width.now next.now }
    ensures { (bits : ℕ) → 2 ^ bits_at (stage_after stage op.now) ≤ 2 ^ bits
        → IsJointStep number_width bits stage before.now op.now result next.now }
{
    match op {
        Op::Read { .. } => unreachable!(),
        Op::Write { .. } => unreachable!(),
        Op::SwapBytes => joint_kept_form(before),
        Op::Unpack { .. } => joint_kept_form(before),
        Op::Pack { .. } => joint_kept_form(before),
        Op::Clear { values } => cleared(values, stage, before, number_width),
        Op::LeftShift { .. } => joint_kept_form(before),
        Op::RightShift { .. } => joint_kept_form(before),
        Op::Swizzle { from } => joint_moved_form(from, before),
        Op::Convert { to, .. } => converted(*to, stage, before, number_width),
        Op::Linear { rows } => joint_rows_form(
            rows,
            before,
            growth(width, next),
            width.denominator,
            number_width,
        ),
        Op::Dither { .. } | Op::Scale { .. } | Op::Min { .. } | Op::Max { .. } => joint_made_form(
            op,
            before,
            growth(width, next),
            next.denominator,
            number_width,
        ),
    }
}

/// The form after one operation within the width of a list: four values, each over a
/// denominator that divides that of the next width, and with numerators of at most its sizes.
pub fn joint_form(
    op: &Op,
    stage: Stage,
    before: &Form,
    _storage: Storage,
    width: &Width,
    next: &Width,
    number_width: NumberWidth,
) -> Form
    requires typed { is_typed stage ≡ true }
    requires inner { is_write op.now ≡ false }
    requires follows { may_follow stage op.now ≡ true }
    requires good { are_good stage op.now ≡ true }
    requires stored { 2 ^ bits_at (stage_after stage op.now) ≤ 2 ^ bits_of _storage }
    requires joint { IsJoint stage before.now width.now }
    requires small { IsSmall number_width width.now }
    requires next { AreSame next.now (width_after stage op.now width.now) }
    requires next_small { IsSmall number_width next.now }
    ensures few { result.count ≤ 4 }
    ensures step { IsStep (bits_of _storage) (width_of number_width) stage
        before.now op.now result }
    ensures held { AreHeld (width_of number_width) (λ v. 2 ^ bits_at stage) stage op.now result }
    ensures joint { IsJoint (stage_after stage op.now) result next.now }
{
    stepped(op, stage, before, width, next, number_width)
}
