// The numbers of a kernel, each value over its own denominator.
ghost use Rattle.std.specs.Prelude.{◌≡◌, ◌≤◌, ◌-◌, ◌+◌, ◌<◌, length, slice_index, IfOk};
ghost use Rattle.std.specs.Prelude.{IfSome};
ghost use Rattle.op_list.specs.Typing.{IsOpList};
ghost use Rattle.op_range.specs.States.{states_of};
ghost use Rattle.kernel_step.specs.Forms.{AreFew, AreHeld, AreSteps, IsStep, bits_of, width_of};

use crate::clear::clear_form;
use crate::convert::convert_form;
use crate::dither::parts_wanted;
use crate::form::{Form, NumberWidth, Storage, kept_form, whole_form};
use crate::limits::limits_of;
use crate::linear::linear_form;
use crate::pack::pack_form;
use crate::swizzle::swizzle_form;
use crate::unpack::unpack_form;
use crate::value_form::value_form;
use frac_math::OutOfMemory;
use op_list::{Op, Stage};
use op_range::StateRange;
use std::alloc::Global;

// The form after an operation, where a block of this width of numbers holds all its numbers. The
// whole numbers before it are below the limits. `also` divides the denominators of a Linear.
fn form_after(
    op: &Op,
    stage: Stage,
    limits: &[u64; 4],
    before: &Form,
    count: usize,
    storage: Storage,
    number_width: NumberWidth,
    also: i128,
) -> Option<Form>
    ensures few { IfSome result (λ form. form.count ≤ 4) }
    ensures step { IfSome result (λ form. IsStep (bits_of storage)
        (width_of number_width) stage before.now op.now form) }
    ensures held { IfSome result (λ form. AreHeld (width_of number_width)
        (slice_index limits.now) stage op.now form) }
{
    match op {
        Op::Read { .. } => None,
        Op::Write { .. } => None,
        Op::SwapBytes => kept_form(before, count),
        Op::Unpack { .. } => unpack_form(before, count),
        Op::Pack { widths } => pack_form(widths, before, count),
        Op::Clear { values } => clear_form(values, stage, before, count, number_width),
        Op::LeftShift { .. } => kept_form(before, count),
        Op::RightShift { .. } => kept_form(before, count),
        Op::Swizzle { from } => swizzle_form(from, before, count),
        Op::Convert { to, expand } => convert_form(
            *to,
            *expand,
            stage,
            limits,
            before,
            count,
            storage,
            number_width,
        ),
        Op::Linear { rows } => linear_form(rows, before, count, number_width, also),
        Op::Dither { .. } | Op::Scale { .. } | Op::Min { .. } | Op::Max { .. } => value_form(
            op,
            before,
            count,
            number_width,
        ),
    }
}

// What the operation behind another one wants to divide its denominators.
fn wanted_behind(ops: &[Op], k: usize) -> i128
    requires { k + 1 < length ops.now }
{
    parts_wanted(&ops[k + 1])
}

/// The forms after the operations of a list, each value over its own denominator, where a block of
/// this width of numbers holds all their numbers.
/// `counts` says how many values are wanted after each.
pub fn forms_of(
    alloc: Global,
    ops: &[Op],
    ranges: &[StateRange],
    counts: &[usize; 24],
    storage: Storage,
    number_width: NumberWidth,
) -> Result<Option<Vec<Form>>, OutOfMemory>
    requires sound { IsOpList ops.now }
    requires some { 2 ≤ length ops.now }
    requires ranges { ranges.now ≡ states_of ops.now }
    ensures size { IfOk result (λ found. IfSome found (λ forms. length forms.items
        ≡ length ops.now)) }
    ensures few { IfOk result (λ found. IfSome found (λ forms. AreFew forms.items)) }
    ensures steps { IfOk result (λ found. IfSome found (λ forms. AreSteps ops.now forms.items
        (bits_of storage) (width_of number_width) (length ops.now - 1))) }
{
    let mut forms = Vec::new(alloc);
    forms.push(whole_form(4))?;
    let mut stage = ops[0].stage_after(Stage::Start);
    for k in 1..ops.len() - 1 {
        let limits = limits_of(&ranges[k - 1], stage.bits());
        let also = wanted_behind(ops, k);
        match form_after(
            &ops[k],
            stage,
            &limits,
            &forms[k - 1],
            counts[k],
            storage,
            number_width,
            also,
        ) {
            Some(form) => forms.push(form)?,
            None => return Ok(None),
        }
        stage = ops[k].stage_after(stage);
    }
    forms.push(whole_form(4))?;
    Ok(Some(forms))
}
