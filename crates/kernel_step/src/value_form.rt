// The forms after operations on fractions that make each value from that value alone.
ghost use Rattle.std.specs.Prelude.{◌≡◌, ◌<◌, ◌≤◌, IfSome};
ghost use Rattle.kernel_step.specs.Forms.{AreMade, factor, width_of};
ghost use Rattle.kernel_step.specs.ValueSteps.{IsMade};

use crate::dither::dithered;
use crate::form::{Extent, Form, NO_DIVISOR, NumberWidth};
use crate::made::Made;
use crate::max::made_at_least;
use crate::min::made_at_most;
use crate::scale::scaled;
use op_list::Op;

// What an operation makes of value v.
fn made_of(op: &Op, v: usize, old: &Extent, number_width: NumberWidth) -> Option<Made>
    requires { v < 4 }
    ensures { IfSome result (λ made. IsMade (width_of number_width) op.now v old.now
        (factor made.factors 0) (factor made.factors 1) made.extent) }
{
    match op {
        Op::Scale { by } => scaled(old, by, number_width),
        Op::Min { limits } => made_at_most(old, &limits[v], number_width),
        Op::Max { limits } => made_at_least(old, &limits[v], number_width),
        Op::Dither { k } => dithered(old, *k, number_width),
        _ => None,
    }
}

/// The form after an operation that makes each value from that value alone.
pub fn value_form(op: &Op, before: &Form, count: usize, number_width: NumberWidth) -> Option<Form>
    ensures few { IfSome result (λ form. form.count ≤ 4) }
    ensures made { IfSome result (λ form. AreMade (width_of number_width) before.now op.now form) }
{
    if count > 4 {
        return None;
    }
    let extents = before.extents;
    let mut after = Form {
        count: 0,
        extents,
        factors: [[0; 5]; 4],
        divisors: [NO_DIVISOR; 4],
    };
    for v in 0..count {
        if before.count <= v {
            return None;
        }
        let made = made_of(op, v, &before.extents[v], number_width)?;
        let factors = made.factors;
        after.count += 1;
        after.factors[v] = factors;
        after.extents[v] = made.extent;
    }
    Some(after)
}
