// A linear map of fractions.
ghost use Rattle.std.specs.Prelude.{◌≡◌, ℕ, ◌<◌, ◌≤◌, true, length, IfSome, slice_index_or};
ghost use Rattle.op_list.specs.Typing.{stage_after, may_follow};
ghost use Rattle.kernel_step.specs.Forms.{IsBounded, IsRow, IsStep, Performs, extent_at};
ghost use Rattle.kernel_step.specs.Forms.{factors_at};
ghost use Rattle.kernel_step.specs.Forms.{width_of};
ghost use Rattle.op_list.specs.Apply.{row_of};

use crate::common::common_denominator;
use crate::form::{Form, NO_DIVISOR, NumberWidth};
use crate::numerator::Numerator;
use crate::rational::row_of_sums;
use crate::row_form::formed_row;
use frac_math::Frac;
use kernel_planes::WholeNumber;
use op_list::{Op, PixelPosition, Stage};

// The first n elements of one list at the front of another.
fn copy_front<T: Copy>(from: &[T], n: usize, to: &mut [T])
    requires from { n ≤ length from.now }
    requires to { n ≤ length to.old }
    ensures { (j : ℕ) (d : T) → j < n → slice_index_or to.new j d ≡ slice_index_or from.now j d }
{
    to[..n].copy_from_slice(&from[..n]);
}

/// A Linear: the rows of factors of the form after it.
pub fn linear_step<W: WholeNumber, N: Numerator>(
    _rows: &[[Frac; 5]; 4],
    stage: Stage,
    _position: &PixelPosition,
    before: &Form,
    after: &Form,
    _values: &[W],
    numbers: &mut [N],
    sums: &mut [N],
)
    requires follows { may_follow stage (Op.Linear _rows.now) ≡ true }
    requires step { IsStep W.bits N.width stage before.now (Op.Linear _rows.now) after.now }
    requires few { after.now.count ≤ 4 }
    requires block { (length numbers.old ≡ 256) × (length sums.old ≡ 256) }
    requires bounded { IsBounded W.number N.value stage before.now _values.now numbers.old }
    ensures bounded { IsBounded W.number N.value (stage_after stage
        (Op.Linear _rows.now)) after.now _values.now numbers.new }
    ensures holds { Performs W.number N.value stage before.now
        (Op.Linear _rows.now) after.now _position.now _values.now numbers.old _values.now
        numbers.new }
{
    for v in 0..after.count {
        row_of_sums(numbers, before, &after.factors[v], sums, v);
    }
    copy_front(sums, 64 * after.count, numbers);
}

/// The form after a Linear, over denominators that `also` divides.
pub fn linear_form(
    rows: &[[Frac; 5]; 4],
    before: &Form,
    count: usize,
    number_width: NumberWidth,
    also: i128,
) -> Option<Form>
    ensures few { IfSome result (λ form. form.count ≤ 4) }
    ensures rows { IfSome result (λ form. (v : ℕ) → v < form.count
        → IsRow (width_of number_width) before.now (row_of rows.now v) (factors_at form v)
        (extent_at form v)) }
{
    if count > 4 {
        return None;
    }
    let extents = before.extents;
    let mut after = Form {
        count: 0,
        extents,
        factors: [[0; 5]; 4],
        divisors: [NO_DIVISOR; 4],
    };
    for v in 0..count {
        let d = common_denominator(&rows[v], before, also)?;
        let row = formed_row(&rows[v], before, d, number_width)?;
        after.count += 1;
        let factors = row.factors;
        after.factors[v] = factors;
        after.extents[v] = row.extent;
    }
    Some(after)
}
