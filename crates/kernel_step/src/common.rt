// A common denominator of a row of coefficients.
ghost use Rattle.std.specs.Prelude.{pos, IfSome, ◌<ℤ◌};

use crate::form::Form;
use crate::row_form::is_zero;
use frac_math::{Frac, common_divisor};

/// The greatest common divisor of two numbers, where it is above 0 and fits.
pub fn common_part(a: i128, b: i128) -> Option<i128>
    ensures { IfSome result (λ divisor. pos 0 <ℤ divisor) }
{
    let divisor = i128::try_from(common_divisor(a.unsigned_abs(), b.unsigned_abs())).ok()?;
    if divisor <= 0 {
        return None;
    }
    Some(divisor)
}

fn common_multiple(a: i128, b: i128) -> Option<i128> {
    let divisor = common_part(a, b)?;
    (a / divisor).checked_mul(b)
}

/// A common denominator of all that a row works out, and of `also`.
pub fn common_denominator(row: &[Frac; 5], before: &Form, also: i128) -> Option<i128>
    ensures { IfSome result (λ d. pos 0 <ℤ d) }
{
    let mut d = common_multiple(also, row[4].den())?;
    for j in 0..4 {
        if row[j].num() != 0 && !is_zero(before, j) {
            d = common_multiple(d, before.extents[j].denominator.checked_mul(row[j].den())?)?;
        }
    }
    if d <= 0 {
        return None;
    }
    Some(d)
}
