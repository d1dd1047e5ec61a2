// The factors of a row of coefficients.
ghost use Rattle.std.specs.Prelude.{◌≡◌, ℕ, ◌<◌, ◌≤◌, true, pos, IfSome, ◌*ℤ◌, ◌-ℤ◌, ◌<ℤ◌};
ghost use Rattle.std.specs.Prelude.{FitsSigned, unsigned_abs};
ghost use Rattle.std.specs.Int.{w128};
ghost use Rattle.kernel_step.specs.Forms.{width_of, factor, IsTerm, IsRow, IsZero};

use crate::form::{Extent, Form, NumberWidth};
use crate::interval::{fits, row_interval};
use frac_math::Frac;

/// The product, where it fits.
pub fn product_of(a: i128, b: i128) -> Option<i128>
    ensures value { IfSome result (λ product. product ≡ a *ℤ b) }
    ensures fits { IfSome result (λ product. FitsSigned w128 product) }
{
    a.checked_mul(b)
}

/// The difference, where it fits.
pub fn difference_of(a: i128, b: i128) -> Option<i128>
    ensures value { IfSome result (λ difference. difference ≡ a -ℤ b) }
    ensures fits { IfSome result (λ difference. FitsSigned w128 difference) }
{
    a.checked_sub(b)
}

// The quotient, where it is whole.
pub fn whole_quotient(above: i128, below: i128) -> Option<i128>
    requires { pos 0 <ℤ below }
    ensures value { IfSome result (λ k. k *ℤ below ≡ above) }
    ensures fits { IfSome result (λ k. FitsSigned w128 k) }
{
    let k = above / below;
    if k.checked_mul(below)? == above {
        Some(k)
    } else {
        None
    }
}

/// Whether value j is always 0.
pub fn is_zero(before: &Form, j: usize) -> bool
    requires { j < 4 }
    ensures { result ≡ true → IsZero before.now j }
{
    if before.count <= j {
        return false;
    }
    if before.extents[j].least != 0 {
        return false;
    }
    before.extents[j].greatest == 0
}

// The factor of a coefficient over the denominator d, for value j of a block.
fn factor_of(coefficient: &Frac, before: &Form, j: usize, d: i128) -> Option<i128>
    requires j { j < 4 }
    requires d { pos 0 <ℤ d }
    ensures term { IfSome result (λ k. IsTerm before.now coefficient.now k (unsigned_abs d) j) }
    ensures fits { IfSome result (λ k. FitsSigned w128 k) }
{
    if coefficient.num() == 0 {
        return Some(0);
    }
    if before.count <= j {
        return None;
    }
    if is_zero(before, j) {
        return Some(0);
    }
    let below = product_of(before.extents[j].denominator, coefficient.den())?;
    if below <= 0 {
        return None;
    }
    let above = product_of(coefficient.num(), d)?;
    whole_quotient(above, below)
}

/// A fraction as a number over the denominator d, where it is whole.
pub fn number_over(constant: &Frac, d: i128) -> Option<i128>
    ensures value { IfSome result (λ k. k *ℤ pos constant.now.denominator
        ≡ constant.now.numerator *ℤ d) }
    ensures fits { IfSome result (λ k. FitsSigned w128 k) }
{
    let below = constant.den();
    if below <= 0 {
        return None;
    }
    let above = product_of(constant.num(), d)?;
    whole_quotient(above, below)
}

// Whether all factors of a row fit.
fn all_fit(factors: &[i128; 5], number_width: NumberWidth) -> bool
    ensures { result ≡ true → (j : ℕ) → j < 5
        → FitsSigned (width_of number_width) (factor factors.now j) }
{
    for k in factors {
        if !fits(*k, number_width) {
            return false;
        }
    }
    true
}

/// A row of factors and a constant over the denominator of its sum, and the extent of the sum.
#[derive(Clone, Copy, Debug)]
pub struct Row {
    pub factors: [i128; 5],
    pub extent: Extent,
}

/// The row of factors of a row of coefficients over the denominator d, where a width of numbers
/// holds all that it works out.
pub fn formed_row(row: &[Frac; 5], before: &Form, d: i128, number_width: NumberWidth) -> Option<Row>
    requires { pos 0 <ℤ d }
    ensures { IfSome result (λ made. IsRow
        (width_of number_width) before.now row.now made.factors made.extent) }
{
    let factors = [
        factor_of(&row[0], before, 0, d)?,
        factor_of(&row[1], before, 1, d)?,
        factor_of(&row[2], before, 2, d)?,
        factor_of(&row[3], before, 3, d)?,
        number_over(&row[4], d)?,
    ];
    if !all_fit(&factors, number_width) {
        return None;
    }
    let range = row_interval(&factors, before, number_width)?;
    Some(Row {
        factors,
        extent: Extent {
            denominator: d,
            least: range.0,
            greatest: range.1,
        },
    })
}
