// The least and the greatest sum of a row of factors.
ghost use Rattle.std.specs.Prelude.{◌≡◌, ◌<◌, ℤ, pos, true, false, IfSome, IsTrue, ◌≤ℤ◌, ◌*ℤ◌};
ghost use Rattle.std.specs.Prelude.{◌+ℤ◌, ◌⊎◌, FitsSigned};
ghost use Rattle.kernel_step.specs.Rules.{IsAdded, IsNextSum};
ghost use Rattle.kernel_step.specs.Forms.{width_of, factor, extent_at, IsRange};

use crate::form::{Form, NumberWidth};

// Whether a number fits a width of numbers.
pub fn fits(n: i128, number_width: NumberWidth) -> bool
    ensures { result ≡ true → FitsSigned (width_of number_width) n }
{
    match number_width {
        NumberWidth::Bits32 => -2_147_483_648 <= n && n <= 2_147_483_647,
        NumberWidth::Bits64 => -9_223_372_036_854_775_808 <= n && n <= 9_223_372_036_854_775_807,
        NumberWidth::Bits128 => true,
    }
}

/// Both ends of an interval with those of another one, where all of them fit.
pub fn added(
    low: i128,
    high: i128,
    p: i128,
    q: i128,
    number_width: NumberWidth,
) -> Option<(i128, i128)>
    ensures { IfSome result (λ r. IsAdded (width_of number_width) low high p q r.0 r.1) }
{
    if !fits(p, number_width) {
        return None;
    }
    if !fits(q, number_width) {
        return None;
    }
    let lower = low.checked_add(p)?;
    let higher = high.checked_add(q)?;
    if !fits(lower, number_width) {
        return None;
    }
    if !fits(higher, number_width) {
        return None;
    }
    Some((lower, higher))
}

// The interval of the sums with k times the numbers of another interval, where all of it fits.
pub fn next_interval(
    low: i128,
    high: i128,
    k: i128,
    least: i128,
    greatest: i128,
    number_width: NumberWidth,
) -> Option<(i128, i128)>
    requires low { FitsSigned (width_of number_width) low }
    requires high { FitsSigned (width_of number_width) high }
    ensures sums { IfSome result (λ r. IsNextSum
        (width_of number_width) low high k least greatest r.0 r.1) }
    ensures low { IfSome result (λ r. FitsSigned (width_of number_width) r.0) }
    ensures high { IfSome result (λ r. FitsSigned (width_of number_width) r.1) }
{
    if k == 0 {
        return Some((low, high));
    }
    let first = k.checked_mul(least)?;
    let second = k.checked_mul(greatest)?;
    if 0 <= k {
        added(low, high, first, second, number_width)
    } else {
        added(low, high, second, first, number_width)
    }
}

// The next interval, with factor j of a row and the extent of value j.
fn next_of(
    low: i128,
    high: i128,
    factors: &[i128; 5],
    j: usize,
    before: &Form,
    number_width: NumberWidth,
) -> Option<(i128, i128)>
    requires j { j < 4 }
    requires low { FitsSigned (width_of number_width) low }
    requires high { FitsSigned (width_of number_width) high }
    ensures sums { IfSome result (λ r. IsNextSum (width_of number_width) low high
        (factor factors.now j)
        (extent_at before.now j).least (extent_at before.now j).greatest r.0 r.1) }
    ensures low { IfSome result (λ r. FitsSigned (width_of number_width) r.0) }
    ensures high { IfSome result (λ r. FitsSigned (width_of number_width) r.1) }
{
    let extent = before.extents[j];
    next_interval(
        low,
        high,
        factors[j],
        extent.least,
        extent.greatest,
        number_width,
    )
}

// The least and the greatest sum of a row, where all of it fits.
pub fn row_interval(
    factors: &[i128; 5],
    before: &Form,
    number_width: NumberWidth,
) -> Option<(i128, i128)>
    ensures range { IfSome result (λ r. IsRange
        (width_of number_width) before.now factors.now r.0 r.1) }
    ensures low { IfSome result (λ r. FitsSigned (width_of number_width) r.0) }
    ensures high { IfSome result (λ r. FitsSigned (width_of number_width) r.1) }
{
    let constant = constant_of(factors, number_width)?;
    let first = next_of(constant, constant, factors, 0, before, number_width)?;
    let second = next_of(first.0, first.1, factors, 1, before, number_width)?;
    let third = next_of(second.0, second.1, factors, 2, before, number_width)?;
    next_of(third.0, third.1, factors, 3, before, number_width)
}

// The constant of a row, where it fits.
fn constant_of(factors: &[i128; 5], number_width: NumberWidth) -> Option<i128>
    ensures value { IfSome result (λ constant. constant ≡ factor factors.now 4) }
    ensures fits { IfSome result (λ constant. FitsSigned (width_of number_width) constant) }
{
    if fits(factors[4], number_width) {
        Some(factors[4])
    } else {
        None
    }
}
