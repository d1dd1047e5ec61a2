ghost use Rattle.std.specs.Prelude.{◌≡◌, ◌<◌, All, slice_index};
ghost use Rattle.frac_math.specs.Fraction.{min_ℚ, max_ℚ};
ghost use Rattle.frac_math.specs.Checked.{checked_sum, checked_product};
ghost use Rattle.op_list.specs.declared.values.Values.TheVariants.{Fractions};
ghost use Rattle.op_list.specs.Values.{four, all_four, fraction_in, entry};
ghost use Rattle.op_list.specs.Apply.{at_most, at_least, row_of};
ghost use Rattle.op_list.specs.Checked.{checked_term, checked_row};

use frac_math::Frac;
use std::cmp::Ordering;

// The same fraction added to every value.
pub fn added(term: &Frac, values: &[Frac; 4]) -> Option<[Frac; 4]>
    ensures { result ≡ all_four (λ i. checked_sum (fraction_in values.now i) term.now) }
{
    Some([
        values[0].checked_add(term)?,
        values[1].checked_add(term)?,
        values[2].checked_add(term)?,
        values[3].checked_add(term)?,
    ])
}

// Every value times a fraction.
pub fn scaled(by: &Frac, values: &[Frac; 4]) -> Option<[Frac; 4]>
    ensures { result ≡ all_four (λ i. checked_product (fraction_in values.now i) by.now) }
{
    Some([
        values[0].checked_mul(by)?,
        values[1].checked_mul(by)?,
        values[2].checked_mul(by)?,
        values[3].checked_mul(by)?,
    ])
}

// The linear map of the rows.
pub fn mapped(rows: &[[Frac; 5]; 4], values: &[Frac; 4]) -> Option<[Frac; 4]>
    ensures { result ≡ all_four (λ i. checked_row (row_of rows.now i) (Fractions values.now)) }
{
    Some([
        row_value(&rows[0], values)?,
        row_value(&rows[1], values)?,
        row_value(&rows[2], values)?,
        row_value(&rows[3], values)?,
    ])
}

// The products in order, each added to the sum so far, which starts with the constant.
#[tactic(auto, unfolding(crate::specs::Checked::checked_row))]
fn row_value(row: &[Frac; 5], values: &[Frac; 4]) -> Option<Frac>
    ensures { result ≡ checked_row row.now (Fractions values.now) }
{
    let first = row[4].checked_add(&row[0].checked_mul(&values[0])?)?;
    let second = first.checked_add(&row[1].checked_mul(&values[1])?)?;
    let third = second.checked_add(&row[2].checked_mul(&values[2])?)?;
    third.checked_add(&row[3].checked_mul(&values[3])?)
}

// The lesser of each value and its limit.
pub fn limited_above(limits: &[Option<Frac>; 4], values: &[Frac; 4]) -> [Frac; 4]
    ensures { result ≡ four (λ i. at_most (entry limits.now i) (fraction_in values.now i)) }
{
    [
        at_most(&limits[0], &values[0]),
        at_most(&limits[1], &values[1]),
        at_most(&limits[2], &values[2]),
        at_most(&limits[3], &values[3]),
    ]
}

fn at_most(limit: &Option<Frac>, value: &Frac) -> Frac
    ensures { result ≡ at_most limit.now value.now }
{
    match limit {
        Some(limit) => lesser(value, limit),
        None => *value,
    }
}

/// The lesser of two fractions.
pub fn lesser(a: &Frac, b: &Frac) -> Frac
    ensures { result ≡ min_ℚ a.now b.now }
{
    match a.cmp(b) {
        Ordering::Greater => *b,
        _ => *a,
    }
}

// The greater of each value and its limit.
pub fn limited_below(limits: &[Option<Frac>; 4], values: &[Frac; 4]) -> [Frac; 4]
    ensures { result ≡ four (λ i. at_least (entry limits.now i) (fraction_in values.now i)) }
{
    [
        at_least(&limits[0], &values[0]),
        at_least(&limits[1], &values[1]),
        at_least(&limits[2], &values[2]),
        at_least(&limits[3], &values[3]),
    ]
}

fn at_least(limit: &Option<Frac>, value: &Frac) -> Frac
    ensures { result ≡ at_least limit.now value.now }
{
    match limit {
        Some(limit) => greater(value, limit),
        None => *value,
    }
}

/// The greater of two fractions.
pub fn greater(a: &Frac, b: &Frac) -> Frac
    ensures { result ≡ max_ℚ a.now b.now }
{
    match a.cmp(b) {
        Ordering::Greater => *a,
        _ => *b,
    }
}

// New value i is old value from[i].
pub fn swizzled_fractions(from: &[u8; 4], values: &[Frac; 4]) -> [Frac; 4]
    requires { All (λ i. i < 4) from.now }
    ensures { result ≡ four (λ i. fraction_in values.now (slice_index from.now i)) }
{
    [
        values[usize::from(from[0])],
        values[usize::from(from[1])],
        values[usize::from(from[2])],
        values[usize::from(from[3])],
    ]
}
