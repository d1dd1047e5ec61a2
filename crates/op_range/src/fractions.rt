ghost use Rattle.std.specs.Prelude.{◌≡◌, ◌<◌, ◌≤◌, ◌&&◌, ◌*◌, ◌^◌, pos, None, slice_index_or};
ghost use Rattle.std.specs.Option.{option_and_then};
ghost use Rattle.frac_math.specs.Fraction.{min_ℚ, max_ℚ, over};
ghost use Rattle.frac_math.specs.Checked.{checked_sum};
ghost use Rattle.op_list.specs.Values.{four, fraction_in};
ghost use Rattle.op_range.specs.Ranges.{cleared_range, dithered_range, scaled_range, row_range};
ghost use Rattle.op_range.specs.Ranges.{range_at_most, range_at_least, is_whole_number};
ghost use Rattle.op_range.specs.Ranges.{is_whole_limit, sum_of, product_of, is_negative};
ghost use Rattle.op_range.specs.Ranges.{least_product, greatest_product, keeps_whole, range_in};
ghost use Rattle.op_range.specs.Ranges.{row_sum, limited, limited_or_limit};

use crate::numbers::times;
use crate::range::{Ranges, ValueRange};
use frac_math::Frac;
use op_list::{greater, lesser};

pub fn cleared(range: &ValueRange, value: &Option<Frac>) -> ValueRange
    ensures { result ≡ cleared_range value.now range.now }
{
    match value {
        Some(value) => ValueRange {
            least: Some(*value),
            greatest: Some(*value),
            whole: is_whole(value),
        },
        None => *range,
    }
}

pub fn is_whole(value: &Frac) -> bool
    ensures { result ≡ is_whole_number value.now }
{
    value.den() == 1
}

fn is_whole_limit(limit: &Option<Frac>) -> bool
    ensures { result ≡ is_whole_limit limit.now }
{
    match limit {
        Some(limit) => is_whole(limit),
        None => true,
    }
}

fn is_negative(value: &Frac) -> bool
    ensures { result ≡ is_negative value.now }
{
    value.num() < 0
}

pub fn scaled(range: &ValueRange, by: &Frac) -> ValueRange
    ensures { result ≡ scaled_range by.now range.now }
{
    let low = times(by, &range.least);
    let high = times(by, &range.greatest);
    let whole = is_whole(by) && range.whole;
    if is_negative(by) {
        ValueRange {
            least: high,
            greatest: low,
            whole,
        }
    } else {
        ValueRange {
            least: low,
            greatest: high,
            whole,
        }
    }
}

fn product_of(coefficient: &Frac, bound: &Option<Frac>) -> Option<Frac>
    ensures { result ≡ product_of coefficient.now bound.now }
{
    let zero = Frac::whole(0);
    if *coefficient == zero {
        return Some(zero);
    }
    match bound {
        Some(bound) => coefficient.checked_mul(bound),
        None => None,
    }
}

fn sum_of(a: &Option<Frac>, b: &Option<Frac>) -> Option<Frac>
    ensures { result ≡ sum_of a.now b.now }
{
    match (a, b) {
        (Some(a), Some(b)) => a.checked_add(b),
        _ => None,
    }
}

fn least_product(coefficient: &Frac, range: &ValueRange) -> Option<Frac>
    ensures { result ≡ least_product coefficient.now range.now }
{
    if is_negative(coefficient) {
        product_of(coefficient, &range.greatest)
    } else {
        product_of(coefficient, &range.least)
    }
}

fn greatest_product(coefficient: &Frac, range: &ValueRange) -> Option<Frac>
    ensures { result ≡ greatest_product coefficient.now range.now }
{
    if is_negative(coefficient) {
        product_of(coefficient, &range.least)
    } else {
        product_of(coefficient, &range.greatest)
    }
}

fn keeps_whole(coefficient: &Frac, range: &ValueRange) -> bool
    ensures { result ≡ keeps_whole coefficient.now range.now }
{
    is_whole(coefficient) && (*coefficient == Frac::whole(0) || range.whole)
}

// The sum of a row's constant and its four products.
fn row_sum(row: &[Frac; 5], terms: &[Option<Frac>; 4]) -> Option<Frac>
    ensures { result ≡ row_sum row.now (λ j. slice_index_or terms.now j None) }
{
    let first = sum_of(&Some(row[4]), &terms[0]);
    let second = sum_of(&first, &terms[1]);
    let third = sum_of(&second, &terms[2]);
    sum_of(&third, &terms[3])
}

fn least_terms(row: &[Frac; 5], ranges: &[ValueRange; 4]) -> [Option<Frac>; 4]
    ensures { result ≡ four (λ j. least_product (fraction_in row.now j) (range_in ranges.now j)) }
{
    [
        least_product(&row[0], &ranges[0]),
        least_product(&row[1], &ranges[1]),
        least_product(&row[2], &ranges[2]),
        least_product(&row[3], &ranges[3]),
    ]
}

fn greatest_terms(row: &[Frac; 5], ranges: &[ValueRange; 4]) -> [Option<Frac>; 4]
    ensures { result ≡ four
        (λ j. greatest_product (fraction_in row.now j) (range_in ranges.now j)) }
{
    [
        greatest_product(&row[0], &ranges[0]),
        greatest_product(&row[1], &ranges[1]),
        greatest_product(&row[2], &ranges[2]),
        greatest_product(&row[3], &ranges[3]),
    ]
}

fn stays_whole(row: &[Frac; 5], ranges: &[ValueRange; 4]) -> bool
    ensures { result ≡ (keeps_whole (fraction_in row.now 0) (range_in ranges.now 0)
        && keeps_whole (fraction_in row.now 1) (range_in ranges.now 1)
        && keeps_whole (fraction_in row.now 2) (range_in ranges.now 2)
        && keeps_whole (fraction_in row.now 3) (range_in ranges.now 3)
        && is_whole_number (fraction_in row.now 4)) }
{
    keeps_whole(&row[0], &ranges[0])
        && keeps_whole(&row[1], &ranges[1])
        && keeps_whole(&row[2], &ranges[2])
        && keeps_whole(&row[3], &ranges[3])
        && is_whole(&row[4])
}

fn least_sum(row: &[Frac; 5], ranges: &Ranges) -> Option<Frac>
    ensures { result ≡ row_sum row.now
        (λ j. least_product (fraction_in row.now j) (range_in ranges.now j)) }
{
    let terms = least_terms(row, ranges);
    row_sum(row, &terms)
}

fn greatest_sum(row: &[Frac; 5], ranges: &Ranges) -> Option<Frac>
    ensures { result ≡ row_sum row.now
        (λ j. greatest_product (fraction_in row.now j) (range_in ranges.now j)) }
{
    let terms = greatest_terms(row, ranges);
    row_sum(row, &terms)
}

pub fn mapped(row: &[Frac; 5], ranges: &Ranges) -> ValueRange
    ensures { result ≡ row_range row.now ranges.now }
{
    ValueRange {
        least: least_sum(row, ranges),
        greatest: greatest_sum(row, ranges),
        whole: stays_whole(row, ranges),
    }
}

// numerator/denominator
fn ratio(numerator: u64, denominator: u64) -> Frac
    requires { 0 < denominator }
    ensures { result ≡ over (pos numerator) denominator }
{
    Frac::new(i128::from(numerator), i128::from(denominator)).unwrap()
}

// 2 * 4^k
pub fn dither_places(k: u8) -> u64
    requires { k ≤ 4 }
    ensures value { result ≡ 2 * 4 ^ k }
    ensures positive { 0 < result }
{
    match k {
        0 => 2,
        1 => 8,
        2 => 32,
        3 => 128,
        _ => 512,
    }
}

fn added(bound: &Option<Frac>, term: &Frac) -> Option<Frac>
    ensures { result ≡ option_and_then (λ x. checked_sum x term.now) bound.now }
{
    match bound {
        Some(bound) => bound.checked_add(term),
        None => None,
    }
}

pub fn dithered(range: &ValueRange, k: u8) -> ValueRange
    requires { k ≤ 4 }
    ensures { result ≡ dithered_range k range.now }
{
    let places = dither_places(k);
    ValueRange {
        least: added(&range.least, &ratio(1, places)),
        greatest: added(&range.greatest, &ratio(places - 1, places)),
        whole: false,
    }
}

pub fn limited_above(range: &ValueRange, limit: &Option<Frac>) -> ValueRange
    ensures { result ≡ range_at_most limit.now range.now }
{
    ValueRange {
        least: least_below(&range.least, limit),
        greatest: greatest_below(&range.greatest, limit),
        whole: range.whole && is_whole_limit(limit),
    }
}

fn least_below(bound: &Option<Frac>, limit: &Option<Frac>) -> Option<Frac>
    ensures { result ≡ limited min_ℚ limit.now bound.now }
{
    match (bound, limit) {
        (None, _) => None,
        (Some(bound), None) => Some(*bound),
        (Some(bound), Some(limit)) => Some(lesser(bound, limit)),
    }
}

fn greatest_below(bound: &Option<Frac>, limit: &Option<Frac>) -> Option<Frac>
    ensures { result ≡ limited_or_limit min_ℚ limit.now bound.now }
{
    match (bound, limit) {
        (None, _) => *limit,
        (Some(bound), None) => Some(*bound),
        (Some(bound), Some(limit)) => Some(lesser(bound, limit)),
    }
}

pub fn limited_below(range: &ValueRange, limit: &Option<Frac>) -> ValueRange
    ensures { result ≡ range_at_least limit.now range.now }
{
    ValueRange {
        least: least_above(&range.least, limit),
        greatest: greatest_above(&range.greatest, limit),
        whole: range.whole && is_whole_limit(limit),
    }
}

fn least_above(bound: &Option<Frac>, limit: &Option<Frac>) -> Option<Frac>
    ensures { result ≡ limited_or_limit max_ℚ limit.now bound.now }
{
    match (bound, limit) {
        (None, _) => *limit,
        (Some(bound), None) => Some(*bound),
        (Some(bound), Some(limit)) => Some(greater(bound, limit)),
    }
}

fn greatest_above(bound: &Option<Frac>, limit: &Option<Frac>) -> Option<Frac>
    ensures { result ≡ limited max_ℚ limit.now bound.now }
{
    match (bound, limit) {
        (None, _) => None,
        (Some(bound), None) => Some(*bound),
        (Some(bound), Some(limit)) => Some(greater(bound, limit)),
    }
}
