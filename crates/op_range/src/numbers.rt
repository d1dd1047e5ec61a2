ghost use Rattle.std.specs.Prelude.{◌≡◌, ◌<◌, ◌≤◌, ◌-◌, ◌^◌, ◌&&◌, if◌then◌else◌, sum};
ghost use Rattle.std.specs.Option.{option_map};
ghost use Rattle.frac_math.specs.Fraction.{whole, floor, is_at_most};
ghost use Rattle.op_range.specs.Ranges.{from_to, full, times, lies_in_full, is_there_and};
ghost use Rattle.op_range.specs.Ranges.{fits_full, where_it_fits, multiplied_range, floored_range};
ghost use Rattle.op_range.specs.Ranges.{shifted_right, is_zero_bound, swapped_range, left_range};
ghost use Rattle.op_range.specs.Ranges.{right_range, as_whole_range};

use crate::range::ValueRange;
use frac_math::Frac;
use std::cmp::Ordering;

// Whole numbers from least to greatest.
pub fn from_to(least: u64, greatest: u64) -> ValueRange
    ensures { result ≡ from_to least greatest }
{
    ValueRange {
        least: Some(Frac::whole(i128::from(least))),
        greatest: Some(Frac::whole(i128::from(greatest))),
        whole: true,
    }
}

// 2^n
fn power(n: u32) -> u64
    requires { n ≤ 32 }
    ensures { result ≡ 2 ^ n }
{
    1 << n
}

// The whole numbers of so many bits.
pub fn full(bits: u32) -> ValueRange
    requires { bits ≤ 32 }
    ensures { result ≡ full bits }
{
    from_to(0, power(bits) - 1)
}

// Whether a bound lies from 0 to 2^bits - 1.
fn lies_in_full(bound: &Frac, bits: u32) -> bool
    requires { bits ≤ 32 }
    ensures { result ≡ lies_in_full bits bound.now }
{
    let most = Frac::whole(i128::from(power(bits) - 1));
    is_at_most(&Frac::whole(0), bound) && is_at_most(bound, &most)
}

/// Whether a is at most b.
pub fn is_at_most(a: &Frac, b: &Frac) -> bool
    ensures { result ≡ is_at_most a.now b.now }
{
    match a.cmp(b) {
        Ordering::Greater => false,
        _ => true,
    }
}

fn bound_fits(bound: &Option<Frac>, bits: u32) -> bool
    requires { bits ≤ 32 }
    ensures { result ≡ is_there_and (lies_in_full bits) bound.now }
{
    match bound {
        Some(bound) => lies_in_full(bound, bits),
        None => false,
    }
}

// Whether both bounds are there and have so many bits.
fn fits_full(range: &ValueRange, bits: u32) -> bool
    requires { bits ≤ 32 }
    ensures { result ≡ fits_full bits range.now }
{
    bound_fits(&range.least, bits) && bound_fits(&range.greatest, bits)
}

// The range where it has so many bits, else the other one.
fn where_it_fits(range: &ValueRange, bits: u32, other: &ValueRange) -> ValueRange
    requires { bits ≤ 32 }
    ensures { result ≡ where_it_fits bits range.now other.now }
{
    if fits_full(range, bits) {
        *range
    } else {
        *other
    }
}

// A bound times a fraction.
pub fn times(by: &Frac, bound: &Option<Frac>) -> Option<Frac>
    ensures { result ≡ times by.now bound.now }
{
    match bound {
        Some(bound) => bound.checked_mul(by),
        None => None,
    }
}

// Both bounds of whole numbers times a factor.
fn multiplied(range: &ValueRange, factor: u64) -> ValueRange
    ensures { result ≡ multiplied_range factor range.now }
{
    let by = Frac::whole(i128::from(factor));
    ValueRange {
        least: times(&by, &range.least),
        greatest: times(&by, &range.greatest),
        whole: true,
    }
}

fn floored_bound(bound: &Option<Frac>) -> Option<Frac>
    ensures { result ≡ option_map (λ x. whole (floor x)) bound.now }
{
    match bound {
        Some(bound) => Some(Frac::whole(bound.floor())),
        None => None,
    }
}

// Both bounds floored.
fn floored(range: &ValueRange) -> ValueRange
    ensures { result ≡ floored_range range.now }
{
    ValueRange {
        least: floored_bound(&range.least),
        greatest: floored_bound(&range.greatest),
        whole: true,
    }
}

fn is_zero_bound(bound: &Option<Frac>) -> bool
    ensures { result ≡ is_zero_bound bound.now }
{
    match bound {
        Some(bound) => *bound == Frac::whole(0),
        None => false,
    }
}

// The bytes in the other order.
pub fn swapped(range: &ValueRange, bits: u32) -> ValueRange
    requires { bits ≤ 32 }
    ensures { result ≡ swapped_range bits range.now }
{
    if is_zero_bound(&range.least) && is_zero_bound(&range.greatest) {
        from_to(0, 0)
    } else {
        full(bits)
    }
}

// Times 2^n, modulo 2^bits.
pub fn shifted_left(range: &ValueRange, n: u8, bits: u32) -> ValueRange
    requires bits { bits ≤ 32 }
    requires n { n < bits }
    ensures { result ≡ left_range bits n range.now }
{
    let places = power(u32::from(n));
    let other = from_to(0, power(bits).saturating_sub(places));
    let product = multiplied(range, places);
    where_it_fits(&product, bits, &other)
}

fn shifted_bound(bound: &Option<Frac>, n: u8) -> Option<Frac>
    requires { n < 32 }
    ensures { result ≡ option_map (shifted_right n) bound.now }
{
    match bound {
        Some(bound) => {
            let places = i128::from(power(u32::from(n)));
            Some(Frac::whole(bound.floor().div_euclid(places)))
        }
        None => None,
    }
}

// Divided by 2^n, floored.
pub fn shifted_right(range: &ValueRange, n: u8) -> ValueRange
    requires { n < 32 }
    ensures { result ≡ right_range n range.now }
{
    ValueRange {
        least: shifted_bound(&range.least, n),
        greatest: shifted_bound(&range.greatest, n),
        whole: true,
    }
}

// In a whole type of so many bits, from a whole type or from fractions.
pub fn as_whole(range: &ValueRange, bits: u32, expand: bool, rational: bool) -> ValueRange
    requires { bits ≤ 32 }
    ensures { result ≡ as_whole_range bits expand rational range.now }
{
    if rational {
        floored_where_it_fits(range, bits)
    } else {
        let product = multiplied(range, if expand { 257 } else { 1 });
        where_it_fits(&product, bits, &full(bits))
    }
}

fn floored_where_it_fits(range: &ValueRange, bits: u32) -> ValueRange
    requires { bits ≤ 32 }
    ensures { result ≡ (if fits_full bits range.now then floored_range range.now else full bits) }
{
    if fits_full(range, bits) {
        floored(range)
    } else {
        full(bits)
    }
}
