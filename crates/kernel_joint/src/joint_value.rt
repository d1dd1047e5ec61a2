// What an operation makes of one value, within the width of a list.
ghost use Rattle.std.specs.Prelude.{◌≡◌, ◌+◌, ◌*◌, ◌/◌, ◌^◌, ◌<◌, ◌≤◌, max, ℕ, pos, ◌*ℤ◌, ◌<ℤ◌};
ghost use Rattle.std.specs.Prelude.{unsigned_abs};
ghost use Rattle.frac_math.specs.Fraction.{nat};
ghost use Rattle.op_range.specs.Width.{size_over};
ghost use Rattle.kernel_step.specs.Forms.{factor, width_of};
ghost use Rattle.kernel_step.specs.ValueSteps.{IsScaled, IsScaling, IsMinimum, IsMaximum};
ghost use Rattle.kernel_step.specs.ValueSteps.{IsDithered};
ghost use Rattle.kernel_joint.specs.Joint.{IsAround, extent_size, room};

use crate::joint::{around, size_of};
use frac_math::Frac;
use kernel_step::{Extent, Made, NumberWidth};

fn made(k: i128, unit: i128, extent: Extent) -> Made
    ensures first { factor result.factors 0 ≡ k }
    ensures second { factor result.factors 1 ≡ unit }
    ensures extent { result.extent ≡ extent }
{
    Made {
        factors: [k, unit, 0, 0, 0],
        extent,
    }
}

/// A fraction as a number over d times e, where its denominator divides e.
#[tactic(auto, using(crate::proofs::JointValues::over_value, crate::proofs::JointValues::over_size))]
pub fn number_over_both(x: &Frac, e: u128, d: u128) -> i128
    requires whole { e / x.now.denominator * x.now.denominator ≡ e }
    requires denominator { d * e < 2 ^ 126 }
    requires size { size_over e x.now * d < 2 ^ 126 }
    ensures value { result *ℤ pos x.now.denominator ≡ x.now.numerator *ℤ pos (d * e) }
    ensures size { unsigned_abs result ≡ size_over e x.now * d }
{
    let times = e / denominator(x) * d;
    times_of(x.num(), times)
}

pub fn denominator(x: &Frac) -> u128
    ensures { result ≡ x.now.denominator }
{
    x.den() as u128
}

// A number times n.
pub fn times_of(number: i128, n: u128) -> i128
    requires factor { n < 2 ^ 126 }
    requires size { unsigned_abs number * n < 2 ^ 126 }
    ensures { result ≡ number *ℤ pos n }
{
    number * n as i128
}

/// The numbers of an extent times a fraction.
#[tactic(auto, using(crate::proofs::Rooms::room_below))]
pub fn joint_scaled(by: &Frac, old: &Extent, _number_width: NumberWidth) -> Made
    requires positive { pos 0 <ℤ old.now.denominator }
    requires denominator { unsigned_abs old.now.denominator * by.now.denominator
        < room _number_width }
    requires size { extent_size old.now * unsigned_abs by.now.numerator < room _number_width }
    ensures made { IsScaling (width_of _number_width) old.now by.now
        (factor result.factors 0) result.extent }
    ensures around { IsAround result.extent (unsigned_abs old.now.denominator * by.now.denominator)
        (extent_size old.now * unsigned_abs by.now.numerator) }
{
    let d = old.denominator.unsigned_abs() * denominator(by);
    let size = size_of(old) * by.num().unsigned_abs();
    made(scaling(by, old), 0, around(d, size))
}

// The factor of a Scale. It is 0 where the value is always 0: no width bounds the factor there.
fn scaling(by: &Frac, old: &Extent) -> i128
    ensures some { 0 < extent_size old.now → result ≡ by.now.numerator }
    ensures none { extent_size old.now ≡ 0 → result ≡ pos 0 }
{
    if size_of(old) == 0 { 0 } else { by.num() }
}

/// The numbers of an extent over e times its denominator.
#[tactic(auto, using(crate::proofs::Rooms::room_below))]
pub fn joint_raised(e: u128, old: &Extent, _number_width: NumberWidth) -> Made
    requires some { (0 < e) × (e < room _number_width) }
    requires positive { pos 0 <ℤ old.now.denominator }
    requires denominator { unsigned_abs old.now.denominator * e < room _number_width }
    requires size { extent_size old.now * e < room _number_width }
    ensures made { IsScaled (width_of _number_width) old.now (nat 1)
        (factor result.factors 0) result.extent }
    ensures around { IsAround result.extent (unsigned_abs old.now.denominator * e)
        (extent_size old.now * e) }
{
    let d = old.denominator.unsigned_abs() * e;
    let size = size_of(old) * e;
    made(e as i128, 0, around(d, size))
}

/// The same, but at most a limit.
#[tactic(auto, using(crate::proofs::Rooms::room_below))]
pub fn joint_at_most(limit: &Frac, e: u128, old: &Extent, _number_width: NumberWidth) -> Made
    requires some { (0 < e) × (e < room _number_width) }
    requires whole { e / limit.now.denominator * limit.now.denominator ≡ e }
    requires positive { pos 0 <ℤ old.now.denominator }
    requires denominator { unsigned_abs old.now.denominator * e < room _number_width }
    requires size { max (extent_size old.now * e)
        (size_over e limit.now * unsigned_abs old.now.denominator) < room _number_width }
    ensures made { IsMinimum (width_of _number_width) old.now limit.now
        (factor result.factors 0) result.extent }
    ensures denominator { result.extent.denominator ≡ pos (unsigned_abs old.now.denominator * e) }
    ensures size { extent_size result.extent
        ≤ max (extent_size old.now * e) (size_over e limit.now * unsigned_abs old.now.denominator) }
{
    let d = old.denominator.unsigned_abs();
    let cut = number_over_both(limit, e, d);
    let size = (size_of(old) * e).max(cut.unsigned_abs());
    made(e as i128, 0, cut_above(around(d * e, size), cut))
}

// An extent that ends at a number.
fn cut_above(extent: Extent, greatest: i128) -> Extent
    ensures denominator { result.denominator ≡ extent.denominator }
    ensures least { result.least ≡ extent.least }
    ensures greatest { result.greatest ≡ greatest }
{
    Extent { greatest, ..extent }
}

/// The same, but at least a limit.
#[tactic(auto, using(crate::proofs::Rooms::room_below))]
pub fn joint_at_least(limit: &Frac, e: u128, old: &Extent, _number_width: NumberWidth) -> Made
    requires some { (0 < e) × (e < room _number_width) }
    requires whole { e / limit.now.denominator * limit.now.denominator ≡ e }
    requires positive { pos 0 <ℤ old.now.denominator }
    requires denominator { unsigned_abs old.now.denominator * e < room _number_width }
    requires size { max (extent_size old.now * e)
        (size_over e limit.now * unsigned_abs old.now.denominator) < room _number_width }
    ensures made { IsMaximum (width_of _number_width) old.now limit.now
        (factor result.factors 0) result.extent }
    ensures denominator { result.extent.denominator ≡ pos (unsigned_abs old.now.denominator * e) }
    ensures size { extent_size result.extent
        ≤ max (extent_size old.now * e) (size_over e limit.now * unsigned_abs old.now.denominator) }
{
    let d = old.denominator.unsigned_abs();
    let cut = number_over_both(limit, e, d);
    let size = (size_of(old) * e).max(cut.unsigned_abs());
    made(e as i128, 0, cut_below(around(d * e, size), cut))
}

// An extent that begins at a number.
fn cut_below(extent: Extent, least: i128) -> Extent
    ensures denominator { result.denominator ≡ extent.denominator }
    ensures least { result.least ≡ least }
    ensures greatest { result.greatest ≡ extent.greatest }
{
    Extent { least, ..extent }
}

/// The numbers of an extent over the denominator d, with a dither of so many places.
#[tactic(auto, using(crate::proofs::Rooms::room_below))]
pub fn joint_dithered(places: u128, d: u128, old: &Extent, _number_width: NumberWidth) -> Made
    requires some { 0 < places }
    requires positive { pos 0 <ℤ old.now.denominator }
    requires over { d / unsigned_abs old.now.denominator * unsigned_abs old.now.denominator ≡ d }
    requires whole { d / places * places ≡ d }
    requires denominator { (0 < d) × (d < room _number_width) }
    requires size { extent_size old.now * (d / unsigned_abs old.now.denominator) + d
        < room _number_width }
    ensures made { (count : ℕ) → places ≡ 2 * 4 ^ count
        → IsDithered (width_of _number_width) old.now count (factor result.factors 0)
        (factor result.factors 1) result.extent }
    ensures around { IsAround result.extent d
        (extent_size old.now * (d / unsigned_abs old.now.denominator) + d) }
{
    let k = d / old.denominator.unsigned_abs();
    let size = size_of(old) * k + d;
    made(k as i128, (d / places) as i128, around(d, size))
}
