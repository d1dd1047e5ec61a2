// A row of a linear map, within the width of a list.
ghost use Rattle.std.specs.Prelude.{◌≡◌, ◌*◌, ◌/◌, ◌^◌, ◌<◌, ◌≤◌, pos, ◌*ℤ◌, ◌<ℤ◌, unsigned_abs};
ghost use Rattle.kernel_step.specs.Forms.{IsRow, IsTerm, extent_at, factor, width_of};
ghost use Rattle.kernel_joint.specs.Joint.{IsFactorOf, IsMultiple, RowWithin, extent_size, part};
ghost use Rattle.kernel_joint.specs.Joint.{room, row_most, row_total, term_most};
ghost use Rattle.op_list.specs.Values.{fraction_in};
ghost use Rattle.op_range.specs.Width.{size_over};

use crate::joint::{around, size_of};
use crate::joint_value::{denominator, number_over_both, times_of};
use frac_math::Frac;
use kernel_step::{Extent, Form, Made, NumberWidth};

// The factor of a coefficient over d times e, where neither it nor the value is always 0.
#[tactic(auto, using(crate::proofs::Rooms::room_below))]
fn some_factor(
    coefficient: &Frac,
    e: u128,
    d: u128,
    old: &Extent,
    _number_width: NumberWidth,
) -> i128
    requires positive { pos 0 <ℤ old.now.denominator }
    requires some { 0 < unsigned_abs coefficient.now.numerator }
    requires there { 0 < extent_size old.now }
    requires size { term_most e d coefficient.now old.now < room _number_width }
    ensures value { result ≡ coefficient.now.numerator
        *ℤ pos (e / coefficient.now.denominator * (d / unsigned_abs old.now.denominator)) }
    ensures small { unsigned_abs result < room _number_width }
{
    times_of(coefficient.num(), times(coefficient, e, d, old))
}

fn times(coefficient: &Frac, e: u128, d: u128, old: &Extent) -> u128
    requires positive { pos 0 <ℤ old.now.denominator }
    requires small { e / coefficient.now.denominator * (d / unsigned_abs old.now.denominator)
        < 2 ^ 126 }
    ensures { result ≡ e / coefficient.now.denominator * (d / unsigned_abs old.now.denominator) }
{
    e / denominator(coefficient) * (d / old.denominator.unsigned_abs())
}

// The factor of a coefficient over d times e. It is 0 where the value is always 0: no width bounds
// the coefficient there.
fn joint_factor(
    coefficient: &Frac,
    e: u128,
    d: u128,
    old: &Extent,
    number_width: NumberWidth,
) -> i128
    requires positive { pos 0 <ℤ old.now.denominator }
    requires whole { IsMultiple e coefficient.now.denominator }
    requires over { IsMultiple d (unsigned_abs old.now.denominator) }
    requires size { term_most e d coefficient.now old.now < room number_width }
    ensures term { IsFactorOf old.now coefficient.now result (d * e) }
    ensures small { unsigned_abs result < room number_width }
    ensures size { unsigned_abs result * extent_size old.now
        ≤ term_most e d coefficient.now old.now }
{
    if coefficient.num() == 0 {
        return 0;
    }
    if size_of(old) == 0 {
        return 0;
    }
    some_factor(coefficient, e, d, old, number_width)
}

// Factor j of a row.
fn row_factor(
    row: &[Frac; 5],
    e: u128,
    d: u128,
    before: &Form,
    j: usize,
    number_width: NumberWidth,
) -> i128
    requires within { RowWithin number_width e d row.now before.now }
    requires j { j < 4 }
    ensures term { IsTerm before.now (fraction_in row.now j) result (d * e) j }
    ensures small { unsigned_abs result < room number_width }
    ensures size { unsigned_abs result * extent_size (extent_at before.now j)
        ≤ term_most e d (fraction_in row.now j) (extent_at before.now j) }
{
    let extent = before.extents[j];
    let coefficient = row[j];
    joint_factor(&coefficient, e, d, &extent, number_width)
}

// The constant of a row.
#[tactic(auto, using(crate::proofs::JointRows::constant_below, crate::proofs::Rooms::room_below))]
fn row_constant(
    row: &[Frac; 5],
    e: u128,
    d: u128,
    _before: &Form,
    _number_width: NumberWidth,
) -> i128
    requires { RowWithin _number_width e d row.now _before.now }
    ensures value { result *ℤ pos (fraction_in row.now 4).denominator
        ≡ (fraction_in row.now 4).numerator *ℤ pos (d * e) }
    ensures size { unsigned_abs result ≡ size_over e (fraction_in row.now 4) * d }
{
    let constant = row[4];
    number_over_both(&constant, e, d)
}

// The greatest product with factor j.
fn part(factors: &[i128; 5], before: &Form, j: usize) -> u128
    requires j { j < 4 }
    requires small { part before.now factors.now j < 2 ^ 126 }
    ensures { result ≡ part before.now factors.now j }
{
    let extent = before.extents[j];
    factors[j].unsigned_abs() * size_of(&extent)
}

// The greatest sum of a row.
fn row_total(factors: &[i128; 5], before: &Form) -> u128
    requires { row_total before.now factors.now < 2 ^ 126 }
    ensures value { result ≡ row_total before.now factors.now }
    ensures small { result < 2 ^ 126 }
{
    factors[4].unsigned_abs()
        + part(factors, before, 0)
        + part(factors, before, 1)
        + part(factors, before, 2)
        + part(factors, before, 3)
}

/// A row of factors and a constant over d times e, and the extent of the sum.
#[tactic(auto, using(crate::proofs::Rooms::room_below))]
pub fn joint_row(
    row: &[Frac; 5],
    e: u128,
    d: u128,
    before: &Form,
    number_width: NumberWidth,
) -> Made
    requires { RowWithin number_width e d row.now before.now }
    ensures row { IsRow (width_of number_width) before.now row.now result.factors result.extent }
    ensures denominator { result.extent.denominator ≡ pos (d * e) }
    ensures size { extent_size result.extent ≤ row_most e d row.now before.now }
{
    let factors = [
        row_factor(row, e, d, before, 0, number_width),
        row_factor(row, e, d, before, 1, number_width),
        row_factor(row, e, d, before, 2, number_width),
        row_factor(row, e, d, before, 3, number_width),
        row_constant(row, e, d, before, number_width),
    ];
    let extent = around(d * e, row_total(&factors, before));
    Made { factors, extent }
}
