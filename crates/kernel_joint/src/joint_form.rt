// Forms within the width of a list: four values, each over a denominator that divides
// the joint one.
ghost use Rattle.std.specs.Prelude.{◌≡◌, ◌≤◌, ◌-◌, ◌^◌, ℕ, ◌<◌, All, slice_index};
ghost use Rattle.kernel_step.specs.ValueSteps.{IsDivided};
ghost use Rattle.op_list.specs.Apply.{row_of};
ghost use Rattle.kernel_step.specs.Forms.{AreKept, IsMoved, IsNarrowed};
ghost use Rattle.kernel_step.specs.Forms.{IsWidened, extent_at, factors_at, width_of};
ghost use Rattle.kernel_joint.specs.Joint.{MadeFits, MadeWithin, RowMade, RowWithin, extent_size};
ghost use Rattle.kernel_joint.specs.Joint.{room};

use crate::joint_made::joint_made;
use crate::joint_row::joint_row;
use frac_math::Frac;
use kernel_step::{Divisor, Extent, Form, Made, NO_DIVISOR, NumberWidth};
use op_list::Op;

/// The form of four values.
pub fn form_of(first: Made, second: Made, third: Made, fourth: Made) -> Form
    ensures count { result.count ≡ 4 }
    ensures first { (factors_at result 0 ≡ first.factors) × (extent_at result 0 ≡ first.extent) }
    ensures second { (factors_at result 1 ≡ second.factors) × (extent_at result 1 ≡ second.extent) }
    ensures third { (factors_at result 2 ≡ third.factors) × (extent_at result 2 ≡ third.extent) }
    ensures fourth { (factors_at result 3 ≡ fourth.factors) × (extent_at result 3 ≡ fourth.extent) }
{
    let (first_row, first_extent) = (first.factors, first.extent);
    let (second_row, second_extent) = (second.factors, second.extent);
    let (third_row, third_extent) = (third.factors, third.extent);
    let (fourth_row, fourth_extent) = (fourth.factors, fourth.extent);
    Form {
        count: 4,
        extents: [first_extent, second_extent, third_extent, fourth_extent],
        factors: [first_row, second_row, third_row, fourth_row],
        divisors: [NO_DIVISOR; 4],
    }
}

// What an operation makes of value v.
fn made_at(op: &Op, before: &Form, v: usize, e: u128, d: u128, number_width: NumberWidth) -> Made
    requires v { v < 4 }
    requires fits { MadeFits number_width op.now v (extent_at before.now v) e d }
    ensures { MadeWithin number_width op.now v (extent_at before.now v) e d
        result.factors result.extent }
{
    let extent = before.extents[v];
    joint_made(op, v, &extent, e, d, number_width)
}

/// The form after an operation that makes each value from that value alone: e is how many times the
/// joint denominator grows, and d what it becomes.
pub fn joint_made_form(op: &Op, before: &Form, e: u128, d: u128, number_width: NumberWidth) -> Form
    requires { (v : ℕ) → v < 4 → MadeFits number_width op.now v (extent_at before.now v) e d }
    ensures count { result.count ≡ 4 }
    ensures made { (v : ℕ) → v < 4 → MadeWithin number_width op.now v (extent_at before.now v) e d
        (factors_at result v) (extent_at result v) }
{
    let first = made_at(op, before, 0, e, d, number_width);
    let second = made_at(op, before, 1, e, d, number_width);
    let third = made_at(op, before, 2, e, d, number_width);
    let fourth = made_at(op, before, 3, e, d, number_width);
    form_of(first, second, third, fourth)
}

// The row of value v.
fn row_at(
    rows: &[[Frac; 5]; 4],
    before: &Form,
    v: usize,
    e: u128,
    d: u128,
    number_width: NumberWidth,
) -> Made
    requires v { v < 4 }
    requires within { RowWithin number_width e d (row_of rows.now v) before.now }
    ensures { RowMade number_width e d (row_of rows.now v) before.now
        result.factors result.extent }
{
    joint_row(&rows[v], e, d, before, number_width)
}

/// The form after a Linear: e is the least common denominator of its rows, and d the joint
/// denominator before it.
pub fn joint_rows_form(
    rows: &[[Frac; 5]; 4],
    before: &Form,
    e: u128,
    d: u128,
    number_width: NumberWidth,
) -> Form
    requires { (v : ℕ) → v < 4 → RowWithin number_width e d (row_of rows.now v) before.now }
    ensures count { result.count ≡ 4 }
    ensures rows { (v : ℕ) → v < 4 → RowMade number_width e d (row_of rows.now v) before.now
        (factors_at result v) (extent_at result v) }
{
    let first = row_at(rows, before, 0, e, d, number_width);
    let second = row_at(rows, before, 1, e, d, number_width);
    let third = row_at(rows, before, 2, e, d, number_width);
    let fourth = row_at(rows, before, 3, e, d, number_width);
    form_of(first, second, third, fourth)
}

/// Four values that stay what they are.
pub fn joint_kept_form(before: &Form) -> Form
    requires { before.now.count ≡ 4 }
    ensures count { result.count ≡ 4 }
    ensures kept { AreKept before.now result }
{
    Form {
        count: 4,
        extents: before.extents,
        factors: [[0; 5]; 4],
        divisors: [NO_DIVISOR; 4],
    }
}

// Value v after they changed places.
fn moved_at(from: &[u8; 4], before: &Form, v: usize) -> Made
    requires v { v < 4 }
    requires count { before.now.count ≡ 4 }
    requires from { All (λ i. i < 4) from.now }
    ensures there { slice_index from.now v < before.now.count }
    ensures same { result.extent ≡ extent_at before.now (slice_index from.now v) }
{
    Made {
        factors: [0; 5],
        extent: before.extents[usize::from(from[v])],
    }
}

/// Four values that change places.
pub fn joint_moved_form(from: &[u8; 4], before: &Form) -> Form
    requires count { before.now.count ≡ 4 }
    requires from { All (λ i. i < 4) from.now }
    ensures count { result.count ≡ 4 }
    ensures moved { (v : ℕ) → v < 4 → IsMoved before.now (slice_index from.now v) result v }
{
    let first = moved_at(from, before, 0);
    let second = moved_at(from, before, 1);
    let third = moved_at(from, before, 2);
    let fourth = moved_at(from, before, 3);
    form_of(first, second, third, fourth)
}

/// Four values whose floors are taken by a division.
pub fn joint_narrowed_form(before: &Form, _number_width: NumberWidth) -> Form
    requires count { before.now.count ≡ 4 }
    requires divisors { (v : ℕ) → v < 4
        → IsDivided (width_of _number_width) 0 (extent_at before.now v) Divisor.Plain }
    ensures count { result.count ≡ 4 }
    ensures narrowed { (bits v : ℕ) → v < 4
        → IsNarrowed (width_of _number_width) bits before.now result v }
{
    Form {
        count: 4,
        extents: before.extents,
        factors: [[0; 5]; 4],
        divisors: [Divisor::Plain; 4],
    }
}

/// Whole numbers of so many bits as numerators over 1.
pub fn joint_widened_form(bits: u32, number_width: NumberWidth) -> Form
    requires bits { bits ≤ 32 }
    requires room { 2 ^ bits ≤ room number_width }
    ensures count { result.count ≡ 4 }
    ensures widened { (v : ℕ) → v < 4
        → IsWidened (width_of number_width) (2 ^ bits) (extent_at result v) }
    ensures size { (v : ℕ) → v < 4 → extent_size (extent_at result v) ≡ 2 ^ bits - 1 }
{
    let extent = widened_extent(bits, number_width);
    Form {
        count: 4,
        extents: [extent; 4],
        factors: [[0; 5]; 4],
        divisors: [NO_DIVISOR; 4],
    }
}

#[tactic(auto, using(crate::proofs::Rooms::below_fits))]
fn widened_extent(bits: u32, _number_width: NumberWidth) -> Extent
    requires bits { bits ≤ 32 }
    requires room { 2 ^ bits ≤ room _number_width }
    ensures widened { IsWidened (width_of _number_width) (2 ^ bits) result }
    ensures size { extent_size result ≡ 2 ^ bits - 1 }
{
    Extent {
        denominator: 1,
        least: 0,
        greatest: (1i128 << bits) - 1,
    }
}
