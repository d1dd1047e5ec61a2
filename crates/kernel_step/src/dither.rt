// The ordered dither: each pixel has a fraction of its own.
ghost use Rattle.std.specs.Prelude.{◌≡◌, ℕ, pos, ◌+◌, ◌*◌, ◌%◌, ◌^◌, ◌<◌, ◌≤◌, ◌⊎◌, ◌+ℤ◌, ◌*ℤ◌};
ghost use Rattle.std.specs.Prelude.{◌≤ℤ◌, length, slice_index, slice_index_or, FitsSigned, IfSome};
ghost use Rattle.frac_math.specs.Dither.{digit, dither_at, index};
ghost use Rattle.frac_math.specs.Fraction.{◌+ℚ◌};
ghost use Rattle.frac_math.specs.Standing.{Stands};
ghost use Rattle.kernel_step.specs.Forms.{factor, width_of};
ghost use Rattle.kernel_step.specs.ValueSteps.{AreIn, IsDithered, MakesValue, NumbersDither};

use crate::form::{Extent, NumberWidth};
use crate::interval::added;
use crate::made::Made;
use crate::numerator::Numerator;
use crate::row_form::{difference_of, whole_quotient};
use crate::scale::{multiple_for, multiplied, numerator, scale};
use kernel_lane::{Merge, merge_few, merge_part};
use op_list::{Op, PixelPosition};

// The number in the index matrix of 2 by 2, in the column and the row of the lowest digits.
fn lowest_index(x: u32, y: u32) -> u32
    ensures value { result ≡ index (digit 0 x) (digit 0 y) }
    ensures small { result ≤ 3 }
{
    2 * ((x % 2 + y % 2) % 2) + y % 2
}

// The number in the index matrix of 16 by 16.
fn index_of_sixteen(x: u32, y: u32) -> u32
    ensures value { result ≡ 64 * index (digit 0 x) (digit 0 y) + 16 * index (digit 1 x) (digit 1 y)
        + 4 * index (digit 2 x) (digit 2 y) + index (digit 3 x) (digit 3 y) }
    ensures small { result < 256 }
{
    64 * lowest_index(x, y)
        + 16 * lowest_index(x / 2, y / 2)
        + 4 * lowest_index(x / 4, y / 4)
        + lowest_index(x / 8, y / 8)
}

// How many parts of 2 * 4^k are the dither of a pixel.
fn dither_number(k: u8, x: u32, y: u32) -> u32
    requires { k ≤ 4 }
    ensures stands { Stands (dither_at k x y) (pos result) (2 * 4 ^ k) }
    ensures some { 0 < result }
    ensures small { result < 2 * 4 ^ k }
{
    2 * (index_of_sixteen(x, y) >> (8 - 2 * u32::from(k))) + 1
}

// Sixteen times the number of the dither that is a half at every pixel.
fn halves() -> [u32; 16]
    ensures size { length result ≡ 16 }
    ensures one { (j : ℕ) → j < 16 → slice_index result j ≡ 1 }
{
    [1; 16]
}

// The same of sixteen pixels of a row; behind them it repeats.
fn dither_numbers(k: u8, x: u32, y: u32) -> [u32; 16]
    requires { k ≤ 4 }
    ensures size { length result ≡ 16 }
    ensures numbers { NumbersDither k x y result }
{
    if k == 0 {
        return halves();
    }
    let mut numbers = [0; 16];
    for j in 0..16 {
        numbers[j] = dither_number(k, x % 16 + j as u32, y);
    }
    numbers
}

// A number of parts times the unit.
#[derive(Clone, Copy)]
struct Addend<N> {
    unit: N,
}

impl<N: Numerator> Merge<u32, N> for Addend<N> {
    ghost takes = { λ r _ m. FitsSigned N.width (pos m)
        × FitsSigned N.width (N.value r.unit *ℤ pos m) };

    ghost makes = { λ r _ m y. N.value y ≡ N.value r.unit *ℤ pos m };

    fn merged(self, _old: N, from: u32) -> N {
        N::of(i128::from(from)).times(self.unit)
    }
}

// The numbers of a pattern times a unit, as addends.
fn fill_addends<N: Numerator>(pattern: &[u32], unit: N, addends: &mut [N])
    requires size { (length pattern.now ≡ 16) × (length addends.old ≡ 256) }
    requires one { (j : ℕ) → j < 16 → FitsSigned N.width (pos (slice_index pattern.now j)) }
    requires fits { (j : ℕ) → j < 16
        → FitsSigned N.width (N.value unit *ℤ pos (slice_index pattern.now j)) }
    ensures { (j : ℕ) (d : N) → j < 16 → N.value (slice_index_or addends.new j d)
        ≡ N.value unit *ℤ pos (slice_index pattern.now j) }
{
    merge_part::<u32, N, Addend<N>, 16>(Addend { unit }, addends, 0, pattern, 0);
}

// The sum of two numbers.
#[derive(Clone, Copy)]
struct Sum;

impl<N: Numerator> Merge<N, N> for Sum {
    ghost takes = { λ _ s x. FitsSigned N.width (N.value s +ℤ N.value x) };

    ghost makes = { λ _ s x y. N.value y ≡ N.value s +ℤ N.value x };

    fn merged(self, old: N, from: N) -> N {
        old.plus(from)
    }
}

// Sixteen addends, one to each of sixteen numbers.
fn add_sixteen<N: Numerator>(numbers: &mut [N], at: usize, addends: &[N])
    requires block { (at + 16 ≤ 256) × (length numbers.old ≡ 256) × (length addends.now ≡ 256) }
    requires fits { (j : ℕ) (d : N) → j < 16
        → FitsSigned N.width (N.value (slice_index_or numbers.old (at + j) d)
        +ℤ N.value (slice_index_or addends.now j d)) }
    ensures set { (j : ℕ) (d : N) → j < 16 → N.value (slice_index_or numbers.new (at + j) d)
        ≡ N.value (slice_index_or numbers.old (at + j) d)
        +ℤ N.value (slice_index_or addends.now j d) }
    ensures kept { (j : ℕ) (d : N) → (j < at) ⊎ (at + 16 ≤ j)
        → slice_index_or numbers.new j d ≡ slice_index_or numbers.old j d }
{
    merge_few::<N, N, Sum, 16>(Sum, numbers, at, addends, 0);
}

// Sixteen addends, again and again, to value v of the pixels.
#[inline(never)]
fn add_pattern<N: Numerator>(numbers: &mut [N], v: usize, addends: &[N])
    requires block { (v < 4) × (length numbers.old ≡ 256) × (length addends.now ≡ 256) }
    requires fits { (i : ℕ) (d : N) → i < 64
        → FitsSigned N.width (N.value (slice_index_or numbers.old (64 * v + i) d)
        +ℤ N.value (slice_index_or addends.now (i % 16) d)) }
    ensures set { (i : ℕ) (d : N) → i < 64 → N.value (slice_index_or numbers.new (64 * v + i) d)
        ≡ N.value (slice_index_or numbers.old (64 * v + i) d)
        +ℤ N.value (slice_index_or addends.now (i % 16) d) }
    ensures kept { (j : ℕ) (d : N) → (j < 64 * v) ⊎ (64 * v + 64 ≤ j)
        → slice_index_or numbers.new j d ≡ slice_index_or numbers.old j d }
{
    for part in 0..4 {
        add_sixteen(numbers, 64 * v + 16 * part, addends);
    }
}

/// A Dither of value v.
pub fn dither_value<N: Numerator>(
    k: u8,
    position: &PixelPosition,
    numbers: &mut [N],
    v: usize,
    old: &Extent,
    factors: &[i128; 5],
    _new: &Extent,
    addends: &mut [N],
)
    requires good { k ≤ 4 }
    requires block { (v < 4) × (length numbers.old ≡ 256) × (length addends.old ≡ 256) }
    requires is { IsDithered N.width old.now k (factor factors.now 0)
        (factor factors.now 1) _new.now }
    requires old { AreIn N.value numbers.old v old.now }
    ensures made { MakesValue N.value numbers.old numbers.new v old.now _new.now
        (λ i x. x +ℚ dither_at k (position.now.x + i) position.now.y) }
    ensures kept { (j : ℕ) (d : N) → (j < 64 * v) ⊎ (64 * v + 64 ≤ j)
        → slice_index_or numbers.new j d ≡ slice_index_or numbers.old j d }
{
    scale(numbers, v, old, factors);
    let pattern = dither_numbers(k, position.x, position.y);
    fill_addends(&pattern, numerator(factors, 1), addends);
    add_pattern(numbers, v, addends);
}

// The parts of 1 that dithers are numbers of: 2 * 4^k.
fn parts_of(k: u8) -> i128
    requires { k ≤ 4 }
    ensures value { result ≡ pos (2 * 4 ^ k) }
    ensures some { pos 2 ≤ℤ result }
    ensures small { result ≤ℤ pos 512 }
{
    match k {
        0 => 2,
        1 => 8,
        2 => 32,
        3 => 128,
        _ => 512,
    }
}

/// What has to divide a denominator for an operation to follow without another one.
pub fn parts_wanted(op: &Op) -> i128 {
    match op {
        Op::Dither { k } => {
            if *k <= 4 {
                return parts_of(*k);
            }
            1
        }
        _ => 1,
    }
}

// A factor and a unit, as the numbers of a value.
fn with_unit(k: i128, unit: i128) -> [i128; 5]
    ensures factor { factor result 0 ≡ k }
    ensures unit { factor result 1 ≡ unit }
{
    [k, unit, 0, 0, 0]
}

/// What a Dither makes of the numbers of an extent.
pub fn dithered(old: &Extent, k: u8, number_width: NumberWidth) -> Option<Made>
    ensures { IfSome result (λ made. IsDithered (width_of number_width) old.now k
        (factor made.factors 0)
        (factor made.factors 1) made.extent) }
{
    if k > 4 {
        return None;
    }
    let parts = parts_of(k);
    let factor = multiple_for(old.denominator, parts)?;
    let scaled = multiplied(old, factor, number_width)?;
    let unit = whole_quotient(scaled.denominator, parts)?;
    let most = difference_of(scaled.denominator, unit)?;
    let range = added(scaled.least, scaled.greatest, unit, most, number_width)?;
    let factors = with_unit(factor, unit);
    Some(Made {
        factors,
        extent: Extent {
            denominator: scaled.denominator,
            least: range.0,
            greatest: range.1,
        },
    })
}
