// A value of a block by whole numbers that are numerators already: at 64 bits, products of numerators
// become vectors where those of shorter numbers do not.
ghost use Rattle.std.specs.Prelude.{◌≡◌, ℕ, ℤ, pos, true, ◌+◌, ◌*◌, ◌^◌, ◌<◌, ◌≤◌, ◌⊎◌, ◌+ℤ◌, length};
ghost use Rattle.std.specs.Prelude.{slice_index_or, FitsSigned};
ghost use Rattle.std.specs.Int.{w32};
ghost use Rattle.kernel_step.specs.Forms.{factor};
ghost use Rattle.kernel_step.specs.Rules.{row_sum, lane_numbers, RowFits};
ghost use Rattle.kernel_affine.specs.Affine.{AreFitting, AreTaken, AreWide, FitsThree, IsLow};
ghost use Rattle.kernel_affine.specs.Affine.{IsShort, affine, bound_by, three_sum, whole_lane};
ghost use Rattle.kernel_affine.specs.declared.products.Products.TheVariants.{Three};

use crate::limits::held;
use crate::products::Products;
use crate::value::{affine_value, entry};
use kernel_lane::{Combine, Merge, combine_part, merge_front};
use kernel_planes::WholeNumber;
use kernel_step::Numerator;

// A whole number as a numerator.
#[derive(Clone, Copy)]
struct AsNumerator;

impl<W: WholeNumber, N: Numerator> Merge<W, N> for AsNumerator {
    ghost takes = { λ _ _ x. FitsSigned N.width (pos (W.number x)) };

    ghost makes = { λ _ _ x y. (N.value y ≡ pos (W.number x)) × (W.number x < 2 ^ W.bits) };

    fn merged(self, _old: N, from: W) -> N {
        N::of(i128::from(from.wide()))
    }
}

/// The first values of a block as numerators.
#[inline(never)]
pub fn widen<W: WholeNumber, N: Numerator>(values: &[W], count: usize, wide: &mut [N])
    requires block { (count ≤ 4) × (length values.now ≡ 256) × (length wide.old ≡ 256) }
    requires fitting { AreFitting N.width W.number values.now count }
    ensures { AreWide W.bits W.number N.value values.now wide.new count }
{
    merge_front::<W, N, AsNumerator>(AsNumerator, wide, values, 64 * count);
}

// A constant, three products of numbers from 0 to 2^31 - 1 and factors that 32 bits hold with their
// signs, and a unit, within limits.
#[derive(Clone, Copy)]
struct WideProducts<N> {
    constant: N,
    first: N,
    second: N,
    third: N,
    unit: N,
    low: Option<N>,
    high: Option<N>,
}

impl<N: Numerator> Combine<N, N> for WideProducts<N> {
    ghost takes = { λ r x y z. IsLow (N.value x) × IsLow (N.value y) × IsLow (N.value z)
        × FitsSigned w32 (N.value r.first) × FitsSigned w32 (N.value r.second)
        × FitsSigned w32 (N.value r.third)
        × FitsThree N.width (N.value r.constant) (N.value r.first)
        (N.value r.second) (N.value r.third) (N.value r.unit)
        (N.value x) (N.value y) (N.value z) };

    ghost makes = { λ r x y z result. N.value result ≡ bound_by N.value r.low r.high
        (three_sum (N.value r.constant) (N.value r.first) (N.value r.second) (N.value r.third)
        (N.value x) (N.value y) (N.value z) +ℤ N.value r.unit) };

    fn combined(self, x: N, y: N, z: N) -> N {
        let one = self.constant.raised_signed(x, self.first);
        let two = one.raised_signed(y, self.second);
        let three = two.raised_signed(z, self.third);
        held(self.low, self.high, three.plus(self.unit))
    }
}

// Value v of a block by the numerators of the first three.
#[inline(never)]
fn wide_value<N: Numerator>(
    wide: &[N],
    row: &[i128; 5],
    unit: N,
    low: Option<N>,
    high: Option<N>,
    numbers: &mut [N],
    v: usize,
)
    requires block { (v < 4) × (length wide.now ≡ 256) × (length numbers.old ≡ 256) }
    requires entries { (j : ℕ) → j < 5 → FitsSigned N.width (factor row.now j) }
    requires short { (j : ℕ) → j < 3 → FitsSigned w32 (factor row.now j) }
    requires lows { (j i : ℕ) (d : N) → j < 3 → i < 64
        → IsLow (lane_numbers N.value wide.now i d j) }
    requires fits { (i : ℕ) (d : N) → i < 64
        → FitsThree N.width (factor row.now 4) (factor row.now 0) (factor row.now 1)
        (factor row.now 2) (N.value unit) (lane_numbers N.value wide.now i d 0)
        (lane_numbers N.value wide.now i d 1) (lane_numbers N.value wide.now i d 2) }
    ensures set { (i : ℕ) (d e : N) → i < 64
        → N.value (slice_index_or numbers.new (64 * v + i) e)
        ≡ bound_by N.value low high (three_sum (factor row.now 4) (factor row.now 0)
        (factor row.now 1) (factor row.now 2) (lane_numbers N.value wide.now i d 0)
        (lane_numbers N.value wide.now i d 1) (lane_numbers N.value wide.now i d 2)
        +ℤ N.value unit) }
    ensures kept { (j : ℕ) (e : N) → (j < 64 * v) ⊎ (64 * v + 64 ≤ j)
        → slice_index_or numbers.new j e ≡ slice_index_or numbers.old j e }
{
    let rule = WideProducts {
        constant: entry(row, 4),
        first: entry(row, 0),
        second: entry(row, 1),
        third: entry(row, 2),
        unit,
        low,
        high,
    };
    combine_part::<N, N, WideProducts<N>, 64>(rule, numbers, 64 * v, wide, 0, 64, 128);
}

// Whether the whole numbers of a block have at most 31 bits, and 32 bits hold the first three
// factors of a row with their signs.
fn is_short<W: WholeNumber>(row: &[i128; 5]) -> bool
    ensures { result ≡ true → IsShort W.bits row.now }
{
    W::size() <= 31 && is_short_entry(row, 0) && is_short_entry(row, 1) && is_short_entry(row, 2)
}

// Whether 32 bits hold entry j of a row with its sign.
fn is_short_entry(row: &[i128; 5], j: usize) -> bool
    requires { j < 5 }
    ensures { result ≡ true → FitsSigned w32 (factor row.now j) }
{
    -2_147_483_648 <= row[j] && row[j] < 2_147_483_648
}

// An integer that fits as a numerator.
fn numerator<N: Numerator>(n: i128) -> N
    requires { FitsSigned N.width n }
    ensures { N.value result ≡ n }
{
    N::of(n)
}

// The same by whole numbers that have numerators.
fn wide_products<W: WholeNumber, N: Numerator>(
    _values: &[W],
    wide: &[N],
    _count: usize,
    row: &[i128; 5],
    unit: N,
    low: Option<N>,
    high: Option<N>,
    numbers: &mut [N],
    v: usize,
)
    requires block { (v < 4) × (3 ≤ _count) × (length _values.now ≡ 256) × (length wide.now ≡ 256)
        × (length numbers.old ≡ 256) }
    requires wide { AreWide W.bits W.number N.value _values.now wide.now _count }
    requires entries { (j : ℕ) → j < 5 → FitsSigned N.width (factor row.now j) }
    requires short { IsShort W.bits row.now }
    requires fits { (i : ℕ) (d : W) → i < 64
        → FitsThree N.width (factor row.now 4) (factor row.now 0) (factor row.now 1)
        (factor row.now 2) (N.value unit) (whole_lane W.number _values.now i d 0)
        (whole_lane W.number _values.now i d 1) (whole_lane W.number _values.now i d 2) }
    ensures set { (i : ℕ) (d : W) (e : N) → i < 64
        → N.value (slice_index_or numbers.new (64 * v + i) e)
        ≡ bound_by N.value low high (three_sum (factor row.now 4) (factor row.now 0)
        (factor row.now 1) (factor row.now 2) (whole_lane W.number _values.now i d 0)
        (whole_lane W.number _values.now i d 1) (whole_lane W.number _values.now i d 2)
        +ℤ N.value unit) }
    ensures kept { (j : ℕ) (e : N) → (j < 64 * v) ⊎ (64 * v + 64 ≤ j)
        → slice_index_or numbers.new j e ≡ slice_index_or numbers.old j e }
{
    wide_value(wide, row, unit, low, high, numbers, v);
}

/// The same as `affine_value`, where the whole numbers of a row of three products are numerators
/// too.
pub fn affine_wide<W: WholeNumber, N: Numerator>(
    values: &[W],
    wide: &[N],
    count: usize,
    products: Products,
    row: &[i128; 5],
    unit: i128,
    low: Option<N>,
    high: Option<N>,
    numbers: &mut [N],
    v: usize,
)
    requires block { (v < 4) × (count ≤ 4) × (length values.now ≡ 256)
        × (length wide.now ≡ 256) × (length numbers.old ≡ 256) }
    requires wide { products ≡ Three
        → AreWide W.bits W.number N.value values.now wide.now count }
    requires taken { AreTaken products row.now count }
    requires fitting { AreFitting N.width W.number values.now count }
    requires entries { (j : ℕ) → j < 5 → FitsSigned N.width (factor row.now j) }
    requires unit { FitsSigned N.width unit }
    requires fits { (i : ℕ) (d : W) → i < 64
        → RowFits N.width row.now (whole_lane W.number values.now i d) }
    requires sums { (i : ℕ) (d : W) → i < 64
        → FitsSigned N.width (row_sum row.now (whole_lane W.number values.now i d) 4 +ℤ unit) }
    ensures set { (i : ℕ) (d : W) (e : N) → i < 64
        → N.value (slice_index_or numbers.new (64 * v + i) e)
        ≡ affine N.value row.now unit low high (whole_lane W.number values.now i d) }
    ensures kept { (j : ℕ) (e : N) → (j < 64 * v) ⊎ (64 * v + 64 ≤ j)
        → slice_index_or numbers.new j e ≡ slice_index_or numbers.old j e }
{
    if is_short::<W>(row) {
        match products {
            Products::Three => {
                let unit = numerator(unit);
                wide_products(values, wide, count, row, unit, low, high, numbers, v);
                return;
            }
            Products::One(_) => {}
        }
    }
    affine_value(values, count, products, row, unit, low, high, numbers, v);
}
