// One value of a block.
ghost use Rattle.std.specs.Prelude.{◌≡◌, ℕ, ℤ, pos, ◌+◌, ◌*◌, ◌<◌, ◌≤◌, ◌⊎◌, ◌+ℤ◌, length};
ghost use Rattle.std.specs.Prelude.{slice_index_or, FitsSigned};
ghost use Rattle.kernel_step.specs.Forms.{factor};
ghost use Rattle.kernel_step.specs.Rules.{with_product, row_sum, RowFits};
ghost use Rattle.kernel_affine.specs.Affine.{AreFitting, AreTaken, FitsOne, FitsThree, affine};
ghost use Rattle.kernel_affine.specs.Affine.{bound_by, three_sum, whole_lane};

use crate::limits::held;
use crate::products::Products;
use kernel_lane::{Combine, Merge, combine_part, merge_part};
use kernel_planes::WholeNumber;
use kernel_step::Numerator;

// A whole number as a numerator.
fn widened<W: WholeNumber, N: Numerator>(x: W) -> N
    requires { FitsSigned N.width (pos (W.number x)) }
    ensures { N.value result ≡ pos (W.number x) }
{
    N::of(i128::from(x.wide()))
}

/// Entry j of a row as a numerator.
pub fn entry<N: Numerator>(row: &[i128; 5], j: usize) -> N
    requires inside { j < 5 }
    requires fits { FitsSigned N.width (factor row.now j) }
    ensures { N.value result ≡ factor row.now j }
{
    N::of(row[j])
}

// A constant, k times a whole number, and a unit, within limits.
#[derive(Clone, Copy)]
struct OneProduct<N> {
    constant: N,
    k: N,
    unit: N,
    low: Option<N>,
    high: Option<N>,
}

impl<W: WholeNumber, N: Numerator> Merge<W, N> for OneProduct<N> {
    ghost takes = { λ r _ x. FitsOne N.width (N.value r.constant) (N.value r.k) (N.value r.unit)
        (pos (W.number x)) };

    ghost makes = { λ r _ x y. N.value y ≡ bound_by N.value r.low r.high
        (with_product (N.value r.constant) (pos (W.number x)) (N.value r.k) +ℤ N.value r.unit) };

    fn merged(self, _old: N, from: W) -> N {
        let sum = self.constant.raised(widened::<W, N>(from), self.k);
        held(self.low, self.high, sum.plus(self.unit))
    }
}

// A constant, three products, and a unit, within limits.
#[derive(Clone, Copy)]
struct ThreeProducts<N> {
    constant: N,
    first: N,
    second: N,
    third: N,
    unit: N,
    low: Option<N>,
    high: Option<N>,
}

impl<W: WholeNumber, N: Numerator> Combine<W, N> for ThreeProducts<N> {
    ghost takes = { λ r x y z. FitsThree N.width (N.value r.constant) (N.value r.first)
        (N.value r.second) (N.value r.third) (N.value r.unit)
        (pos (W.number x)) (pos (W.number y)) (pos (W.number z)) };

    ghost makes = { λ r x y z result. N.value result ≡ bound_by N.value r.low r.high
        (three_sum (N.value r.constant) (N.value r.first) (N.value r.second) (N.value r.third)
        (pos (W.number x)) (pos (W.number y)) (pos (W.number z)) +ℤ N.value r.unit) };

    fn combined(self, x: W, y: W, z: W) -> N {
        let one = self.constant.raised(widened::<W, N>(x), self.first);
        let two = one.raised(widened::<W, N>(y), self.second);
        let three = two.raised(widened::<W, N>(z), self.third);
        held(self.low, self.high, three.plus(self.unit))
    }
}

// Value v of a block by a row with one product.
#[inline(never)]
fn one_value<W: WholeNumber, N: Numerator>(
    values: &[W],
    place: usize,
    rule: OneProduct<N>,
    numbers: &mut [N],
    v: usize,
)
    requires block { (v < 4) × (place < 4) × (length values.now ≡ 256)
        × (length numbers.old ≡ 256) }
    requires fits { (i : ℕ) (d : W) → i < 64
        → FitsOne N.width (N.value rule.constant) (N.value rule.k) (N.value rule.unit)
        (whole_lane W.number values.now i d place) }
    ensures set { (i : ℕ) (d : W) (e : N) → i < 64
        → N.value (slice_index_or numbers.new (64 * v + i) e)
        ≡ bound_by N.value rule.low rule.high (with_product (N.value rule.constant)
        (whole_lane W.number values.now i d place) (N.value rule.k) +ℤ N.value rule.unit) }
    ensures kept { (j : ℕ) (e : N) → (j < 64 * v) ⊎ (64 * v + 64 ≤ j)
        → slice_index_or numbers.new j e ≡ slice_index_or numbers.old j e }
{
    merge_part::<W, N, OneProduct<N>, 64>(rule, numbers, 64 * v, values, 64 * place);
}

// Value v of a block by a row with three products.
#[inline(never)]
fn three_value<W: WholeNumber, N: Numerator>(
    values: &[W],
    rule: ThreeProducts<N>,
    numbers: &mut [N],
    v: usize,
)
    requires block { (v < 4) × (length values.now ≡ 256) × (length numbers.old ≡ 256) }
    requires fits { (i : ℕ) (d : W) → i < 64
        → FitsThree N.width (N.value rule.constant) (N.value rule.first) (N.value rule.second)
        (N.value rule.third) (N.value rule.unit) (whole_lane W.number values.now i d 0)
        (whole_lane W.number values.now i d 1) (whole_lane W.number values.now i d 2) }
    ensures set { (i : ℕ) (d : W) (e : N) → i < 64
        → N.value (slice_index_or numbers.new (64 * v + i) e)
        ≡ bound_by N.value rule.low rule.high (three_sum (N.value rule.constant)
        (N.value rule.first) (N.value rule.second) (N.value rule.third)
        (whole_lane W.number values.now i d 0) (whole_lane W.number values.now i d 1)
        (whole_lane W.number values.now i d 2) +ℤ N.value rule.unit) }
    ensures kept { (j : ℕ) (e : N) → (j < 64 * v) ⊎ (64 * v + 64 ≤ j)
        → slice_index_or numbers.new j e ≡ slice_index_or numbers.old j e }
{
    combine_part::<W, N, ThreeProducts<N>, 64>(rule, numbers, 64 * v, values, 0, 64, 128);
}

/// Makes value v of the numerators of a block of the whole numbers of each pixel, by the row of
/// factors of that value, a unit and limits.
pub fn affine_value<W: WholeNumber, N: Numerator>(
    values: &[W],
    _count: usize,
    products: Products,
    row: &[i128; 5],
    unit: i128,
    low: Option<N>,
    high: Option<N>,
    numbers: &mut [N],
    v: usize,
)
    requires block { (v < 4) × (_count ≤ 4) × (length values.now ≡ 256)
        × (length numbers.old ≡ 256) }
    requires taken { AreTaken products row.now _count }
    requires fitting { AreFitting N.width W.number values.now _count }
    requires entries { (j : ℕ) → j < 5 → FitsSigned N.width (factor row.now j) }
    requires unit { FitsSigned N.width unit }
    requires fits { (i : ℕ) (d : W) → i < 64
        → RowFits N.width row.now (whole_lane W.number values.now i d) }
    requires sums { (i : ℕ) (d : W) → i < 64
        → FitsSigned N.width (row_sum row.now (whole_lane W.number values.now i d) 4 +ℤ unit) }
    ensures set { (i : ℕ) (d : W) (e : N) → i < 64
        → N.value (slice_index_or numbers.new (64 * v + i) e)
        ≡ affine N.value row.now unit low high (whole_lane W.number values.now i d) }
    ensures kept { (j : ℕ) (e : N) → (j < 64 * v) ⊎ (64 * v + 64 ≤ j)
        → slice_index_or numbers.new j e ≡ slice_index_or numbers.old j e }
{
    match products {
        Products::One(place) => one_value(
            values,
            place,
            OneProduct {
                constant: entry(row, 4),
                k: entry(row, place),
                unit: N::of(unit),
                low,
                high,
            },
            numbers,
            v,
        ),
        Products::Three => three_value(
            values,
            ThreeProducts {
                constant: entry(row, 4),
                first: entry(row, 0),
                second: entry(row, 1),
                third: entry(row, 2),
                unit: N::of(unit),
                low,
                high,
            },
            numbers,
            v,
        ),
    }
}
