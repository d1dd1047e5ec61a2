// The numerators of a block.
ghost use Rattle.std.specs.Prelude.{◌≡◌, ℕ, ℤ, pos, true, false, ◌+◌, ◌*◌, ◌^◌, ◌<◌, ◌≤◌, ◌⊎◌};
ghost use Rattle.std.specs.Prelude.{◌+ℤ◌};
ghost use Rattle.std.specs.Prelude.{◌*ℤ◌, ◌-ℤ◌, ◌≤ℤ◌, ◌<ℤ◌, length, slice_index_or, FitsSigned};
ghost use Rattle.kernel_step.specs.Forms.{AreWithin, extent_at};
ghost use Rattle.kernel_step.specs.Rules.{with_product, row_sum, lane_numbers, RowFits};

use crate::form::Form;
use crate::numerator::Numerator;
use crate::scale::is_short;
use kernel_lane::{Merge, merge_part};
use kernel_planes::fill;

// A sum with k times a number.
#[derive(Clone, Copy)]
struct AddedProduct<N> {
    k: N,
}

impl<N: Numerator> Merge<N, N> for AddedProduct<N> {
    ghost takes = { λ r s x. FitsSigned N.width (N.value r.k *ℤ N.value x)
        × FitsSigned N.width (with_product (N.value s) (N.value x) (N.value r.k)) };

    ghost makes = { λ r s x y. N.value y ≡ with_product (N.value s) (N.value x) (N.value r.k) };

    fn merged(self, old: N, from: N) -> N {
        old.raised(from, self.k)
    }
}

// k times value u of each pixel, added to value v of the sums.
#[inline(never)]
fn mul_add<N: Numerator>(numbers: &[N], u: usize, k: N, sums: &mut [N], v: usize)
    requires block { (u < 4) × (v < 4) × (length numbers.now ≡ 256) × (length sums.old ≡ 256) }
    requires product { (i : ℕ) (d : N) → i < 64
        → FitsSigned N.width (N.value k *ℤ N.value (slice_index_or numbers.now (64 * u + i) d)) }
    requires fits { (i : ℕ) (d : N) → i < 64
        → FitsSigned N.width (with_product (N.value (slice_index_or sums.old (64 * v + i) d))
        (N.value (slice_index_or numbers.now (64 * u + i) d)) (N.value k)) }
    ensures set { (i : ℕ) (d : N) → i < 64
        → N.value (slice_index_or sums.new (64 * v + i) d)
        ≡ with_product (N.value (slice_index_or sums.old (64 * v + i) d)) (N.value
        (slice_index_or numbers.now (64 * u + i) d)) (N.value k) }
    ensures kept { (j : ℕ) (d : N) → (j < 64 * v) ⊎ (64 * v + 64 ≤ j)
        → slice_index_or sums.new j d ≡ slice_index_or sums.old j d }
{
    merge_part::<N, N, AddedProduct<N>, 64>(AddedProduct { k }, sums, 64 * v, numbers, 64 * u);
}

// The same for a number from 0 to 2^31 - 1, and k from 0 to 2^32 - 1.
#[derive(Clone, Copy)]
struct AddedShortProduct<N> {
    k: N,
}

impl<N: Numerator> Merge<N, N> for AddedShortProduct<N> {
    ghost takes = { λ r s x. (pos 0 ≤ℤ N.value x) × (N.value x <ℤ pos (2 ^ 31))
        × (pos 0 ≤ℤ N.value r.k) × (N.value r.k <ℤ pos (2 ^ 32))
        × FitsSigned N.width (N.value r.k *ℤ N.value x)
        × FitsSigned N.width (with_product (N.value s) (N.value x) (N.value r.k)) };

    ghost makes = { λ r s x y. N.value y ≡ with_product (N.value s) (N.value x) (N.value r.k) };

    fn merged(self, old: N, from: N) -> N {
        old.raised_short(from, self.k)
    }
}

// The same for numbers from 0 to 2^31 - 1, and k from 0 to 2^32 - 1.
#[inline(never)]
fn mul_add_short<N: Numerator>(numbers: &[N], u: usize, k: N, sums: &mut [N], v: usize)
    requires block { (u < 4) × (v < 4) × (length numbers.now ≡ 256) × (length sums.old ≡ 256) }
    requires k { (pos 0 ≤ℤ N.value k) × (N.value k <ℤ pos (2 ^ 32)) }
    requires least { (i : ℕ) (d : N) → i < 64
        → pos 0 ≤ℤ N.value (slice_index_or numbers.now (64 * u + i) d) }
    requires greatest { (i : ℕ) (d : N) → i < 64
        → N.value (slice_index_or numbers.now (64 * u + i) d) <ℤ pos (2 ^ 31) }
    requires product { (i : ℕ) (d : N) → i < 64
        → FitsSigned N.width (N.value k *ℤ N.value (slice_index_or numbers.now (64 * u + i) d)) }
    requires fits { (i : ℕ) (d : N) → i < 64
        → FitsSigned N.width (with_product (N.value (slice_index_or sums.old (64 * v + i) d))
        (N.value (slice_index_or numbers.now (64 * u + i) d)) (N.value k)) }
    ensures set { (i : ℕ) (d : N) → i < 64
        → N.value (slice_index_or sums.new (64 * v + i) d)
        ≡ with_product (N.value (slice_index_or sums.old (64 * v + i) d)) (N.value
        (slice_index_or numbers.now (64 * u + i) d)) (N.value k) }
    ensures kept { (j : ℕ) (d : N) → (j < 64 * v) ⊎ (64 * v + 64 ≤ j)
        → slice_index_or sums.new j d ≡ slice_index_or sums.old j d }
{
    merge_part::<N, N, AddedShortProduct<N>, 64>(
        AddedShortProduct { k },
        sums,
        64 * v,
        numbers,
        64 * u,
    );
}

// The same for a number from 0 to 2^31 - 1, and k from -(2^32 - 1) to 0.
#[derive(Clone, Copy)]
struct TakenShortProduct<N> {
    k: N,
}

impl<N: Numerator> Merge<N, N> for TakenShortProduct<N> {
    ghost takes = { λ r s x. (pos 0 ≤ℤ N.value x) × (N.value x <ℤ pos (2 ^ 31))
        × (N.value r.k ≤ℤ pos 0) × ((pos 0 -ℤ N.value r.k) <ℤ pos (2 ^ 32))
        × FitsSigned N.width (N.value r.k *ℤ N.value x)
        × FitsSigned N.width (with_product (N.value s) (N.value x) (N.value r.k)) };

    ghost makes = { λ r s x y. N.value y ≡ with_product (N.value s) (N.value x) (N.value r.k) };

    fn merged(self, old: N, from: N) -> N {
        old.lowered_short(from, self.k)
    }
}

// The same for numbers from 0 to 2^31 - 1, and k from -(2^32 - 1) to 0.
#[inline(never)]
fn mul_take_short<N: Numerator>(numbers: &[N], u: usize, k: N, sums: &mut [N], v: usize)
    requires block { (u < 4) × (v < 4) × (length numbers.now ≡ 256) × (length sums.old ≡ 256) }
    requires k { (N.value k ≤ℤ pos 0) × ((pos 0 -ℤ N.value k) <ℤ pos (2 ^ 32)) }
    requires least { (i : ℕ) (d : N) → i < 64
        → pos 0 ≤ℤ N.value (slice_index_or numbers.now (64 * u + i) d) }
    requires greatest { (i : ℕ) (d : N) → i < 64
        → N.value (slice_index_or numbers.now (64 * u + i) d) <ℤ pos (2 ^ 31) }
    requires product { (i : ℕ) (d : N) → i < 64
        → FitsSigned N.width (N.value k *ℤ N.value (slice_index_or numbers.now (64 * u + i) d)) }
    requires fits { (i : ℕ) (d : N) → i < 64
        → FitsSigned N.width (with_product (N.value (slice_index_or sums.old (64 * v + i) d))
        (N.value (slice_index_or numbers.now (64 * u + i) d)) (N.value k)) }
    ensures set { (i : ℕ) (d : N) → i < 64
        → N.value (slice_index_or sums.new (64 * v + i) d)
        ≡ with_product (N.value (slice_index_or sums.old (64 * v + i) d)) (N.value
        (slice_index_or numbers.now (64 * u + i) d)) (N.value k) }
    ensures kept { (j : ℕ) (d : N) → (j < 64 * v) ⊎ (64 * v + 64 ≤ j)
        → slice_index_or sums.new j d ≡ slice_index_or sums.old j d }
{
    merge_part::<N, N, TakenShortProduct<N>, 64>(
        TakenShortProduct { k },
        sums,
        64 * v,
        numbers,
        64 * u,
    );
}

// Entry j of a row as a numerator.
fn entry<N: Numerator>(row: &[i128; 5], j: usize) -> N
    requires inside { j < 5 }
    requires fits { FitsSigned N.width (slice_index_or row.now j (pos 0)) }
    ensures { N.value result ≡ slice_index_or row.now j (pos 0) }
{
    N::of(row[j])
}

// Whether entry j of a row is not 0.
fn has_entry(row: &[i128; 5], j: usize) -> bool
    requires { j < 5 }
    ensures { result ≡ false → slice_index_or row.now j (pos 0) ≡ pos 0 }
{
    row[j] != 0
}

// Whether entry j of a row lies from 0 to 2^32 - 1.
fn is_short_entry(row: &[i128; 5], j: usize) -> bool
    requires { j < 5 }
    ensures least { result ≡ true → pos 0 ≤ℤ slice_index_or row.now j (pos 0) }
    ensures greatest { result ≡ true → slice_index_or row.now j (pos 0) <ℤ pos (2 ^ 32) }
{
    0 <= row[j] && row[j] < 4_294_967_296
}

// Whether entry j of a row lies from -(2^32 - 1) to 0.
fn is_short_below(row: &[i128; 5], j: usize) -> bool
    requires { j < 5 }
    ensures greatest { result ≡ true → slice_index_or row.now j (pos 0) ≤ℤ pos 0 }
    ensures least { result ≡ true
        → (pos 0 -ℤ slice_index_or row.now j (pos 0)) <ℤ pos (2 ^ 32) }
{
    -4_294_967_296 < row[j] && row[j] <= 0
}

// Whether all numbers of value j lie from 0 to 2^31 - 1.
fn is_short_value(form: &Form, j: usize) -> bool
    requires { j < 4 }
    ensures there { result ≡ true → j < form.now.count }
    ensures least { result ≡ true → pos 0 ≤ℤ (extent_at form.now j).least }
    ensures greatest { result ≡ true → (extent_at form.now j).greatest <ℤ pos (2 ^ 31) }
{
    let extent = form.extents[j];
    j < form.count && is_short(&extent)
}

// Entry j of a row times value j of each pixel, added to value v of the sums.
fn add_product<N: Numerator>(
    numbers: &[N],
    form: &Form,
    row: &[i128; 5],
    j: usize,
    sums: &mut [N],
    v: usize,
)
    requires block { (j < 4) × (v < 4) × (length numbers.now ≡ 256) × (length sums.old ≡ 256) }
    requires within { AreWithin N.value numbers.now form.now }
    requires k { FitsSigned N.width (slice_index_or row.now j (pos 0)) }
    requires product { (i : ℕ) (d : N) → i < 64 → FitsSigned N.width (slice_index_or row.now j
        (pos 0) *ℤ N.value (slice_index_or numbers.now (64 * j + i) d)) }
    requires fits { (i : ℕ) (d : N) → i < 64
        → FitsSigned N.width (with_product (N.value (slice_index_or sums.old (64 * v + i) d))
        (N.value (slice_index_or numbers.now (64 * j + i) d)) (slice_index_or row.now j
        (pos 0))) }
    ensures set { (i : ℕ) (d : N) → i < 64
        → N.value (slice_index_or sums.new (64 * v + i) d)
        ≡ with_product (N.value (slice_index_or sums.old (64 * v + i) d)) (N.value
        (slice_index_or numbers.now (64 * j + i) d)) (slice_index_or row.now j (pos 0)) }
    ensures kept { (i : ℕ) (d : N) → (i < 64 * v) ⊎ (64 * v + 64 ≤ i)
        → slice_index_or sums.new i d ≡ slice_index_or sums.old i d }
{
    if is_short_value(form, j) {
        if is_short_entry(row, j) {
            mul_add_short(numbers, j, entry(row, j), sums, v);
            return;
        }
        if is_short_below(row, j) {
            mul_take_short(numbers, j, entry(row, j), sums, v);
            return;
        }
    }
    mul_add(numbers, j, entry(row, j), sums, v);
}

// A row of coefficients and a constant, at value v of the sums.
pub fn row_of_sums<N: Numerator>(
    numbers: &[N],
    form: &Form,
    row: &[i128; 5],
    sums: &mut [N],
    v: usize,
)
    requires block { (v < 4) × (length numbers.now ≡ 256) × (length sums.old ≡ 256) }
    requires within { AreWithin N.value numbers.now form.now }
    requires coefficients { (j : ℕ) → j < 5
        → FitsSigned N.width (slice_index_or row.now j (pos 0)) }
    requires fits { (i : ℕ) (d : N) → i < 64
        → RowFits N.width row.now (lane_numbers N.value numbers.now i d) }
    ensures set { (i : ℕ) (d : N) → i < 64
        → N.value (slice_index_or sums.new (64 * v + i) d)
        ≡ row_sum row.now (lane_numbers N.value numbers.now i d) 4 }
    ensures kept { (j : ℕ) (d : N) → (j < 64 * v) ⊎ (64 * v + 64 ≤ j)
        → slice_index_or sums.new j d ≡ slice_index_or sums.old j d }
{
    fill(sums, v, entry(row, 4));
    for j in 0..4 {
        if has_entry(row, j) {
            add_product(numbers, form, row, j, sums, v);
        }
    }
}
