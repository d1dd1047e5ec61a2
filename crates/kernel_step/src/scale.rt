// Values times a factor of their own.
ghost use Rattle.std.specs.Prelude.{◌≡◌, ℕ, ◌+◌, ◌*◌, ◌^◌, ◌<◌, ◌≤◌, ◌⊎◌, pos, ◌*ℤ◌, ◌<ℤ◌, true};
ghost use Rattle.std.specs.Prelude.{length};
ghost use Rattle.std.specs.Prelude.{◌≤ℤ◌, slice_index_or, unsigned_abs, FitsSigned, IfSome};
ghost use Rattle.frac_math.specs.Fraction.{◌*ℚ◌, nat};
ghost use Rattle.kernel_step.specs.declared.form.Extent.{Extent};
ghost use Rattle.kernel_step.specs.Forms.{factor, width_of};
ghost use Rattle.kernel_step.specs.ValueSteps.{AreIn, IsScaled, IsScaling, MakesValue};

use crate::common::common_part;
use crate::form::{Extent, NumberWidth};
use crate::interval::{fits, next_interval};
use crate::made::Made;
use crate::numerator::Numerator;
use crate::row_form::product_of;
use crate::single::with_single;
use frac_math::Frac;
use kernel_lane::{Change, change_part};

// k times a number.
#[derive(Clone, Copy)]
struct Product<N> {
    k: N,
}

impl<N: Numerator> Change<N> for Product<N> {
    ghost takes = { λ r x. FitsSigned N.width (N.value r.k *ℤ N.value x) };

    ghost makes = { λ r x y. N.value y ≡ N.value r.k *ℤ N.value x };

    fn changed(self, x: N) -> N {
        x.times(self.k)
    }
}

// Value v of each pixel times k.
#[inline(never)]
fn multiply<N: Numerator>(numbers: &mut [N], v: usize, k: N)
    requires block { (v < 4) × (length numbers.old ≡ 256) }
    requires fits { (i : ℕ) (d : N) → i < 64
        → FitsSigned N.width (N.value k *ℤ N.value (slice_index_or numbers.old (64 * v + i) d)) }
    ensures set { (i : ℕ) (d : N) → i < 64 → N.value (slice_index_or numbers.new (64 * v + i) d)
        ≡ N.value k *ℤ N.value (slice_index_or numbers.old (64 * v + i) d) }
    ensures kept { (j : ℕ) (d : N) → (j < 64 * v) ⊎ (64 * v + 64 ≤ j)
        → slice_index_or numbers.new j d ≡ slice_index_or numbers.old j d }
{
    change_part::<N, Product<N>, 64>(Product { k }, numbers, 64 * v);
}

// k times a number, where that lies from 0 to 2^31 - 1, and k from 0 to 2^32 - 1.
#[derive(Clone, Copy)]
struct ShortProduct<N> {
    k: N,
}

impl<N: Numerator> Change<N> for ShortProduct<N> {
    ghost takes = { λ r x. (pos 0 ≤ℤ N.value x) × (N.value x <ℤ pos (2 ^ 31))
        × (pos 0 ≤ℤ N.value r.k) × (N.value r.k <ℤ pos (2 ^ 32))
        × FitsSigned N.width (N.value r.k *ℤ N.value x) };

    ghost makes = { λ r x y. N.value y ≡ N.value r.k *ℤ N.value x };

    fn changed(self, x: N) -> N {
        x.times_short(self.k)
    }
}

// The same for such numbers.
#[inline(never)]
fn multiply_short<N: Numerator>(numbers: &mut [N], v: usize, k: N)
    requires block { (v < 4) × (length numbers.old ≡ 256) }
    requires k { (pos 0 ≤ℤ N.value k) × (N.value k <ℤ pos (2 ^ 32)) }
    requires least { (i : ℕ) (d : N) → i < 64
        → pos 0 ≤ℤ N.value (slice_index_or numbers.old (64 * v + i) d) }
    requires greatest { (i : ℕ) (d : N) → i < 64
        → N.value (slice_index_or numbers.old (64 * v + i) d) <ℤ pos (2 ^ 31) }
    requires fits { (i : ℕ) (d : N) → i < 64
        → FitsSigned N.width (N.value k *ℤ N.value (slice_index_or numbers.old (64 * v + i) d)) }
    ensures set { (i : ℕ) (d : N) → i < 64 → N.value (slice_index_or numbers.new (64 * v + i) d)
        ≡ N.value k *ℤ N.value (slice_index_or numbers.old (64 * v + i) d) }
    ensures kept { (j : ℕ) (d : N) → (j < 64 * v) ⊎ (64 * v + 64 ≤ j)
        → slice_index_or numbers.new j d ≡ slice_index_or numbers.old j d }
{
    change_part::<N, ShortProduct<N>, 64>(ShortProduct { k }, numbers, 64 * v);
}

/// Whether all numbers of an extent lie from 0 to 2^31 - 1.
pub fn is_short(extent: &Extent) -> bool
    ensures least { result ≡ true → pos 0 ≤ℤ extent.now.least }
    ensures greatest { result ≡ true → extent.now.greatest <ℤ pos (2 ^ 31) }
{
    0 <= extent.least && extent.greatest < 2_147_483_648
}

// Whether the first factor lies from 0 to 2^32 - 1.
fn is_short_factor(factors: &[i128; 5]) -> bool
    ensures least { result ≡ true → pos 0 ≤ℤ factor factors.now 0 }
    ensures greatest { result ≡ true → factor factors.now 0 <ℤ pos (2 ^ 32) }
{
    0 <= factors[0] && factors[0] < 4_294_967_296
}

// Whether the first factor is 1.
fn is_one(factors: &[i128; 5]) -> bool
    ensures { result ≡ true → factor factors.now 0 ≡ pos 1 }
{
    factors[0] == 1
}

/// Factor j as a numerator.
pub fn numerator<N: Numerator>(factors: &[i128; 5], j: usize) -> N
    requires inside { j < 5 }
    requires fits { FitsSigned N.width (factor factors.now j) }
    ensures { N.value result ≡ factor factors.now j }
{
    N::of(factors[j])
}

/// Value v of each pixel, whose numbers lie in an extent, times the first factor, which is mostly
/// 1.
pub fn scale<N: Numerator>(numbers: &mut [N], v: usize, old: &Extent, factors: &[i128; 5])
    requires block { (v < 4) × (length numbers.old ≡ 256) }
    requires old { AreIn N.value numbers.old v old.now }
    requires factor { FitsSigned N.width (factor factors.now 0) }
    requires fits { (i : ℕ) (d : N) → i < 64
        → FitsSigned N.width (factor factors.now 0
        *ℤ N.value (slice_index_or numbers.old (64 * v + i) d)) }
    ensures set { (i : ℕ) (d : N) → i < 64 → N.value (slice_index_or numbers.new (64 * v + i) d)
        ≡ factor factors.now 0 *ℤ N.value (slice_index_or numbers.old (64 * v + i) d) }
    ensures kept { (j : ℕ) (d : N) → (j < 64 * v) ⊎ (64 * v + 64 ≤ j)
        → slice_index_or numbers.new j d ≡ slice_index_or numbers.old j d }
{
    if is_one(factors) {
        return;
    }
    if is_short(old) {
        if is_short_factor(factors) {
            multiply_short(numbers, v, numerator(factors, 0));
            return;
        }
    }
    multiply(numbers, v, numerator(factors, 0));
}

/// A Scale of value v.
pub fn scale_value<N: Numerator>(
    _by: &Frac,
    numbers: &mut [N],
    v: usize,
    old: &Extent,
    factors: &[i128; 5],
    _new: &Extent,
)
    requires block { (v < 4) × (length numbers.old ≡ 256) }
    requires is { IsScaling N.width old.now _by.now (factor factors.now 0) _new.now }
    requires old { AreIn N.value numbers.old v old.now }
    ensures made { MakesValue N.value numbers.old numbers.new v old.now _new.now
        (λ i x. x *ℚ _by.now) }
    ensures kept { (j : ℕ) (d : N) → (j < 64 * v) ⊎ (64 * v + 64 ≤ j)
        → slice_index_or numbers.new j d ≡ slice_index_or numbers.old j d }
{
    scale(numbers, v, old, factors);
}

// Whether k over a new denominator is `by` times 1 over the old one.
fn is_factor(old: i128, by: &Frac, k: i128, new: i128) -> Option<bool>
    requires old { pos 0 <ℤ old }
    requires new { pos 0 <ℤ new }
    ensures { IfSome result (λ is. is ≡ true
        → k *ℤ pos (unsigned_abs old * by.now.denominator)
        ≡ by.now.numerator *ℤ pos (unsigned_abs new)) }
{
    let below = product_of(old, by.den())?;
    Some(product_of(k, below)? == product_of(by.num(), new)?)
}

/// The numbers of an extent times k, over a new denominator, where that is `by` times their
/// fractions and a width of numbers holds
/// all of it.
pub fn scaled_by(
    old: &Extent,
    by: &Frac,
    k: i128,
    denominator: i128,
    number_width: NumberWidth,
) -> Option<Extent>
    ensures scaled { IfSome result (λ new. IsScaled (width_of number_width) old.now by.now k new) }
    ensures positive { IfSome result (λ new. pos 0 <ℤ new.denominator) }
    ensures least { IfSome result (λ new. FitsSigned (width_of number_width) new.least) }
    ensures greatest { IfSome result (λ new. FitsSigned (width_of number_width) new.greatest) }
{
    if old.denominator <= 0 {
        return None;
    }
    if denominator <= 0 {
        return None;
    }
    if !is_factor(old.denominator, by, k, denominator)? {
        return None;
    }
    if !fits(k, number_width) {
        return None;
    }
    let range = next_interval(0, 0, k, old.least, old.greatest, number_width)?;
    Some(Extent {
        denominator,
        least: range.0,
        greatest: range.1,
    })
}

/// The same fractions over k times the denominator.
pub fn multiplied(old: &Extent, k: i128, number_width: NumberWidth) -> Option<Extent>
    ensures scaled { IfSome result (λ new. IsScaled (width_of number_width) old.now (nat 1) k new) }
    ensures positive { IfSome result (λ new. pos 0 <ℤ new.denominator) }
    ensures least { IfSome result (λ new. FitsSigned (width_of number_width) new.least) }
    ensures greatest { IfSome result (λ new. FitsSigned (width_of number_width) new.greatest) }
{
    let denominator = product_of(old.denominator, k)?;
    scaled_by(old, &Frac::whole(1), k, denominator, number_width)
}

/// The least k by which a denominator becomes a multiple of another one.
pub fn multiple_for(denominator: i128, other: i128) -> Option<i128> {
    let common = common_part(other, denominator)?;
    Some(other / common)
}

/// What a Scale makes of the numbers of an extent, over the least denominator.
pub fn scaled(old: &Extent, by: &Frac, number_width: NumberWidth) -> Option<Made>
    ensures { IfSome result (λ made. IsScaling (width_of number_width) old.now by.now
        (factor made.factors 0) made.extent) }
{
    let common = common_part(by.num(), old.denominator)?;
    let k = by.num() / common;
    let denominator = product_of(old.denominator / common, by.den())?;
    let extent = scaled_by(old, by, k, denominator, number_width)?;
    let factors = with_single(k);
    Some(Made { factors, extent })
}
