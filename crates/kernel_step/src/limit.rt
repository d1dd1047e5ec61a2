// Values that are held to a limit of their own.
ghost use Rattle.std.specs.Prelude.{◌≡◌, ℕ, ◌+◌, ◌*◌, ◌<◌, ◌≤◌, ◌⊎◌, ◌*ℤ◌, ◌≤ℤ◌, ◌<ℤ◌, pos, length};
ghost use Rattle.std.specs.Prelude.{slice_index_or, FitsSigned, IfSome, ⊤};
ghost use Rattle.frac_math.specs.Fraction.{nat};
ghost use Rattle.kernel_step.specs.Forms.{factor, width_of};
ghost use Rattle.kernel_step.specs.Rules.{nearest, but_at_least, but_at_most};
ghost use Rattle.kernel_step.specs.ValueSteps.{AreIn, IsScaled};

use crate::form::{Extent, NumberWidth};
use crate::interval::fits;
use crate::made::Made;
use crate::numerator::Numerator;
use crate::row_form::number_over;
use crate::scale::{multiple_for, multiplied, scale};
use crate::single::with_single;
use frac_math::Frac;
use kernel_lane::{Change, change_part};

// The least number of an extent, as a numerator.
fn least_of<N: Numerator>(extent: &Extent) -> N
    requires { FitsSigned N.width extent.now.least }
    ensures { N.value result ≡ extent.now.least }
{
    N::of(extent.least)
}

// The greatest one.
fn greatest_of<N: Numerator>(extent: &Extent) -> N
    requires { FitsSigned N.width extent.now.greatest }
    ensures { N.value result ≡ extent.now.greatest }
{
    N::of(extent.greatest)
}

// A number, but at least a limit.
#[derive(Clone, Copy)]
struct AtLeast<N> {
    least: N,
}

impl<N: Numerator> Change<N> for AtLeast<N> {
    ghost takes = { λ _ _. ⊤ };

    ghost makes = { λ r x y. N.value y ≡ but_at_least (N.value r.least) (N.value x) };

    fn changed(self, x: N) -> N {
        x.but_at_least(self.least)
    }
}

// A number, but at most a limit.
#[derive(Clone, Copy)]
struct AtMost<N> {
    greatest: N,
}

impl<N: Numerator> Change<N> for AtMost<N> {
    ghost takes = { λ _ _. ⊤ };

    ghost makes = { λ r x y. N.value y ≡ but_at_most (N.value r.greatest) (N.value x) };

    fn changed(self, x: N) -> N {
        x.but_at_most(self.greatest)
    }
}

/// Value v of each pixel times the first factor, but at least the least number of an extent. None
/// of the products is above its greatest one.
#[inline(never)]
pub fn hold_above<N: Numerator>(
    numbers: &mut [N],
    v: usize,
    old: &Extent,
    factors: &[i128; 5],
    new: &Extent,
)
    requires block { (v < 4) × (length numbers.old ≡ 256) }
    requires old { AreIn N.value numbers.old v old.now }
    requires factor { FitsSigned N.width (factor factors.now 0) }
    requires fits { (i : ℕ) (d : N) → i < 64
        → FitsSigned N.width (factor factors.now 0
        *ℤ N.value (slice_index_or numbers.old (64 * v + i) d)) }
    requires least { FitsSigned N.width new.now.least }
    requires ordered { new.now.least ≤ℤ new.now.greatest }
    requires below { (i : ℕ) (d : N) → i < 64 → (factor factors.now 0
        *ℤ N.value (slice_index_or numbers.old (64 * v + i) d)) ≤ℤ new.now.greatest }
    ensures set { (i : ℕ) (d : N) → i < 64
        → N.value (slice_index_or numbers.new (64 * v + i) d) ≡ nearest new.now.least
        new.now.greatest (factor factors.now 0
        *ℤ N.value (slice_index_or numbers.old (64 * v + i) d)) }
    ensures kept { (j : ℕ) (d : N) → (j < 64 * v) ⊎ (64 * v + 64 ≤ j)
        → slice_index_or numbers.new j d ≡ slice_index_or numbers.old j d }
{
    scale(numbers, v, old, factors);
    change_part::<N, AtLeast<N>, 64>(
        AtLeast {
            least: least_of(new),
        },
        numbers,
        64 * v,
    );
}

/// Value v of each pixel times the first factor, but at most the greatest number of an extent. None
/// of the products is below its least one.
#[inline(never)]
pub fn hold_below<N: Numerator>(
    numbers: &mut [N],
    v: usize,
    old: &Extent,
    factors: &[i128; 5],
    new: &Extent,
)
    requires block { (v < 4) × (length numbers.old ≡ 256) }
    requires old { AreIn N.value numbers.old v old.now }
    requires factor { FitsSigned N.width (factor factors.now 0) }
    requires fits { (i : ℕ) (d : N) → i < 64
        → FitsSigned N.width (factor factors.now 0
        *ℤ N.value (slice_index_or numbers.old (64 * v + i) d)) }
    requires greatest { FitsSigned N.width new.now.greatest }
    requires above { (i : ℕ) (d : N) → i < 64 → new.now.least ≤ℤ (factor factors.now 0
        *ℤ N.value (slice_index_or numbers.old (64 * v + i) d)) }
    ensures set { (i : ℕ) (d : N) → i < 64
        → N.value (slice_index_or numbers.new (64 * v + i) d) ≡ nearest new.now.least
        new.now.greatest (factor factors.now 0
        *ℤ N.value (slice_index_or numbers.old (64 * v + i) d)) }
    ensures kept { (j : ℕ) (d : N) → (j < 64 * v) ⊎ (64 * v + 64 ≤ j)
        → slice_index_or numbers.new j d ≡ slice_index_or numbers.old j d }
{
    scale(numbers, v, old, factors);
    change_part::<N, AtMost<N>, 64>(
        AtMost {
            greatest: greatest_of(new),
        },
        numbers,
        64 * v,
    );
}

/// An extent over a denominator that makes a limit whole: the factor that leads to it, and the
/// limit over it.
#[derive(Clone, Copy, Debug)]
pub struct CommonExtent {
    pub factor: i128,
    pub extent: Extent,
    pub limit: i128,
}

/// Brings an extent and a limit over one denominator, where a width of numbers holds all of it.
pub fn bring_over_one(old: &Extent, limit: &Frac, number_width: NumberWidth) -> Option<CommonExtent>
    ensures scaled { IfSome result (λ both. IsScaled (width_of number_width) old.now
        (nat 1) both.factor both.extent) }
    ensures positive { IfSome result (λ both. pos 0 <ℤ both.extent.denominator) }
    ensures ordered { IfSome result (λ both. both.extent.least ≤ℤ both.extent.greatest) }
    ensures least { IfSome result (λ both. FitsSigned (width_of number_width) both.extent.least) }
    ensures greatest { IfSome result
        (λ both. FitsSigned (width_of number_width) both.extent.greatest) }
    ensures number { IfSome result (λ both. both.limit *ℤ pos limit.now.denominator
        ≡ limit.now.numerator *ℤ both.extent.denominator) }
    ensures fits { IfSome result (λ both. FitsSigned (width_of number_width) both.limit) }
{
    let factor = multiple_for(old.denominator, limit.den())?;
    let extent = multiplied(old, factor, number_width)?;
    let number = number_over(limit, extent.denominator)?;
    if !fits(number, number_width) {
        return None;
    }
    if extent.least > extent.greatest {
        return None;
    }
    Some(CommonExtent {
        factor,
        extent,
        limit: number,
    })
}

/// What no limit makes of the numbers of an extent: the same.
pub fn unlimited(old: &Extent, number_width: NumberWidth) -> Option<Made>
    ensures { IfSome result (λ made. IsScaled (width_of number_width) old.now (nat 1)
        (factor made.factors 0) made.extent) }
{
    let extent = multiplied(old, 1, number_width)?;
    let factors = with_single(1);
    Some(Made { factors, extent })
}
