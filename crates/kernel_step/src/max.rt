// Values that are at least a limit of their own.
ghost use Rattle.std.specs.Prelude.{◌≡◌, ℕ, ◌+◌, ◌*◌, ◌<◌, ◌≤◌, ◌⊎◌, length, slice_index_or};
ghost use Rattle.std.specs.Prelude.{IfSome};
ghost use Rattle.op_list.specs.Apply.{at_least};
ghost use Rattle.kernel_step.specs.Forms.{factor, width_of};
ghost use Rattle.kernel_step.specs.ValueSteps.{AreIn, IsAtLeast, IsMaximum, MakesValue};

use crate::form::{Extent, NumberWidth};
use crate::limit::{bring_over_one, hold_above, unlimited};
use crate::made::Made;
use crate::numerator::Numerator;
use crate::scale::scale;
use crate::single::with_single;
use frac_math::Frac;

/// A Max of value v.
pub fn max_value<N: Numerator>(
    limit: &Option<Frac>,
    numbers: &mut [N],
    v: usize,
    old: &Extent,
    factors: &[i128; 5],
    new: &Extent,
)
    requires block { (v < 4) × (length numbers.old ≡ 256) }
    requires is { IsAtLeast N.width old.now limit.now (factor factors.now 0) new.now }
    requires old { AreIn N.value numbers.old v old.now }
    ensures made { MakesValue N.value numbers.old numbers.new v old.now new.now
        (λ i x. at_least limit.now x) }
    ensures kept { (j : ℕ) (d : N) → (j < 64 * v) ⊎ (64 * v + 64 ≤ j)
        → slice_index_or numbers.new j d ≡ slice_index_or numbers.old j d }
{
    match limit {
        None => scale(numbers, v, old, factors),
        Some(_) => hold_above(numbers, v, old, factors, new),
    }
}

// The numbers of an extent, but at least a limit.
fn at_least_limit(old: &Extent, limit: &Frac, number_width: NumberWidth) -> Option<Made>
    ensures { IfSome result (λ made. IsMaximum (width_of number_width) old.now limit.now
        (factor made.factors 0) made.extent) }
{
    let both = bring_over_one(old, limit, number_width)?;
    let factors = with_single(both.factor);
    Some(Made {
        factors,
        extent: Extent {
            denominator: both.extent.denominator,
            least: both.extent.least.max(both.limit),
            greatest: both.extent.greatest.max(both.limit),
        },
    })
}

/// What a Max makes of the numbers of an extent.
pub fn made_at_least(old: &Extent, limit: &Option<Frac>, number_width: NumberWidth) -> Option<Made>
    ensures { IfSome result (λ made. IsAtLeast (width_of number_width) old.now limit.now
        (factor made.factors 0) made.extent) }
{
    match limit {
        None => unlimited(old, number_width),
        Some(limit) => at_least_limit(old, limit, number_width),
    }
}
