// Arithmetic on numerators of 64 bits.
ghost use Rattle.std.specs.Prelude.{◌≡◌, ◌≤ℤ◌, ◌*ℤ◌, pos, length, FitsSigned};
ghost use Rattle.kernel_lane.specs.Rows.{ForEach, ForPairs, ForTriples};
ghost use Rattle.std.specs.Int.{w64};
ghost use Rattle.kernel_lane.specs.Rules.{IsLaneCount, with_product, floor_quotient, nearest};

use crate::lanes::{change, merge};
use crate::rule::{Change, Merge};

#[derive(Clone, Copy)]
struct AddedProduct {
    k: i64,
}

impl Merge<i64, i64> for AddedProduct {
    ghost takes = { λ r s x. FitsSigned w64 (r.k *ℤ x) × FitsSigned w64 (with_product s x r.k) };

    ghost makes = { λ r s x y. y ≡ with_product s x r.k };

    #[tactic(auto, unfolding(crate::specs::Rules::with_product))]
    fn merged(self, old: i64, from: i64) -> i64 {
        old + self.k * from
    }
}

#[derive(Clone, Copy)]
struct FloorQuotient {
    d: i64,
}

impl Change<i64> for FloorQuotient {
    ghost takes = { λ r _. pos 1 ≤ℤ r.d };

    ghost makes = { λ r x y. y ≡ floor_quotient x r.d };

    #[tactic(auto, unfolding(crate::specs::Rules::floor_quotient))]
    fn changed(self, x: i64) -> i64 {
        x.div_euclid(self.d)
    }
}

#[derive(Clone, Copy)]
struct Limits {
    least: i64,
    greatest: i64,
}

impl Change<i64> for Limits {
    ghost takes = { λ r _. r.least ≤ℤ r.greatest };

    ghost makes = { λ r x y. y ≡ nearest r.least r.greatest x };

    #[tactic(auto, unfolding(crate::specs::Rules::nearest))]
    fn changed(self, x: i64) -> i64 {
        x.min(self.greatest).max(self.least)
    }
}

/// Adds `k` times the number of `from` to each sum. Each product and each sum has to fit.
pub fn mul_add<const N: usize>(sum: &mut [i64], from: &[i64], k: i64)
    requires lanes { IsLaneCount N }
    requires same { length from.now ≡ length sum.old }
    requires products { ForEach (λ x. FitsSigned w64 (k *ℤ x)) from.now }
    requires sums { ForPairs (λ s x. FitsSigned w64 (with_product s x k)) sum.old from.now }
    ensures { ForTriples (λ s x t. t ≡ with_product s x k) sum.old from.now sum.new }
{
    merge::<i64, i64, AddedProduct, N>(AddedProduct { k }, sum, from);
}

/// Divides each number by `d`, which is at least 1, floored.
pub fn floor_div<const N: usize>(v: &mut [i64], d: i64)
    requires lanes { IsLaneCount N }
    requires divisor { pos 1 ≤ℤ d }
    ensures { ForPairs (λ x y. y ≡ floor_quotient x d) v.old v.new }
{
    change::<i64, FloorQuotient, N>(FloorQuotient { d }, v);
}

/// Makes each number the nearest one of `least` to `greatest`. The first is not above the second.
pub fn clamp<const N: usize>(v: &mut [i64], least: i64, greatest: i64)
    requires lanes { IsLaneCount N }
    requires order { least ≤ℤ greatest }
    ensures { ForPairs (λ x y. y ≡ nearest least greatest x) v.old v.new }
{
    change::<i64, Limits, N>(Limits { least, greatest }, v);
}
