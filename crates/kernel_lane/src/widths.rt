// Numbers of one width from those of another.
ghost use Rattle.std.specs.Prelude.{◌≡◌, ◌^◌, ◌≤ℤ◌, ◌<ℤ◌, pos, length, ⊤};
ghost use Rattle.kernel_lane.specs.Rows.{ForEach, ForPairs};
ghost use Rattle.kernel_lane.specs.Rules.{IsLaneCount, expanded};

use crate::lanes::merge;
use crate::px::Px;
use crate::rule::Merge;

#[derive(Clone, Copy)]
struct Expansion;

impl Merge<u8, u16> for Expansion {
    ghost takes = { λ _ _ _. ⊤ };

    ghost makes = { λ _ _ x y. y ≡ expanded x };

    #[tactic(auto, unfolding(crate::specs::Rules::expanded))]
    fn merged(self, _old: u16, from: u8) -> u16 {
        257 * u16::from(from)
    }
}

#[derive(Clone, Copy)]
struct Widening;

impl<T: Px> Merge<T, i64> for Widening {
    ghost takes = { λ _ _ _. ⊤ };

    ghost makes = { λ _ _ x y. y ≡ pos (T.number x) };

    fn merged(self, _old: i64, from: T) -> i64 {
        from.wide()
    }
}

#[derive(Clone, Copy)]
struct Narrowing;

impl<T: Px> Merge<i64, T> for Narrowing {
    ghost takes = { λ _ _ x. (pos 0 ≤ℤ x) × (x <ℤ pos (2 ^ T.bits)) };

    ghost makes = { λ _ _ x y. pos (T.number y) ≡ x };

    fn merged(self, _old: T, from: i64) -> T {
        T::narrow(from)
    }
}

/// Makes each number of 8 bits, from 0 to 255, that of 16 bits, from 0 to 65535, by the factor 257.
pub fn expand<const N: usize>(from: &[u8], to: &mut [u16])
    requires lanes { IsLaneCount N }
    requires same { length from.now ≡ length to.old }
    ensures { ForPairs (λ x y. y ≡ expanded x) from.now to.new }
{
    merge::<u8, u16, Expansion, N>(Expansion, to, from);
}

/// The same numbers in 64 bits.
pub fn widen<T: Px, const N: usize>(from: &[T], to: &mut [i64])
    requires lanes { IsLaneCount N }
    requires same { length from.now ≡ length to.old }
    ensures { ForPairs (λ x y. y ≡ pos (T.number x)) from.now to.new }
{
    merge::<T, i64, Widening, N>(Widening, to, from);
}

/// The same numbers from 64 bits. Each has to fit T.
pub fn narrow<T: Px, const N: usize>(from: &[i64], to: &mut [T])
    requires lanes { IsLaneCount N }
    requires same { length from.now ≡ length to.old }
    requires fits { ForEach (λ x. (pos 0 ≤ℤ x) × (x <ℤ pos (2 ^ T.bits))) from.now }
    ensures { ForPairs (λ x y. pos (T.number y) ≡ x) from.now to.new }
{
    merge::<i64, T, Narrowing, N>(Narrowing, to, from);
}
