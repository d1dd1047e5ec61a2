// Shifts of numbers.
ghost use Rattle.std.specs.Prelude.{◌≡◌, ◌<◌};
ghost use Rattle.kernel_lane.specs.Rows.{ForPairs};
ghost use Rattle.kernel_lane.specs.Rules.{IsLaneCount, left_shifted, right_shifted};

use crate::lanes::change;
use crate::px::Px;
use crate::rule::Change;

#[derive(Clone, Copy)]
struct LeftShift {
    n: u32,
}

impl<T: Px> Change<T> for LeftShift {
    ghost takes = { λ r _. r.n < T.bits };

    ghost makes = { λ r x y. T.number y ≡ left_shifted T.bits r.n (T.number x) };

    fn changed(self, x: T) -> T {
        x.shifted_left(self.n)
    }
}

#[derive(Clone, Copy)]
struct RightShift {
    n: u32,
}

impl<T: Px> Change<T> for RightShift {
    ghost takes = { λ r _. r.n < T.bits };

    ghost makes = { λ r x y. T.number y ≡ right_shifted r.n (T.number x) };

    fn changed(self, x: T) -> T {
        x.shifted_right(self.n)
    }
}

/// Makes each number its product with `2^n`, modulo `2^bits`. The shift `n` is below the bits of T.
pub fn shift_left<T: Px, const N: usize>(v: &mut [T], n: u32)
    requires lanes { IsLaneCount N }
    requires shift { n < T.bits }
    ensures { ForPairs (λ x y. T.number y ≡ left_shifted T.bits n (T.number x)) v.old v.new }
{
    change::<T, LeftShift, N>(LeftShift { n }, v);
}

/// Divides each number by `2^n`, floored. The shift `n` is below the bits of T.
pub fn shift_right<T: Px, const N: usize>(v: &mut [T], n: u32)
    requires lanes { IsLaneCount N }
    requires shift { n < T.bits }
    ensures { ForPairs (λ x y. T.number y ≡ right_shifted n (T.number x)) v.old v.new }
{
    change::<T, RightShift, N>(RightShift { n }, v);
}
