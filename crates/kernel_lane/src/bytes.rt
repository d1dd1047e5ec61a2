// The byte order of numbers.
ghost use Rattle.std.specs.Prelude.{◌≡◌, ⊤};
ghost use Rattle.kernel_lane.specs.Rows.{ForPairs};
ghost use Rattle.kernel_lane.specs.Rules.{IsLaneCount, swapped_16, swapped_32};

use crate::lanes::change;
use crate::rule::Change;

#[derive(Clone, Copy)]
struct ByteSwap;

impl Change<u16> for ByteSwap {
    ghost takes = { λ _ _. ⊤ };

    ghost makes = { λ _ x y. y ≡ swapped_16 x };

    #[tactic(auto, unfolding(crate::specs::Rules::swapped_16))]
    fn changed(self, x: u16) -> u16 {
        x.swap_bytes()
    }
}

impl Change<u32> for ByteSwap {
    ghost takes = { λ _ _. ⊤ };

    ghost makes = { λ _ x y. y ≡ swapped_32 x };

    #[tactic(auto, unfolding(crate::specs::Rules::swapped_32))]
    fn changed(self, x: u32) -> u32 {
        x.swap_bytes()
    }
}

/// Exchanges the two bytes of each number.
pub fn swap_u16<const N: usize>(v: &mut [u16])
    requires lanes { IsLaneCount N }
    ensures { ForPairs (λ x y. y ≡ swapped_16 x) v.old v.new }
{
    change::<u16, ByteSwap, N>(ByteSwap, v);
}

/// Reverses the four bytes of each number.
pub fn swap_u32<const N: usize>(v: &mut [u32])
    requires lanes { IsLaneCount N }
    ensures { ForPairs (λ x y. y ≡ swapped_32 x) v.old v.new }
{
    change::<u32, ByteSwap, N>(ByteSwap, v);
}
