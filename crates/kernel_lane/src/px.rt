// Whole numbers of a pixel, in 8, 16 or 32 bits.
ghost use Rattle.std.specs.Prelude.{◌≡◌, ℕ, ◌^◌, ◌<◌, ◌≤ℤ◌, ◌<ℤ◌, pos};
ghost use Rattle.kernel_lane.specs.Rules.{left_shifted, right_shifted};

use num_traits::{PrimInt, Unsigned};

/// A whole number of a pixel, in 8, 16 or 32 bits.
pub trait Px: PrimInt + Unsigned {
    /// How many bits it has.
    ghost bits: { ℕ };

    /// The number that it stands for.
    ghost number: { Self → ℕ };

    /// The number times `2^n`, modulo `2^bits`.
    fn shifted_left(self, n: u32) -> Self
        requires { n < bits }
        ensures { number result ≡ left_shifted bits n (number self) };

    /// The number divided by `2^n`, floored.
    fn shifted_right(self, n: u32) -> Self
        requires { n < bits }
        ensures { number result ≡ right_shifted n (number self) };

    /// The number, in 64 bits.
    fn wide(self) -> i64
        ensures { result ≡ pos (number self) };

    /// The number, from 64 bits, which has to fit.
    fn narrow(n: i64) -> Self
        requires least { pos 0 ≤ℤ n }
        requires greatest { n <ℤ pos (2 ^ bits) }
        ensures { pos (number result) ≡ n };
}

impl Px for u8 {
    ghost bits = { 8 };

    ghost number = { λ x. x };

    #[tactic(auto, unfolding(crate::specs::Rules::left_shifted))]
    fn shifted_left(self, n: u32) -> u8 {
        self << n
    }

    #[tactic(auto, unfolding(crate::specs::Rules::right_shifted))]
    fn shifted_right(self, n: u32) -> u8 {
        self >> n
    }

    fn wide(self) -> i64 {
        i64::from(self)
    }

    fn narrow(n: i64) -> u8 {
        n as u8
    }
}

impl Px for u16 {
    ghost bits = { 16 };

    ghost number = { λ x. x };

    #[tactic(auto, unfolding(crate::specs::Rules::left_shifted))]
    fn shifted_left(self, n: u32) -> u16 {
        self << n
    }

    #[tactic(auto, unfolding(crate::specs::Rules::right_shifted))]
    fn shifted_right(self, n: u32) -> u16 {
        self >> n
    }

    fn wide(self) -> i64 {
        i64::from(self)
    }

    fn narrow(n: i64) -> u16 {
        n as u16
    }
}

impl Px for u32 {
    ghost bits = { 32 };

    ghost number = { λ x. x };

    #[tactic(auto, unfolding(crate::specs::Rules::left_shifted))]
    fn shifted_left(self, n: u32) -> u32 {
        self << n
    }

    #[tactic(auto, unfolding(crate::specs::Rules::right_shifted))]
    fn shifted_right(self, n: u32) -> u32 {
        self >> n
    }

    fn wide(self) -> i64 {
        i64::from(self)
    }

    fn narrow(n: i64) -> u32 {
        n as u32
    }
}
