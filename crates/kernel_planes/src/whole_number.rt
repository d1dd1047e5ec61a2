ghost use Rattle.std.specs.Prelude.{◌≡◌, ℕ, ◌+◌, ◌*◌, ◌/◌, ◌%◌, ◌^◌, ◌<◌, ◌≤◌, true, false, length};
ghost use Rattle.std.specs.Prelude.{slice_index, slice_index_or};

use kernel_lane::{join_pixels, split_pixels};

/// A whole number of a block, in 8, 16 or 32 bits.
pub trait WholeNumber: Copy {
    ghost bits: { ℕ };

    ghost number: { Self → ℕ };

    /// The number.
    fn wide(self) -> u32
        ensures value { result ≡ number self }
        ensures small { result < 2 ^ bits };

    /// A number that has so many bits.
    fn narrow(n: u32) -> Self
        requires { n < 2 ^ bits }
        ensures { number result ≡ n };

    /// How many bits it has.
    fn size() -> u32
        ensures value { result ≡ bits }
        ensures small { result ≤ 32 };

    /// The number times 2^n, modulo 2^bits.
    fn shifted_left(self, n: u32) -> Self
        requires { n < bits }
        ensures { number result ≡ number self * 2 ^ n % 2 ^ bits };

    /// The number divided by 2^n, floored.
    fn shifted_right(self, n: u32) -> Self
        requires { n < bits }
        ensures { number result ≡ number self / 2 ^ n };

    /// The sum of the number and another one.
    fn plus(self, addend: Self) -> Self
        requires { number self + number addend < 2 ^ bits }
        ensures { number result ≡ number self + number addend };

    /// Splits the `count` bytes of each of 64 pixels, where there is a fast way for these numbers:
    /// value v of pixel i is then at `64 * v + i`.
    fn split(count: usize, from: &[u8], values: &mut [Self]) -> bool
        requires sizes { (length from.now ≡ 64 * count) × (length values.old ≡ 64 * count) }
        ensures set { result ≡ true → (v i : ℕ) (d : Self) → v < count → i < 64
            → number (slice_index_or values.new (64 * v + i) d)
            ≡ slice_index from.now (count * i + v) }
        ensures same { result ≡ false → values.new ≡ values.old };

    /// The way back: puts the `count` values of 64 pixels, a byte each, one pixel after the other,
    /// where there is a fast way.
    fn join(count: usize, values: &[Self], to: &mut [u8]) -> bool
        requires sizes { (length values.now ≡ 64 * count) × (length to.old ≡ 64 * count) }
        ensures set { result ≡ true → (v i : ℕ) (d : Self) → v < count → i < 64
            → slice_index to.new (count * i + v)
            ≡ number (slice_index_or values.now (64 * v + i) d) }
        ensures same { result ≡ false → to.new ≡ to.old };
}

impl WholeNumber for u8 {
    ghost bits = { 8 };

    ghost number = { λ x. x };

    fn wide(self) -> u32 {
        u32::from(self)
    }

    fn narrow(n: u32) -> u8 {
        n as u8
    }

    fn size() -> u32 {
        8
    }

    fn shifted_left(self, n: u32) -> u8 {
        self << n
    }

    fn shifted_right(self, n: u32) -> u8 {
        self >> n
    }

    fn plus(self, addend: u8) -> u8 {
        self + addend
    }

    fn split(count: usize, from: &[u8], values: &mut [u8]) -> bool {
        match count {
            1 => values.copy_from_slice(from),
            2 => split_pixels::<2>(from, values),
            3 => split_pixels::<3>(from, values),
            4 => split_pixels::<4>(from, values),
            _ => return false,
        }
        true
    }

    fn join(count: usize, values: &[u8], to: &mut [u8]) -> bool {
        match count {
            1 => to.copy_from_slice(values),
            2 => join_pixels::<2>(values, to),
            3 => join_pixels::<3>(values, to),
            4 => join_pixels::<4>(values, to),
            _ => return false,
        }
        true
    }
}

impl WholeNumber for u16 {
    ghost bits = { 16 };

    ghost number = { λ x. x };

    fn wide(self) -> u32 {
        u32::from(self)
    }

    fn narrow(n: u32) -> u16 {
        n as u16
    }

    fn size() -> u32 {
        16
    }

    fn shifted_left(self, n: u32) -> u16 {
        self << n
    }

    fn shifted_right(self, n: u32) -> u16 {
        self >> n
    }

    fn plus(self, addend: u16) -> u16 {
        self + addend
    }

    fn split(_count: usize, _from: &[u8], _values: &mut [u16]) -> bool {
        false
    }

    fn join(_count: usize, _values: &[u16], _to: &mut [u8]) -> bool {
        false
    }
}

impl WholeNumber for u32 {
    ghost bits = { 32 };

    ghost number = { λ x. x };

    fn wide(self) -> u32 {
        self
    }

    fn narrow(n: u32) -> u32 {
        n
    }

    fn size() -> u32 {
        32
    }

    fn shifted_left(self, n: u32) -> u32 {
        self << n
    }

    fn shifted_right(self, n: u32) -> u32 {
        self >> n
    }

    fn plus(self, addend: u32) -> u32 {
        self + addend
    }

    fn split(_count: usize, _from: &[u8], _values: &mut [u32]) -> bool {
        false
    }

    fn join(_count: usize, _values: &[u32], _to: &mut [u8]) -> bool {
        false
    }
}
