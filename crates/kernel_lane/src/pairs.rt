// Bytes of two or of four values for each pixel, sixteen bytes at a time.
ghost use Rattle.std.specs.Prelude.{◌≡◌, ℕ, ◌+◌, ◌*◌, ◌<◌, ◌≤◌, ◌⊎◌, ◌++◌, length, slice_index};

use crate::sixteen::{store_sixteen, store_two};
use std::simd::prelude::*;

// The bytes at even places of two vectors that stand together, and those at odd ones.
fn split_vectors(x: u8x16, y: u8x16) -> (u8x16, u8x16)
    requires sizes { (length x ≡ 16) × (length y ≡ 16) }
    ensures sizes { (length result.0 ≡ 16) × (length result.1 ≡ 16) }
    ensures even { (j : ℕ) → j < 16 → slice_index result.0 j ≡ slice_index (x ++ y) (2 * j) }
    ensures odd { (j : ℕ) → j < 16 → slice_index result.1 j ≡ slice_index (x ++ y) (2 * j + 1) }
{
    (
        x.shuffle::<16>(
            y,
            [0, 2, 4, 6, 8, 10, 12, 14, 16, 18, 20, 22, 24, 26, 28, 30],
        ),
        x.shuffle::<16>(
            y,
            [1, 3, 5, 7, 9, 11, 13, 15, 17, 19, 21, 23, 25, 27, 29, 31],
        ),
    )
}

// The bytes of two vectors in turn.
fn join_vectors(x: u8x16, y: u8x16) -> (u8x16, u8x16)
    requires sizes { (length x ≡ 16) × (length y ≡ 16) }
    ensures sizes { (length result.0 ≡ 16) × (length result.1 ≡ 16) }
    ensures even { (j : ℕ) → j < 16 → slice_index (result.0 ++ result.1) (2 * j) ≡ slice_index x j }
    ensures odd { (j : ℕ) → j < 16
        → slice_index (result.0 ++ result.1) (2 * j + 1) ≡ slice_index y j }
{
    (
        x.shuffle::<16>(y, [0, 16, 1, 17, 2, 18, 3, 19, 4, 20, 5, 21, 6, 22, 7, 23]),
        x.shuffle::<16>(
            y,
            [8, 24, 9, 25, 10, 26, 11, 27, 12, 28, 13, 29, 14, 30, 15, 31],
        ),
    )
}

// The bytes at even places of the 32 from `at` on, and those at odd ones.
fn pairs_at(from: &[u8], at: usize) -> (u8x16, u8x16)
    requires { at + 32 ≤ length from.now }
    ensures sizes { (length result.0 ≡ 16) × (length result.1 ≡ 16) }
    ensures even { (j : ℕ) → j < 16
        → slice_index result.0 j ≡ slice_index from.now (at + (2 * j + 0)) }
    ensures odd { (j : ℕ) → j < 16
        → slice_index result.1 j ≡ slice_index from.now (at + (2 * j + 1)) }
{
    split_vectors(
        u8x16::from_slice(&from[at..]),
        u8x16::from_slice(&from[at + 16..]),
    )
}

// Splits the two values of sixteen pixels, which begin at `at`, and puts each where it is in a
// block from pixel `first` on.
pub fn split_pairs(from: &[u8], at: usize, first: usize, to: &mut [u8])
    requires from { at + 32 ≤ length from.now }
    requires first { first + 16 ≤ 64 }
    requires block { length to.old ≡ 128 }
    ensures set { (v j : ℕ) → v < 2 → j < 16
        → slice_index to.new (64 * v + (first + j)) ≡ slice_index from.now (at + (2 * j + v)) }
    ensures before { (v i : ℕ) → v < 2 → i < first
        → slice_index to.new (64 * v + i) ≡ slice_index to.old (64 * v + i) }
{
    let (even, odd) = pairs_at(from, at);
    store_sixteen(even, first, to);
    store_sixteen(odd, 64 + first, to);
}

// The four values of sixteen pixels, which begin at `at`.
fn fours_at(from: &[u8], at: usize) -> (u8x16, u8x16, u8x16, u8x16)
    requires { at + 64 ≤ length from.now }
    ensures sizes { (length result.0 ≡ 16) × (length result.1 ≡ 16) × (length result.2 ≡ 16)
        × (length result.3 ≡ 16) }
    ensures first { (j : ℕ) → j < 16
        → slice_index result.0 j ≡ slice_index from.now (at + (4 * j + 0)) }
    ensures second { (j : ℕ) → j < 16
        → slice_index result.1 j ≡ slice_index from.now (at + (4 * j + 1)) }
    ensures third { (j : ℕ) → j < 16
        → slice_index result.2 j ≡ slice_index from.now (at + (4 * j + 2)) }
    ensures fourth { (j : ℕ) → j < 16
        → slice_index result.3 j ≡ slice_index from.now (at + (4 * j + 3)) }
{
    let (even, odd) = pairs_at(from, at);
    let (later_even, later_odd) = pairs_at(from, at + 32);
    let (first, third) = split_vectors(even, later_even);
    let (second, fourth) = split_vectors(odd, later_odd);
    (first, second, third, fourth)
}

// Splits the four values of sixteen pixels, as `split_pairs` does two.
pub fn split_fours(from: &[u8], at: usize, first: usize, to: &mut [u8])
    requires from { at + 64 ≤ length from.now }
    requires first { first + 16 ≤ 64 }
    requires block { length to.old ≡ 256 }
    ensures set { (v j : ℕ) → v < 4 → j < 16
        → slice_index to.new (64 * v + (first + j)) ≡ slice_index from.now (at + (4 * j + v)) }
    ensures before { (v i : ℕ) → v < 4 → i < first
        → slice_index to.new (64 * v + i) ≡ slice_index to.old (64 * v + i) }
{
    let (a, b, c, d) = fours_at(from, at);
    store_sixteen(a, first, to);
    store_sixteen(b, 64 + first, to);
    store_sixteen(c, 128 + first, to);
    store_sixteen(d, 192 + first, to);
}

// Puts the two values of sixteen pixels of a block, from pixel `first` on, one pixel after the
// other.
pub fn join_pairs(values: &[u8], first: usize, start: usize, to: &mut [u8])
    requires first { first + 16 ≤ 64 }
    requires block { length values.now ≡ 128 }
    requires to { start + 32 ≤ length to.old }
    ensures set { (v j : ℕ) → v < 2 → j < 16
        → slice_index to.new (start + (2 * j + v)) ≡ slice_index values.now (64 * v + (first + j)) }
    ensures kept { (i : ℕ) → (i < start) ⊎ (start + 32 ≤ i)
        → slice_index to.new i ≡ slice_index to.old i }
{
    let x = u8x16::from_slice(&values[first..]);
    let y = u8x16::from_slice(&values[64 + first..]);
    let (low, high) = join_vectors(x, y);
    store_two(low, high, start, to);
}

// The four values of sixteen pixels of a block, from pixel `first` on, one pixel after the other:
// first those of eight pixels, then those of the others.
fn fours_of(values: &[u8], first: usize) -> (u8x16, u8x16, u8x16, u8x16)
    requires first { first + 16 ≤ 64 }
    requires block { length values.now ≡ 256 }
    ensures sizes { (length result.0 ≡ 16) × (length result.1 ≡ 16) × (length result.2 ≡ 16)
        × (length result.3 ≡ 16) }
    ensures low { (v j : ℕ) → v < 4 → j < 8 → slice_index (result.0 ++ result.1) (4 * j + v)
        ≡ slice_index values.now (64 * v + (first + j)) }
    ensures high { (v j : ℕ) → v < 4 → j < 8 → slice_index (result.2 ++ result.3) (4 * j + v)
        ≡ slice_index values.now (64 * v + (first + (8 + j))) }
{
    let a = u8x16::from_slice(&values[first..]);
    let b = u8x16::from_slice(&values[64 + first..]);
    let c = u8x16::from_slice(&values[128 + first..]);
    let d = u8x16::from_slice(&values[192 + first..]);
    let (low_even, high_even) = join_vectors(a, c);
    let (low_odd, high_odd) = join_vectors(b, d);
    let (x, y) = join_vectors(low_even, low_odd);
    let (z, w) = join_vectors(high_even, high_odd);
    (x, y, z, w)
}

// Puts the four values of sixteen pixels, as `join_pairs` does two.
pub fn join_fours(values: &[u8], first: usize, start: usize, to: &mut [u8])
    requires first { first + 16 ≤ 64 }
    requires block { length values.now ≡ 256 }
    requires to { start + 64 ≤ length to.old }
    ensures set { (v j : ℕ) → v < 4 → j < 16
        → slice_index to.new (start + (4 * j + v)) ≡ slice_index values.now (64 * v + (first + j)) }
    ensures kept { (i : ℕ) → (i < start) ⊎ (start + 64 ≤ i)
        → slice_index to.new i ≡ slice_index to.old i }
{
    let (x, y, z, w) = fours_of(values, first);
    store_two(x, y, start, to);
    store_two(z, w, start + 32, to);
}
