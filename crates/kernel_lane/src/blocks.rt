// The bytes of the 64 pixels of a block: one pixel after the other, or one value after the other.
ghost use Rattle.std.specs.Prelude.{◌≡◌, ℕ, ◌+◌, ◌*◌, ◌<◌, ◌≤◌, length, slice_index};

use crate::pairs::{join_fours, join_pairs, split_fours, split_pairs};
use crate::triples::{join_triples, split_triples};

// Splits the C values of sixteen pixels from pixel `first` on.
fn split_sixteen<const C: usize>(from: &[u8], first: usize, to: &mut [u8])
    requires count { (2 ≤ C) × (C ≤ 4) }
    requires first { first + 16 ≤ 64 }
    requires sizes { (length from.now ≡ 64 * C) × (length to.old ≡ 64 * C) }
    ensures set { (v j : ℕ) → v < C → j < 16 → slice_index to.new (64 * v + (first + j))
        ≡ slice_index from.now (C * (first + j) + v) }
    ensures before { (v i : ℕ) → v < C → i < first
        → slice_index to.new (64 * v + i) ≡ slice_index to.old (64 * v + i) }
{
    match C {
        2 => split_pairs(from, 2 * first, first, to),
        3 => split_triples(from, 3 * first, first, to),
        _ => split_fours(from, 4 * first, first, to),
    }
}

/// Splits the C values of 64 pixels, which are bytes and stand one pixel after the other: value v
/// of pixel i is then at `64 * v + i`.
#[inline(never)]
pub fn split_pixels<const C: usize>(from: &[u8], to: &mut [u8])
    requires count { (2 ≤ C) × (C ≤ 4) }
    requires sizes { (length from.now ≡ 64 * C) × (length to.old ≡ 64 * C) }
    ensures { (v i : ℕ) → v < C → i < 64
        → slice_index to.new (64 * v + i) ≡ slice_index from.now (C * i + v) }
{
    for k in 0..4 {
        split_sixteen::<C>(from, 16 * k, to);
    }
}

// Puts the C values of sixteen pixels from pixel `first` on.
fn join_sixteen<const C: usize>(from: &[u8], first: usize, to: &mut [u8])
    requires count { (2 ≤ C) × (C ≤ 4) }
    requires first { first + 16 ≤ 64 }
    requires sizes { (length from.now ≡ 64 * C) × (length to.old ≡ 64 * C) }
    ensures set { (v j : ℕ) → v < C → j < 16 → slice_index to.new (C * (first + j) + v)
        ≡ slice_index from.now (64 * v + (first + j)) }
    ensures before { (v i : ℕ) → v < C → i < first
        → slice_index to.new (C * i + v) ≡ slice_index to.old (C * i + v) }
{
    match C {
        2 => join_pairs(from, first, 2 * first, to),
        3 => join_triples(from, first, 3 * first, to),
        _ => join_fours(from, first, 4 * first, to),
    }
}

/// The way back: joins the C values of 64 pixels, of which value v of pixel i is at `64 * v + i`,
/// one pixel after the other.
#[inline(never)]
pub fn join_pixels<const C: usize>(from: &[u8], to: &mut [u8])
    requires count { (2 ≤ C) × (C ≤ 4) }
    requires sizes { (length from.now ≡ 64 * C) × (length to.old ≡ 64 * C) }
    ensures { (v i : ℕ) → v < C → i < 64
        → slice_index to.new (C * i + v) ≡ slice_index from.now (64 * v + i) }
{
    for k in 0..4 {
        join_sixteen::<C>(from, 16 * k, to);
    }
}
