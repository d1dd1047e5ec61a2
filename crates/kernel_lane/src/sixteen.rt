// Sixteen bytes at once.
ghost use Rattle.std.specs.Prelude.{◌≡◌, ℕ, ◌+◌, ◌<◌, ◌≤◌, ◌⊎◌, ◌++◌, length, slice_index};

use std::simd::prelude::*;

// Puts a vector where the bytes from `at` on stand.
pub fn store_sixteen(from: u8x16, at: usize, to: &mut [u8])
    requires from { length from ≡ 16 }
    requires to { at + 16 ≤ length to.old }
    ensures set { (j : ℕ) → j < 16 → slice_index to.new (at + j) ≡ slice_index from j }
    ensures kept { (i : ℕ) → (i < at) ⊎ (at + 16 ≤ i)
        → slice_index to.new i ≡ slice_index to.old i }
{
    from.copy_to_slice(&mut to[at..]);
}

// Puts two vectors there, one after the other.
pub fn store_two(x: u8x16, y: u8x16, at: usize, to: &mut [u8])
    requires sizes { (length x ≡ 16) × (length y ≡ 16) }
    requires to { at + 32 ≤ length to.old }
    ensures set { (m : ℕ) → m < 32 → slice_index to.new (at + m) ≡ slice_index (x ++ y) m }
    ensures kept { (i : ℕ) → (i < at) ⊎ (at + 32 ≤ i)
        → slice_index to.new i ≡ slice_index to.old i }
{
    store_sixteen(x, at, to);
    store_sixteen(y, at + 16, to);
}
