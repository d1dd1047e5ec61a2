// A loop over three places of a row.
ghost use Rattle.std.specs.Prelude.{◌≡◌, ℕ, ◌+◌, ◌<◌, ◌≤◌, ◌⊎◌, length, slice_index_or};

use crate::rule::Combine;

/// Makes the N elements from `at` on of those of another row from `first`, `second` and `third` on.
pub fn combine_part<A: Copy, B: Copy, R: Combine<A, B>, const N: usize>(
    rule: R,
    to: &mut [B],
    at: usize,
    from: &[A],
    first: usize,
    second: usize,
    third: usize,
)
    requires room { at + N ≤ length to.old }
    requires from { (first + N ≤ length from.now) × (second + N ≤ length from.now)
        × (third + N ≤ length from.now) }
    requires takes { (k : ℕ) (x y z : A) → k < N
        → R.takes rule (slice_index_or from.now (first + k) x)
        (slice_index_or from.now (second + k) y) (slice_index_or from.now (third + k) z) }
    ensures set { (k : ℕ) (x y z : A) (d : B) → k < N
        → R.makes rule (slice_index_or from.now (first + k) x)
        (slice_index_or from.now (second + k) y) (slice_index_or from.now (third + k) z)
        (slice_index_or to.new (at + k) d) }
    ensures kept { (i : ℕ) (d : B)
        → (i < at) ⊎ (at + N ≤ i) → slice_index_or to.new i d ≡ slice_index_or to.old i d }
{
    for k in 0..N {
        to[at + k] = rule.combined(from[first + k], from[second + k], from[third + k]);
    }
}
