// Loops over a part of a row: its lanes all the same, or its first elements by a rule.
ghost use Rattle.std.specs.Prelude.{◌≡◌, ℕ, ◌+◌, ◌<◌, ◌≤◌, ◌⊎◌, length, slice_index_or};

use crate::rule::{Change, Merge};

/// The N elements from `at` on become x.
pub fn fill_part<T: Copy, const N: usize>(v: &mut [T], at: usize, x: T)
    requires room { at + N ≤ length v.old }
    ensures set { (k : ℕ) (d : T) → k < N → slice_index_or v.new (at + k) d ≡ x }
    ensures kept { (i : ℕ) (d : T)
        → (i < at) ⊎ (at + N ≤ i) → slice_index_or v.new i d ≡ slice_index_or v.old i d }
{
    for k in 0..N {
        v[at + k] = x;
    }
}

/// The elements from `first` up to `end` become x.
pub fn fill_between<T: Copy>(v: &mut [T], first: usize, end: usize, x: T)
    requires room { end ≤ length v.old }
    ensures set { (i : ℕ) (d : T) → first ≤ i → i < end → slice_index_or v.new i d ≡ x }
    ensures kept { (i : ℕ) (d : T)
        → (i < first) ⊎ (end ≤ i) → slice_index_or v.new i d ≡ slice_index_or v.old i d }
{
    for i in first..end {
        v[i] = x;
    }
}

/// Changes the first n elements by a rule.
pub fn change_front<T: Copy, R: Change<T>>(rule: R, v: &mut [T], n: usize)
    requires room { n ≤ length v.old }
    requires takes { (j : ℕ) (x : T) → j < n → R.takes rule (slice_index_or v.old j x) }
    ensures set { (j : ℕ) (x : T) → j < n
        → R.makes rule (slice_index_or v.old j x) (slice_index_or v.new j x) }
    ensures kept { (j : ℕ) (x : T)
        → n ≤ j → slice_index_or v.new j x ≡ slice_index_or v.old j x }
{
    for j in 0..n {
        v[j] = rule.changed(v[j]);
    }
}

/// Changes the first n elements by those of the other row.
pub fn merge_front<A: Copy, B: Copy, R: Merge<A, B>>(rule: R, to: &mut [B], from: &[A], n: usize)
    requires room { (n ≤ length to.old) × (n ≤ length from.now) }
    requires takes { (j : ℕ) (x : B) (y : A) → j < n
        → R.takes rule (slice_index_or to.old j x) (slice_index_or from.now j y) }
    ensures set { (j : ℕ) (x : B) (y : A) (z : B) → j < n
        → R.makes rule (slice_index_or to.old j x) (slice_index_or from.now j y)
        (slice_index_or to.new j z) }
    ensures kept { (j : ℕ) (x : B)
        → n ≤ j → slice_index_or to.new j x ≡ slice_index_or to.old j x }
{
    for j in 0..n {
        to[j] = rule.merged(to[j], from[j]);
    }
}

/// Changes the N elements from `at` on by those of the same row from `start` on, which stand behind
/// them.
pub fn merge_within<T: Copy, R: Merge<T, T>, const N: usize>(
    rule: R,
    v: &mut [T],
    at: usize,
    start: usize,
)
    requires apart { at + N ≤ start }
    requires room { start + N ≤ length v.old }
    requires takes { (k : ℕ) (x y : T) → k < N
        → R.takes rule (slice_index_or v.old (at + k) x) (slice_index_or v.old (start + k) y) }
    ensures set { (k : ℕ) (x y z : T) → k < N
        → R.makes rule (slice_index_or v.old (at + k) x) (slice_index_or v.old (start + k) y)
        (slice_index_or v.new (at + k) z) }
    ensures kept { (i : ℕ) (x : T)
        → (i < at) ⊎ (at + N ≤ i) → slice_index_or v.new i x ≡ slice_index_or v.old i x }
{
    for k in 0..N {
        v[at + k] = rule.merged(v[at + k], v[start + k]);
    }
}
