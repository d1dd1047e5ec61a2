// The loops: N elements at a time, and then the rest, one by one.
ghost use Rattle.std.specs.Prelude.{◌≡◌, ℕ, ◌+◌, ◌<◌, ◌≤◌, ◌⊎◌, length, slice_index_or};
ghost use Rattle.kernel_lane.specs.Rows.{ForEach, ForPairs, ForTriples};
ghost use Rattle.kernel_lane.specs.Rules.{IsLaneCount};

use crate::rule::{Change, Merge};

/// Changes the N elements from `at` on by a rule.
pub fn change_part<T: Copy, R: Change<T>, const N: usize>(rule: R, v: &mut [T], at: usize)
    requires room { at + N ≤ length v.old }
    requires takes { (k : ℕ) (x : T) → k < N → R.takes rule (slice_index_or v.old (at + k) x) }
    ensures set { (k : ℕ) (x : T) → k < N
        → R.makes rule (slice_index_or v.old (at + k) x) (slice_index_or v.new (at + k) x) }
    ensures kept { (i : ℕ) (x : T)
        → (i < at) ⊎ (at + N ≤ i) → slice_index_or v.new i x ≡ slice_index_or v.old i x }
{
    for k in 0..N {
        v[at + k] = rule.changed(v[at + k]);
    }
}

// The same, told by the places in the row.
fn change_lanes<T: Copy, R: Change<T>, const N: usize>(rule: R, v: &mut [T], at: usize)
    requires room { at + N ≤ length v.old }
    requires takes { (i : ℕ) (x : T)
        → at ≤ i → i < at + N → R.takes rule (slice_index_or v.old i x) }
    ensures set { (i : ℕ) (x : T)
        → at ≤ i → i < at + N → R.makes rule (slice_index_or v.old i x) (slice_index_or v.new i x) }
    ensures kept { (i : ℕ) (x : T)
        → (i < at) ⊎ (at + N ≤ i) → slice_index_or v.new i x ≡ slice_index_or v.old i x }
{
    change_part::<T, R, N>(rule, v, at);
}

// Changes each element.
pub fn change<T: Copy, R: Change<T>, const N: usize>(rule: R, v: &mut [T])
    requires lanes { IsLaneCount N }
    requires takes { ForEach (R.takes rule) v.old }
    ensures { ForPairs (R.makes rule) v.old v.new }
{
    let whole = v.len() / N;
    for block in 0..whole {
        change_lanes::<T, R, N>(rule, v, block * N);
    }
    for i in whole * N..v.len() {
        v[i] = rule.changed(v[i]);
    }
}

// The N elements from `at` on.
fn lanes_at<T: Copy, const N: usize>(from: &[T], at: usize) -> [T; N]
    requires { at + N ≤ length from.now }
    ensures count { length result ≡ N }
    ensures same { (k : ℕ) (x : T)
        → k < N → slice_index_or result k x ≡ slice_index_or from.now (at + k) x }
{
    <[T; N]>::try_from(&from[at..at + N]).unwrap()
}

/// Changes the N elements from `at` on by those of the other row from `start` on.
pub fn merge_part<A: Copy, B: Copy, R: Merge<A, B>, const N: usize>(
    rule: R,
    to: &mut [B],
    at: usize,
    from: &[A],
    start: usize,
)
    requires room { (at + N ≤ length to.old) × (start + N ≤ length from.now) }
    requires takes { (k : ℕ) (x : B) (y : A) → k < N
        → R.takes rule (slice_index_or to.old (at + k) x) (slice_index_or from.now (start + k) y) }
    ensures set { (k : ℕ) (x : B) (y : A) (z : B) → k < N
        → R.makes rule (slice_index_or to.old (at + k) x)
        (slice_index_or from.now (start + k) y) (slice_index_or to.new (at + k) z) }
    ensures kept { (i : ℕ) (x : B)
        → (i < at) ⊎ (at + N ≤ i) → slice_index_or to.new i x ≡ slice_index_or to.old i x }
{
    for k in 0..N {
        to[at + k] = rule.merged(to[at + k], from[start + k]);
    }
}

/// The same, where N is small, as 16: the lanes are copied out first, since so few of them make
/// vectors only where none can be written to before it is read.
pub fn merge_few<A: Copy, B: Copy, R: Merge<A, B>, const N: usize>(
    rule: R,
    to: &mut [B],
    at: usize,
    from: &[A],
    start: usize,
)
    requires room { (at + N ≤ length to.old) × (start + N ≤ length from.now) }
    requires takes { (k : ℕ) (x : B) (y : A) → k < N
        → R.takes rule (slice_index_or to.old (at + k) x) (slice_index_or from.now (start + k) y) }
    ensures set { (k : ℕ) (x : B) (y : A) (z : B) → k < N
        → R.makes rule (slice_index_or to.old (at + k) x)
        (slice_index_or from.now (start + k) y) (slice_index_or to.new (at + k) z) }
    ensures kept { (i : ℕ) (x : B)
        → (i < at) ⊎ (at + N ≤ i) → slice_index_or to.new i x ≡ slice_index_or to.old i x }
{
    let lanes: [A; N] = lanes_at::<A, N>(from, start);
    merge_part::<A, B, R, N>(rule, to, at, &lanes, 0);
}

// The same from `at` on in both rows, told by the places in them.
fn merge_lanes<A: Copy, B: Copy, R: Merge<A, B>, const N: usize>(
    rule: R,
    to: &mut [B],
    from: &[A],
    at: usize,
)
    requires room { (at + N ≤ length to.old) × (at + N ≤ length from.now) }
    requires takes { (i : ℕ) (x : B) (y : A) → at ≤ i → i < at + N
        → R.takes rule (slice_index_or to.old i x) (slice_index_or from.now i y) }
    ensures set { (i : ℕ) (x : B) (y : A) (z : B) → at ≤ i → i < at + N
        → R.makes rule (slice_index_or to.old i x)
        (slice_index_or from.now i y) (slice_index_or to.new i z) }
    ensures kept { (i : ℕ) (x : B)
        → (i < at) ⊎ (at + N ≤ i) → slice_index_or to.new i x ≡ slice_index_or to.old i x }
{
    merge_few::<A, B, R, N>(rule, to, at, from, at);
}

// Changes each element by that of the other row.
pub fn merge<A: Copy, B: Copy, R: Merge<A, B>, const N: usize>(rule: R, to: &mut [B], from: &[A])
    requires lanes { IsLaneCount N }
    requires same { length from.now ≡ length to.old }
    requires takes { ForPairs (R.takes rule) to.old from.now }
    ensures { ForTriples (R.makes rule) to.old from.now to.new }
{
    let whole = to.len() / N;
    for block in 0..whole {
        merge_lanes::<A, B, R, N>(rule, to, from, block * N);
    }
    for i in whole * N..to.len() {
        to[i] = rule.merged(to[i], from[i]);
    }
}
