// Every so many-th number of a row.
ghost use Rattle.std.specs.Prelude.{◌≡◌, ℕ, ◌+◌, ◌*◌, ◌<◌, ◌≤◌, ◌⊎◌, length, slice_index_or};
ghost use Rattle.kernel_lane.specs.Rules.{IsLaneCount};

use crate::px::Px;

// Picks the N numbers from the first one on.
fn pick_lanes<T: Px, const N: usize>(from: &[T], step: usize, at: usize, to: &mut [T], first: usize)
    requires at { at < step }
    requires room { (first + N ≤ length to.old) × (step * length to.old ≤ length from.now) }
    ensures set { (i : ℕ) (x : T) → first ≤ i → i < first + N
        → slice_index_or to.new i x ≡ slice_index_or from.now (i * step + at) x }
    ensures kept { (i : ℕ) (x : T)
        → (i < first) ⊎ (first + N ≤ i) → slice_index_or to.new i x ≡ slice_index_or to.old i x }
{
    for i in first..first + N {
        to[i] = from[i * step + at];
    }
}

/// Fills `to` with every `step`-th number of `from`, beginning at `at`, which is below `step`.
/// There are `step` numbers in `from` for each of `to`.
pub fn pick<T: Px, const N: usize>(from: &[T], step: usize, at: usize, to: &mut [T])
    requires lanes { IsLaneCount N }
    requires at { at < step }
    requires room { step * length to.old ≤ length from.now }
    ensures { (i : ℕ) (x : T) → i < length to.old
        → slice_index_or to.new i x ≡ slice_index_or from.now (i * step + at) x }
{
    let whole = to.len() / N;
    for block in 0..whole {
        pick_lanes::<T, N>(from, step, at, to, block * N);
    }
    for i in whole * N..to.len() {
        to[i] = from[i * step + at];
    }
}
