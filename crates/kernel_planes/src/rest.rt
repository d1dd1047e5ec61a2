// The pixels of a block behind those of a row.
ghost use Rattle.std.specs.Prelude.{◌≡◌, ℕ, ◌+◌, ◌*◌, ◌<◌, ◌≤◌, ◌⊎◌, length, slice_index_or};

use crate::whole_number::WholeNumber;
use kernel_lane::fill_between;

// Value v of each pixel from pixel n on becomes 0.
fn clear_value<W: WholeNumber>(v: usize, n: usize, values: &mut [W])
    requires block { (v < 4) × (n ≤ 64) × (length values.old ≡ 256) }
    ensures zero { (i : ℕ) (d : W) → n ≤ i → i < 64
        → W.number (slice_index_or values.new (64 * v + i) d) ≡ 0 }
    ensures kept { (j : ℕ) (d : W) → (j < 64 * v + n) ⊎ (64 * v + 64 ≤ j)
        → slice_index_or values.new j d ≡ slice_index_or values.old j d }
{
    fill_between(values, 64 * v + n, 64 * v + 64, W::narrow(0));
}

/// The four values of each pixel from pixel n on become 0.
pub fn clear_rest<W: WholeNumber>(n: usize, values: &mut [W])
    requires block { (n ≤ 64) × (length values.old ≡ 256) }
    ensures zero { (v i : ℕ) (d : W) → v < 4 → n ≤ i → i < 64
        → W.number (slice_index_or values.new (64 * v + i) d) ≡ 0 }
    ensures kept { (v i : ℕ) (d : W) → v < 4 → i < n
        → slice_index_or values.new (64 * v + i) d
        ≡ slice_index_or values.old (64 * v + i) d }
{
    for v in 0..4 {
        clear_value(v, n, values);
    }
}
