// One value of the pixels of a block, taken from a frame.
ghost use Rattle.std.specs.Prelude.{◌≡◌, ℕ, ◌+◌, ◌*◌, ◌<◌, ◌≤◌, ◌⊎◌, length, slice_index_or};

use crate::whole_number::WholeNumber;
use kernel_lane::{Element, take_elements};

// Fills value v of the first n pixels from every C-th element, beginning at `start`.
pub fn gather<W: WholeNumber, R: Element<W>, const C: usize>(
    rule: R,
    from: &[u8],
    start: usize,
    n: usize,
    v: usize,
    values: &mut [W],
)
    requires bits { R.holds }
    requires block { (v < 4) × (n ≤ 64) × (length values.old ≡ 256) }
    requires room { (i : ℕ) → i < n → (start + i * C + 1) * R.size ≤ length from.now }
    ensures set { (i : ℕ) (d : W) → i < n
        → R.number (slice_index_or values.new (64 * v + i) d) ≡ R.element from.now (start + i * C) }
    ensures kept { (j : ℕ) (d : W) → (j < 64 * v) ⊎ (64 * v + n ≤ j)
        → slice_index_or values.new j d ≡ slice_index_or values.old j d }
{
    take_elements::<W, R, C>(rule, from, start, n, values, 64 * v);
}
