// One value of the pixels of a block, put into a frame.
ghost use Rattle.std.specs.Prelude.{◌≡◌, ◌≢◌, ℕ, ◌+◌, ◌*◌, ◌<◌, ◌≤◌, length, slice_index_or};

use crate::whole_number::WholeNumber;
use kernel_lane::{Element, put_elements};

// Sets every C-th element, beginning at `start`, to value v of the first n pixels.
pub fn scatter<W: WholeNumber, R: Element<W>, const C: usize>(
    rule: R,
    values: &[W],
    v: usize,
    n: usize,
    start: usize,
    to: &mut [u8],
)
    requires small { (i : ℕ) (d : W) → i < n → R.fits (slice_index_or values.now (64 * v + i) d) }
    requires block { (v < 4) × (n ≤ 64) × (length values.now ≡ 256) }
    requires step { 0 < C }
    requires room { (i : ℕ) → i < n → (start + i * C + 1) * R.size ≤ length to.old }
    ensures set { (i : ℕ) (d : W) → i < n
        → R.element to.new (start + i * C) ≡ R.number (slice_index_or values.now (64 * v + i) d) }
    ensures kept { (k : ℕ) → ((i : ℕ) → i < n → k ≢ start + i * C)
        → R.element to.new k ≡ R.element to.old k }
{
    put_elements::<W, R, C>(rule, values, 64 * v, n, to, start);
}
