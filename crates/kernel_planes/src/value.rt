// One value of the pixels of a block, whatever it is made of.
ghost use Rattle.std.specs.Prelude.{◌≡◌, ℕ, ◌+◌, ◌*◌, ◌<◌, ◌≤◌, ◌⊎◌, length, slice_index_or};

use kernel_lane::fill_part;

// Value v of a block is value u of another.
pub fn copy_value<T: Copy>(from: &[T], u: usize, to: &mut [T], v: usize)
    requires block { (u < 4) × (v < 4) × (length from.now ≡ 256) × (length to.old ≡ 256) }
    ensures set { (i : ℕ) (d : T) → i < 64
        → slice_index_or to.new (64 * v + i) d ≡ slice_index_or from.now (64 * u + i) d }
    ensures kept { (j : ℕ) (d : T) → (j < 64 * v) ⊎ (64 * v + 64 ≤ j)
        → slice_index_or to.new j d ≡ slice_index_or to.old j d }
{
    to[64 * v..64 * v + 64].copy_from_slice(&from[64 * u..64 * u + 64]);
}

// The same at value v of each pixel.
pub fn fill<T: Copy>(to: &mut [T], v: usize, x: T)
    requires block { (v < 4) × (length to.old ≡ 256) }
    ensures set { (i : ℕ) (d : T) → i < 64 → slice_index_or to.new (64 * v + i) d ≡ x }
    ensures kept { (j : ℕ) (d : T) → (j < 64 * v) ⊎ (64 * v + 64 ≤ j)
        → slice_index_or to.new j d ≡ slice_index_or to.old j d }
{
    fill_part::<T, 64>(to, 64 * v, x);
}
