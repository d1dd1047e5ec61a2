// The colours of the pixels of a block, looked up in a palette.
ghost use Rattle.std.specs.Prelude.{◌≡◌, ℕ, ◌+◌, ◌*◌, ◌^◌, ◌<◌, ◌≤◌, ◌⊎◌, length};
ghost use Rattle.std.specs.Prelude.{slice_index, slice_index_or};
ghost use Rattle.kernel_planes.specs.Block.{Holds, AreBelow, colour_byte, colour_in};

use crate::value::fill;
use crate::whole_number::WholeNumber;
use kernel_lane::{Merge, merge_front};

// A byte of the entry of an index.
#[derive(Clone, Copy)]
struct Lookup<'a> {
    palette: &'a [u8],
    byte: usize,
}

impl<'a, W: WholeNumber> Merge<u8, W> for Lookup<'a> {
    ghost takes = { λ r _ index. (1024 ≤ length r.palette.now) × (r.byte < 4) × (2 ^ 8 ≤ 2 ^ W.bits) };

    ghost makes = { λ r _ index y. W.number y ≡ slice_index r.palette.now (4 * index + r.byte) };

    fn merged(self, _old: W, from: u8) -> W {
        W::narrow(u32::from(self.palette[4 * usize::from(from) + self.byte]))
    }
}

// Value v of the first n pixels becomes a byte of their entries.
fn look_up<W: WholeNumber>(
    indices: &[u8],
    palette: &[u8],
    x: usize,
    byte: usize,
    n: usize,
    v: usize,
    values: &mut [W],
)
    requires bits { 2 ^ 8 ≤ 2 ^ W.bits }
    requires block { (v < 4) × (n ≤ 64) × (length values.old ≡ 256) }
    requires byte { byte < 4 }
    requires indices { x + n ≤ length indices.now }
    requires palette { 1024 ≤ length palette.now }
    ensures set { (i : ℕ) (d : W) → i < n
        → W.number (slice_index_or values.new (64 * v + i) d)
        ≡ colour_in indices.now palette.now (x + i) byte }
    ensures kept { (j : ℕ) (d : W) → (j < 64 * v) ⊎ (64 * v + n ≤ j)
        → slice_index_or values.new j d ≡ slice_index_or values.old j d }
{
    let lookup = Lookup { palette, byte };
    let value = &mut values[64 * v..64 * v + n];
    merge_front(lookup, value, &indices[x..x + n], n);
}

// Fills value v of the first n pixels with a byte of their entries, and that of the others with 0.
fn read_colour<W: WholeNumber>(
    indices: &[u8],
    palette: &[u8],
    x: usize,
    byte: usize,
    n: usize,
    v: usize,
    values: &mut [W],
)
    requires bits { 2 ^ 8 ≤ 2 ^ W.bits }
    requires block { (v < 4) × (n ≤ 64) × (length values.old ≡ 256) }
    requires byte { byte < 4 }
    requires indices { x + n ≤ length indices.now }
    requires palette { 1024 ≤ length palette.now }
    ensures set { (i : ℕ) (d : W) → i < n
        → W.number (slice_index_or values.new (64 * v + i) d)
        ≡ colour_in indices.now palette.now (x + i) byte }
    ensures small { (i : ℕ) (d : W) → i < 64
        → W.number (slice_index_or values.new (64 * v + i) d) < 2 ^ 8 }
    ensures kept { (j : ℕ) (d : W) → (j < 64 * v) ⊎ (64 * v + 64 ≤ j)
        → slice_index_or values.new j d ≡ slice_index_or values.old j d }
{
    fill(values, v, W::narrow(0));
    look_up(indices, palette, x, byte, n, v, values);
}

// The byte of value v in an entry: blue, green, red and alpha stand in this order.
fn colour_byte(v: usize) -> usize
    requires { v < 4 }
    ensures value { result ≡ colour_byte v }
    ensures below { result < 4 }
{
    match v {
        0 => 2,
        1 => 1,
        2 => 0,
        _ => 3,
    }
}

/// Fills the four values of n pixels from x on with red, green, blue and alpha of their entries,
/// and those of the others with 0.
pub fn read_palette<W: WholeNumber>(
    indices: &[u8],
    palette: &[u8],
    x: usize,
    n: usize,
    values: &mut [W],
)
    requires bits { 2 ^ 8 ≤ 2 ^ W.bits }
    requires indices { x + n ≤ length indices.now }
    requires palette { 1024 ≤ length palette.now }
    requires block { (n ≤ 64) × (length values.old ≡ 256) }
    ensures set { Holds W.number values.new 4 n
        (λ v i. colour_in indices.now palette.now (x + i) (colour_byte v)) }
    ensures small { AreBelow W.number values.new 4 (2 ^ 8) }
{
    for v in 0..4 {
        read_colour(indices, palette, x, colour_byte(v), n, v, values);
    }
}
