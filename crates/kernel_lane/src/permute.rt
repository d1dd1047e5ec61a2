// The bytes of a pixel in another order, sixteen bytes at a time.
ghost use Rattle.std.specs.Prelude.{◌≡◌, ℕ, ◌+◌, ◌*◌, ◌<◌, ◌≤◌, ◌⊎◌, length, slice_index};

use crate::sixteen::store_sixteen;
use std::simd::prelude::*;

// Says of pixel i of a sixteen where each of its bytes is read.
fn place_pixel<const C: usize>(order: &[u8; 4], i: usize, places: &mut [u8; 16])
    requires count { C ≤ 4 }
    requires order { (e : ℕ) → e < C → slice_index order.now e < C }
    requires room { i * C + C ≤ 16 }
    requires small { (j : ℕ) → j < 16 → slice_index places.old j < 16 }
    ensures set { (e : ℕ) → e < C
        → slice_index places.new (i * C + e) ≡ i * C + slice_index order.now e }
    ensures small { (j : ℕ) → j < 16 → slice_index places.new j < 16 }
    ensures before { (k : ℕ) → k < i * C → slice_index places.new k ≡ slice_index places.old k }
{
    for e in 0..C {
        places[i * C + e] = (i * C + usize::from(order[e])) as u8;
    }
}

// The same of the P whole pixels of a sixteen.
fn places_of<const C: usize, const P: usize>(order: &[u8; 4]) -> u8x16
    requires count { C ≤ 4 }
    requires order { (e : ℕ) → e < C → slice_index order.now e < C }
    requires room { P * C ≤ 16 }
    ensures size { length result ≡ 16 }
    ensures set { (i e : ℕ) → i < P → e < C
        → slice_index result (i * C + e) ≡ i * C + slice_index order.now e }
    ensures small { (j : ℕ) → j < 16 → slice_index result j < 16 }
{
    let mut places = [0; 16];
    for i in 0..P {
        place_pixel::<C>(order, i, &mut places);
    }
    u8x16::from_array(places)
}

// Sixteen bytes from `at` on, each from the place among them that is given for it.
fn permute_sixteen(places: u8x16, from: &[u8], at: usize, to: &mut [u8])
    requires size { length places ≡ 16 }
    requires small { (j : ℕ) → j < 16 → slice_index places j < 16 }
    requires room { (at + 16 ≤ length from.now) × (at + 16 ≤ length to.old) }
    ensures set { (j : ℕ) → j < 16
        → slice_index to.new (at + j) ≡ slice_index from.now (at + slice_index places j) }
    ensures kept { (k : ℕ) → (k < at) ⊎ (at + 16 ≤ k)
        → slice_index to.new k ≡ slice_index to.old k }
{
    let bytes = u8x16::from_slice(&from[at..]);
    store_sixteen(bytes.swizzle_dyn(places), at, to);
}

// One pixel.
fn permute_pixel<const C: usize>(order: &[u8; 4], from: &[u8], i: usize, to: &mut [u8])
    requires count { C ≤ 4 }
    requires order { (e : ℕ) → e < C → slice_index order.now e < C }
    requires room { (i * C + C ≤ length from.now) × (i * C + C ≤ length to.old) }
    ensures set { (e : ℕ) → e < C
        → slice_index to.new (i * C + e) ≡ slice_index from.now (i * C + slice_index order.now e) }
    ensures kept { (k : ℕ) → (k < i * C) ⊎ (i * C + C ≤ k)
        → slice_index to.new k ≡ slice_index to.old k }
{
    for e in 0..C {
        to[i * C + e] = from[i * C + usize::from(order[e])];
    }
}

// The pixels of whole sixteens, of P pixels each. A byte behind the last of them may change.
fn permute_sixteens<const C: usize, const P: usize>(
    order: &[u8; 4],
    from: &[u8],
    blocks: usize,
    n: usize,
    to: &mut [u8],
)
    requires count { C ≤ 4 }
    requires order { (e : ℕ) → e < C → slice_index order.now e < C }
    requires whole { P * C ≤ 16 }
    requires inside { (b : ℕ) → b < blocks → b * P * C + 16 ≤ n * C }
    requires room { (n * C ≤ length from.now) × (n * C ≤ length to.old) }
    ensures set { (i e : ℕ) → i < blocks * P → e < C
        → slice_index to.new (i * C + e) ≡ slice_index from.now (i * C + slice_index order.now e) }
    ensures kept { (k : ℕ) → n * C ≤ k → slice_index to.new k ≡ slice_index to.old k }
{
    let places = places_of::<C, P>(order);
    for block in 0..blocks {
        permute_sixteen(places, from, block * P * C, to);
    }
}

// Whole sixteens, and then the other pixels, one by one.
fn permute_blocks<const C: usize, const P: usize>(
    order: &[u8; 4],
    from: &[u8],
    blocks: usize,
    n: usize,
    to: &mut [u8],
)
    requires count { C ≤ 4 }
    requires order { (e : ℕ) → e < C → slice_index order.now e < C }
    requires whole { P * C ≤ 16 }
    requires blocks { blocks * P ≤ n }
    requires inside { (b : ℕ) → b < blocks → b * P * C + 16 ≤ n * C }
    requires room { (n * C ≤ length from.now) × (n * C ≤ length to.old) }
    ensures set { (i e : ℕ) → i < n → e < C
        → slice_index to.new (i * C + e) ≡ slice_index from.now (i * C + slice_index order.now e) }
    ensures kept { (k : ℕ) → n * C ≤ k → slice_index to.new k ≡ slice_index to.old k }
{
    permute_sixteens::<C, P>(order, from, blocks, n, to);
    for i in blocks * P..n {
        permute_pixel::<C>(order, from, i, to);
    }
}

/// The C bytes of each of n pixels in another order: byte e of a pixel in `to` becomes byte
/// `order[e]` of the same pixel in `from`.
#[inline(never)]
pub fn permute_pixels<const C: usize>(order: &[u8; 4], from: &[u8], n: usize, to: &mut [u8])
    requires count { (2 ≤ C) × (C ≤ 4) }
    requires order { (e : ℕ) → e < C → slice_index order.now e < C }
    requires room { (n * C ≤ length from.now) × (n * C ≤ length to.old) }
    ensures set { (i e : ℕ) → i < n → e < C
        → slice_index to.new (i * C + e) ≡ slice_index from.now (i * C + slice_index order.now e) }
    ensures kept { (k : ℕ) → n * C ≤ k → slice_index to.new k ≡ slice_index to.old k }
{
    match C {
        2 => permute_blocks::<C, 8>(order, from, n / 8, n, to),
        3 => permute_blocks::<C, 5>(order, from, n.saturating_sub(1) / 5, n, to),
        _ => permute_blocks::<C, 4>(order, from, n / 4, n, to),
    }
}
