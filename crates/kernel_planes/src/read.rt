// The elements of the pixels of a block, read from the rows of planes.
ghost use Rattle.std.specs.Prelude.{◌≡◌, ℕ, ◌+◌, ◌*◌, ◌^◌, ◌<◌, ◌≤◌, ◌⊎◌, true, false, length};
ghost use Rattle.std.specs.Prelude.{sum};
ghost use Rattle.std.specs.Prelude.{slice_index, slice_index_or};
ghost use Rattle.op_list.specs.Types.{bits, bytes, is_whole_type};
ghost use Rattle.op_list.specs.Pixel.{element};
ghost use Rattle.kernel_planes.specs.Block.{Holds, AreBelow};
ghost use Rattle.kernel_planes.specs.Planes.{row_at, row_element, rows_of};

use crate::gather::gather;
use crate::planes::Planes;
use crate::rules::{Bytes, DoubleWords, Words};
use crate::stride::Stride;
use crate::whole_number::WholeNumber;
use kernel_lane::{Element, fill_part};
use op_list::PixType;

// Fills value v of the first n pixels.
fn read_value<W: WholeNumber>(
    elem: PixType,
    from: &[u8],
    stride: Stride,
    n: usize,
    v: usize,
    values: &mut [W],
)
    requires bits { 2 ^ bits elem ≤ 2 ^ W.bits }
    requires whole { is_whole_type elem ≡ true }
    requires block { (v < 4) × (n ≤ 64) × (length values.old ≡ 256) }
    requires step { (0 < stride.step) × (stride.step ≤ 4) }
    requires room { (i : ℕ) → i < n → (stride.start + i * stride.step + 1) * bytes elem
        ≤ length from.now }
    ensures set { (i : ℕ) (d : W) → i < n
        → W.number (slice_index_or values.new (64 * v + i) d)
        ≡ element elem from.now (stride.start + i * stride.step) }
    ensures kept { (j : ℕ) (d : W) → (j < 64 * v) ⊎ (64 * v + n ≤ j)
        → slice_index_or values.new j d ≡ slice_index_or values.old j d }
{
    match elem {
        PixType::U8 => read_elements(Bytes, from, stride, n, v, values),
        PixType::U16 => read_elements(Words, from, stride, n, v, values),
        PixType::U32 => read_elements(DoubleWords, from, stride, n, v, values),
        PixType::Rat => {}
    }
}

// The same by a rule for the elements.
fn read_elements<W: WholeNumber, R: Element<W>>(
    rule: R,
    from: &[u8],
    stride: Stride,
    n: usize,
    v: usize,
    values: &mut [W],
)
    requires bits { R.holds }
    requires block { (v < 4) × (n ≤ 64) × (length values.old ≡ 256) }
    requires step { (0 < stride.step) × (stride.step ≤ 4) }
    requires room { (i : ℕ) → i < n → (stride.start + i * stride.step + 1) * R.size
        ≤ length from.now }
    ensures set { (i : ℕ) (d : W) → i < n
        → R.number (slice_index_or values.new (64 * v + i) d)
        ≡ R.element from.now (stride.start + i * stride.step) }
    ensures kept { (j : ℕ) (d : W) → (j < 64 * v) ⊎ (64 * v + n ≤ j)
        → slice_index_or values.new j d ≡ slice_index_or values.old j d }
{
    match stride.step {
        1 => gather::<W, R, 1>(rule, from, stride.start, n, v, values),
        2 => gather::<W, R, 2>(rule, from, stride.start, n, v, values),
        3 => gather::<W, R, 3>(rule, from, stride.start, n, v, values),
        _ => gather::<W, R, 4>(rule, from, stride.start, n, v, values),
    }
}

// Fills the values of a plane for a whole block of bytes, where there is a fast way. It answers how
// many it filled: all of them or none.
fn read_whole<W: WholeNumber>(
    elem: PixType,
    count: usize,
    before: usize,
    from: &[u8],
    x: usize,
    n: usize,
    values: &mut [W],
) -> usize
    requires few { before + count ≤ 4 }
    requires room { (x + n) * count * bytes elem ≤ length from.now }
    requires block { length values.old ≡ 256 }
    ensures few { result ≤ count }
    ensures set { (e i : ℕ) (d : W) → e < result → i < n
        → W.number (slice_index_or values.new (64 * (before + e) + i) d)
        ≡ element elem from.now ((x + i) * count + e) }
    ensures kept { (j : ℕ) (d : W) → (j < 64 * before) ⊎ (64 * (before + result) ≤ j)
        → slice_index_or values.new j d ≡ slice_index_or values.old j d }
    ensures small { AreBelow W.number values.old 4 (2 ^ bits elem)
        → AreBelow W.number values.new 4 (2 ^ bits elem) }
{
    let PixType::U8 = elem else {
        return 0;
    };
    if n != 64 {
        return 0;
    }
    if split_part(count, before, from, x * count, values) {
        count
    } else {
        0
    }
}

// Splits the bytes of 64 pixels, which begin at `start`, into the values from `before` on.
fn split_part<W: WholeNumber>(
    count: usize,
    before: usize,
    from: &[u8],
    start: usize,
    values: &mut [W],
) -> bool
    requires few { before + count ≤ 4 }
    requires room { start + 64 * count ≤ length from.now }
    requires block { length values.old ≡ 256 }
    ensures set { result ≡ true → (v i : ℕ) (d : W) → v < count → i < 64
        → W.number (slice_index_or values.new (64 * (before + v) + i) d)
        ≡ slice_index from.now (start + (count * i + v)) }
    ensures kept { result ≡ true → (j : ℕ) (d : W)
        → (j < 64 * before) ⊎ (64 * (before + count) ≤ j)
        → slice_index_or values.new j d ≡ slice_index_or values.old j d }
    ensures same { result ≡ false → values.new ≡ values.old }
{
    let pixels = &from[start..start + 64 * count];
    W::split(
        count,
        pixels,
        &mut values[64 * before..64 * before + 64 * count],
    )
}

// Fills the values of a plane for n pixels from x on: value `before` + e is element e of a pixel.
fn read_plane<W: WholeNumber>(
    elem: PixType,
    count: usize,
    before: usize,
    from: &[u8],
    x: usize,
    n: usize,
    values: &mut [W],
)
    requires bits { 2 ^ bits elem ≤ 2 ^ W.bits }
    requires whole { is_whole_type elem ≡ true }
    requires few { before + count ≤ 4 }
    requires room { (x + n) * count * bytes elem ≤ length from.now }
    requires block { (0 < n) × (n ≤ 64) × (length values.old ≡ 256) }
    ensures set { (e i : ℕ) (d : W) → e < count → i < n
        → W.number (slice_index_or values.new (64 * (before + e) + i) d)
        ≡ element elem from.now ((x + i) * count + e) }
    ensures kept { (j : ℕ) (d : W) → (j < 64 * before) ⊎ ((64 * (before + count) ≤ j) × (j < 256))
        → slice_index_or values.new j d ≡ slice_index_or values.old j d }
    ensures small { AreBelow W.number values.old 4 (2 ^ bits elem)
        → AreBelow W.number values.new 4 (2 ^ bits elem) }
{
    let done = read_whole(elem, count, before, from, x, n, values);
    for e in done..count {
        let stride = Stride {
            start: x * count + e,
            step: count,
        };
        read_value(elem, from, stride, n, before + e, values);
    }
}

// Fills the four values of n pixels from x on, and those of the others with 0.
pub fn read_block<W: WholeNumber>(
    elem: PixType,
    planes: &[u8; 4],
    input: &Planes<'_>,
    x: usize,
    n: usize,
    values: &mut [W],
)
    requires bits { 2 ^ bits elem ≤ 2 ^ W.bits }
    requires whole { is_whole_type elem ≡ true }
    requires few { sum planes.now ≤ 4 }
    requires rows { (p : ℕ) → p < 4
        → (x + n) * slice_index planes.now p * bytes elem ≤ length (row_at (rows_of input.now) p) }
    requires block { (0 < n) × (n ≤ 64) × (length values.old ≡ 256) }
    ensures set { Holds W.number values.new 4 n
        (λ v i. row_element elem planes.now (rows_of input.now) (x + i) v) }
    ensures small { AreBelow W.number values.new 4 (2 ^ bits elem) }
{
    fill_part::<W, 256>(values, 0, W::narrow(0));
    let mut before = 0;
    for p in 0..4 {
        let count = usize::from(planes[p]);
        read_plane(elem, count, before, input.row(p), x, n, values);
        before += count;
    }
}
