// The elements of the pixels of a block, written to the rows of planes.
ghost use Rattle.std.specs.Prelude.{◌≡◌, ◌≢◌, ℕ, ◌+◌, ◌*◌, ◌^◌, ◌<◌, ◌≤◌, ◌⊎◌, true, false, length};
ghost use Rattle.std.specs.Prelude.{sum, slice_index, slice_index_or};
ghost use Rattle.op_list.specs.Types.{bits, bytes, is_whole_type};
ghost use Rattle.op_list.specs.Pixel.{element};
ghost use Rattle.kernel_planes.specs.Block.{AreBelow};
ghost use Rattle.kernel_planes.specs.Planes.{row_at, row_element, row_list};

use crate::rules::{Bytes, DoubleWords, Words};
use crate::scatter::scatter;
use crate::stride::Stride;
use crate::whole_number::WholeNumber;
use kernel_lane::Element;
use op_list::PixType;

// Sets value v of the first n pixels.
fn write_value<W: WholeNumber>(
    elem: PixType,
    values: &[W],
    v: usize,
    n: usize,
    stride: Stride,
    to: &mut [u8],
)
    requires whole { is_whole_type elem ≡ true }
    requires small { (i : ℕ) (d : W) → i < n
        → W.number (slice_index_or values.now (64 * v + i) d) < 2 ^ bits elem }
    requires block { (v < 4) × (n ≤ 64) × (length values.now ≡ 256) }
    requires step { (0 < stride.step) × (stride.step ≤ 4) }
    requires room { (i : ℕ) → i < n → (stride.start + i * stride.step + 1) * bytes elem
        ≤ length to.old }
    ensures set { (i : ℕ) (d : W) → i < n
        → element elem to.new (stride.start + i * stride.step)
        ≡ W.number (slice_index_or values.now (64 * v + i) d) }
    ensures kept { (k : ℕ) → ((i : ℕ) → i < n → k ≢ stride.start + i * stride.step)
        → element elem to.new k ≡ element elem to.old k }
{
    match elem {
        PixType::U8 => write_elements(Bytes, values, v, n, stride, to),
        PixType::U16 => write_elements(Words, values, v, n, stride, to),
        PixType::U32 => write_elements(DoubleWords, values, v, n, stride, to),
        PixType::Rat => {}
    }
}

// The same by a rule for the elements.
fn write_elements<W: WholeNumber, R: Element<W>>(
    rule: R,
    values: &[W],
    v: usize,
    n: usize,
    stride: Stride,
    to: &mut [u8],
)
    requires small { (i : ℕ) (d : W) → i < n → R.fits (slice_index_or values.now (64 * v + i) d) }
    requires block { (v < 4) × (n ≤ 64) × (length values.now ≡ 256) }
    requires step { (0 < stride.step) × (stride.step ≤ 4) }
    requires room { (i : ℕ) → i < n → (stride.start + i * stride.step + 1) * R.size
        ≤ length to.old }
    ensures set { (i : ℕ) (d : W) → i < n
        → R.element to.new (stride.start + i * stride.step)
        ≡ R.number (slice_index_or values.now (64 * v + i) d) }
    ensures kept { (k : ℕ) → ((i : ℕ) → i < n → k ≢ stride.start + i * stride.step)
        → R.element to.new k ≡ R.element to.old k }
{
    match stride.step {
        1 => scatter::<W, R, 1>(rule, values, v, n, stride.start, to),
        2 => scatter::<W, R, 2>(rule, values, v, n, stride.start, to),
        3 => scatter::<W, R, 3>(rule, values, v, n, stride.start, to),
        _ => scatter::<W, R, 4>(rule, values, v, n, stride.start, to),
    }
}

// Writes the values of a plane for a whole block of bytes, where there is a fast way. It answers
// how many it wrote: all of them or none.
fn write_whole<W: WholeNumber>(
    elem: PixType,
    count: usize,
    before: usize,
    values: &[W],
    x: usize,
    n: usize,
    to: &mut [u8],
) -> usize
    requires few { before + count ≤ 4 }
    requires room { (x + n) * count * bytes elem ≤ length to.old }
    requires block { length values.now ≡ 256 }
    ensures few { result ≤ count }
    ensures set { (e i : ℕ) (d : W) → e < result → i < n
        → element elem to.new ((x + i) * count + e)
        ≡ W.number (slice_index_or values.now (64 * (before + e) + i) d) }
    ensures kept { (k : ℕ) → (k < x * count) ⊎ ((x + n) * count ≤ k)
        → element elem to.new k ≡ element elem to.old k }
{
    let PixType::U8 = elem else {
        return 0;
    };
    if n != 64 {
        return 0;
    }
    if join_part(count, before, values, x * count, to) {
        count
    } else {
        0
    }
}

// Joins the values from `before` on of 64 pixels, a byte each, from `start` on.
fn join_part<W: WholeNumber>(
    count: usize,
    before: usize,
    values: &[W],
    start: usize,
    to: &mut [u8],
) -> bool
    requires few { before + count ≤ 4 }
    requires room { start + 64 * count ≤ length to.old }
    requires block { length values.now ≡ 256 }
    ensures set { result ≡ true → (v i : ℕ) (d : W) → v < count → i < 64
        → slice_index to.new (start + (count * i + v))
        ≡ W.number (slice_index_or values.now (64 * (before + v) + i) d) }
    ensures kept { result ≡ true → (k : ℕ) → (k < start) ⊎ (start + 64 * count ≤ k)
        → slice_index to.new k ≡ slice_index to.old k }
    ensures same { result ≡ false → to.new ≡ to.old }
{
    let part = &values[64 * before..64 * before + 64 * count];
    W::join(count, part, &mut to[start..start + 64 * count])
}

// Writes the values of a plane for n pixels from x on: element e of a pixel is value `before` + e.
fn write_plane<W: WholeNumber>(
    elem: PixType,
    count: usize,
    before: usize,
    values: &[W],
    x: usize,
    n: usize,
    to: &mut [u8],
)
    requires whole { is_whole_type elem ≡ true }
    requires small { AreBelow W.number values.now (before + count) (2 ^ bits elem) }
    requires few { before + count ≤ 4 }
    requires room { (x + n) * count * bytes elem ≤ length to.old }
    requires block { (0 < n) × (n ≤ 64) × (length values.now ≡ 256) }
    ensures set { (e i : ℕ) (d : W) → e < count → i < n
        → element elem to.new ((x + i) * count + e)
        ≡ W.number (slice_index_or values.now (64 * (before + e) + i) d) }
    ensures kept { (k : ℕ) → (k < x * count) ⊎ ((x + n) * count ≤ k)
        → element elem to.new k ≡ element elem to.old k }
{
    let done = write_whole(elem, count, before, values, x, n, to);
    for e in done..count {
        let stride = Stride {
            start: x * count + e,
            step: count,
        };
        write_value(elem, values, before + e, n, stride, to);
    }
}

// Writes the elements of n pixels from x on, and changes no others.
pub fn write_block<W: WholeNumber>(
    elem: PixType,
    planes: &[u8; 4],
    values: &[W],
    x: usize,
    n: usize,
    first: &mut [u8],
    second: &mut [u8],
    third: &mut [u8],
    fourth: &mut [u8],
)
    requires whole { is_whole_type elem ≡ true }
    requires few { sum planes.now ≤ 4 }
    requires small { AreBelow W.number values.now (sum planes.now) (2 ^ bits elem) }
    requires rows { (p : ℕ) → p < 4
        → (x + n) * slice_index planes.now p * bytes elem
        ≤ length (row_at (row_list first.old second.old third.old fourth.old) p) }
    requires block { (0 < n) × (n ≤ 64) × (length values.now ≡ 256) }
    ensures stored { (v i : ℕ) (d : W) → v < sum planes.now → i < n
        → row_element elem planes.now (row_list first.new second.new third.new fourth.new) (x + i) v
        ≡ W.number (slice_index_or values.now (64 * v + i) d) }
    ensures others { (other v : ℕ) → (other < x) ⊎ (x + n ≤ other)
        → row_element elem planes.now (row_list first.new second.new third.new fourth.new) other v
        ≡ row_element elem planes.now
        (row_list first.old second.old third.old fourth.old) other v }
{
    let [a, b, c, d] = *planes;
    let (a, b, c, d) = (
        usize::from(a),
        usize::from(b),
        usize::from(c),
        usize::from(d),
    );
    write_plane(elem, a, 0, values, x, n, first);
    write_plane(elem, b, a, values, x, n, second);
    write_plane(elem, c, a + b, values, x, n, third);
    write_plane(elem, d, a + b + c, values, x, n, fourth);
}
