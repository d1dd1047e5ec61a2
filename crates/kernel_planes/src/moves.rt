// The elements of the pixels of a row, moved to other places.
ghost use Rattle.std.specs.Prelude.{◌≡◌, ◌≢◌, ℕ, ◌+◌, ◌*◌, ◌<◌, ◌≤◌, true, length};
ghost use Rattle.std.specs.Prelude.{sum, slice_index};
ghost use Rattle.op_list.specs.Types.{bytes, is_whole_type};
ghost use Rattle.op_list.specs.Pixel.{element};
ghost use Rattle.kernel_planes.specs.Planes.{row_at, row_element, row_list, rows_of};

use crate::permute::{order_in, permute_plane};
use crate::place::place_of;
use crate::planes::Planes;
use crate::rules::{Bytes, DoubleWords, Words};
use crate::stride::Stride;
use kernel_lane::{Element, move_elements};
use op_list::PixType;

// Elements of n pixels become those of another row.
fn move_strided(elem: PixType, from: &[u8], source: Stride, n: usize, to: &mut [u8], target: Stride)
    requires whole { is_whole_type elem ≡ true }
    requires source { (0 < source.step) × (source.step ≤ 4) }
    requires target { (0 < target.step) × (target.step ≤ 4) }
    requires elements { (i : ℕ) → i < n → (source.start + i * source.step + 1) * bytes elem
        ≤ length from.now }
    requires room { (i : ℕ) → i < n → (target.start + i * target.step + 1) * bytes elem
        ≤ length to.old }
    ensures set { (i : ℕ) → i < n
        → element elem to.new (target.start + i * target.step)
        ≡ element elem from.now (source.start + i * source.step) }
    ensures kept { (k : ℕ) → ((i : ℕ) → i < n → k ≢ target.start + i * target.step)
        → element elem to.new k ≡ element elem to.old k }
{
    match elem {
        PixType::U8 => move_by::<u8, Bytes>(Bytes, from, source, n, to, target),
        PixType::U16 => move_by::<u16, Words>(Words, from, source, n, to, target),
        PixType::U32 => move_by::<u32, DoubleWords>(DoubleWords, from, source, n, to, target),
        PixType::Rat => {}
    }
}

// The same by a rule for the elements.
fn move_by<T: Copy, R: Element<T>>(
    rule: R,
    from: &[u8],
    source: Stride,
    n: usize,
    to: &mut [u8],
    target: Stride,
)
    requires holds { R.holds }
    requires fits { (k : ℕ) (x : T) → R.number x ≡ R.element from.now k → R.fits x }
    requires source { (0 < source.step) × (source.step ≤ 4) }
    requires target { (0 < target.step) × (target.step ≤ 4) }
    requires elements { (i : ℕ) → i < n → (source.start + i * source.step + 1) * R.size
        ≤ length from.now }
    requires room { (i : ℕ) → i < n → (target.start + i * target.step + 1) * R.size
        ≤ length to.old }
    ensures set { (i : ℕ) → i < n
        → R.element to.new (target.start + i * target.step)
        ≡ R.element from.now (source.start + i * source.step) }
    ensures kept { (k : ℕ) → ((i : ℕ) → i < n → k ≢ target.start + i * target.step)
        → R.element to.new k ≡ R.element to.old k }
{
    match source.step {
        1 => move_to::<T, R, 1>(rule, from, source.start, n, to, target),
        2 => move_to::<T, R, 2>(rule, from, source.start, n, to, target),
        3 => move_to::<T, R, 3>(rule, from, source.start, n, to, target),
        _ => move_to::<T, R, 4>(rule, from, source.start, n, to, target),
    }
}

// The same from every C-th element on, beginning at `start`.
fn move_to<T: Copy, R: Element<T>, const C: usize>(
    rule: R,
    from: &[u8],
    start: usize,
    n: usize,
    to: &mut [u8],
    target: Stride,
)
    requires holds { R.holds }
    requires fits { (k : ℕ) (x : T) → R.number x ≡ R.element from.now k → R.fits x }
    requires target { (0 < target.step) × (target.step ≤ 4) }
    requires elements { (i : ℕ) → i < n → (start + i * C + 1) * R.size ≤ length from.now }
    requires room { (i : ℕ) → i < n → (target.start + i * target.step + 1) * R.size
        ≤ length to.old }
    ensures set { (i : ℕ) → i < n
        → R.element to.new (target.start + i * target.step)
        ≡ R.element from.now (start + i * C) }
    ensures kept { (k : ℕ) → ((i : ℕ) → i < n → k ≢ target.start + i * target.step)
        → R.element to.new k ≡ R.element to.old k }
{
    match target.step {
        1 => move_elements::<T, R, C, 1>(rule, from, start, n, to, target.start),
        2 => move_elements::<T, R, C, 2>(rule, from, start, n, to, target.start),
        3 => move_elements::<T, R, C, 3>(rule, from, start, n, to, target.start),
        _ => move_elements::<T, R, C, 4>(rule, from, start, n, to, target.start),
    }
}

// Elements of the pixels of a row become value v of those in `input`.
fn move_value(
    elem: PixType,
    planes: &[u8; 4],
    v: usize,
    input: &Planes<'_>,
    width: usize,
    to: &mut [u8],
    target: Stride,
)
    requires whole { is_whole_type elem ≡ true }
    requires few { sum planes.now ≤ 4 }
    requires there { v < sum planes.now }
    requires input { (p : ℕ) → p < 4
        → width * slice_index planes.now p * bytes elem ≤ length (row_at (rows_of input.now) p) }
    requires target { (0 < target.step) × (target.step ≤ 4) }
    requires room { (i : ℕ) → i < width → (target.start + i * target.step + 1) * bytes elem
        ≤ length to.old }
    ensures set { (i : ℕ) → i < width
        → element elem to.new (target.start + i * target.step)
        ≡ row_element elem planes.now (rows_of input.now) i v }
    ensures kept { (k : ℕ) → ((i : ℕ) → i < width → k ≢ target.start + i * target.step)
        → element elem to.new k ≡ element elem to.old k }
{
    let place = place_of(planes, v);
    let source = Stride {
        start: place.element,
        step: usize::from(planes[place.plane]),
    };
    move_strided(elem, input.row(place.plane), source, width, to, target);
}

// Element e of each pixel in a plane becomes value from[before + e] of the pixel in `input`.
fn move_plane(
    elem: PixType,
    planes: &[u8; 4],
    from: &[u8; 4],
    input: &Planes<'_>,
    count: usize,
    before: usize,
    width: usize,
    to: &mut [u8],
)
    requires whole { is_whole_type elem ≡ true }
    requires few { (sum planes.now ≤ 4) × (before + count ≤ 4) }
    requires there { (e : ℕ) → e < count → slice_index from.now (before + e) < sum planes.now }
    requires input { (p : ℕ) → p < 4
        → width * slice_index planes.now p * bytes elem ≤ length (row_at (rows_of input.now) p) }
    requires room { width * count * bytes elem ≤ length to.old }
    ensures { (x e : ℕ) → x < width → e < count
        → element elem to.new (x * count + e)
        ≡ row_element elem planes.now (rows_of input.now) x (slice_index from.now (before + e)) }
{
    if let PixType::U8 = elem {
        if let Some(order) = order_in(planes, from, count, before) {
            permute_plane(order, planes, from, input, count, before, width, to);
            return;
        }
    }
    for e in 0..count {
        let target = Stride {
            start: e,
            step: count,
        };
        let v = usize::from(from[before + e]);
        move_value(elem, planes, v, input, width, to, target);
    }
}

/// Each element of the pixels of a row becomes one of the same row's pixels in `input`: element v of
/// a written pixel is element `from[v]` of the one read. Nothing is computed.
pub fn move_row(
    elem: PixType,
    planes: &[u8; 4],
    from: &[u8; 4],
    input: &Planes<'_>,
    to: &[u8; 4],
    width: usize,
    first: &mut [u8],
    second: &mut [u8],
    third: &mut [u8],
    fourth: &mut [u8],
)
    requires whole { is_whole_type elem ≡ true }
    requires few { (sum planes.now ≤ 4) × (sum to.now ≤ 4) }
    requires there { (v : ℕ) → v < sum to.now → slice_index from.now v < sum planes.now }
    requires input { (p : ℕ) → p < 4
        → width * slice_index planes.now p * bytes elem ≤ length (row_at (rows_of input.now) p) }
    requires output { (p : ℕ) → p < 4
        → width * slice_index to.now p * bytes elem
        ≤ length (row_at (row_list first.old second.old third.old fourth.old) p) }
    ensures { (x v : ℕ) → x < width → v < sum to.now
        → row_element elem to.now (row_list first.new second.new third.new fourth.new) x v
        ≡ row_element elem planes.now (rows_of input.now) x (slice_index from.now v) }
{
    let [a, b, c, d] = *to;
    let (a, b, c, d) = (
        usize::from(a),
        usize::from(b),
        usize::from(c),
        usize::from(d),
    );
    move_plane(elem, planes, from, input, a, 0, width, first);
    move_plane(elem, planes, from, input, b, a, width, second);
    move_plane(elem, planes, from, input, c, a + b, width, third);
    move_plane(elem, planes, from, input, d, a + b + c, width, fourth);
}
