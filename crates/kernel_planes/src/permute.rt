// A plane whose bytes are those of one plane of the source, in another order in each pixel.
ghost use Rattle.std.specs.Prelude.{◌≡◌, ℕ, ◌+◌, ◌*◌, ◌<◌, ◌≤◌, IfSome, length};
ghost use Rattle.std.specs.Prelude.{sum, slice_index};
ghost use Rattle.op_list.specs.Pixel.{element};
ghost use Rattle.op_list.specs.declared.types.PixType.TheVariants.{U8};
ghost use Rattle.kernel_planes.specs.Orders.{IsOrder};
ghost use Rattle.kernel_planes.specs.Planes.{row_at, row_element, rows_of};

use crate::place::place_of;
use crate::planes::Planes;
use kernel_lane::permute_pixels;

/// In which order the bytes of a pixel in one plane are written.
#[derive(Clone, Copy)]
pub struct Order {
    /// The plane.
    pub plane: usize,
    /// Which of its bytes each written one is.
    pub places: [u8; 4],
}

/// The order of `count` values, from[before] and those behind it, where they are all that one plane
/// has of a pixel, or some of them more than once.
pub fn order_in(planes: &[u8; 4], from: &[u8; 4], count: usize, before: usize) -> Option<Order>
    requires few { before + count ≤ 4 }
    requires there { (e : ℕ) → e < count → slice_index from.now (before + e) < sum planes.now }
    ensures { IfSome result (λ order.
        IsOrder planes.now from.now count before order.plane order.places) }
{
    if count < 2 {
        return None;
    }
    let plane = place_of(planes, usize::from(from[before])).plane;
    if usize::from(planes[plane]) != count {
        return None;
    }
    let mut places = [0; 4];
    for e in 0..count {
        let place = place_of(planes, usize::from(from[before + e]));
        if place.plane != plane {
            return None;
        }
        places[e] = place.element as u8;
    }
    Some(Order { plane, places })
}

// The bytes of n pixels, of which each has `count`, in another order.
fn permute_row(count: usize, places: &[u8; 4], from: &[u8], n: usize, to: &mut [u8])
    requires count { (2 ≤ count) × (count ≤ 4) }
    requires places { (e : ℕ) → e < count → slice_index places.now e < count }
    requires room { (n * count ≤ length from.now) × (n * count ≤ length to.old) }
    ensures { (i e : ℕ) → i < n → e < count
        → slice_index to.new (i * count + e)
        ≡ slice_index from.now (i * count + slice_index places.now e) }
{
    match count {
        2 => permute_pixels::<2>(places, from, n, to),
        3 => permute_pixels::<3>(places, from, n, to),
        _ => permute_pixels::<4>(places, from, n, to),
    }
}

/// Byte e of each pixel in a plane becomes value from[before + e] of the pixel in `input`, by the
/// order of these values.
pub fn permute_plane(
    order: Order,
    planes: &[u8; 4],
    from: &[u8; 4],
    input: &Planes<'_>,
    count: usize,
    before: usize,
    width: usize,
    to: &mut [u8],
)
    requires order { IsOrder planes.now from.now count before order.plane order.places }
    requires few { count ≤ 4 }
    requires input { (p : ℕ) → p < 4
        → width * slice_index planes.now p ≤ length (row_at (rows_of input.now) p) }
    requires room { width * count ≤ length to.old }
    ensures { (x e : ℕ) → x < width → e < count
        → element U8 to.new (x * count + e)
        ≡ row_element U8 planes.now (rows_of input.now) x (slice_index from.now (before + e)) }
{
    permute_row(count, &order.places, input.row(order.plane), width, to);
}
