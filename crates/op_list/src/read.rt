ghost use Rattle.std.specs.Prelude.{◌≡◌, ◌+◌, ◌*◌, ◌<◌, ◌≤◌, IsTrue, true, if◌then◌else◌, nat_lt};
ghost use Rattle.std.specs.Prelude.{length, sum, slice_index};
ghost use Rattle.op_list.specs.Types.{bytes, is_whole_type};
ghost use Rattle.op_list.specs.Pixel.{number_at, element, element_in, element_of, pixel_count};
ghost use Rattle.op_list.specs.Pixel.{pixel_number, colours, palette_colours, read_values};
ghost use Rattle.op_list.specs.Pixel.{IsPixelOf, HasElements, HasPalette};
ghost use Rattle.op_list.specs.Values.{four};

use crate::position::PixelPosition;
use crate::types::PixType;

/// The elements of a pixel in the order of its planes, and 0 for the values that are left; or the
/// colours of its palette entry.
pub fn read_values(
    elem: PixType,
    planes: &[u8; 4],
    palette: bool,
    frame: &[u8],
    position: &PixelPosition,
) -> [u32; 4]
    requires { IsPixelOf elem planes.now palette frame.now position.now }
    ensures { result ≡ read_values elem planes.now palette frame.now position.now }
{
    if palette {
        palette_colours(frame, position)
    } else {
        elements_of(elem, planes, frame, position)
    }
}

// The elements of a pixel, and 0 for the values that are left.
fn elements_of(elem: PixType, planes: &[u8; 4], frame: &[u8], position: &PixelPosition) -> [u32; 4]
    requires { HasElements elem planes.now frame.now position.now }
    ensures { result ≡ four (λ i. element_of elem planes.now frame.now position.now i) }
{
    [
        element_of(elem, planes, frame, position, 0),
        element_of(elem, planes, frame, position, 1),
        element_of(elem, planes, frame, position, 2),
        element_of(elem, planes, frame, position, 3),
    ]
}

// Element i of a pixel, and 0 where it has fewer.
#[tactic(auto, unfolding(crate::specs::Pixel::element_of))]
fn element_of(
    elem: PixType,
    planes: &[u8; 4],
    frame: &[u8],
    position: &PixelPosition,
    i: usize,
) -> u32
    requires { HasElements elem planes.now frame.now position.now }
    ensures { result ≡ element_of elem planes.now frame.now position.now i }
{
    match position.element_index(planes, i) {
        Some(k) => element(elem, frame, k),
        None => 0,
    }
}

// Element k of a frame: a little-endian number.
fn element(elem: PixType, frame: &[u8], k: usize) -> u32
    requires { (k + 1) * bytes elem ≤ length frame.now }
    ensures { result ≡ element elem frame.now k }
{
    match elem {
        PixType::U8 => u32::from(frame[k]),
        PixType::U16 => u32::from(u16::from_le_bytes([frame[k * 2], frame[k * 2 + 1]])),
        PixType::U32 => u32::from_le_bytes([
            frame[k * 4],
            frame[k * 4 + 1],
            frame[k * 4 + 2],
            frame[k * 4 + 3],
        ]),
        PixType::Rat => 0,
    }
}

// Red, green, blue and alpha of the entry of the pixel's index.
#[tactic(auto, unfolding(crate::specs::Pixel::palette_colours))]
fn palette_colours(frame: &[u8], position: &PixelPosition) -> [u32; 4]
    requires { HasPalette frame.now position.now }
    ensures { result ≡ palette_colours frame.now position.now }
{
    let at = position.pixel_count() + 4 * usize::from(frame[position.pixel_number()]);
    [
        u32::from(frame[at + 2]),
        u32::from(frame[at + 1]),
        u32::from(frame[at]),
        u32::from(frame[at + 3]),
    ]
}
