// Elements that are stored in a frame.
ghost use Rattle.std.specs.Prelude.{◌≡◌, ◌≢◌, ℕ, ◌+◌, ◌*◌, ◌%◌, ◌^◌, ◌<◌, ◌≤◌, length, sum};
ghost use Rattle.std.specs.Prelude.{slice_index};
ghost use Rattle.op_list.specs.Types.{bits, bytes};
ghost use Rattle.op_list.specs.Pixel.{element, element_of, HasElements};
ghost use Rattle.op_list.specs.Store.{IsOtherPixel};

use crate::position::PixelPosition;
use crate::types::PixType;

/// Stores the elements of a pixel in a frame, as a Write of this type and these counts states
/// them: the least significant bits of each number, and none for the numbers past the elements.
///
/// The type is a whole one, a pixel has at most four elements, the position lies in the frame, and
/// the frame has the bytes of all its pixels' elements.
pub fn store_elements(
    elem: PixType,
    planes: &[u8; 4],
    numbers: &[u32; 4],
    position: &PixelPosition,
    frame: &mut [u8],
)
    requires { HasElements elem planes.now frame.old position.now }
    ensures size { length frame.new ≡ length frame.old }
    ensures stored { (i : ℕ) → i < sum planes.now
        → element_of elem planes.now frame.new position.now i
        ≡ slice_index numbers.now i % 2 ^ bits elem }
    ensures others { (other : PixelPosition) → IsOtherPixel position.now other → (i : ℕ)
        → element_of elem planes.now frame.new other i
        ≡ element_of elem planes.now frame.old other i }
{
    store_element(elem, planes, position, 0, numbers[0], frame);
    store_element(elem, planes, position, 1, numbers[1], frame);
    store_element(elem, planes, position, 2, numbers[2], frame);
    store_element(elem, planes, position, 3, numbers[3], frame);
}

// Stores element i of a pixel, where it has one.
fn store_element(
    elem: PixType,
    planes: &[u8; 4],
    position: &PixelPosition,
    i: usize,
    number: u32,
    frame: &mut [u8],
)
    requires { HasElements elem planes.now frame.old position.now }
    ensures size { length frame.new ≡ length frame.old }
    ensures stored { i < sum planes.now
        → element_of elem planes.now frame.new position.now i ≡ number % 2 ^ bits elem }
    ensures kept { (j : ℕ) → j ≢ i
        → element_of elem planes.now frame.new position.now j
        ≡ element_of elem planes.now frame.old position.now j }
    ensures others { (other : PixelPosition) → IsOtherPixel position.now other → (j : ℕ)
        → element_of elem planes.now frame.new other j
        ≡ element_of elem planes.now frame.old other j }
{
    if let Some(k) = position.element_index(planes, i) {
        set_element(elem, k, number, frame);
    }
}

// Sets element k of a frame: its bytes, in little-endian order.
fn set_element(elem: PixType, k: usize, number: u32, frame: &mut [u8])
    requires { (k + 1) * bytes elem ≤ length frame.old }
    ensures size { length frame.new ≡ length frame.old }
    ensures stored { element elem frame.new k ≡ number % 2 ^ bits elem }
    ensures others { (n : ℕ) → n ≢ k → element elem frame.new n ≡ element elem frame.old n }
{
    let bytes = number.to_le_bytes();
    match elem {
        PixType::U8 => frame[k] = bytes[0],
        PixType::U16 => {
            frame[k * 2] = bytes[0];
            frame[k * 2 + 1] = bytes[1];
        }
        PixType::U32 => {
            frame[k * 4] = bytes[0];
            frame[k * 4 + 1] = bytes[1];
            frame[k * 4 + 2] = bytes[2];
            frame[k * 4 + 3] = bytes[3];
        }
        PixType::Rat => {}
    }
}
