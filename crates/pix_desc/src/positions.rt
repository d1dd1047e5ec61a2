// Where a component's bits lie in its pixel.
ghost use Rattle.std.specs.Prelude.{◌≡◌, ◌-◌, ◌/◌, ◌≤◌, ◌&&◌, not, nat_eq, if◌then◌else◌};
ghost use Rattle.std.specs.List.{list_any};
ghost use Rattle.pix_desc.specs.Component.{components, is_narrow, bytes_read, count_of, first_byte};
ghost use Rattle.pix_desc.specs.Component.{bit_position, reads_bit};
ghost use Rattle.pix_desc.specs.Layouts.{share_bit, overlap};

use crate::{Comp, Desc};

/// The components that the descriptor has.
pub fn components(desc: &Desc) -> &[Comp]
    requires { desc.now.count ≤ 4 }
    ensures { result.now ≡ components desc.now }
{
    &desc.comps[..usize::from(desc.count)]
}

/// Whether one of the components lies in the plane.
pub fn is_used(comps: &[Comp], plane: u8) -> bool
    ensures { result ≡ list_any (λ c. nat_eq c.plane plane) comps.now }
{
    comps.iter().any(|comp| comp.plane == plane)
}

/// Whether the component is read from one byte.
pub fn is_narrow(comp: &Comp) -> bool
    ensures { result ≡ is_narrow comp.now }
{
    u16::from(comp.shift) + u16::from(comp.depth) <= 8
}

/// How many bytes the component is read from, 1 or 2.
pub fn bytes_read(comp: &Comp) -> u8
    ensures { result ≡ bytes_read comp.now }
{
    if is_narrow(comp) { 1 } else { 2 }
}

/// The first byte that is read, counted from the pixel's start.
pub fn first_byte(desc: &Desc, comp: &Comp) -> i16
    ensures { result ≡ first_byte desc.now comp.now }
{
    let offset = i16::from(comp.offset);
    if desc.be && is_narrow(comp) {
        offset + 1
    } else {
        offset
    }
}

/// The first byte that the component is read from, and 0 where it lies before the pixel.
pub fn first_byte_index(desc: &Desc, comp: &Comp) -> u16
    ensures { result ≡ count_of (first_byte desc.now comp.now) }
{
    first_byte(desc, comp).max(0) as u16
}

/// The byte of a component's number that has a bit of it, in the order in which they stand in the
/// pixel.
fn byte_with(desc: &Desc, comp: &Comp, bit: u16) -> u16
    ensures { result ≡ (if desc.now.be && not (is_narrow comp.now) then 1 - bit / 8 else bit / 8) }
{
    let byte = bit / 8;
    if desc.be && !is_narrow(comp) {
        1u16.saturating_sub(byte)
    } else {
        byte
    }
}

/// The bit of the pixel that is bit `i` of the component's value, counted from the lowest bit of
/// the pixel's first byte.
pub fn bit_position(desc: &Desc, comp: &Comp, i: u8) -> i32
    ensures { result ≡ bit_position desc.now comp.now i }
{
    let bit = u16::from(comp.shift) + u16::from(i);
    let byte = i32::from(first_byte(desc, comp)) + i32::from(byte_with(desc, comp, bit));
    8 * byte + i32::from(bit % 8)
}

/// Whether the component reads a bit of its pixel.
pub fn reads_bit(desc: &Desc, comp: &Comp, position: i32) -> bool
    ensures { result ≡ reads_bit desc.now comp.now position }
{
    (0..comp.depth).any(|i| bit_position(desc, comp, i) == position)
}

/// Whether two components read a bit at the same position.
fn share_bit(desc: &Desc, a: &Comp, b: &Comp) -> bool
    ensures { result ≡ share_bit desc.now a.now b.now }
{
    (0..a.depth).any(|i| reads_bit(desc, b, bit_position(desc, a, i)))
}

/// Whether two components of one plane read a common bit of the pixel.
pub fn overlap(desc: &Desc, a: &Comp, b: &Comp) -> bool
    ensures { result ≡ overlap desc.now a.now b.now }
{
    a.plane == b.plane && share_bit(desc, a, b)
}
