// The elements of a pixel, and the components that they hold.
ghost use Rattle.std.specs.Prelude.{◌≡◌, nat_eq, take, sum};
ghost use Rattle.std.specs.List.{range_with_len, find};
ghost use Rattle.pix_desc.specs.Layouts.{IsValid};
ghost use Rattle.pix_desc.specs.Shape.{element_index, element_slot};

use crate::desc::Desc;
use crate::positions::first_byte_index;
use crate::shape::{component_of, element_bytes, element_counts};

/// The sum of the counts of the planes before one.
pub fn total_before(counts: &[u8; 4], plane: u8) -> u16
    ensures { result ≡ sum (take plane counts.now) }
{
    let [first, second, third, fourth] = *counts;
    match plane {
        0 => 0,
        1 => u16::from(first),
        2 => u16::from(first) + u16::from(second),
        3 => u16::from(first) + u16::from(second) + u16::from(third),
        _ => u16::from(first) + u16::from(second) + u16::from(third) + u16::from(fourth),
    }
}

// The element of a pixel that holds component `j`.
fn element_index(desc: &Desc, j: u8) -> u32
    requires { IsValid desc.now }
    ensures { result ≡ element_index desc.now j }
{
    let comp = component_of(desc, j);
    let in_plane = first_byte_index(desc, &comp) / u16::from(element_bytes(desc));
    u32::from(total_before(&element_counts(desc), comp.plane)) + u32::from(in_plane)
}

/// The component that an element holds, and none where it is spare.
pub fn element_slot(desc: &Desc, i: u8) -> Option<u8>
    requires { IsValid desc.now }
    ensures { result ≡ element_slot desc.now i }
{
    (0..desc.count).find(|j| element_index(desc, *j) == u32::from(i))
}
