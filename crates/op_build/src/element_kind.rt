// The type of a format's elements, and whether they are turned round.
ghost use Rattle.std.specs.Prelude.{◌≡◌};
ghost use Rattle.pix_desc.specs.Layouts.{IsValid};
ghost use Rattle.op_build.specs.ElementType.{element_type, is_swapped};

use op_list::PixType;
use pix_desc::{Desc, element_bytes};

/// The type of the elements of a format that passes the check: one of 8 or 16 bits, or that of the
/// one word that a pixel is.
#[tactic(auto, unfolding(crate::specs::ElementType::element_type))]
pub fn element_type(desc: &Desc) -> PixType
    requires { IsValid desc.now }
    ensures { result ≡ element_type desc.now }
{
    let bytes = element_bytes(desc);
    if bytes <= 1 {
        PixType::U8
    } else if bytes <= 2 {
        PixType::U16
    } else {
        PixType::U32
    }
}

/// Whether elements are turned round to little-endian numbers.
#[tactic(auto, unfolding(crate::specs::ElementType::is_swapped))]
pub fn is_swapped(desc: &Desc) -> bool
    requires { IsValid desc.now }
    ensures { result ≡ is_swapped desc.now }
{
    desc.be && element_type(desc) != PixType::U8
}
