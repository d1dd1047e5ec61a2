// The shifts that leave the bits of an element's component.
ghost use Rattle.std.specs.Prelude.{◌≡◌, ◌-◌, true};
ghost use Rattle.pix_desc.specs.Component.{component_of};
ghost use Rattle.pix_desc.specs.Layouts.{IsValid, is_elements};
ghost use Rattle.op_list.specs.Types.{bits};
ghost use Rattle.op_build.specs.ElementType.{element_type};

use crate::element_kind::element_type;
use op_list::PixType;
use pix_desc::{Desc, component_of};

// The bits of an element.
fn element_bits(desc: &Desc) -> u8
    requires { IsValid desc.now }
    ensures { result ≡ bits (element_type desc.now) }
{
    element_type(desc).bits() as u8
}

/// The shift by which the bits above the component go out at the top.
pub fn left_shift(desc: &Desc) -> u8
    requires valid { IsValid desc.now }
    requires elements { is_elements desc.now ≡ true }
    ensures { result ≡ bits (element_type desc.now) - (component_of desc.now 0).shift -
        (component_of desc.now 0).depth }
{
    let comp = component_of(desc, 0);
    element_bits(desc)
        .saturating_sub(comp.shift)
        .saturating_sub(comp.depth)
}

/// The shift by which the bits below the component go out at the bottom, after the left shift.
pub fn right_shift(desc: &Desc) -> u8
    requires valid { IsValid desc.now }
    requires elements { is_elements desc.now ≡ true }
    ensures { result ≡ bits (element_type desc.now) - (component_of desc.now 0).depth }
{
    element_bits(desc).saturating_sub(component_of(desc, 0).depth)
}
