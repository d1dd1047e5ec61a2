// How a pixel is stored: as elements of its planes, or as one word.
ghost use Rattle.std.specs.Prelude.{◌≡◌};
ghost use Rattle.pix_desc.specs.Component.{component_of};
ghost use Rattle.pix_desc.specs.Frame.{step_in};
ghost use Rattle.pix_desc.specs.Layouts.{IsValid, is_elements};
ghost use Rattle.pix_desc.specs.Shape.{element_bytes, element_counts};

use crate::checks::check;
use crate::desc::{Comp, Desc, Layout};
use crate::positions::{bytes_read, components};

/// Component `j`, and the component of no bits where the descriptor has no entry `j`.
pub fn component_of(desc: &Desc, j: u8) -> Comp
    ensures { result ≡ component_of desc.now j }
{
    match desc.comps.get(usize::from(j)) {
        Some(comp) => *comp,
        None => Comp {
            plane: 0,
            step: 0,
            offset: 0,
            shift: 0,
            depth: 0,
        },
    }
}

/// Whether the pixels of a format that passes the check are elements.
pub fn is_elements(desc: &Desc) -> bool
    requires { IsValid desc.now }
    ensures { result ≡ is_elements desc.now }
{
    match check(desc) {
        Ok(Layout::Elements) => true,
        Ok(Layout::Word) => false,
        Err(_) => false,
    }
}

/// The bytes of an element, or those of the whole word.
#[tactic(auto, unfolding(crate::specs::Shape::element_bytes))]
pub fn element_bytes(desc: &Desc) -> u8
    requires { IsValid desc.now }
    ensures { result ≡ element_bytes desc.now }
{
    let first = &desc.comps[0];
    if is_elements(desc) {
        bytes_read(first)
    } else {
        first.step
    }
}

/// The elements of a pixel in each plane of a format that passes the check, at most four in all; a
/// word is one.
#[tactic(auto, unfolding(crate::specs::Shape::element_counts))]
pub fn element_counts(desc: &Desc) -> [u8; 4]
    requires { IsValid desc.now }
    ensures { result ≡ element_counts desc.now }
{
    let size = element_bytes(desc);
    let comps = components(desc);
    [
        step_in(comps, 0) / size,
        step_in(comps, 1) / size,
        step_in(comps, 2) / size,
        step_in(comps, 3) / size,
    ]
}

// The step of the first component that lies in the plane, and 0 where none does.
fn step_in(comps: &[Comp], plane: u8) -> u8
    ensures { result ≡ step_in plane comps.now }
{
    match comps {
        [] => 0,
        [comp, rest @ ..] => if comp.plane == plane {
            comp.step
        } else {
            step_in(rest, plane)
        }
    }
}
