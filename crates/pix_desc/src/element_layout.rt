// Pixels that are numbers of equal size.
ghost use Rattle.std.specs.Prelude.{◌≡◌, ◌≤◌, length};
ghost use Rattle.std.specs.List.{list_any, list_all};
ghost use Rattle.pix_desc.specs.Component.{components};
ghost use Rattle.pix_desc.specs.Layouts.{some_two, differ_in_shape, is_aligned, element_count};
ghost use Rattle.pix_desc.specs.Layouts.{is_elements};

use crate::positions::{bytes_read, components, first_byte_index, is_used};
use crate::{Comp, Desc};

/// Whether two components differ in shift or in depth.
fn differ_in_shape(a: &Comp, b: &Comp) -> bool
    ensures { result ≡ differ_in_shape a.now b.now }
{
    !(a.shift == b.shift && a.depth == b.depth)
}

/// Whether one of the components differs in shape from a component.
fn some_differ_in_shape(comps: &[Comp], from: &Comp) -> bool
    ensures { result ≡ list_any (differ_in_shape from.now) comps.now }
{
    comps.iter().any(|comp| differ_in_shape(from, comp))
}

/// Whether two of the components differ in shape.
fn has_mixed_shapes(comps: &[Comp]) -> bool
    ensures { result ≡ some_two differ_in_shape comps.now }
{
    comps.iter().any(|comp| some_differ_in_shape(comps, comp))
}

/// Whether the component stands at a multiple of its size, and its step is one.
fn is_aligned(desc: &Desc, comp: &Comp) -> bool
    ensures { result ≡ is_aligned desc.now comp.now }
{
    let size = bytes_read(comp);
    first_byte_index(desc, comp) % u16::from(size) == 0 && comp.step % size == 0
}

/// Whether all components are aligned.
fn has_aligned(desc: &Desc) -> bool
    requires { desc.now.count ≤ 4 }
    ensures { result ≡ list_all (is_aligned desc.now) (components desc.now) }
{
    components(desc).iter().all(|comp| is_aligned(desc, comp))
}

/// How many numbers a pixel has in all its planes.
fn element_count(comps: &[Comp]) -> u16
    requires { length comps.now ≤ 4 }
    ensures { result ≡ element_count comps.now }
{
    let mut count = 0;
    for (i, comp) in comps.iter().enumerate() {
        if !is_used(&comps[..i], comp.plane) {
            count += u16::from(comp.step / bytes_read(comp));
        }
    }
    count
}

/// Whether a pixel is at most four aligned numbers of one size, each with at most one component,
/// all at the same bits.
pub fn is_elements(desc: &Desc) -> bool
    requires { desc.now.count ≤ 4 }
    ensures { result ≡ is_elements desc.now }
{
    !has_mixed_shapes(components(desc)) && has_aligned(desc) && element_count(components(desc)) <= 4
}
