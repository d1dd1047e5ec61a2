// The check of a descriptor.
ghost use Rattle.std.specs.Prelude.{◌≡◌, ◌≤◌, not, nat_eq, IsTrue, OnOk};
ghost use Rattle.std.specs.List.{list_any, list_all, range_with_len};
ghost use Rattle.pix_desc.specs.Layouts.{is_count, some_component, some_two, some_pair, is_depth};
ghost use Rattle.pix_desc.specs.Layouts.{overlap, is_inside, differ_in_step, is_byte, is_index};
ghost use Rattle.pix_desc.specs.Layouts.{is_mixed, has_all_planes, checked, IsValid};

use crate::element_layout::is_elements;
use crate::positions::{bytes_read, components, first_byte, is_used, overlap};
use crate::word_layout::is_word;
use crate::{Comp, Desc, DescFault, Layout};

/// The layout of an accepted descriptor.
///
/// A refused one gives the first fault, in the order of `DescFault`.
#[tactic(auto, unfolding(crate::specs::Layouts::checked))]
pub fn check(desc: &Desc) -> Result<Layout, DescFault>
    ensures answer { result ≡ checked desc.now }
    ensures valid { OnOk result (IsValid desc.now) }
{
    if !has_count(desc) {
        return Err(DescFault::ComponentCount);
    }
    if has_wrong_depth(desc) {
        return Err(DescFault::DepthRange);
    }
    if has_overlap(desc) {
        return Err(DescFault::Overlap);
    }
    if reads_outside(desc) {
        return Err(DescFault::OutsideStep);
    }
    if is_mixed(desc) {
        return Err(DescFault::MixedLayout);
    }
    if !has_all_planes(desc) {
        return Err(DescFault::PlaneCount);
    }
    if is_elements(desc) {
        Ok(Layout::Elements)
    } else {
        Ok(Layout::Word)
    }
}

/// Whether the flags allow the number of components.
fn has_count(desc: &Desc) -> bool
    ensures allowed { result
        ≡ is_count desc.now.palette desc.now.rgb desc.now.alpha desc.now.count }
    ensures most { IsTrue result → desc.now.count ≤ 4 }
{
    match (desc.palette, desc.rgb, desc.alpha) {
        (true, false, true) => desc.count == 1,
        (true, _, _) => false,
        (false, true, false) => desc.count == 3,
        (false, true, true) => desc.count == 4,
        (false, false, false) => desc.count == 1 || desc.count == 3,
        (false, false, true) => desc.count == 2 || desc.count == 4,
    }
}

/// Whether the component has 1 to 16 bits of a number of 16.
fn is_depth(comp: &Comp) -> bool
    ensures { result ≡ is_depth comp.now }
{
    1 <= comp.depth && u16::from(comp.shift) + u16::from(comp.depth) <= 16
}

/// Whether some component has a depth that is refused.
fn has_wrong_depth(desc: &Desc) -> bool
    requires { desc.now.count ≤ 4 }
    ensures { result ≡ some_component desc.now (λ c. not (is_depth c)) }
{
    components(desc).iter().any(|comp| !is_depth(comp))
}

/// Whether one of the components overlaps with a component.
fn some_overlap(desc: &Desc, comps: &[Comp], with: &Comp) -> bool
    ensures { result ≡ list_any (overlap desc.now with.now) comps.now }
{
    comps.iter().any(|comp| overlap(desc, with, comp))
}

/// Whether two components of one plane read a common bit of the pixel.
fn has_overlap(desc: &Desc) -> bool
    requires { desc.now.count ≤ 4 }
    ensures { result ≡ some_pair desc.now (overlap desc.now) }
{
    let mut rest = components(desc);
    while let Some((first, others)) = rest.split_first() {
        if some_overlap(desc, others, first) {
            return true;
        }
        rest = others;
    }
    false
}

/// Whether the component is read from bytes of its pixel, which has 1 to 8 of them.
fn is_inside(desc: &Desc, comp: &Comp) -> bool
    ensures { result ≡ is_inside desc.now comp.now }
{
    let first = i32::from(first_byte(desc, comp));
    let end = first + i32::from(bytes_read(comp));
    1 <= comp.step && comp.step <= 8 && 0 <= first && end <= i32::from(comp.step)
}

/// Whether some component is read from bytes outside its pixel.
fn reads_outside(desc: &Desc) -> bool
    requires { desc.now.count ≤ 4 }
    ensures { result ≡ some_component desc.now (λ c. not (is_inside desc.now c)) }
{
    components(desc).iter().any(|comp| !is_inside(desc, comp))
}

/// Whether two components lie in one plane and differ in step.
fn differ_in_step(a: &Comp, b: &Comp) -> bool
    ensures { result ≡ differ_in_step a.now b.now }
{
    a.plane == b.plane && a.step != b.step
}

/// Whether one of the components lies in the plane of another component and differs from it in
/// step.
fn some_differ_in_step(comps: &[Comp], from: &Comp) -> bool
    ensures { result ≡ list_any (differ_in_step from.now) comps.now }
{
    comps.iter().any(|comp| differ_in_step(from, comp))
}

/// Whether two components of one plane differ in step.
fn has_mixed_steps(comps: &[Comp]) -> bool
    ensures { result ≡ some_two differ_in_step comps.now }
{
    comps.iter().any(|comp| some_differ_in_step(comps, comp))
}

/// Whether the component is the only byte of its pixel.
fn is_byte(comp: &Comp) -> bool
    ensures { result ≡ is_byte comp.now }
{
    comp.plane == 0 && comp.step == 1 && comp.offset == 0 && comp.shift == 0 && comp.depth == 8
}

/// Whether each component is the only byte of its pixel.
fn has_bytes_alone(comps: &[Comp]) -> bool
    ensures { result ≡ list_all is_byte comps.now }
{
    comps.iter().all(|comp| is_byte(comp))
}

/// Whether the components are indices of one byte.
fn is_index(desc: &Desc) -> bool
    requires { desc.now.count ≤ 4 }
    ensures { result ≡ is_index desc.now }
{
    !desc.be && has_bytes_alone(components(desc))
}

/// Whether the steps of a plane differ, or no layout fits, or a palette format has another index
/// than one byte.
fn is_mixed(desc: &Desc) -> bool
    requires { desc.now.count ≤ 4 }
    ensures { result ≡ is_mixed desc.now }
{
    has_mixed_steps(components(desc))
        || !(is_elements(desc) || is_word(desc))
        || (desc.palette && !is_index(desc))
}

/// Whether a component lies in each plane below this one.
fn has_planes_below(desc: &Desc, plane: u8) -> bool
    requires { desc.now.count ≤ 4 }
    ensures { result ≡ list_all (λ p. some_component desc.now (λ c. nat_eq c.plane p))
        (range_with_len 0 plane) }
{
    (0..plane).all(|below| is_used(components(desc), below))
}

/// Whether a component lies in each plane below every plane that is used.
fn has_all_planes(desc: &Desc) -> bool
    requires { desc.now.count ≤ 4 }
    ensures { result ≡ has_all_planes desc.now }
{
    components(desc)
        .iter()
        .all(|comp| has_planes_below(desc, comp.plane))
}
