// Pixels that are one number.
ghost use Rattle.std.specs.Prelude.{◌≡◌, ◌≤◌, nat_eq, length};
ghost use Rattle.std.specs.List.{list_all};
ghost use Rattle.pix_desc.specs.Component.{components};
ghost use Rattle.pix_desc.specs.Layouts.{one_a_plane, some_component, word_shift, has_word_bit};
ghost use Rattle.pix_desc.specs.Layouts.{is_spare, begins_spare, spare_runs, has_few_fields};
ghost use Rattle.pix_desc.specs.Layouts.{is_word};

use crate::positions::{bytes_read, components, first_byte_index};
use crate::{Comp, Desc};

/// Whether all components lie in the plane.
fn is_alone(comps: &[Comp], plane: u8) -> bool
    ensures { result ≡ list_all (λ c. nat_eq c.plane plane) comps.now }
{
    comps.iter().all(|comp| comp.plane == plane)
}

/// Whether all components lie in one plane.
fn has_one_plane(comps: &[Comp]) -> bool
    ensures { result ≡ nat_eq (length (one_a_plane comps.now)) 1 }
{
    match comps {
        [first, ..] => is_alone(comps, first.plane),
        [] => false,
    }
}

/// The lowest bit of a component in its pixel, taken as one number in the format's byte order.
pub fn word_shift(desc: &Desc, comp: &Comp) -> u16
    ensures { result ≡ word_shift desc.now comp.now }
{
    let first = first_byte_index(desc, comp);
    let bytes_below = if desc.be {
        u16::from(comp.step)
            .saturating_sub(first)
            .saturating_sub(u16::from(bytes_read(comp)))
    } else {
        first
    };
    8 * bytes_below + u16::from(comp.shift)
}

/// Whether a bit of a pixel's number belongs to the component.
fn has_word_bit(desc: &Desc, comp: &Comp, bit: u16) -> bool
    ensures { result ≡ has_word_bit desc.now bit comp.now }
{
    let shift = u32::from(word_shift(desc, comp));
    let bit = u32::from(bit);
    shift <= bit && bit < shift + u32::from(comp.depth)
}

/// Whether a bit of a pixel's number belongs to a component.
fn is_taken(desc: &Desc, bit: u16) -> bool
    requires { desc.now.count ≤ 4 }
    ensures { result ≡ some_component desc.now (has_word_bit desc.now bit) }
{
    components(desc)
        .iter()
        .any(|comp| has_word_bit(desc, comp, bit))
}

/// Whether a bit of a pixel's number belongs to no component.
fn is_spare(desc: &Desc, bit: u16) -> bool
    requires { desc.now.count ≤ 4 }
    ensures { result ≡ is_spare desc.now bit }
{
    !is_taken(desc, bit)
}

/// Whether a run of spare bits begins at a bit.
fn begins_spare(desc: &Desc, bit: u16) -> bool
    requires { desc.now.count ≤ 4 }
    ensures { result ≡ begins_spare desc.now bit }
{
    is_spare(desc, bit) && (bit == 0 || !is_spare(desc, bit - 1))
}

/// How many runs of spare bits a pixel of `step` bytes has.
fn spare_runs(desc: &Desc, step: u8) -> usize
    requires { desc.now.count ≤ 4 }
    ensures { result ≡ spare_runs desc.now step }
{
    (0..8 * u16::from(step))
        .filter(|bit| begins_spare(desc, *bit))
        .count()
}

/// Whether a pixel of `step` bytes is one number of 1, 2 or 4 bytes that has at most four fields.
fn has_few_fields(desc: &Desc, step: u8) -> bool
    requires { desc.now.count ≤ 4 }
    ensures { result ≡ has_few_fields desc.now step }
{
    matches!(step, 1 | 2 | 4) && spare_runs(desc, step) <= usize::from(4 - desc.count)
}

/// Whether a pixel of each component's step has at most four fields.
fn is_divided(desc: &Desc) -> bool
    requires { desc.now.count ≤ 4 }
    ensures { result ≡ list_all (λ c. has_few_fields desc.now c.step) (components desc.now) }
{
    components(desc)
        .iter()
        .all(|comp| has_few_fields(desc, comp.step))
}

/// Whether a pixel is one number that components and spare bits cut into at most four fields.
pub fn is_word(desc: &Desc) -> bool
    requires { desc.now.count ≤ 4 }
    ensures { result ≡ is_word desc.now }
{
    has_one_plane(components(desc)) && is_divided(desc)
}
