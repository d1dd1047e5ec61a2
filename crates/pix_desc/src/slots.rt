// The slots of a pixel, in either layout.
ghost use Rattle.std.specs.Prelude.{◌≡◌, ◌<◌, ◌↔◌, IsTrue, false, nat_lt, Some, None, length};
ghost use Rattle.std.specs.Prelude.{slice_index_or};
ghost use Rattle.pix_desc.specs.Layouts.{IsValid, is_elements};
ghost use Rattle.pix_desc.specs.Shape.{fields, field_widths, no_field, slots, position_of};

use crate::desc::Desc;
use crate::element_slots::{element_slot, total_before};
use crate::shape::{component_of, element_counts, is_elements};
use crate::word_fields::{Field, field_from};

// Field `p` of a word, and the field of no bits where it is not there.
fn word_field(desc: &Desc, p: u8) -> Field
    requires valid { IsValid desc.now }
    requires word { is_elements desc.now ≡ false }
    requires slot { p < 4 }
    ensures width { result.width ≡ (slice_index_or (fields desc.now) p no_field).width }
    ensures slot { result.slot ≡ (slice_index_or (fields desc.now) p no_field).slot }
    ensures small { result.width < 256 }
{
    field_from(desc, 8 * u32::from(component_of(desc, 0).step), p)
}

/// The widths of the fields of a word, and 0 for those that are not there.
#[tactic(auto, unfolding(crate::specs::Shape::field_widths))]
pub fn field_widths(desc: &Desc) -> [u8; 4]
    requires valid { IsValid desc.now }
    requires word { is_elements desc.now ≡ false }
    ensures { result ≡ field_widths desc.now }
{
    [
        word_field(desc, 0).width as u8,
        word_field(desc, 1).width as u8,
        word_field(desc, 2).width as u8,
        word_field(desc, 3).width as u8,
    ]
}

/// The component that slot `p` of a pixel holds, and none where it is spare or not there.
pub fn slot_at(desc: &Desc, p: u8) -> Option<u8>
    requires valid { IsValid desc.now }
    requires slot { p < 4 }
    ensures { result ≡ slice_index_or (slots desc.now) p None }
{
    if !is_elements(desc) {
        return word_field(desc, p).slot;
    }
    let count = total_before(&element_counts(desc), 4);
    if u16::from(p) < count {
        element_slot(desc, p)
    } else {
        None
    }
}

/// Whether a pixel has slot `p`.
pub fn has_slot(desc: &Desc, p: u8) -> bool
    requires valid { IsValid desc.now }
    requires slot { p < 4 }
    ensures { result ≡ nat_lt p (length (slots desc.now)) }
{
    if is_elements(desc) {
        u16::from(p) < total_before(&element_counts(desc), 4)
    } else {
        0 < word_field(desc, p).width
    }
}

// Whether slot `p` holds component `j`.
fn holds(desc: &Desc, p: u8, j: u8) -> bool
    requires valid { IsValid desc.now }
    requires slot { p < 4 }
    ensures { IsTrue result ↔ (slice_index_or (slots desc.now) p None ≡ Some j) }
{
    slot_at(desc, p) == Some(j)
}

/// The position of component `j` among the slots of a pixel.
pub fn position_of(desc: &Desc, j: u8) -> u8
    requires valid { IsValid desc.now }
    requires listed { j < desc.now.count }
    ensures { result ≡ position_of desc.now j }
{
    if holds(desc, 0, j) {
        return 0;
    }
    if holds(desc, 1, j) {
        return 1;
    }
    if holds(desc, 2, j) { 2 } else { 3 }
}
