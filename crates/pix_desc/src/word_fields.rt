// The fields of a word.
ghost use Rattle.std.specs.Prelude.{◌≡◌, ◌-◌, ◌<◌, ◌≤◌, ℕ, nat_eq, slice_index_or};
ghost use Rattle.std.specs.List.{range_with_len, find};
ghost use Rattle.pix_desc.specs.Shape.{end_of, end_below, field_below, fields_below, no_field};

use crate::desc::Desc;
use crate::shape::component_of;
use crate::word_layout::word_shift;

/// A field: its width in bits, and the component that it holds, or none where it is spare.
#[derive(Clone, Copy, Debug, PartialEq, Eq)]
pub struct Field {
    pub width: u32,
    pub slot: Option<u8>,
}

// The bit of the word at which a component ends.
fn end_of(desc: &Desc, j: u8) -> u32
    ensures { result ≡ end_of desc.now j }
{
    let comp = component_of(desc, j);
    u32::from(word_shift(desc, &comp)) + u32::from(comp.depth)
}

// The component that ends at a bit.
fn ending_at(desc: &Desc, top: u32) -> Option<u8>
    ensures { result
        ≡ find (λ j. nat_eq (end_of desc.now j) top) (range_with_len 0 desc.now.count) }
{
    (0..desc.count).find(|j| end_of(desc, *j) == top)
}

// The greatest of the ends, from that of component `first` on, that are at or below a bit, and 0
// where there is none.
fn end_below(desc: &Desc, first: u8, top: u32) -> u32
    ensures end { result ≡ end_below desc.now (range_with_len first (desc.now.count - first)) top }
    ensures below { result ≤ top }
{
    if first >= desc.count {
        return 0;
    }
    let end = end_of(desc, first);
    let other = end_below(desc, first + 1, top);
    if end <= top && other < end {
        end
    } else {
        other
    }
}

// The field below a bit of the word.
fn field_below(desc: &Desc, top: u32) -> Field
    ensures width { result.width ≡ (field_below desc.now top).width }
    ensures slot { result.slot ≡ (field_below desc.now top).slot }
{
    match ending_at(desc, top) {
        Some(j) => Field {
            width: u32::from(component_of(desc, j).depth),
            slot: Some(j),
        },
        None => Field {
            width: top - end_below(desc, 0, top),
            slot: None,
        },
    }
}

/// Field `i` below a bit of the word, and the field of no bits where it is not there.
pub fn field_from(desc: &Desc, top: u32, i: u8) -> Field
    ensures width { (most : ℕ) → i < most
        → result.width ≡ (slice_index_or (fields_below desc.now most top) i no_field).width }
    ensures slot { (most : ℕ) → i < most
        → result.slot ≡ (slice_index_or (fields_below desc.now most top) i no_field).slot }
{
    if top == 0 {
        return Field {
            width: 0,
            slot: None,
        };
    }
    let field = field_below(desc, top);
    if i == 0 {
        field
    } else {
        field_from(desc, top.saturating_sub(field.width), i - 1)
    }
}
