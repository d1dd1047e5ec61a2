//! Descriptors of pixel formats, the components of a row, and raw frames.
//!
//! A descriptor is read as FFmpeg's libavutil/pixdesc.h says of AVPixFmtDescriptor and
//! AVComponentDescriptor.
#![tactic(auto)]

mod checks;
mod component;
mod desc;
mod element_layout;
mod element_slots;
pub mod laws;
mod positions;
mod same;
mod shape;
mod slots;
mod word_fields;
mod word_layout;

pub use checks::check;
pub use component::{read_comp, write_comp};
pub use desc::{Comp, Desc, DescFault, Layout};
pub use positions::{bytes_read, components, first_byte_index};
pub use same::same_desc;
pub use shape::{component_of, element_bytes, element_counts, is_elements};
pub use slots::{field_widths, has_slot, position_of, slot_at};
pub use word_layout::word_shift;

#[cfg(test)]
mod tests;
