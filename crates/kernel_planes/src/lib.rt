//! Blocks of 64 pixels, read from the rows of planes and written to them.
#![tactic(auto)]

mod element;
mod gather;
mod moves;
mod palette;
mod permute;
mod place;
mod planes;
mod read;
mod rest;
mod rules;
mod scatter;
mod stride;
mod value;
mod whole_number;
mod write;

pub use moves::move_row;
pub use palette::read_palette;
pub use planes::Planes;
pub use read::read_block;
pub use rest::clear_rest;
pub use value::{copy_value, fill};
pub use whole_number::WholeNumber;
pub use write::write_block;
