//! What each operation does to a block of 64 pixels: the form of its numbers, and its step.
#![tactic(auto)]

mod clear;
mod common;
mod convert;
mod dither;
mod fields;
mod form;
mod interval;
mod left_shift;
mod limit;
mod limits;
mod linear;
mod made;
mod max;
mod min;
mod needed;
mod numerator;
mod own_forms;
mod pack;
mod rational;
mod right_shift;
mod row_form;
mod scale;
mod single;
mod steps;
mod storage;
mod swap_bytes;
mod swizzle;
mod to_fractions;
mod to_whole;
mod unpack;
mod value_form;
mod value_step;
mod whole_types;

pub use form::{Divisor, Extent, Form, NO_DIVISOR, NumberWidth, Storage, whole_form};
pub use made::Made;
pub use needed::counts_of;
pub use numerator::Numerator;
pub use own_forms::forms_of;
pub use steps::step;
pub use storage::storage_of;
