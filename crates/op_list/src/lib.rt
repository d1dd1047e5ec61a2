//! Lists of operations that convert a pixel.
//!
//! `specs/Typing` says how operations may follow one another, `specs/Apply` and `specs/Run` what
//! they mean exactly, and `specs/Checked` how they are evaluated in fractions of 128 bits.
//! `OpList::push` takes exactly what the typing allows; `OpList::run_pixel` evaluates.
#![tactic(auto)]

mod apply;
mod entries;
mod fault;
mod fractions;
mod identity;
pub mod laws;
mod list;
mod numbers;
mod op;
mod position;
mod read;
mod run;
mod store;
#[cfg(test)]
mod tests;
mod type_change;
mod types;
mod typing;
mod values;

pub use fault::PushFault;
pub use fractions::{greater, lesser};
pub use identity::is_identity_row;
pub use list::{MAX_OPERATIONS, OpList};
pub use numbers::{field, packed, product_modulo, reversed_bytes, shifted, total};
pub use op::Op;
pub use position::PixelPosition;
pub use store::store_elements;
pub use types::{PixType, Stage};
