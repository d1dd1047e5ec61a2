//! The list of operations of a conversion.
//!
//! `specs/Recipe` says which list a pair of formats has. It is proved that this list is well typed,
//! that it means the target
//! rows at every pixel, and that its checked evaluation always answers for the classes of the
//! table. `build` makes the list.
#![tactic(auto)]

mod code_values;
mod element_kind;
mod fault;
pub mod laws;
mod limits;
mod list;
mod rows;
mod sources;
mod split;
mod steps;
mod target_slots;
#[cfg(test)]
mod tests;

pub use element_kind::element_type;
pub use fault::BuildFault;
pub use list::build;
