//! Plans that threads share without a lock.
//!
//! A cell keeps the first plan that is offered to it, for good. A look borrows that plan where it
//! is for the pair asked, and else makes one for its caller alone. Where callers race each may make
//! a plan; that of a caller who comes second is dropped. `specs/Cells` says what a caller's note
//! knows of a cell, `specs/Looks` what a look answers.
#![tactic(auto)]

mod answering;
mod cache;
mod cell_note;
pub mod laws;
mod seen;
#[cfg(test)]
mod tests;

pub use cache::ListCache;
pub use cell_note::CellNote;
pub use seen::Seen;
