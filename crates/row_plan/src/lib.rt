//! Plans: what is made once for a conversion, and converts slices of rows.
//!
//! A plan knows its pair and no size of a frame. `Plan::convert_rows` converts the rows of a slice,
//! whose first row in the whole frame decides the dither, and `Plan::convert_planes` a row that
//! stands in the rows of its planes. `specs/Evaluated` says which pairs have a plan, and
//! `specs/Slices` that a frame is its slices.
#![tactic(auto)]

mod job;
#[cfg(test)]
mod kernel_tests;
pub mod laws;
mod making;
#[cfg(test)]
mod plane_tests;
mod planes;
mod plans;
mod rows;
mod slice;
#[cfg(test)]
mod tests;

pub use job::SliceJob;
pub use kernel_planes::Planes;
pub use making::plan;
pub use plans::Plan;
