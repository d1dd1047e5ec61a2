//! What is known of a list of operations at every pixel.
//!
//! `ranges` tells the bounds of the values after each operation, and which of them may still change
//! what is written; `fits` and `width_fault` tell how large the numbers are where the fractions are
//! held over one denominator.
#![tactic(auto)]

mod capped;
mod fractions;
pub mod laws;
mod numbers;
mod range;
mod state;
#[cfg(test)]
mod tests;
mod used;
mod walk;
mod width;

pub use numbers::is_at_most;
pub use range::{Ranges, ValueRange};
pub use state::{CompRange, StateRange, ranges};
pub use used::{Used, used_before, used_from};
pub use walk::{ranges_after, start_ranges};
pub use width::{Width, fits, whole_width, width_after, width_fault};
