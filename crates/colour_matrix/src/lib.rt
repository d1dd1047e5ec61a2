//! Matrices between luma, chroma and red, green, blue, and the levels of codes, as exact fractions.
//!
//! The equations are those of ITU-T H.273 section 8.3, "Matrix coefficients".
#![tactic(auto)]

mod class;
mod level_table;
mod matrix;
mod ratio;
mod same;
#[cfg(test)]
mod tests;

pub use class::{Class, Levels, Range};
pub use level_table::levels;
pub use matrix::{Matrix, from_rgb, named, to_rgb};
pub use same::{same_matrix, same_range};
