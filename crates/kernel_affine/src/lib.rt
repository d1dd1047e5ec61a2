//! Whole numbers, a matrix, rounding and limits in one loop for each value.
#![tactic(auto)]

mod chain;
mod limits;
mod products;
mod steps;
#[cfg(test)]
mod tests;
mod value;
mod wide;

pub use chain::{Chain, Placed, find_chain};
pub use products::Products;
pub use steps::chain_steps;
