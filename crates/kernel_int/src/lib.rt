//! Row kernels: a list of operations on a row of pixels, in blocks of 64 pixels, and without blocks
//! where it only moves values.
#![tactic(auto)]

mod block;
mod build;
mod cut;
mod kernel;
mod moves;
mod row;
#[cfg(test)]
mod tests;

pub use build::compile;
pub use kernel::RowKernel;
