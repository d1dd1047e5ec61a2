//! The optimiser of lists of operations: passes that each take some operations and give at most one
//! in their place.
#![tactic(auto)]

mod cancel_packing;
mod cancel_swaps;
mod change;
mod drop_dither;
mod drop_idle;
mod edit;
mod entries;
mod expand_bytes;
mod join_maps;
mod join_shifts;
mod join_swizzles;
pub mod laws;
mod normal_list;
mod pass;
mod place;
mod reset_unused;
mod skip_fraction;
#[cfg(test)]
mod tests;
mod trim_clamp;
mod trim_clear;

pub use normal_list::{NormalList, optimise};
