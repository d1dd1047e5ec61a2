//! What a conversion of a frame between two pixel formats means, in exact fractions.
//!
//! The definitions are to be read in the order of `specs/Pairs`, `specs/Values` and `specs/Target`;
//! `specs/Examples` has conversions byte by byte.
#![tactic(auto)]

mod channel;
pub mod laws;
mod pair;
mod same;
mod side_levels;
#[cfg(test)]
mod tests;
mod valid;

pub use channel::{channel_depth, channel_of, component_at, depth_of, has_channel, is_rgb};
pub use pair::{Pair, Side};
pub use same::same_pair;
pub use side_levels::channel_levels;
pub use valid::pair_valid;
