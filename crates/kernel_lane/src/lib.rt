//! Small loops over rows of numbers, many elements at a time, each equal to its plain rule: byte
//! orders, shifts, picks, widths, products, quotients and limits. None takes memory.
#![tactic(auto)]

mod blocks;
mod bytes;
mod combine;
mod elements;
mod lanes;
mod numerators;
mod pairs;
mod parts;
mod permute;
mod picks;
mod px;
mod rule;
mod shifts;
mod sixteen;
#[cfg(test)]
mod tests;
mod triples;
mod widths;

pub use blocks::{join_pixels, split_pixels};
pub use bytes::{swap_u16, swap_u32};
pub use combine::combine_part;
pub use elements::{Element, move_elements, put_elements, take_elements};
pub use lanes::{change_part, merge_few, merge_part};
pub use numerators::{clamp, floor_div, mul_add};
pub use parts::{change_front, fill_between, fill_part, merge_front, merge_within};
pub use permute::permute_pixels;
pub use picks::pick;
pub use px::Px;
pub use rule::{Change, Combine, Merge};
pub use shifts::{shift_left, shift_right};
pub use widths::{expand, narrow, widen};
