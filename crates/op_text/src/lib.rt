//! The text of a list of operations, a line for each.
#![tactic(auto)]

mod line;
mod parts;
mod text;

pub use text::print;

#[cfg(test)]
mod tests;
