//! A board of jobs that workers claim one after the other by one atomic step each, with no lock,
//! and get back in order, each done.
#![tactic(auto)]

mod board;
mod hand;
mod held;
pub mod laws;
mod room;
mod rule;
#[cfg(test)]
mod tests;
mod view;
mod work;

pub use board::Board;
pub use hand::Hand;
pub use held::Held;
pub use work::Work;
