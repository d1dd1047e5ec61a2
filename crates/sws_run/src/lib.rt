//! The converter's run, from the words and bytes in to the bytes out.
#![tactic(auto)]

mod convert;
mod converter;
mod ended;
mod format_list;
mod frame;
mod making;
mod notes_line;
mod opening;
mod planning;
mod report;
mod request;
mod run;
mod sides;
mod top;

pub use ended::{Ended, SideName};
pub use frame_slices::{Gate, OpenGate};
pub use top::run_sws;

#[cfg(test)]
mod tests;
