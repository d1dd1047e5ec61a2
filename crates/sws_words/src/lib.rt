//! The words of the command line: the task that they ask for, or the first rule that they break.
#![tactic(auto)]

mod fault;
mod given;
pub mod laws;
mod options;
mod rules;
mod task;
#[cfg(test)]
mod tests;
mod values;
mod words;

pub use fault::{UsageFault, WordsEnd};
pub use task::{Convert, Form, Generate, Named, Sides, Task};
pub use words::read_words;
