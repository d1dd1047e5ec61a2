//! A frame held as slices of its rows: read, converted and written without a whole frame beside
//! them.
//!
//! `specs/FrameSlices` says what slices hold and the frames that they make. `SlicedFrame` reads a
//! source frame straight into its slices, and any number of workers convert them, who claim them on
//! a board one after the other; a slice is handed to the worker that claimed it as soon as its rows
//! of the last plane are read, while those of others are still to come. The target frame is written
//! straight from the slices.
#![tactic(auto)]

mod awaited;
mod converting;
mod cutting;
mod feeding;
mod frame_slice;
mod gate;
mod gathering;
mod generator;
mod handed;
#[cfg(test)]
mod sides;
mod sliced_frame;
mod slices;
mod sums;
mod unfinished;
mod waiting;
mod workers;

pub use frame_slice::{FrameSlice, Place};
pub use gate::{Gate, OpenGate};
pub use generator::Generator;
pub use sliced_frame::SlicedFrame;
pub use unfinished::Unfinished;
pub use workers::{Task, run_workers};
