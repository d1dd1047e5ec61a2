//! The pixel formats that are known by name, after FFmpeg's libavutil/pixdesc.c, and the names that
//! are refused.
#![tactic(auto)]

mod fault;
mod id;
pub mod laws;
mod refused;
mod table;
#[cfg(test)]
mod tests;

pub use fault::FormatFault;
pub use id::{FormatId, at, count, desc, find, index, name};
