//! The header line and the frame lines of a YUV4MPEG2 stream, read and written.
//!
//! The grammar is in `specs/`, to be read in the order of `Lines`, `Tags`, `StreamFormats`,
//! `HeaderLine`, `FrameLine` and `HeaderText`; `specs/Examples` has lines byte by byte.
#![tactic(auto)]

mod fault;
mod frame_line;
mod header;
mod header_line;
pub mod laws;
mod line;
mod range;
mod size;
mod stream_format;
mod tags;
mod text;

pub use fault::{FrameLine, HeaderEnd, LineEnd, StreamFault};
pub use frame_line::read_frame_line;
pub use header::{Header, TagText};
pub use header_line::read_header;
pub use range::default_range;
pub use stream_format::is_stream_format;
pub use text::header_text;

#[cfg(test)]
mod tests;
