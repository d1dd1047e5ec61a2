//! Where a conversion reads its bytes and writes them, and where the rows of a raw frame lie.
#![tactic(auto)]

mod frame;
mod mem_sink;
mod mem_source;
mod std_streams;
mod stream;
mod transfer;

pub use frame::{frame_len, row_start};
pub use mem_sink::MemSink;
pub use mem_source::MemSource;
pub use std_streams::{ReadSource, WriteSink};
pub use stream::{Failed, Sink, Source};
pub use transfer::{Got, read_whole, write_all};
