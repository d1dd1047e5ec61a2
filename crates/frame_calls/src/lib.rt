//! Conversions of rows for callers that promise nothing: every number and every length is tested,
//! and each call answers what `specs/` says for every one that may come.
#![tactic(auto)]

mod conversion;
mod names;
mod planes;
mod range;
mod refusal;
mod rows;

pub use conversion::{Conversion, ConversionSide, pair_of};
pub use names::{format_named, matrix_named, write_name};
pub use planes::convert_planes;
pub use range::format_range;
pub use refusal::Refusal;
pub use rows::{Rows, convert, convert_by, crosses_threads, frame_bytes, plan_of};
