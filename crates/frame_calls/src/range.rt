// The range of a format in plain numbers.
ghost use Rattle.std.specs.Prelude.{◌≡◌};
ghost use Rattle.frame_calls.specs.Conversion.{range_number, range_asked};

use crate::refusal::Refusal;
use colour_matrix::Range;
use desc_table::at;
use y4m_io::default_range;

fn range_number(range: Range) -> u32
    ensures { result ≡ range_number range }
{
    match range {
        Range::Full => 0,
        Range::Limited => 1,
    }
}

/// The range that a format is taken to have where nothing else is said: 1 (limited) for a format
/// of luma and chroma other than yuvj444p, and 0 (full) for any other.
#[tactic(auto, unfolding(crate::specs::Conversion::range_asked))]
pub fn format_range(format: u32) -> Result<u32, Refusal>
    ensures { result ≡ range_asked format }
{
    match at(format as usize) {
        Some(id) => Ok(range_number(default_range(id))),
        None => Err(Refusal::Format),
    }
}
