// The range of a format.
ghost use Rattle.std.specs.Prelude.{◌≡◌};
ghost use Rattle.y4m_io.specs.DefaultRange.{has_chroma, default_range};

use colour_matrix::Range;
use desc_table::{FormatId, desc, name};
use pix_desc::Desc;

// Whether a format has luma and chroma.
fn has_chroma(desc: &Desc) -> bool
    ensures { result ≡ has_chroma desc.now }
{
    !desc.rgb && 3 <= desc.count
}

/// The range that a format is taken to have: limited for a format of luma and chroma other than
/// yuvj444p, and full for any other (libavutil/pixfmt.h).
pub fn default_range(id: FormatId) -> Range
    ensures { result ≡ default_range id }
{
    if has_chroma(&desc(id)) && name(id) != "yuvj444p" {
        Range::Limited
    } else {
        Range::Full
    }
}
