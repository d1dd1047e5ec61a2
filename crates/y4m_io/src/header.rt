// What a header line says.
ghost use Rattle.std.specs.Prelude.{◌≡◌, List, ℕ};

use colour_matrix::Range;
use desc_table::FormatId;
use frac_math::OutOfMemory;
use std::alloc::Global;
use std::marker::Model;

/// The text of a tag behind its letter, copied from a header. In a clause it is its bytes.
#[derive(Debug, Drop)]
pub struct TagText {
    bytes: Vec<u8>,
}

impl Model for TagText {
    ghost Value = { List ℕ };

    ghost view = { λ text. text.bytes.items };
}

impl TagText {
    ghost use Rattle.std.specs.Prelude.{IfOk};

    /// A copy of these bytes.
    pub(crate) fn new(alloc: Global, text: &[u8]) -> Result<Self, OutOfMemory>
        ensures { IfOk result (λ copy. copy ≡ text.now) }
    {
        let mut bytes = Vec::with_capacity(alloc, text.len())?;
        bytes.extend_from_slice(text)?;
        Ok(TagText { bytes })
    }

    /// The bytes of the text.
    pub fn bytes(&self) -> &[u8]
        ensures { result.now ≡ self.now }
    {
        self.bytes.as_slice()
    }
}

/// What a header line says. What is `None` has no tag.
#[derive(Debug, Drop)]
pub struct Header {
    /// In pixels, 1 to 16,384.
    pub width: u32,
    /// In pixels, 1 to 16,384; the frame has at most 33,554,432.
    pub height: u32,
    /// One of the formats that a C tag names.
    pub format: FormatId,
    /// The last of the tags `XCOLORRANGE=FULL` and `XCOLORRANGE=LIMITED`.
    pub range: Option<Range>,
    /// The frame rate: the text of the last F tag.
    pub rate: Option<TagText>,
    /// The interlacing: the text of the last I tag.
    pub interlace: Option<TagText>,
    /// The sample aspect ratio: the text of the last A tag.
    pub aspect: Option<TagText>,
}
