// The header line that is written.
ghost use Rattle.std.specs.Prelude.{◌≡◌, ◌++◌, [], true, IfOk, OnOk, unwrap_or};
ghost use Rattle.y4m_io.specs.StreamFormats.{text_of_format, is_stream_format};
ghost use Rattle.y4m_io.specs.DefaultRange.{default_range};
ghost use Rattle.y4m_io.specs.HeaderText.{range_text, header_text};

use crate::range::default_range;
use crate::stream_format::text_of_format;
use crate::{Header, TagText};
use colour_matrix::Range;
use desc_table::FormatId;
use frac_math::OutOfMemory;
use itoa::Buffer;
use std::alloc::Global;

// The most bytes of a header line without its copied texts.
const FIXED_SIZE: usize = 100;

// A tag's text, or another where the tag is not there.
fn text_or<'a>(text: &'a Option<TagText>, other: &'a [u8]) -> &'a [u8]
    ensures { result.now ≡ unwrap_or text.now other.now }
{
    match text {
        Some(text) => text.bytes(),
        None => other,
    }
}

fn range_text(range: Range) -> &'static [u8]
    ensures { result.now ≡ range_text range }
{
    match range {
        Range::Full => b"FULL",
        Range::Limited => b"LIMITED",
    }
}

// The text of the C tag of a format, or none.
fn colour_text(format: FormatId) -> &'static [u8]
    ensures { result.now ≡ unwrap_or (text_of_format format) [] }
{
    match text_of_format(format) {
        Some(text) => text.as_bytes(),
        None => b"",
    }
}

// The range that the header's tag is to say.
fn range_of(header: &Header) -> Range
    ensures { result ≡ unwrap_or header.now.range (default_range header.now.format) }
{
    match header.range {
        Some(range) => range,
        None => default_range(header.format),
    }
}

// Appends a tag's name and its text.
fn append(text: &mut Vec<u8>, name: &[u8], value: &[u8]) -> Result<(), OutOfMemory>
    ensures { OnOk result (text.new.items ≡ text.old.items ++ name.now ++ value.now) }
{
    text.extend_from_slice(name)?;
    text.extend_from_slice(value)?;
    Ok(())
}

/// The line of a header, with its newline. A text that is not there is written as 25:1, p or 0:0,
/// and a range that is not there as the format's default. Its memory is taken at once.
pub fn header_text(alloc: Global, header: &Header) -> Result<Vec<u8>, OutOfMemory>
    requires { is_stream_format header.now.format ≡ true }
    ensures { IfOk result (λ text. text.items ≡ header_text header.now) }
{
    let rate = text_or(&header.rate, b"25:1");
    let interlace = text_or(&header.interlace, b"p");
    let aspect = text_or(&header.aspect, b"0:0");
    let size = FIXED_SIZE
        .saturating_add(rate.len())
        .saturating_add(interlace.len())
        .saturating_add(aspect.len());
    let mut width = Buffer::new();
    let mut height = Buffer::new();
    let mut text = Vec::with_capacity(alloc, size)?;
    append(
        &mut text,
        b"YUV4MPEG2 W",
        width.format(header.width).as_bytes(),
    )?;
    append(&mut text, b" H", height.format(header.height).as_bytes())?;
    append(&mut text, b" F", rate)?;
    append(&mut text, b" I", interlace)?;
    append(&mut text, b" A", aspect)?;
    append(&mut text, b" C", colour_text(header.format))?;
    append(&mut text, b" XCOLORRANGE=", range_text(range_of(header)))?;
    text.push(b'\n')?;
    Ok(text)
}
