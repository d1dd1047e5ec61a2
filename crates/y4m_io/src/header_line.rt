// A header line: its tags, and what they say.
ghost use Rattle.std.specs.Prelude.{◌≡◌, option_copied, Ok, Err, IfSome, IfOk, IfErr, OnErr};
ghost use Rattle.pix_io.specs.Faults.{HasCause};
ghost use Rattle.y4m_io.specs.Tags.{tags_in};
ghost use Rattle.y4m_io.specs.HeaderLine.{colour_of, header_of, IsHeaderFault, IsSoundHeader};
ghost use Rattle.y4m_io.specs.Reading.{header_fault, header_reads, TakesFront, TakesOpen};
ghost use Rattle.y4m_io.specs.Reading.{TakesHeader, IsNoHeader};

use crate::line::{LINE_SIZE, LineKind, read_line};
use crate::size::size;
use crate::stream_format::format_of_text;
use crate::tags::{are_known, last_range, last_text};
use crate::{Header, HeaderEnd, LineEnd, StreamFault, TagText};
use desc_table::FormatId;
use frac_math::OutOfMemory;
use pix_io::Source;
use std::alloc::Global;

// The format of a C tag's text.
fn colour(text: Option<&[u8]>) -> Result<FormatId, StreamFault>
    ensures { result ≡ colour_of (option_copied text.entry) }
{
    match text {
        Some(text) => format_of_text(text).ok_or(StreamFault::BadColour),
        None => Err(StreamFault::BadColour),
    }
}

// A copy of a tag's text.
fn copied(alloc: Global, text: Option<&[u8]>) -> Result<Option<TagText>, OutOfMemory>
    ensures { IfOk result (λ copy. copy ≡ option_copied text.entry) }
{
    match text {
        Some(text) => Ok(Some(TagText::new(alloc, text)?)),
        None => Ok(None),
    }
}

// What the tags of a header line say. The line's first word is left out.
fn header_of(alloc: Global, tags: &[u8]) -> Result<Header, HeaderEnd>
    ensures header { IfOk result (λ header. header_of (tags_in tags.now) ≡ Ok header) }
    ensures fault { IfErr result (λ end. IfSome (header_fault end)
        (λ fault. header_of (tags_in tags.now) ≡ Err fault)) }
    ensures reads { header_reads result ≡ Ok tt }
{
    if !are_known(tags) {
        return Err(HeaderEnd::Stream(StreamFault::BadTag));
    }
    let (width, height) = size(last_text(tags, b'W'), last_text(tags, b'H'))?;
    let format = colour(last_text(tags, b'C'))?;
    Ok(Header {
        width,
        height,
        format,
        range: last_range(tags),
        rate: copied(alloc, last_text(tags, b'F'))?,
        interlace: copied(alloc, last_text(tags, b'I'))?,
        aspect: copied(alloc, last_text(tags, b'A'))?,
    })
}

/// Reads the header of a stream. Where it answers a header, exactly the header's line is taken,
/// its newline with it; else a front of the bytes that were left, which after a failed read does
/// not have the line's newline.
///
/// What is wrong is found in this order: `NoMagic`, `LineTooLong`, `Truncated`, `BadTag`,
/// `NoSize`, `BadSize`, `BadColour`. A line that begins wrongly is read to its first wrong byte.
/// `ReadFault` comes only where the input's count of faults rises. Only the texts of the header
/// take memory. The input is not read again after its end.
pub fn read_header<In: Source>(alloc: Global, input: &mut In) -> Result<Header, HeaderEnd>
    ensures header { IfOk result (TakesHeader (In.shown input.old) (In.shown input.new)) }
    ensures sound { IfOk result IsSoundHeader }
    ensures fault { IfErr result (λ end. IfSome (header_fault end)
        (IsNoHeader (In.shown input.old))) }
    ensures known { IfErr result (λ end. IfSome (header_fault end) IsHeaderFault) }
    ensures front { OnErr result (TakesFront (In.shown input.old) (In.shown input.new)) }
    ensures read_fault { OnErr (header_reads result)
        (TakesOpen (In.shown input.old) (In.shown input.new)) }
    ensures cause { HasCause (In.shown input.old) (In.shown input.new) (header_reads result) }
{
    let mut line = [0; LINE_SIZE];
    match read_line(LineKind::Header, input, &mut line) {
        Ok(Some(size)) => header_of(alloc, &line[9..size]),
        Ok(None) => Err(HeaderEnd::Stream(StreamFault::NoMagic)),
        Err(LineEnd::Stream(fault)) => Err(HeaderEnd::Stream(fault)),
        Err(LineEnd::ReadFault) => Err(HeaderEnd::ReadFault),
    }
}
