// The line on notes of an ending.
ghost use Rattle.std.specs.Prelude.{◌≡◌, ◌≤◌, ◌+◌, ◌++◌, length, take};
ghost use Rattle.sws_run.specs.NotesLine.{usage_text, format_text, stream_text, side_text};
ghost use Rattle.sws_run.specs.NotesLine.{after_frames, line_of};

use crate::ended::{Ended, SideName};
use desc_table::FormatFault;
use itoa::Buffer;
use sws_words::UsageFault;
use y4m_io::StreamFault;

/// Room for the line of every ending, in bytes.
pub const LINE_ROOM: usize = 128;

// The number and the name of a fault of words.
fn usage_text(fault: UsageFault) -> &'static str
    ensures text { result.now ≡ usage_text fault }
    ensures short { length result.now ≤ 20 }
{
    match fault {
        UsageFault::Words => "1 Words",
        UsageFault::Task => "2 Task",
        UsageFault::Missing => "3 Missing",
        UsageFault::Unwanted => "4 Unwanted",
        UsageFault::Value => "5 Value",
        UsageFault::Size => "6 Size",
        UsageFault::FixedRange => "7 FixedRange",
        UsageFault::RgbRange => "8 RgbRange",
        UsageFault::NotStreamFormat => "9 NotStreamFormat",
    }
}

// The number and the name of a fault of a format's name.
fn format_text(fault: FormatFault) -> &'static str
    ensures text { result.now ≡ format_text fault }
    ensures short { length result.now ≤ 20 }
{
    match fault {
        FormatFault::Unknown => "1 Unknown",
        FormatFault::Subsampled => "2 Subsampled",
        FormatFault::FloatFormat => "3 FloatFormat",
        FormatFault::Bitstream => "4 Bitstream",
        FormatFault::OtherUnsupported => "5 OtherUnsupported",
    }
}

// The number and the name of a fault of a stream.
fn stream_text(fault: StreamFault) -> &'static str
    ensures text { result.now ≡ stream_text fault }
    ensures short { length result.now ≤ 20 }
{
    match fault {
        StreamFault::NoMagic => "1 NoMagic",
        StreamFault::LineTooLong => "2 LineTooLong",
        StreamFault::BadTag => "3 BadTag",
        StreamFault::NoSize => "4 NoSize",
        StreamFault::BadSize => "5 BadSize",
        StreamFault::BadColour => "6 BadColour",
        StreamFault::NoFrameLine => "7 NoFrameLine",
        StreamFault::Truncated => "8 Truncated",
    }
}

// Which name is meant.
fn side_text(side: SideName) -> &'static str
    ensures text { result.now ≡ side_text side }
    ensures short { length result.now ≤ 4 }
{
    match side {
        SideName::In => " in",
        SideName::Out => " out",
    }
}

// Puts a text into the line at a place, and answers the place behind it.
fn put(line: &mut [u8], at: usize, text: &str) -> usize
    requires { at + length text.now ≤ length line.old }
    ensures end { result ≡ at + length text.now }
    ensures put { take result line.new ≡ take at line.old ++ text.now }
{
    let end = at + text.len();
    line[at..end].copy_from_slice(text.as_bytes());
    end
}

// Puts three texts at the front of the line.
fn put_texts(line: &mut [u8], first: &str, second: &str, third: &str) -> usize
    requires { length first.now + length second.now + length third.now ≤ length line.old }
    ensures end { result ≡ length first.now + length second.now + length third.now }
    ensures put { take result line.new ≡ first.now ++ second.now ++ third.now }
{
    let at = put(line, 0, first);
    let at = put(line, at, second);
    put(line, at, third)
}

// Puts the number of frames and the line's end behind a text of at most 40 bytes.
fn put_frames(line: &mut [u8], at: usize, frames: u32) -> usize
    requires room { at ≤ 40 }
    requires line { 128 ≤ length line.old }
    ensures end { result ≤ length line.new }
    ensures put { take result line.new ≡ take at line.old ++ after_frames frames }
{
    let mut buffer = Buffer::new();
    let at = put(line, at, " after ");
    let at = put(line, at, buffer.format(frames));
    put(line, at, " frames\n")
}

// Puts the line of an ending, and answers its length.
#[tactic(auto, unfolding(crate::specs::NotesLine::line_of))]
fn put_line(line: &mut [u8], ended: &Ended) -> usize
    requires { 128 ≤ length line.old }
    ensures end { result ≤ length line.new }
    ensures put { take result line.new ≡ line_of ended.now }
{
    match ended {
        Ended::Done { .. } => 0,
        Ended::Usage(fault) => put_texts(line, "sws: usage ", usage_text(*fault), "\n"),
        Ended::Format { side, fault } => {
            let at = put_texts(line, "sws: format ", format_text(*fault), side_text(*side));
            put(line, at, "\n")
        }
        Ended::PaletteTarget => put(line, 0, "sws: format 6 PaletteTarget out\n"),
        Ended::Stream { fault, frames } => {
            let at = put_texts(line, "sws: stream ", stream_text(*fault), "");
            put_frames(line, at, *frames)
        }
        Ended::ReadFault { frames } => {
            let at = put(line, 0, "sws: read fault");
            put_frames(line, at, *frames)
        }
        Ended::WriteFault { frames } => {
            let at = put(line, 0, "sws: write fault");
            put_frames(line, at, *frames)
        }
        Ended::OutOfMemory { frames } => {
            let at = put(line, 0, "sws: out of memory");
            put_frames(line, at, *frames)
        }
        Ended::TooManyFrames => put(line, 0, "sws: too many frames\n"),
    }
}

/// The line on notes of an ending, with its newline, made in `room`; empty where the run is done.
/// It takes no memory.
pub fn notes_line<'a>(ended: &Ended, room: &'a mut [u8; 128]) -> &'a [u8]
    ensures { result.now ≡ line_of ended.now }
{
    let end = put_line(room, ended);
    &room[..end]
}
