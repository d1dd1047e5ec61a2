// A line of the stream, read byte by byte, so that nothing behind its newline is taken.
ghost use Rattle.std.specs.Prelude.{◌≡◌, ◌≤◌, ◌<◌, length, [], IfSome, IfNone, IfOk, IfErr, OnErr};
ghost use Rattle.pix_io.specs.Faults.{HasCause};
ghost use Rattle.pix_io.specs.Streams.{Takes, HasEnded};
ghost use Rattle.y4m_io.specs.Lines.{agrees};
ghost use Rattle.y4m_io.specs.HeaderLine.{is_header_front};
ghost use Rattle.y4m_io.specs.Reading.{line_fault, line_reads, TakesFront, TakesOpen};
ghost use Rattle.y4m_io.specs.LineKinds.{is_front, wrong_word, cut_off, IsNoLine, TakesLine};
ghost use Rattle.y4m_io.specs.LineKinds.{IsLineFault};

use crate::{LineEnd, StreamFault};
use pix_io::Source;

/// The most bytes of a line that are read: one more than a line may have before its newline.
pub(crate) const LINE_SIZE: usize = 1025;

/// What a line stands in front of.
#[derive(Clone, Copy, Debug, PartialEq, Eq)]
pub(crate) enum LineKind {
    /// The stream.
    Header,
    /// A frame.
    Frame,
}

// Whether the bytes are those of the word, as far as both go.
fn agrees(word: &[u8], bytes: &[u8]) -> bool
    ensures { result ≡ agrees word.now bytes.now }
{
    word.iter()
        .zip(bytes)
        .all(|(letter, byte)| *byte == *letter)
}

fn is_header_front(bytes: &[u8]) -> bool
    ensures { result ≡ is_header_front bytes.now }
{
    agrees(b"YUV4MPEG2", bytes) && (bytes.len() <= 9 || bytes[9] == b' ' || bytes[9] == b'\n')
}

// Whether the bytes begin as a line of this kind does, as far as they go.
fn is_front(kind: LineKind, bytes: &[u8]) -> bool
    ensures { result ≡ is_front kind bytes.now }
{
    match kind {
        LineKind::Header => is_header_front(bytes),
        LineKind::Frame => agrees(b"FRAME", bytes),
    }
}

fn wrong_word(kind: LineKind) -> StreamFault
    ensures { result ≡ wrong_word kind }
{
    match kind {
        LineKind::Header => StreamFault::NoMagic,
        LineKind::Frame => StreamFault::NoFrameLine,
    }
}

// What is wrong where the input ends behind so many bytes of the line.
fn cut_off(kind: LineKind, size: usize) -> StreamFault
    ensures { result ≡ cut_off kind size }
{
    if kind == LineKind::Header && size < 9 {
        StreamFault::NoMagic
    } else {
        StreamFault::Truncated
    }
}

// Reads a line of this kind, which then stands at the front of `line` without its newline, and
// answers its size; none where no byte was left. A line that begins wrongly is read no further
// than to the first byte that is wrong. After the end of the input the source is not read again:
// each way out of the loop that follows a read of nothing returns.
pub(crate) fn read_line<In: Source>(
    kind: LineKind,
    input: &mut In,
    line: &mut [u8],
) -> Result<Option<usize>, LineEnd>
    requires { length line.old ≡ LINE_SIZE }
    ensures line { IfOk result (λ size. IfSome size
        (TakesLine kind (In.shown input.old) (In.shown input.new) line.new)) }
    ensures end { IfOk result (λ size. IfNone size
        (Takes (In.shown input.old) (In.shown input.new) [] × HasEnded (In.shown input.new))) }
    ensures fault { IfErr result (λ end. IfSome (line_fault end)
        (λ fault. IfSome (In.shown input.old).bytes (IsNoLine kind fault))) }
    ensures known { IfErr result (λ end. IfSome (line_fault end) (IsLineFault kind)) }
    ensures front { OnErr result (TakesFront (In.shown input.old) (In.shown input.new)) }
    ensures read_fault { OnErr (line_reads result)
        (TakesOpen (In.shown input.old) (In.shown input.new)) }
    ensures cause { HasCause (In.shown input.old) (In.shown input.new) (line_reads result) }
{
    let mut size = 0;
    while size < line.len() {
        let end = size + 1;
        let Ok(count) = input.read(&mut line[size..end]) else {
            return Err(LineEnd::ReadFault);
        };
        if count == 0 {
            return if size == 0 {
                Ok(None)
            } else {
                Err(LineEnd::Stream(cut_off(kind, size)))
            };
        }
        if !is_front(kind, &line[..end]) {
            return Err(LineEnd::Stream(wrong_word(kind)));
        }
        if line[size] == b'\n' {
            return Ok(Some(size));
        }
        size = end;
    }
    Err(LineEnd::Stream(StreamFault::LineTooLong))
}
