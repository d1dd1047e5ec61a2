// The line in front of a frame.
ghost use Rattle.std.specs.Prelude.{◌≡◌, [], Ok, IfSome, IfErr, OnErr};
ghost use Rattle.pix_io.specs.Faults.{HasCause};
ghost use Rattle.pix_io.specs.Streams.{Takes, HasEnded};
ghost use Rattle.y4m_io.specs.FrameLine.{IsFrameLineFault};
ghost use Rattle.y4m_io.specs.Reading.{line_fault, line_reads, TakesFront, TakesOpen};
ghost use Rattle.y4m_io.specs.Reading.{TakesFrameLine, IsNoFrameLine};

use crate::line::{LINE_SIZE, LineKind, read_line};
use crate::{FrameLine, LineEnd};
use pix_io::Source;

/// Reads the line in front of a frame. Where it answers `Frame`, exactly the line is taken, its
/// newline with it; `End` comes exactly where no byte is left; else a front of the bytes that
/// were left is taken, which after a failed read does not have the line's newline.
///
/// What is wrong is found in this order: `NoFrameLine`, `LineTooLong`, `Truncated`. A line that
/// begins wrongly is read to its first wrong byte. `ReadFault` comes only where the input's count
/// of faults rises. No memory is taken. The input is not read again after its end.
pub fn read_frame_line<In: Source>(input: &mut In) -> Result<FrameLine, LineEnd>
    ensures line { result ≡ Ok FrameLine.Frame
        → TakesFrameLine (In.shown input.old) (In.shown input.new) }
    ensures end { result ≡ Ok FrameLine.End
        → Takes (In.shown input.old) (In.shown input.new) [] × HasEnded (In.shown input.new) }
    ensures fault { IfErr result (λ end. IfSome (line_fault end)
        (IsNoFrameLine (In.shown input.old))) }
    ensures known { IfErr result (λ end. IfSome (line_fault end) IsFrameLineFault) }
    ensures front { OnErr result (TakesFront (In.shown input.old) (In.shown input.new)) }
    ensures read_fault { OnErr (line_reads result)
        (TakesOpen (In.shown input.old) (In.shown input.new)) }
    ensures cause { HasCause (In.shown input.old) (In.shown input.new) (line_reads result) }
{
    let mut line = [0; LINE_SIZE];
    match read_line(LineKind::Frame, input, &mut line) {
        Ok(Some(_)) => Ok(FrameLine::Frame),
        Ok(None) => Ok(FrameLine::End),
        Err(end) => Err(end),
    }
}
