// Reads and writes that go on until all is done.
ghost use Rattle.std.specs.Prelude.{◌<◌, length, IfOk, OnOk, OnErr};
ghost use Rattle.pix_io.specs.Faults.{HasCause};
ghost use Rattle.pix_io.specs.Streams.{IsInRange, TakesWhole, TakesPart, Writes, WritesPart};

use crate::{Failed, Sink, Source};

/// How a read of a whole buffer ended.
#[derive(Clone, Copy, Debug, PartialEq, Eq)]
pub enum Got {
    /// The buffer is filled.
    Whole,
    /// The input was at its end before the first byte.
    End,
    /// The input ended after so many bytes, at least one and fewer than the buffer has.
    Short(usize),
}

/// Fills the buffer from the input, as far as the input goes. The bytes taken stand at its front,
/// in their order.
///
/// `Failed` comes only where the input's count of faults rises; fewer bytes than the buffer has
/// were then taken.
pub fn read_whole<In: Source>(input: &mut In, buf: &mut [u8]) -> Result<Got, Failed>
    requires { 0 < length buf.old }
    ensures taken { IfOk result (λ got. TakesWhole (In.shown input.old)
        (In.shown input.new) got buf.new) }
    ensures range { IfOk result (λ got. IsInRange got (length buf.new)) }
    ensures part_taken { OnErr result
        (TakesPart (In.shown input.old) (In.shown input.new) buf.new) }
    ensures cause { HasCause (In.shown input.old) (In.shown input.new) result }
{
    let mut filled = 0;
    while filled < buf.len() {
        let count = input.read(&mut buf[filled..])?;
        if count == 0 {
            return Ok(if filled == 0 {
                Got::End
            } else {
                Got::Short(filled)
            });
        }
        filled += count;
    }
    Ok(Got::Whole)
}

/// Writes the whole piece.
///
/// `Failed` comes only where the output's count of faults rises; a front of the piece, shorter than
/// it, was then written.
pub fn write_all<Out: Sink>(output: &mut Out, piece: &[u8]) -> Result<(), Failed>
    ensures written { OnOk result (Writes (Out.shown output.old) (Out.shown output.new) piece.now) }
    ensures part_written { OnErr result (WritesPart (Out.shown output.old)
        (Out.shown output.new) piece.now) }
    ensures cause { HasCause (Out.shown output.old) (Out.shown output.new) result }
{
    let mut done = 0;
    while done < piece.len() {
        done += output.write(&piece[done..])?;
    }
    Ok(())
}

#[cfg(test)]
mod tests;
