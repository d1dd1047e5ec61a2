// Sources and sinks over the readers and writers of std.
ghost use Rattle.std.specs.Prelude.{◌≡◌, []};

use crate::{Failed, Sink, Source};
use std::io::{Read, Write};

/// A reader as a source. Its bytes are told where the reader tells them.
#[derive(Drop)]
pub struct ReadSource<R: Read> {
    inner: R,
    faults: u64,
}

impl<R: Read> ReadSource<R> {
    /// A source over this reader, with no fault so far.
    pub fn new(inner: R) -> Self
        ensures shown { ⟦<ReadSource<R> as Source>⟧.shown result
            ≡ record { bytes = R.remaining inner; faults = 0; made_with = [] } }
    {
        ReadSource { inner, faults: 0 }
    }
}

impl<R: Read> Source for ReadSource<R> {
    ghost shown = { λ s. record {
      bytes = R.remaining s.inner;
      faults = s.faults;
      made_with =
          [];
    } };

    fn read(&mut self, buf: &mut [u8]) -> Result<usize, Failed> {
        match self.inner.read(buf) {
            Ok(count) => Ok(count),
            Err(_) => {
                self.faults = self.faults.saturating_add(1);
                Err(Failed)
            }
        }
    }
}

/// A writer as a sink. A write that takes nothing of a piece that is not empty is a fault. The
/// bytes written are told where the writer tells them.
#[derive(Drop)]
pub struct WriteSink<W: Write> {
    inner: W,
    faults: u64,
}

impl<W: Write> WriteSink<W> {
    /// A sink over this writer, with no fault so far.
    pub fn new(inner: W) -> Self
        ensures shown { ⟦<WriteSink<W> as Sink>⟧.shown result
            ≡ record { bytes = W.contents inner; faults = 0; made_with = [] } }
    {
        WriteSink { inner, faults: 0 }
    }
}

impl<W: Write> Sink for WriteSink<W> {
    ghost shown = { λ s. record { bytes = W.contents s.inner; faults = s.faults; made_with = [] } };

    fn write(&mut self, piece: &[u8]) -> Result<usize, Failed> {
        match self.inner.write(piece) {
            Ok(count) if count > 0 || piece.is_empty() => Ok(count),
            _ => {
                self.faults = self.faults.saturating_add(1);
                Err(Failed)
            }
        }
    }
}

#[cfg(test)]
mod tests;
