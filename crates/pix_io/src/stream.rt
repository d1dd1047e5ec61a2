// What bytes come from, and what they go to.
ghost use Rattle.std.specs.Io.{ReadsAtMost, WritesAtMost};
ghost use Rattle.std.specs.Io.KnownBytes.{ReadConsumes, WriteAppends};
ghost use Rattle.pix_io.specs.Shown.{Shown};
ghost use Rattle.pix_io.specs.Faults.{HasCause};
ghost use Rattle.pix_io.specs.Streams.{TakesSome};

/// A fault: a read or a write that the outside refused.
#[derive(Clone, Copy, Debug, PartialEq, Eq)]
pub struct Failed;

/// Where bytes come from.
pub trait Source {
    /// The bytes left, where they are told; how many reads failed, which never falls and stays at
    /// `u64::MAX`; and what it was made with, which no read changes.
    ghost shown: { Self → Shown };

    /// Reads some bytes, which then stand at the front of `buf`, and answers how many. `Ok(0)` for
    /// a `buf` that is not empty is the end of the input. `Failed` comes only where the count of
    /// faults rises, and takes no byte.
    fn read(&mut self, buf: &mut [u8]) -> Result<usize, Failed>
        ensures bound { ReadsAtMost result buf.new }
        ensures bytes { ReadConsumes (shown self.old).bytes (shown self.new).bytes result buf.new }
        ensures cause { HasCause (shown self.old) (shown self.new) result };
}

/// Where bytes go.
pub trait Sink {
    /// The bytes written, where they are told; how many writes failed, which never falls and stays
    /// at `u64::MAX`; and what it was made with, which no write changes.
    ghost shown: { Self → Shown };

    /// Writes a front of `piece`, and answers how many bytes: at least one of a `piece` that is not
    /// empty. `Failed` comes only where the count of faults rises, and writes no byte.
    fn write(&mut self, piece: &[u8]) -> Result<usize, Failed>
        ensures bound { WritesAtMost result piece.now }
        ensures some { TakesSome result piece.now }
        ensures bytes { WriteAppends (shown self.old).bytes
            (shown self.new).bytes result piece.now }
        ensures cause { HasCause (shown self.old) (shown self.new) result };
}
