// A source in memory.
ghost use Rattle.std.specs.Prelude.{◌≡◌, [], ◌≤◌, vec_len};

use crate::{Failed, Source};

/// A source that gives the bytes of a `Vec`, at most `piece` of them a read. It fails at the reads
/// that it is told, so that a caller's faults can be tried.
#[derive(Drop)]
pub struct MemSource {
    bytes: Vec<u8>,
    at: usize,
    piece: usize,
    fails: Vec<u64>,
    calls: u64,
    faults: u64,
    ghost within: { at ≤ vec_len bytes },
    ghost gives: { 1 ≤ piece },
    ghost quiet: { fails.items ≡ [] → faults ≡ 0 },
}

impl MemSource {
    ghost use Rattle.pix_io.specs.Memory.{bytes_left, most_read, read_count, read_faults};
    ghost use Rattle.pix_io.specs.Memory.{failing_reads};

    /// A source of these bytes. The reads whose numbers, from 0, are in `fails` answer `Failed`.
    pub fn new(bytes: Vec<u8>, piece: usize, fails: Vec<u64>) -> Self
        requires { 1 ≤ piece }
        ensures left { bytes_left result ≡ bytes.items }
        ensures piece { most_read result ≡ piece }
        ensures fails { failing_reads result ≡ fails.items }
        ensures count { read_count result ≡ 0 }
        ensures faults { read_faults result ≡ 0 }
    {
        MemSource {
            bytes,
            at: 0,
            piece,
            fails,
            calls: 0,
            faults: 0,
        }
    }

    /// How many reads failed: none where it was told of none.
    pub fn faults(&self) -> u64
        ensures faults { result ≡ read_faults self.now }
        ensures quiet { failing_reads self.now ≡ [] → result ≡ 0 }
    {
        self.faults
    }
}

impl Source for MemSource {
    ghost use Rattle.std.specs.Prelude.{◌≡◌, ◌↔◌, ◌+◌, ◌^◌, ◌-◌, min, length, IsErr, IfOk, OnErr};
    ghost use Rattle.std.specs.Prelude.{Contains};
    ghost use Rattle.std.specs.Io.{ReadsAtMost};
    ghost use Rattle.std.specs.Io.KnownBytes.{ReadConsumes};
    ghost use Rattle.pix_io.specs.Faults.{HasCause};
    ghost use Rattle.pix_io.specs.Memory.{bytes_left, most_read, read_count, read_faults};
    ghost use Rattle.pix_io.specs.Memory.{failing_reads, source_shown};

    ghost shown = { λ s. source_shown s };

    fn read(&mut self, buf: &mut [u8]) -> Result<usize, Failed>
        ensures bound { ReadsAtMost result buf.new }
        ensures bytes { ReadConsumes (source_shown self.old).bytes
            (source_shown self.new).bytes result buf.new }
        ensures cause { HasCause (source_shown self.old) (source_shown self.new) result }

        ensures size { IfOk result (λ n. n ≡ min (min (most_read self.old) (length buf.new))
            (length (bytes_left self.old))) }
        ensures piece { most_read self.new ≡ most_read self.old }
        ensures failed { IsErr result ↔ Contains (failing_reads self.old) (read_count self.old) }
        ensures raised { OnErr result (read_faults self.new ≡ min (read_faults self.old + 1)
            (2 ^ 64 - 1)) }
        ensures count { read_count self.new ≡ min (read_count self.old + 1) (2 ^ 64 - 1) }
    {
        let call = self.calls;
        self.calls = call.saturating_add(1);
        if self.fails.contains(&call) {
            self.faults = self.faults.saturating_add(1);
            return Err(Failed);
        }
        let rest = &self.bytes[self.at..];
        let count = self.piece.min(buf.len()).min(rest.len());
        buf[..count].copy_from_slice(&rest[..count]);
        self.at += count;
        Ok(count)
    }
}
