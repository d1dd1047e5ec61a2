// A sink in memory.
ghost use Rattle.std.specs.Prelude.{◌≡◌, [], ◌≤◌, ◌<◌, vec_len, vec_capacity};

use crate::{Failed, Sink};
use frac_math::OutOfMemory;
use std::alloc::Global;

/// A sink that keeps what is written, up to a number of bytes, and takes at most `piece` of them a
/// write. It fails where it is full and at the writes that it is told, so that a caller's faults
/// can be tried.
#[derive(Drop)]
pub struct MemSink {
    bytes: Vec<u8>,
    room: usize,
    piece: usize,
    fails: Vec<u64>,
    calls: u64,
    faults: u64,
    ghost within: { vec_len bytes ≤ room },
    ghost reserved: { room ≤ vec_capacity bytes },
    ghost takes: { 1 ≤ piece },
    ghost quiet: { fails.items ≡ [] → vec_len bytes < room → faults ≡ 0 },
}

impl MemSink {
    ghost use Rattle.std.specs.Prelude.{IfOk, length};
    ghost use Rattle.pix_io.specs.Memory.{bytes_written, room_of, most_written, write_count};
    ghost use Rattle.pix_io.specs.Memory.{write_faults, failing_writes};

    /// A sink with room for `room` bytes, whose memory is taken here. The writes whose numbers,
    /// from 0, are in `fails` answer `Failed`.
    pub fn new(
        alloc: Global,
        room: usize,
        piece: usize,
        fails: Vec<u64>,
    ) -> Result<Self, OutOfMemory>
        requires { 1 ≤ piece }
        ensures written { IfOk result (λ s. bytes_written s ≡ []) }
        ensures room { IfOk result (λ s. room_of s ≡ room) }
        ensures piece { IfOk result (λ s. most_written s ≡ piece) }
        ensures fails { IfOk result (λ s. failing_writes s ≡ fails.items) }
        ensures count { IfOk result (λ s. write_count s ≡ 0) }
        ensures faults { IfOk result (λ s. write_faults s ≡ 0) }
    {
        Ok(MemSink {
            bytes: Vec::with_capacity(alloc, room)?,
            room,
            piece,
            fails,
            calls: 0,
            faults: 0,
        })
    }

    /// What was written.
    pub fn bytes(&self) -> &[u8]
        ensures { result.now ≡ bytes_written self.now }
    {
        &self.bytes
    }

    /// How many writes failed: none where it was told of none and is not full.
    pub fn faults(&self) -> u64
        ensures faults { result ≡ write_faults self.now }
        ensures quiet { failing_writes self.now ≡ []
            → length (bytes_written self.now) < room_of self.now
            → result ≡ 0 }
    {
        self.faults
    }
}

impl Sink for MemSink {
    ghost use Rattle.std.specs.Prelude.{◌≡◌, ◌<◌, ◌↔◌, ◌⊎◌, ◌+◌, ◌^◌, ◌-◌, min, length, IsErr};
    ghost use Rattle.std.specs.Prelude.{IfOk, OnErr, Contains};
    ghost use Rattle.std.specs.Io.{WritesAtMost};
    ghost use Rattle.std.specs.Io.KnownBytes.{WriteAppends};
    ghost use Rattle.pix_io.specs.Faults.{HasCause};
    ghost use Rattle.pix_io.specs.Streams.{TakesSome};
    ghost use Rattle.pix_io.specs.Memory.{bytes_written, room_of, most_written, write_count};
    ghost use Rattle.pix_io.specs.Memory.{write_faults, failing_writes, sink_shown};

    ghost shown = { λ s. sink_shown s };

    fn write(&mut self, piece: &[u8]) -> Result<usize, Failed>
        ensures bound { WritesAtMost result piece.now }
        ensures some { TakesSome result piece.now }
        ensures bytes { WriteAppends (sink_shown self.old).bytes
            (sink_shown self.new).bytes result piece.now }
        ensures cause { HasCause (sink_shown self.old) (sink_shown self.new) result }

        ensures size { IfOk result (λ n. n ≡ min (min (most_written self.old) (length piece.now))
            (room_of self.old - length (bytes_written self.old))) }
        ensures piece { most_written self.new ≡ most_written self.old }
        ensures failed { IsErr result ↔ Contains (failing_writes self.old) (write_count self.old) ⊎
            ((0 < length piece.now) × (length (bytes_written self.old) ≡ room_of self.old)) }
        ensures raised { OnErr result (write_faults self.new ≡ min (write_faults self.old + 1)
            (2 ^ 64 - 1)) }
        ensures count { write_count self.new ≡ min (write_count self.old + 1) (2 ^ 64 - 1) }
    {
        let call = self.calls;
        self.calls = call.saturating_add(1);
        let free = self.room - self.bytes.len();
        if self.fails.contains(&call) {
            self.faults = self.faults.saturating_add(1);
            return Err(Failed);
        }
        if free == 0 && !piece.is_empty() {
            self.faults = self.faults.saturating_add(1);
            return Err(Failed);
        }
        let count = self.piece.min(piece.len()).min(free);
        self.bytes.extend_from_slice(&piece[..count]).unwrap();
        Ok(count)
    }
}
