// A source of bytes that are made up from a seed.
ghost use Rattle.std.specs.Prelude.{◌≡◌, length};
ghost use Rattle.frame_slices.specs.Generated.{generated, state_after};

use pix_io::{Failed, Source};

/// So many bytes made up from a seed, as a linear congruential generator gives them. It never
/// fails.
#[derive(Drop)]
pub struct Generator {
    pub(crate) state: u64,
    pub(crate) left: u64,
}

// Fills bytes, and answers the state after them.
fn fill(seed: u64, bytes: &mut [u8]) -> u64
    ensures bytes { bytes.new ≡ generated seed (length bytes.old) }
    ensures state { result ≡ state_after seed (length bytes.old) }
{
    let mut state = seed;
    for k in 0..bytes.len() {
        state = state
            .wrapping_mul(6_364_136_223_846_793_005)
            .wrapping_add(1_442_695_040_888_963_407);
        bytes[k] = (state >> 56) as u8;
    }
    state
}

impl Generator {
    /// The first `count` bytes from a seed.
    pub fn new(seed: u64, count: u64) -> Self
        ensures state { result.state ≡ seed }
        ensures left { result.left ≡ count }
    {
        Generator {
            state: seed,
            left: count,
        }
    }
}

impl Source for Generator {
    ghost use Rattle.std.specs.Io.{ReadsAtMost};
    ghost use Rattle.std.specs.Io.KnownBytes.{ReadConsumes};
    ghost use Rattle.pix_io.specs.Faults.{HasCause};
    ghost use Rattle.frame_slices.specs.Generated.{generator_shown};

    ghost shown = { λ s. generator_shown s.state s.left };

    fn read(&mut self, buf: &mut [u8]) -> Result<usize, Failed>
        ensures bound { ReadsAtMost result buf.new }
        ensures bytes { ReadConsumes (generator_shown self.old.state self.old.left).bytes
            (generator_shown self.new.state self.new.left).bytes result buf.new }
        ensures cause { HasCause (generator_shown self.old.state self.old.left)
            (generator_shown self.new.state self.new.left) result }
    {
        let count = (buf.len() as u64).min(self.left);
        self.state = fill(self.state, &mut buf[..count as usize]);
        self.left -= count;
        Ok(count as usize)
    }
}
