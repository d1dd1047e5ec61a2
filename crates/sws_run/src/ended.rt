// How a run ends.
ghost use Rattle.std.specs.Prelude.{◌≡◌};
ghost use Rattle.sws_run.specs.Ending.{status_of};

use desc_table::FormatFault;
use sws_words::UsageFault;
use y4m_io::StreamFault;

/// Which of the two format names is meant.
#[derive(Clone, Copy, Debug, PartialEq, Eq)]
pub enum SideName {
    /// The source's.
    In,
    /// The target's.
    Out,
}

/// How a run ended. `frames` counts the frames written whole.
#[derive(Clone, Copy, Debug, PartialEq, Eq)]
pub enum Ended {
    /// The input was read to its end, after a whole frame, a header, or nothing of raw form, and
    /// its target frames are written; or the list of formats is.
    Done { frames: u32 },
    /// The words are refused. Nothing is read or written.
    Usage(UsageFault),
    /// A format name is refused, the source's first. Nothing is read or written.
    Format { side: SideName, fault: FormatFault },
    /// The target is a palette format. Nothing is read or written.
    PaletteTarget,
    /// The fault stands in the bytes read; the frames before it are written.
    Stream { fault: StreamFault, frames: u32 },
    /// A read failed; the frames before it are written.
    ReadFault { frames: u32 },
    /// A write failed; a part of the output is written.
    WriteFault { frames: u32 },
    /// No memory was to be had; nothing is written, or the frames before it are.
    OutOfMemory { frames: u32 },
    /// A byte follows 1,000,000 whole frames, which are written.
    TooManyFrames,
}

impl Ended {
    /// The exit status of the program.
    pub fn status(&self) -> u8
        ensures { result ≡ status_of self.now }
    {
        match self {
            Ended::Done { .. } => 0,
            Ended::Usage(_) => 2,
            Ended::Format { .. } | Ended::PaletteTarget => 3,
            Ended::Stream { .. } => 4,
            Ended::ReadFault { .. } => 5,
            Ended::WriteFault { .. } => 6,
            Ended::OutOfMemory { .. } => 7,
            Ended::TooManyFrames => 9,
        }
    }
}
