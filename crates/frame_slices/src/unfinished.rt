// Why a frame was not converted.
ghost use Rattle.std.specs.Prelude.{◌≡◌, ◌+◌, ◌<◌, ◌^◌};

use pix_io::Failed;

/// Why no frame was converted. The frame is then gone.
#[derive(Clone, Copy, Debug, PartialEq, Eq)]
pub enum Unfinished {
    /// The input was at its end.
    End,
    /// The input ended after so many bytes of the frame.
    Short(usize),
    /// A read failed.
    Failed(Failed),
    /// Memory was refused.
    OutOfMemory,
}
