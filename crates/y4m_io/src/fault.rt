// How a read of a header line or of a frame line ends.
ghost use Rattle.std.specs.Prelude.{◌≡◌};
ghost use Rattle.y4m_io.specs.declared.fault.HeaderEnd.TheVariants as end_of_header;

use frac_math::OutOfMemory;

/// What is wrong with the bytes of a stream.
#[derive(Clone, Copy, Debug, PartialEq, Eq)]
pub enum StreamFault {
    /// The stream does not begin with `YUV4MPEG2` and then a space, a newline or the end of the
    /// input.
    NoMagic,
    /// A line has more than 1,024 bytes before its newline.
    LineTooLong,
    /// A tag of the header begins with none of `W`, `H`, `F`, `I`, `A`, `C` and `X`.
    BadTag,
    /// The header has no width or no height.
    NoSize,
    /// The width or the height is not a number of 1 to 16,384, or their product is above
    /// 33,554,432.
    BadSize,
    /// The header has no colour space, or none of the ten that are known.
    BadColour,
    /// A frame does not begin with `FRAME`.
    NoFrameLine,
    /// The input ends inside a line or a frame. The only one that raw input can give.
    Truncated,
}

/// Why a header was not read.
#[derive(Clone, Copy, Debug, PartialEq, Eq)]
pub enum HeaderEnd {
    /// The bytes are no header line.
    Stream(StreamFault),
    /// A read failed.
    ReadFault,
    /// No memory was to be had.
    OutOfMemory,
}

impl From<StreamFault> for HeaderEnd {
    ghost from_gives = { λ fault end. end ≡ end_of_header.Stream fault };

    fn from(fault: StreamFault) -> Self {
        HeaderEnd::Stream(fault)
    }
}

impl From<OutOfMemory> for HeaderEnd {
    ghost from_gives = { λ _ end. end ≡ end_of_header.OutOfMemory };

    fn from(_: OutOfMemory) -> Self {
        HeaderEnd::OutOfMemory
    }
}

/// What stands where a frame may begin.
#[derive(Clone, Copy, Debug, PartialEq, Eq)]
pub enum FrameLine {
    /// A frame line, which was taken.
    Frame,
    /// The end of the input.
    End,
}

/// Why a frame line was not read.
#[derive(Clone, Copy, Debug, PartialEq, Eq)]
pub enum LineEnd {
    /// The bytes are no frame line.
    Stream(StreamFault),
    /// A read failed.
    ReadFault,
}
