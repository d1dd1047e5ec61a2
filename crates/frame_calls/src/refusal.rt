// Why a call is refused.

/// Why a call is refused: the first of these that applies, but for `OutOfMemory`, which comes last.
#[derive(Clone, Copy, Debug, PartialEq, Eq)]
pub enum Refusal {
    /// A format is no row of the table.
    Format,
    /// The target is a palette format, which is a source only.
    PaletteTarget,
    /// A matrix is none of the five that have names.
    Matrix,
    /// A range is neither 0 nor 1.
    Range,
    /// The dither is above 4.
    Dither,
    /// Width or rows are not 1 to 16384, or the number of the row behind the last leaves 32 bits.
    Size,
    /// The input has not the bytes of the rows in the source's format.
    InputLength,
    /// The output has not the bytes of the rows in the target's format.
    OutputLength,
    /// An allocation was refused.
    OutOfMemory,
    /// There is no room for a name and the zero byte behind it.
    NameRoom,
}
