// What a conversion is asked for: its two sides, and the dither.

use colour_matrix::{Matrix, Range};
use pix_desc::Desc;

/// One side of a conversion. A side of red, green and blue has no use for its matrix and its range.
#[derive(Clone, Copy, Debug, PartialEq, Eq)]
pub struct Side {
    /// The format.
    pub desc: Desc,
    /// The matrix between its luma and chroma, and red, green and blue.
    pub matrix: Matrix,
    /// The range of the codes of its luma and chroma.
    pub range: Range,
}

/// A conversion: from a side to a side, with an ordered dither over squares of 2^dither by 2^dither
/// pixels.
#[derive(Clone, Copy, Debug, PartialEq, Eq)]
pub struct Pair {
    /// The source's side.
    pub from: Side,
    /// The target's side.
    pub to: Side,
    /// 0 to 4. At 0 every pixel has the value 1/2: rounding to the nearest, half up.
    pub dither: u8,
}
