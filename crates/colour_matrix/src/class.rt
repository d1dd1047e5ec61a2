// What a component is, which codes it takes, and the levels that follow.
use frac_math::Frac;

/// Which codes stand for the least and the greatest value: all of them, or a part with room on both
/// sides (`VideoFullRangeFlag` of ITU-T H.273 section 8.3).
#[derive(Clone, Copy, Debug, PartialEq, Eq)]
pub enum Range {
    /// All codes of the depth, 0 to 2^depth - 1.
    Full,
    /// At 8 bits luma from 16 to 235, and chroma from 16 to 240; at other depths these times
    /// 2^(depth - 8).
    Limited,
}

/// What a component's values are.
#[derive(Clone, Copy, Debug, PartialEq, Eq)]
pub enum Class {
    /// Red, green, blue or alpha, from 0 to 1.
    Direct,
    /// Luma, from 0 to 1.
    Luma,
    /// A chroma, from -1/2 to 1/2.
    Chroma,
}

/// A code C stands for the value E with `C = scale * E + base`.
#[derive(Clone, Copy, Debug, PartialEq, Eq)]
pub struct Levels {
    /// How many codes a value of 1 spans; above 0.
    pub scale: Frac,
    /// The code of the value 0.
    pub base: Frac,
}
