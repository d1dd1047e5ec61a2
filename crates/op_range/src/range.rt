use frac_math::Frac;

/// What is known of a value at every pixel: the bounds between which it lies, where they are there,
/// and whether it is a whole number.
#[derive(Clone, Copy, Debug, PartialEq, Eq)]
pub struct ValueRange {
    /// The value is not below it. None where it is not known.
    pub least: Option<Frac>,
    /// The value is not above it. None where it is not known.
    pub greatest: Option<Frac>,
    /// Where it is true, the value is a whole number.
    pub whole: bool,
}

/// What is known of the four values.
pub type Ranges = [ValueRange; 4];
