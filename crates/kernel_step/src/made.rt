use crate::form::Extent;

/// What an operation makes of one value: the numbers that it needs for it, and the extent of the
/// value.
#[derive(Clone, Copy, Debug)]
pub struct Made {
    pub factors: [i128; 5],
    pub extent: Extent,
}
