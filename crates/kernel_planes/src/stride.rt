/// Where a value of the pixels of a block stands in its plane.
#[derive(Clone, Copy)]
pub struct Stride {
    /// The element of the first pixel.
    pub start: usize,
    /// How many elements later that of the next pixel is.
    pub step: usize,
}
