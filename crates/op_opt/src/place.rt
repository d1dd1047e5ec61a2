use op_range::ValueRange;

/// What is known after an operation.
#[derive(Clone, Copy, Debug)]
pub struct Place {
    /// The ranges of the four values.
    pub ranges: [ValueRange; 4],
}
