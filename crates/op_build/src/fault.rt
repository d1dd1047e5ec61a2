/// Why no list is built.
#[derive(Clone, Copy, Debug, PartialEq, Eq)]
pub enum BuildFault {
    /// The target is a palette format.
    PaletteTarget,
    /// An allocation was refused.
    OutOfMemory,
}
