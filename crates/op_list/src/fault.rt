/// Why an operation was not taken. The list is then as it was.
#[derive(Clone, Copy, Debug, PartialEq, Eq)]
pub enum PushFault {
    /// An operation of this kind may not follow: it is no Read and the list is empty, or it is a
    /// Read and the list is not; its values have another type before it; or it comes after a Write.
    WrongType,
    /// The kind may follow, but not with these arguments.
    BadArgument,
    /// The list has 24 operations.
    TooLong,
    /// An allocation was refused.
    OutOfMemory,
}
