// A slice of rows.
ghost use Rattle.std.specs.Prelude.{◌+◌, ◌<◌, ◌^◌};

/// Some rows of a frame, which are held as a raw frame of their own.
#[derive(Clone, Copy, Debug)]
pub struct Slice {
    /// The row of the whole frame at which it begins.
    pub first: u32,
    /// In pixels.
    pub width: u32,
    /// How many there are.
    pub rows: u32,
    pub ghost within: { first + rows < 2 ^ 32 },
}
