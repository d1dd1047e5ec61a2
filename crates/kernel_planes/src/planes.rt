// The rows of a frame's planes as slices.
ghost use Rattle.std.specs.Prelude.{◌≡◌, ◌<◌};
ghost use Rattle.kernel_planes.specs.Planes.{row_at, rows_of};

/// A row of each plane of a frame, as slices. In each plane the elements of a pixel stand one after
/// the other, and so do the pixels; a slice is empty where there is no such plane.
#[derive(Clone, Copy)]
pub struct Planes<'a> {
    /// The row of the first plane.
    pub first: &'a [u8],
    /// The row of the second plane.
    pub second: &'a [u8],
    /// The row of the third plane.
    pub third: &'a [u8],
    /// The row of the fourth plane.
    pub fourth: &'a [u8],
    /// The entries of a palette, 4 bytes each, where the first plane has indices; else empty.
    pub palette: &'a [u8],
}

impl<'a> Planes<'a> {
    // The row of plane p.
    pub(crate) fn row(&self, p: usize) -> &'a [u8]
        requires { p < 4 }
        ensures { result.now ≡ row_at (rows_of self.now) p }
    {
        match p {
            0 => self.first,
            1 => self.second,
            2 => self.third,
            _ => self.fourth,
        }
    }
}
