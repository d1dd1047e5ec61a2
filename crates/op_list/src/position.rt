ghost use Rattle.std.specs.Prelude.{◌≡◌, ◌<◌, ◌≤◌, ◌*◌, ◌^◌, sum, IfSome, IsNone};
ghost use Rattle.op_list.specs.Pixel.{element_in, pixel_count, pixel_number};

/// The position of a pixel in a frame of `width` by `rows` pixels, which may be some rows of a
/// larger frame.
#[derive(Clone, Copy, Debug)]
pub struct PixelPosition {
    pub width: u32,
    pub rows: u32,
    /// The column.
    pub x: u32,
    /// The row of this frame.
    pub row: u32,
    /// The row of the larger frame, by which the dither goes.
    pub y: u32,
}

impl PixelPosition {
    // The pixels of the frame.
    pub(crate) fn pixel_count(&self) -> usize
        ensures { result ≡ pixel_count self.now }
    {
        self.width as usize * self.rows as usize
    }

    // The number of the pixel, which is below the count.
    pub(crate) fn pixel_number(&self) -> usize
        requires column { self.now.x < self.now.width }
        requires row { self.now.row < self.now.rows }
        ensures value { result ≡ pixel_number self.now }
        ensures below { result < pixel_count self.now }
    {
        self.row as usize * self.width as usize + self.x as usize
    }

    // Which element of the frame is element i of the pixel; none where it has fewer.
    pub(crate) fn element_index(&self, planes: &[u8; 4], i: usize) -> Option<usize>
        requires column { self.now.x < self.now.width }
        requires row { self.now.row < self.now.rows }
        requires fits { pixel_count self.now * sum planes.now < 2 ^ 64 }
        ensures index { IfSome result (λ k. (i < sum planes.now)
            × (k ≡ element_in (pixel_count self.now) (pixel_number self.now) 0 planes.now i)) }
        ensures fewer { IsNone result → sum planes.now ≤ i }
    {
        let pixels = self.pixel_count();
        let pixel = self.pixel_number();
        let mut before = 0;
        let mut rest = i;
        for n in planes {
            let n = usize::from(*n);
            if rest < n {
                return Some(pixels * before + pixel * n + rest);
            }
            before += n;
            rest -= n;
        }
        None
    }
}
