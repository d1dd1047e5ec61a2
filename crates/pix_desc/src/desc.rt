// What describes a pixel format.

/// Where one component of a pixel lies, after FFmpeg's AVComponentDescriptor.
#[derive(Clone, Copy, Debug, PartialEq, Eq)]
pub struct Comp {
    /// The plane that it lies in, 0 to 3.
    pub plane: u8,
    /// The bytes from one pixel of the plane to the next, 1 to 8.
    pub step: u8,
    /// The bytes before it in the pixel; -1 where a big-endian number of 16 bits is read by its
    /// high byte alone.
    pub offset: i8,
    /// The bits below it in the number that is read.
    pub shift: u8,
    /// Its bits, 1 to 16.
    pub depth: u8,
}

/// A pixel format, after FFmpeg's AVPixFmtDescriptor. Components stand in the order R, G, B for RGB
/// formats and Y, U, V otherwise, with alpha last. The entries of `comps` from `count` on are
/// ignored.
#[derive(Clone, Copy, Debug, PartialEq, Eq)]
pub struct Desc {
    /// How many components there are, 1 to 4.
    pub count: u8,
    pub comps: [Comp; 4],
    /// Whether numbers of more than one byte are big-endian.
    pub be: bool,
    pub rgb: bool,
    pub alpha: bool,
    /// Whether the one component is an index into a palette of 256 entries.
    pub palette: bool,
}

/// How the pixels of a format are taken apart.
#[derive(Clone, Copy, Debug, PartialEq, Eq)]
pub enum Layout {
    /// Up to four numbers of equal size, each with at most one component.
    Elements,
    /// One number of 1, 2 or 4 bytes, which is cut into at most four fields.
    Word,
}

/// Why a descriptor is refused. The first that applies is answered.
#[derive(Clone, Copy, Debug, PartialEq, Eq)]
pub enum DescFault {
    /// The number of components is not one that the flags allow.
    ComponentCount,
    /// A depth is not 1 to 16, or shift and depth together are above 16.
    DepthRange,
    /// Two components of one plane read a common bit of the pixel.
    Overlap,
    /// A step is not 1 to 8, or a component reads outside its pixel.
    OutsideStep,
    /// Two components of one plane differ in step, no layout fits, or a palette format has another
    /// index than one byte.
    MixedLayout,
    /// The planes used are not exactly those from 0 up to some number.
    PlaneCount,
}
