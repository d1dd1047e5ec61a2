/// Why a name finds no format.
#[derive(Clone, Copy, Debug, PartialEq, Eq)]
pub enum FormatFault {
    /// The name is neither a format's nor one of the refused names. These are not all names that
    /// FFmpeg knows, and a name without its byte order, as gray16, is none.
    Unknown,
    /// Chroma has fewer samples than luma, as in 4:2:0 and 4:2:2.
    Subsampled,
    /// Components are floating-point numbers.
    FloatFormat,
    /// A pixel is not a whole number of bytes.
    Bitstream,
    /// A format of FFmpeg's that the table leaves out: sensor data (Bayer), frames in a device's
    /// memory, XYZ, components of 32 bits (gray32), packed YUV 4:4:4 with X in place of alpha or of
    /// more than 8 bits (xv30, v30x, xv36, xv48), and planes whose values stand in the upper bits
    /// of their numbers (the names in msb).
    OtherUnsupported,
}
