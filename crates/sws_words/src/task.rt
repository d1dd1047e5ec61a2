// What words ask for.
use colour_matrix::{Matrix, Range};
use desc_table::{FormatFault, FormatId};

/// The form of a stream.
#[derive(Clone, Copy, Debug, PartialEq, Eq)]
pub enum Form {
    /// Raw frames one after the other.
    Raw,
    /// A YUV4MPEG2 stream.
    Y4m,
}

/// One side of a conversion, as the words name it.
#[derive(Clone, Copy, Debug, PartialEq, Eq)]
pub struct Named {
    /// What the name of the format finds.
    pub format: Result<FormatId, FormatFault>,
    /// A matrix that has a name. It is without effect where the format is RGB.
    pub matrix: Matrix,
    /// None where the words do not say it.
    pub range: Option<Range>,
}

/// A conversion that is asked for.
#[derive(Clone, Copy, Debug, PartialEq, Eq)]
pub struct Convert {
    /// The source of raw frames. None for a YUV4MPEG2 source, whose header names the format.
    pub source: Option<Named>,
    /// A matrix that has a name, for either form of source.
    pub source_matrix: Matrix,
    /// None where the words do not say it; for either form of source.
    pub source_range: Option<Range>,
    /// In pixels, 1 to 16,384; 0 for a YUV4MPEG2 source.
    pub width: u32,
    /// In pixels, 1 to 16,384, where the frame has at most 33,554,432; 0 for a YUV4MPEG2 source.
    pub height: u32,
    pub source_form: Form,
    pub target: Named,
    pub target_form: Form,
    /// The dither number, 0 to 4.
    pub dither: u8,
    /// How many workers, 1 to 64.
    pub workers: u32,
    /// Rows a slice, 1 to 16,384.
    pub slice: u32,
}

/// Two sides that the words name, whose frames are no matter of the words.
#[derive(Clone, Copy, Debug, PartialEq, Eq)]
pub struct Sides {
    pub source: Named,
    pub target: Named,
    /// The dither number, 0 to 4.
    pub dither: u8,
}

/// A conversion of frames that are made from a seed.
#[derive(Clone, Copy, Debug, PartialEq, Eq)]
pub struct Generate {
    pub sides: Sides,
    /// How many workers, 1 to 64.
    pub workers: u32,
    /// Rows a slice, 1 to 16,384.
    pub slice: u32,
    pub seed: u64,
}

/// What the words ask for.
#[derive(Clone, Copy, Debug, PartialEq, Eq)]
pub enum Task {
    /// To convert a stream of frames.
    Convert(Convert),
    /// To list the formats.
    List,
    /// To show the list of operations of a conversion.
    Ops(Sides),
    /// To convert frames that are made from a seed, and to show the sum of the result.
    Generate(Generate),
}
