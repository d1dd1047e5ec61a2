// The frames of a conversion: their formats, size and forms.

use pix_meaning::Pair;
use sws_words::Form;

/// What a conversion of frames is.
#[derive(Drop)]
pub struct Converter {
    pub pair: Pair,
    /// In pixels, 1 to 16,384.
    pub width: u32,
    /// In pixels, 1 to 16,384.
    pub height: u32,
    pub source_form: Form,
    pub target_form: Form,
    /// How many workers, at least 1.
    pub workers: u32,
}
