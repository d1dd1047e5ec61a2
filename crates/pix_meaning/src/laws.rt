//! Laws of the meaning of a conversion: each is the contract of a function without a body.
ghost use Rattle.std.specs.Prelude.{◌≡◌, ℕ, false, List};
ghost use Rattle.pix_desc.specs.declared.desc.Desc.{Desc};
ghost use Rattle.pix_desc.specs.Layouts.{IsValid};
ghost use Rattle.pix_meaning.specs.declared.pair.Pair.{Pair};
ghost use Rattle.pix_meaning.specs.Pairs.{IsValidPair};
ghost use Rattle.pix_meaning.specs.Laws.{HasChannels, PassesLumaAndChroma, PassesCodes, KeepsCodes};
ghost use Rattle.pix_meaning.specs.Laws.{SourcesFit, ResultsFit, SlicesAgree, HasOneTargetFrame};
ghost use Rattle.pix_meaning.specs.Examples.{WorkedConversions};

/// The components of a format are its channels in another numbering.
pub fn has_channels()
    ensures { (desc : Desc) → IsValid desc → HasChannels desc }
{}

/// Between two sides that are not RGB and have one matrix luma and chroma pass as they are.
pub fn passes_luma_and_chroma()
    ensures { PassesLumaAndChroma }
{}

/// Between two RGB sides a component of the same channel and the same depth passes as it is.
pub fn passes_codes()
    ensures { PassesCodes }
{}

/// A wanted value that is a code is the result, whatever the dither.
pub fn keeps_codes()
    ensures { KeepsCodes }
{}

/// The codes that are read of a frame of bytes fit the depths of their components.
pub fn sources_fit()
    ensures { SourcesFit }
{}

/// The results fit the depths of their components.
pub fn results_fit()
    ensures { ResultsFit }
{}

/// A slice of rows has the results of the whole frame.
pub fn slices_agree()
    ensures { SlicesAgree }
{}

/// A source frame has exactly one target frame in a format without a palette, and so has each slice
/// of its rows. The bytes that a frame of another length lacks count as 0.
pub fn has_one_target_frame()
    ensures { (pair : Pair) (width height first : ℕ) (frame : List ℕ) → IsValidPair pair
        → pair.to.desc.palette ≡ false
        → HasOneTargetFrame pair width height first frame }
{}

/// Some conversions, byte by byte.
pub fn worked_conversions()
    ensures { WorkedConversions }
{}
