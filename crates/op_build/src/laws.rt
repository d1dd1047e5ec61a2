//! The laws of the recipe, each the contract of a function.
ghost use Rattle.std.specs.Prelude.{◌≡◌, ◌≤◌, true, false, ℕ, ℤ, List, length};
ghost use Rattle.std.specs.Int.{int_min, int_max};
ghost use Rattle.frac_math.specs.Fraction.{ℚ, whole, min_ℚ, max_ℚ, floor};
ghost use Rattle.pix_desc.specs.declared.desc.Desc.{Desc};
ghost use Rattle.op_list.specs.declared.position.PixelPosition.{PixelPosition};
ghost use Rattle.pix_meaning.specs.declared.pair.Pair.{Pair};
ghost use Rattle.pix_meaning.specs.Pairs.{IsValidPair};
ghost use Rattle.pix_desc.specs.Layouts.{IsValid};
ghost use Rattle.op_list.specs.Typing.{IsOpList, ends_with_write};
ghost use Rattle.op_build.specs.Meaning.{MeansItsTarget, CheckedRunSucceeds};
ghost use Rattle.op_build.specs.Frames.{ReadsFrames, WritesFrames, FillsFrames};
ghost use Rattle.op_build.specs.Codes.{GivesCodes, IsWholeTyped};
ghost use Rattle.op_build.specs.Recipe.{recipe};

/// At every pixel of a frame of bytes, the first part of the recipe gives the codes of the channels
/// that are read there.
pub fn decoding_gives_codes()
    ensures { (desc : Desc) (frame : List ℕ) (position : PixelPosition)
        → GivesCodes desc frame position }
{}

/// It leaves values of a whole type.
pub fn decoding_is_whole()
    ensures { (desc : Desc) → IsWholeTyped desc }
{}

/// The recipe of a valid pair is a list of operations: each may follow those before it, and has
/// good arguments.
pub fn recipe_is_list()
    ensures { (pair : Pair) → IsValidPair pair → IsOpList (recipe pair) }
{}

/// It has at most 20 operations.
pub fn recipe_is_short()
    ensures { (pair : Pair) → IsValidPair pair → length (recipe pair) ≤ 20 }
{}

/// At every pixel of every source frame of bytes, the whole list of a valid pair gives the elements
/// of the target rows, where the target has no palette.
pub fn recipe_means_target()
    ensures { (pair : Pair) → MeansItsTarget pair }
{}

/// To limit a fraction by whole numbers and then take its floor is to take the floor and then limit
/// it.
pub fn limits_before_the_floor()
    ensures { (x : ℚ) (least most : ℤ)
        → floor (min_ℚ (max_ℚ x (whole least)) (whole most))
        ≡ int_min (int_max (floor x) least) most }
{}

/// Where the sides are of the classes of the table, the checked evaluation of the list has an
/// answer, which is the exact one.
pub fn checked_recipe_is_exact()
    ensures { (pair : Pair) → CheckedRunSucceeds pair }
{}

/// The list of a valid pair reads whole frames of the source format.
pub fn recipe_reads_frames()
    ensures { (pair : Pair) → ReadsFrames pair }
{}

/// It writes whole frames of the target format, where that has no palette.
pub fn recipe_writes_frames()
    ensures { (pair : Pair) → WritesFrames pair }
{}

/// Where a format has no palette, the elements of the pixels are all the bytes of a frame.
pub fn elements_fill_frames()
    ensures { (desc : Desc) → IsValid desc → desc.palette ≡ false → FillsFrames desc }
{}

/// Every list of the recipe ends with a Write.
pub fn recipe_is_whole()
    ensures { (pair : Pair) → ends_with_write (recipe pair) ≡ true }
{}
