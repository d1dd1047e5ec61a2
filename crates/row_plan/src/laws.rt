// The laws on pairs and on slices, each the contract of a function.
ghost use Rattle.std.specs.Prelude.{ℕ, List};
ghost use Rattle.pix_meaning.specs.declared.pair.Pair.{Pair};
ghost use Rattle.row_plan.specs.Evaluated.{TablePairsFit, TablePairsHavePlans};
ghost use Rattle.row_plan.specs.PackedRgb.{ArePackedFormats, CopiesPacked};
ghost use Rattle.row_plan.specs.Slices.{SlicesAreFrames, SlicesMakeFrame, TargetOfSlice};
ghost use Rattle.row_plan.specs.Slices.{TargetsMakeFrame, WorkedSlices};

use crate::plans::Plan;

/// Every pair of two sides of the table with named matrices, any ranges and any dither fits: the
/// numbers of the evaluation fit 128 bits at every pixel, and those of its normal list, over a
/// common denominator, are below 2^126.
pub fn every_pair_fits()
    ensures { TablePairsFit }
{}

/// Every pair of two sides of the table with named matrices has a plan, where its target is no
/// palette format.
pub fn table_pairs_have_plans()
    ensures { TablePairsHavePlans }
{}

/// Ten formats of the table are packed RGB formats of whole bytes.
pub fn are_packed_formats()
    ensures { ArePackedFormats }
{}

/// Between two RGB formats of one plane whose components are whole bytes the target frame has the
/// source's components, each at its place, and opaque alpha where the source has none.
pub fn copies_packed()
    ensures { (pair : Pair) (width height : ℕ) (frame : List ℕ)
        → CopiesPacked pair width height frame }
{}

/// A slice of rows is a raw frame of as many rows.
pub fn slices_are_frames()
    ensures { SlicesAreFrames }
{}

/// The slices of a frame, put together plane by plane, are the frame.
pub fn slices_make_frame()
    ensures { SlicesMakeFrame }
{}

/// The target rows of a slice, with its first row, are the slice of the target frame.
pub fn target_of_slice()
    ensures { TargetOfSlice }
{}

/// The target rows of all slices, each with its first row, are the target frame when they are put
/// together.
pub fn targets_make_frame()
    ensures { TargetsMakeFrame }
{}

/// Some slices, byte by byte.
pub fn worked_slices()
    ensures { WorkedSlices }
{}

/// A `Plan` is `Send` and `Sync`: workers share one. A missing proof of it would else show only
/// where the first threads are started.
pub fn crosses_threads() {
    crosses::<Plan>()
}

fn crosses<T: Send + Sync>() {}
