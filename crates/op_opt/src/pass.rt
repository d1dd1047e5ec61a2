ghost use Rattle.std.specs.Prelude.{◌≡◌};
ghost use Rattle.op_opt.specs.Passes.{change_at, passes};

use crate::cancel_packing::cancel_packing;
use crate::cancel_swaps::cancel_swaps;
use crate::change::Change;
use crate::drop_dither::drop_dither;
use crate::drop_idle::drop_idle;
use crate::expand_bytes::expand_bytes;
use crate::join_maps::join_maps;
use crate::join_shifts::join_shifts;
use crate::join_swizzles::join_swizzles;
use crate::reset_unused::reset_unused;
use crate::skip_fraction::skip_fraction;
use crate::trim_clamp::trim_clamp;
use crate::trim_clear::trim_clear;
use op_list::{Op, Stage};
use op_range::Ranges;

/// The passes of the optimiser, in the order in which they are tried.
#[derive(Clone, Copy, Debug, PartialEq, Eq)]
pub enum Pass {
    /// Drops an operation that leaves each used value as it is.
    DropIdle,
    /// Joins two swizzles to one.
    JoinSwizzles,
    /// Joins two shifts to one.
    JoinShifts,
    /// Cancels two byte swaps.
    CancelSwaps,
    /// Trims a Clear by the entry of a value that is not used after it.
    TrimClear,
    /// Trims a Min or a Max by the entry of a value that is not used after it, or that lies within
    /// the limit before it.
    TrimClamp,
    /// Drops a dither of whole values.
    DropDither,
    /// Joins two linear maps to one.
    JoinMaps,
    /// Skips the fraction between two whole types.
    SkipFraction,
    /// Expands bytes by a conversion.
    ExpandBytes,
    /// Resets the row or the index of a value that is not used after it to the identity.
    ResetUnused,
    /// Cancels an Unpack and a Pack.
    CancelPacking,
}

/// All passes, in their order.
pub const PASSES: [Pass; 12] = [
    Pass::DropIdle,
    Pass::JoinSwizzles,
    Pass::JoinShifts,
    Pass::CancelSwaps,
    Pass::TrimClear,
    Pass::TrimClamp,
    Pass::DropDither,
    Pass::JoinMaps,
    Pass::SkipFraction,
    Pass::ExpandBytes,
    Pass::ResetUnused,
    Pass::CancelPacking,
];

impl Pass {
    // What the pass changes at a place, from the stage and the ranges there and the operations
    // from there on.
    pub(crate) fn change_at(self, stage: Stage, ranges: &Ranges, ops: &[Op]) -> Option<Change>
        ensures { result ≡ change_at self stage ranges.now ops.now }
    {
        match self {
            Pass::DropIdle => drop_idle(stage, ops),
            Pass::JoinSwizzles => join_swizzles(ops),
            Pass::JoinShifts => join_shifts(stage, ranges, ops),
            Pass::CancelSwaps => cancel_swaps(ops),
            Pass::TrimClear => trim_clear(ops),
            Pass::TrimClamp => trim_clamp(ranges, ops),
            Pass::DropDither => drop_dither(ranges, ops),
            Pass::JoinMaps => join_maps(ops),
            Pass::SkipFraction => skip_fraction(stage, ops),
            Pass::ExpandBytes => expand_bytes(stage, ops),
            Pass::ResetUnused => reset_unused(ops),
            Pass::CancelPacking => cancel_packing(stage, ops),
        }
    }
}
