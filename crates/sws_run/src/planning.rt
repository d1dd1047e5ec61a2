// The plan of a pair of the table: made for the caller alone, or looked up in a cell.
ghost use Rattle.std.specs.Prelude.{◌≡◌, IfOk};
ghost use Rattle.list_cache.specs.Cells.{IsNoteOf};
ghost use Rattle.list_cache.specs.Looks.{plan_of as plan_seen};
ghost use Rattle.sws_run.specs.Request.{IsTablePair};

use frac_math::OutOfMemory;
use list_cache::{CellNote, ListCache, Seen};
use op_build::BuildFault;
use pix_meaning::Pair;
use row_plan::{Plan, plan};
use std::alloc::Global;

/// The plan of a pair of two formats of the table, of which the target has no palette.
pub fn plan_of(alloc: Global, pair: &Pair) -> Result<Plan, OutOfMemory>
    requires { IsTablePair pair.now }
    ensures { IfOk result (λ plan. plan.pair ≡ pair.now) }
{
    match plan(alloc, pair, 0) {
        Ok(plan) => Ok(plan),
        Err(BuildFault::OutOfMemory) => Err(OutOfMemory),
        Err(BuildFault::PaletteTarget) => unreachable!(),
    }
}

/// Looks the pair up in the only cell of a cache, with stamp 0.
pub fn look_up<'a>(
    alloc: Global,
    cache: &'a ListCache,
    note: &mut CellNote,
    pair: &Pair,
) -> Result<Seen<'a>, OutOfMemory>
    requires pair { IsTablePair pair.now }
    requires note { IsNoteOf cache.now 0 note.old }
    ensures { IfOk result (λ seen. (plan_seen seen).pair ≡ pair.now) }
{
    match cache.look(alloc, note, 0, pair, 0) {
        Ok(seen) => Ok(seen),
        Err(BuildFault::OutOfMemory) => Err(OutOfMemory),
        Err(BuildFault::PaletteTarget) => unreachable!(),
    }
}
