ghost use Rattle.std.specs.Prelude.{◌≡◌, ◌<◌, ◌↔◌, true, length, None, IfOk, IfErr, IsOkAnd};
ghost use Rattle.row_plan.specs.Evaluated.{IsPlannable};
ghost use Rattle.list_cache.specs.Cells.{cell_numbers, cell_of, known, IsNoteOf, StillKnows};
ghost use Rattle.list_cache.specs.Cells.{KnowsPair, AgreesOnPlan};
ghost use Rattle.list_cache.specs.Looks.{plan_of, IsSeen, IsSharedPlan};

use crate::answering::{answer_beside, boxed_plan};
use crate::cell_note::CellNote;
use crate::seen::Seen;
use frac_math::OutOfMemory;
use once_cell::race::OnceBox;
use op_build::BuildFault;
use pix_meaning::Pair;
use row_plan::Plan;
use std::alloc::Global;

/// A number of cells, each with at most one plan, which threads may look at at once.
#[derive(Drop)]
pub struct ListCache {
    pub(crate) cells: Vec<OnceBox<Plan>>,
}

impl ListCache {
    /// A cache of empty cells.
    pub fn new(alloc: Global, cells: usize) -> Result<ListCache, OutOfMemory>
        ensures { IfOk result (λ cache. length (cell_numbers cache) ≡ cells) }
    {
        let mut empty = Vec::new(alloc);
        for _ in 0..cells {
            empty.push(OnceBox::new(alloc))?;
        }
        Ok(ListCache { cells: empty })
    }

    /// A note of cell k, which knows nothing.
    pub fn note(&self, k: usize) -> CellNote
        requires { k < length (cell_numbers self.now) }
        ensures cell { IsNoteOf self.now k result }
        ensures known { known result ≡ None }
    {
        CellNote {
            note: self.cells[k].note(),
        }
    }

    /// Looks for the plan of a pair in cell k. A cell that is empty takes a plan of the pair with
    /// the stamp, unless another caller is first. Shared is the plan of the cell, which has its
    /// maker's stamp; Own comes only beside a plan of another pair. A note that knew a plan still
    /// knows that one, and after a fault it knows what it knew. PaletteTarget comes exactly where
    /// the target is a palette format, and OutOfMemory where an allocation is refused.
    pub fn look(
        &self,
        alloc: Global,
        note: &mut CellNote,
        k: usize,
        pair: &Pair,
        stamp: u64,
    ) -> Result<Seen<'_>, BuildFault>
        requires note { IsNoteOf self.now k note.old }
        requires plannable { IsPlannable pair.now }
        ensures cell { cell_of note.new ≡ cell_of note.old }
        ensures kept { StillKnows (known note.old) (known note.new) }
        ensures pair { IfOk result (λ seen. (plan_of seen).pair ≡ pair.now) }
        ensures seen { IfOk result (IsSeen pair.now stamp (known note.new)) }
        ensures again { KnowsPair (known note.old) pair.now → IsOkAnd result IsSharedPlan }
        ensures fault { IfErr result (λ _. note.new ≡ note.old) }
        ensures palette { (result ≡ Err BuildFault.PaletteTarget)
            ↔ (pair.now.to.desc.palette ≡ true) }
    {
        let mut learned = note.note.again();
        let kept = self.cells[k].get_or_try_init_as(
            move || boxed_plan(alloc, pair, stamp),
            &mut learned,
        )?;
        let seen = answer_beside(alloc, kept, pair, stamp)?;
        note.note = learned;
        Ok(seen)
    }

    /// Shows that two notes of one cell which both know a plan know the same one, whichever threads
    /// made their looks.
    pub fn compare(&self, a: &mut CellNote, b: &mut CellNote)
        requires { cell_of a.old ≡ cell_of b.old }
        ensures first { a.new ≡ a.old }
        ensures second { b.new ≡ b.old }
        ensures agree { AgreesOnPlan (known a.old) (known b.old) }
    {
        a.note.compare(b.note.again());
    }
}
