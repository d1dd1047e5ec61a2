// A slice that a worker claims, and then waits for until it is read.

use crate::handed::{Cell, Handed, TargetRows};
use crate::waiting::{converted, has_come};
use crate::workers::Task;
use row_plan::Plan;
use slice_claim::Work;
use std::sync::{OnceToken, Wait};

/// The rows of the target that were made of the slice which a cell holds, with what shows that it
/// holds it.
#[derive(Drop)]
pub struct Converted<'a> {
    pub(crate) rows: TargetRows,
    pub(crate) token: OnceToken<'a, Option<Handed>>,
}

/// The job of a slice that is handed over in a cell. Nothing is made where the cell holds no slice.
#[derive(Drop)]
pub struct AwaitedSlice<'a> {
    pub(crate) number: u32,
    pub(crate) plan: &'a Plan,
    pub(crate) cell: &'a Cell,
    pub(crate) converted: Option<Converted<'a>>,
}

impl<'a> AwaitedSlice<'a> {
    ghost use Rattle.std.specs.Prelude.{◌≡◌, ◌∷◌, []};
    ghost use Rattle.row_plan.specs.Jobs.{pair_before};
    ghost use Rattle.frame_slices.specs.Awaited.{awaited_origin};

    /// The job with this number of the slice that is handed over in a cell.
    pub fn new(number: u32, plan: &'a Plan, cell: &'a Cell) -> Self
        ensures number { result.number ≡ number }
        ensures origin { awaited_origin result ≡ pair_before plan.now.pair (cell.now.id ∷ []) }
    {
        AwaitedSlice {
            number,
            plan,
            cell,
            converted: None,
        }
    }
}

impl Work for AwaitedSlice<'_> {
    ghost use Rattle.frame_slices.specs.Awaited.{awaited_number, awaited_origin, IsConvertedSlice};

    ghost number_of = { awaited_number };

    ghost origin = { awaited_origin };

    ghost is_done = { IsConvertedSlice };

    fn number(&self) -> u32 {
        self.number
    }
}

impl Task for AwaitedSlice<'_> {
    fn has_come<R: Wait>(&self, rt: &R) -> bool {
        has_come(rt, self.cell)
    }

    fn run<R: Wait>(&mut self, rt: &R) {
        self.converted = converted(rt, self.plan, self.cell);
    }
}
