ghost use Rattle.std.specs.Prelude.{◌≡◌};

use pix_meaning::Pair;
use row_plan::Plan;

/// What a look answers.
#[derive(Drop)]
pub enum Seen<'a> {
    /// The plan of the cell, which is for the pair asked.
    Shared(&'a Plan),
    /// A plan for the caller alone, since the cell keeps one of another pair.
    Own { plan: Plan, other: Pair },
}

impl Seen<'_> {
    ghost use Rattle.list_cache.specs.Looks.{plan_of};

    /// Its plan, whoever has it.
    pub fn plan(&self) -> &Plan
        ensures { result.now ≡ plan_of self.now }
    {
        match self {
            Seen::Shared(plan) => plan,
            Seen::Own { plan, .. } => plan,
        }
    }
}
