// What a look answers beside the plan that its cell keeps.
ghost use Rattle.std.specs.Prelude.{◌≡◌, ◌↔◌, true, Some, IfOk, IsOkAnd};
ghost use Rattle.row_plan.specs.Evaluated.{IsPlannable};
ghost use Rattle.list_cache.specs.Looks.{plan_of, IsSeen, IsSharedPlan};

use crate::seen::Seen;
use op_build::BuildFault;
use pix_meaning::{Pair, same_pair};
use row_plan::{Plan, plan};
use std::alloc::{AllocFailed, Global};

// The kept plan where it is for the pair asked, and else a plan for the caller alone.
pub(crate) fn answer_beside<'a>(
    alloc: Global,
    kept: &'a Plan,
    pair: &Pair,
    stamp: u64,
) -> Result<Seen<'a>, BuildFault>
    requires { IsPlannable pair.now }
    ensures pair { IfOk result (λ seen. (plan_of seen).pair ≡ pair.now) }
    ensures seen { IfOk result (IsSeen pair.now stamp (Some kept.now)) }
    ensures shared { kept.now.pair ≡ pair.now → IsOkAnd result IsSharedPlan }
    ensures palette { (result ≡ Err BuildFault.PaletteTarget) ↔ (pair.now.to.desc.palette ≡ true) }
{
    if same_pair(kept.pair(), pair) {
        return Ok(Seen::Shared(kept));
    }
    Ok(Seen::Own {
        plan: plan(alloc, pair, stamp)?,
        other: *kept.pair(),
    })
}

// The plan of a pair, on the heap.
pub(crate) fn boxed_plan(alloc: Global, pair: &Pair, stamp: u64) -> Result<Box<Plan>, BuildFault>
    requires { IsPlannable pair.now }
    ensures { (result ≡ Err BuildFault.PaletteTarget) ↔ (pair.now.to.desc.palette ≡ true) }
{
    match Box::new(alloc, plan(alloc, pair, stamp)?) {
        Ok(plan) => Ok(plan),
        Err(AllocFailed { .. }) => Err(BuildFault::OutOfMemory),
    }
}
