// Conversions by a plan that is kept from one call to the next.
ghost use Rattle.std.specs.Prelude.{◌≡◌, ◌≢◌, ◌⊎◌, length, IfOk, IfErr, IfSome, IsSome, Ok, Some};
ghost use Rattle.std.specs.Prelude.{None};
ghost use Rattle.std.specs.Arc.{arc_value};
ghost use Rattle.pix_meaning.specs.Target.{target_rows};
ghost use Rattle.frame_calls.specs.declared.refusal.Refusal.{Refusal};
ghost use Rattle.frame_calls.specs.Conversion.{pair_asked};
ghost use Rattle.frame_calls.specs.Calls.{rows_asked, IsRefusalOf};
ghost use Rattle.sws_c.specs.Kept.{plan_kept, IsPlanOf};
ghost use Rattle.sws_c.specs.Status.{status_of, number_of, IsStatusOf};

use crate::numbers::{DONE, number_of, status_of};
use crate::owner::PlanOwner;
use crate::shared_plan::SharedPlan;
use frame_calls::{Conversion, Refusal, Rows, convert_by, plan_of};
use row_plan::Plan;
use std::alloc::Global;
use std::sync::Arc;

// One more owner, on the heap.
fn owner_of(alloc: Global, plan: Arc<Plan, Global>) -> Result<Box<SharedPlan>, Refusal>
    ensures plan { IfOk result (λ owner. owner.value.plan ≡ plan) }
    ensures refusal { IfErr result (λ refusal. refusal ≡ Refusal.OutOfMemory) }
{
    match Box::new(alloc, SharedPlan { plan }) {
        Ok(owner) => Ok(owner),
        Err(_) => Err(Refusal::OutOfMemory),
    }
}

// The first owner of a new plan.
fn opened(alloc: Global, conversion: &Conversion) -> Result<Box<SharedPlan>, Refusal>
    ensures plan { IfOk result
        (λ owner. pair_asked conversion.now ≡ Ok (arc_value owner.value.plan).pair) }
    ensures refusal { IfErr result (IsRefusalOf (pair_asked conversion.now)) }
{
    let plan = plan_of(alloc, conversion)?;
    match Arc::new(alloc, plan) {
        Ok(plan) => owner_of(alloc, plan),
        Err(_) => Err(Refusal::OutOfMemory),
    }
}

/// Takes out what an open owner keeps, and leaves it closed. It takes no memory.
pub fn take(alloc: Global, plan: &mut PlanOwner) -> Box<SharedPlan>
    requires { IsSome plan.old.kept }
    ensures taken { Some result.value ≡ plan.old.kept }
    ensures closed { plan.new.kept ≡ None }
{
    let closed = PlanOwner::closed(alloc);
    std::mem::replace(plan, closed).into_box()
}

// Another owner of a plan.
fn again(alloc: Global, plan: &Arc<Plan, Global>) -> Result<Box<SharedPlan>, Refusal>
    ensures plan { IfOk result (λ owner. arc_value owner.value.plan ≡ arc_value plan.now) }
    ensures refusal { IfErr result (λ refusal. refusal ≡ Refusal.OutOfMemory) }
{
    match Arc::try_clone(plan) {
        Ok(plan) => owner_of(alloc, plan),
        Err(_) => Err(Refusal::OutOfMemory),
    }
}

/// Opens a plan, and makes `plan` its one owner. What `plan` owned before is forgotten.
#[unsafe(no_mangle)]
pub extern "C" fn sws_plan_open(alloc: Global, conversion: &Conversion, plan: &mut PlanOwner) -> u32
    ensures status { IsStatusOf (pair_asked conversion.now) result }
    ensures plan { result ≡ 0 → IsPlanOf plan.new.kept (pair_asked conversion.now) }
    ensures unchanged { result ≢ 0 → plan.new ≡ plan.old }
{
    match opened(alloc, conversion) {
        Ok(shared) => {
            *plan = PlanOwner::of(shared);
            DONE
        }
        Err(refusal) => number_of(refusal),
    }
}

/// Makes `other` another owner of the plan of `plan`, for another thread. It copies no plan. What
/// `other` owned before is forgotten.
#[unsafe(no_mangle)]
pub extern "C" fn sws_plan_share(alloc: Global, plan: &mut PlanOwner, other: &mut PlanOwner) -> u32
    requires open { IsSome plan.old.kept }
    ensures status { (result ≡ 0) ⊎ (result ≡ 9) }
    ensures kept { plan.new.kept ≡ plan.old.kept }
    ensures shared { result ≡ 0 → plan_kept other.new.kept ≡ plan_kept plan.old.kept }
    ensures unchanged { result ≢ 0 → other.new ≡ other.old }
{
    let shared = take(alloc, plan);
    let made = again(alloc, &shared.plan);
    *plan = PlanOwner::of(shared);
    match made {
        Ok(made) => {
            *other = PlanOwner::of(made);
            DONE
        }
        Err(refusal) => number_of(refusal),
    }
}

/// Converts some rows by a plan, whose owner keeps it. It takes no memory.
#[unsafe(no_mangle)]
pub extern "C" fn sws_plan_convert(
    alloc: Global,
    plan: &mut PlanOwner,
    first: u32,
    width: u32,
    rows: u32,
    input: &[u8],
    output: &mut [u8],
) -> u32
    requires open { IsSome plan.old.kept }
    ensures kept { plan.new.kept ≡ plan.old.kept }
    ensures status { IfSome (plan_kept plan.old.kept) (λ kept. result ≡ status_of (rows_asked
        kept.pair (record { first = first; width = width; count = rows }) (length input.now)
        (length output.old))) }
    ensures target { result ≡ 0 → IfSome (plan_kept plan.old.kept)
        (λ kept. output.new ≡ target_rows kept.pair width rows first input.now) }
    ensures unchanged { result ≢ 0 → output.new ≡ output.old }
{
    let rows = Rows {
        first,
        width,
        count: rows,
    };
    let shared = take(alloc, plan);
    let status = status_of(convert_by(&shared.plan, &rows, input, output));
    *plan = PlanOwner::of(shared);
    status
}

/// Closes an owner. The last one frees the plan.
#[unsafe(no_mangle)]
pub extern "C" fn sws_plan_close(alloc: Global, plan: &mut PlanOwner)
    requires open { IsSome plan.old.kept }
    ensures { plan.new.kept ≡ None }
{
    let _shared = take(alloc, plan);
}
