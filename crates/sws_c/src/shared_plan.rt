// A plan with several owners.
use row_plan::Plan;
use std::alloc::Global;
use std::sync::Arc;

/// One owner of a plan.
#[derive(Drop)]
pub struct SharedPlan {
    pub plan: Arc<Plan, Global>,
}
