// A `Box<SharedPlan>` as its pointer, for C.
ghost use Rattle.std.specs.Prelude.{◌≡◌, Option, None, Some, IsSome};
ghost use Rattle.sws_c.specs.declared.shared_plan.SharedPlan.{SharedPlan};
ghost use Rattle.sws_c.specs.Owned.{kept_coded, owner_owns};

mod parts;

use crate::shared_plan::SharedPlan;
use parts::Parts;
use std::alloc::Global;
use std::marker::Model;

/// What C holds: one pointer. Where the owner is open, it owns the block that `Box::into_raw` gave
/// away and `into_box` takes back; where it is closed, it owns nothing. A drop forgets the block.
#[repr(C)]
#[derive(Drop)]
pub struct PlanOwner {
    ptr: *mut u8,
    alloc: Global,
    pub ghost kept: { Option SharedPlan } by { kept_coded },
}

impl Model for PlanOwner {
    ghost also_owns = { λ s. owner_owns s.alloc s.ptr s.kept };
}

impl PlanOwner {
    /// An open owner of what a box holds.
    pub fn of(shared: Box<SharedPlan>) -> PlanOwner
        ensures { result.kept ≡ Some shared.value }
    {
        PlanOwner::of_parts(Parts::of(shared))
    }

    /// A closed owner: the null pointer. It takes no memory.
    pub fn closed(alloc: Global) -> PlanOwner
        ensures { result.kept ≡ None }
    {
        PlanOwner {
            ptr: std::ptr::null_mut(),
            alloc,
        }
    }

    /// What an open owner keeps, as the box that it was made of.
    pub fn into_box(self) -> Box<SharedPlan>
        requires { IsSome self.kept }
        ensures { Some result.value ≡ self.kept }
    {
        self.into_parts().into_box()
    }

    fn of_parts(parts: Parts<SharedPlan, Global>) -> PlanOwner
        ensures { result.kept ≡ Some parts.value }
    {
        let Parts { ptr, alloc } = parts;
        PlanOwner {
            ptr: ptr as *mut u8,
            alloc,
        }
    }

    fn into_parts(self) -> Parts<SharedPlan, Global>
        requires { IsSome self.kept }
        ensures { Some result.value ≡ self.kept }
    {
        let PlanOwner { ptr, alloc } = self;
        Parts {
            ptr: ptr as *mut SharedPlan,
            alloc,
        }
    }
}
