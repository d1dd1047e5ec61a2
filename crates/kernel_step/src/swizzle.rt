// Values change places.
ghost use Rattle.std.specs.Prelude.{◌≡◌, ◌≢◌, ℕ, ◌+◌, ◌*◌, ◌<◌, ◌≤◌, ◌⊎◌, true, All, IfSome};
ghost use Rattle.std.specs.Prelude.{length, slice_index, slice_index_or};
ghost use Rattle.op_list.specs.Typing.{are_good, stage_after};
ghost use Rattle.kernel_step.specs.Forms.{IsBounded, IsMoved, IsStep, Performs};

use crate::form::{Form, NO_DIVISOR};
use crate::numerator::Numerator;
use kernel_planes::{WholeNumber, copy_value};
use op_list::{Op, PixelPosition, Stage};

// New value v is old value `from[v]`, for the values below `count`.
fn swizzle<T: Copy>(from: &[u8; 4], count: usize, values: &mut [T], spare: &mut [T])
    requires from { All (λ i. i < 4) from.now }
    requires block { (count ≤ 4) × (length values.old ≡ 256) × (length spare.old ≡ 256) }
    ensures { (v i : ℕ) (d : T) → v < count → i < 64
        → slice_index_or values.new (64 * v + i) d
        ≡ slice_index_or values.old (64 * slice_index from.now v + i) d }
{
    for v in 0..count {
        let u = usize::from(from[v]);
        if u != v {
            copy_value(values, u, spare, v);
        }
    }
    for v in 0..count {
        if usize::from(from[v]) != v {
            copy_value(spare, v, values, v);
        }
    }
}

// A Swizzle of the values of a block.
pub fn swizzle_step<W: WholeNumber, N: Numerator>(
    from: &[u8; 4],
    stage: Stage,
    _position: &PixelPosition,
    before: &Form,
    after: &Form,
    values: &mut [W],
    spare: &mut [W],
    numbers: &mut [N],
    sums: &mut [N],
)
    requires good { are_good stage (Op.Swizzle from.now) ≡ true }
    requires step { IsStep W.bits N.width stage before.now (Op.Swizzle from.now) after.now }
    requires few { after.now.count ≤ 4 }
    requires block { (length values.old ≡ 256) × (length spare.old ≡ 256)
        × (length numbers.old ≡ 256) × (length sums.old ≡ 256) }
    requires bounded { IsBounded W.number N.value stage before.now values.old numbers.old }
    ensures bounded { IsBounded W.number N.value
        (stage_after stage (Op.Swizzle from.now)) after.now values.new numbers.new }
    ensures holds { Performs W.number N.value stage before.now
        (Op.Swizzle from.now) after.now _position.now values.old numbers.old values.new
        numbers.new }
{
    if stage.is_rational() {
        swizzle(from, after.count, numbers, sums)
    } else {
        swizzle(from, after.count, values, spare)
    }
}

// The form after a Swizzle.
pub fn swizzle_form(from: &[u8; 4], before: &Form, count: usize) -> Option<Form>
    ensures few { IfSome result (λ form. form.count ≤ 4) }
    ensures moved { IfSome result (λ form. (v : ℕ) → v < form.count
        → IsMoved before.now (slice_index from.now v) form v) }
{
    if count > 4 {
        return None;
    }
    let mut after = Form {
        count: 0,
        extents: before.extents,
        factors: [[0; 5]; 4],
        divisors: [NO_DIVISOR; 4],
    };
    for v in 0..count {
        let u = usize::from(from[v]);
        if u >= before.count || u >= 4 {
            return None;
        }
        after.count += 1;
        after.extents[v] = before.extents[u];
    }
    Some(after)
}
