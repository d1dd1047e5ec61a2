// Operations on fractions that make each value from that value alone.
ghost use Rattle.std.specs.Prelude.{◌≡◌, ℕ, ◌+◌, ◌*◌, ◌<◌, ◌≤◌, ◌⊎◌, true, length, slice_index_or};
ghost use Rattle.op_list.specs.Typing.{stage_after, may_follow, are_good};
ghost use Rattle.kernel_planes.specs.Block.{pixel_at};
ghost use Rattle.kernel_step.specs.Forms.{IsBounded, Performs, AreMade, extent_at, factor};
ghost use Rattle.kernel_step.specs.Forms.{factors_at};
ghost use Rattle.kernel_step.specs.ValueSteps.{AreIn, IsMade, MakesValue, is_by_value, makes};

use crate::dither::dither_value;
use crate::form::{Extent, Form};
use crate::max::max_value;
use crate::min::min_value;
use crate::numerator::Numerator;
use crate::scale::scale_value;
use kernel_planes::WholeNumber;
use op_list::{Op, PixelPosition, Stage};

// An operation on value v of the pixels.
fn make_value<N: Numerator>(
    op: &Op,
    _stage: Stage,
    position: &PixelPosition,
    numbers: &mut [N],
    v: usize,
    old: &Extent,
    factors: &[i128; 5],
    new: &Extent,
    sums: &mut [N],
)
    requires good { are_good _stage op.now ≡ true }
    requires block { (v < 4) × (length numbers.old ≡ 256) × (length sums.old ≡ 256) }
    requires is { IsMade N.width op.now v old.now (factor factors.now 0)
        (factor factors.now 1) new.now }
    requires old { AreIn N.value numbers.old v old.now }
    ensures made { MakesValue N.value numbers.old numbers.new v old.now new.now
        (λ i x. makes op.now v (pixel_at position.now i) x) }
    ensures kept { (j : ℕ) (d : N) → (j < 64 * v) ⊎ (64 * v + 64 ≤ j)
        → slice_index_or numbers.new j d ≡ slice_index_or numbers.old j d }
{
    match op {
        Op::Scale { by } => scale_value(by, numbers, v, old, factors, new),
        Op::Min { limits } => min_value(&limits[v], numbers, v, old, factors, new),
        Op::Max { limits } => max_value(&limits[v], numbers, v, old, factors, new),
        Op::Dither { k } => dither_value(*k, position, numbers, v, old, factors, new, sums),
        _ => unreachable!(),
    }
}

/// An operation that makes each value from that value alone.
pub fn value_step<W: WholeNumber, N: Numerator>(
    op: &Op,
    stage: Stage,
    position: &PixelPosition,
    before: &Form,
    after: &Form,
    _values: &[W],
    numbers: &mut [N],
    sums: &mut [N],
)
    requires kind { is_by_value op.now ≡ true }
    requires follows { may_follow stage op.now ≡ true }
    requires good { are_good stage op.now ≡ true }
    requires step { AreMade N.width before.now op.now after.now }
    requires few { after.now.count ≤ 4 }
    requires block { (length numbers.old ≡ 256) × (length sums.old ≡ 256) }
    requires bounded { IsBounded W.number N.value stage before.now _values.now numbers.old }
    ensures bounded { IsBounded W.number N.value
        (stage_after stage op.now) after.now _values.now numbers.new }
    ensures holds { Performs W.number N.value stage before.now op.now after.now position.now
        _values.now numbers.old _values.now numbers.new }
{
    for v in 0..after.count {
        make_value(
            op,
            stage,
            position,
            numbers,
            v,
            &before.extents[v],
            &after.factors[v],
            &after.extents[v],
            sums,
        );
    }
}
