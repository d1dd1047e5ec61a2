// What an operation makes of each value from that value alone, within the width of a list.
ghost use Rattle.std.specs.Prelude.{◌≡◌, ◌*◌, ◌^◌, ◌<◌, ◌≤◌, pos, ◌<ℤ◌, unsigned_abs};
ghost use Rattle.op_range.specs.Width.{limited_size};
ghost use Rattle.kernel_step.specs.Forms.{factor, width_of};
ghost use Rattle.kernel_step.specs.ValueSteps.{IsAtLeast, IsAtMost, IsMade};
ghost use Rattle.kernel_joint.specs.Joint.{IsLimit, MadeFits, extent_size, made_denominator};
ghost use Rattle.kernel_joint.specs.Joint.{made_size, room};

use crate::joint_value::{
    joint_at_least, joint_at_most, joint_dithered, joint_raised, joint_scaled,
};
use frac_math::Frac;
use kernel_step::{Extent, Made, NumberWidth};
use op_list::Op;

// The numbers of an extent, but at most a limit that may be there.
fn joint_min(limit: &Option<Frac>, e: u128, old: &Extent, number_width: NumberWidth) -> Made
    requires limit { IsLimit number_width e limit.now }
    requires positive { pos 0 <ℤ old.now.denominator }
    requires denominator { unsigned_abs old.now.denominator * e < room number_width }
    requires size { limited_size e (unsigned_abs old.now.denominator) limit.now
        (extent_size old.now) < room number_width }
    ensures made { IsAtMost (width_of number_width) old.now limit.now
        (factor result.factors 0) result.extent }
    ensures denominator { result.extent.denominator ≡ pos (unsigned_abs old.now.denominator * e) }
    ensures size { extent_size result.extent
        ≤ limited_size e (unsigned_abs old.now.denominator) limit.now (extent_size old.now) }
{
    match limit {
        Some(x) => joint_at_most(x, e, old, number_width),
        None => joint_raised(e, old, number_width),
    }
}

// The same, but at least a limit.
fn joint_max(limit: &Option<Frac>, e: u128, old: &Extent, number_width: NumberWidth) -> Made
    requires limit { IsLimit number_width e limit.now }
    requires positive { pos 0 <ℤ old.now.denominator }
    requires denominator { unsigned_abs old.now.denominator * e < room number_width }
    requires size { limited_size e (unsigned_abs old.now.denominator) limit.now
        (extent_size old.now) < room number_width }
    ensures made { IsAtLeast (width_of number_width) old.now limit.now
        (factor result.factors 0) result.extent }
    ensures denominator { result.extent.denominator ≡ pos (unsigned_abs old.now.denominator * e) }
    ensures size { extent_size result.extent
        ≤ limited_size e (unsigned_abs old.now.denominator) limit.now (extent_size old.now) }
{
    match limit {
        Some(x) => joint_at_least(x, e, old, number_width),
        None => joint_raised(e, old, number_width),
    }
}

// How many values a dither of this number has below 1, each half a step from the next.
fn places(k: u8) -> u128
    requires { k ≤ 4 }
    ensures value { result ≡ 2 * 4 ^ k }
    ensures some { 0 < result }
{
    match k {
        0 => 2,
        1 => 8,
        2 => 32,
        3 => 128,
        _ => 512,
    }
}

/// What an operation makes of value v: e is how many times the joint denominator grows, and d what
/// it becomes.
pub fn joint_made(
    op: &Op,
    v: usize,
    old: &Extent,
    e: u128,
    d: u128,
    number_width: NumberWidth,
) -> Made
    requires v { v < 4 }
    requires fits { MadeFits number_width op.now v old.now e d }
    ensures made { IsMade (width_of number_width) op.now v old.now (factor result.factors 0)
        (factor result.factors 1) result.extent }
    ensures denominator { result.extent.denominator ≡ pos (made_denominator op.now old.now e d) }
    ensures size { extent_size result.extent ≤ made_size op.now v old.now e d }
{
    match op {
        Op::Scale { by } => joint_scaled(by, old, number_width),
        Op::Min { limits } => joint_min(&limits[v], e, old, number_width),
        Op::Max { limits } => joint_max(&limits[v], e, old, number_width),
        Op::Dither { k } => joint_dithered(places(*k), d, old, number_width),
        _ => unreachable!(),
    }
}
