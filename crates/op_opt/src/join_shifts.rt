// Join two shifts.
ghost use Rattle.std.specs.Prelude.{◌≡◌, ◌≤◌, ◌-◌, ◌^◌, Some};
ghost use Rattle.frac_math.specs.Fraction.{nat};
ghost use Rattle.op_opt.specs.JoinShifts.{join_shifts, has_room, used_have_room};
ghost use Rattle.op_opt.specs.JoinShifts.{shift_between, sum_below};

use crate::change::{Change, joined};
use frac_math::Frac;
use op_list::{Op, Stage};
use op_range::{Ranges, Used, is_at_most, used_from};

// Two shifts as one.
#[tactic(auto, unfolding(crate::specs::JoinShifts::join_shifts))]
pub fn join_shifts(stage: Stage, ranges: &Ranges, ops: &[Op]) -> Option<Change>
    ensures { result ≡ join_shifts stage ranges.now ops.now }
{
    match ops {
        [Op::LeftShift { n: a }, Op::LeftShift { n: b }, ..] => {
            let n = sum_below(stage.bits(), *a, *b)?;
            Some(joined(Op::LeftShift { n }))
        }
        [Op::RightShift { n: a }, Op::RightShift { n: b }, ..] => {
            let n = sum_below(stage.bits(), *a, *b)?;
            Some(joined(Op::RightShift { n }))
        }
        [Op::LeftShift { n: a }, Op::RightShift { n: b }, rest @ ..] => {
            if used_have_room(stage.bits(), *a, &used_from(rest), ranges) {
                Some(joined(shift_between(*a, *b)))
            } else {
                None
            }
        }
        _ => None,
    }
}

// A shift by both, where they come to fewer than all bits.
fn sum_below(bits: u32, a: u8, b: u8) -> Option<u8>
    requires { bits ≤ 32 }
    ensures { result ≡ sum_below bits a b }
{
    let sum = u32::from(a) + u32::from(b);
    if sum < bits { Some(sum as u8) } else { None }
}

// A shift by a to the left and then by b to the right.
fn shift_between(a: u8, b: u8) -> Op
    ensures { result ≡ shift_between a b }
{
    if b <= a {
        Op::LeftShift { n: a - b }
    } else {
        Op::RightShift { n: b - a }
    }
}

// Whether each used value keeps all its bits in a shift by n to the left.
fn used_have_room(bits: u32, n: u8, used: &Used, ranges: &Ranges) -> bool
    requires { bits ≤ 32 }
    ensures { result ≡ used_have_room bits n used.now ranges.now }
{
    (!used[0] || has_room(bits, n, &ranges[0].greatest))
        && (!used[1] || has_room(bits, n, &ranges[1].greatest))
        && (!used[2] || has_room(bits, n, &ranges[2].greatest))
        && (!used[3] || has_room(bits, n, &ranges[3].greatest))
}

fn has_room(bits: u32, n: u8, greatest: &Option<Frac>) -> bool
    requires { bits ≤ 32 }
    ensures { result ≡ has_room bits n greatest.now }
{
    match greatest {
        Some(most) => !is_at_most(&least_without_room(bits, n), most),
        None => false,
    }
}

fn least_without_room(bits: u32, n: u8) -> Frac
    requires { bits ≤ 32 }
    ensures { result ≡ nat (2 ^ (bits - n)) }
{
    let power: u64 = 1 << bits.saturating_sub(u32::from(n));
    Frac::whole(i128::from(power))
}
