// How many values of a pixel are wanted on the way through a list.
ghost use Rattle.std.specs.Prelude.{◌≤◌, length};

use frac_math::Frac;
use op_list::{Op, total};

// The values that an operation needs, where so many are wanted after it.
fn needed(op: &Op, count: usize) -> usize {
    match op {
        Op::Unpack { .. } => 1,
        Op::Pack { widths } => widths.iter().filter(|width| **width != 0).count(),
        Op::Swizzle { from } => from
            .iter()
            .take(count)
            .map(|u| usize::from(*u) + 1)
            .max()
            .unwrap_or(0),
        Op::Linear { rows } => needed_by_rows(rows, count),
        Op::Read { .. }
        | Op::Write { .. }
        | Op::SwapBytes
        | Op::Clear { .. }
        | Op::LeftShift { .. }
        | Op::RightShift { .. }
        | Op::Convert { .. }
        | Op::Dither { .. }
        | Op::Scale { .. }
        | Op::Min { .. }
        | Op::Max { .. } => count,
    }
}

// One more than the last value that one of the first rows has a coefficient for.
fn needed_by_rows(rows: &[[Frac; 5]; 4], count: usize) -> usize {
    let mut most = 0;
    for row in rows.iter().take(count) {
        for j in 0..4 {
            if row[j].num() != 0 && most <= j {
                most = j + 1;
            }
        }
    }
    most
}

/// How many values are wanted after each operation of a list of at most 24.
pub fn counts_of(ops: &[Op]) -> [usize; 24]
    requires { length ops.now ≤ 24 }
{
    let mut counts = [4; 24];
    let mut count = match ops.last() {
        Some(Op::Write { planes, .. }) => total(planes) as usize,
        _ => 4,
    };
    for (k, op) in ops.iter().enumerate().rev() {
        counts[k] = count;
        count = needed(op, count);
    }
    counts
}
