// Drop an idle operation.
ghost use Rattle.std.specs.Prelude.{◌≡◌, ◌||◌, not, nat_eq, slice_index};
ghost use Rattle.op_list.specs.Values.{entry};
ghost use Rattle.op_list.specs.Apply.{row_of};
ghost use Rattle.op_list.specs.Identity.{is_identity_row};
ghost use Rattle.op_range.specs.Used.{is_used, is_missing, used_from};
ghost use Rattle.op_opt.specs.OfFour.{all_of_four};
ghost use Rattle.op_opt.specs.DropIdle.{drop_idle, is_idle, are_missing};

use crate::change::Change;
use frac_math::Frac;
use op_list::{Op, Stage, is_identity_row};
use op_range::{Used, used_from};

// Drops an operation that leaves each used value as it is.
#[tactic(auto, unfolding(crate::specs::DropIdle::drop_idle))]
pub fn drop_idle(stage: Stage, ops: &[Op]) -> Option<Change>
    ensures { result ≡ drop_idle stage ops.now }
{
    match ops {
        [] => None,
        [op, rest @ ..] => {
            if is_idle(stage, op, rest) {
                Some(Change {
                    taken: 1,
                    given: None,
                })
            } else {
                None
            }
        }
    }
}

// Whether an operation leaves each value as it is that the rest uses.
#[tactic(auto, unfolding(crate::specs::DropIdle::is_idle))]
fn is_idle(stage: Stage, op: &Op, rest: &[Op]) -> bool
    ensures { result ≡ is_idle stage (used_from rest.now) op.now }
{
    match op {
        Op::Clear { values } => are_missing(values),
        Op::LeftShift { n } | Op::RightShift { n } => *n == 0,
        Op::Swizzle { from } => takes_used_in_place(from, &used_from(rest)),
        Op::Convert { to, expand } => stage.has_type(*to) && !*expand,
        Op::Linear { rows } => gives_used_back(rows, &used_from(rest)),
        Op::Scale { by } => *by == Frac::whole(1),
        Op::Min { limits } | Op::Max { limits } => are_missing(limits),
        Op::Read { .. }
        | Op::Write { .. }
        | Op::SwapBytes
        | Op::Unpack { .. }
        | Op::Pack { .. }
        | Op::Dither { .. } => false,
    }
}

fn are_missing(entries: &[Option<Frac>; 4]) -> bool
    ensures { result ≡ are_missing entries.now }
{
    is_missing(&entries[0])
        && is_missing(&entries[1])
        && is_missing(&entries[2])
        && is_missing(&entries[3])
}

fn is_missing(entry: &Option<Frac>) -> bool
    ensures { result ≡ is_missing entry.now }
{
    match entry {
        Some(_) => false,
        None => true,
    }
}

fn takes_used_in_place(from: &[u8; 4], used: &Used) -> bool
    ensures { result ≡ all_of_four
        (λ i. not (is_used used.now i) || nat_eq (slice_index from.now i) i) }
{
    (!used[0] || from[0] == 0)
        && (!used[1] || from[1] == 1)
        && (!used[2] || from[2] == 2)
        && (!used[3] || from[3] == 3)
}

fn gives_used_back(rows: &[[Frac; 5]; 4], used: &Used) -> bool
    ensures { result ≡ all_of_four
        (λ i. not (is_used used.now i) || is_identity_row i (row_of rows.now i)) }
{
    (!used[0] || is_identity_row(0, &rows[0]))
        && (!used[1] || is_identity_row(1, &rows[1]))
        && (!used[2] || is_identity_row(2, &rows[2]))
        && (!used[3] || is_identity_row(3, &rows[3]))
}
