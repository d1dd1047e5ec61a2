ghost use Rattle.std.specs.Prelude.{◌≡◌, ◌<◌, ◌≤◌, ◌&&◌, sum, slice_index, nat_eq, nat_lt};
ghost use Rattle.op_list.specs.Values.{four, entry};
ghost use Rattle.op_list.specs.Apply.{row_of};
ghost use Rattle.op_range.specs.Used.{is_missing, takes, used_before, is_used, any_of_four};
ghost use Rattle.op_range.specs.Used.{used_from};

use frac_math::Frac;
use op_list::{Op, total};

/// Which values are used, that is, may change the elements that are written: a flag for each.
pub type Used = [bool; 4];

/// The values used before an operation, from those used after it.
#[tactic(auto, unfolding(crate::specs::Used::used_before))]
pub fn used_before(op: &Op, used: &Used) -> Used
    ensures { result ≡ used_before op.now used.now }
{
    match op {
        Op::Write { planes, .. } => first_used(planes),
        Op::Unpack { widths } => used_by_fields(widths, used),
        Op::Pack { widths } => used_in_fields(widths, used[0]),
        Op::Clear { values } => not_cleared(values, used),
        Op::Swizzle { from } => taken_from(from, used),
        Op::Linear { rows } => taken_by_rows(rows, used),
        Op::Read { .. }
        | Op::SwapBytes
        | Op::LeftShift { .. }
        | Op::RightShift { .. }
        | Op::Convert { .. }
        | Op::Dither { .. }
        | Op::Scale { .. }
        | Op::Min { .. }
        | Op::Max { .. } => *used,
    }
}

fn first_used(planes: &[u8; 4]) -> Used
    ensures { result ≡ four (λ i. nat_lt i (sum planes.now)) }
{
    let count = total(planes);
    [0 < count, 1 < count, 2 < count, 3 < count]
}

// The first value, where any used field has bits.
fn used_by_fields(widths: &[u8; 4], used: &Used) -> Used
    ensures { result ≡ four
        (λ i. nat_eq i 0 && any_of_four
        (λ j. is_used used.now j && nat_lt 0 (slice_index widths.now j))) }
{
    let any = used[0] && 0 < widths[0]
        || used[1] && 0 < widths[1]
        || used[2] && 0 < widths[2]
        || used[3] && 0 < widths[3];
    [any, false, false, false]
}

// The values whose fields have bits, where the packed value is used.
fn used_in_fields(widths: &[u8; 4], packed: bool) -> Used
    ensures { result ≡ four (λ i. packed && nat_lt 0 (slice_index widths.now i)) }
{
    [
        packed && 0 < widths[0],
        packed && 0 < widths[1],
        packed && 0 < widths[2],
        packed && 0 < widths[3],
    ]
}

// The used values that are not cleared.
fn not_cleared(entries: &[Option<Frac>; 4], used: &Used) -> Used
    ensures { result ≡ four (λ i. is_used used.now i && is_missing (entry entries.now i)) }
{
    [
        is_left(used[0], &entries[0]),
        is_left(used[1], &entries[1]),
        is_left(used[2], &entries[2]),
        is_left(used[3], &entries[3]),
    ]
}

fn is_left(used: bool, entry: &Option<Frac>) -> bool
    ensures { result ≡ (used && is_missing entry.now) }
{
    match entry {
        Some(_) => false,
        None => used,
    }
}

// The values from which a used one is taken.
fn taken_from(from: &[u8; 4], used: &Used) -> Used
    ensures { result ≡ four
        (λ i. any_of_four (λ j. is_used used.now j && nat_eq (slice_index from.now j) i)) }
{
    [
        is_taken(from, used, 0),
        is_taken(from, used, 1),
        is_taken(from, used, 2),
        is_taken(from, used, 3),
    ]
}

fn is_taken(from: &[u8; 4], used: &Used, i: u8) -> bool
    ensures { result ≡ any_of_four (λ j. is_used used.now j && nat_eq (slice_index from.now j) i) }
{
    used[0] && from[0] == i
        || used[1] && from[1] == i
        || used[2] && from[2] == i
        || used[3] && from[3] == i
}

// The values for which a used row has a coefficient other than 0.
fn taken_by_rows(rows: &[[Frac; 5]; 4], used: &Used) -> Used
    ensures { result ≡ four
        (λ i. any_of_four (λ j. is_used used.now j && takes (row_of rows.now j) i)) }
{
    [
        is_in_rows(rows, used, 0),
        is_in_rows(rows, used, 1),
        is_in_rows(rows, used, 2),
        is_in_rows(rows, used, 3),
    ]
}

fn is_in_rows(rows: &[[Frac; 5]; 4], used: &Used, i: usize) -> bool
    requires { i < 4 }
    ensures { result ≡ any_of_four (λ j. is_used used.now j && takes (row_of rows.now j) i) }
{
    used[0] && takes(&rows[0], i)
        || used[1] && takes(&rows[1], i)
        || used[2] && takes(&rows[2], i)
        || used[3] && takes(&rows[3], i)
}

fn takes(row: &[Frac; 5], i: usize) -> bool
    requires { i < 4 }
    ensures { result ≡ takes row.now i }
{
    row[i] != Frac::whole(0)
}

/// The values used before some operations.
#[tactic(auto, unfolding(crate::specs::Used::used_from))]
pub fn used_from(ops: &[Op]) -> Used
    ensures { result ≡ used_from ops.now }
{
    match ops {
        [] => [false; 4],
        [op, rest @ ..] => used_before(op, &used_from(rest)),
    }
}
