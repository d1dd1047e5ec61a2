// Reset what is not used.
ghost use Rattle.std.specs.Prelude.{◌≡◌, ◌<◌, ◌&&◌, not, nat_eq, slice_index, if◌then◌else◌};
ghost use Rattle.op_list.specs.Apply.{row_of};
ghost use Rattle.op_list.specs.Values.{four};
ghost use Rattle.op_list.specs.Identity.{identity_coefficient, is_identity_row};
ghost use Rattle.op_range.specs.Used.{is_used};
ghost use Rattle.op_opt.specs.ResetUnused.{reset_unused, reset_row, reset_index, identity_row};

use crate::change::Change;
use crate::entries::lowest;
use frac_math::Frac;
use op_list::{Op, is_identity_row};
use op_range::{Used, used_from};

type Row = [Frac; 5];

type Rows = [Row; 4];

// The row, or the index, of the lowest value that is not used after it is made the identity.
#[tactic(auto, unfolding(crate::specs::ResetUnused::reset_unused))]
pub fn reset_unused(ops: &[Op]) -> Option<Change>
    ensures { result ≡ reset_unused ops.now }
{
    match ops {
        [Op::Linear { rows }, rest @ ..] => {
            let free = free_rows(rows, &used_from(rest));
            match lowest(&free) {
                Some(i) => Some(Change {
                    taken: 1,
                    given: Some(Op::Linear {
                        rows: reset_row(rows, i),
                    }),
                }),
                None => None,
            }
        }
        [Op::Swizzle { from }, rest @ ..] => {
            let free = free_indices(from, &used_from(rest));
            match lowest(&free) {
                Some(i) => Some(Change {
                    taken: 1,
                    given: Some(Op::Swizzle {
                        from: reset_index(from, i),
                    }),
                }),
                None => None,
            }
        }
        _ => None,
    }
}

fn free_rows(rows: &Rows, used: &Used) -> [bool; 4]
    ensures { result ≡ four
        (λ i. not (is_used used.now i) && not (is_identity_row i (row_of rows.now i))) }
{
    [
        !used[0] && !is_identity_row(0, &rows[0]),
        !used[1] && !is_identity_row(1, &rows[1]),
        !used[2] && !is_identity_row(2, &rows[2]),
        !used[3] && !is_identity_row(3, &rows[3]),
    ]
}

fn free_indices(from: &[u8; 4], used: &Used) -> [bool; 4]
    ensures { result ≡ four
        (λ i. not (is_used used.now i) && not (nat_eq (slice_index from.now i) i)) }
{
    [
        !used[0] && from[0] != 0,
        !used[1] && from[1] != 1,
        !used[2] && from[2] != 2,
        !used[3] && from[3] != 3,
    ]
}

fn reset_row(rows: &Rows, i: usize) -> Rows
    ensures { result ≡ reset_row rows.now i }
{
    [
        row_unless(i == 0, 0, &rows[0]),
        row_unless(i == 1, 1, &rows[1]),
        row_unless(i == 2, 2, &rows[2]),
        row_unless(i == 3, 3, &rows[3]),
    ]
}

fn row_unless(reset: bool, i: usize, row: &Row) -> Row
    ensures { result ≡ (if reset then identity_row i else row.now) }
{
    if reset { identity_row(i) } else { *row }
}

// The row that gives value i back.
fn identity_row(i: usize) -> Row
    ensures { result ≡ identity_row i }
{
    [
        coefficient(i, 0),
        coefficient(i, 1),
        coefficient(i, 2),
        coefficient(i, 3),
        coefficient(i, 4),
    ]
}

fn coefficient(i: usize, j: usize) -> Frac
    ensures { result ≡ identity_coefficient i j }
{
    Frac::whole(if j == i { 1 } else { 0 })
}

fn reset_index(from: &[u8; 4], i: usize) -> [u8; 4]
    ensures { result ≡ reset_index from.now i }
{
    [
        if i == 0 { 0 } else { from[0] },
        if i == 1 { 1 } else { from[1] },
        if i == 2 { 2 } else { from[2] },
        if i == 3 { 3 } else { from[3] },
    ]
}
