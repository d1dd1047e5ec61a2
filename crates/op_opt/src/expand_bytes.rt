// Expand bytes by a conversion.
ghost use Rattle.std.specs.Prelude.{◌≡◌, ◌<◌, true, Some};
ghost use Rattle.op_opt.specs.ExpandBytes.{expand_bytes, expanding_coefficient, is_expanding_row};
ghost use Rattle.op_opt.specs.ExpandBytes.{expands_used, goes_through_fractions};

use crate::change::Change;
use frac_math::Frac;
use op_list::{Op, PixType, Stage};
use op_range::{Used, used_from};

// Bytes that become fractions, 257 times as great, and then words, as expanded bytes.
#[tactic(auto, unfolding(crate::specs::ExpandBytes::expand_bytes))]
pub fn expand_bytes(stage: Stage, ops: &[Op]) -> Option<Change>
    ensures { result ≡ expand_bytes stage ops.now }
{
    match ops {
        [
            Op::Convert { to: by, .. },
            Op::Scale { by: factor },
            Op::Convert { to, .. },
            ..
        ] => {
            if goes_through_fractions(stage, *by, *to) && *factor == Frac::whole(257) {
                Some(expansion())
            } else {
                None
            }
        }
        [
            Op::Convert { to: by, .. },
            Op::Linear { rows },
            Op::Convert { to, .. },
            rest @ ..,
        ] => {
            if goes_through_fractions(stage, *by, *to) && expands_used(&used_from(rest), rows) {
                Some(expansion())
            } else {
                None
            }
        }
        _ => None,
    }
}

fn expansion() -> Change
    ensures { result ≡ record { taken = 3; given = Some (Op.Convert PixType.U16 true) } }
{
    Change {
        taken: 3,
        given: Some(Op::Convert {
            to: PixType::U16,
            expand: true,
        }),
    }
}

// From bytes to fractions, and from fractions to words.
fn goes_through_fractions(stage: Stage, by: PixType, to: PixType) -> bool
    ensures { result ≡ goes_through_fractions stage by to }
{
    stage.has_type(PixType::U8) && by == PixType::Rat && to == PixType::U16
}

fn expands_used(used: &Used, rows: &[[Frac; 5]; 4]) -> bool
    ensures { result ≡ expands_used used.now rows.now }
{
    (!used[0] || is_expanding_row(0, &rows[0]))
        && (!used[1] || is_expanding_row(1, &rows[1]))
        && (!used[2] || is_expanding_row(2, &rows[2]))
        && (!used[3] || is_expanding_row(3, &rows[3]))
}

// Whether a row gives 257 times value i.
#[tactic(auto, unfolding(crate::specs::ExpandBytes::is_expanding_row))]
fn is_expanding_row(i: usize, row: &[Frac; 5]) -> bool
    requires { i < 4 }
    ensures { result ≡ is_expanding_row i row.now }
{
    row[0] == expanding_coefficient(i, 0)
        && row[1] == expanding_coefficient(i, 1)
        && row[2] == expanding_coefficient(i, 2)
        && row[3] == expanding_coefficient(i, 3)
        && row[4] == expanding_coefficient(i, 4)
}

fn expanding_coefficient(i: usize, j: usize) -> Frac
    ensures { result ≡ expanding_coefficient i j }
{
    Frac::whole(if j == i { 257 } else { 0 })
}
