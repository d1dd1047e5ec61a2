ghost use Rattle.std.specs.Prelude.{◌≡◌, ◌&&◌, ◌||◌, not};
ghost use Rattle.op_list.specs.Values.{four, entry};
ghost use Rattle.op_range.specs.Ranges.{range_in, is_whole_limit};
ghost use Rattle.op_range.specs.Used.{is_used};
ghost use Rattle.op_opt.specs.DropDither.{drop_dither, lead_to_floors, are_whole};
ghost use Rattle.op_opt.specs.OfFour.{all_of_four};

use crate::change::Change;
use frac_math::Frac;
use op_list::Op;
use op_range::{Ranges, Used, used_from};

// No dither where each used value is whole, and only what keeps floors the same stands before the
// next Convert to a whole type.
#[tactic(auto, unfolding(crate::specs::DropDither::drop_dither))]
pub fn drop_dither(ranges: &Ranges, ops: &[Op]) -> Option<Change>
    ensures { result ≡ drop_dither ranges.now ops.now }
{
    match ops {
        [Op::Dither { .. }, rest @ ..] => {
            if used_are_whole(ranges, &used_from(rest)) && lead_to_floors(rest) {
                Some(Change {
                    taken: 1,
                    given: None,
                })
            } else {
                None
            }
        }
        _ => None,
    }
}

fn used_are_whole(ranges: &Ranges, used: &Used) -> bool
    ensures { result ≡ all_of_four (λ i. not (is_used used.now i) ||
        (range_in ranges.now i).whole) }
{
    (!used[0] || ranges[0].whole)
        && (!used[1] || ranges[1].whole)
        && (!used[2] || ranges[2].whole)
        && (!used[3] || ranges[3].whole)
}

// Operations that keep equal floors equal, up to a Convert to a whole type.
#[tactic(auto, unfolding(crate::specs::DropDither::lead_to_floors))]
fn lead_to_floors(ops: &[Op]) -> bool
    ensures { result ≡ lead_to_floors ops.now }
{
    match ops {
        [Op::Convert { to, .. }, ..] => to.is_whole(),
        [Op::Swizzle { .. }, rest @ ..] => lead_to_floors(rest),
        [Op::Clear { values }, rest @ ..] => are_whole(values) && lead_to_floors(rest),
        [Op::Min { limits }, rest @ ..] => are_whole(limits) && lead_to_floors(rest),
        [Op::Max { limits }, rest @ ..] => are_whole(limits) && lead_to_floors(rest),
        _ => false,
    }
}

fn are_whole(entries: &[Option<Frac>; 4]) -> bool
    ensures { result ≡ are_whole entries.now }
{
    is_whole(&entries[0]) && is_whole(&entries[1]) && is_whole(&entries[2]) && is_whole(&entries[3])
}

fn is_whole(entry: &Option<Frac>) -> bool
    ensures { result ≡ is_whole_limit entry.now }
{
    match entry {
        Some(value) => value.den() == 1,
        None => true,
    }
}
