ghost use Rattle.std.specs.Prelude.{◌≡◌, ◌&&◌, ◌||◌, not};
ghost use Rattle.op_list.specs.Values.{four, entry};
ghost use Rattle.op_range.specs.Ranges.{range_in};
ghost use Rattle.op_range.specs.Used.{is_used};
ghost use Rattle.op_opt.specs.Entries.{is_given};
ghost use Rattle.op_opt.specs.TrimClamp.{trim_clamp, is_known_at_most};

use crate::change::Change;
use crate::entries::{is_given, lowest, without};
use frac_math::Frac;
use op_list::Op;
use op_range::{Ranges, Used, is_at_most, used_from};

// A Min or a Max without the entry of the lowest value that is not used after it, or that lies
// within the limit before it.
#[tactic(auto, unfolding(crate::specs::TrimClamp::trim_clamp))]
pub fn trim_clamp(ranges: &Ranges, ops: &[Op]) -> Option<Change>
    ensures { result ≡ trim_clamp ranges.now ops.now }
{
    match ops {
        [Op::Min { limits }, rest @ ..] => {
            let idle = idle_above(limits, ranges, &used_from(rest));
            match lowest(&idle) {
                Some(i) => Some(Change {
                    taken: 1,
                    given: Some(Op::Min {
                        limits: without(limits, i),
                    }),
                }),
                None => None,
            }
        }
        [Op::Max { limits }, rest @ ..] => {
            let idle = idle_below(limits, ranges, &used_from(rest));
            match lowest(&idle) {
                Some(i) => Some(Change {
                    taken: 1,
                    given: Some(Op::Max {
                        limits: without(limits, i),
                    }),
                }),
                None => None,
            }
        }
        _ => None,
    }
}

fn idle_above(limits: &[Option<Frac>; 4], ranges: &Ranges, used: &Used) -> [bool; 4]
    ensures { result ≡ four (λ i. is_given (entry limits.now i)
        && (not (is_used used.now i) || is_known_at_most (range_in ranges.now i).greatest
        (entry limits.now i))) }
{
    [
        is_idle(
            &limits[0],
            used[0],
            is_known_at_most(&ranges[0].greatest, &limits[0]),
        ),
        is_idle(
            &limits[1],
            used[1],
            is_known_at_most(&ranges[1].greatest, &limits[1]),
        ),
        is_idle(
            &limits[2],
            used[2],
            is_known_at_most(&ranges[2].greatest, &limits[2]),
        ),
        is_idle(
            &limits[3],
            used[3],
            is_known_at_most(&ranges[3].greatest, &limits[3]),
        ),
    ]
}

fn idle_below(limits: &[Option<Frac>; 4], ranges: &Ranges, used: &Used) -> [bool; 4]
    ensures { result ≡ four (λ i. is_given (entry limits.now i)
        && (not (is_used used.now i) || is_known_at_most (entry limits.now i)
        (range_in ranges.now i).least)) }
{
    [
        is_idle(
            &limits[0],
            used[0],
            is_known_at_most(&limits[0], &ranges[0].least),
        ),
        is_idle(
            &limits[1],
            used[1],
            is_known_at_most(&limits[1], &ranges[1].least),
        ),
        is_idle(
            &limits[2],
            used[2],
            is_known_at_most(&limits[2], &ranges[2].least),
        ),
        is_idle(
            &limits[3],
            used[3],
            is_known_at_most(&limits[3], &ranges[3].least),
        ),
    ]
}

fn is_idle(limit: &Option<Frac>, used: bool, within: bool) -> bool
    ensures { result ≡ (is_given limit.now && (not used || within)) }
{
    is_given(limit) && (!used || within)
}

fn is_known_at_most(low: &Option<Frac>, high: &Option<Frac>) -> bool
    ensures { result ≡ is_known_at_most low.now high.now }
{
    match (low, high) {
        (Some(low), Some(high)) => is_at_most(low, high),
        _ => false,
    }
}
