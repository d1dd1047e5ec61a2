ghost use Rattle.std.specs.Prelude.{◌≡◌, ◌++◌, true, IfOk, OnOk};
ghost use Rattle.op_list.specs.Typing.{are_typed, ends_with_write};
ghost use Rattle.op_range.specs.Ranges.{range_in};
ghost use Rattle.op_range.specs.Used.{is_used};
ghost use Rattle.op_range.specs.States.{comp_range, state_of, states_from, states_of, Encloses};

use crate::range::{Ranges, ValueRange};
use crate::used::{Used, used_from};
use crate::walk::{ranges_after, start_ranges};
use frac_math::{Frac, OutOfMemory};
use op_list::{Op, OpList, Stage};
use std::alloc::Global;

/// What is known of a value after an operation of a list, at every pixel of every frame.
#[derive(Clone, Copy, Debug, PartialEq, Eq)]
pub struct CompRange {
    /// The value is not below it. None where it is not known.
    pub least: Option<Frac>,
    /// The value is not above it. None where it is not known.
    pub greatest: Option<Frac>,
    /// Where it is true, the value is a whole number.
    pub whole: bool,
    /// Where it is false, no other value in its place would change the elements that are written.
    pub used: bool,
}

/// What is known of the four values after an operation.
#[derive(Clone, Copy, Debug, PartialEq, Eq)]
pub struct StateRange {
    /// Those of values 0 to 3.
    pub comps: [CompRange; 4],
}

fn comp(range: &ValueRange, used: bool) -> CompRange
    ensures { result ≡ comp_range range.now used }
{
    CompRange {
        least: range.least,
        greatest: range.greatest,
        whole: range.whole,
        used,
    }
}

fn comps(ranges: &Ranges, used: &Used) -> [CompRange; 4]
    ensures { result ≡ (state_of ranges.now used.now).comps }
{
    [
        comp(&ranges[0], used[0]),
        comp(&ranges[1], used[1]),
        comp(&ranges[2], used[2]),
        comp(&ranges[3], used[3]),
    ]
}

/// What is known of the values after each operation of a whole list, in the order of its
/// operations.
///
/// The values of every pixel of every frame of bytes lie between the bounds that are there, are
/// whole numbers where `whole` is true, and cannot change what Write is given where `used` is
/// false. After the Write this is said of the first values, as many as are written.
pub fn ranges(alloc: Global, list: &OpList) -> Result<Vec<StateRange>, OutOfMemory>
    requires whole { ends_with_write list.now ≡ true }
    ensures value { IfOk result (λ states. states.items ≡ states_of list.now) }
    ensures encloses { IfOk result (λ states. Encloses states.items list.now) }
{
    let mut states = Vec::new(alloc);
    append_states(&mut states, list.ops(), Stage::Start, &start_ranges())?;
    Ok(states)
}

// Puts the states after each of some operations at the end.
#[tactic(auto, unfolding(crate::specs::States::states_from))]
fn append_states(
    states: &mut Vec<StateRange>,
    ops: &[Op],
    stage: Stage,
    ranges: &Ranges,
) -> Result<(), OutOfMemory>
    requires { are_typed stage ops.now ≡ true }
    ensures { OnOk result
        (states.new.items ≡ states.old.items ++ states_from stage ops.now ranges.now) }
{
    match ops {
        [] => Ok(()),
        [op, rest @ ..] => {
            let after = ranges_after(op, stage, ranges);
            let comps: [CompRange; 4] = comps(&after, &used_from(rest));
            states.push(StateRange { comps })?;
            append_states(states, rest, op.stage_after(stage), &after)
        }
    }
}
