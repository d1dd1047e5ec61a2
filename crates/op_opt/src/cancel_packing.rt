// Cancel unpack and pack.
ghost use Rattle.std.specs.Prelude.{◌≡◌};
ghost use Rattle.op_opt.specs.CancelPacking.{cancel_packing, fill, uses_first_alone};

use crate::change::Change;
use op_list::{Op, Stage, total};
use op_range::{Used, used_from};

// A word that is unpacked and packed again is itself, where only it is used.
#[tactic(auto, unfolding(crate::specs::CancelPacking::cancel_packing))]
pub fn cancel_packing(stage: Stage, ops: &[Op]) -> Option<Change>
    ensures { result ≡ cancel_packing stage ops.now }
{
    match ops {
        [
            Op::Unpack { widths: fields },
            Op::Pack { widths },
            rest @ ..,
        ] => {
            if fields == widths
                && fill(stage.bits(), fields)
                && uses_first_alone(&used_from(rest))
            {
                Some(Change {
                    taken: 2,
                    given: None,
                })
            } else {
                None
            }
        }
        _ => None,
    }
}

// Whether the fields fill so many bits.
fn fill(bits: u32, fields: &[u8; 4]) -> bool
    ensures { result ≡ fill bits fields.now }
{
    total(fields) == bits
}

fn uses_first_alone(used: &Used) -> bool
    ensures { result ≡ uses_first_alone used.now }
{
    !used[1] && !used[2] && !used[3]
}
