// What the ranges of a list say of the whole numbers on the way through it.
ghost use Rattle.std.specs.Prelude.{◌≡◌, ◌≤◌, ◌<◌, ◌^◌, slice_index};
ghost use Rattle.kernel_step.specs.Forms.{limit_of, limits_in};

use op_range::{CompRange, StateRange};

// A limit above each whole number of so many bits that is in a range.
fn limit_of(range: &CompRange, bits: u32) -> u64
    requires { bits ≤ 32 }
    ensures { result ≡ limit_of range.now.greatest bits }
{
    let all = 1u64 << bits;
    match range.greatest {
        None => all,
        Some(x) => {
            let greatest = x.num().unsigned_abs() / x.den().unsigned_abs();
            if greatest < u128::from(all) {
                greatest as u64 + 1
            } else {
                all
            }
        }
    }
}

/// Limits above the whole numbers of so many bits that are in the ranges of a state.
pub fn limits_of(state: &StateRange, bits: u32) -> [u64; 4]
    requires { bits ≤ 32 }
    ensures { slice_index result ≡ slice_index (limits_in state.now bits) }
{
    [
        limit_of(&state.comps[0], bits),
        limit_of(&state.comps[1], bits),
        limit_of(&state.comps[2], bits),
        limit_of(&state.comps[3], bits),
    ]
}
