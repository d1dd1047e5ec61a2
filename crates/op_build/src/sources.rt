// Where the channels of a source pixel are taken from, and the codes of those that the format has
// not.
ghost use Rattle.std.specs.Prelude.{◌≡◌, ◌<◌, ◌≤◌, ◌^◌, false, Some, None, if◌then◌else◌};
ghost use Rattle.frac_math.specs.Fraction.{nat};
ghost use Rattle.pix_desc.specs.Layouts.{IsValid};
ghost use Rattle.pix_meaning.specs.Pairs.{has_channel, component_at};
ghost use Rattle.pix_desc.specs.Shape.{position_of};
ghost use Rattle.pix_meaning.specs.Channels.{missing_code};
ghost use Rattle.op_build.specs.Recipe.{channel_slots, missing_codes};

use frac_math::Frac;
use pix_desc::{Desc, position_of};
use pix_meaning::{component_at, depth_of, has_channel};

/// 2^exponent.
pub fn power(exponent: u8) -> u32
    requires { exponent ≤ 16 }
    ensures { result ≡ 2 ^ exponent }
{
    1 << exponent
}

// The code of a channel that the format has not.
fn missing_code(desc: &Desc, c: u8) -> u32
    requires { IsValid desc.now }
    ensures { result ≡ missing_code desc.now c }
{
    let depth = depth_of(desc, 0);
    let below = depth.saturating_sub(1);
    if c == 3 {
        power(depth).saturating_sub(1)
    } else {
        power(below)
    }
}

fn missing_entry(desc: &Desc, c: u8) -> Option<Frac>
    requires { IsValid desc.now }
    ensures { result
        ≡ (if has_channel desc.now c then None else Some (nat (missing_code desc.now c))) }
{
    if has_channel(desc, c) {
        None
    } else {
        Some(Frac::whole(i128::from(missing_code(desc, c))))
    }
}

/// The codes of the channels that the format has not.
pub fn missing_codes(desc: &Desc) -> [Option<Frac>; 4]
    requires { IsValid desc.now }
    ensures { result ≡ missing_codes desc.now }
{
    [
        missing_entry(desc, 0),
        missing_entry(desc, 1),
        missing_entry(desc, 2),
        missing_entry(desc, 3),
    ]
}

fn channel_slot(desc: &Desc, c: u8) -> u8
    requires valid { IsValid desc.now }
    requires plain { desc.now.palette ≡ false }
    requires channel { c < 4 }
    ensures { result ≡ (if has_channel desc.now c then position_of desc.now
        (component_at desc.now c) else c) }
{
    if has_channel(desc, c) {
        position_of(desc, component_at(desc, c))
    } else {
        c
    }
}

/// The slots that the channels are taken from.
pub fn channel_slots(desc: &Desc) -> [u8; 4]
    requires valid { IsValid desc.now }
    requires plain { desc.now.palette ≡ false }
    ensures { result ≡ channel_slots desc.now }
{
    [
        channel_slot(desc, 0),
        channel_slot(desc, 1),
        channel_slot(desc, 2),
        channel_slot(desc, 3),
    ]
}
