// The limits of the codes of a target pixel.
ghost use Rattle.std.specs.Prelude.{◌≡◌, ◌<◌, ◌-◌, ◌^◌, Some, None, if◌then◌else◌};
ghost use Rattle.frac_math.specs.Fraction.{nat};
ghost use Rattle.pix_desc.specs.Layouts.{IsValid};
ghost use Rattle.pix_meaning.specs.Pairs.{has_channel};
ghost use Rattle.pix_meaning.specs.Channels.{channel_depth};
ghost use Rattle.op_build.specs.Recipe.{limits};

use crate::sources::power;
use frac_math::Frac;
use pix_desc::Desc;
use pix_meaning::{channel_depth, has_channel};

fn least(desc: &Desc, c: u8) -> Option<Frac>
    ensures { result ≡ (if has_channel desc.now c then Some (nat 0) else None) }
{
    if has_channel(desc, c) {
        Some(Frac::whole(0))
    } else {
        None
    }
}

/// The least code of each channel of a format.
pub fn least_codes(desc: &Desc) -> [Option<Frac>; 4]
    ensures { result ≡ limits desc.now (λ c. nat 0) }
{
    [
        least(desc, 0),
        least(desc, 1),
        least(desc, 2),
        least(desc, 3),
    ]
}

fn greatest(desc: &Desc, c: u8) -> Option<Frac>
    requires valid { IsValid desc.now }
    requires channel { c < 4 }
    ensures { result ≡ (if has_channel desc.now c then Some
        (nat (2 ^ channel_depth desc.now c - 1)) else None) }
{
    if has_channel(desc, c) {
        let code = power(channel_depth(desc, c)).saturating_sub(1);
        Some(Frac::whole(i128::from(code)))
    } else {
        None
    }
}

/// The greatest code of each channel of a format.
pub fn greatest_codes(desc: &Desc) -> [Option<Frac>; 4]
    requires { IsValid desc.now }
    ensures { result ≡ limits desc.now (λ c. nat (2 ^ channel_depth desc.now c - 1)) }
{
    [
        greatest(desc, 0),
        greatest(desc, 1),
        greatest(desc, 2),
        greatest(desc, 3),
    ]
}
