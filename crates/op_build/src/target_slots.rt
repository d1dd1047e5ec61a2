// From the numbers of a pixel to its channels, and back.
ghost use Rattle.std.specs.Prelude.{◌≡◌, ◌<◌, None, slice_index_or};
ghost use Rattle.pix_desc.specs.Layouts.{IsValid};
ghost use Rattle.pix_desc.specs.Shape.{slots};
ghost use Rattle.op_build.specs.Recipe.{source_of, slot_channels, spare_zero, spare_zeros};

use frac_math::Frac;
use pix_desc::{Desc, has_slot, slot_at};
use pix_meaning::channel_of;

// The channel that goes to a slot, or what stands there where it is spare.
fn slot_channel(desc: &Desc, p: u8) -> u8
    requires valid { IsValid desc.now }
    requires slot { p < 4 }
    ensures { result ≡ source_of desc.now p (slice_index_or (slots desc.now) p None) }
{
    match slot_at(desc, p) {
        Some(j) => channel_of(desc, j),
        None => p,
    }
}

/// The channels that go to the slots of a pixel.
pub fn slot_channels(desc: &Desc) -> [u8; 4]
    requires { IsValid desc.now }
    ensures { result ≡ slot_channels desc.now }
{
    [
        slot_channel(desc, 0),
        slot_channel(desc, 1),
        slot_channel(desc, 2),
        slot_channel(desc, 3),
    ]
}

// 0 for a spare slot that is there.
fn spare_zero(desc: &Desc, p: u8) -> Option<Frac>
    requires valid { IsValid desc.now }
    requires slot { p < 4 }
    ensures { result ≡ spare_zero desc.now p (slice_index_or (slots desc.now) p None) }
{
    match slot_at(desc, p) {
        Some(_) => None,
        None => if has_slot(desc, p) {
            Some(Frac::whole(0))
        } else {
            None
        },
    }
}

/// 0 for the spare slots that are there.
pub fn spare_zeros(desc: &Desc) -> [Option<Frac>; 4]
    requires { IsValid desc.now }
    ensures { result ≡ spare_zeros desc.now }
{
    [
        spare_zero(desc, 0),
        spare_zero(desc, 1),
        spare_zero(desc, 2),
        spare_zero(desc, 3),
    ]
}
