// The levels of the channels of a side.
ghost use Rattle.std.specs.Prelude.{◌≡◌, ◌<◌};
ghost use Rattle.pix_desc.specs.Layouts.{IsValid};
ghost use Rattle.pix_meaning.specs.Pairs.{class_of};
ghost use Rattle.pix_meaning.specs.Channels.{channel_levels};

use crate::channel::{channel_depth, is_rgb};
use crate::pair::Side;
use colour_matrix::{Class, Levels, levels};
use pix_desc::Desc;

/// What the values of a channel are.
pub fn class_of(desc: &Desc, c: u8) -> Class
    ensures { result ≡ class_of desc.now c }
{
    match c {
        0 => if is_rgb(desc) {
            Class::Direct
        } else {
            Class::Luma
        },
        1 => chroma_class(desc),
        2 => chroma_class(desc),
        _ => Class::Direct,
    }
}

fn chroma_class(desc: &Desc) -> Class
    ensures { result ≡ class_of desc.now 1 }
{
    if is_rgb(desc) {
        Class::Direct
    } else {
        Class::Chroma
    }
}

/// The levels of a channel of a side, also where the format has it not.
pub fn channel_levels(side: &Side, c: u8) -> Levels
    requires valid { IsValid side.now.desc }
    requires channel { c < 4 }
    ensures { result ≡ channel_levels side.now c }
{
    levels(
        class_of(&side.desc, c),
        channel_depth(&side.desc, c),
        side.range,
    )
}
