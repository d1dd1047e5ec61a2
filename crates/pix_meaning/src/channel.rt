// How the components of a format are taken for colours.
ghost use Rattle.std.specs.Prelude.{◌≡◌};
ghost use Rattle.pix_meaning.specs.Pairs.{is_rgb, has_channel, component_count, component_at};
ghost use Rattle.pix_meaning.specs.Pairs.{channel_of, depth_of};
ghost use Rattle.pix_meaning.specs.Channels.{channel_depth};

use pix_desc::{Desc, component_of};

/// Whether the pixels are red, green and blue, also by the entries of a palette.
pub fn is_rgb(desc: &Desc) -> bool
    ensures { result ≡ is_rgb desc.now }
{
    desc.rgb || desc.palette
}

/// Whether the format has a channel.
pub fn has_channel(desc: &Desc, c: u8) -> bool
    ensures { result ≡ has_channel desc.now c }
{
    match c {
        0 => true,
        1 => is_rgb(desc) || 3 <= desc.count,
        2 => is_rgb(desc) || 3 <= desc.count,
        _ => desc.alpha,
    }
}

// The components of a pixel, or of a palette's entry.
fn component_count(desc: &Desc) -> u8
    ensures { result ≡ component_count desc.now }
{
    if desc.palette { 4 } else { desc.count }
}

/// The component that gives a channel which is there.
pub fn component_at(desc: &Desc, c: u8) -> u8
    ensures { result ≡ component_at desc.now c }
{
    if c == 3 {
        component_count(desc).saturating_sub(1)
    } else {
        c
    }
}

/// The channel that a component gives.
pub fn channel_of(desc: &Desc, j: u8) -> u8
    ensures { result ≡ channel_of desc.now j }
{
    if desc.alpha && u16::from(j) + 1 == u16::from(component_count(desc)) {
        3
    } else {
        j
    }
}

/// The bits of component `j`.
pub fn depth_of(desc: &Desc, j: u8) -> u8
    ensures { result ≡ depth_of desc.now j }
{
    if desc.palette {
        8
    } else {
        component_of(desc, j).depth
    }
}

/// The depth by which a channel goes, also where the format has it not.
pub fn channel_depth(desc: &Desc, c: u8) -> u8
    ensures { result ≡ channel_depth desc.now c }
{
    if has_channel(desc, c) {
        depth_of(desc, component_at(desc, c))
    } else {
        depth_of(desc, 0)
    }
}
