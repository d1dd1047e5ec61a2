// The fields of whole numbers.
ghost use Rattle.std.specs.Prelude.{◌≡◌, ◌+◌, ◌*◌, ◌/◌, ◌%◌, ◌^◌, ◌<◌, ◌≤◌};
ghost use Rattle.op_list.specs.Whole.{bits_below};

use kernel_lane::{Change, Merge};
use kernel_planes::WholeNumber;

/// The bits below field v.
pub fn bits_below(widths: &[u8; 4], v: usize) -> u32
    requires { v < 4 }
    ensures { result ≡ bits_below widths.now v }
{
    match v {
        0 => u32::from(widths[1]) + u32::from(widths[2]) + u32::from(widths[3]),
        1 => u32::from(widths[2]) + u32::from(widths[3]),
        2 => u32::from(widths[3]),
        _ => 0,
    }
}

// The field of a number that has so many bits above the lowest `below`: what is above it is shifted
// out, and then what is below it.
#[derive(Clone, Copy)]
pub struct Field {
    pub below: u32,
    pub width: u8,
}

impl<W: WholeNumber> Merge<W, W> for Field {
    ghost takes = { λ r _ _. (0 < r.width) × (r.below + r.width ≤ W.bits) };

    ghost makes = { λ r _ x y. W.number y ≡ W.number x / 2 ^ r.below % 2 ^ r.width };

    fn merged(self, _old: W, from: W) -> W {
        let above = W::size() - self.below - u32::from(self.width);
        from.shifted_left(above).shifted_right(above + self.below)
    }
}

// The lowest bits of a number, so many of them, above `below` others.
#[derive(Clone, Copy)]
pub struct FieldPlace {
    pub below: u32,
    pub width: u8,
}

// What is above those bits is shifted out.
fn placed<W: WholeNumber>(x: W, below: u32, width: u8) -> W
    requires { (0 < width) × (below + width ≤ W.bits) }
    ensures { W.number result ≡ W.number x % 2 ^ width * 2 ^ below }
{
    let above = W::size() - below - u32::from(width);
    x.shifted_left(below + above).shifted_right(above)
}

impl<W: WholeNumber> Change<W> for FieldPlace {
    ghost takes = { λ r _. (0 < r.width) × (r.below + r.width ≤ W.bits) };

    ghost makes = { λ r x y. W.number y ≡ W.number x % 2 ^ r.width * 2 ^ r.below };

    fn changed(self, x: W) -> W {
        placed(x, self.below, self.width)
    }
}

// They are added to the number that is there.
impl<W: WholeNumber> Merge<W, W> for FieldPlace {
    ghost takes = { λ r s x. (0 < r.width) × (r.below + r.width ≤ W.bits)
        × (W.number s + W.number x % 2 ^ r.width * 2 ^ r.below < 2 ^ W.bits) };

    ghost makes = { λ r s x y. W.number y ≡ W.number s + W.number x % 2 ^ r.width * 2 ^ r.below };

    fn merged(self, old: W, from: W) -> W {
        old.plus(placed(from, self.below, self.width))
    }
}
