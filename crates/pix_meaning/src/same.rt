// Whether two conversions are one.
ghost use Rattle.std.specs.Prelude.{◌≡◌, ◌↔◌, IsTrue};

use crate::pair::{Pair, Side};
use colour_matrix::{same_matrix, same_range};
use pix_desc::same_desc;

fn same_side(a: &Side, b: &Side) -> bool
    ensures { IsTrue result ↔ (a.now ≡ b.now) }
{
    same_desc(&a.desc, &b.desc) && same_matrix(&a.matrix, &b.matrix) && same_range(a.range, b.range)
}

/// Whether two conversions are equal in all that they say: the descriptors, matrices and ranges of
/// both sides, and the dither.
pub fn same_pair(a: &Pair, b: &Pair) -> bool
    ensures { IsTrue result ↔ (a.now ≡ b.now) }
{
    same_side(&a.from, &b.from) && same_side(&a.to, &b.to) && a.dither == b.dither
}
