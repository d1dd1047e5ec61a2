// Which conversions are accepted.
ghost use Rattle.std.specs.Prelude.{◌↔◌, IsTrue};
ghost use Rattle.pix_desc.specs.Layouts.{IsValid};
ghost use Rattle.colour_matrix.specs.Matrix.{IsMatrix};
ghost use Rattle.pix_meaning.specs.Pairs.{IsValidPair};

use crate::pair::{Pair, Side};
use colour_matrix::Matrix;
use pix_desc::check;

/// Whether both descriptors pass the check, both matrices are within the bounds of a matrix, and
/// the dither is at most 4.
pub fn pair_valid(pair: &Pair) -> bool
    ensures { IsTrue result ↔ IsValidPair pair.now }
{
    is_valid_side(&pair.from) && is_valid_side(&pair.to) && pair.dither <= 4
}

// Whether a side's descriptor passes the check, and its matrix is within the bounds of a matrix.
fn is_valid_side(side: &Side) -> bool
    ensures { IsTrue result ↔ (IsValid side.now.desc × IsMatrix side.now.matrix) }
{
    check(&side.desc).is_ok() && is_matrix(&side.matrix)
}

// Whether red, blue and green have each a part, and there are at most 2^24 parts.
fn is_matrix(matrix: &Matrix) -> bool
    ensures { IsTrue result ↔ IsMatrix matrix.now }
{
    1 <= matrix.r
        && 1 <= matrix.b
        && matrix.r < matrix.q
        && matrix.b < matrix.q - matrix.r
        && matrix.q <= 16777216
}
