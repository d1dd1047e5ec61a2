// Whether two matrices, and two ranges, are one.
ghost use Rattle.std.specs.Prelude.{◌≡◌, ◌↔◌, IsTrue};

use crate::class::Range;
use crate::matrix::Matrix;

/// Whether two matrices have the same parts, number by number.
pub fn same_matrix(a: &Matrix, b: &Matrix) -> bool
    ensures { IsTrue result ↔ (a.now ≡ b.now) }
{
    a == b
}

/// Whether two ranges are one.
pub fn same_range(a: Range, b: Range) -> bool
    ensures { IsTrue result ↔ (a ≡ b) }
{
    a == b
}
