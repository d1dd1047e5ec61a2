// Matrices by name, and their coefficients.
ghost use Rattle.std.specs.Prelude.{◌≡◌, IfSome};
ghost use Rattle.colour_matrix.specs.Matrix.{IsMatrix, of_parts, matrix_named};
ghost use Rattle.colour_matrix.specs.Values.{Values, by_rows, product, identity};
ghost use Rattle.colour_matrix.specs.Colour.{to_rgb, from_rgb, to_rgb_rows, from_rgb_rows};

use crate::ratio::{negative_ratio, ratio, whole};
use frac_math::Frac;

/// A matrix: of `q` parts of luma `r` are red, `b` are blue, and the rest is green. Its bounds are
/// `r >= 1`, `b >= 1` and `r + b < q <= 16777216`. In the words of ITU-T H.273 section 8.3 K_R is
/// r/q and K_B is b/q.
#[derive(Clone, Copy, Debug, PartialEq, Eq)]
pub struct Matrix {
    pub q: u32,
    pub r: u32,
    pub b: u32,
}

/// The matrix of a name: bt601, bt709, bt2020, smpte240m or fcc, byte for byte; none for any other
/// name.
///
/// The parts are K_R and K_B of ITU-T H.273 table 4, as whole numbers over their common
/// denominator: MatrixCoefficients 6 (and 5), 1, 9, 7 and 4. Each is within the bounds of `Matrix`.
pub fn named(name: &str) -> Option<Matrix>
    ensures value { result ≡ matrix_named name.now }
    ensures sound { IfSome result IsMatrix }
{
    match name {
        "bt601" => Some(of_parts(1000, 299, 114)),
        "bt709" => Some(of_parts(10000, 2126, 722)),
        "bt2020" => Some(of_parts(10000, 2627, 593)),
        "smpte240m" => Some(of_parts(1000, 212, 87)),
        "fcc" => Some(of_parts(100, 30, 11)),
        _ => None,
    }
}

fn of_parts(q: u32, r: u32, b: u32) -> Matrix
    ensures { result ≡ of_parts q r b }
{
    Matrix { q, r, b }
}

/// The coefficients by which luma and chroma give red, green and blue: rows R, G, B over Y, U, V,
/// each an exact fraction.
///
/// `m` has to be within the bounds of `Matrix`. The values are those of ITU-T H.273 section 8.3,
/// where E'_Y, E'_R, E'_G and E'_B go from 0 to 1, and U and V, its E'_PB and E'_PR, from -1/2 to
/// 1/2. These are its equations of the non-constant luminance, solved for red, green and blue.
pub fn to_rgb(m: &Matrix) -> [[Frac; 3]; 3]
    requires { IsMatrix m.now }
    ensures coefficients { result ≡ to_rgb_rows m.now }
    ensures equations { (e : Values) → by_rows result e ≡ to_rgb m.now e }
    ensures undoes { (c : Values) → to_rgb m.now (from_rgb m.now c) ≡ c }
    ensures inverse { product result (from_rgb_rows m.now) ≡ identity }
{
    let q = u64::from(m.q);
    let r = u64::from(m.r);
    let b = u64::from(m.b);
    let g = q - r - b;
    let zero = whole(0);
    let one = whole(1);
    [
        [one, zero, ratio(2 * (q - r), q)],
        [
            one,
            negative_ratio(2 * b * (q - b), q * g),
            negative_ratio(2 * r * (q - r), q * g),
        ],
        [one, ratio(2 * (q - b), q), zero],
    ]
}

/// The coefficients by which red, green and blue give luma and chroma: rows Y, U, V over R, G, B,
/// each an exact fraction.
///
/// `m` has to be within the bounds of `Matrix`. The values are those of `to_rgb`: Y, R, G and B
/// from 0 to 1, and U and V from -1/2 to 1/2 (ITU-T H.273 section 8.3, E'_Y, E'_PB and E'_PR).
pub fn from_rgb(m: &Matrix) -> [[Frac; 3]; 3]
    requires { IsMatrix m.now }
    ensures coefficients { result ≡ from_rgb_rows m.now }
    ensures equations { (c : Values) → by_rows result c ≡ from_rgb m.now c }
    ensures undoes { (e : Values) → from_rgb m.now (to_rgb m.now e) ≡ e }
    ensures inverse { product result (to_rgb_rows m.now) ≡ identity }
{
    let q = u64::from(m.q);
    let r = u64::from(m.r);
    let b = u64::from(m.b);
    let g = q - r - b;
    let half = ratio(1, 2);
    [
        [ratio(r, q), ratio(g, q), ratio(b, q)],
        [
            negative_ratio(r, 2 * (q - b)),
            negative_ratio(g, 2 * (q - b)),
            half,
        ],
        [
            half,
            negative_ratio(g, 2 * (q - r)),
            negative_ratio(b, 2 * (q - r)),
        ],
    ]
}
