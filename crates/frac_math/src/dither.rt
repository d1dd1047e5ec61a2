ghost use Rattle.std.specs.Prelude.{◌≡◌, ◌≤◌, ◌<◌};
ghost use Rattle.frac_math.specs.Dither.{dither_at, index};

use crate::frac::{Frac, reduced};

// The number in the index matrix of 2 by 2, in column x and row y.
fn index(x: u32, y: u32) -> u32
    requires column { x < 2 }
    requires row { y < 2 }
    ensures { result ≡ index x y }
{
    match (x, y) {
        (0, 0) => 0,
        (0, _) => 3,
        (_, 0) => 2,
        _ => 1,
    }
}

/// What the ordered dither adds to a wanted code before its floor, at the pixel of column `x` and
/// row `y` of the whole
/// frame, both counted from 0.
///
/// It repeats after 2^k pixels each way, where k is 0 to 4, and is an odd multiple of 1/(2 * 4^k),
/// strictly between 0 and
/// 1; at k = 0 it is 1/2 everywhere. The values are those of Bayer's index matrix as
/// `generate_bayer_matrix` of FFmpeg's
/// libswscale/format.c makes it, with the half step that centres each in its interval.
pub fn dither_at(k: u8, x: u32, y: u32) -> Frac
    requires { k ≤ 4 }
    ensures { result ≡ dither_at k x y }
{
    let mut sum: u32 = 0;
    let mut cells: u32 = 1;
    for i in 0..k {
        sum = 4 * sum + index((x >> i) % 2, (y >> i) % 2);
        cells *= 4;
    }
    reduced(i128::from(2 * sum + 1), i128::from(2 * cells))
}
