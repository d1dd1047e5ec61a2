// Extents within the width of a list, at 128 bits.
ghost use Rattle.std.specs.Prelude.{◌≡◌, ◌<◌, ◌^◌};
ghost use Rattle.kernel_joint.specs.Joint.{IsAround, extent_size};

use kernel_step::Extent;

/// The greatest numerator of an extent, without its sign.
pub fn size_of(extent: &Extent) -> u128
    ensures { result ≡ extent_size extent.now }
{
    extent
        .least
        .unsigned_abs()
        .max(extent.greatest.unsigned_abs())
}

/// All numerators over d that are no greater than a size.
pub fn around(d: u128, size: u128) -> Extent
    requires d { d < 2 ^ 126 }
    requires size { size < 2 ^ 126 }
    ensures { IsAround result d size }
{
    let most = size as i128;
    Extent {
        denominator: d as i128,
        least: -most,
        greatest: most,
    }
}
