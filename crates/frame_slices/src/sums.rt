// Sums of the bytes of a target frame.
ghost use Rattle.std.specs.Prelude.{◌≡◌, ◌<◌, ◌≤◌, ◌^◌, length, sum};
ghost use Rattle.frame_slices.specs.FrameSlices.{target_plane_in, target_planes_in};

use crate::frame_slice::FrameSlice;

fn sum_bytes(bytes: &[u8]) -> u64
    requires { length bytes.now ≤ 2 ^ 34 }
    ensures value { result ≡ sum bytes.now }
    ensures most { result ≤ 2 ^ 42 }
{
    let mut total = 0;
    for k in 0..bytes.len() {
        total += u64::from(bytes[k]);
    }
    total
}

// The sum over a plane, slice after slice.
fn sum_plane(slices: &[FrameSlice], plane: u8) -> u64
    requires plane { plane < 4 }
    requires few { length slices.now ≤ 16384 }
    ensures value { result ≡ sum (target_plane_in plane slices.now) }
    ensures most { result ≤ 2 ^ 56 }
{
    let mut total = 0;
    for k in 0..slices.len() {
        total += sum_bytes(slices[k].target_plane(plane));
    }
    total
}

/// The sum over the planes, plane after plane.
pub fn sum_planes(slices: &[FrameSlice]) -> u64
    requires { length slices.now ≤ 16384 }
    ensures { result ≡ sum (target_planes_in 4 slices.now) }
{
    let mut total = 0;
    for plane in 0..4 {
        total += sum_plane(slices, plane);
    }
    total
}
