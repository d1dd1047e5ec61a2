// Where the rows of a raw frame lie.
ghost use Rattle.std.specs.Prelude.{◌≡◌, ◌+◌, ◌*◌, ◌<◌, ◌≤◌};
ghost use Rattle.pix_desc.specs.Layouts.{IsValid, IsLaidOut};
ghost use Rattle.pix_desc.specs.Frame.{plane_step, row_length, plane_start, frame_length};
ghost use Rattle.pix_desc.specs.Frame.{row_start};

use pix_desc::Desc;

// The bytes of a pixel in a plane, and 0 where no component lies in it.
fn step_of(desc: &Desc, plane: u8) -> u8
    requires { IsLaidOut desc.now }
    ensures value { result ≡ plane_step desc.now plane }
    ensures most { result ≤ 8 }
{
    for j in 0..desc.count {
        let comp = desc.comps[usize::from(j)];
        if comp.plane == plane {
            return comp.step;
        }
    }
    0
}

// The bytes of a row of a plane.
fn row_len(desc: &Desc, width: u32, plane: u8) -> u64
    requires { IsLaidOut desc.now }
    ensures value { result ≡ row_length desc.now width plane }
    ensures most { result ≤ width * 8 }
{
    u64::from(width) * u64::from(step_of(desc, plane))
}

// The bytes of the planes before one.
fn len_before(desc: &Desc, width: u32, height: u32, plane: u8) -> u64
    requires laid_out { IsLaidOut desc.now }
    requires width { width ≤ 16384 }
    requires height { height ≤ 16384 }
    requires plane { plane ≤ 4 }
    ensures value { result ≡ plane_start desc.now width height plane }
    ensures most { result ≤ plane * (8 * (width * height)) }
{
    let mut len = 0;
    for before in 0..plane {
        len += u64::from(height) * row_len(desc, width, before);
    }
    len
}

/// The bytes of a raw frame of a format: its planes in order, each with its rows from the top and
/// no padding, and for a palette format 256 entries of 4 bytes behind them.
#[tactic(auto, unfolding(pix_desc::specs::Frame::frame_length))]
pub fn frame_len(desc: &Desc, width: u32, height: u32) -> u64
    requires valid { IsValid desc.now }
    requires width { width ≤ 16384 }
    requires height { height ≤ 16384 }
    ensures value { result ≡ frame_length desc.now width height }
    ensures bound { result ≤ 32 * (width * height) + 1024 }
{
    let planes = len_before(desc, width, height, 4);
    if desc.palette { planes + 1024 } else { planes }
}

/// Where a row of a plane begins in a raw frame, counted in bytes from the frame's first. The row
/// is in the frame.
#[tactic(auto, unfolding(pix_desc::specs::Frame::row_start))]
pub fn row_start(desc: &Desc, width: u32, height: u32, plane: u8, row: u32) -> u64
    requires valid { IsValid desc.now }
    requires width { width ≤ 16384 }
    requires height { height ≤ 16384 }
    requires plane { plane < 4 }
    requires row { row < height }
    ensures value { result ≡ row_start desc.now width height plane row }
    ensures inside { result + row_length desc.now width plane ≤ frame_length desc.now width height }
{
    len_before(desc, width, height, plane) + u64::from(row) * row_len(desc, width, plane)
}

#[cfg(test)]
mod tests;
