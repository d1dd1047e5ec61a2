// The conversion of a row that stands in the rows of its planes.
ghost use Rattle.std.specs.Prelude.{◌≡◌, ◌<◌, [], length, All};
ghost use Rattle.pix_meaning.specs.Target.{target_rows};
ghost use Rattle.kernel_planes.specs.Planes.{row_frame, row_list, rows_of};
ghost use Rattle.row_plan.specs.Planes.{AreRowsOf, palette_bytes};

use crate::plans::Plan;
use kernel_planes::Planes;

// The numbers of a slice are bytes: its type says so of a parameter, and not of a field.
fn are_bytes(bytes: &[u8])
    ensures { All (λ byte. byte < 256) bytes.now }
{}

impl Plan {
    /// Converts one row of `width` pixels from the rows of its planes into the rows of the planes
    /// of the target, without a frame. y is its row in the whole frame, by which the dither goes.
    /// Each slice has the bytes of its plane, and is empty where its format has no such plane; the
    /// palette has 1024 bytes where the source has one, and else none. Put one after the other, the
    /// rows of the target are the target frame of one row. It takes no memory.
    pub fn convert_planes(
        &self,
        y: u32,
        width: u32,
        input: &Planes<'_>,
        first: &mut [u8],
        second: &mut [u8],
        third: &mut [u8],
        fourth: &mut [u8],
    )
        requires input { AreRowsOf self.now.pair.from.desc width (rows_of input.now) }
        requires palette { length input.now.palette.now ≡ palette_bytes self.now.pair.from.desc }
        requires output { AreRowsOf self.now.pair.to.desc width
            (row_list first.old second.old third.old fourth.old) }
        ensures sizes { (length first.new ≡ length first.old)
            × (length second.new ≡ length second.old)
            × (length third.new ≡ length third.old)
            × (length fourth.new ≡ length fourth.old) }
        ensures target { row_frame (row_list first.new second.new third.new fourth.new) []
            ≡ target_rows self.now.pair width 1 y
            (row_frame (rows_of input.now) input.now.palette.now) }
    {
        are_bytes(input.first);
        are_bytes(input.second);
        are_bytes(input.third);
        are_bytes(input.fourth);
        are_bytes(input.palette);
        self.kernel
            .run_planes(input, first, second, third, fourth, width, y)
    }
}
