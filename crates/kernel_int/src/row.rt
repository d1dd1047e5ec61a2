// A list of operations on a row of pixels.
ghost use Rattle.std.specs.Prelude.{◌≡◌, ℕ, ◌*◌, ◌<◌, ◌≤◌, length, sum, slice_index, []};
ghost use Rattle.op_list.specs.Pixel.{element_of};
ghost use Rattle.op_list.specs.Run.{run};
ghost use Rattle.kernel_planes.specs.Block.{position_at};
ghost use Rattle.kernel_step.specs.Forms.{IsKernel, last_op, op_at};
ghost use Rattle.kernel_planes.specs.Planes.{planes_of, elem_of};
ghost use Rattle.kernel_planes.specs.Planes.{AreRows, palette_length, row_frame, row_list};
ghost use Rattle.kernel_planes.specs.Planes.{rows_of};

use crate::block::run_block;
use kernel_affine::find_chain;
use kernel_planes::{Planes, WholeNumber};
use kernel_step::{Form, Numerator};
use op_list::{Op, PixelPosition};

// Runs the operations on a row, block by block.
pub fn run_blocks<W: WholeNumber, N: Numerator>(
    ops: &[Op],
    forms: &[Form],
    input: &Planes<'_>,
    first: &mut [u8],
    second: &mut [u8],
    third: &mut [u8],
    fourth: &mut [u8],
    width: u32,
    y: u32,
    values: &mut [W],
    spare: &mut [W],
    numbers: &mut [N],
    sums: &mut [N],
)
    requires kernel { IsKernel ops.now forms.now W.bits N.width }
    requires input { AreRows (op_at ops.now 0) width (rows_of input.now) }
    requires entries { length input.now.palette.now ≡ palette_length (op_at ops.now 0) }
    requires output { AreRows (last_op ops.now) width
        (row_list first.old second.old third.old fourth.old) }
    requires block { (length values.old ≡ 256) × (length spare.old ≡ 256)
        × (length numbers.old ≡ 256) × (length sums.old ≡ 256) }
    ensures stored { (x v : ℕ) → x < width → v < sum (planes_of (last_op ops.now))
        → element_of (elem_of (last_op ops.now)) (planes_of (last_op ops.now))
        (row_frame (row_list first.new second.new third.new fourth.new) [])
        (position_at width 1 0 y x) v
        ≡ slice_index (run ops.now (row_frame (rows_of input.now) input.now.palette.now)
        width 1 x 0 y) v }
{
    let chain = find_chain(ops, forms);
    for block in 0..width.div_ceil(64) {
        let start = block * 64;
        let position = PixelPosition {
            width,
            rows: 1,
            x: start,
            row: 0,
            y,
        };
        let n = (width - start).min(64) as usize;
        run_block(
            ops, forms, &chain, input, &position, n, values, spare, numbers, sums, first, second,
            third, fourth,
        );
    }
}
