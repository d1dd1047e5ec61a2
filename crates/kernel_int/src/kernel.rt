ghost use Rattle.std.specs.Prelude.{◌≡◌, ℕ, ◌+◌, ◌*◌, ◌<◌, true, length, sum, slice_index, []};
ghost use Rattle.op_list.specs.Typing.{are_counts, are_good, are_typed, ends_with_write};
ghost use Rattle.op_list.specs.Typing.{may_follow};
ghost use Rattle.op_list.specs.declared.types.Stage.TheVariants.{Start};
ghost use Rattle.op_list.specs.declared.position.PixelPosition.{PixelPosition};
ghost use Rattle.op_list.specs.Pixel.{element_of, frame_length};
ghost use Rattle.op_list.specs.Run.{run, read_length};
ghost use Rattle.kernel_planes.specs.Block.{IsOtherRow, position_at};
ghost use Rattle.kernel_step.specs.Forms.{IsKernel, last_op, op_at, bits_of};
ghost use Rattle.kernel_planes.specs.Planes.{planes_of, elem_of};
ghost use Rattle.kernel_step.specs.Forms.{width_of};
ghost use Rattle.kernel_planes.specs.Planes.{AreRows, has_planes, palette_length, row_frame};
ghost use Rattle.kernel_planes.specs.Planes.{row_length, row_list, rows_of};

use crate::cut::{cut, row_lengths};
use crate::moves::{moves_of, run_moves};
use crate::row::run_blocks;
use kernel_planes::{Planes, WholeNumber};
use kernel_step::{Form, NumberWidth, Storage};
use op_list::Op;
use std::marker::Model;

/// A whole list of operations, with the numbers that its blocks work with.
#[derive(Drop)]
pub struct RowKernel {
    pub(crate) ops: Vec<Op>,
    pub(crate) forms: Vec<Form>,
    pub(crate) storage: Storage,
    pub(crate) number_width: NumberWidth,
}

impl Model for RowKernel {
    ghost use Rattle.std.specs.Prelude.{List};
    ghost use Rattle.op_list.specs.declared.op.Op.{Op};

    ghost Value = { List Op };

    ghost use Rattle.kernel_step.specs.Forms.{IsKernel, bits_of, width_of};

    ghost view = { λ k. k.ops.items };

    ghost invariant = { λ k. IsKernel k.ops.items k.forms.items (bits_of k.storage)
        (width_of k.number_width) };
}

impl RowKernel {
    /// Runs the list on a row of pixels, which stands in the rows of planes: the frame of one row
    /// that the written rows make has at each pixel the elements that the list means for the frame
    /// of one row that the rows of input make. Each row has the bytes of its plane that Read, or
    /// Write, states for `width`, and is empty where there is none. The dither goes by y. It takes
    /// no memory.
    pub fn run_planes(
        &self,
        input: &Planes<'_>,
        first: &mut [u8],
        second: &mut [u8],
        third: &mut [u8],
        fourth: &mut [u8],
        width: u32,
        y: u32,
    )
        requires input { AreRows (op_at self.now 0) width (rows_of input.now) }
        requires palette { length input.now.palette.now ≡ palette_length (op_at self.now 0) }
        requires output { AreRows (last_op self.now) width
            (row_list first.old second.old third.old fourth.old) }
        ensures pixels { (x v : ℕ) → x < width → v < sum (planes_of (last_op self.now))
            → element_of (elem_of (last_op self.now)) (planes_of (last_op self.now))
            (row_frame (row_list first.new second.new third.new fourth.new) [])
            (position_at width 1 0 y x) v
            ≡ slice_index (run self.now (row_frame (rows_of input.now) input.now.palette.now)
            width 1 x 0 y) v }
    {
        if let Some(moves) = moves_of(&self.ops) {
            run_moves(
                &self.ops, &moves, input, first, second, third, fourth, width, y,
            );
            return;
        }
        match self.storage {
            Storage::Bytes => {
                let mut values = [0u8; 256];
                let mut spare = [0u8; 256];
                run_stored(
                    &self.ops,
                    &self.forms,
                    self.number_width,
                    input,
                    first,
                    second,
                    third,
                    fourth,
                    width,
                    y,
                    &mut values,
                    &mut spare,
                )
            }
            Storage::Words => {
                let mut values = [0u16; 256];
                let mut spare = [0u16; 256];
                run_stored(
                    &self.ops,
                    &self.forms,
                    self.number_width,
                    input,
                    first,
                    second,
                    third,
                    fourth,
                    width,
                    y,
                    &mut values,
                    &mut spare,
                )
            }
            Storage::DoubleWords => {
                let mut values = [0u32; 256];
                let mut spare = [0u32; 256];
                run_stored(
                    &self.ops,
                    &self.forms,
                    self.number_width,
                    input,
                    first,
                    second,
                    third,
                    fourth,
                    width,
                    y,
                    &mut values,
                    &mut spare,
                )
            }
        }
    }

    /// Runs the list on a row of pixels: each pixel of the row has the elements that the list
    /// means, and no other pixel is changed. Input and output have the lengths that Read and Write
    /// state for `width` and `rows`; the dither goes by y. It takes no memory.
    pub fn run_row(&self, input: &[u8], output: &mut [u8], width: u32, rows: u32, row: u32, y: u32)
        requires input { length input.now ≡ read_length self.now width rows }
        requires output { length output.old ≡ frame_length (last_op self.now) width rows }
        requires row { row < rows }
        ensures row { (x v : ℕ) → x < width → v < sum (planes_of (last_op self.now))
            → element_of (elem_of (last_op self.now)) (planes_of (last_op self.now)) output.new
            (position_at width rows row y x) v
            ≡ slice_index (run self.now input.now width rows x row y) v }
        ensures others { (other : PixelPosition) → IsOtherRow width rows row other → (v : ℕ)
            → element_of (elem_of (last_op self.now))
            (planes_of (last_op self.now)) output.new other v
            ≡ element_of (elem_of (last_op self.now))
            (planes_of (last_op self.now)) output.old other v }
    {
        let input = cut(read_op(&self.ops), input, width, rows, row);
        let sizes = row_lengths(write_op(&self.ops), width);
        self.run_into(&input, output, &sizes, width, rows, row, y)
    }

    // Runs the list on the rows of planes, into a row of a frame, whose planes have rows of these
    // sizes.
    fn run_into(
        &self,
        input: &Planes<'_>,
        output: &mut [u8],
        sizes: &[usize; 4],
        width: u32,
        rows: u32,
        row: u32,
        y: u32,
    )
        requires input { AreRows (op_at self.now 0) width (rows_of input.now) }
        requires palette { length input.now.palette.now ≡ palette_length (op_at self.now 0) }
        requires counts { are_counts 4 (planes_of (last_op self.now)) ≡ true }
        requires sizes { (p : ℕ) → p < 4
            → slice_index sizes.now p ≡ row_length (last_op self.now) width p }
        requires output { length output.old ≡ rows * slice_index sizes.now 0
            + rows * slice_index sizes.now 1 + rows * slice_index sizes.now 2
            + rows * slice_index sizes.now 3 }
        requires row { row < rows }
        ensures row { (x v : ℕ) → x < width → v < sum (planes_of (last_op self.now))
            → element_of (elem_of (last_op self.now)) (planes_of (last_op self.now)) output.new
            (position_at width rows row y x) v
            ≡ slice_index (run self.now (row_frame (rows_of input.now) input.now.palette.now)
            width 1 x 0 y) v }
        ensures others { (other : PixelPosition) → IsOtherRow width rows row other → (v : ℕ)
            → element_of (elem_of (last_op self.now))
            (planes_of (last_op self.now)) output.new other v
            ≡ element_of (elem_of (last_op self.now))
            (planes_of (last_op self.now)) output.old other v }
    {
        let [a, b, c, d] = *sizes;
        let rows = rows as usize;
        let row = row as usize;
        let (first, rest) = output.split_at_mut(rows * a);
        let (second, rest) = rest.split_at_mut(rows * b);
        let (third, fourth) = rest.split_at_mut(rows * c);
        self.run_planes(
            input,
            &mut first[row * a..row * a + a],
            &mut second[row * b..row * b + b],
            &mut third[row * c..row * c + c],
            &mut fourth[row * d..row * d + d],
            width,
            y,
        )
    }
}

// The Read of a whole list.
fn read_op(ops: &[Op]) -> &Op
    requires typed { are_typed Start ops.now ≡ true }
    requires whole { ends_with_write ops.now ≡ true }
    ensures value { result.now ≡ op_at ops.now 0 }
    ensures follows { may_follow Start result.now ≡ true }
    ensures good { are_good Start result.now ≡ true }
{
    &ops[0]
}

// Its Write.
fn write_op(ops: &[Op]) -> &Op
    requires typed { are_typed Start ops.now ≡ true }
    requires whole { ends_with_write ops.now ≡ true }
    ensures value { result.now ≡ last_op ops.now }
    ensures planes { has_planes result.now ≡ true }
    ensures good { are_good Start result.now ≡ true }
{
    &ops[ops.len() - 1]
}

// The row, in blocks of this storage.
fn run_stored<W: WholeNumber>(
    ops: &[Op],
    forms: &[Form],
    number_width: NumberWidth,
    input: &Planes<'_>,
    first: &mut [u8],
    second: &mut [u8],
    third: &mut [u8],
    fourth: &mut [u8],
    width: u32,
    y: u32,
    values: &mut [W],
    spare: &mut [W],
)
    requires stored { IsKernel ops.now forms.now W.bits (width_of number_width) }
    requires input { AreRows (op_at ops.now 0) width (rows_of input.now) }
    requires entries { length input.now.palette.now ≡ palette_length (op_at ops.now 0) }
    requires output { AreRows (last_op ops.now) width
        (row_list first.old second.old third.old fourth.old) }
    requires block { (length values.old ≡ 256) × (length spare.old ≡ 256) }
    ensures stored { (x v : ℕ) → x < width → v < sum (planes_of (last_op ops.now))
        → element_of (elem_of (last_op ops.now)) (planes_of (last_op ops.now))
        (row_frame (row_list first.new second.new third.new fourth.new) [])
        (position_at width 1 0 y x) v
        ≡ slice_index (run ops.now (row_frame (rows_of input.now) input.now.palette.now)
        width 1 x 0 y) v }
{
    match number_width {
        NumberWidth::Bits32 => {
            let mut numbers = [0i32; 256];
            let mut sums = [0i32; 256];
            run_blocks(
                ops,
                forms,
                input,
                first,
                second,
                third,
                fourth,
                width,
                y,
                values,
                spare,
                &mut numbers,
                &mut sums,
            )
        }
        NumberWidth::Bits64 => {
            let mut numbers = [0i64; 256];
            let mut sums = [0i64; 256];
            run_blocks(
                ops,
                forms,
                input,
                first,
                second,
                third,
                fourth,
                width,
                y,
                values,
                spare,
                &mut numbers,
                &mut sums,
            )
        }
        NumberWidth::Bits128 => {
            let mut numbers = [0i128; 256];
            let mut sums = [0i128; 256];
            run_blocks(
                ops,
                forms,
                input,
                first,
                second,
                third,
                fourth,
                width,
                y,
                values,
                spare,
                &mut numbers,
                &mut sums,
            )
        }
    }
}
