// The conversion of the rows of a slice, row after row.
ghost use Rattle.std.specs.Prelude.{◌≡◌, ◌+◌, ◌<◌, ◌^◌, length};
ghost use Rattle.pix_desc.specs.Frame.{frame_length};
ghost use Rattle.pix_meaning.specs.Target.{target_rows};
ghost use Rattle.row_plan.specs.Rows.{AreConverted};

use crate::plans::Plan;
use crate::slice::Slice;

impl Plan {
    // Converts a row, where those before it are converted.
    fn convert_row(&self, slice: &Slice, row: u32, input: &[u8], output: &mut [u8])
        requires row { row < slice.now.rows }
        requires input { length input.now
            ≡ frame_length self.now.pair.from.desc slice.now.width slice.now.rows }
        requires output { length output.old
            ≡ frame_length self.now.pair.to.desc slice.now.width slice.now.rows }
        requires before { AreConverted self.now.pair slice.now input.now output.old row }
        ensures size { length output.new ≡ length output.old }
        ensures after { AreConverted self.now.pair slice.now input.now output.new (row + 1) }
    {
        self.kernel.run_row(
            input,
            output,
            slice.width,
            slice.rows,
            row,
            slice.first + row,
        );
    }

    // Converts the rows of a slice.
    fn convert_slice(&self, slice: &Slice, input: &[u8], output: &mut [u8])
        requires input { length input.now
            ≡ frame_length self.now.pair.from.desc slice.now.width slice.now.rows }
        requires output { length output.old
            ≡ frame_length self.now.pair.to.desc slice.now.width slice.now.rows }
        ensures { output.new
            ≡ target_rows self.now.pair slice.now.width slice.now.rows slice.now.first input.now }
    {
        for row in 0..slice.rows {
            self.convert_row(slice, row, input, output);
        }
    }

    /// Converts the rows of a slice of `width` pixels by `rows`, whose first row is the row `first`
    /// of the whole frame, by which the dither goes. Input and output are raw frames of that width
    /// and as many rows, the input with the whole palette where it has one. It takes no memory.
    pub fn convert_rows(&self, first: u32, width: u32, rows: u32, input: &[u8], output: &mut [u8])
        requires last { first + rows < 2 ^ 32 }
        requires input { length input.now ≡ frame_length self.now.pair.from.desc width rows }
        requires output { length output.old ≡ frame_length self.now.pair.to.desc width rows }
        ensures { output.new ≡ target_rows self.now.pair width rows first input.now }
    {
        self.convert_slice(&Slice { first, width, rows }, input, output);
    }
}
