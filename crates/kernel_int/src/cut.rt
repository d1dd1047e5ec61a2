// The row of a raw frame, cut out of its planes.
ghost use Rattle.std.specs.Prelude.{◌≡◌, ℕ, ◌*◌, ◌<◌, ◌≤◌, true, length, slice_index, take, drop};
ghost use Rattle.op_list.specs.Types.{bytes};
ghost use Rattle.op_list.specs.Typing.{are_good, may_follow};
ghost use Rattle.op_list.specs.Apply.{apply};
ghost use Rattle.op_list.specs.Pixel.{frame_length};
ghost use Rattle.op_list.specs.Values.{no_values};
ghost use Rattle.op_list.specs.declared.types.Stage.TheVariants.{Start};
ghost use Rattle.kernel_planes.specs.Block.{position_at};
ghost use Rattle.kernel_planes.specs.Planes.{elem_of, planes_of};
ghost use Rattle.kernel_planes.specs.Planes.{AreRows, has_planes, palette_length, row_frame};
ghost use Rattle.kernel_planes.specs.Planes.{row_length, rows_of};

use kernel_planes::Planes;
use op_list::{Op, PixType};

// The bytes of an element.
fn bytes(elem: PixType) -> usize
    ensures value { result ≡ bytes elem }
    ensures few { result ≤ 4 }
{
    match elem {
        PixType::U8 => 1,
        PixType::U16 => 2,
        PixType::U32 => 4,
        PixType::Rat => 0,
    }
}

// The bytes of a row of each plane that a Read or a Write states.
pub fn row_lengths(op: &Op, width: u32) -> [usize; 4]
    requires { has_planes op.now ≡ true }
    ensures { (p : ℕ) → p < 4 → slice_index result p ≡ row_length op.now width p }
{
    let (elem, planes) = match op {
        Op::Read { elem, planes, .. } => (*elem, *planes),
        Op::Write { elem, planes } => (*elem, *planes),
        _ => unreachable!(),
    };
    let pixels = width as usize;
    let [a, b, c, d] = planes;
    let size = bytes(elem);
    [
        pixels * usize::from(a) * size,
        pixels * usize::from(b) * size,
        pixels * usize::from(c) * size,
        pixels * usize::from(d) * size,
    ]
}

// A row of the plane that a frame begins with, by the bytes of a row, and what stands behind that
// plane.
#[tactic(auto, using(crate::proofs::CutRows::part_of_row))]
fn cut_row<'a>(frame: &'a [u8], size: usize, rows: usize, row: usize) -> (&'a [u8], &'a [u8])
    requires room { rows * size ≤ length frame.now }
    requires row { row < rows }
    ensures row { result.0.now ≡ take size (drop (row * size) (take (rows * size) frame.now)) }
    ensures behind { result.1.now ≡ drop (rows * size) frame.now }
{
    let (plane, behind) = frame.split_at(rows * size);
    (&plane[row * size..row * size + size], behind)
}

// The row of a frame, and its palette.
pub fn cut<'a>(op: &Op, frame: &'a [u8], width: u32, rows: u32, row: u32) -> Planes<'a>
    requires follows { may_follow Start op.now ≡ true }
    requires good { are_good Start op.now ≡ true }
    requires frame { length frame.now ≡ frame_length op.now width rows }
    requires row { row < rows }
    ensures rows { AreRows op.now width (rows_of result) }
    ensures palette { length result.palette.now ≡ palette_length op.now }
    ensures same { (x y : ℕ) → x < width
        → apply frame.now (position_at width rows row y x) Start op.now no_values
        ≡ apply (row_frame (rows_of result) result.palette.now) (position_at width 1 0 y x)
        Start op.now no_values }
{
    let [a, b, c, d] = row_lengths(op, width);
    let rows = rows as usize;
    let row = row as usize;
    let (first, rest) = cut_row(frame, a, rows, row);
    let (second, rest) = cut_row(rest, b, rows, row);
    let (third, rest) = cut_row(rest, c, rows, row);
    let (fourth, palette) = cut_row(rest, d, rows, row);
    Planes {
        first,
        second,
        third,
        fourth,
        palette,
    }
}
