// Lists of operations that only move values: a Read and a Write, with at most a Swizzle between.
ghost use Rattle.std.specs.Prelude.{◌≡◌, ℕ, ◌<◌, ◌≤◌, true, false, sum, slice_index, IfSome, []};
ghost use Rattle.op_list.specs.Typing.{are_typed, ends_with_write, may_follow, stage_after};
ghost use Rattle.op_list.specs.declared.op.Op.TheVariants.{Read, Swizzle, Write};
ghost use Rattle.op_list.specs.declared.types.Stage.TheVariants.{Start};
ghost use Rattle.op_list.specs.Pixel.{element_of};
ghost use Rattle.op_list.specs.Run.{run};
ghost use Rattle.kernel_planes.specs.Block.{position_at};
ghost use Rattle.kernel_planes.specs.Planes.{AreRows, elem_of, planes_of, row_frame, row_list};
ghost use Rattle.kernel_planes.specs.Planes.{rows_of};
ghost use Rattle.kernel_step.specs.Forms.{last_op, op_at};
ghost use Rattle.kernel_int.specs.Moves.{AreThere, IsMove};

use kernel_planes::{Planes, move_row};
use op_list::{Op, PixType, total};

/// What a list does that only moves values: value v of a written pixel is value `from[v]` of the one
/// that is read.
#[derive(Clone, Copy)]
pub struct Moves {
    /// The type of the elements.
    pub elem: PixType,
    /// The elements of a pixel in each plane that is read.
    pub planes: [u8; 4],
    /// The value read that each written one is.
    pub from: [u8; 4],
    /// The elements of a pixel in each plane that is written.
    pub to: [u8; 4],
}

/// How a list moves values, where it does nothing else and each one written is one that is read.
pub fn moves_of(ops: &[Op]) -> Option<Moves>
    requires typed { are_typed Start ops.now ≡ true }
    requires whole { ends_with_write ops.now ≡ true }
    ensures { IfSome result (λ moves. IsMove ops.now moves) }
{
    match ops {
        [_, _] => moves_with(ops, &[0, 1, 2, 3]),
        [_, op, _] => moves_with(ops, order_of(op)?),
        _ => None,
    }
}

// The order that a Swizzle puts the values in.
fn order_of(op: &Op) -> Option<&[u8; 4]>
    ensures { IfSome result (λ from. op.now ≡ Swizzle from.now) }
{
    match op {
        Op::Swizzle { from } => Some(from),
        _ => None,
    }
}

// How values move from the Read to the Write in this order, where each one that is written is one
// that is read.
fn moves_with(ops: &[Op], from: &[u8; 4]) -> Option<Moves>
    requires typed { are_typed Start ops.now ≡ true }
    requires whole { ends_with_write ops.now ≡ true }
    requires follows { may_follow (stage_after Start (op_at ops.now 0)) (last_op ops.now) ≡ true }
    ensures first { IfSome result
        (λ moves. op_at ops.now 0 ≡ Read moves.elem moves.planes false) }
    ensures last { IfSome result (λ moves. last_op ops.now ≡ Write moves.elem moves.to) }
    ensures order { IfSome result (λ moves. moves.from ≡ from.now) }
    ensures there { IfSome result AreThere }
{
    let (elem, planes) = plain_read(&ops[0])?;
    let Op::Write { planes: to, .. } = &ops[ops.len() - 1] else {
        return None;
    };
    let moves = Moves {
        elem,
        planes: *planes,
        from: *from,
        to: *to,
    };
    if are_there(&moves) { Some(moves) } else { None }
}

// The type of the elements that a Read without a palette takes, and those of a pixel in each plane.
fn plain_read(op: &Op) -> Option<(PixType, &[u8; 4])>
    ensures { IfSome result (λ read. op.now ≡ Read read.0 read.1.now false) }
{
    match op {
        Op::Read {
            elem,
            planes,
            palette: false,
        } => Some((*elem, planes)),
        _ => None,
    }
}

// Whether each value that is written is one that is read.
fn are_there(moves: &Moves) -> bool
    requires few { sum moves.now.to ≤ 4 }
    ensures { result ≡ true → AreThere moves.now }
{
    let count = total(&moves.planes);
    for v in 0..total(&moves.to) as usize {
        if u32::from(moves.from[v]) >= count {
            return false;
        }
    }
    true
}

/// Runs a list that only moves values on a row, each written element in one step from the one read.
pub fn run_moves(
    ops: &[Op],
    moves: &Moves,
    input: &Planes<'_>,
    first: &mut [u8],
    second: &mut [u8],
    third: &mut [u8],
    fourth: &mut [u8],
    width: u32,
    y: u32,
)
    requires moves { IsMove ops.now moves.now }
    requires typed { are_typed Start ops.now ≡ true }
    requires whole { ends_with_write ops.now ≡ true }
    requires input { AreRows (op_at ops.now 0) width (rows_of input.now) }
    requires output { AreRows (last_op ops.now) width
        (row_list first.old second.old third.old fourth.old) }
    ensures stored { (x v : ℕ) → x < width → v < sum (planes_of (last_op ops.now))
        → element_of (elem_of (last_op ops.now)) (planes_of (last_op ops.now))
        (row_frame (row_list first.new second.new third.new fourth.new) [])
        (position_at width 1 0 y x) v
        ≡ slice_index (run ops.now (row_frame (rows_of input.now) input.now.palette.now)
        width 1 x 0 y) v }
{
    move_row(
        moves.elem,
        &moves.planes,
        &moves.from,
        input,
        &moves.to,
        width as usize,
        first,
        second,
        third,
        fourth,
    );
}
