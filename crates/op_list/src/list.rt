ghost use Rattle.std.specs.Prelude.{◌≡◌, ◌<◌, ◌≤◌, ◌↔◌, true, false, IsTrue, OnOk, OnErr, IfErr};
ghost use Rattle.std.specs.Prelude.{IfSome, [], ◌∷◌, ◌++◌, length};
ghost use Rattle.op_list.specs.Typing.{may_follow, are_good, stage_of, IsOpList, ends_with_write};
ghost use Rattle.op_list.specs.Run.{read_length, run, checked_run};

use crate::fault::PushFault;
use crate::op::Op;
use crate::position::PixelPosition;
use crate::run::values_after;
use crate::types::Stage;
use frac_math::Frac;
use std::alloc::Global;
use std::marker::Model;

/// The most operations of a list.
pub const MAX_OPERATIONS: usize = 24;

/// At most 24 operations that may follow one another, each with good arguments.
#[derive(Drop)]
pub struct OpList {
    ops: Vec<Op>,
    stage: Stage,
}

impl Model for OpList {
    ghost use Rattle.std.specs.Prelude.{List};
    ghost use Rattle.op_list.specs.declared.op.Op.{Op};

    ghost Value = { List Op };

    ghost use Rattle.op_list.specs.Typing.{LeavesStage};

    ghost view = { λ list. list.ops.items };

    ghost invariant = { λ list. LeavesStage list.ops.items list.stage };
}

impl OpList {
    /// The empty list. It takes no memory.
    pub fn new(alloc: Global) -> OpList
        ensures { result ≡ [] }
    {
        OpList {
            ops: Vec::new(alloc),
            stage: Stage::Start,
        }
    }

    /// Puts an operation at the end. The first cause of a fault is told, in the order of
    /// `PushFault`, and the list is then as it was.
    pub fn push(&mut self, op: Op) -> Result<(), PushFault>
        ensures wrong_type { (result ≡ Err PushFault.WrongType)
            ↔ (may_follow (stage_of self.old) op ≡ false) }
        ensures bad_argument { (result ≡ Err PushFault.BadArgument)
            ↔ ((may_follow (stage_of self.old) op ≡ true)
            × (are_good (stage_of self.old) op ≡ false)) }
        ensures too_long { (result ≡ Err PushFault.TooLong)
            ↔ ((may_follow (stage_of self.old) op ≡ true) × (are_good (stage_of self.old) op ≡ true)
            × (length self.old ≡ 24)) }
        ensures ok { OnOk result (self.new ≡ self.old ++ op ∷ []) }
        ensures err { OnErr result (self.new ≡ self.old) }
    {
        if !op.may_follow(self.stage) {
            return Err(PushFault::WrongType);
        }
        if !op.has_good_arguments(self.stage) {
            return Err(PushFault::BadArgument);
        }
        if self.ops.len() >= MAX_OPERATIONS {
            return Err(PushFault::TooLong);
        }
        let stage = op.stage_after(self.stage);
        append(&mut self.ops, op)?;
        self.stage = stage;
        Ok(())
    }

    /// The operations, the first one first.
    pub fn ops(&self) -> &[Op]
        ensures same { result.now ≡ self.now }
        ensures sound { IsOpList self.now }
    {
        &self.ops
    }

    /// Whether the list ends with a Write.
    pub fn whole(&self) -> bool
        ensures { IsTrue result ↔ (ends_with_write self.now ≡ true) }
    {
        match self.ops().last() {
            Some(op) => op.is_write(),
            None => false,
        }
    }

    /// The elements that are given to Write for the pixel at column `x` of a row, and 0 for the
    /// others.
    ///
    /// The list is whole, and the frame has the length that its Read states for `width` and
    /// `rows` in pixels. The dither goes by `x` and `y`, the row of the larger frame of which
    /// this frame is some rows. None exactly where a checked sum or product of the list is, since
    /// a number leaves 128 bits. It takes no memory.
    pub fn run_pixel(
        &self,
        frame: &[u8],
        width: u32,
        rows: u32,
        x: u32,
        row: u32,
        y: u32,
    ) -> Option<[u32; 4]>
        requires whole { ends_with_write self.now ≡ true }
        requires column { x < width }
        requires row { row < rows }
        requires frame { length frame.now ≡ read_length self.now width rows }
        ensures checked { result ≡ checked_run self.now frame.now width rows x row y }
        ensures exact { IfSome result
            (λ elements. elements ≡ run self.now frame.now width rows x row y) }
    {
        let position = PixelPosition {
            width,
            rows,
            x,
            row,
            y,
        };
        let values = values_after(self.ops(), frame, &position)?;
        Some(values.elements())
    }
}

fn append(ops: &mut Vec<Op>, op: Op) -> Result<(), PushFault>
    ensures memory { IfErr result (λ fault. fault ≡ PushFault.OutOfMemory) }
    ensures ok { OnOk result (ops.new.items ≡ ops.old.items ++ op ∷ []) }
    ensures err { OnErr result (ops.new.items ≡ ops.old.items) }
{
    // The proof of this call has to find the type named that an operation holds.
    let _entry: Option<Frac> = None;
    match ops.push(op) {
        Ok(()) => Ok(()),
        Err(_) => Err(PushFault::OutOfMemory),
    }
}
