// How wide the whole numbers of a list are.
ghost use Rattle.std.specs.Prelude.{◌≤◌, ◌^◌};
ghost use Rattle.op_list.specs.Types.{bits_at};
ghost use Rattle.op_list.specs.Typing.{IsOpList};
ghost use Rattle.kernel_step.specs.Forms.{AreStored, bits_of};

use crate::form::Storage;
use op_list::{Op, PixType, Stage};

/// Storage for the widest whole type of a list.
pub fn storage_of(ops: &[Op]) -> Storage
    requires { IsOpList ops.now }
    ensures { AreStored ops.now (bits_of result) }
{
    let mut stage = Stage::Start;
    let mut storage = Storage::Bytes;
    for op in ops {
        stage = op.stage_after(stage);
        storage = wider(storage, stage);
    }
    storage
}

// The storage, but as wide as the values of a stage.
fn wider(storage: Storage, stage: Stage) -> Storage
    ensures stage { 2 ^ bits_at stage ≤ 2 ^ bits_of result }
    ensures storage { 2 ^ bits_of storage ≤ 2 ^ bits_of result }
{
    match (storage, stage) {
        (_, Stage::Typed(PixType::U32)) | (Storage::DoubleWords, _) => Storage::DoubleWords,
        (_, Stage::Typed(PixType::U16)) | (Storage::Words, _) => Storage::Words,
        _ => Storage::Bytes,
    }
}
