ghost use Rattle.std.specs.Prelude.{◌≡◌};
ghost use Rattle.op_list.specs.Values.{no_values};
ghost use Rattle.op_list.specs.Run.{MayRun, checked_run_from};

use crate::op::Op;
use crate::position::PixelPosition;
use crate::types::Stage;
use crate::values::Values;

// The values after all operations, one after the other. None where the numbers of a fraction leave
// i128.
pub fn values_after(ops: &[Op], frame: &[u8], position: &PixelPosition) -> Option<Values>
    requires { MayRun frame.now position.now Stage.Start ops.now no_values }
    ensures { result ≡ checked_run_from frame.now position.now Stage.Start ops.now no_values }
{
    let mut stage = Stage::Start;
    let mut values = Values::Numbers([0; 4]);
    for op in ops {
        values = op.apply(frame, position, stage, &values)?;
        stage = op.stage_after(stage);
    }
    Some(values)
}
