// The numbers of a kernel with all four values over one denominator: those of every list whose
// width is below the room of its numerators.
ghost use Rattle.std.specs.Prelude.{◌≡◌, ◌≤◌, ◌<◌, ◌-◌, ◌^◌, true, length, IfOk};
ghost use Rattle.std.specs.Prelude.{IfSome, None};
ghost use Rattle.op_list.specs.Typing.{IsOpList, ends_with_write};
ghost use Rattle.op_range.specs.Width.{width};
ghost use Rattle.kernel_step.specs.Forms.{AreFew, AreSteps, AreStored, bits_of, form_at};
ghost use Rattle.kernel_step.specs.Forms.{width_of};
ghost use Rattle.kernel_joint.specs.Joint.{room};

use crate::joint_step::joint_form;
use crate::joint_width::next_width;
use frac_math::OutOfMemory;
use kernel_step::{Form, NumberWidth, Storage, whole_form};
use op_list::{Op, Stage};
use op_range::whole_width;
use std::alloc::Global;

/// The forms after the operations of a list, where all numbers on the way are below the room of a
/// width of numbers. The last step is given all four values.
pub fn joint_forms(
    alloc: Global,
    ops: &[Op],
    storage: Storage,
    number_width: NumberWidth,
) -> Result<Option<Vec<Form>>, OutOfMemory>
    requires sound { IsOpList ops.now }
    requires some { 2 ≤ length ops.now }
    requires stored { AreStored ops.now (bits_of storage) }
    requires room { 2 ^ 32 ≤ room number_width }
    ensures size { IfOk result (λ found. IfSome found
        (λ forms. length forms.items ≡ length ops.now)) }
    ensures few { IfOk result (λ found. IfSome found (λ forms. AreFew forms.items)) }
    ensures last { IfOk result (λ found. IfSome found
        (λ forms. (form_at forms.items (length ops.now - 2)).count ≡ 4)) }
    ensures steps { IfOk result (λ found. IfSome found (λ forms. AreSteps ops.now forms.items
        (bits_of storage) (width_of number_width) (length ops.now - 1))) }
    ensures none { IfOk result (λ found. width ops.now < room number_width → found ≡ None → ⊥) }
{
    let mut forms = Vec::new(alloc);
    forms.push(whole_form(4))?;
    let mut width = whole_width(0);
    let mut stage = ops[0].stage_after(Stage::Start);
    for k in 1..ops.len() - 1 {
        let op = &ops[k];
        let Some(next) = next_width(op, stage, &width, number_width) else {
            return Ok(None);
        };
        let form = joint_form(
            op,
            stage,
            &forms[k - 1],
            storage,
            &width,
            &next,
            number_width,
        );
        forms.push(form)?;
        width = next;
        stage = op.stage_after(stage);
    }
    forms.push(whole_form(4))?;
    Ok(Some(forms))
}
