// The text of a whole list.
ghost use Rattle.std.specs.Prelude.{◌≡◌, string_bytes, IfOk};
ghost use Rattle.op_text.specs.Line.{text_of};

use crate::line::push_line;
use frac_math::OutOfMemory;
use op_list::OpList;
use std::alloc::Global;

/// The text of a list: a line for each operation, ended by a newline. `specs/Line.antt` says what
/// it shows. The memory of the text is all that it takes.
pub fn print(alloc: Global, list: &OpList) -> Result<String, OutOfMemory>
    ensures { IfOk result (λ text. string_bytes text ≡ text_of list.now) }
{
    let mut text = String::new(alloc);
    for op in list.ops() {
        push_line(&mut text, op)?;
    }
    Ok(text)
}
