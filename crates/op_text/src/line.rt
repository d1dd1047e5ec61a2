// The line of an operation.
ghost use Rattle.std.specs.Prelude.{◌≡◌, ◌++◌, OnOk, string_bytes};
ghost use Rattle.op_text.specs.Parts.{type_text};
ghost use Rattle.op_text.specs.Line.{read_text, expand_text, operation_text, line_text};

use crate::parts::{
    push_entries, push_number, push_numbers, push_rows, push_spaced_fraction, type_text,
};
use frac_math::OutOfMemory;
use op_list::{Op, PixType};

fn push_read(
    text: &mut String,
    elem: PixType,
    planes: &[u8; 4],
    palette: bool,
) -> Result<(), OutOfMemory>
    ensures { OnOk result (string_bytes text.new
        ≡ string_bytes text.old ++ read_text elem planes.now palette) }
{
    if palette {
        text.push_str("read pal8")?;
        return Ok(());
    }
    text.push_str("read ")?;
    text.push_str(type_text(elem))?;
    push_numbers(text, planes)
}

fn expand_text(expand: bool) -> &'static str
    ensures { result.now ≡ expand_text expand }
{
    if expand { " expand" } else { "" }
}

// The word of a kind whose arguments follow it, each behind a space.
#[tactic(auto, unfolding(crate::specs::Line::operation_text))]
fn push_arguments(text: &mut String, op: &Op) -> Result<(), OutOfMemory>
    ensures { OnOk result (string_bytes text.new ≡ string_bytes text.old ++ operation_text op.now) }
{
    match op {
        Op::Read {
            elem,
            planes,
            palette,
        } => push_read(text, *elem, planes, *palette),
        Op::Write { elem, planes } => {
            text.push_str("write ")?;
            text.push_str(type_text(*elem))?;
            push_numbers(text, planes)
        }
        Op::SwapBytes => {
            text.push_str("swap")?;
            Ok(())
        }
        Op::Unpack { widths } => {
            text.push_str("unpack")?;
            push_numbers(text, widths)
        }
        Op::Pack { widths } => {
            text.push_str("pack")?;
            push_numbers(text, widths)
        }
        Op::Clear { values } => {
            text.push_str("clear")?;
            push_entries(text, values)
        }
        Op::LeftShift { n } => {
            text.push_str("lshift")?;
            push_number(text, *n)
        }
        Op::RightShift { n } => {
            text.push_str("rshift")?;
            push_number(text, *n)
        }
        Op::Swizzle { from } => {
            text.push_str("swizzle")?;
            push_numbers(text, from)
        }
        Op::Convert { to, expand } => {
            text.push_str("convert ")?;
            text.push_str(type_text(*to))?;
            text.push_str(expand_text(*expand))?;
            Ok(())
        }
        Op::Dither { k } => {
            text.push_str("dither")?;
            push_number(text, *k)
        }
        Op::Linear { rows } => {
            text.push_str("linear")?;
            push_rows(text, rows)
        }
        Op::Scale { by } => {
            text.push_str("scale")?;
            push_spaced_fraction(text, by)
        }
        Op::Min { limits } => {
            text.push_str("min")?;
            push_entries(text, limits)
        }
        Op::Max { limits } => {
            text.push_str("max")?;
            push_entries(text, limits)
        }
    }
}

/// The line of an operation, with its newline.
pub fn push_line(text: &mut String, op: &Op) -> Result<(), OutOfMemory>
    ensures { OnOk result (string_bytes text.new ≡ string_bytes text.old ++ line_text op.now) }
{
    push_arguments(text, op)?;
    text.push_str("\n")?;
    Ok(())
}
