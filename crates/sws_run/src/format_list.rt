// The list of formats, as text.
ghost use Rattle.std.specs.Prelude.{◌≡◌, ◌++◌, ◌≤◌, OnOk, IfOk, string_bytes, decimal};
ghost use Rattle.std.specs.Prelude.{if◌then◌else◌};
ghost use Rattle.std.specs.Prelude.{[]};
ghost use Rattle.desc_table.specs.Format.{format_at};
ghost use Rattle.sws_run.specs.FormatList.{letters_of, component_text, components_text};
ghost use Rattle.sws_run.specs.FormatList.{format_line, list_text};

use desc_table::{FormatId, at, count, desc, name};
use frac_math::OutOfMemory;
use itoa::Buffer;
use pix_desc::{Comp, Desc};
use std::alloc::Global;

// The bytes of the whole list.
const LIST_LEN: usize = 4697;

fn letter_if(holds: bool, letter: &'static str) -> &'static str
    ensures { result.now ≡ (if holds then letter.entry.now else []) }
{
    if holds { letter } else { "" }
}

// The letters of what a format is.
#[tactic(auto, unfolding(crate::specs::FormatList::letters_of))]
fn push_letters(text: &mut String, desc: &Desc) -> Result<(), OutOfMemory>
    ensures { OnOk result (string_bytes text.new ≡ string_bytes text.old ++ letters_of desc.now) }
{
    if !desc.be && !desc.rgb && !desc.alpha && !desc.palette {
        text.push_str("-")?;
        return Ok(());
    }
    text.push_str(letter_if(desc.be, "B"))?;
    text.push_str(letter_if(desc.rgb, "R"))?;
    text.push_str(letter_if(desc.alpha, "A"))?;
    text.push_str(letter_if(desc.palette, "P"))?;
    Ok(())
}

// A number behind a mark.
fn push_marked(text: &mut String, mark: &str, n: u8) -> Result<(), OutOfMemory>
    ensures { OnOk result (string_bytes text.new ≡ string_bytes text.old ++
        (mark.now ++ decimal n)) }
{
    let mut buffer = Buffer::new();
    text.push_str(mark)?;
    text.push_str(buffer.format(n))?;
    Ok(())
}

// The numbers of a component, behind a space.
#[tactic(auto, unfolding(crate::specs::FormatList::component_text))]
fn push_component(text: &mut String, comp: &Comp) -> Result<(), OutOfMemory>
    ensures { OnOk result (string_bytes text.new
        ≡ string_bytes text.old ++ component_text comp.now) }
{
    let mut buffer = Buffer::new();
    push_marked(text, " ", comp.plane)?;
    push_marked(text, ",", comp.step)?;
    text.push_str(",")?;
    text.push_str(buffer.format(comp.offset))?;
    push_marked(text, ",", comp.shift)?;
    push_marked(text, ",", comp.depth)
}

// The numbers of each component.
#[tactic(auto, unfolding(crate::specs::FormatList::components_text))]
fn push_components(text: &mut String, comps: &[Comp]) -> Result<(), OutOfMemory>
    ensures { OnOk result (string_bytes text.new
        ≡ string_bytes text.old ++ components_text comps.now) }
{
    for comp in comps {
        push_component(text, comp)?;
    }
    Ok(())
}

// The line of a format.
#[tactic(auto, unfolding(crate::specs::FormatList::format_line))]
fn push_format(text: &mut String, id: FormatId) -> Result<(), OutOfMemory>
    ensures { OnOk result (string_bytes text.new ≡ string_bytes text.old ++ format_line
        (format_at id)) }
{
    let desc = desc(id);
    text.push_str(name(id))?;
    text.push_str(" ")?;
    push_letters(text, &desc)?;
    push_components(text, &desc.comps[..usize::from(desc.count)])?;
    text.push_str("\n")?;
    Ok(())
}

/// The list of all formats, a line for each. Its memory is asked for once.
pub fn list_text(alloc: Global) -> Result<String, OutOfMemory>
    ensures { IfOk result (λ text. string_bytes text ≡ list_text) }
{
    let mut text = String::with_capacity(alloc, LIST_LEN)?;
    for row in 0..count() {
        let Some(id) = at(row) else { unreachable!() };
        push_format(&mut text, id)?;
    }
    Ok(text)
}
