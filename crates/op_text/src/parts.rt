// The parts of a line, each put at the end of a text.
ghost use Rattle.std.specs.Prelude.{◌≡◌, ◌++◌, ◌<◌, OnOk, string_bytes, slice_index};
ghost use Rattle.op_list.specs.Values.{entry};
ghost use Rattle.op_list.specs.Apply.{row_of};
ghost use Rattle.op_text.specs.Parts.{type_text, denominator_text, fraction_text, spaced_number};
ghost use Rattle.op_text.specs.Parts.{spaced_fraction, numbers_text, entry_text, entries_text};
ghost use Rattle.op_text.specs.Parts.{coefficients_text, is_first_shown, separator, row_text};
ghost use Rattle.op_text.specs.Parts.{rows_text};

use frac_math::{Frac, OutOfMemory};
use itoa::Buffer;
use op_list::{PixType, is_identity_row};

/// The word of a type.
pub fn type_text(elem: PixType) -> &'static str
    ensures { result.now ≡ type_text elem }
{
    match elem {
        PixType::U8 => "u8",
        PixType::U16 => "u16",
        PixType::U32 => "u32",
        PixType::Rat => "rat",
    }
}

fn push_denominator(text: &mut String, den: u128) -> Result<(), OutOfMemory>
    ensures { OnOk result (string_bytes text.new ≡ string_bytes text.old ++ denominator_text den) }
{
    if den == 1 {
        return Ok(());
    }
    let mut buffer = Buffer::new();
    text.push_str("/")?;
    text.push_str(buffer.format(den))?;
    Ok(())
}

/// A fraction in lowest terms: `n`, or `n/d`.
#[tactic(auto, unfolding(crate::specs::Parts::fraction_text))]
pub fn push_fraction(text: &mut String, value: &Frac) -> Result<(), OutOfMemory>
    ensures { OnOk result (string_bytes text.new
        ≡ string_bytes text.old ++ fraction_text value.now) }
{
    let mut buffer = Buffer::new();
    text.push_str(buffer.format(value.num()))?;
    push_denominator(text, value.den().unsigned_abs())
}

/// A number behind a space.
pub fn push_number(text: &mut String, n: u8) -> Result<(), OutOfMemory>
    ensures { OnOk result (string_bytes text.new ≡ string_bytes text.old ++ spaced_number n) }
{
    let mut buffer = Buffer::new();
    text.push_str(" ")?;
    text.push_str(buffer.format(n))?;
    Ok(())
}

/// A fraction behind a space.
pub fn push_spaced_fraction(text: &mut String, value: &Frac) -> Result<(), OutOfMemory>
    ensures { OnOk result (string_bytes text.new
        ≡ string_bytes text.old ++ spaced_fraction value.now) }
{
    text.push_str(" ")?;
    push_fraction(text, value)
}

/// Four numbers, each behind a space.
#[tactic(auto, unfolding(crate::specs::Parts::numbers_text))]
pub fn push_numbers(text: &mut String, numbers: &[u8; 4]) -> Result<(), OutOfMemory>
    ensures { OnOk result (string_bytes text.new
        ≡ string_bytes text.old ++ numbers_text numbers.now) }
{
    push_number(text, numbers[0])?;
    push_number(text, numbers[1])?;
    push_number(text, numbers[2])?;
    push_number(text, numbers[3])
}

#[tactic(auto, unfolding(crate::specs::Parts::entry_text))]
fn push_entry(text: &mut String, i: u8, entry: &Option<Frac>) -> Result<(), OutOfMemory>
    ensures { OnOk result (string_bytes text.new
        ≡ string_bytes text.old ++ entry_text i entry.now) }
{
    let Some(value) = entry else {
        return Ok(());
    };
    push_number(text, i)?;
    text.push_str("=")?;
    push_fraction(text, value)
}

/// The entries that are given, each as `i=x` behind a space.
#[tactic(auto, unfolding(crate::specs::Parts::entries_text))]
pub fn push_entries(text: &mut String, entries: &[Option<Frac>; 4]) -> Result<(), OutOfMemory>
    ensures { OnOk result (string_bytes text.new
        ≡ string_bytes text.old ++ entries_text entries.now) }
{
    push_entry(text, 0, &entries[0])?;
    push_entry(text, 1, &entries[1])?;
    push_entry(text, 2, &entries[2])?;
    push_entry(text, 3, &entries[3])
}

#[tactic(auto, unfolding(crate::specs::Parts::coefficients_text))]
fn push_coefficients(text: &mut String, row: &[Frac; 5]) -> Result<(), OutOfMemory>
    ensures { OnOk result (string_bytes text.new
        ≡ string_bytes text.old ++ coefficients_text row.now) }
{
    push_spaced_fraction(text, &row[0])?;
    push_spaced_fraction(text, &row[1])?;
    push_spaced_fraction(text, &row[2])?;
    push_spaced_fraction(text, &row[3])?;
    push_spaced_fraction(text, &row[4])
}

// Whether none of the rows before row i is shown.
fn is_first_shown(rows: &[[Frac; 5]; 4], i: usize) -> bool
    requires { i < 4 }
    ensures { result ≡ is_first_shown rows.now i }
{
    (0..i).all(|j| is_identity_row(j, &rows[j]))
}

fn separator(rows: &[[Frac; 5]; 4], i: usize) -> &'static str
    requires { i < 4 }
    ensures { result.now ≡ separator rows.now i }
{
    if is_first_shown(rows, i) { " " } else { "; " }
}

fn push_row(text: &mut String, rows: &[[Frac; 5]; 4], i: usize) -> Result<(), OutOfMemory>
    requires { i < 4 }
    ensures { OnOk result (string_bytes text.new ≡ string_bytes text.old ++ row_text rows.now i) }
{
    if is_identity_row(i, &rows[i]) {
        return Ok(());
    }
    let mut buffer = Buffer::new();
    text.push_str(separator(rows, i))?;
    text.push_str(buffer.format(i))?;
    text.push_str(":")?;
    push_coefficients(text, &rows[i])
}

/// The rows that do not give their value back, each as `i: a b c d e`, with semicolons between
/// them.
#[tactic(auto, unfolding(crate::specs::Parts::rows_text))]
pub fn push_rows(text: &mut String, rows: &[[Frac; 5]; 4]) -> Result<(), OutOfMemory>
    ensures { OnOk result (string_bytes text.new ≡ string_bytes text.old ++ rows_text rows.now) }
{
    push_row(text, rows, 0)?;
    push_row(text, rows, 1)?;
    push_row(text, rows, 2)?;
    push_row(text, rows, 3)
}
