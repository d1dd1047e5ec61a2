// Formats and matrices by name, and the range of a format.
ghost use Rattle.std.specs.Prelude.{◌≡◌, ◌≢◌, length};
ghost use Rattle.colour_matrix.specs.Matrix.{matrix_named, of_parts};
ghost use Rattle.desc_table.specs.Format.{format_count};
ghost use Rattle.desc_table.specs.Refused.{lookup};
ghost use Rattle.frame_calls.specs.Conversion.{range_asked};
ghost use Rattle.frame_calls.specs.Names.{name_asked, written_name};
ghost use Rattle.sws_c.specs.Status.{status_of, format_status, matrix_status, answer_or, found_or};

use crate::numbers::{DONE, UNKNOWN_NAME, fault_number, number_of, status_of};
use desc_table::{count, index};
use frame_calls::{format_named, format_range, matrix_named, write_name};

/// How many formats there are.
#[tactic(auto, unfolding(desc_table::specs::Format::formats))]
#[unsafe(no_mangle)]
pub extern "C" fn sws_format_count() -> u32
    ensures { result ≡ format_count }
{
    count() as u32
}

/// The row of the format of a name, or the number of why there is none.
#[tactic(auto, unfolding(desc_table::specs::Format::formats))]
#[unsafe(no_mangle)]
pub extern "C" fn sws_format_find(name: &[u8], format: &mut u32) -> u32
    ensures status { result ≡ format_status (lookup name.now) }
    ensures written { format.new ≡ answer_or (lookup name.now) format.old }
{
    match format_named(name) {
        Ok(id) => {
            *format = index(id) as u32;
            DONE
        }
        Err(fault) => fault_number(fault),
    }
}

/// Writes the name of a format, and a zero byte behind it, to the front of some room.
#[unsafe(no_mangle)]
pub extern "C" fn sws_format_name(format: u32, room: &mut [u8]) -> u32
    ensures status { result ≡ status_of (name_asked format (length room.old)) }
    ensures written { result ≡ 0 → room.new ≡ written_name format room.old }
    ensures unchanged { result ≢ 0 → room.new ≡ room.old }
{
    status_of(write_name(format, room))
}

/// The range that a format is taken to have where nothing else is said.
#[unsafe(no_mangle)]
pub extern "C" fn sws_format_range(format: u32, range: &mut u32) -> u32
    ensures status { result ≡ status_of (range_asked format) }
    ensures written { range.new ≡ answer_or (range_asked format) range.old }
{
    match format_range(format) {
        Ok(number) => {
            *range = number;
            DONE
        }
        Err(refusal) => number_of(refusal),
    }
}

/// The three numbers of the matrix of a name.
#[unsafe(no_mangle)]
pub extern "C" fn sws_matrix(name: &[u8], q: &mut u32, r: &mut u32, b: &mut u32) -> u32
    ensures status { result ≡ matrix_status (matrix_named name.now) }
    ensures written { of_parts q.new r.new b.new
        ≡ found_or (matrix_named name.now) (of_parts q.old r.old b.old) }
{
    match matrix_named(name) {
        Some(matrix) => {
            *q = matrix.q;
            *r = matrix.r;
            *b = matrix.b;
            DONE
        }
        None => UNKNOWN_NAME,
    }
}
