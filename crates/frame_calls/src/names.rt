// Formats and matrices by the bytes of their names.
ghost use Rattle.std.specs.Prelude.{◌≡◌, length, OnOk, OnErr};
ghost use Rattle.colour_matrix.specs.Matrix.{matrix_named};
ghost use Rattle.desc_table.specs.Refused.{lookup};
ghost use Rattle.frame_calls.specs.Names.{name_asked, written_name};

use crate::refusal::Refusal;
use colour_matrix::{Matrix, named};
use desc_table::{FormatFault, FormatId, at, find, name};

/// The format of a name, which is FFmpeg's, byte for byte, or why there is none.
pub fn format_named(name: &[u8]) -> Result<FormatId, FormatFault>
    ensures { result ≡ lookup name.now }
{
    match std::str::from_utf8(name) {
        Ok(text) => find(text),
        Err(_) => Err(FormatFault::Unknown),
    }
}

/// The matrix of a name: bt601, bt709, bt2020, smpte240m or fcc, byte for byte; none for any other
/// name.
pub fn matrix_named(name: &[u8]) -> Option<Matrix>
    ensures { result ≡ matrix_named name.now }
{
    match std::str::from_utf8(name) {
        Ok(text) => named(text),
        Err(_) => None,
    }
}

/// Writes the name of a format and a zero byte to the front of some room; the bytes behind stay.
#[tactic(auto, unfolding(crate::specs::Names::name_asked))]
pub fn write_name(format: u32, room: &mut [u8]) -> Result<(), Refusal>
    ensures answer { result ≡ name_asked format (length room.old) }
    ensures written { OnOk result (room.new ≡ written_name format room.old) }
    ensures unchanged { OnErr result (room.new ≡ room.old) }
{
    let Some(id) = at(format as usize) else {
        return Err(Refusal::Format);
    };
    let text = name(id).as_bytes();
    if room.len() <= text.len() {
        return Err(Refusal::NameRoom);
    }
    room[..text.len()].copy_from_slice(text);
    room[text.len()] = 0;
    Ok(())
}
