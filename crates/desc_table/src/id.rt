// A format of the table, by its row.
ghost use Rattle.std.specs.Prelude.{◌≡◌, ◌<◌, ◌≤◌, ◌↔◌, ℕ, IsNone, IfSome, IfOk, Ok};
ghost use Rattle.pix_desc.specs.Layouts.{IsValid};
ghost use Rattle.desc_table.specs.Format.{format_count, desc_of, name_of};
ghost use Rattle.desc_table.specs.Refused.{lookup};

use crate::fault::FormatFault;
use crate::refused::fault_named;
use crate::table::{row_at, row_count, row_named};
use pix_desc::Desc;
use std::marker::Model;

/// A format of the table. In a clause it is its row, counted from 0.
#[derive(Clone, Copy, Debug, PartialEq, Eq)]
pub struct FormatId {
    row: usize,
}

impl Model for FormatId {
    ghost Value = { ℕ };

    ghost view = { λ id. id.row };

    ghost invariant = { λ id. id.row < format_count };

    ghost inverse = { λ row. record { row = row } };
}

/// The format of this name, which is FFmpeg's, byte for byte, or why there is none. It allocates
/// nothing, and compares the name with those of the table in their order.
pub fn find(name: &str) -> Result<FormatId, FormatFault>
    ensures value { result ≡ lookup name.now }
    ensures below { IfOk result (λ id. id < format_count) }
    ensures named { IfOk result (λ id. name_of id ≡ name.now) }
{
    match row_named(name) {
        Some(row) => Ok(FormatId { row }),
        None => Err(fault_named(name)),
    }
}

/// How many formats there are.
pub fn count() -> usize
    ensures { result ≡ format_count }
{
    row_count()
}

/// The format at row `i`, counted from 0; none from `count` on.
pub fn at(i: usize) -> Option<FormatId>
    ensures none { IsNone result ↔ (format_count ≤ i) }
    ensures row { IfSome result (λ id. id ≡ i) }
{
    if i < count() {
        Some(FormatId { row: i })
    } else {
        None
    }
}

/// The row of a format, counted from 0.
pub fn index(id: FormatId) -> usize
    ensures row { result ≡ id }
    ensures below { result < format_count }
{
    id.row
}

/// FFmpeg's name of a format.
pub fn name(id: FormatId) -> &'static str
    ensures value { result.now ≡ name_of id }
    ensures lookup { lookup result.now ≡ Ok id }
{
    row_at(index(id)).name
}

/// The descriptor of a format.
pub fn desc(id: FormatId) -> Desc
    ensures value { result ≡ desc_of id }
    ensures valid { IsValid result }
{
    let row = row_at(index(id));
    Desc {
        count: row.count,
        comps: row.comps,
        be: row.flags.be,
        rgb: row.flags.rgb,
        alpha: row.flags.alpha,
        palette: row.flags.palette,
    }
}
