// Sides of conversions, for tests.
ghost use Rattle.std.specs.Prelude.{IfSome};
ghost use Rattle.row_plan.specs.Evaluated.{IsTableSide};

use colour_matrix::{Range, named};
use desc_table::{desc, find};
use pix_meaning::Side;

/// The side of a format of the table, with a named matrix and full range.
pub fn side_of(name: &str, matrix: &str) -> Option<Side>
    ensures { IfSome result IsTableSide }
{
    let Ok(id) = find(name) else {
        return None;
    };
    let matrix = named(matrix)?;
    Some(Side {
        desc: desc(id),
        matrix,
        range: Range::Full,
    })
}
