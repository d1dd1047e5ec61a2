// The conversion of rows that stand in planes, with bytes between them.
ghost use Rattle.std.specs.Prelude.{◌≡◌, ◌<◌, ◌+◌, ◌-◌, ◌*◌, ◌≤◌, ◌^◌, ◌&&◌, []};
ghost use Rattle.std.specs.Prelude.{true, length, take};
ghost use Rattle.std.specs.Prelude.{nat_le, OnOk, OnErr};
ghost use Rattle.pix_desc.specs.Frame.{row_length};
ghost use Rattle.pix_desc.specs.Layouts.{IsValid};
ghost use Rattle.pix_meaning.specs.Target.{target_rows};
ghost use Rattle.kernel_planes.specs.Planes.{row_frame, row_list, rows_of};
ghost use Rattle.row_plan.specs.Planes.{AreRowsOf, palette_bytes};
ghost use Rattle.frame_calls.specs.Planes.{row_sizes, plane_row, rows_at};
ghost use Rattle.frame_calls.specs.Planes.{hold_rows, planes_asked, AreRowsConverted};
ghost use Rattle.frame_calls.specs.PlaneSteps.{HoldRow, AreRowsPut};

use crate::refusal::Refusal;
use crate::rows::{Rows, are_rows};
use pix_desc::Desc;
use pix_io::row_start;
use row_plan::{Plan, Planes};

// The bytes of a row of a plane: from the first row of two to the second.
#[tactic(auto, unfolding(pix_desc::specs::Frame::row_start))]
fn row_size(desc: &Desc, width: u32, plane: u8) -> usize
    requires valid { IsValid desc.now }
    requires width { width ≤ 16384 }
    requires plane { plane < 4 }
    ensures { result ≡ row_length desc.now width plane }
{
    (row_start(desc, width, 2, plane, 1) - row_start(desc, width, 2, plane, 0)) as usize
}

fn row_sizes(desc: &Desc, width: u32) -> [usize; 4]
    requires valid { IsValid desc.now }
    requires width { width ≤ 16384 }
    ensures { result ≡ row_sizes desc.now width }
{
    [
        row_size(desc, width, 0),
        row_size(desc, width, 1),
        row_size(desc, width, 2),
        row_size(desc, width, 3),
    ]
}

// A row of a plane.
fn row_of(bytes: &[u8], stride: usize, size: usize, row: u32) -> &[u8]
    requires { row * stride + size ≤ length bytes.now }
    ensures { result.now ≡ plane_row bytes.now stride size row }
{
    let at = row as usize * stride;
    &bytes[at..at + size]
}

// A row of each plane of a source, and the entries of its palette.
fn source_row<'a>(
    source: &Planes<'a>,
    strides: &[usize; 4],
    sizes: &[usize; 4],
    palette: usize,
    row: u32,
) -> Planes<'a>
    requires rows { HoldRow (rows_of source.now) strides.now sizes.now row }
    requires palette { palette ≤ length source.now.palette.now }
    ensures rows { rows_of result ≡ rows_at (rows_of source.now) strides.now sizes.now row }
    ensures palette { result.palette.now ≡ take palette source.now.palette.now }
{
    Planes {
        first: row_of(source.first, strides[0], sizes[0], row),
        second: row_of(source.second, strides[1], sizes[1], row),
        third: row_of(source.third, strides[2], sizes[2], row),
        fourth: row_of(source.fourth, strides[3], sizes[3], row),
        palette: &source.palette[..palette],
    }
}

// The bytes of the entries of a palette.
fn palette_bytes(desc: &Desc) -> usize
    ensures { result ≡ palette_bytes desc.now }
{
    if desc.palette { 1024 } else { 0 }
}

// Converts a row.
fn convert_row(
    plan: &Plan,
    rows: &Rows,
    row: u32,
    input: &Planes<'_>,
    strides: &[usize; 4],
    sizes: &[usize; 4],
    first: &mut [u8],
    second: &mut [u8],
    third: &mut [u8],
    fourth: &mut [u8],
)
    requires last { rows.now.first + row < 2 ^ 32 }
    requires input { AreRowsOf plan.now.pair.from.desc rows.now.width (rows_of input.now) }
    requires palette { length input.now.palette.now ≡ palette_bytes plan.now.pair.from.desc }
    requires sizes { sizes.now ≡ row_sizes plan.now.pair.to.desc rows.now.width }
    requires target { HoldRow (row_list first.old second.old third.old fourth.old) strides.now
        sizes.now row }
    ensures put { AreRowsPut (row_list first.old second.old third.old fourth.old)
        (row_list first.new second.new third.new fourth.new) strides.now sizes.now row }
    ensures target { row_frame (rows_at (row_list first.new second.new third.new fourth.new)
        strides.now sizes.now row) []
        ≡ target_rows plan.now.pair rows.now.width 1 (rows.now.first + row)
        (row_frame (rows_of input.now) input.now.palette.now) }
{
    let a = row as usize * strides[0];
    let b = row as usize * strides[1];
    let c = row as usize * strides[2];
    let d = row as usize * strides[3];
    plan.convert_planes(
        rows.first + row,
        rows.width,
        input,
        &mut first[a..a + sizes[0]],
        &mut second[b..b + sizes[1]],
        &mut third[c..c + sizes[2]],
        &mut fourth[d..d + sizes[3]],
    )
}

// Converts rows that their planes hold.
fn convert_held(
    plan: &Plan,
    rows: &Rows,
    source: &Planes<'_>,
    source_strides: &[usize; 4],
    first: &mut [u8],
    second: &mut [u8],
    third: &mut [u8],
    fourth: &mut [u8],
    strides: &[usize; 4],
    from: &[usize; 4],
    to: &[usize; 4],
)
    requires last { rows.now.first + rows.now.count < 2 ^ 32 }
    requires from { from.now ≡ row_sizes plan.now.pair.from.desc rows.now.width }
    requires to { to.now ≡ row_sizes plan.now.pair.to.desc rows.now.width }
    requires source { hold_rows (rows_of source.now) source_strides.now from.now rows.now.count
        ≡ true }
    requires palette { palette_bytes plan.now.pair.from.desc ≤ length source.now.palette.now }
    requires target { hold_rows (row_list first.old second.old third.old fourth.old) strides.now
        to.now rows.now.count ≡ true }
    ensures { AreRowsConverted plan.now.pair rows.now source.now source_strides.now strides.now
        (row_list first.old second.old third.old fourth.old)
        (row_list first.new second.new third.new fourth.new) rows.now.count }
{
    let palette = palette_bytes(&plan.pair().from.desc);
    for row in 0..rows.count {
        let input = source_row(source, source_strides, from, palette, row);
        convert_row(
            plan, rows, row, &input, strides, to, first, second, third, fourth,
        );
    }
}

// Whether a plane of so many bytes holds its rows.
fn holds_plane(length: usize, stride: usize, size: usize, count: u32) -> bool
    requires { 1 ≤ count }
    ensures { result ≡ (nat_le size stride && nat_le ((count - 1) * stride + size) length) }
{
    size <= stride && u128::from(count - 1) * stride as u128 + size as u128 <= length as u128
}

// Whether four planes hold their rows.
fn hold_rows(planes: &Planes<'_>, strides: &[usize; 4], sizes: &[usize; 4], count: u32) -> bool
    requires { 1 ≤ count }
    ensures { result ≡ hold_rows (rows_of planes.now) strides.now sizes.now count }
{
    (holds_plane(planes.first.len(), strides[0], sizes[0], count)
        && holds_plane(planes.second.len(), strides[1], sizes[1], count))
        && (holds_plane(planes.third.len(), strides[2], sizes[2], count)
            && holds_plane(planes.fourth.len(), strides[3], sizes[3], count))
}

/// Converts some rows by a plan, from planes to planes, each some bytes and a stride: as many bytes
/// from one row to the next. A plane holds its rows where no row reaches into the next and the
/// bytes reach to the end of the last row; a row of a plane that the format has not is 0 bytes. The
/// palette has 1024 bytes or more where the source has one. Else the call says what is wrong, and
/// changes nothing. The bytes between the rows stay. It takes no memory.
#[tactic(auto, unfolding(crate::specs::Planes::planes_asked))]
pub fn convert_planes(
    plan: &Plan,
    rows: &Rows,
    source: &Planes<'_>,
    source_strides: &[usize; 4],
    first: &mut [u8],
    second: &mut [u8],
    third: &mut [u8],
    fourth: &mut [u8],
    strides: &[usize; 4],
) -> Result<(), Refusal>
    ensures answer { result ≡ planes_asked plan.now.pair rows.now source.now source_strides.now
        (row_list first.old second.old third.old fourth.old) strides.now }
    ensures converted { OnOk result (AreRowsConverted plan.now.pair rows.now source.now
        source_strides.now strides.now (row_list first.old second.old third.old fourth.old)
        (row_list first.new second.new third.new fourth.new) rows.now.count) }
    ensures unchanged { OnErr result (row_list first.new second.new third.new fourth.new
        ≡ row_list first.old second.old third.old fourth.old) }
{
    if !are_rows(rows) {
        return Err(Refusal::Size);
    }
    let pair = plan.pair();
    let from = row_sizes(&pair.from.desc, rows.width);
    let to = row_sizes(&pair.to.desc, rows.width);
    if !(hold_rows(source, source_strides, &from, rows.count)
        && palette_bytes(&pair.from.desc) <= source.palette.len())
    {
        return Err(Refusal::InputLength);
    }
    let target = Planes {
        first,
        second,
        third,
        fourth,
        palette: &[],
    };
    if !hold_rows(&target, strides, &to, rows.count) {
        return Err(Refusal::OutputLength);
    }
    convert_held(
        plan,
        rows,
        source,
        source_strides,
        first,
        second,
        third,
        fourth,
        strides,
        &from,
        &to,
    );
    Ok(())
}
