// What the workers made of the slices, and the slices with it again.
ghost use Rattle.std.specs.Prelude.{◌≡◌, ◌<◌, ◌≤◌, [], IfOk, map, length, vec_len};
ghost use Rattle.std.specs.Vec.{vec_capacity};
ghost use Rattle.pix_desc.specs.Frame.{frame_length};
ghost use Rattle.frame_slices.specs.FrameSlices.{place_of, output_bytes};
ghost use Rattle.frame_slices.specs.Gathering.{AreOfSameCells, AreGathered, place_made, bytes_made};

use crate::awaited::AwaitedSlice;
use crate::frame_slice::FrameSlice;
use crate::handed::{Cell, Handed, TargetRows};
use frac_math::OutOfMemory;
use pix_io::frame_len;
use std::alloc::Global;
use std::sync::OnceToken;

/// The target rows that the jobs made, in their order, each of the slice that its token shows.
/// There is room for them. A job that made nothing, or a slice that was lost, is told as want of
/// memory: neither comes, since one thread alone fills the cells.
pub fn gather<'a>(
    jobs: Vec<AwaitedSlice<'a>>,
    tokens: &Vec<Option<OnceToken<'a, Option<Handed>>>>,
    room: Vec<TargetRows>,
) -> Result<Vec<TargetRows>, OutOfMemory>
    requires count { vec_len tokens.now ≡ vec_len jobs }
    requires same { AreOfSameCells jobs.items tokens.now.items }
    requires room { (room.items ≡ []) × (vec_len jobs ≤ vec_capacity room) }
    ensures { IfOk result (λ rows. AreGathered jobs.entry.items tokens.now.items rows.items) }
{
    let mut rows = room;
    let mut next = 0;
    for job in jobs {
        let (Some(converted), Some(token)) = (job.converted, &tokens[next]) else {
            return Err(OutOfMemory);
        };
        token.agrees(&converted.token);
        rows.push_reserved(converted.rows);
        next += 1;
    }
    Ok(rows)
}

// A buffer for rows of the source: that of the cell, or a new one where it has none of that length.
fn input_again(alloc: Global, cell: &mut Cell, rows: &TargetRows) -> Result<Vec<u8>, OutOfMemory>
    ensures { IfOk result (λ input. vec_len input
        ≡ frame_length rows.now.place.source rows.now.place.width rows.now.place.rows) }
{
    let place = &rows.place;
    let size = frame_len(&place.source, place.width, place.rows) as usize;
    if let Some(Some(handed)) = cell.take() {
        if handed.input.len() == size {
            return Ok(handed.input);
        }
    }
    Ok(vec![in alloc; 0u8; size]?)
}

/// The slices that have these target rows, in the room for as many. Their buffers for the source
/// come from the cells; what these hold is not known.
pub fn slices_again(
    alloc: Global,
    rows: Vec<TargetRows>,
    cells: &mut [Cell],
    room: Vec<FrameSlice>,
) -> Result<Vec<FrameSlice>, OutOfMemory>
    requires count { length cells.old ≡ vec_len rows }
    requires room { (room.items ≡ []) × (vec_len rows ≤ vec_capacity room) }
    ensures places { IfOk result (λ slices. map place_of slices.items ≡ map place_made rows.items) }
    ensures outputs { IfOk result
        (λ slices. map output_bytes slices.items ≡ map bytes_made rows.items) }
{
    let mut slices = room;
    let mut next = 0;
    for row in rows {
        let input = input_again(alloc, &mut cells[next], &row)?;
        let TargetRows { place, bytes } = row;
        slices.push_reserved(FrameSlice {
            place,
            input,
            output: bytes,
        });
        next += 1;
    }
    Ok(slices)
}
