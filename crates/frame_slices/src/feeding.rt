// The slices of a frame, read one after the other and handed over as they come.
ghost use Rattle.std.specs.Prelude.{◌≡◌, ◌<◌, ◌≤◌, ◌^◌, ℕ, [], IfOk, length, vec_len};
ghost use Rattle.std.specs.Vec.{vec_capacity};
ghost use Rattle.frame_slices.specs.Handing.{part_of, IsPart, IsOther, ShowsSlice, Feeds};
ghost use Rattle.frame_slices.specs.FrameSlices.{plane_of, behind_of, count_in, Reads};

use crate::frame_slice::FrameSlice;
use crate::handed::{Cell, Handed};
use crate::slices::ended;
use pix_io::{Failed, Got, Source};
use std::alloc::Global;
use std::mem;
use std::sync::{Mutex, OnceToken, Wait};

// Hands a slice over in a cell. No other thread fills the cell; where one had, the slice is lost,
// and nothing is shown.
fn hand_over<'a, R: Wait>(
    rt: &R,
    cell: &'a Cell,
    slice: FrameSlice,
) -> Option<OnceToken<'a, Option<Handed>>>
    ensures { ShowsSlice cell.now.id slice result }
{
    let FrameSlice {
        place,
        input,
        output,
    } = slice;
    let handed = Handed {
        place,
        input,
        room: Mutex::new(Some(output)),
    };
    match cell.set(rt, Some(handed)) {
        Ok(token) => Some(token),
        Err(_) => None,
    }
}

// Reads the part of a slice.
fn read_part<In: Source>(
    slice: &mut FrameSlice,
    part: Option<u8>,
    input: &mut In,
) -> Result<Got, Failed>
    requires { IsPart part }
    ensures read { Reads (In.shown input.old) (In.shown input.new) result (part_of part slice.new) }
    ensures small { length (part_of part slice.new) ≤ 2 ^ 34 }
    ensures others { (q : ℕ) → q < 4 → IsOther part q
        → plane_of q slice.new ≡ plane_of q slice.old }
    ensures behind { behind_of slice.new ≡ behind_of slice.old }
    ensures place { slice.new.place ≡ slice.old.place }
{
    match part {
        Some(plane) => slice.read_plane(plane, input),
        None => Ok(Got::Whole),
    }
}

// How many bytes the part of a slice has.
fn part_len(slice: &FrameSlice, part: Option<u8>) -> usize
    requires { IsPart part }
    ensures value { result ≡ length (part_of part slice.now) }
    ensures small { result ≤ 2 ^ 34 }
{
    match part {
        Some(plane) => slice.plane_len(plane),
        None => 0,
    }
}

// Reads the part of the slices, one after the other, and hands each slice over once it is read.
fn feed_slices<'a, In: Source, R: Wait>(
    rt: &R,
    part: Option<u8>,
    slices: Vec<FrameSlice>,
    input: &mut In,
    cells: &'a [Cell],
    tokens: &mut Vec<Option<OnceToken<'a, Option<Handed>>>>,
) -> Result<Got, Failed>
    requires part { IsPart part }
    requires few { vec_len slices ≤ 16384 }
    requires cells { length cells.now ≡ vec_len slices }
    requires tokens { (tokens.old.items ≡ []) × (vec_len slices ≤ vec_capacity tokens.old) }
    ensures feeds { Feeds part (In.shown input.old) (In.shown input.new) result slices.items
        cells.now tokens.new.items }
    ensures small { IfOk result (λ got. count_in got ≤ 2 ^ 50) }
{
    let mut filled = 0;
    let mut next = 0;
    for mut slice in slices {
        match read_part(&mut slice, part, input) {
            Ok(Got::Whole) => filled += part_len(&slice, part),
            Ok(Got::End) => return Ok(ended(filled)),
            Ok(Got::Short(n)) => return Ok(Got::Short(filled + n)),
            Err(failed) => return Err(failed),
        }
        tokens.push_reserved(hand_over(rt, &cells[next], slice));
        next += 1;
    }
    Ok(Got::Whole)
}

// Fills the cells from `first` on with nothing, so that none waits for them.
fn call_off<R: Wait>(rt: &R, cells: &[Cell], first: usize) {
    for k in first..cells.len() {
        let _ = cells[k].set(rt, None);
    }
}

/// Reads the part of the slices, one after the other, and hands each slice over once it is read.
/// Where the read stops, the cells of the slices that were not read are filled with nothing.
pub fn feed<'a, In: Source, R: Wait>(
    rt: &R,
    alloc: Global,
    part: Option<u8>,
    slices: &mut Vec<FrameSlice>,
    input: &mut In,
    cells: &'a [Cell],
    tokens: &mut Vec<Option<OnceToken<'a, Option<Handed>>>>,
) -> Result<Got, Failed>
    requires part { IsPart part }
    requires few { vec_len slices.old ≤ 16384 }
    requires cells { length cells.now ≡ vec_len slices.old }
    requires tokens { (tokens.old.items ≡ []) × (vec_len slices.old ≤ vec_capacity tokens.old) }
    ensures feeds { Feeds part (In.shown input.old) (In.shown input.new) result slices.old.items
        cells.now tokens.new.items }
    ensures small { IfOk result (λ got. count_in got ≤ 2 ^ 50) }
{
    let given = mem::replace(slices, Vec::new(alloc));
    let read = feed_slices(rt, part, given, input, cells, tokens);
    call_off(rt, cells, tokens.len());
    read
}
