// How a worker waits for the slice that it claimed, and converts it.
ghost use Rattle.std.specs.Prelude.{◌≡◌, IfSome, true, length, vec_len};
ghost use Rattle.pix_desc.specs.Frame.{frame_length};
ghost use Rattle.frame_slices.specs.Awaited.{IsMadeFrom};

use crate::awaited::Converted;
use crate::handed::{Cell, Handed, TargetRows};
use pix_io::frame_len;
use row_plan::Plan;
use std::hint;
use std::sync::{OnceLock, OnceToken, Wait};

// How often a worker looks for its slice before it sleeps: a few slices' reading lies in between, and
// a worker that sleeps is often woken on a processor that another one needs.
const LOOKS: u32 = 10_000;

// Waits until a cell is filled.
fn come<'a, T, R: Wait>(rt: &R, cell: &'a OnceLock<T>) -> OnceToken<'a, T>
    ensures { result.of ≡ cell.now.id }
{
    for _ in 0..LOOKS {
        if let Some(token) = cell.witness() {
            return token;
        }
        hint::spin_loop();
    }
    for _ in rt.forever() {
        if let Some(token) = cell.witness() {
            return token;
        }
        cell.wait(rt);
    }
    unreachable!()
}

/// Waits until the cell is filled, and answers whether it holds a slice.
pub fn has_come<R: Wait>(rt: &R, cell: &Cell) -> bool {
    let token = come(rt, cell);
    cell.value(&token).is_some()
}

// Whether a slice and a buffer have the lengths that a plan needs. They have: a cell holds a slice
// of the plan's formats, and room of its size.
fn fit(plan: &Plan, handed: &Handed, output: &[u8]) -> bool
    ensures input { result ≡ true → vec_len handed.now.input
        ≡ frame_length plan.now.pair.from.desc handed.now.place.width handed.now.place.rows }
    ensures output { result ≡ true → length output.now
        ≡ frame_length plan.now.pair.to.desc handed.now.place.width handed.now.place.rows }
    ensures target { result ≡ true → length output.now
        ≡ frame_length handed.now.place.target handed.now.place.width handed.now.place.rows }
{
    let place = &handed.place;
    let pair = plan.pair();
    handed.input.len() as u64 == frame_len(&pair.from.desc, place.width, place.rows)
        && output.len() as u64 == frame_len(&pair.to.desc, place.width, place.rows)
        && output.len() as u64 == frame_len(&place.target, place.width, place.rows)
}

/// Converts the slice that the cell holds, once it is filled.
pub fn converted<'a, R: Wait>(rt: &R, plan: &Plan, cell: &'a Cell) -> Option<Converted<'a>>
    ensures { IfSome result (IsMadeFrom plan.now.pair cell.now.id) }
{
    let token = come(rt, cell);
    let Some(handed) = cell.value(&token) else {
        return None;
    };
    let Some(mut bytes) = handed.room.lock(rt).take() else {
        return None;
    };
    if !fit(plan, handed, &bytes) {
        return None;
    }
    let place = handed.place;
    plan.convert_rows(
        place.first,
        place.width,
        place.rows,
        &handed.input,
        &mut bytes,
    );
    Some(Converted {
        rows: TargetRows { place, bytes },
        token,
    })
}
