// The next frame of an input, read and converted by workers beside each other.
ghost use Rattle.std.specs.Prelude.{◌≡◌, ◌<◌, ◌≤◌, ◌^◌, [], ◌∷◌, Ok, Some, IfOk, IfErr, MatchOption};
ghost use Rattle.std.specs.Prelude.{map, sum, length, vec_len};
ghost use Rattle.std.specs.Vec.{vec_capacity};
ghost use Rattle.std.specs.Sync.OnceLock.{Named};
ghost use Rattle.pix_desc.specs.Frame.{frame_length};
ghost use Rattle.pix_desc.specs.Layouts.{IsValid};
ghost use Rattle.slice_claim.specs.Board.{AreNumbered, IsHandOf, hand_state, hand_count, job_count};
ghost use Rattle.slice_claim.specs.Board.{origins_of};
ghost use Rattle.slice_claim.specs.Machine.{fresh};
ghost use Rattle.row_plan.specs.Jobs.{pair_before};
ghost use Rattle.frame_slices.specs.FrameSlices.{place_of, rows_of, places_from, target_in};
ghost use Rattle.frame_slices.specs.FrameSlices.{count_in};
ghost use Rattle.frame_slices.specs.Awaited.{awaited_number, awaited_origin};
ghost use Rattle.frame_slices.specs.Handing.{IsPart, Feeds};
ghost use Rattle.frame_slices.specs.Converting.{ConvertsNext, LeavesOff, read_of};
ghost use Rattle.frame_slices.specs.Parts.{ConvertsRest, ConvertsPart, LeavesOffPart, left_behind};
ghost use Rattle.frame_slices.specs.Parts.{short_in};

use crate::awaited::AwaitedSlice;
use crate::feeding::feed;
use crate::frame_slice::{FrameSlice, Place};
use crate::gate::Gate;
use crate::gathering::{gather, slices_again};
use crate::handed::{Cell, Handed, TargetRows};
use crate::slices::{front_len, last_part, read_front};
use crate::unfinished::Unfinished;
use crate::workers::run_workers;
use frac_math::OutOfMemory;
use pix_io::{Failed, Got, Source};
use pix_meaning::Pair;
use row_plan::Plan;
use slice_claim::{Board, Hand};
use std::alloc::Global;
use std::sync::{OnceLock, OnceToken, Wait};
use std::thread::Threads;

// What the workers of a frame need, made before its last part is read.
#[derive(Drop)]
struct Bench<'a> {
    board: Board<AwaitedSlice<'a>>,
    hand: Hand<AwaitedSlice<'a>>,
    tokens: Vec<Option<OnceToken<'a, Option<Handed>>>>,
    room: Vec<TargetRows>,
}

// So many empty cells.
fn empty_cells(alloc: Global, count: usize) -> Result<Vec<Cell>, OutOfMemory>
    ensures { IfOk result (λ cells. vec_len cells ≡ count) }
{
    let mut cells = Vec::with_capacity(alloc, count)?;
    for _ in 0..count {
        cells.push_reserved(OnceLock::new());
    }
    Ok(cells)
}

// A job for each cell, in their order.
fn awaited<'a>(
    alloc: Global,
    plan: &'a Plan,
    cells: &'a [Cell],
) -> Result<Vec<AwaitedSlice<'a>>, OutOfMemory>
    requires few { length cells.now ≤ 16384 }
    ensures numbered { IfOk result (λ jobs. AreNumbered awaited_number jobs.items) }
    ensures origins { IfOk result (λ jobs. map awaited_origin jobs.items
        ≡ map (λ (cell : Named). pair_before plan.now.pair (cell.id ∷ [])) cells.now) }
{
    let mut jobs = Vec::with_capacity(alloc, cells.len())?;
    for k in 0..cells.len() {
        jobs.push_reserved(AwaitedSlice::new(k as u32, plan, &cells[k]));
    }
    Ok(jobs)
}

// The board of the cells' slices, for so many workers and no more than there are slices.
fn prepare<'a>(
    alloc: Global,
    plan: &'a Plan,
    workers: u32,
    cells: &'a [Cell],
) -> Result<Bench<'a>, OutOfMemory>
    requires some { 0 < length cells.now }
    requires few { length cells.now ≤ 16384 }
    requires workers { 0 < workers }
    ensures count { IfOk result (λ bench. job_count bench.board ≡ length cells.now) }
    ensures origins { IfOk result (λ bench. origins_of awaited_origin bench.board
        ≡ map (λ (cell : Named). pair_before plan.now.pair (cell.id ∷ [])) cells.now) }
    ensures own { IfOk result (λ bench. IsHandOf awaited_origin bench.board bench.hand) }
    ensures fresh { IfOk result (λ bench. hand_state bench.hand ≡ fresh (hand_count bench.board)) }
    ensures tokens { IfOk result (λ bench. (bench.tokens.items ≡ [])
        × (length cells.now ≤ vec_capacity bench.tokens)) }
    ensures room { IfOk result (λ bench. (bench.room.items ≡ [])
        × (length cells.now ≤ vec_capacity bench.room)) }
{
    let hands = workers.min(cells.len() as u32);
    let tokens = Vec::with_capacity(alloc, cells.len())?;
    let room = Vec::with_capacity(alloc, cells.len())?;
    let (board, hand) = Board::new(alloc, awaited(alloc, plan, cells)?, hands)?;
    Ok(Bench {
        board,
        hand,
        tokens,
        room,
    })
}

// Both formats of a pair have an array of four components.
fn have_four(pair: Pair)
    ensures from { length pair.from.desc.comps ≡ 4 }
    ensures to { length pair.to.desc.comps ≡ 4 }
{}

// Why a frame is not converted whose read ended so, unless it was whole.
fn stopped(read: Result<Got, Failed>) -> Option<Unfinished>
    ensures { MatchOption result (read ≡ Ok Got.Whole) (λ why. read_of why ≡ Some read) }
{
    match read {
        Ok(Got::Whole) => None,
        Ok(Got::End) => Some(Unfinished::End),
        Ok(Got::Short(n)) => Some(Unfinished::Short(n)),
        Err(failed) => Some(Unfinished::Failed(failed)),
    }
}

// Reads the part of the slices, and converts each slice once it is read: this thread reads, and the
// others begin with the first slice as soon as it has come.
fn convert_part<'a, R: Threads + Wait + Sync, In: Source, G: Gate>(
    rt: &R,
    alloc: Global,
    plan: &'a Plan,
    workers: u32,
    gate: &G,
    part: Option<u8>,
    slices: Vec<FrameSlice>,
    input: &mut In,
    cells: &'a [Cell],
) -> Result<Vec<TargetRows>, Unfinished>
    requires part { IsPart part }
    requires cells { length cells.now ≡ vec_len slices }
    requires some { 0 < vec_len slices }
    requires few { vec_len slices ≤ 16384 }
    requires workers { 0 < workers }
    ensures converted { IfOk result (λ rows. ConvertsPart plan.now.pair part (In.shown input.old)
        (In.shown input.new) slices.items rows.items) }
    ensures left { IfErr result (LeavesOffPart part (In.shown input.old) (In.shown input.new)
        slices.items) }
    ensures few { IfErr result (λ why. short_in why ≤ 2 ^ 50) }
{
    let Ok(bench) = prepare(alloc, plan, workers, cells) else {
        return Err(Unfinished::OutOfMemory);
    };
    let Bench {
        board,
        mut hand,
        mut tokens,
        room,
    } = bench;
    let mut slices = slices;
    let (rest, shown) = (&mut slices, &mut tokens);
    let read = run_workers(
        rt,
        &board,
        &mut hand,
        gate,
        &mut || -> Result<Got, Failed>
            requires { IsPart part × (vec_len rest.now ≤ 16384)
                × (length cells.now ≡ vec_len rest.now)
                × (shown.now.items ≡ []) × (vec_len rest.now ≤ vec_capacity shown.now) }
            ensures { Feeds part (In.shown input.entry.now) (In.shown input.exit.now) result
                rest.entry.now.items cells.entry.now shown.exit.now.items
                × IfOk result (λ got. count_in got ≤ 2 ^ 50) }
        { feed(rt, alloc, part, rest, input, cells, shown) },
    );
    if let Some(why) = stopped(read) {
        return Err(why);
    }
    have_four(*plan.pair());
    match gather(board.close(hand), &tokens, room) {
        Ok(rows) => Ok(rows),
        Err(OutOfMemory) => Err(Unfinished::OutOfMemory),
    }
}

// Why a frame is not converted of which so many bytes had been read before.
fn behind(filled: usize, why: Unfinished) -> Unfinished
    requires filled { filled ≤ 2 ^ 50 }
    requires few { short_in why ≤ 2 ^ 50 }
    ensures { result ≡ left_behind filled why }
{
    match why {
        Unfinished::End if filled != 0 => Unfinished::Short(filled),
        Unfinished::Short(n) => Unfinished::Short(filled + n),
        other => other,
    }
}

// Converts the slices of which the front was read, in cells of their own.
fn convert_rest<R: Threads + Wait + Sync, In: Source, G: Gate>(
    rt: &R,
    alloc: Global,
    plan: &Plan,
    workers: u32,
    gate: &G,
    part: Option<u8>,
    slices: Vec<FrameSlice>,
    input: &mut In,
) -> Result<Vec<FrameSlice>, Unfinished>
    requires part { IsPart part }
    requires some { 0 < vec_len slices }
    requires few { vec_len slices ≤ 16384 }
    requires workers { 0 < workers }
    ensures converted { IfOk result (λ converted. ConvertsRest plan.now.pair part
        (In.shown input.old) (In.shown input.new) slices.items converted.items) }
    ensures left { IfErr result (LeavesOffPart part (In.shown input.old) (In.shown input.new)
        slices.items) }
    ensures few { IfErr result (λ why. short_in why ≤ 2 ^ 50) }
{
    let Ok(mut cells) = empty_cells(alloc, slices.len()) else {
        return Err(Unfinished::OutOfMemory);
    };
    let Ok(room) = Vec::with_capacity(alloc, slices.len()) else {
        return Err(Unfinished::OutOfMemory);
    };
    match convert_part(rt, alloc, plan, workers, gate, part, slices, input, &cells) {
        Ok(rows) => match slices_again(alloc, rows, &mut cells, room) {
            Ok(converted) => Ok(converted),
            Err(OutOfMemory) => Err(Unfinished::OutOfMemory),
        },
        Err(why) => Err(why),
    }
}

/// Reads the next frame of the input, and converts it. So many workers, and no more than there are
/// slices, claim the slices on a board, and each converts a slice once that is read.
pub fn convert_frame<R: Threads + Wait + Sync, In: Source, G: Gate>(
    rt: &R,
    alloc: Global,
    plan: &Plan,
    workers: u32,
    gate: &G,
    whole: &Place,
    slices: Vec<FrameSlice>,
    input: &mut In,
) -> Result<Vec<FrameSlice>, Unfinished>
    requires places { map place_of slices.items ≡ places_from whole.now.source whole.now.target
        whole.now.width 0 (map rows_of slices.items) }
    requires covers { sum (map rows_of slices.items) ≡ whole.now.rows }
    requires source { IsValid whole.now.source }
    requires width { whole.now.width ≤ 16384 }
    requires tall { 0 < whole.now.rows }
    requires rows { whole.now.rows ≤ 16384 }
    requires some { 0 < vec_len slices }
    requires few { vec_len slices ≤ 16384 }
    requires workers { 0 < workers }
    requires from { plan.now.pair.from.desc ≡ whole.now.source }
    requires to { plan.now.pair.to.desc ≡ whole.now.target }
    ensures converted { IfOk result (λ converted. ConvertsNext plan.now.pair whole.now.width
        whole.now.rows (In.shown input.old) (In.shown input.new)
        (target_in whole.now converted.items)) }
    ensures places { IfOk result
        (λ converted. map place_of converted.items ≡ map place_of slices.items) }
    ensures left { IfErr result (LeavesOff (frame_length whole.now.source whole.now.width
        whole.now.rows) (In.shown input.old) (In.shown input.new)) }
{
    let mut slices = slices;
    let part = last_part(&slices, whole);
    if let Some(why) = stopped(read_front(&mut slices, whole, part, input)) {
        return Err(why);
    }
    match convert_rest(rt, alloc, plan, workers, gate, part, slices, input) {
        Ok(converted) => Ok(converted),
        Err(why) => Err(behind(front_len(whole, part), why)),
    }
}
