// Frames that are made from a seed, converted and summed.
ghost use Rattle.std.specs.Prelude.{◌≡◌, ◌≤◌, length, sum, IfOk, string_bytes};
ghost use Rattle.frame_slices.specs.Generated.{generated};
ghost use Rattle.sws_run.specs.Frames.{target_held};
ghost use Rattle.sws_run.specs.Report.{IsFrameMade, ConvertsMade, made_length, made_targets};
ghost use Rattle.sws_run.specs.Report.{sum_lines};
ghost use Rattle.sws_run.specs.Request.{IsSoundMaking};

use crate::planning::look_up;
use crate::request::Making;
use frac_math::OutOfMemory;
use frame_slices::{Gate, Generator, SlicedFrame, Unfinished};
use itoa::Buffer;
use list_cache::ListCache;
use pix_io::frame_len;
use row_plan::Plan;
use std::alloc::Global;
use std::sync::Wait;
use std::thread::Threads;

// How many frames are made.
const FRAMES: u32 = 4;

// The width and the height of each, in pixels.
const SIDE: u32 = 512;

// Room for the lines, in bytes.
const LINES_ROOM: usize = 96;

// Converts the next frame of a generator, which has so many bytes left.
fn convert_made_frame<R: Threads + Wait + Sync, G: Gate>(
    rt: &R,
    alloc: Global,
    making: &Making,
    plan: &Plan,
    generator: &mut Generator,
    frame: SlicedFrame,
    gate: &G,
) -> Result<SlicedFrame, OutOfMemory>
    requires sound { IsSoundMaking making.now }
    requires plan { plan.now.pair ≡ making.now.pair }
    requires frame { IsFrameMade making.now frame.whole }
    requires enough { made_length making.now.pair
        ≤ length (generated generator.old.state generator.old.left) }
    ensures converted { IfOk result (λ frame. ConvertsMade making.now
        (generated generator.old.state generator.old.left)
        (generated generator.new.state generator.new.left) (target_held frame)) }
    ensures whole { IfOk result (λ frame. IsFrameMade making.now frame.whole) }
{
    match frame.convert_next(rt, alloc, plan, making.workers, gate, generator) {
        Ok(converted) => Ok(converted),
        Err(Unfinished::End) => unreachable!(),
        Err(Unfinished::Short(_)) => unreachable!(),
        Err(Unfinished::Failed(_)) => unreachable!(),
        Err(Unfinished::OutOfMemory) => Err(OutOfMemory),
    }
}

// The sum of the bytes that the frames are converted to, in the slices of one frame.
fn sum_targets<R: Threads + Wait + Sync, G: Gate>(
    rt: &R,
    alloc: Global,
    making: &Making,
    plan: &Plan,
    frame: SlicedFrame,
    gate: &G,
) -> Result<u128, OutOfMemory>
    requires sound { IsSoundMaking making.now }
    requires plan { plan.now.pair ≡ making.now.pair }
    requires frame { IsFrameMade making.now frame.whole }
    ensures { IfOk result (λ total. total ≡ sum (made_targets making.now 4)) }
{
    let count = frame_len(&making.pair.from.desc, SIDE, SIDE);
    let mut generator = Generator::new(making.seed, u64::from(FRAMES) * count);
    let mut frame = frame;
    let mut total = 0u128;
    for _ in 0..FRAMES {
        frame = convert_made_frame(rt, alloc, making, plan, &mut generator, frame, gate)?;
        total += u128::from(frame.sum());
    }
    Ok(total)
}

// The lines on so many bytes with this sum.
#[tactic(auto, unfolding(crate::specs::Report::sum_lines))]
fn sum_lines(alloc: Global, count: u64, total: u128) -> Result<String, OutOfMemory>
    ensures { IfOk result (λ text. string_bytes text ≡ sum_lines count total) }
{
    let mut buffer = Buffer::new();
    let mut text = String::with_capacity(alloc, LINES_ROOM)?;
    text.push_str("frames 4\nbytes ")?;
    text.push_str(buffer.format(count))?;
    text.push_str("\nsum ")?;
    text.push_str(buffer.format(total))?;
    text.push_str("\n")?;
    Ok(text)
}

/// The number and the sum of the bytes that frames made from a seed are converted to. One frame is
/// held at a time.
pub fn sum_text<R: Threads + Wait + Sync, G: Gate>(
    rt: &R,
    alloc: Global,
    making: &Making,
    gate: &G,
) -> Result<String, OutOfMemory>
    requires { IsSoundMaking making.now }
    ensures { IfOk result (λ text. string_bytes text
        ≡ sum_lines (length (made_targets making.now 4)) (sum (made_targets making.now 4))) }
{
    let cache = ListCache::new(alloc, 1)?;
    let mut note = cache.note(0);
    let seen = look_up(alloc, &cache, &mut note, &making.pair)?;
    let frame = SlicedFrame::new(
        alloc,
        &making.pair.from.desc,
        &making.pair.to.desc,
        SIDE,
        SIDE,
        making.slice,
    )?;
    let total = sum_targets(rt, alloc, making, seen.plan(), frame, gate)?;
    let count = frame_len(&making.pair.to.desc, SIDE, SIDE);
    sum_lines(alloc, u64::from(FRAMES) * count, total)
}
