// The run over the frames of an input: frame after frame.
ghost use Rattle.std.specs.Prelude.{◌≡◌, ◌<◌};
ghost use Rattle.sws_run.specs.Run.{IsComplete};
ghost use Rattle.sws_run.specs.Frames.{EndsFrames, StopsReading, StopsWriting, StopsForMemory};
ghost use Rattle.sws_run.specs.Frames.{IsFrameFor, size_by};

use crate::Ended;
use crate::converter::Converter;
use crate::frame::{FrameEnd, convert_frame, is_at_end, write_frame};
use frame_slices::{Gate, SlicedFrame};
use pix_io::{Sink, Source};
use row_plan::Plan;
use std::alloc::Global;
use std::sync::Wait;
use std::thread::Threads;

// An input has at most so many frames.
const MAX_FRAMES: u32 = 1_000_000;

/// Converts the frames of the input one after the other, in the slices of one frame. All workers
/// borrow the plan, which is that of the converter's pair.
pub fn convert_frames<R: Threads + Wait + Sync, In: Source, Out: Sink, G: Gate>(
    rt: &R,
    alloc: Global,
    converter: &Converter,
    plan: &Plan,
    input: &mut In,
    output: &mut Out,
    frame: SlicedFrame,
    gate: &G,
) -> Ended
    requires some { 0 < size_by converter.now }
    requires plan { plan.now.pair ≡ converter.now.pair }
    requires frame { IsFrameFor converter.now frame.whole }
    requires workers { 0 < converter.now.workers }
    ensures answer { EndsFrames converter.now (size_by converter.now) (In.shown input.old)
        (In.shown input.new)
        (Out.shown output.old) (Out.shown output.new) result }
    ensures read_fault { StopsReading converter.now (size_by converter.now) (In.shown input.old)
        (In.shown input.new)
        (Out.shown output.old) (Out.shown output.new) result }
    ensures write_fault { StopsWriting converter.now (size_by converter.now) (In.shown input.old)
        (In.shown input.new)
        (Out.shown output.old) (Out.shown output.new) result }
    ensures memory { StopsForMemory converter.now (size_by converter.now) (In.shown input.old)
        (Out.shown output.old) (Out.shown output.new) result }
    ensures complete { IsComplete (In.shown input.old) (In.shown input.new) (Out.shown output.old)
        (Out.shown output.new) result }
{
    let mut frame = frame;
    for done in 0..MAX_FRAMES {
        frame = match convert_frame(rt, alloc, converter, plan, input, frame, gate) {
            Ok(converted) => converted,
            Err(FrameEnd::Nothing) => return Ended::Done { frames: done },
            Err(FrameEnd::Stream(fault)) => return Ended::Stream {
                fault,
                frames: done,
            },
            Err(FrameEnd::ReadFault) => return Ended::ReadFault { frames: done },
            Err(FrameEnd::OutOfMemory) => return Ended::OutOfMemory { frames: done },
        };
        match write_frame(converter.target_form, output, &frame) {
            Ok(()) => {}
            Err(_) => return Ended::WriteFault { frames: done },
        }
    }
    match is_at_end(input) {
        Ok(true) => Ended::Done { frames: MAX_FRAMES },
        Ok(false) => Ended::TooManyFrames,
        Err(_) => Ended::ReadFault { frames: MAX_FRAMES },
    }
}
