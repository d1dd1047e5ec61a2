// A frame of the input, read and converted, and a frame of the output, written.
ghost use Rattle.std.specs.Prelude.{◌≡◌, ◌<◌, ◌++◌, IsTrue, IfOk, IfErr, IfSome, OnOk, OnErr};
ghost use Rattle.pix_io.specs.Faults.{HasCause};
ghost use Rattle.pix_io.specs.Streams.{Writes, WritesPart, HasEnded};
ghost use Rattle.sws_run.specs.Cut.{last_end};
ghost use Rattle.sws_run.specs.Output.{front_in};
ghost use Rattle.sws_run.specs.Frames.{IfTold, IsFrameFor, ConvertsFrame, LeavesFrame, frame_reads};
ghost use Rattle.sws_run.specs.Frames.{size_by, target_held, end_if};

use crate::converter::Converter;
use frame_slices::{Gate, SlicedFrame, Unfinished};
use pix_io::{Failed, Got, Sink, Source, read_whole, write_all};
use row_plan::Plan;
use std::alloc::Global;
use std::sync::Wait;
use std::thread::Threads;
use sws_words::Form;
use y4m_io::{FrameLine, LineEnd, StreamFault, read_frame_line};

/// Why no frame of the input was converted.
#[derive(Clone, Copy, Debug, PartialEq, Eq)]
pub enum FrameEnd {
    /// The input was at its end.
    Nothing,
    /// The input is faulty where a frame may begin.
    Stream(StreamFault),
    /// A read failed.
    ReadFault,
    /// Memory was refused.
    OutOfMemory,
}

// Reads a raw frame and converts it.
fn convert_raw_frame<R: Threads + Wait + Sync, In: Source, G: Gate>(
    rt: &R,
    alloc: Global,
    converter: &Converter,
    plan: &Plan,
    input: &mut In,
    frame: SlicedFrame,
    gate: &G,
) -> Result<SlicedFrame, FrameEnd>
    requires some { 0 < size_by converter.now }
    requires plan { plan.now.pair ≡ converter.now.pair }
    requires frame { IsFrameFor converter.now frame.whole }
    requires workers { 0 < converter.now.workers }
    ensures converted { IfOk result (λ frame. ConvertsFrame Form.Raw converter.now
        (In.shown input.old) (In.shown input.new) (target_held frame)) }
    ensures left { IfErr result (LeavesFrame Form.Raw (size_by converter.now)
        (In.shown input.old) (In.shown input.new)) }
    ensures cause { HasCause (In.shown input.old) (In.shown input.new) (frame_reads result) }
    ensures whole { IfOk result (λ frame. IsFrameFor converter.now frame.whole) }
{
    match frame.convert_next(rt, alloc, plan, converter.workers, gate, input) {
        Ok(converted) => Ok(converted),
        Err(Unfinished::End) => Err(FrameEnd::Nothing),
        Err(Unfinished::Short(_)) => Err(FrameEnd::Stream(StreamFault::Truncated)),
        Err(Unfinished::Failed(_)) => Err(FrameEnd::ReadFault),
        Err(Unfinished::OutOfMemory) => Err(FrameEnd::OutOfMemory),
    }
}

// Reads a frame behind its line and converts it.
fn convert_stream_frame<R: Threads + Wait + Sync, In: Source, G: Gate>(
    rt: &R,
    alloc: Global,
    converter: &Converter,
    plan: &Plan,
    input: &mut In,
    frame: SlicedFrame,
    gate: &G,
) -> Result<SlicedFrame, FrameEnd>
    requires some { 0 < size_by converter.now }
    requires plan { plan.now.pair ≡ converter.now.pair }
    requires frame { IsFrameFor converter.now frame.whole }
    requires workers { 0 < converter.now.workers }
    ensures converted { IfOk result (λ frame. ConvertsFrame Form.Y4m converter.now
        (In.shown input.old) (In.shown input.new) (target_held frame)) }
    ensures left { IfErr result (LeavesFrame Form.Y4m (size_by converter.now)
        (In.shown input.old) (In.shown input.new)) }
    ensures cause { HasCause (In.shown input.old) (In.shown input.new) (frame_reads result) }
    ensures whole { IfOk result (λ frame. IsFrameFor converter.now frame.whole) }
{
    match read_frame_line(input) {
        Ok(FrameLine::Frame) => {}
        Ok(FrameLine::End) => return Err(FrameEnd::Nothing),
        Err(LineEnd::Stream(fault)) => return Err(FrameEnd::Stream(fault)),
        Err(LineEnd::ReadFault) => return Err(FrameEnd::ReadFault),
    }
    match frame.convert_next(rt, alloc, plan, converter.workers, gate, input) {
        Ok(converted) => Ok(converted),
        Err(Unfinished::End) => Err(FrameEnd::Stream(StreamFault::Truncated)),
        Err(Unfinished::Short(_)) => Err(FrameEnd::Stream(StreamFault::Truncated)),
        Err(Unfinished::Failed(_)) => Err(FrameEnd::ReadFault),
        Err(Unfinished::OutOfMemory) => Err(FrameEnd::OutOfMemory),
    }
}

/// Reads the next frame of the input, behind its line where the form has one, and converts it: the
/// slices then hold its target frame. Where it gives none, the slices are dropped.
pub fn convert_frame<R: Threads + Wait + Sync, In: Source, G: Gate>(
    rt: &R,
    alloc: Global,
    converter: &Converter,
    plan: &Plan,
    input: &mut In,
    frame: SlicedFrame,
    gate: &G,
) -> Result<SlicedFrame, FrameEnd>
    requires some { 0 < size_by converter.now }
    requires plan { plan.now.pair ≡ converter.now.pair }
    requires frame { IsFrameFor converter.now frame.whole }
    requires workers { 0 < converter.now.workers }
    ensures converted { IfOk result (λ frame. ConvertsFrame converter.now.source_form converter.now
        (In.shown input.old) (In.shown input.new) (target_held frame)) }
    ensures left { IfErr result (LeavesFrame converter.now.source_form (size_by converter.now)
        (In.shown input.old) (In.shown input.new)) }
    ensures cause { HasCause (In.shown input.old) (In.shown input.new) (frame_reads result) }
    ensures whole { IfOk result (λ frame. IsFrameFor converter.now frame.whole) }
{
    match converter.source_form {
        Form::Raw => convert_raw_frame(rt, alloc, converter, plan, input, frame, gate),
        Form::Y4m => convert_stream_frame(rt, alloc, converter, plan, input, frame, gate),
    }
}

/// Whether no byte is left behind the last frame that there may be.
pub fn is_at_end<In: Source>(input: &mut In) -> Result<bool, Failed>
    ensures end { IfOk result (λ ended. IfSome (In.shown input.old).bytes
        (λ bytes. last_end bytes ≡ end_if ended)) }
    ensures ended { IfOk result (λ ended. IsTrue ended → HasEnded (In.shown input.new)) }
    ensures kept { OnErr result (IfTold (In.shown input.old).bytes (In.shown input.new).bytes
        (λ bytes rest. rest ≡ bytes)) }
    ensures cause { HasCause (In.shown input.old) (In.shown input.new) result }
{
    let mut byte = [0];
    match read_whole(input, &mut byte) {
        Ok(Got::Whole) => Ok(false),
        Ok(Got::End) => Ok(true),
        Ok(Got::Short(_)) => unreachable!(),
        Err(failed) => Err(failed),
    }
}

// The line in front of a frame.
fn front(form: Form) -> &'static [u8]
    ensures { result.now ≡ front_in form }
{
    match form {
        Form::Raw => b"",
        Form::Y4m => b"FRAME\n",
    }
}

/// Writes the target frame that the slices hold, in a stream behind its line.
pub fn write_frame<Out: Sink>(
    form: Form,
    output: &mut Out,
    frame: &SlicedFrame,
) -> Result<(), Failed>
    ensures written { OnOk result (Writes (Out.shown output.old) (Out.shown output.new)
        (front_in form ++ target_held frame.now)) }
    ensures part { OnErr result (WritesPart (Out.shown output.old) (Out.shown output.new)
        (front_in form ++ target_held frame.now)) }
    ensures cause { HasCause (Out.shown output.old) (Out.shown output.new) result }
{
    match write_all(output, front(form)) {
        Ok(()) => frame.write(output),
        Err(failed) => Err(failed),
    }
}
