// A conversion of a stream, from its header on.
ghost use Rattle.std.specs.Prelude.{◌≡◌, Ok, IfOk, length};
ghost use Rattle.list_cache.specs.Cells.{cell_numbers};
ghost use Rattle.sws_run.specs.Frames.{IsConverterOf, IsFrameFor, IsSoundOpening, ended_by};
ghost use Rattle.sws_run.specs.Output.{header_of, header_in};
ghost use Rattle.sws_run.specs.Request.{form_of, IsSoundConversion};
ghost use Rattle.sws_run.specs.Run.{GivesAnswer, GivesReadFault, GivesWriteFault, GivesOutOfMemory};
ghost use Rattle.sws_run.specs.Run.{IsComplete};

use crate::Ended;
use crate::converter::Converter;
use crate::opening::{input_header, output_header};
use crate::planning::look_up;
use crate::request::{Conversion, Input, Request};
use crate::run::convert_frames;
use crate::sides::pair_of;
use desc_table::desc;
use frac_math::OutOfMemory;
use frame_slices::{Gate, SlicedFrame};
use list_cache::ListCache;
use pix_io::{Sink, Source, write_all};
use std::alloc::Global;
use std::sync::Wait;
use std::thread::Threads;
use sws_words::Form;
use y4m_io::{Header, HeaderEnd};

// What is made once for a stream: its converter, the text before its frames, the slices of a
// frame, which serve one frame after the other, and a cell for the plan.
#[derive(Drop)]
struct Stream {
    converter: Converter,
    text: Vec<u8>,
    frame: SlicedFrame,
    cache: ListCache,
}

// The form of a source.
fn form_of(input: &Input) -> Form
    ensures { result ≡ form_of input.now }
{
    match input {
        Input::Raw { .. } => Form::Raw,
        Input::Y4m => Form::Y4m,
    }
}

// Makes what is made once, before the first frame.
fn prepare(alloc: Global, conversion: &Conversion, header: Header) -> Result<Stream, OutOfMemory>
    requires sound { IsSoundConversion conversion.now }
    requires header { IsSoundOpening header }
    ensures converter { IfOk result (λ stream. IsConverterOf conversion.now header
        stream.converter) }
    ensures text { IfOk result (λ stream. stream.text.items ≡ header_in conversion.now.target_form
        (header_of conversion.now header)) }
    ensures frame { IfOk result (λ stream. IsFrameFor stream.converter stream.frame.whole) }
    ensures cache { IfOk result (λ stream. length (cell_numbers stream.cache) ≡ 1) }
{
    let converter = Converter {
        pair: pair_of(conversion, &header),
        width: header.width,
        height: header.height,
        source_form: form_of(&conversion.input),
        target_form: conversion.target_form,
        workers: conversion.workers,
    };
    let frame = SlicedFrame::new(
        alloc,
        &desc(header.format),
        &desc(conversion.target),
        header.width,
        header.height,
        conversion.slice,
    )?;
    Ok(Stream {
        converter,
        text: output_header(alloc, conversion, header)?,
        frame,
        cache: ListCache::new(alloc, 1)?,
    })
}

// How a run ends whose input gave no header.
fn ended_by(end: HeaderEnd) -> Ended
    ensures { result ≡ ended_by end }
{
    match end {
        HeaderEnd::Stream(fault) => Ended::Stream { fault, frames: 0 },
        HeaderEnd::ReadFault => Ended::ReadFault { frames: 0 },
        HeaderEnd::OutOfMemory => Ended::OutOfMemory { frames: 0 },
    }
}

/// Converts a stream: reads the header of the input, writes that of the output, and then converts
/// frame after frame.
pub fn convert<R: Threads + Wait + Sync, In: Source, Out: Sink, G: Gate>(
    rt: &R,
    alloc: Global,
    conversion: &Conversion,
    input: &mut In,
    output: &mut Out,
    gate: &G,
) -> Ended
    requires { IsSoundConversion conversion.now }
    ensures answer { GivesAnswer (Ok (Request.Convert conversion.now)) (In.shown input.old)
        (In.shown input.new)
        (Out.shown output.old) (Out.shown output.new) result }
    ensures read_fault { GivesReadFault (Ok (Request.Convert conversion.now)) (In.shown input.old)
        (In.shown input.new) (Out.shown output.old) (Out.shown output.new) result }
    ensures write_fault { GivesWriteFault (Ok (Request.Convert conversion.now)) (In.shown input.old)
        (In.shown input.new) (Out.shown output.old) (Out.shown output.new) result }
    ensures memory { GivesOutOfMemory (Ok (Request.Convert conversion.now)) (In.shown input.old)
        (In.shown input.new) (Out.shown output.old) (Out.shown output.new) result }
    ensures complete { IsComplete (In.shown input.old) (In.shown input.new) (Out.shown output.old)
        (Out.shown output.new) result }
{
    let header = match input_header(alloc, &conversion.input, input) {
        Ok(header) => header,
        Err(end) => return ended_by(end),
    };
    let Ok(stream) = prepare(alloc, conversion, header) else {
        return Ended::OutOfMemory { frames: 0 };
    };
    let Stream {
        converter,
        text,
        frame,
        cache,
    } = stream;
    let mut note = cache.note(0);
    let Ok(seen) = look_up(alloc, &cache, &mut note, &converter.pair) else {
        return Ended::OutOfMemory { frames: 0 };
    };
    match write_all(output, &text) {
        Ok(()) => {}
        Err(_) => return Ended::WriteFault { frames: 0 },
    }
    convert_frames(
        rt,
        alloc,
        &converter,
        seen.plan(),
        input,
        output,
        frame,
        gate,
    )
}
