// What stands before the frames: the header of the input, and that of the output.
ghost use Rattle.std.specs.Prelude.{◌≡◌, Ok, Err, IfOk, IfErr, IfSome, OnErr};
ghost use Rattle.pix_io.specs.Faults.{HasCause};
ghost use Rattle.y4m_io.specs.Reading.{header_fault, header_reads};
ghost use Rattle.sws_run.specs.Cut.{header_line_cut};
ghost use Rattle.sws_run.specs.Ending.{IsOpeningFault};
ghost use Rattle.sws_run.specs.Frames.{IfTold, TakesHeader, TakesHeaderPart, IsSoundOpening};
ghost use Rattle.sws_run.specs.Output.{header_of, header_in};
ghost use Rattle.sws_run.specs.Request.{form_of, IsSoundInput, IsSoundConversion};

use crate::request::{Conversion, Input};
use frac_math::OutOfMemory;
use pix_io::Source;
use std::alloc::Global;
use sws_words::Form;
use y4m_io::{Header, HeaderEnd, header_text, read_header};

/// The header of an input: of raw frames the words say it.
pub fn input_header<In: Source>(
    alloc: Global,
    kind: &Input,
    input: &mut In,
) -> Result<Header, HeaderEnd>
    requires { IsSoundInput kind.now }
    ensures header { IfOk result (λ header. IfTold (In.shown input.old).bytes
        (In.shown input.new).bytes
        (TakesHeader kind.now header)) }
    ensures sound { IfOk result IsSoundOpening }
    ensures fault { IfErr result (λ end. IfSome (header_fault end)
        (λ fault. IfSome (In.shown input.old).bytes
        (λ bytes. header_line_cut kind.now bytes ≡ Err fault))) }
    ensures known { IfErr result (λ end. IfSome (header_fault end)
        (IsOpeningFault (form_of kind.now))) }
    ensures read_fault { OnErr (header_reads result)
        (IfTold (In.shown input.old).bytes (In.shown input.new).bytes
        (TakesHeaderPart kind.now)) }
    ensures cause { HasCause (In.shown input.old) (In.shown input.new) (header_reads result) }
{
    match kind {
        Input::Raw {
            format,
            width,
            height,
        } => Ok(Header {
            width: *width,
            height: *height,
            format: *format,
            range: None,
            rate: None,
            interlace: None,
            aspect: None,
        }),
        Input::Y4m => read_header(alloc, input),
    }
}

/// The text before the frames of the output: raw frames have none.
pub fn output_header(
    alloc: Global,
    conversion: &Conversion,
    header: Header,
) -> Result<Vec<u8>, OutOfMemory>
    requires { IsSoundConversion conversion.now }
    ensures { IfOk result (λ text. text.items ≡ header_in conversion.now.target_form
        (header_of conversion.now header)) }
{
    match conversion.target_form {
        Form::Raw => Ok(Vec::new(alloc)),
        Form::Y4m => header_text(
            alloc,
            &Header {
                format: conversion.target,
                range: conversion.target_range,
                ..header
            },
        ),
    }
}
