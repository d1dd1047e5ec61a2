// What the words ask for, once the names of their formats are found.
ghost use Rattle.std.specs.Prelude.{◌≡◌, Ok, IfOk, IfErr};
ghost use Rattle.sws_words.specs.Task.{IsSound as IsSoundTask};
ghost use Rattle.sws_run.specs.Ending.{IsRefusal};
ghost use Rattle.sws_run.specs.Request.{IsSound, input_of, format_of, target_of, conversion_of};
ghost use Rattle.sws_run.specs.Request.{pair_between, making_of, request_of};

use crate::sides::side_with;
use crate::{Ended, SideName};
use colour_matrix::{Matrix, Range};
use desc_table::{FormatFault, FormatId, desc};
use pix_meaning::Pair;
use sws_words::{Convert, Form, Generate, Named, Sides, Task};

/// Where the frames of a source begin.
#[derive(Clone, Copy, Debug, PartialEq, Eq)]
pub enum Input {
    /// Raw frames one after the other, of the format and the size that the words say.
    Raw {
        format: FormatId,
        width: u32,
        height: u32,
    },
    /// A YUV4MPEG2 stream, whose header says them.
    Y4m,
}

/// A conversion whose formats are found.
#[derive(Clone, Copy, Debug, PartialEq, Eq)]
pub struct Conversion {
    pub input: Input,
    /// It is without effect where the source is RGB.
    pub source_matrix: Matrix,
    /// None where the words do not say it.
    pub source_range: Option<Range>,
    /// A format without a palette.
    pub target: FormatId,
    /// It is without effect where the target is RGB.
    pub target_matrix: Matrix,
    /// None where the words do not say it.
    pub target_range: Option<Range>,
    pub target_form: Form,
    /// The dither number, 0 to 4.
    pub dither: u8,
    /// How many workers, at least 1. They change no byte.
    pub workers: u32,
    /// Rows a slice, at least 1. They change no byte.
    pub slice: u32,
}

/// Frames that are made from a seed, and what they are converted to.
#[derive(Clone, Copy, Debug, PartialEq, Eq)]
pub struct Making {
    /// Its formats are of the table, the target's without a palette.
    pub pair: Pair,
    /// How many workers, at least 1. They change no byte.
    pub workers: u32,
    /// Rows a slice, at least 1. They change no byte.
    pub slice: u32,
    pub seed: u64,
}

/// What is told without any input.
#[derive(Clone, Copy, Debug, PartialEq, Eq)]
pub enum Report {
    /// The formats.
    List,
    /// The normal list of a pair, whose formats are of the table, the target's without a palette.
    Ops(Pair),
    /// The sum of what frames that are made are converted to.
    Generate(Making),
}

/// What the words ask for.
#[derive(Clone, Copy, Debug, PartialEq, Eq)]
pub enum Request {
    /// To convert a stream of frames.
    Convert(Conversion),
    /// To tell something without any input.
    Report(Report),
}

// The format of a side.
fn format_of(side: SideName, found: Result<FormatId, FormatFault>) -> Result<FormatId, Ended>
    ensures value { result ≡ format_of side found }
    ensures refusal { IfErr result IsRefusal }
{
    match found {
        Ok(id) => Ok(id),
        Err(fault) => Err(Ended::Format { side, fault }),
    }
}

// Where the frames begin: a source that the words name is raw.
fn input_of(source: &Option<Named>, width: u32, height: u32) -> Result<Input, Ended>
    ensures value { result ≡ input_of source.now width height }
    ensures refusal { IfErr result IsRefusal }
{
    match source {
        Some(side) => Ok(Input::Raw {
            format: format_of(SideName::In, side.format)?,
            width,
            height,
        }),
        None => Ok(Input::Y4m),
    }
}

// The target's format, which may not have a palette.
fn target_of(found: Result<FormatId, FormatFault>) -> Result<FormatId, Ended>
    ensures value { result ≡ target_of found }
    ensures refusal { IfErr result IsRefusal }
{
    let id = format_of(SideName::Out, found)?;
    if desc(id).palette {
        return Err(Ended::PaletteTarget);
    }
    Ok(id)
}

// The conversion, its source found before its target.
fn conversion_of(asked: &Convert) -> Result<Conversion, Ended>
    ensures value { result ≡ conversion_of asked.now }
    ensures refusal { IfErr result IsRefusal }
{
    let input = input_of(&asked.source, asked.width, asked.height)?;
    let target = target_of(asked.target.format)?;
    Ok(Conversion {
        input,
        source_matrix: asked.source_matrix,
        source_range: asked.source_range,
        target,
        target_matrix: asked.target.matrix,
        target_range: asked.target.range,
        target_form: asked.target_form,
        dither: asked.dither,
        workers: asked.workers,
        slice: asked.slice,
    })
}

// The pair of two sides, the source found before the target.
fn pair_between(sides: &Sides) -> Result<Pair, Ended>
    ensures value { result ≡ pair_between sides.now }
    ensures refusal { IfErr result IsRefusal }
{
    let source = format_of(SideName::In, sides.source.format)?;
    let target = target_of(sides.target.format)?;
    Ok(Pair {
        from: side_with(source, sides.source.matrix, sides.source.range),
        to: side_with(target, sides.target.matrix, sides.target.range),
        dither: sides.dither,
    })
}

// What is to be made, between two sides that are found.
fn making_of(asked: &Generate) -> Result<Making, Ended>
    ensures value { result ≡ making_of asked.now }
    ensures refusal { IfErr result IsRefusal }
{
    Ok(Making {
        pair: pair_between(&asked.sides)?,
        workers: asked.workers,
        slice: asked.slice,
        seed: asked.seed,
    })
}

/// What a task asks for, or how the run ends without it.
pub fn request_of(task: &Task) -> Result<Request, Ended>
    requires { IsSoundTask task.now }
    ensures value { result ≡ request_of (Ok task.now) }
    ensures sound { IfOk result IsSound }
    ensures refusal { IfErr result IsRefusal }
{
    match task {
        Task::Convert(asked) => Ok(Request::Convert(conversion_of(asked)?)),
        Task::List => Ok(Request::Report(Report::List)),
        Task::Ops(sides) => Ok(Request::Report(Report::Ops(pair_between(sides)?))),
        Task::Generate(asked) => Ok(Request::Report(Report::Generate(making_of(asked)?))),
    }
}
