// The rules of the command line in their order.
ghost use Rattle.std.specs.Prelude.{◌≡◌, false, IfOk};
ghost use Rattle.sws_words.specs.Given.{given_in};
ghost use Rattle.sws_words.specs.Options.{option_of};
ghost use Rattle.sws_words.specs.Rules.{lacks, bars, misreads, is_missing, is_unwanted};
ghost use Rattle.sws_words.specs.Rules.{is_misread, is_no_frame};
ghost use Rattle.sws_words.specs.Rules.{has_fixed_range, has_rgb_range, is_stream_format};
ghost use Rattle.sws_words.specs.Rules.{has_no_stream_form};
ghost use Rattle.sws_words.specs.Rules.{either_side, conversion_given, sides_given};
ghost use Rattle.sws_words.specs.Rules.{making_given, task_by};
ghost use Rattle.sws_words.specs.Task.{IsSound};

use crate::fault::UsageFault;
use crate::given::{
    form, frame_size, matrix, named_source, number, range, source, target, task, value,
};
use crate::options::{OptionRow, TaskName, has_option, is_barred, is_needed, options};
use crate::task::{Convert, Form, Generate, Named, Sides, Task};
use crate::values::{is_frame_size, is_value};
use clap::ArgMatches;
use colour_matrix::Range;
use desc_table::{FormatId, desc, name};

// Whether the task requires an option that is not given.
#[tactic(auto, unfolding(crate::specs::Rules::lacks, crate::specs::Options::option_of))]
fn lacks(given: &ArgMatches<'_>, task: TaskName, option: &OptionRow) -> bool
    ensures { result ≡ lacks (given_in given.now) task (option_of option.now) }
{
    has_option(task, option.owners)
        && is_needed(option.need, form(given, "from"))
        && value(given, option.name).is_none()
}

fn is_missing(given: &ArgMatches<'_>, task: TaskName) -> bool
    ensures { result ≡ is_missing (given_in given.now) task }
{
    for option in options() {
        if lacks(given, task, option) {
            return true;
        }
    }
    false
}

// Whether an option is given that the task does not have, or that the source's header stands for.
#[tactic(auto, unfolding(crate::specs::Rules::bars, crate::specs::Options::option_of))]
fn bars(given: &ArgMatches<'_>, task: TaskName, option: &OptionRow) -> bool
    ensures { result ≡ bars (given_in given.now) task (option_of option.now) }
{
    value(given, option.name).is_some()
        && (!has_option(task, option.owners) || is_barred(option.need, form(given, "from")))
}

fn is_unwanted(given: &ArgMatches<'_>, task: TaskName) -> bool
    ensures { result ≡ is_unwanted (given_in given.now) task }
{
    for option in options() {
        if bars(given, task, option) {
            return true;
        }
    }
    false
}

// Whether an option is given with a value that is none of its values.
#[tactic(auto, unfolding(crate::specs::Rules::misreads, crate::specs::Options::option_of))]
fn misreads(given: &ArgMatches<'_>, option: &OptionRow) -> bool
    ensures { result ≡ misreads (given_in given.now) (option_of option.now) }
{
    match value(given, option.name) {
        Some(text) => !is_value(option.values, text),
        None => false,
    }
}

fn is_misread(given: &ArgMatches<'_>) -> bool
    ensures { result ≡ is_misread (given_in given.now) }
{
    for option in options() {
        if misreads(given, option) {
            return true;
        }
    }
    false
}

// Whether the size is not that of a frame.
fn is_no_frame(given: &ArgMatches<'_>) -> bool
    ensures { result ≡ is_no_frame (given_in given.now) }
{
    match frame_size(given) {
        Some((width, height)) => !is_frame_size(width, height),
        None => false,
    }
}

// Whether a side is yuvj444p, and its range is limited.
fn has_fixed_range(side: &Named) -> bool
    ensures { result ≡ has_fixed_range side.now }
{
    match (side.range, side.format) {
        (Some(Range::Limited), Ok(id)) => name(id) == "yuvj444p",
        _ => false,
    }
}

fn has_fixed_side(given: &ArgMatches<'_>) -> bool
    ensures { result ≡ either_side has_fixed_range (given_in given.now) }
{
    let named = match source(given) {
        Some(side) => has_fixed_range(&side),
        None => false,
    };
    named || has_fixed_range(&target(given))
}

// Whether a side is RGB or has a palette, and its range is limited.
fn has_rgb_range(side: &Named) -> bool
    ensures { result ≡ has_rgb_range side.now }
{
    match (side.range, side.format) {
        (Some(Range::Limited), Ok(id)) => desc(id).rgb || desc(id).palette,
        _ => false,
    }
}

fn has_rgb_side(given: &ArgMatches<'_>) -> bool
    ensures { result ≡ either_side has_rgb_range (given_in given.now) }
{
    let named = match source(given) {
        Some(side) => has_rgb_range(&side),
        None => false,
    };
    named || has_rgb_range(&target(given))
}

// Whether a format has a form in a YUV4MPEG2 stream.
#[tactic(auto, unfolding(crate::specs::Rules::is_stream_format))]
fn is_stream_format(id: FormatId) -> bool
    ensures { result ≡ is_stream_format id }
{
    matches!(
        name(id),
        "yuv444p"
            | "yuv444p9le"
            | "yuv444p10le"
            | "yuv444p12le"
            | "yuv444p14le"
            | "yuv444p16le"
            | "gray"
            | "gray10le"
            | "gray12le"
            | "gray16le"
            | "yuvj444p"
    )
}

// Whether the output is a YUV4MPEG2 stream, where the target's format has no form.
fn has_no_stream_form(given: &ArgMatches<'_>) -> bool
    ensures { result ≡ has_no_stream_form (given_in given.now) }
{
    match (form(given, "to"), target(given).format) {
        (Some(Form::Y4m), Ok(id)) => !is_stream_format(id),
        _ => false,
    }
}

// The conversion that is asked for.
#[tactic(auto, unfolding(crate::specs::Rules::conversion_given))]
fn conversion(given: &ArgMatches<'_>) -> Convert
    requires { is_no_frame (given_in given.now) ≡ false }
    ensures { result ≡ conversion_given (given_in given.now) }
{
    let (width, height) = frame_size(given).unwrap_or((0, 0));
    Convert {
        source: source(given),
        source_matrix: matrix(given, "in-matrix"),
        source_range: range(given, "in-range"),
        width: width as u32,
        height: height as u32,
        source_form: form(given, "from").unwrap_or(Form::Raw),
        target: target(given),
        target_form: form(given, "to").unwrap_or(Form::Raw),
        dither: number(given, "dither", 0, 4).unwrap_or(0) as u8,
        workers: number(given, "workers", 1, 64).unwrap_or(1) as u32,
        slice: number(given, "slice", 1, 16384).unwrap_or(16) as u32,
    }
}

// The two sides that are named.
#[tactic(auto, unfolding(crate::specs::Rules::sides_given))]
fn sides(given: &ArgMatches<'_>) -> Sides
    ensures { result ≡ sides_given (given_in given.now) }
{
    Sides {
        source: named_source(given),
        target: target(given),
        dither: number(given, "dither", 0, 4).unwrap_or(0) as u8,
    }
}

// The frames that are to be made.
#[tactic(auto, unfolding(crate::specs::Rules::making_given))]
fn making(given: &ArgMatches<'_>) -> Generate
    ensures { result ≡ making_given (given_in given.now) }
{
    Generate {
        sides: sides(given),
        workers: number(given, "workers", 1, 64).unwrap_or(1) as u32,
        slice: number(given, "slice", 1, 16384).unwrap_or(16) as u32,
        seed: number(given, "seed", 0, 18446744073709551615).unwrap_or(0),
    }
}

/// The task that is asked for, or the first rule after the one on the words that is broken.
#[tactic(auto, unfolding(crate::specs::Rules::task_by))]
pub fn task_by(given: &ArgMatches<'_>) -> Result<Task, UsageFault>
    ensures value { result ≡ task_by (given_in given.now) }
    ensures sound { IfOk result IsSound }
{
    let Some(asked) = task(given) else {
        return Err(UsageFault::Task);
    };
    if is_missing(given, asked) {
        return Err(UsageFault::Missing);
    }
    if is_unwanted(given, asked) {
        return Err(UsageFault::Unwanted);
    }
    if is_misread(given) {
        return Err(UsageFault::Value);
    }
    if is_no_frame(given) {
        return Err(UsageFault::Size);
    }
    if has_fixed_side(given) {
        return Err(UsageFault::FixedRange);
    }
    if has_rgb_side(given) {
        return Err(UsageFault::RgbRange);
    }
    if has_no_stream_form(given) {
        return Err(UsageFault::NotStreamFormat);
    }
    match asked {
        TaskName::Convert => Ok(Task::Convert(conversion(given))),
        TaskName::List => Ok(Task::List),
        TaskName::Ops => Ok(Task::Ops(sides(given))),
        TaskName::Generate => Ok(Task::Generate(making(given))),
    }
}
