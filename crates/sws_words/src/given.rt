// What is given: the options that stand in the words, with their values.
ghost use Rattle.std.specs.Prelude.{◌≡◌, ◌≤◌, IfSome, option_map};
ghost use Rattle.sws_words.specs.Given.{given_in, value_of, task_given, form_given, size_given};
ghost use Rattle.sws_words.specs.Given.{range_given, matrix_given};
ghost use Rattle.sws_words.specs.Given.{number_given, side_given, source_given, source_named};
ghost use Rattle.sws_words.specs.Given.{target_given};

use crate::options::TaskName;
use crate::task::{Form, Named};
use crate::values::{form_named, number_within, range_named, size, task_named};
use clap::ArgMatches;
use colour_matrix::{Matrix, Range, named};
use desc_table::find;

const BT601: Matrix = Matrix {
    q: 1000,
    r: 299,
    b: 114,
};

/// The value of an option, where it is given.
pub fn value<'a>(given: &ArgMatches<'a>, name: &str) -> Option<&'a str>
    ensures { option_map (λ text. text.now) result ≡ value_of (given_in given.now) name.now }
{
    given.get_str(name)
}

/// The task: to convert, where none is given. None where the name is no task's.
pub fn task(given: &ArgMatches<'_>) -> Option<TaskName>
    ensures { result ≡ task_given (given_in given.now) }
{
    match value(given, "task") {
        Some(text) => task_named(text),
        None => Some(TaskName::Convert),
    }
}

/// The form of a stream: raw, where none is given. None where the name is no form's.
pub fn form(given: &ArgMatches<'_>, name: &str) -> Option<Form>
    ensures { result ≡ form_given (given_in given.now) name.now }
{
    match value(given, name) {
        Some(text) => form_named(text),
        None => Some(Form::Raw),
    }
}

/// The size, where it is given and is one.
pub fn frame_size(given: &ArgMatches<'_>) -> Option<(u128, u128)>
    ensures { result ≡ size_given (given_in given.now) }
{
    size(value(given, "size")?)
}

/// A range, where it is given and is one.
pub fn range(given: &ArgMatches<'_>, name: &str) -> Option<Range>
    ensures { result ≡ range_given (given_in given.now) name.now }
{
    range_named(value(given, name)?)
}

/// A matrix: bt601, where none is given.
pub fn matrix(given: &ArgMatches<'_>, name: &str) -> Matrix
    ensures { result ≡ matrix_given (given_in given.now) name.now }
{
    match value(given, name) {
        Some(text) => named(text).unwrap_or(BT601),
        None => BT601,
    }
}

/// A number of a range, where it is given and is one.
pub fn number(given: &ArgMatches<'_>, name: &str, least: u64, most: u64) -> Option<u64>
    ensures value { result ≡ number_given (given_in given.now) name.now least most }
    ensures within { IfSome result (λ n. (least ≤ n) × (n ≤ most)) }
{
    number_within(value(given, name)?, least, most)
}

// A side: what its name finds, its matrix and its range.
fn side(given: &ArgMatches<'_>, name: &str, matrix_name: &str, range_name: &str) -> Named
    ensures { result ≡ side_given (given_in given.now) name.now matrix_name.now range_name.now }
{
    Named {
        format: find(name),
        matrix: matrix(given, matrix_name),
        range: range(given, range_name),
    }
}

/// The source, where its format is named.
#[tactic(auto, unfolding(crate::specs::Given::source_given))]
pub fn source(given: &ArgMatches<'_>) -> Option<Named>
    ensures { result ≡ source_given (given_in given.now) }
{
    let name = value(given, "in")?;
    Some(side(given, name, "in-matrix", "in-range"))
}

/// The source of a task that does not read it. Where its format is not named, it finds none.
#[tactic(auto, unfolding(crate::specs::Given::source_named))]
pub fn named_source(given: &ArgMatches<'_>) -> Named
    ensures { result ≡ source_named (given_in given.now) }
{
    let name = value(given, "in").unwrap_or("");
    side(given, name, "in-matrix", "in-range")
}

/// The target. Where its format is not named, it finds none.
#[tactic(auto, unfolding(crate::specs::Given::target_given))]
pub fn target(given: &ArgMatches<'_>) -> Named
    ensures { result ≡ target_given (given_in given.now) }
{
    let name = value(given, "out").unwrap_or("");
    side(given, name, "out-matrix", "out-range")
}
