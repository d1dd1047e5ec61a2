// The values of options.
ghost use Rattle.std.specs.Prelude.{◌≡◌, ◌≤◌, IfSome};
ghost use Rattle.sws_words.specs.Values.{task_named, form_named, range_named, number_of};
ghost use Rattle.sws_words.specs.Values.{number_within};
ghost use Rattle.sws_words.specs.Values.{size_of, is_frame_size, is_value};

use crate::options::{TaskName, Values};
use crate::task::Form;
use colour_matrix::{Range, named};

/// The task of a name.
pub fn task_named(text: &str) -> Option<TaskName>
    ensures { result ≡ task_named text.now }
{
    match text {
        "convert" => Some(TaskName::Convert),
        "list" => Some(TaskName::List),
        "ops" => Some(TaskName::Ops),
        "generate" => Some(TaskName::Generate),
        _ => None,
    }
}

/// The form of a name.
pub fn form_named(text: &str) -> Option<Form>
    ensures { result ≡ form_named text.now }
{
    match text {
        "raw" => Some(Form::Raw),
        "y4m" => Some(Form::Y4m),
        _ => None,
    }
}

/// The range of a name.
pub fn range_named(text: &str) -> Option<Range>
    ensures { result ≡ range_named text.now }
{
    match text {
        "full" => Some(Range::Full),
        "limited" => Some(Range::Limited),
        _ => None,
    }
}

// The number of one to twenty digits.
fn number(text: &str) -> Option<u128>
    ensures { result ≡ number_of text.now }
{
    let digits = text.as_bytes();
    if digits.is_empty() || digits.len() > 20 {
        return None;
    }
    let mut value = 0u128;
    for digit in digits {
        if !digit.is_ascii_digit() {
            return None;
        }
        value = 10 * value + u128::from(*digit - b'0');
    }
    Some(value)
}

/// The number of one to twenty digits, where it is of this range.
pub fn number_within(text: &str, least: u64, most: u64) -> Option<u64>
    ensures value { result ≡ number_within least most text.now }
    ensures within { IfSome result (λ n. (least ≤ n) × (n ≤ most)) }
{
    let value = number(text)?;
    if u128::from(least) <= value && value <= u128::from(most) {
        Some(value as u64)
    } else {
        None
    }
}

/// The numbers before and after the `x`.
pub fn size(text: &str) -> Option<(u128, u128)>
    ensures { result ≡ size_of text.now }
{
    let (width, height) = text.split_once('x')?;
    Some((number(width)?, number(height)?))
}

/// Whether a frame may have this width and height.
pub fn is_frame_size(width: u128, height: u128) -> bool
    ensures { result ≡ is_frame_size width height }
{
    (1..=16384).contains(&width) && (1..=16384).contains(&height) && width * height <= 33554432
}

/// Whether a text is one of the values.
#[tactic(auto, unfolding(crate::specs::Values::is_value))]
pub fn is_value(values: Values, text: &str) -> bool
    ensures { result ≡ is_value values text.now }
{
    match values {
        Values::Tasks => task_named(text).is_some(),
        Values::Forms => form_named(text).is_some(),
        Values::Sizes => size(text).is_some(),
        Values::Formats => true,
        Values::Matrices => named(text).is_some(),
        Values::Ranges => range_named(text).is_some(),
        Values::Numbers { least, most } => number_within(text, least, most).is_some(),
    }
}
