// The table of options.
ghost use Rattle.std.specs.Prelude.{◌≡◌, map};
ghost use Rattle.sws_words.specs.Options.{options, option_of, has_option, is_needed, is_barred};

use crate::task::Form;

/// A task, by its name.
#[derive(Clone, Copy)]
pub enum TaskName {
    Convert,
    List,
    Ops,
    Generate,
}

/// Which tasks have an option.
#[derive(Clone, Copy)]
pub enum Owners {
    /// Every task.
    Every,
    /// Those that read a stream of frames.
    Streams,
    /// Those on two formats.
    Pairs,
    /// Those whose rows are divided among workers.
    Workers,
    /// Those that make frames by themselves.
    Makers,
}

/// When a task that has an option requires it.
#[derive(Clone, Copy)]
pub enum Need {
    Never,
    Always,
    /// Unless the source is a YUV4MPEG2 stream, whose header stands for it.
    UnlessStream,
    /// Where the source is raw frames. The header of a YUV4MPEG2 stream stands for it.
    WithRaw,
}

/// Which values an option takes.
#[derive(Clone, Copy)]
pub enum Values {
    /// The name of a task.
    Tasks,
    /// The name of a form of stream.
    Forms,
    /// Width and height.
    Sizes,
    /// Any text; what it finds among the formats is no matter of the words.
    Formats,
    /// The name of a matrix.
    Matrices,
    /// The name of a range.
    Ranges,
    /// A number of this range.
    Numbers { least: u64, most: u64 },
}

/// An option: its name without the two hyphens, which tasks have it, when they require it, and its
/// values.
pub struct OptionRow {
    pub name: &'static str,
    pub owners: Owners,
    pub need: Need,
    pub values: Values,
}

macro_rules! row {
    ($name:literal, $owners:ident, $need:ident, $values:expr) => {
        OptionRow {
            name: $name,
            owners: Owners::$owners,
            need: Need::$need,
            values: $values,
        }
    };
}

static OPTIONS: [OptionRow; 14] = [
    row!("task", Every, Never, Values::Tasks),
    row!("from", Streams, Never, Values::Forms),
    row!("to", Streams, Never, Values::Forms),
    row!("size", Streams, WithRaw, Values::Sizes),
    row!("in", Pairs, UnlessStream, Values::Formats),
    row!("out", Pairs, Always, Values::Formats),
    row!("in-matrix", Pairs, Never, Values::Matrices),
    row!("out-matrix", Pairs, Never, Values::Matrices),
    row!("in-range", Pairs, Never, Values::Ranges),
    row!("out-range", Pairs, Never, Values::Ranges),
    row!(
        "dither",
        Pairs,
        Never,
        Values::Numbers { least: 0, most: 4 }
    ),
    row!(
        "workers",
        Workers,
        Never,
        Values::Numbers { least: 1, most: 64 }
    ),
    row!(
        "slice",
        Workers,
        Never,
        Values::Numbers {
            least: 1,
            most: 16384
        }
    ),
    row!(
        "seed",
        Makers,
        Always,
        Values::Numbers {
            least: 0,
            most: 18446744073709551615
        }
    ),
];

/// The options.
pub fn options() -> &'static [OptionRow]
    ensures { map option_of result.now ≡ options }
{
    &OPTIONS
}

/// Whether a task has an option of these.
pub fn has_option(task: TaskName, owners: Owners) -> bool
    ensures { result ≡ has_option task owners }
{
    match task {
        TaskName::Convert => !matches!(owners, Owners::Makers),
        TaskName::List => matches!(owners, Owners::Every),
        TaskName::Ops => matches!(owners, Owners::Every | Owners::Pairs),
        TaskName::Generate => !matches!(owners, Owners::Streams),
    }
}

/// Whether an option is required at a source of this form; none stands for a form that has no name.
pub fn is_needed(need: Need, form: Option<Form>) -> bool
    ensures { result ≡ is_needed need form }
{
    match need {
        Need::Never => false,
        Need::Always => true,
        Need::UnlessStream => !matches!(form, Some(Form::Y4m)),
        Need::WithRaw => matches!(form, Some(Form::Raw)),
    }
}

/// Whether the header of the source stands for an option.
pub fn is_barred(need: Need, form: Option<Form>) -> bool
    ensures { result ≡ is_barred need form }
{
    matches!(need, Need::UnlessStream | Need::WithRaw) && matches!(form, Some(Form::Y4m))
}
