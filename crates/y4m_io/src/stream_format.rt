// The formats of a stream, and their C tags.
ghost use Rattle.std.specs.Prelude.{◌≡◌, map, option_copied, IsTrue, ◌↔◌};
ghost use Rattle.std.specs.Option.{option_map};
ghost use Rattle.y4m_io.specs.StreamFormats.{colour_spaces, space_with_text, space_with_name};
ghost use Rattle.y4m_io.specs.StreamFormats.{format_of_text, text_of_format, is_stream_format};
ghost use Rattle.y4m_io.specs.Spaces.{space_of};

use desc_table::{FormatId, find, name};

/// A colour space: the text of its C tag, and the name of its format.
#[derive(Clone, Copy)]
struct Space {
    text: &'static str,
    name: &'static str,
}

macro_rules! space {
    ($text:literal, $name:literal) => {
        Space {
            text: $text,
            name: $name,
        }
    };
}

static SPACES: [Space; 10] = [
    space!("444", "yuv444p"),
    space!("444p9", "yuv444p9le"),
    space!("444p10", "yuv444p10le"),
    space!("444p12", "yuv444p12le"),
    space!("444p14", "yuv444p14le"),
    space!("444p16", "yuv444p16le"),
    space!("mono", "gray"),
    space!("mono10", "gray10le"),
    space!("mono12", "gray12le"),
    space!("mono16", "gray16le"),
];

fn spaces() -> &'static [Space]
    ensures { map space_of result.now ≡ colour_spaces }
{
    &SPACES
}

fn space_with_text(text: &[u8]) -> Option<&'static Space>
    ensures { option_map (λ space. space_of space.now) result ≡ space_with_text text.now }
{
    spaces().iter().find(|space| space.text.as_bytes() == text)
}

fn space_with_name(name: &str) -> Option<&'static Space>
    ensures { option_map (λ space. space_of space.now) result ≡ space_with_name name.now }
{
    spaces().iter().find(|space| space.name == name)
}

/// The format with this C tag.
#[tactic(auto, unfolding(crate::specs::StreamFormats::format_of_text))]
pub(crate) fn format_of_text(text: &[u8]) -> Option<FormatId>
    ensures { result ≡ format_of_text text.now }
{
    match space_with_text(text) {
        Some(space) => find(space.name).ok(),
        None => None,
    }
}

/// The text of the C tag of a format.
#[tactic(auto, unfolding(crate::specs::StreamFormats::text_of_name))]
pub(crate) fn text_of_format(id: FormatId) -> Option<&'static str>
    ensures { option_copied result ≡ text_of_format id }
{
    let name = name(id);
    if name == "yuvj444p" {
        return Some("444");
    }
    match space_with_name(name) {
        Some(space) => Some(space.text),
        None => None,
    }
}

/// Whether a stream can have frames of this format: yuvj444p, or one that a C tag names.
pub fn is_stream_format(id: FormatId) -> bool
    ensures { result ≡ is_stream_format id }
{
    text_of_format(id).is_some()
}
