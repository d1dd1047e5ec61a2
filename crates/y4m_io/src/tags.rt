// The tags of a header line.
ghost use Rattle.std.specs.Prelude.{◌≡◌, option_copied};
ghost use Rattle.std.specs.List.{list_all};
ghost use Rattle.y4m_io.specs.Tags.{tags_in, has_letter, is_known_tag, text_of, range_named};
ghost use Rattle.y4m_io.specs.Tags.{range_of};

use colour_matrix::Range;

// Whether the tag begins with this letter.
fn has_letter(letter: u8, tag: &[u8]) -> bool
    ensures { result ≡ has_letter letter tag.now }
{
    match tag {
        [] => false,
        [first, ..] => *first == letter,
    }
}

// Whether the tag begins with a letter that is known.
fn is_known_tag(tag: &[u8]) -> bool
    ensures { result ≡ is_known_tag tag.now }
{
    b"WHFIACX".iter().any(|letter| has_letter(*letter, tag))
}

// The range that a tag names.
fn range_named(tag: &[u8]) -> Option<Range>
    ensures { result ≡ range_named tag.now }
{
    if tag == b"XCOLORRANGE=FULL".as_slice() {
        Some(Range::Full)
    } else if tag == b"XCOLORRANGE=LIMITED".as_slice() {
        Some(Range::Limited)
    } else {
        None
    }
}

// Whether each tag between the spaces begins with a letter that is known.
pub(crate) fn are_known(tags: &[u8]) -> bool
    ensures { result ≡ list_all is_known_tag (tags_in tags.now) }
{
    tags.split(|byte| *byte == b' ')
        .filter(|tag| !tag.is_empty())
        .all(|tag| is_known_tag(tag))
}

// The text behind the letter of the last tag that has it.
pub(crate) fn last_text(tags: &[u8], letter: u8) -> Option<&[u8]>
    ensures { option_copied result ≡ text_of letter (tags_in tags.now) }
{
    let tag = tags
        .split(|byte| *byte == b' ')
        .filter(|tag| !tag.is_empty())
        .filter(|tag| has_letter(letter, tag))
        .last()?;
    Some(&tag[1..])
}

// The last of the ranges that the tags name.
pub(crate) fn last_range(tags: &[u8]) -> Option<Range>
    ensures { result ≡ range_of (tags_in tags.now) }
{
    tags.split(|byte| *byte == b' ')
        .filter(|tag| !tag.is_empty())
        .filter_map(|tag| range_named(tag))
        .last()
}
