//! What one line of a PLY header says.
ghost use Rattle.std.specs.Prelude.{◌≡◌};
ghost use Rattle.text_lines.specs.Words.{words_of};
ghost use Rattle.mesh_read.specs.Ply.{heading_of, by_first, format_line, element_line, property_line, end_line, is_end, is_binary, is_ascii, is_version, version_alone, is_corners, is_list};
ghost use Rattle.mesh_read.specs.SeenPly.{seen_heading};

use text_lines::{digits, next_word};

/// What a line of a header says.
#[derive(Clone, Copy)]
pub enum Heading<'a> {
    /// A comment, or no word.
    Unread,
    /// The format that is read.
    Ascii,
    /// One of the two binary formats.
    Binary,
    /// An element's name and its count of lines.
    Element(&'a [u8], u64),
    /// A property, and whether it is a list of corners.
    Property(bool),
    /// The end of the header.
    End,
    /// A line that may not stand in a header.
    Other,
}

#[tactic(auto, unfolding(crate::specs::Ply::is_binary))]
fn is_binary_word(word: &[u8]) -> bool
    ensures { result ≡ is_binary word.now }
{
    word == b"binary_little_endian".as_slice() || word == b"binary_big_endian".as_slice()
}

#[tactic(auto, unfolding(crate::specs::Ply::is_ascii))]
fn is_ascii_word(word: &[u8]) -> bool
    ensures { result ≡ is_ascii word.now }
{
    word == b"ascii".as_slice()
}

#[tactic(auto, unfolding(crate::specs::Ply::is_version))]
fn is_version_word(word: &[u8]) -> bool
    ensures { result ≡ is_version word.now }
{
    word == b"1.0".as_slice()
}

#[tactic(auto, unfolding(crate::specs::Ply::is_corners))]
fn is_corners_word(word: &[u8]) -> bool
    ensures { result ≡ is_corners word.now }
{
    word == b"vertex_indices".as_slice() || word == b"vertex_index".as_slice()
}

#[tactic(auto, unfolding(crate::specs::Ply::is_list))]
fn is_list_word(word: &[u8]) -> bool
    ensures { result ≡ is_list word.now }
{
    word == b"list".as_slice()
}

fn is_version_alone(words: &[u8]) -> bool
    ensures { result ≡ version_alone (words_of words.now) }
{
    match next_word(words) {
        Some((word, more)) => next_word(more).is_none() && is_version_word(word),
        None => false,
    }
}

fn format_heading(words: &[u8]) -> Heading<'_>
    ensures { seen_heading result ≡ format_line (words_of words.now) }
{
    let Some((word, more)) = next_word(words) else {
        return Heading::Other;
    };
    if is_binary_word(word) {
        Heading::Binary
    } else if is_ascii_word(word) && is_version_alone(more) {
        Heading::Ascii
    } else {
        Heading::Other
    }
}

fn element_heading(words: &[u8]) -> Heading<'_>
    ensures { seen_heading result ≡ element_line (words_of words.now) }
{
    let Some((name, more)) = next_word(words) else {
        return Heading::Other;
    };
    let Some((count, more)) = next_word(more) else {
        return Heading::Other;
    };
    if next_word(more).is_some() {
        return Heading::Other;
    }
    match digits(count) {
        Some(n) => Heading::Element(name, n),
        None => Heading::Other,
    }
}

fn property_heading(words: &[u8]) -> Heading<'_>
    ensures { seen_heading result ≡ property_line (words_of words.now) }
{
    let Some((first, more)) = next_word(words) else {
        return Heading::Other;
    };
    let Some((_, more)) = next_word(more) else {
        return Heading::Other;
    };
    let Some((_, more)) = next_word(more) else {
        return Heading::Property(false);
    };
    let Some((name, more)) = next_word(more) else {
        return Heading::Other;
    };
    if next_word(more).is_none() && is_list_word(first) {
        Heading::Property(is_corners_word(name))
    } else {
        Heading::Other
    }
}

fn end_heading(words: &[u8]) -> Heading<'_>
    ensures { seen_heading result ≡ end_line (words_of words.now) }
{
    if next_word(words).is_none() {
        Heading::End
    } else {
        Heading::Other
    }
}

#[tactic(auto, unfolding(crate::specs::Ply::by_first))]
fn heading_named<'a>(word: &[u8], words: &'a [u8]) -> Heading<'a>
    ensures { seen_heading result ≡ by_first word.now (words_of words.now) }
{
    if word == b"comment".as_slice() || word == b"obj_info".as_slice() {
        Heading::Unread
    } else if word == b"format".as_slice() {
        format_heading(words)
    } else if word == b"element".as_slice() {
        element_heading(words)
    } else if word == b"property".as_slice() {
        property_heading(words)
    } else if word == b"end_header".as_slice() {
        end_heading(words)
    } else {
        Heading::Other
    }
}

/// What a line says.
pub fn heading_in(text: &[u8]) -> Heading<'_>
    ensures { seen_heading result ≡ heading_of (words_of text.now) }
{
    match next_word(text) {
        Some((word, words)) => heading_named(word, words),
        None => Heading::Unread,
    }
}

/// Whether it is the end of the header.
pub fn is_end_heading(heading: Heading<'_>) -> bool
    ensures { result ≡ is_end (seen_heading heading.entry) }
{
    matches!(heading, Heading::End)
}
