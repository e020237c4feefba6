//! What one line of a header says.
ghost use Rattle.std.specs.Prelude.{◌≡◌, ◌==◌, ◌<◌, ◌≤◌, List, ℕ, length, position, Option, Some, None};
ghost use Rattle.iso_defs.specs.Bytes.{colon};
ghost use Rattle.nrrd_read.specs.Fields.{meaning_of, field_line, field_named};
ghost use Rattle.nrrd_read.specs.Scanning.{seen_line};

use refusals::Field;
use text_lines::{same_word, without_blanks};

/// What a line of the header says.
#[derive(Clone, Copy)]
pub enum Meaning<'a> {
    /// It has no colon, or begins with one.
    Bad,
    /// It is a comment, a key with its value, or a field that is not read.
    Unread,
    /// It names another file for the samples.
    Detached,
    /// It gives a field that is read this value.
    Value(Field, &'a [u8]),
}

/// The field of a name.
#[tactic(auto, unfolding(crate::specs::Fields::field_named))]
fn field_of(name: &[u8]) -> Option<Field>
    ensures { result ≡ field_named name.now }
{
    if same_word(name, b"dimension") {
        return Some(Field::Dimension);
    }
    if same_word(name, b"type") {
        return Some(Field::Kind);
    }
    if same_word(name, b"sizes") {
        return Some(Field::Sizes);
    }
    if same_word(name, b"encoding") {
        return Some(Field::Encoding);
    }
    if same_word(name, b"endian") {
        return Some(Field::Endian);
    }
    if same_word(name, b"line skip") || same_word(name, b"lineskip") {
        return Some(Field::LineSkip);
    }
    if same_word(name, b"byte skip") || same_word(name, b"byteskip") {
        return Some(Field::ByteSkip);
    }
    None
}

/// What a field line says. One that names a file says that the samples lie there.
#[tactic(auto, unfolding(crate::specs::Fields::field_line))]
fn field_meaning<'a>(name: &[u8], value: &'a [u8]) -> Meaning<'a>
    ensures { seen_line result ≡ field_line name.now value.now }
{
    if same_word(name, b"data file") || same_word(name, b"datafile") {
        return Meaning::Detached;
    }
    match field_of(name) {
        Some(field) => Meaning::Value(field, value),
        None => Meaning::Unread,
    }
}

/// The place of the first colon.
fn colon_at(text: &[u8]) -> Option<usize>
    ensures value { result ≡ position (λ b. b == colon) text.now }
{
    text.iter().position(|b| *b == b':')
}

/// What a line says.
#[tactic(auto, unfolding(crate::specs::Fields::meaning_of))]
pub fn line_meaning(text: &[u8]) -> Meaning<'_>
    ensures { seen_line result ≡ meaning_of text.now }
{
    if !text.is_empty() && text[0] == b'#' {
        return Meaning::Unread;
    }
    match colon_at(text) {
        None => Meaning::Bad,
        Some(0) => Meaning::Bad,
        Some(at) => {
            let value = &text[at + 1..];
            if !value.is_empty() && value[0] == b'=' {
                return Meaning::Unread;
            }
            field_meaning(without_blanks(&text[..at]), without_blanks(value))
        }
    }
}
