//! The lines of a header, in order.
//!
//! An empty line is no bad line and a line of blanks is one; a CR at the very end of the input stays in its line.
ghost use Rattle.std.specs.Prelude.{◌≡◌, ◌+◌, ◌^◌, ◌≤◌, ◌<◌, length, map, Option, MatchOption, IfSome, [], ◌∷◌, Ok};
ghost use Rattle.std.specs.Option.{option_map};
ghost use Rattle.text_lines.specs.Lines.{lines_of, unless_fault};
ghost use Rattle.nrrd_read.specs.Fields.{header_texts, sample_bytes, first_fault, meaning_of};
ghost use Rattle.nrrd_read.specs.Scanning.{map_ok, fields_in, seen_fields, get_field, put_field, no_fields, after_line};

use crate::meaning::{Meaning, line_meaning};
use refusals::{Field, NrrdFault};
use text_lines::next_line;

/// The first value of each field that is read.
#[derive(Clone, Copy)]
pub struct Header<'a> {
    pub dimension: Option<&'a [u8]>,
    pub kind: Option<&'a [u8]>,
    pub sizes: Option<&'a [u8]>,
    pub encoding: Option<&'a [u8]>,
    pub endian: Option<&'a [u8]>,
    pub line_skip: Option<&'a [u8]>,
    pub byte_skip: Option<&'a [u8]>,
}

impl<'a> Header<'a> {
    /// No value yet.
    fn empty() -> Header<'a>
        ensures { seen_fields result ≡ no_fields }
    {
        Header {
            dimension: None,
            kind: None,
            sizes: None,
            encoding: None,
            endian: None,
            line_skip: None,
            byte_skip: None,
        }
    }

    /// The value of a field.
    fn value(&self, field: Field) -> Option<&'a [u8]>
        ensures { option_map (λ x. x.now) result ≡ get_field (seen_fields self.now) field }
    {
        match field {
            Field::Dimension => self.dimension,
            Field::Kind => self.kind,
            Field::Sizes => self.sizes,
            Field::Encoding => self.encoding,
            Field::Endian => self.endian,
            Field::LineSkip => self.line_skip,
            Field::ByteSkip => self.byte_skip,
        }
    }

    /// Gives a field its value.
    fn put(&mut self, field: Field, value: &'a [u8])
        ensures { seen_fields self.new ≡ put_field (seen_fields self.old) field value.now }
    {
        match field {
            Field::Dimension => self.dimension = Some(value),
            Field::Kind => self.kind = Some(value),
            Field::Sizes => self.sizes = Some(value),
            Field::Encoding => self.encoding = Some(value),
            Field::Endian => self.endian = Some(value),
            Field::LineSkip => self.line_skip = Some(value),
            Field::ByteSkip => self.byte_skip = Some(value),
        }
    }

    /// Takes one more line in, or gives its fault.
    fn add(&mut self, number: u32, text: &'a [u8]) -> Result<(), NrrdFault>
        ensures { map_ok (λ _. seen_fields self.new) result
            ≡ after_line (seen_fields self.old) number (meaning_of text.now) }
    {
        match line_meaning(text) {
            Meaning::Unread => Ok(()),
            Meaning::Bad => Err(NrrdFault::BadLine { line: number }),
            Meaning::Detached => Err(NrrdFault::Detached { line: number }),
            Meaning::Value(field, value) => {
                if self.value(field).is_some() {
                    return Err(NrrdFault::RepeatedField { field });
                }
                self.put(field, value);
                Ok(())
            }
        }
    }
}

/// What follows the empty line that ends a header: the bytes of the samples. There are none where no line is empty.
pub fn behind_header(bytes: &[u8]) -> &[u8]
    ensures value { result.now ≡ sample_bytes (lines_of bytes.now) }
    ensures shorter { length result.now ≤ length bytes.now }
{
    let mut rest = bytes;
    while let Some((text, after)) = next_line(rest) {
        rest = after;
        if text.is_empty() {
            return rest;
        }
    }
    rest
}

/// The first line of what is left of a header, if it is not its end.
fn header_line(bytes: &[u8]) -> Option<(&[u8], &[u8])>
    ensures texts { MatchOption result (header_texts (lines_of bytes.now) ≡ [])
        (λ x. header_texts (lines_of bytes.now) ≡ x.0.now ∷ header_texts (lines_of x.1.now)) }
    ensures samples { IfSome result (λ x. sample_bytes (lines_of bytes.now) ≡ sample_bytes (lines_of x.1.now)) }
    ensures shorter { IfSome result (λ x. length x.1.now + 1 ≤ length bytes.now) }
{
    let (text, after) = next_line(bytes)?;
    if text.is_empty() {
        return None;
    }
    Some((text, after))
}

/// The values that the lines behind the first give, or the first fault of a line. The bytes are those of the header from
/// its second line on, which is line 2, and of the samples.
pub fn read_fields(bytes: &[u8]) -> Result<Header<'_>, NrrdFault>
    requires { length bytes.now ≤ 65536 + length (sample_bytes (lines_of bytes.now)) }
    ensures { map_ok seen_fields result
        ≡ unless_fault (first_fault (map meaning_of (header_texts (lines_of bytes.now))))
        (Ok (fields_in (map meaning_of (header_texts (lines_of bytes.now))))) }
{
    let mut header = Header::empty();
    let mut number = 2u32;
    let mut rest = bytes;
    while let Some((text, after)) = header_line(rest) {
        header.add(number, text)?;
        number += 1;
        rest = after;
    }
    Ok(header)
}
