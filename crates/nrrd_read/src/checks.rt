//! What the values of the fields must be.
ghost use Rattle.std.specs.Prelude.{◌≡◌, Option, Some, None, Err, map, ok_or, option_map};
ghost use Rattle.text_lines.specs.Words.{words_of, three_in};
ghost use Rattle.text_lines.specs.Numbers.{whole_of, integer_of};
ghost use Rattle.refusals.specs.declared.nrrd.NrrdFault.TheVariants.{MissingField, UnsupportedEncoding};
ghost use Rattle.nrrd_read.specs.Checks as checks;
ghost use Rattle.nrrd_read.specs.Scanning.{map_ok, numbers_of};

use crate::encoding::Encoding;
use iso_base::{SampleKind, Sizes};
use refusals::{EncodingWord, Field, NrrdFault};
use text_lines::{number, same_word, three_words, whole};

const I8_NAMES: [&[u8]; 3] = [b"signed char", b"int8", b"int8_t"];

const U8_NAMES: [&[u8]; 4] = [b"uchar", b"unsigned char", b"uint8", b"uint8_t"];

const I16_NAMES: [&[u8]; 6] = [
    b"short",
    b"short int",
    b"signed short",
    b"signed short int",
    b"int16",
    b"int16_t",
];

const U16_NAMES: [&[u8]; 5] = [
    b"ushort",
    b"unsigned short",
    b"unsigned short int",
    b"uint16",
    b"uint16_t",
];

const I32_NAMES: [&[u8]; 4] = [b"int", b"signed int", b"int32", b"int32_t"];

const U32_NAMES: [&[u8]; 4] = [b"uint", b"unsigned int", b"uint32", b"uint32_t"];

/// The value of a field that must be there.
pub fn ask_value<'a>(value: Option<&'a [u8]>, field: Field) -> Result<&'a [u8], NrrdFault>
    ensures { map_ok (λ x. x.now) result ≡ ok_or (option_map (λ x. x.now) value.entry) (MissingField field) }
{
    match value {
        Some(text) => Ok(text),
        None => Err(NrrdFault::MissingField { field }),
    }
}

/// There are three axes.
pub fn ask_dimension(text: &[u8]) -> Result<(), NrrdFault>
    ensures { result ≡ checks.three_axes (whole_of text.now) }
{
    match whole(text) {
        None => Err(NrrdFault::BadValue {
            field: Field::Dimension,
        }),
        Some(3) => Ok(()),
        Some(n) => Err(NrrdFault::NotThreeAxes { n }),
    }
}

/// Whether a text is one of these words, whatever the case of its letters.
#[tactic(auto, unfolding(crate::specs::Checks::is_one_of))]
fn is_one_of(text: &[u8], words: &[&[u8]]) -> bool
    ensures { result ≡ checks.is_one_of text.now (map (λ w. w.now) words.now) }
{
    for word in words {
        if same_word(text, word) {
            return true;
        }
    }
    false
}

/// The kind that a type's name says, in any of its spellings.
#[tactic(auto, unfolding(crate::specs::Checks::kind_named))]
pub fn kind_of(word: &[u8]) -> Result<SampleKind, NrrdFault>
    ensures { result ≡ checks.kind_named word.now }
{
    if is_one_of(word, &I8_NAMES) {
        return Ok(SampleKind::I8);
    }
    if is_one_of(word, &U8_NAMES) {
        return Ok(SampleKind::U8);
    }
    if is_one_of(word, &I16_NAMES) {
        return Ok(SampleKind::I16);
    }
    if is_one_of(word, &U16_NAMES) {
        return Ok(SampleKind::U16);
    }
    if is_one_of(word, &I32_NAMES) {
        return Ok(SampleKind::I32);
    }
    if is_one_of(word, &U32_NAMES) {
        return Ok(SampleKind::U32);
    }
    Err(NrrdFault::UnsupportedKind)
}

/// The refusal of an encoding that is not read.
fn unread(word: EncodingWord) -> Result<Encoding, NrrdFault>
    ensures { result ≡ Err (UnsupportedEncoding word) }
{
    Err(NrrdFault::UnsupportedEncoding { word })
}

/// The encoding of a name, in any of its spellings.
#[tactic(auto, unfolding(crate::specs::Checks::encoding_named))]
pub fn encoding_of(word: &[u8]) -> Result<Encoding, NrrdFault>
    ensures { result ≡ checks.encoding_named word.now }
{
    if same_word(word, b"raw") {
        return Ok(Encoding::Raw);
    }
    if same_word(word, b"txt") || same_word(word, b"text") || same_word(word, b"ascii") {
        return Ok(Encoding::Text);
    }
    if same_word(word, b"hex") {
        return Ok(Encoding::Hex);
    }
    if same_word(word, b"gz") || same_word(word, b"gzip") {
        return unread(EncodingWord::Gzip);
    }
    if same_word(word, b"bz2") || same_word(word, b"bzip2") {
        return unread(EncodingWord::Bzip2);
    }
    unread(EncodingWord::Unknown)
}

/// A skip that is there must be 0.
pub fn ask_skip(value: Option<&[u8]>, field: Field) -> Result<(), NrrdFault>
    ensures { result ≡ checks.no_skip field (option_map integer_of (option_map (λ x. x.now) value.entry)) }
{
    match value {
        None => Ok(()),
        Some(text) => match number(text) {
            None => Err(NrrdFault::BadValue { field }),
            Some(0) => Ok(()),
            Some(_) => Err(NrrdFault::SkipUnsupported { field }),
        },
    }
}

/// Exactly three numbers that are not negative.
fn three_numbers(text: &[u8]) -> Option<(u64, u64, u64)>
    ensures { option_map (λ x. record { nx = x.0; ny = x.1; nz = x.2 }) result
        ≡ numbers_of (three_in (words_of text.now)) }
{
    let (x, y, z) = three_words(text)?;
    let nx = whole(x)?;
    let ny = whole(y)?;
    Some((nx, ny, whole(z)?))
}

/// The sizes, fastest axis first.
#[tactic(auto, using(crate::proofs::Agreeing::grid_is))]
pub fn sizes_of(text: &[u8]) -> Result<Sizes, NrrdFault>
    ensures { result ≡ checks.grid_of text.now }
{
    let Some((nx, ny, nz)) = three_numbers(text) else {
        return Err(NrrdFault::BadValue {
            field: Field::Sizes,
        });
    };
    Sizes::new(nx, ny, nz).map_err(NrrdFault::Size)
}

/// Whether the high bytes come first. It is asked only of samples that have a byte order.
#[tactic(auto, unfolding(crate::specs::Checks::big_endian_of))]
pub fn big_endian_of(ordered: bool, value: Option<&[u8]>) -> Result<bool, NrrdFault>
    ensures { result ≡ checks.big_endian_of ordered (option_map (λ x. x.now) value.entry) }
{
    if !ordered {
        return Ok(false);
    }
    let Some(word) = value else {
        return Err(NrrdFault::NoEndian);
    };
    if same_word(word, b"little") {
        return Ok(false);
    }
    if same_word(word, b"big") {
        return Ok(true);
    }
    Err(NrrdFault::BadValue {
        field: Field::Endian,
    })
}
