//! Tests of `text_lines`.

use std::test::Fail;
use text_lines::{
    digits, level_number, next_line, next_word, number, same_word, three_words, whole,
    without_blanks,
};

/// The number in the second of three words, that number without a sign, and the digits of the third word.
fn numbers(text: &[u8]) -> Option<(Option<i64>, Option<u64>, Option<u64>)> {
    let (_, second, third) = three_words(text)?;
    Some((number(second), whole(second), digits(third)))
}

/// The first word is `sizes`, however written, and behind it stand three.
fn is_sizes(text: &[u8]) -> bool {
    match next_word(text) {
        Some((name, values)) => {
            same_word(name, b"sizes")
                && without_blanks(values) == b"3 -0004 2".as_slice()
                && numbers(values) == Some((Some(-4), None, Some(2)))
        }
        None => false,
    }
}

#[test]
fn a_line_its_words_and_a_number(rt: HostRuntime) -> Result<(), Fail> {
    let (text, rest) = next_line(b" Sizes\t3 -0004 2\r\n\r").ok_or("a line")?;
    assert!(rt; rest == b"\r".as_slice());
    assert!(rt; is_sizes(text));
    Ok(())
}

/// Words, and the levels that they are in thousandths.
const LEVELS: &[(&str, Option<i128>)] = &[
    ("5", Some(5_000)),
    ("-0.5", Some(-500)),
    ("12.034", Some(12_034)),
    ("1.", None),
    (".5", None),
    ("1.0005", None),
    ("1.5.0", None),
    ("+1", None),
];

#[test]
fn levels_in_thousandths(rt: HostRuntime) {
    for (word, want) in LEVELS {
        assert!(rt; level_number(word.as_bytes()) == *want, "{word}");
    }
}
