//! The words of a line.

ghost use Rattle.std.specs.Prelude.{◌≡◌, MatchOption, [], ◌∷◌, position};
ghost use Rattle.std.specs.Option.{option_map};
ghost use Rattle.text_lines.specs.Words.{is_blank, skip_blanks, trim_end, trimmed, is_word, words_of, three_in};

/// Whether a byte is a space or a tab.
fn is_blank_byte(b: u8) -> bool
    ensures { result ≡ is_blank b }
{
    b == b' ' || b == b'\t'
}

/// The text without the blanks at its front.
fn skip_blanks(text: &[u8]) -> &[u8]
    ensures { result.now ≡ skip_blanks text.now }
{
    let mut rest = text;
    while let [b' ' | b'\t', after @ ..] = rest {
        rest = after;
    }
    rest
}

/// The text without the blanks at its end.
fn cut(text: &[u8]) -> &[u8]
    ensures { result.now ≡ trim_end text.now }
{
    let mut end = text.len();
    while end > 0 && is_blank_byte(text[end - 1]) {
        end -= 1;
    }
    &text[..end]
}

/// The text without the blanks at its two ends. A blank is a space or a tab.
pub fn without_blanks(text: &[u8]) -> &[u8]
    ensures { result.now ≡ trimmed text.now }
{
    cut(skip_blanks(text))
}

/// Whether a text is this word, whatever the case of the text's ASCII letters. The word is given in small letters.
#[tactic(auto, unfolding(crate::specs::Words::is_word))]
pub fn same_word(text: &[u8], word: &[u8]) -> bool
    ensures { result ≡ is_word text.now word.now }
{
    let mut left = text;
    let mut right = word;
    while let ([a, more @ ..], [b, others @ ..]) = (left, right) {
        if a.to_ascii_lowercase() != *b {
            return false;
        }
        left = more;
        right = others;
    }
    left.is_empty() && right.is_empty()
}

/// The place of the first blank.
fn blank_at(text: &[u8]) -> Option<usize>
    ensures { result ≡ position is_blank text.now }
{
    text.iter().position(|b| is_blank_byte(*b))
}

/// The first word of a line, and what follows it; none where there are blanks alone.
/// Words are runs of bytes that are neither space nor tab.
pub fn next_word(text: &[u8]) -> Option<(&[u8], &[u8])>
    ensures { MatchOption result (words_of text.now ≡ []) (λ x. words_of text.now ≡ x.0.now ∷ words_of x.1.now) }
{
    let text = skip_blanks(text);
    if text.is_empty() {
        return None;
    }
    match blank_at(text) {
        Some(end) => Some((&text[..end], &text[end..])),
        None => Some((text, &text[text.len()..])),
    }
}

/// The words of a line that has exactly three.
pub fn three_words(text: &[u8]) -> Option<(&[u8], &[u8], &[u8])>
    ensures { option_map (λ x. (x.0.now, x.1.now, x.2.now)) result ≡ three_in (words_of text.now) }
{
    let (first, text) = next_word(text)?;
    let (second, text) = next_word(text)?;
    let (third, text) = next_word(text)?;
    if next_word(text).is_some() {
        return None;
    }
    Some((first, second, third))
}
