//! The words of a text of samples.
ghost use Rattle.std.specs.Prelude.{◌≡◌, ◌∷◌, [], position, MatchOption};
ghost use Rattle.text_samples.specs.Text.{is_separator, skip_separators, words_in};

/// Whether a byte stands between words: a space, a tab, a line feed, a vertical tab, a form feed, a return or a comma.
#[inline(always)]
pub fn is_separator(b: u8) -> bool
    ensures { result ≡ is_separator b }
{
    b <= b' ' && (b == b' ' || b >= 9 && b <= 13) || b == b','
}

/// The text without the separators at its front.
#[inline(always)]
fn skip_separators(bytes: &[u8]) -> &[u8]
    ensures { result.now ≡ skip_separators bytes.now }
{
    let mut rest = bytes;
    while let [b, after @ ..] = rest {
        if !is_separator(*b) {
            break;
        }
        rest = after;
    }
    rest
}

/// The place of the first separator.
#[inline(always)]
fn separator_at(bytes: &[u8]) -> Option<usize>
    ensures { result ≡ position is_separator bytes.now }
{
    bytes.iter().position(|b| is_separator(*b))
}

/// The first word, and the bytes after it; none where there are separators alone.
#[inline(always)]
pub fn next_word(bytes: &[u8]) -> Option<(&[u8], &[u8])>
    ensures { MatchOption result (words_in bytes.now ≡ [])
        (λ x. words_in bytes.now ≡ record { text = x.0.now; after = x.1.now } ∷ words_in x.1.now) }
{
    let bytes = skip_separators(bytes);
    if bytes.is_empty() {
        return None;
    }
    match separator_at(bytes) {
        Some(end) => Some((&bytes[..end], &bytes[end..])),
        None => Some((bytes, &bytes[bytes.len()..])),
    }
}
