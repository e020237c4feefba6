//! The lines of a text.

ghost use Rattle.std.specs.Prelude.{◌≡◌, ℕ, ◌+◌, ◌<◌, ◌≤◌, ◌==◌, ◌∷◌, [], false, length, position, slice_index, MatchOption};
ghost use Rattle.iso_defs.specs.Bytes.{line_feed};
ghost use Rattle.text_lines.specs.Lines.{lines_of, text_end};

/// The length of a line without the one return before its line feed.
fn without_return(bytes: &[u8], end: usize) -> usize
    requires { end ≤ length bytes.now }
    ensures value { result ≡ text_end bytes.now end }
    ensures bound { result ≤ end }
{
    if end > 0 && bytes[end - 1] == b'\r' {
        end - 1
    } else {
        end
    }
}

/// The bytes that are searched in one step.
const STEP: usize = 16;

/// Whether there is a line feed in the step of bytes from a place on.
#[inline(always)]
fn has_feed(bytes: &[u8], from: usize) -> bool
    requires { from + STEP ≤ length bytes.now }
    ensures { result ≡ false → (k : ℕ) → k < STEP → (slice_index bytes.now (from + k) == line_feed) ≡ false }
{
    // No branch leaves the loop, so that it is one comparison of all the bytes.
    let mut found = false;
    for i in 0..STEP {
        found = found | (bytes[from + i] == b'\n');
    }
    found
}

/// How many bytes in front are seen to have no line feed among them, step by step.
#[inline(always)]
fn without_feed(bytes: &[u8]) -> usize
    ensures within { result ≤ length bytes.now }
    ensures none { (k : ℕ) → k < result → (slice_index bytes.now k == line_feed) ≡ false }
{
    let steps = bytes.len() / STEP;
    for step in 0..steps {
        if has_feed(bytes, STEP * step) {
            return STEP * step;
        }
    }
    STEP * steps
}

/// The place of the first line feed, from a look at each byte.
fn first_feed(bytes: &[u8]) -> Option<usize>
    ensures { result ≡ position (λ b. b == line_feed) bytes.now }
{
    bytes.iter().position(|b| *b == b'\n')
}

/// The place of the first line feed.
#[inline(always)]
fn feed_at(bytes: &[u8]) -> Option<usize>
    ensures { result ≡ position (λ b. b == line_feed) bytes.now }
{
    let start = without_feed(bytes);
    let place = first_feed(&bytes[start..])?;
    Some(start + place)
}

/// The text of the first line, and the bytes after its line feed. There is none only where no byte is left.
/// The last line may lack its line feed. One return just before a line feed is no part of the text.
#[inline(always)]
pub fn next_line(bytes: &[u8]) -> Option<(&[u8], &[u8])>
    ensures line { MatchOption result (lines_of bytes.now ≡ []) (λ x. lines_of bytes.now
        ≡ record { text = x.0.now; after = x.1.now } ∷ lines_of x.1.now) }
    ensures shorter { MatchOption result (bytes.now ≡ []) (λ x. length x.1.now + 1 ≤ length bytes.now) }
{
    if bytes.is_empty() {
        return None;
    }
    match feed_at(bytes) {
        Some(end) => {
            let text = &bytes[..without_return(bytes, end)];
            Some((text, &bytes[end + 1..]))
        }
        None => Some((bytes, &bytes[bytes.len()..])),
    }
}
