//! Whole numbers of a text.

ghost use Rattle.std.specs.Prelude.{◌≡◌, ◌<◌, ◌^◌, IfSome, pos, neg_ℤ};
ghost use Rattle.text_lines.specs.Numbers.{digits_value, integer_of, whole_of};

/// The value of one to eighteen digits; none where the word is anything else. Leading zeros are allowed.
pub fn digits(word: &[u8]) -> Option<u64>
    ensures value { result ≡ digits_value word.now }
    ensures bound { IfSome result (λ n. n < 10 ^ 18) }
{
    if word.is_empty() || word.len() > 18 {
        return None;
    }
    let mut value = 0;
    for b in word {
        if *b < b'0' || b'9' < *b {
            return None;
        }
        value = 10 * value + u64::from(*b - b'0');
    }
    Some(value)
}

fn positive(n: u64) -> i64
    requires { n < 10 ^ 18 }
    ensures { result ≡ pos n }
{
    n as i64
}

fn negation_of(n: u64) -> i64
    requires { n < 10 ^ 18 }
    ensures { result ≡ neg_ℤ (pos n) }
{
    -(n as i64)
}

/// The number of an optional minus sign and one to eighteen digits; none where the word is anything else.
/// Minus zero is zero.
pub fn number(word: &[u8]) -> Option<i64>
    ensures { result ≡ integer_of word.now }
{
    if let [b'-', rest @ ..] = word {
        return Some(negation_of(digits(rest)?));
    }
    Some(positive(digits(word)?))
}

/// The number of a word if it is not negative, and none otherwise.
pub fn whole(word: &[u8]) -> Option<u64>
    ensures { result ≡ whole_of word.now }
{
    let n = number(word)?;
    if n < 0 { None } else { Some(n as u64) }
}
