//! Level numbers: whole numbers and numbers with up to three decimals.

ghost use Rattle.std.specs.Prelude.{◌≡◌, ◌<◌, ◌^◌, ◌==◌, IfSome, pos, neg_ℤ, position};
ghost use Rattle.iso_defs.specs.Bytes.{dot};
ghost use Rattle.text_lines.specs.Numbers.{decimals_value, level_number_of, thousandths_value};

use crate::numbers::digits;

/// The thousandths that one to three digits behind a point are.
fn decimals(word: &[u8]) -> Option<u128>
    ensures value { result ≡ decimals_value word.now }
    ensures bound { IfSome result (λ n. n < 10 ^ 20) }
{
    let rest = u128::from(digits(word)?);
    match word.len() {
        1 => Some(rest * 100),
        2 => Some(rest * 10),
        3 => Some(rest),
        _ => None,
    }
}

/// The place of the first point.
fn point_at(word: &[u8]) -> Option<usize>
    ensures { result ≡ position (λ b. b == dot) word.now }
{
    word.iter().position(|b| *b == b'.')
}

/// The thousandths of one to eighteen digits, and one to three more behind a point.
fn thousandths(word: &[u8]) -> Option<u128>
    ensures value { result ≡ thousandths_value word.now }
    ensures bound { IfSome result (λ n. n < 10 ^ 22) }
{
    let Some(point) = point_at(word) else {
        return Some(1000 * u128::from(digits(word)?));
    };
    let whole = u128::from(digits(&word[..point])?);
    Some(1000 * whole + decimals(&word[point + 1..])?)
}

fn positive(n: u128) -> i128
    requires { n < 10 ^ 22 }
    ensures { result ≡ pos n }
{
    n as i128
}

fn negation_of(n: u128) -> i128
    requires { n < 10 ^ 22 }
    ensures { result ≡ neg_ℤ (pos n) }
{
    -(n as i128)
}

/// The level number of a word, in thousandths: an optional minus sign, one to eighteen digits, and where a point
/// follows, one to three digits behind it. None where the word is anything else.
pub fn level_number(word: &[u8]) -> Option<i128>
    ensures { result ≡ level_number_of word.now }
{
    if let [b'-', rest @ ..] = word {
        return Some(negation_of(thousandths(rest)?));
    }
    Some(positive(thousandths(word)?))
}
