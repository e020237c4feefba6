//! Digits that are counted before they are written.

ghost use Rattle.std.specs.Prelude.{◌≡◌, ◌+◌, ◌≤◌, ◌<◌, ◌^◌, ◌∷◌, ◌++◌, [], take, length, decimal};
ghost use Rattle.iso_defs.specs.Texts.{three_digits};

use crate::bytes::put_byte;
use crate::digits::Digits;
use itoa::write_digits;

/// Writes digits from what is at hand: it takes no table.
pub struct Counted;

/// How many digits a number below 10,000 has.
#[inline(always)]
pub fn count_short(n: u64) -> usize
    requires { n < 10000 }
    ensures value { result ≡ length (decimal n) }
    ensures bound { result ≤ 4 }
{
    if n < 100 {
        if n < 10 { 1 } else { 2 }
    } else if n < 1000 {
        3
    } else {
        4
    }
}

/// How many digits a number has.
#[inline(always)]
#[tactic(auto, using(crate::proofs::Counts::four_more, crate::proofs::Counts::eight_more))]
fn count_digits(n: u64) -> usize
    requires { n < 10 ^ 11 }
    ensures value { result ≡ length (decimal n) }
    ensures bound { result ≤ 11 }
{
    if n < 10_000 {
        count_short(n)
    } else if n < 100_000_000 {
        count_short(n / 10_000) + 4
    } else {
        count_short(n / 100_000_000) + 8
    }
}

impl Digits for Counted {
    #[inline(always)]
    fn put_number(&self, n: u64, room: &mut [u8], at: usize) -> usize {
        let end = at + count_digits(n);
        write_digits(n, room, end);
        end
    }

    #[inline(always)]
    fn put_three_digits(&self, n: u64, room: &mut [u8], at: usize) -> usize {
        let at = put_byte(b'0' + (n / 100) as u8, room, at);
        let at = put_byte(b'0' + (n / 10 % 10) as u8, room, at);
        put_byte(b'0' + (n % 10) as u8, room, at)
    }
}
