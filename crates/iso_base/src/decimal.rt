//! Numbers of thousandths, and how they are printed.

ghost use Rattle.std.specs.Prelude.{◌≡◌, ◌+◌, ◌/◌, ◌<◌, ◌≤◌, ◌^◌, ◌++◌, ◌∷◌, [], unsigned_abs, length, decimal};
ghost use Rattle.iso_defs.specs.Bytes.{minus};
ghost use Rattle.arrayvec.specs.ArrayString.{array_string_len};
ghost use Rattle.iso_defs.specs.Texts.{decimal_text, level_size_text, level_text, thousandths};

use arrayvec::ArrayString;
use itoa::Buffer;

/// A number of thousandths of a voxel.
#[derive(Clone, Copy, PartialEq, Eq)]
pub struct Thousandth(pub i64);

/// What the layer of padding adds to a coordinate, in thousandths.
pub const PAD_SHIFT: i64 = 1000;

fn put_digit(digit: u64, into: &mut ArrayString<24>)
    requires digit { digit < 10 }
    requires room { array_string_len into.old < 24 }
    ensures text { into.new.bytes ≡ into.old.bytes ++ (48 + digit) ∷ [] }
    ensures room { array_string_len into.new ≡ array_string_len into.old + 1 }
{
    into.push((b'0' + digit as u8) as char);
}

fn put_sign(into: &mut ArrayString<24>)
    requires room { array_string_len into.old < 24 }
    ensures text { into.new.bytes ≡ into.old.bytes ++ minus ∷ [] }
    ensures room { array_string_len into.new ≡ array_string_len into.old + 1 }
{
    into.push('-');
}

/// Appends the whole part of a number of thousandths. It asks for no more room than the digits take, where `put_number` would ask
/// for that of the longest number of 64 bits.
fn put_whole_part(n: u64, into: &mut ArrayString<24>)
    requires room { array_string_len into.old + length (decimal (n / 1000)) ≤ 24 }
    ensures text { into.new.bytes ≡ into.old.bytes ++ decimal (n / 1000) }
    ensures room { array_string_len into.new ≡ array_string_len into.old + length (decimal (n / 1000)) }
{
    let mut buffer = Buffer::new();
    into.push_str(buffer.format(n / 1000));
}

fn put_thousandths(n: u64, into: &mut ArrayString<24>)
    requires room { array_string_len into.old + length (decimal (n / 1000)) + 4 ≤ 24 }
    ensures text { into.new.bytes ≡ into.old.bytes ++ thousandths n }
    ensures room { array_string_len into.new ≡ array_string_len into.old + length (decimal (n / 1000)) + 4 }
{
    put_whole_part(n, into);
    into.push('.');
    let rest = n % 1000;
    put_digit(rest / 100, into);
    put_digit(rest / 10 % 10, into);
    put_digit(rest % 10, into);
}

/// Appends the number with three decimals: a sign where it is negative, the whole part, a point and three digits.
/// These are 16 bytes at most.
#[tactic(auto, using(crate::proofs::WholePart::short_whole_part))]
pub fn put_decimal(value: Thousandth, into: &mut ArrayString<24>)
    requires bound { unsigned_abs value.0 < 2 ^ 44 }
    requires room { array_string_len into.old + 16 ≤ 24 }
    ensures text { into.new.bytes ≡ into.old.bytes ++ decimal_text value.0 }
    ensures room { array_string_len into.new ≤ array_string_len into.old + 16 }
{
    if value.0 < 0 {
        put_sign(into);
        put_thousandths(value.0.unsigned_abs(), into);
    } else {
        put_thousandths(value.0.unsigned_abs(), into);
    }
}

#[tactic(auto, using(crate::proofs::WholePart::whole_part))]
fn put_level_size(n: u64, into: &mut ArrayString<24>)
    requires room { array_string_len into.old + 21 ≤ 24 }
    ensures text { into.new.bytes ≡ into.old.bytes ++ level_size_text n }
{
    if n % 1000 == 0 {
        put_whole_part(n, into);
    } else {
        put_thousandths(n, into);
    }
}

/// Appends a level, given in thousandths: as the whole number that it is, else with three decimals.
pub fn put_level(thousandths: i64, into: &mut ArrayString<24>)
    requires room { array_string_len into.old + 22 ≤ 24 }
    ensures { into.new.bytes ≡ into.old.bytes ++ level_text thousandths }
{
    if thousandths < 0 {
        put_sign(into);
        put_level_size(thousandths.unsigned_abs(), into);
    } else {
        put_level_size(thousandths.unsigned_abs(), into);
    }
}
