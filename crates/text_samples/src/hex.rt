//! Samples as the hex digits of their bytes.
//!
//! Digits are decoded without unpredictable branches: three choices side by side, and both digits of a byte are looked
//! at first.
ghost use Rattle.std.specs.Prelude.{◌≡◌, ℕ, true, false, nat_le, nat_lt, if◌then◌else◌, Some, None, ◌&&◌, ◌-◌, ◌<◌, ◌≤◌, ◌+◌, ◌*◌, ◌^◌, ◌∷◌, [], length, Ok, IfOk, IfErr, IfSome, MatchOption, All};
ghost use Rattle.iso_base.specs.Volume.{IsOfKind, width_of};
ghost use Rattle.text_samples.specs.Answers.{Fails};
ghost use Rattle.text_samples.specs.Gathered.{IsReadInto};
ghost use Rattle.iso_base.specs.SampleBytes.{as_kind, number_in, samples_in};
ghost use Rattle.text_samples.specs.HexScan.{byte_read, digit_read, map_ok, number_read, sample_read};
ghost use Rattle.text_samples.specs.Hex.{hex_samples, hex_value, marks_in};
ghost use Rattle.text_samples.specs.declared.hex.Wanted.{Wanted};

use crate::fault::SampleFault;
use crate::targets::Gather;
use crate::words::is_separator;
use iso_base::SampleKind;
use std::alloc::Global;

/// How many digits are needed in all, and how many each sample has.
#[derive(Clone, Copy)]
pub struct Wanted {
    pub needed: u64,
    pub each: u64,
}

/// The place of a byte in a range that is so long, counted from this number; 0 where it lies outside.
#[inline(always)]
fn place_in(b: u8, start: u8, long: u8, from: u8) -> u8
    requires end { start + long ≤ 256 }
    requires few { from + long ≤ 20 }
    ensures place { result ≡ (if nat_le start b && nat_lt b (start + long) then from + (b - start) else 0) }
    ensures bound { result ≤ 20 }
{
    let place = b.wrapping_sub(start);
    if place < long { place + from } else { 0 }
}

/// The value of a hex digit of either case, plus 1; 0 for any other byte. Three choices side by side cost less than one
/// after the other, since nobody can tell beforehand which digit comes.
#[inline(always)]
#[tactic(auto, unfolding(crate::specs::Hex::hex_value))]
fn digit_number(b: u8) -> u8
    ensures value { hex_value b ≡ (if nat_lt 0 result then Some (result - 1) else None) }
    ensures bound { result ≤ 16 }
{
    place_in(b, b'0', 10, 1) + place_in(b, b'A', 6, 11) + place_in(b, b'a', 6, 11)
}

/// The first byte that is no separator, and the bytes after it.
#[inline(always)]
fn next_mark(bytes: &[u8]) -> Option<(u8, &[u8])>
    ensures { MatchOption result (marks_in bytes.now ≡ [])
        (λ x. marks_in bytes.now ≡ record { byte = x.0; after = x.1.now } ∷ marks_in x.1.now) }
{
    let mut rest = bytes;
    while let [b, after @ ..] = rest {
        if !is_separator(*b) {
            return Some((*b, after));
        }
        rest = after;
    }
    None
}

/// The next digit, behind so many, and the bytes after it.
#[tactic(auto, unfolding(crate::specs::HexScan::digit_read))]
fn digit(rest: &[u8], done: u64, wanted: Wanted) -> Result<(u8, &[u8]), SampleFault>
    requires { 0 < wanted.each }
    ensures value { map_ok (λ x. (x.0, x.1.now)) result ≡ digit_read wanted done rest.now }
    ensures bound { IfOk result (λ x. x.0 < 16) }
{
    let Some((mark, after)) = next_mark(rest) else {
        return Err(SampleFault::Short {
            needed: wanted.needed,
            present: done,
        });
    };
    let number = digit_number(mark);
    if number > 0 {
        Ok((number - 1, after))
    } else {
        Err(SampleFault::Bad {
            place: done / wanted.each,
        })
    }
}

/// The byte of two digits that stand at the front, and the bytes after them; none where something else stands there.
#[inline(always)]
fn byte_in_front(rest: &[u8]) -> Option<(u8, &[u8])>
    ensures value { IfSome result (λ x. (wanted : Wanted) (done : ℕ) → byte_read wanted done rest.now
        ≡ Ok (x.0, x.1.now)) }
    ensures bound { IfSome result (λ x. x.0 < 256) }
{
    let [high, low, after @ ..] = rest else {
        return None;
    };
    let (high, low) = (digit_number(*high), digit_number(*low));
    if high > 0 && low > 0 {
        Some((16 * (high - 1) + (low - 1), after))
    } else {
        None
    }
}

/// The byte of the next two digits, the high one first, behind so many, whatever stands between them.
#[tactic(auto, unfolding(crate::specs::HexScan::byte_read))]
fn spaced_byte(rest: &[u8], done: u64, wanted: Wanted) -> Result<(u8, &[u8]), SampleFault>
    requires each { 0 < wanted.each }
    requires bound { done < 2 ^ 32 }
    ensures value { map_ok (λ x. (x.0, x.1.now)) result ≡ byte_read wanted done rest.now }
    ensures bound { IfOk result (λ x. x.0 < 256) }
{
    let (high, rest) = digit(rest, done, wanted)?;
    let (low, rest) = digit(rest, done + 1, wanted)?;
    Ok((16 * high + low, rest))
}

/// The byte of `spaced_byte`. Mostly both digits are the next two bytes, which is tested first.
#[inline(always)]
fn byte(rest: &[u8], done: u64, wanted: Wanted) -> Result<(u8, &[u8]), SampleFault>
    requires each { 0 < wanted.each }
    requires bound { done < 2 ^ 32 }
    ensures value { map_ok (λ x. (x.0, x.1.now)) result ≡ byte_read wanted done rest.now }
    ensures bound { IfOk result (λ x. x.0 < 256) }
{
    match byte_in_front(rest) {
        Some((value, after)) => Ok((value, after)),
        None => spaced_byte(rest, done, wanted),
    }
}

/// The number in the next byte, which is the same in either order.
#[inline(always)]
#[tactic(auto, unfolding(crate::specs::HexScan::number_read))]
fn number_8(rest: &[u8], done: u64, wanted: Wanted) -> Result<(u32, &[u8]), SampleFault>
    requires each { 0 < wanted.each }
    requires bound { done < 2 ^ 31 }
    ensures low_first { map_ok (λ x. (x.0, x.1.now)) result ≡ number_read false 1 wanted done rest.now }
    ensures high_first { map_ok (λ x. (x.0, x.1.now)) result ≡ number_read true 1 wanted done rest.now }
    ensures bound { IfOk result (λ x. x.0 < 256) }
{
    let (a, rest) = byte(rest, done, wanted)?;
    Ok((u32::from(a), rest))
}

/// The number in the next two bytes, the high one first or last.
#[inline(always)]
#[tactic(auto, unfolding(crate::specs::HexScan::number_read))]
fn number_16(
    rest: &[u8],
    big_endian: bool,
    done: u64,
    wanted: Wanted,
) -> Result<(u32, &[u8]), SampleFault>
    requires each { 0 < wanted.each }
    requires bound { done < 2 ^ 31 }
    ensures value { map_ok (λ x. (x.0, x.1.now)) result ≡ number_read big_endian 2 wanted done rest.now }
    ensures bound { IfOk result (λ x. x.0 < 2 ^ 16) }
{
    let (a, rest) = byte(rest, done, wanted)?;
    let done = done + 2;
    let (b, rest) = byte(rest, done, wanted)?;
    let (high, low) = if big_endian { (a, b) } else { (b, a) };
    Ok((256 * u32::from(high) + u32::from(low), rest))
}

/// The number in four bytes, the high one first or last.
#[inline(always)]
fn number_of(big_endian: bool, bytes: [u8; 4]) -> u32
    ensures { result ≡ number_in big_endian 4 bytes }
{
    let [a, b, c, d] = bytes;
    let (a, b, c, d) = if big_endian {
        (a, b, c, d)
    } else {
        (d, c, b, a)
    };
    let high = 256 * u32::from(a) + u32::from(b);
    let low = 256 * u32::from(c) + u32::from(d);
    65_536 * high + low
}

/// The number in the next four bytes, the high one first or last.
#[inline(always)]
#[tactic(auto, unfolding(crate::specs::HexScan::number_read))]
fn number_32(
    rest: &[u8],
    big_endian: bool,
    done: u64,
    wanted: Wanted,
) -> Result<(u32, &[u8]), SampleFault>
    requires each { 0 < wanted.each }
    requires bound { done < 2 ^ 31 }
    ensures value { map_ok (λ x. (x.0, x.1.now)) result ≡ number_read big_endian 4 wanted done rest.now }
    ensures bound { IfOk result (λ x. x.0 < 2 ^ 32) }
{
    let (a, rest) = byte(rest, done, wanted)?;
    let done = done + 2;
    let (b, rest) = byte(rest, done, wanted)?;
    let done = done + 2;
    let (c, rest) = byte(rest, done, wanted)?;
    let done = done + 2;
    let (d, rest) = byte(rest, done, wanted)?;
    Ok((number_of(big_endian, [a, b, c, d]), rest))
}

/// The number of a kind in these bits.
#[inline(always)]
fn value_of(kind: SampleKind, number: u32) -> i64
    requires { number < 256 ^ width_of kind }
    ensures value { result ≡ as_kind kind number }
    ensures range { IsOfKind kind result }
{
    let number = i64::from(number);
    match kind {
        SampleKind::I8 if number >= 0x80 => number - 0x100,
        SampleKind::I16 if number >= 0x8000 => number - 0x1_0000,
        SampleKind::I32 if number >= 0x8000_0000 => number - 0x1_0000_0000,
        _ => number,
    }
}

/// The number in the bytes of the next sample, the high one first or last.
#[inline(always)]
fn number(
    rest: &[u8],
    kind: SampleKind,
    big_endian: bool,
    done: u64,
    wanted: Wanted,
) -> Result<(u32, &[u8]), SampleFault>
    requires each { 0 < wanted.each }
    requires bound { done < 2 ^ 31 }
    ensures value { map_ok (λ x. (x.0, x.1.now)) result ≡ number_read big_endian (width_of kind) wanted done rest.now }
    ensures bound { IfOk result (λ x. x.0 < 256 ^ width_of kind) }
{
    match kind {
        SampleKind::I8 | SampleKind::U8 => number_8(rest, done, wanted),
        SampleKind::I16 | SampleKind::U16 => number_16(rest, big_endian, done, wanted),
        SampleKind::I32 | SampleKind::U32 => number_32(rest, big_endian, done, wanted),
    }
}

/// The next sample, behind so many digits, and the bytes after it.
#[inline(always)]
#[tactic(auto, unfolding(crate::specs::HexScan::sample_read))]
fn sample(
    rest: &[u8],
    kind: SampleKind,
    big_endian: bool,
    done: u64,
    wanted: Wanted,
) -> Result<(i64, &[u8]), SampleFault>
    requires each { 0 < wanted.each }
    requires bound { done < 2 ^ 31 }
    ensures value { map_ok (λ x. (x.0, x.1.now)) result ≡ sample_read kind big_endian wanted done rest.now }
    ensures range { IfOk result (λ x. IsOfKind kind x.0) }
{
    let (number, rest) = number(rest, kind, big_endian, done, wanted)?;
    Ok((value_of(kind, number), rest))
}

/// Reads so many samples from hex digits, and gives the number of bytes after the last digit needed beside them.
fn gather<G: Gather>(
    alloc: Global,
    bytes: &[u8],
    kind: SampleKind,
    big_endian: bool,
    count: u64,
) -> Result<(G, u64), SampleFault>
    requires some { 1 ≤ count }
    requires limit { count ≤ 160000000 }
    ensures ok { IfOk result (λ r. IsReadInto (G.Holds r.0 kind) kind count
        (hex_samples kind big_endian count bytes.now)
        r.1) }
    ensures err { IfErr result (λ fault. Fails fault (hex_samples kind big_endian count bytes.now)) }
{
    let each = 2 * u64::from(kind.width());
    let wanted = Wanted {
        needed: each * count,
        each,
    };
    let room = (bytes.len() / 2 + 1).min(count as usize);
    let mut samples = G::with_room(alloc, kind, room)?;
    let mut rest = bytes;
    for place in 0..count {
        let (value, after) = sample(rest, kind, big_endian, each * place, wanted)?;
        samples.add(kind, value)?;
        rest = after;
    }
    Ok((samples, rest.len() as u64))
}

/// Reads so many samples from the hex digits of their bytes, two of either case a byte and the high one first, whatever
/// separators stand between them; the high byte of a sample comes first or last. Beside them it gives the number of bytes
/// after the last digit needed. A separator is a space, a tab, a line feed, a vertical tab, a form feed, a return or a comma.
///
/// Of the bytes that are no separators so many are digits as are needed, else `Bad` comes, with the place of the sample
/// of the first that is none; else `Short` where there are too few, with how many are needed and how many there are.
/// `Memory` may come at any sample, and memory is asked for once, for the samples that the text has room for.
pub fn read_hex(
    alloc: Global,
    bytes: &[u8],
    kind: SampleKind,
    big_endian: bool,
    count: u64,
) -> Result<(Vec<i64>, u64), SampleFault>
    requires some { 1 ≤ count }
    requires limit { count ≤ 160000000 }
    ensures ok { IfOk result (λ r. hex_samples kind big_endian count bytes.now ≡ Ok (r.0.items, r.1)) }
    ensures each { IfOk result (λ r. All (IsOfKind kind) r.0.items) }
    ensures number { IfOk result (λ r. length r.0.items ≡ count) }
    ensures err { IfErr result (λ fault. Fails fault (hex_samples kind big_endian count bytes.now)) }
{
    gather(alloc, bytes, kind, big_endian, count)
}

/// Reads samples as `read_hex` does, into their bytes: 1, 2 or 4 each, as the kind has, the low byte first, in whichever
/// order the digits have them.
pub fn read_hex_bytes(
    alloc: Global,
    bytes: &[u8],
    kind: SampleKind,
    big_endian: bool,
    count: u64,
) -> Result<(Vec<u8>, u64), SampleFault>
    requires some { 1 ≤ count }
    requires limit { count ≤ 160000000 }
    ensures ok { IfOk result (λ r. hex_samples kind big_endian count bytes.now
        ≡ Ok (samples_in kind false r.0.items count, r.1)) }
    ensures size { IfOk result (λ r. length r.0.items ≡ width_of kind * count) }
    ensures err { IfErr result (λ fault. Fails fault (hex_samples kind big_endian count bytes.now)) }
{
    gather(alloc, bytes, kind, big_endian, count)
}
