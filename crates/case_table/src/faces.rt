//! The ambiguous faces of a cell, and which of them are joined.
//!
//! Which faces are ambiguous or joined cannot be predicted. Where all eight values are below 2^31, all six faces are
//! decided by products of 64 bits without a branch, and those that are not ambiguous are left out by one mask. For
//! wider values products of 128 bits serve, one ambiguous face after the other.

ghost use Rattle.std.specs.Prelude.{◌≡◌, nat_lt, ℕ, ◌+◌, ◌*◌, ◌/◌, ◌%◌, ◌^◌, ◌<◌, ◌≤◌, ◌==◌, ◌&&◌, IsTrue, if◌then◌else◌, not, slice_index, unsigned_abs};
ghost use Rattle.std.specs.List.{All, list_all};
ghost use Rattle.iso_defs.specs.Face.{is_ambiguous};
ghost use Rattle.iso_defs.specs.Cell.{joined_of, signs_of};
ghost use Rattle.iso_defs.specs.Bricks.{bits_of, number_of_bits};
ghost use Rattle.face_decider.specs.Cycle.{cycle_joined};
ghost use Rattle.case_table.specs.Cases.{ambiguous_flags, are_ambiguous};

use corner_signs::sign_byte;
use face_decider::face_joined;

/// The ambiguous faces by sign byte: bit f is face f.
const AMBIGUOUS: [u8; 256] = [
    0, 0, 0, 0, 0, 0, 16, 0, 0, 16, 0, 0, 0, 0, 0, 0, 0, 0, 4, 0, 1, 0, 21, 0, 0, 16, 4, 0, 1, 0,
    5, 0, 0, 4, 0, 0, 0, 4, 16, 0, 2, 22, 0, 0, 2, 6, 0, 0, 0, 0, 0, 0, 1, 0, 17, 0, 2, 18, 0, 0,
    3, 2, 1, 0, 0, 1, 0, 1, 0, 0, 16, 0, 8, 25, 8, 9, 0, 0, 0, 0, 0, 0, 4, 0, 0, 0, 20, 0, 8, 24,
    12, 8, 0, 0, 4, 0, 32, 37, 32, 33, 32, 36, 48, 32, 42, 63, 40, 41, 34, 38, 32, 32, 0, 0, 0, 0,
    0, 0, 16, 0, 10, 26, 8, 8, 2, 2, 0, 0, 0, 0, 2, 2, 8, 8, 26, 10, 0, 16, 0, 0, 0, 0, 0, 0, 32,
    32, 38, 34, 41, 40, 63, 42, 32, 48, 36, 32, 33, 32, 37, 32, 0, 4, 0, 0, 8, 12, 24, 8, 0, 20, 0,
    0, 0, 4, 0, 0, 0, 0, 0, 0, 9, 8, 25, 8, 0, 16, 0, 0, 1, 0, 1, 0, 0, 1, 2, 3, 0, 0, 18, 2, 0,
    17, 0, 1, 0, 0, 0, 0, 0, 0, 6, 2, 0, 0, 22, 2, 0, 16, 4, 0, 0, 0, 4, 0, 0, 5, 0, 1, 0, 4, 16,
    0, 0, 21, 0, 1, 0, 4, 0, 0, 0, 0, 0, 0, 0, 0, 16, 0, 0, 16, 0, 0, 0, 0, 0, 0,
];

/// The set of the ambiguous faces of a sign byte. Bit f is face f.
pub fn ambiguous_set(signs: u8) -> u8
    ensures faces { bits_of 6 result ≡ ambiguous_flags (bits_of 8 signs) }
    ensures bound { result < 64 }
{
    AMBIGUOUS[signs as usize]
}

/// Whether a face is in a set of faces.
fn has_face(set: u8, face: u8) -> bool
    requires { face < 6 }
    ensures { result ≡ (set / 2 ^ face % 2 == 1) }
{
    (set >> face) % 2 == 1
}

/// 1 where a face with these shifted values in cycle order is ambiguous and joined, else 0.
fn joined_digit(ambiguous: bool, cycle: [i64; 4]) -> u8
    requires known { ambiguous ≡ is_ambiguous (signs_of cycle) }
    requires small { All (λ v. unsigned_abs v < 2 ^ 44) cycle }
    ensures value { result ≡ (if is_ambiguous (signs_of cycle) && cycle_joined cycle then 1 else 0) }
    ensures bound { result ≤ 1 }
{
    if !ambiguous {
        0
    } else if face_joined(cycle) {
        1
    } else {
        0
    }
}

/// Whether these values are all short: their products then fit 64 bits. One comparison asks it of all eight.
#[inline(always)]
fn are_short(values: &[i64; 8]) -> bool
    requires { All (λ v. unsigned_abs v < 2 ^ 44) values.now }
    ensures { result ≡ list_all (λ v. nat_lt (unsigned_abs v) (2 ^ 31)) values.now }
{
    let mut size = 0;
    for i in 0..8 {
        size |= values[i].unsigned_abs();
    }
    size < 1 << 31
}

/// An answer, or the other one where it is reversed.
#[inline(always)]
fn turn_round(answer: bool, is_turned: bool) -> bool
    ensures { result ≡ (if is_turned then not answer else answer) }
{
    answer != is_turned
}

/// 1 where a face with these shifted values in cycle order is joined if it is ambiguous, else 0. The values are short, so their
/// products fit 64 bits. No processor can foretell which faces of a dense volume are ambiguous or joined, so this has no branch: `&`
/// and `|` read both of their sides.
#[inline(always)]
fn short_digit(cycle: [i64; 4]) -> u8
    requires { All (λ v. unsigned_abs v < 2 ^ 31) cycle }
    ensures value { result ≡ (if cycle_joined cycle then 1 else 0) }
    ensures bound { result ≤ 1 }
{
    let even = cycle[0] * cycle[2];
    let odd = cycle[1] * cycle[3];
    // The first value reverses the comparison; equal products join the face either way.
    let (is_less, is_more) = (odd <= even, even <= odd);
    u8::from(turn_round(is_less, cycle[0] < 0) | (is_less & is_more))
}

/// The values of a face, by its corner cycle.
macro_rules! cycle {
    ($values:ident, $a:literal, $b:literal, $c:literal, $d:literal) => {
        [$values[$a], $values[$b], $values[$c], $values[$d]]
    };
}

/// The joined faces, where the ambiguous ones are known: only these are decided, each by products of 128 bits.
fn joined_long(values: &[i64; 8], faces: u8) -> u8
    requires known { bits_of 6 faces ≡ ambiguous_flags (signs_of values.now) }
    requires small { All (λ v. unsigned_abs v < 2 ^ 44) values.now }
    ensures { result ≡ number_of_bits (joined_of values.now) }
{
    let d0 = joined_digit(has_face(faces, 0), cycle!(values, 0, 4, 6, 2));
    let d1 = joined_digit(has_face(faces, 1), cycle!(values, 1, 3, 7, 5));
    let d2 = joined_digit(has_face(faces, 2), cycle!(values, 0, 1, 5, 4));
    let d3 = joined_digit(has_face(faces, 3), cycle!(values, 2, 6, 7, 3));
    let d4 = joined_digit(has_face(faces, 4), cycle!(values, 0, 2, 3, 1));
    let d5 = joined_digit(has_face(faces, 5), cycle!(values, 4, 5, 7, 6));
    d0 + 2 * (d1 + 2 * (d2 + 2 * (d3 + 2 * (d4 + 2 * d5))))
}

/// The joined faces of short values: each face is decided, without a branch, and those that are not ambiguous are left out.
#[inline(always)]
fn joined_short(values: &[i64; 8], faces: u8) -> u8
    requires known { bits_of 6 faces ≡ ambiguous_flags (signs_of values.now) }
    requires short { All (λ v. unsigned_abs v < 2 ^ 31) values.now }
    ensures { result ≡ number_of_bits (joined_of values.now) }
{
    let d0 = short_digit(cycle!(values, 0, 4, 6, 2));
    let d1 = short_digit(cycle!(values, 1, 3, 7, 5));
    let d2 = short_digit(cycle!(values, 0, 1, 5, 4));
    let d3 = short_digit(cycle!(values, 2, 6, 7, 3));
    let d4 = short_digit(cycle!(values, 0, 2, 3, 1));
    let d5 = short_digit(cycle!(values, 4, 5, 7, 6));
    faces & (d0 + 2 * (d1 + 2 * (d2 + 2 * (d3 + 2 * (d4 + 2 * d5)))))
}

/// The joined faces, where the ambiguous ones are known.
pub(crate) fn joined_among(values: &[i64; 8], faces: u8) -> u8
    requires known { bits_of 6 faces ≡ ambiguous_flags (signs_of values.now) }
    requires small { All (λ v. unsigned_abs v < 2 ^ 44) values.now }
    ensures { result ≡ number_of_bits (joined_of values.now) }
{
    if faces == 0 {
        return 0;
    }
    if are_short(values) {
        joined_short(values, faces)
    } else {
        joined_long(values, faces)
    }
}

/// The set of the faces that are ambiguous and joined, from the sign byte and the shifted values of the corners. Bit f is
/// face f.
pub fn joined_faces_of(signs: u8, values: &[i64; 8]) -> u8
    requires signs { bits_of 8 signs ≡ signs_of values.now }
    requires small { All (λ v. unsigned_abs v < 2 ^ 44) values.now }
    ensures number { result ≡ number_of_bits (joined_of values.now) }
    ensures faces { bits_of 6 result ≡ joined_of values.now }
    ensures ambiguous { IsTrue (are_ambiguous (bits_of 8 signs) (bits_of 8 result)) }
{
    joined_among(values, ambiguous_set(signs))
}

/// The set of the faces that are ambiguous and joined, from the shifted values of the corners. Bit f is face f.
pub fn joined_faces(values: &[i64; 8]) -> u8
    requires { All (λ v. unsigned_abs v < 2 ^ 44) values.now }
    ensures number { result ≡ number_of_bits (joined_of values.now) }
    ensures faces { bits_of 6 result ≡ joined_of values.now }
    ensures ambiguous { IsTrue (are_ambiguous (signs_of values.now) (bits_of 8 result)) }
{
    joined_faces_of(sign_byte(values), values)
}
