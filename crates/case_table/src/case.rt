//! The case of a cell, by its signs and its joined faces.

ghost use Rattle.std.specs.Prelude.{◌≡◌, ℕ, ◌+◌, ◌*◌, ◌/◌, ◌%◌, ◌^◌, ◌<◌, ◌≤◌, ◌==◌, ◌||◌, IsTrue, if◌then◌else◌, slice_index, length, map, unsigned_abs, nat_lt};
ghost use Rattle.std.specs.List.{All, filter, sum};
ghost use Rattle.iso_defs.specs.Lists.{below, has_pair};
ghost use Rattle.iso_defs.specs.Face.{holds_at};
ghost use Rattle.iso_defs.specs.Cell.{joined_of, next_of, signs_of};
ghost use Rattle.iso_defs.specs.Bricks.{bits_of, case_count, case_number, number_of_bits};
ghost use Rattle.case_table.specs.Cases.{are_ambiguous, case_at, case_joined, case_pairs, case_signs, cases};
ghost use Rattle.case_table.specs.Packing.{packed_set};

use crate::faces::{ambiguous_set, joined_among};
use crate::rows::{field, packed_row, sign_field};
use corner_signs::sign_byte;
use iso_base::Steps;
use std::marker::Model;
use std::sync::ledger::Ledger;

/// The number of the first case of each sign byte.
const FIRST: [u16; 256] = [
    0, 1, 2, 3, 4, 5, 6, 8, 9, 10, 12, 13, 14, 15, 16, 17, 18, 19, 20, 22, 23, 25, 26, 34, 35, 36,
    38, 40, 41, 43, 44, 48, 49, 50, 52, 53, 54, 55, 57, 59, 60, 62, 70, 71, 72, 74, 78, 79, 80, 81,
    82, 83, 84, 86, 87, 91, 92, 94, 98, 99, 100, 104, 106, 108, 109, 110, 112, 113, 115, 116, 117,
    119, 120, 122, 130, 132, 136, 137, 138, 139, 140, 141, 142, 144, 145, 146, 147, 151, 152, 154,
    158, 162, 164, 165, 166, 168, 169, 171, 179, 181, 185, 187, 191, 195, 197, 205, 269, 273, 281,
    285, 293, 295, 297, 298, 299, 300, 301, 302, 303, 305, 306, 310, 318, 320, 322, 324, 326, 327,
    328, 329, 330, 332, 334, 336, 338, 346, 350, 351, 353, 354, 355, 356, 357, 358, 359, 361, 363,
    371, 375, 383, 387, 451, 459, 461, 465, 469, 471, 475, 477, 485, 487, 488, 490, 491, 492, 494,
    498, 502, 504, 505, 509, 510, 511, 512, 514, 515, 516, 517, 518, 519, 520, 524, 526, 534, 536,
    537, 539, 540, 541, 543, 544, 546, 547, 548, 550, 552, 556, 557, 558, 562, 564, 565, 569, 570,
    572, 573, 574, 575, 576, 577, 578, 582, 584, 585, 586, 594, 596, 597, 599, 601, 602, 603, 604,
    606, 607, 608, 612, 613, 615, 616, 618, 620, 621, 622, 630, 631, 633, 634, 636, 637, 638, 639,
    640, 641, 642, 643, 644, 646, 647, 648, 650, 651, 652, 653, 654, 655,
];

/// A case of a cell, by its number below 656. Contracts see the number.
#[derive(Clone, Copy, Debug, PartialEq, Eq)]
pub struct CaseRow(u16);

impl Model for CaseRow {
    ghost use Rattle.std.specs.Prelude.{ℕ, ◌<◌};

    ghost Value = { ℕ };

    ghost view = { λ r. r.0 };

    ghost invariant = { λ r. r.0 < 656 };

    ghost inverse = { λ n. record { 0 = n } };
}

impl CaseRow {
    /// How many cases there are: for each sign byte as many as its ambiguous faces have subsets.
    pub fn count() -> u16
        ensures listed { result ≡ length cases }
        ensures counted { result ≡ sum (map (λ byte. case_count (bits_of 8 byte)) (below 256)) }
    {
        656
    }

    /// The case of that number.
    pub fn of(number: u16) -> CaseRow
        requires { number < 656 }
        ensures { result ≡ number }
    {
        CaseRow(number)
    }

    /// The number of the case.
    pub fn number(self) -> u16
        ensures value { result ≡ self }
        ensures bound { result < 656 }
        ensures case { case_number (case_signs self) (case_joined self) ≡ result }
    {
        self.0
    }

    /// The sign byte of the case: bit c is set where corner c is above.
    pub fn signs(self) -> u8
        ensures number { result ≡ number_of_bits (case_signs self) }
        ensures bits { bits_of 8 result ≡ case_signs self }
    {
        sign_field(packed_row(self.0))
    }
}

fn first_of(signs: u8) -> u16
    ensures value { result ≡ slice_index FIRST signs }
    ensures bound { result < 656 }
{
    FIRST[signs as usize]
}

/// One more bit of a packed set, where the face is in the set `faces`: `rest` are the bits of the faces above it.
fn pack_face(rest: u8, face: u8, faces: u8, joined: u8) -> u8
    requires face { face < 6 }
    requires room { rest < 64 }
    ensures value { result ≡ (if faces / 2 ^ face % 2 == 1 then joined / 2 ^ face % 2 + 2 * rest else rest) }
    ensures bound { result ≤ 2 * rest + 1 }
{
    if (faces >> face) % 2 == 1 {
        (joined >> face) % 2 + 2 * rest
    } else {
        rest
    }
}

/// The joined faces as a number whose bits are the faces of the set `faces`, the least face lowest.
fn pack(faces: u8, joined: u8) -> u8
    requires { faces < 64 }
    ensures value { result ≡ packed_set (below 6) faces joined }
    ensures bound { result < 64 }
{
    if joined == 0 {
        return 0;
    }
    let r5 = pack_face(0, 5, faces, joined);
    let r4 = pack_face(r5, 4, faces, joined);
    let r3 = pack_face(r4, 3, faces, joined);
    let r2 = pack_face(r3, 2, faces, joined);
    let r1 = pack_face(r2, 1, faces, joined);
    pack_face(r1, 0, faces, joined)
}

/// The case of a sign byte with a set of its ambiguous faces, the joined ones. Bit f of `joined` is face f.
pub fn row_of(signs: u8, joined: u8) -> CaseRow
    requires { IsTrue (are_ambiguous (bits_of 8 signs) (bits_of 8 joined)) }
    ensures case { case_at result ≡ (bits_of 8 signs, bits_of 6 joined) }
    ensures number { result ≡ case_number (bits_of 8 signs) (bits_of 6 joined) }
{
    CaseRow(first_of(signs) + u16::from(pack(ambiguous_set(signs), joined)))
}

/// The case of a cell whose sign byte and joined faces are known, which is counted as classified: it raises the counter by one.
/// This is the one place where that happens.
pub fn classify_with<L: Ledger>(signs: u8, joined: u8, steps: &mut Steps<L>) -> CaseRow
    requires { IsTrue (are_ambiguous (bits_of 8 signs) (bits_of 8 joined)) }
    ensures case { case_at result ≡ (bits_of 8 signs, bits_of 6 joined) }
    ensures number { result ≡ case_number (bits_of 8 signs) (bits_of 6 joined) }
    ensures counted { steps.new ≡ steps.old + 1 }
{
    steps.tick();
    row_of(signs, joined)
}

/// The case of a cell, from the shifted values of its corners. It raises the counter by one.
pub fn classify<L: Ledger>(values: &[i64; 8], steps: &mut Steps<L>) -> CaseRow
    requires { All (λ v. unsigned_abs v < 2 ^ 44) values.now }
    ensures case { case_at result ≡ (signs_of values.now, joined_of values.now) }
    ensures number { result ≡ case_number (signs_of values.now) (joined_of values.now) }
    ensures counted { steps.new ≡ steps.old + 1 }
{
    let signs = sign_byte(values);
    classify_with(signs, joined_among(values, ambiguous_set(signs)), steps)
}

/// Where the segment ends that begins at each cell edge, or 15 where none begins.
pub fn successors(row: CaseRow) -> [u8; 12]
    ensures value { result ≡ map (next_of (case_pairs row)) (below 12) }
    ensures next { (a b : ℕ) → a < 12 → b < 12 → (slice_index result a == b) ≡ has_pair (case_pairs row) a b }
    ensures none { (a : ℕ) → a < 12 → IsTrue (nat_lt (slice_index result a) 12 || (slice_index result a == 15)) }
{
    let fields = packed_row(row.0);
    let mut ends = [15; 12];
    for edge in 0..12 {
        ends[edge] = field(fields, edge);
    }
    ends
}
