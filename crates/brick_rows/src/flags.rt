//! The flags of the points of a run.
//!
//! The flags of a row are taken from the bricks that hold it alone: the rows of the next points along y and z are in
//! the same brick, 9 and 81 samples further on.
ghost use Rattle.std.specs.Prelude.{◌≡◌, ℕ, ◌+◌, ◌-◌, ◌<◌, ◌≤◌, cond, int_le, length, map, min, slice_index};
ghost use Rattle.iso_base.specs.Volume.{sample};
ghost use Rattle.crossing_edges.specs.Signs.{flag_of};
ghost use Rattle.brick_rows.specs.Rows.{AreZerosFrom, run_flags};

use crate::lanes::flag_lanes;
use samples::{Packed, sign};

/// Numbers that samples are kept as, of which the flags of points are taken eight at a time.
pub(crate) trait Flagged: Packed {
    /// Writes the flags of eight points of a run, behind which another one stands.
    fn flag_eight(here: &[Self], up: &[Self], far: &[Self], least: i64, out: &mut [u8])
        requires here { 8 < length here.now }
        requires up { length up.now ≡ length here.now }
        requires far { length far.now ≡ length here.now }
        requires out { length out.old ≡ 8 }
        ensures { (i : ℕ) → i < 8 → slice_index out.new i
            ≡ run_flags least (map Self.value here.now) (map Self.value up.now) (map Self.value far.now) i };
}

/// The flags of a point, from which of its sample and those of the next points are above the level.
#[inline(always)]
fn flags_of(here: bool, right: bool, up: bool, far: bool) -> u8
    ensures { result ≡ flag_of (cond here 1 0) (cond right 1 0) (cond up 1 0) (cond far 1 0) }
{
    u8::from(here != right) + 2 * u8::from(here != up) + 4 * u8::from(here != far)
}

/// Whether the sample at a place is at least a number: compared in the width that it is kept in.
#[inline(always)]
fn is_from<T: Packed>(run: &[T], place: usize, least: i64) -> bool
    requires { place < length run.now }
    ensures { result ≡ int_le least (sample (map T.value run.now) place) }
{
    sign(run[place], T::at_least(least)) == 1
}

/// Writes the flags of so many points of a run, behind which another one stands.
#[inline(always)]
fn flag_front<T: Packed>(here: &[T], up: &[T], far: &[T], least: i64, count: usize, out: &mut [u8])
    requires here { count < length here.now }
    requires up { length up.now ≡ length here.now }
    requires far { length far.now ≡ length here.now }
    requires out { count ≤ length out.old }
    ensures { (i : ℕ) → i < count → slice_index out.new i
        ≡ run_flags least (map T.value here.now) (map T.value up.now) (map T.value far.now) i }
{
    // The samples are compared without a branch, since those of the next run are fetched meanwhile.
    let mut above = is_from(here, 0, least);
    for i in 0..count {
        let next = is_from(here, i + 1, least);
        out[i] = flags_of(above, next, is_from(up, i, least), is_from(far, i, least));
        above = next;
    }
}

/// Writes the flags of the points of a run with which a row ends.
fn flag_run<T: Packed>(here: &[T], up: &[T], far: &[T], least: i64, out: &mut [u8])
    requires some { 0 < length here.now }
    requires up { length up.now ≡ length here.now }
    requires far { length far.now ≡ length here.now }
    requires out { length out.old ≡ length here.now }
    ensures { (i : ℕ) → i < length here.now → slice_index out.new i
        ≡ run_flags least (map T.value here.now) (map T.value up.now) (map T.value far.now) i }
{
    let last = here.len() - 1;
    flag_front(here, up, far, least, last, out);
    let end = is_from(here, last, least);
    out[last] = flags_of(
        end,
        end,
        is_from(up, last, least),
        is_from(far, last, least),
    );
}

/// Writes the flags of eight points of a run from a place on.
#[inline(always)]
pub(crate) fn fill_eight<T: Flagged>(
    here: &[T],
    up: &[T],
    far: &[T],
    least: i64,
    start: usize,
    flags: &mut [u8],
)
    requires room { start + 8 ≤ length flags.old }
    requires here { 8 < length here.now }
    requires up { length up.now ≡ length here.now }
    requires far { length far.now ≡ length here.now }
    ensures inside { (i : ℕ) → i < 8 → slice_index flags.new (start + i)
        ≡ run_flags least (map T.value here.now) (map T.value up.now) (map T.value far.now) i }
    ensures before { (k : ℕ) → k < start → slice_index flags.new k ≡ slice_index flags.old k }
    ensures behind { (k : ℕ) → start + 8 ≤ k → slice_index flags.new k ≡ slice_index flags.old k }
{
    T::flag_eight(here, up, far, least, &mut flags[start..start + 8]);
}

/// Writes the flags of the points of a run from a place on, with which the row ends.
pub(crate) fn fill_last<T: Flagged>(
    here: &[T],
    up: &[T],
    far: &[T],
    least: i64,
    start: usize,
    flags: &mut [u8],
)
    requires some { start < length flags.old }
    requires here { start + length here.now ≡ length flags.old }
    requires up { length up.now ≡ length here.now }
    requires far { length far.now ≡ length here.now }
    ensures inside { (i : ℕ) → i < length here.now → slice_index flags.new (start + i)
        ≡ run_flags least (map T.value here.now) (map T.value up.now) (map T.value far.now) i }
    ensures before { (k : ℕ) → k < start → slice_index flags.new k ≡ slice_index flags.old k }
{
    flag_run(here, up, far, least, &mut flags[start..]);
}

/// Writes 0 throughout.
pub(crate) fn fill_zeros(flags: &mut [u8])
    ensures { AreZerosFrom 0 flags.new }
{
    flags.fill(0);
}

impl Flagged for u8 {
    #[inline(always)]
    fn flag_eight(here: &[u8], up: &[u8], far: &[u8], least: i64, out: &mut [u8]) {
        flag_lanes(here, up, far, least, out);
    }
}

impl Flagged for i16 {
    #[inline(always)]
    fn flag_eight(here: &[i16], up: &[i16], far: &[i16], least: i64, out: &mut [u8]) {
        flag_lanes(here, up, far, least, out);
    }
}

impl Flagged for u16 {
    #[inline(always)]
    fn flag_eight(here: &[u16], up: &[u16], far: &[u16], least: i64, out: &mut [u8]) {
        flag_lanes(here, up, far, least, out);
    }
}

impl Flagged for i32 {
    #[inline(always)]
    fn flag_eight(here: &[i32], up: &[i32], far: &[i32], least: i64, out: &mut [u8]) {
        flag_lanes(here, up, far, least, out);
    }
}

impl Flagged for i64 {
    /// Few processors compare so wide numbers at once.
    #[inline(always)]
    fn flag_eight(here: &[i64], up: &[i64], far: &[i64], least: i64, out: &mut [u8]) {
        flag_front(here, up, far, least, 8, out);
    }
}
