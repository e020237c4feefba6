//! Packed samples that are lent.
ghost use Rattle.std.specs.Prelude.{◌≡◌, ◌+◌, ◌<◌, ◌≤◌, drop, length, map, take};
ghost use Rattle.iso_base.specs.Volume.{sample};
ghost use Rattle.packed_samples.specs.Runs.{samples_in};

use crate::numbers::unpack;
use samples::sample_at;

/// Samples one behind the other where they lie in memory, in the width that they are kept in.
#[derive(Clone, Copy, Debug)]
pub enum PackedRun<'a> {
    U8(&'a [u8]),
    I16(&'a [i16]),
    U16(&'a [u16]),
    I32(&'a [i32]),
    I64(&'a [i64]),
}

impl<'a> PackedRun<'a> {
    /// The number of samples.
    #[inline(always)]
    pub fn length(&self) -> usize
        ensures { result ≡ length (samples_in self.now) }
    {
        match self {
            PackedRun::U8(list) => list.len(),
            PackedRun::I16(list) => list.len(),
            PackedRun::U16(list) => list.len(),
            PackedRun::I32(list) => list.len(),
            PackedRun::I64(list) => list.len(),
        }
    }

    /// The sample at a place.
    #[inline(always)]
    pub fn at(&self, place: usize) -> i64
        requires { place < length (samples_in self.now) }
        ensures { result ≡ sample (samples_in self.now) place }
    {
        match self {
            PackedRun::U8(list) => sample_at(list, place),
            PackedRun::I16(list) => sample_at(list, place),
            PackedRun::U16(list) => sample_at(list, place),
            PackedRun::I32(list) => sample_at(list, place),
            PackedRun::I64(list) => sample_at(list, place),
        }
    }

    /// So many samples from a place on.
    #[inline(always)]
    pub fn part(&self, start: usize, count: usize) -> PackedRun<'a>
        requires { start + count ≤ length (samples_in self.now) }
        ensures { samples_in result ≡ take count (drop start (samples_in self.now)) }
    {
        match self {
            PackedRun::U8(list) => PackedRun::U8(&list[start..start + count]),
            PackedRun::I16(list) => PackedRun::I16(&list[start..start + count]),
            PackedRun::U16(list) => PackedRun::U16(&list[start..start + count]),
            PackedRun::I32(list) => PackedRun::I32(&list[start..start + count]),
            PackedRun::I64(list) => PackedRun::I64(&list[start..start + count]),
        }
    }

    /// Copies the samples over as many numbers.
    #[inline(always)]
    pub fn copy_to(&self, into: &mut [i64])
        requires { length (samples_in self.now) ≡ length into.old }
        ensures { into.new ≡ samples_in self.now }
    {
        match self {
            PackedRun::U8(list) => unpack(list, into),
            PackedRun::I16(list) => unpack(list, into),
            PackedRun::U16(list) => unpack(list, into),
            PackedRun::I32(list) => unpack(list, into),
            PackedRun::I64(list) => unpack(list, into),
        }
    }
}
