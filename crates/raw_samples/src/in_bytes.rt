//! The samples of a volume in bytes.
ghost use Rattle.std.specs.Prelude.{◌≡◌, ℤ, ◌+◌, ◌*◌, ◌<◌, ◌≤◌, ◌^◌, All, cond, int_le, length, map};
ghost use Rattle.std.specs.List.{range_with_len};
ghost use Rattle.iso_base.specs.Volume.{width_of};
ghost use Rattle.iso_base.specs.SampleBytes.{sample_of, samples_in};
ghost use Rattle.samples.specs.Signs.{IsBound, sign_of};

use crate::sample_format::SampleFormat;
use iso_base::{Level, Point, Sizes, index};
use samples::{Packed, Samples, convert, copy_all, sign};
use std::marker::{Model, PhantomData};

/// Samples of one kind and byte order, in bytes: each is read when it is asked for.
#[derive(Drop)]
pub struct InBytes<'a, K: SampleFormat> {
    bytes: &'a [u8],
    count: u32,
    lies: PhantomData<K>,
}

impl<'a, K: SampleFormat> Model for InBytes<'a, K> {
    ghost use Rattle.std.specs.Prelude.{List, ℤ};
    ghost use Rattle.iso_base.specs.Volume.{width_of};
    ghost use Rattle.iso_base.specs.SampleBytes.{samples_in};
    ghost use Rattle.raw_samples.specs.Raw.{BeginWith};

    ghost Value = { List ℤ };

    ghost view = { λ r. samples_in K.kind K.big_endian r.bytes.now r.count };

    ghost invariant = { λ r. BeginWith (width_of K.kind) r.count r.bytes.now };
}

impl<'a, K: SampleFormat> InBytes<'a, K> {
    /// So many samples, with which the bytes begin.
    pub(crate) fn new(bytes: &'a [u8], count: u32) -> InBytes<'a, K>
        requires { width_of K.kind * count ≤ length bytes.now }
        ensures { result ≡ samples_in K.kind K.big_endian bytes.now count }
    {
        InBytes {
            bytes,
            count,
            lies: PhantomData,
        }
    }
}

/// Reads samples from an index on over the numbers of a list, as many as it has.
#[inline(always)]
fn read_each<K: SampleFormat, T: Packed>(bytes: &[u8], start: usize, into: &mut [T])
    requires room { width_of K.kind * (start + length into.old) ≤ length bytes.now }
    requires few { start + length into.old < 2 ^ 32 }
    requires fits { All T.Fits (map (λ k. sample_of K.kind K.big_endian bytes.now (start + k))
        (range_with_len 0 (length into.old))) }
    ensures { map T.value into.new ≡ map (λ k. sample_of K.kind K.big_endian bytes.now (start + k))
        (range_with_len 0 (length into.old)) }
{
    for k in 0..into.len() {
        into[k] = convert(K::read(bytes, start + k));
    }
}

/// Reads as many samples from an index on as are known before the program runs. They are all read before the first is written,
/// from where the first lies, so that this takes no loop and no test whether the two lots overlap.
#[inline(always)]
fn read_known<const N: usize, K: SampleFormat, T: Packed>(
    bytes: &[u8],
    start: usize,
    into: &mut [T],
)
    requires known { length into.old ≡ N }
    requires room { width_of K.kind * (start + length into.old) ≤ length bytes.now }
    requires few { start + length into.old < 2 ^ 32 }
    requires fits { All T.Fits (map (λ k. sample_of K.kind K.big_endian bytes.now (start + k))
        (range_with_len 0 (length into.old))) }
    ensures { map T.value into.new ≡ map (λ k. sample_of K.kind K.big_endian bytes.now (start + k))
        (range_with_len 0 (length into.old)) }
{
    let (_, run) = bytes.split_at(K::width() * start);
    let mut known = [0; N];
    for k in 0..N {
        known[k] = K::read(run, k).sample();
    }
    copy_all(&known, into);
}

/// Reads samples from an index on over the numbers of a list, as many as it has: nine, as a whole row of a brick has, and eight,
/// as a row at the end of a grid often has, without a loop.
#[inline(always)]
fn read_run<K: SampleFormat, T: Packed>(bytes: &[u8], start: usize, into: &mut [T])
    requires room { width_of K.kind * (start + length into.old) ≤ length bytes.now }
    requires few { start + length into.old < 2 ^ 32 }
    requires fits { All T.Fits (map (λ k. sample_of K.kind K.big_endian bytes.now (start + k))
        (range_with_len 0 (length into.old))) }
    ensures { map T.value into.new ≡ map (λ k. sample_of K.kind K.big_endian bytes.now (start + k))
        (range_with_len 0 (length into.old)) }
{
    match into.len() {
        9 => read_known::<9, K, T>(bytes, start, into),
        8 => read_known::<8, K, T>(bytes, start, into),
        _ => read_each::<K, T>(bytes, start, into),
    }
}

/// Writes 1 for each sample from an index on that is at least a bound, and 0 for each other, as many as there is room for; where
/// there is no bound, 0 throughout.
#[inline(always)]
fn fill_by_bound<K: SampleFormat>(
    bytes: &[u8],
    start: usize,
    bound: Option<K::Number>,
    into: &mut [u8],
)
    requires room { width_of K.kind * (start + length into.old) ≤ length bytes.now }
    requires few { start + length into.old < 2 ^ 32 }
    ensures { (least : ℤ) → IsBound K.Number.Fits K.Number.value least bound
        → into.new ≡ map (λ k. cond (int_le least (sample_of K.kind K.big_endian bytes.now (start + k))) 1 0)
        (range_with_len 0 (length into.old)) }
{
    for k in 0..into.len() {
        into[k] = sign(K::read(bytes, start + k), bound);
    }
}

/// Writes the signs of samples from an index on, as many as there is room for.
fn fill_run_signs<K: SampleFormat>(bytes: &[u8], start: usize, level: Level, into: &mut [u8])
    requires room { width_of K.kind * (start + length into.old) ≤ length bytes.now }
    requires few { start + length into.old < 2 ^ 32 }
    ensures { into.new ≡ map (λ k. sign_of level (sample_of K.kind K.big_endian bytes.now (start + k)))
        (range_with_len 0 (length into.old)) }
{
    let bound = K::Number::at_least(level.least_above());
    // Each case has its own loop, so that none asks of each number again whether there is a bound.
    match bound {
        Some(bound) => fill_by_bound::<K>(bytes, start, Some(bound), into),
        None => fill_by_bound::<K>(bytes, start, None, into),
    }
}

impl<'a, K: SampleFormat> Samples for InBytes<'a, K> {
    ghost list = { λ r. r };

    #[inline(always)]
    fn at(&self, index: u32) -> i64 {
        K::read(self.bytes, index as usize).sample()
    }

    #[inline(always)]
    fn at_point(&self, sizes: &Sizes, point: Point) -> i64 {
        self.at(index(sizes, point))
    }

    #[inline(always)]
    fn copy_row<T: Packed>(&self, sizes: &Sizes, point: Point, into: &mut [T]) {
        read_run::<K, T>(self.bytes, index(sizes, point) as usize, into);
    }

    fn fill_signs(&self, start: u32, level: Level, into: &mut [u8]) {
        fill_run_signs::<K>(self.bytes, start as usize, level, into);
    }
}
