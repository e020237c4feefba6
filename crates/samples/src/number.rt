//! Numbers that samples are kept as.
ghost use Rattle.std.specs.Prelude.{◌≡◌, ℤ, ◌<◌, int_le, length, map, pos};
ghost use Rattle.std.specs.Int.{int_max, int_min};
ghost use Rattle.iso_base.specs.Volume.{IsOfKind, sample};
ghost use Rattle.samples.specs.Signs.{IsBound};
ghost use Rattle.iso_base.specs.declared.kind.SampleKind.TheVariants as kinds;

/// A number that a sample is kept as, signed or unsigned, of 8 to 64 bits. Contracts see the sample, and which samples there is
/// room for.
pub trait Packed: Copy {
    ghost value: { Self → ℤ };

    ghost Fits: { ℤ → Type 0 };

    /// The sample.
    fn sample(&self) -> i64
        ensures value { result ≡ value self.now }
        ensures fits { Fits result };

    /// The number of a sample.
    fn of(sample: i64) -> Self
        requires { Fits sample }
        ensures { value result ≡ sample };

    /// The number of the sample 0: there is room for it in every width.
    fn zero() -> Self
        ensures { value result ≡ pos 0 };

    /// The number of the least sample that is at least so much, or none where there is room for none. Who compares many
    /// samples compares them with this, in the width that they are kept in.
    fn at_least(least: i64) -> Option<Self>
        ensures { IsBound Fits value least result };

    /// Whether it is at least another. Numbers are compared in the width that they are kept in, so that many bytes are at once.
    fn is_at_least(self, bound: Self) -> bool
        ensures { result ≡ int_le (value bound) (value self) };

    /// The lesser of two, compared in their width too.
    fn lesser(self, other: Self) -> Self
        ensures { value result ≡ int_min (value self) (value other) };

    /// The greater of two.
    fn greater(self, other: Self) -> Self
        ensures { value result ≡ int_max (value self) (value other) };
}

impl Packed for u8 {
    ghost value = { λ number. pos number };

    ghost Fits = { IsOfKind kinds.U8 };

    #[inline(always)]
    fn sample(&self) -> i64 {
        i64::from(*self)
    }

    #[inline(always)]
    fn of(sample: i64) -> u8 {
        sample as u8
    }

    #[inline(always)]
    fn zero() -> u8 {
        0
    }

    fn at_least(least: i64) -> Option<u8> {
        if least > i64::from(u8::MAX) {
            return None;
        }
        Some(least.max(i64::from(u8::MIN)) as u8)
    }

    #[inline(always)]
    fn is_at_least(self, bound: u8) -> bool {
        self >= bound
    }

    #[inline(always)]
    fn lesser(self, other: u8) -> u8 {
        self.min(other)
    }

    #[inline(always)]
    fn greater(self, other: u8) -> u8 {
        self.max(other)
    }
}

impl Packed for i8 {
    ghost value = { λ number. number };

    ghost Fits = { IsOfKind kinds.I8 };

    #[inline(always)]
    fn sample(&self) -> i64 {
        i64::from(*self)
    }

    #[inline(always)]
    fn of(sample: i64) -> i8 {
        sample as i8
    }

    #[inline(always)]
    fn zero() -> i8 {
        0
    }

    fn at_least(least: i64) -> Option<i8> {
        if least > i64::from(i8::MAX) {
            return None;
        }
        Some(least.max(i64::from(i8::MIN)) as i8)
    }

    #[inline(always)]
    fn is_at_least(self, bound: i8) -> bool {
        self >= bound
    }

    #[inline(always)]
    fn lesser(self, other: i8) -> i8 {
        self.min(other)
    }

    #[inline(always)]
    fn greater(self, other: i8) -> i8 {
        self.max(other)
    }
}

impl Packed for u16 {
    ghost value = { λ number. pos number };

    ghost Fits = { IsOfKind kinds.U16 };

    #[inline(always)]
    fn sample(&self) -> i64 {
        i64::from(*self)
    }

    #[inline(always)]
    fn of(sample: i64) -> u16 {
        sample as u16
    }

    #[inline(always)]
    fn zero() -> u16 {
        0
    }

    fn at_least(least: i64) -> Option<u16> {
        if least > i64::from(u16::MAX) {
            return None;
        }
        Some(least.max(i64::from(u16::MIN)) as u16)
    }

    #[inline(always)]
    fn is_at_least(self, bound: u16) -> bool {
        self >= bound
    }

    #[inline(always)]
    fn lesser(self, other: u16) -> u16 {
        self.min(other)
    }

    #[inline(always)]
    fn greater(self, other: u16) -> u16 {
        self.max(other)
    }
}

impl Packed for i16 {
    ghost value = { λ number. number };

    ghost Fits = { IsOfKind kinds.I16 };

    #[inline(always)]
    fn sample(&self) -> i64 {
        i64::from(*self)
    }

    #[inline(always)]
    fn of(sample: i64) -> i16 {
        sample as i16
    }

    #[inline(always)]
    fn zero() -> i16 {
        0
    }

    fn at_least(least: i64) -> Option<i16> {
        if least > i64::from(i16::MAX) {
            return None;
        }
        Some(least.max(i64::from(i16::MIN)) as i16)
    }

    #[inline(always)]
    fn is_at_least(self, bound: i16) -> bool {
        self >= bound
    }

    #[inline(always)]
    fn lesser(self, other: i16) -> i16 {
        self.min(other)
    }

    #[inline(always)]
    fn greater(self, other: i16) -> i16 {
        self.max(other)
    }
}

impl Packed for u32 {
    ghost value = { λ number. pos number };

    ghost Fits = { IsOfKind kinds.U32 };

    #[inline(always)]
    fn sample(&self) -> i64 {
        i64::from(*self)
    }

    #[inline(always)]
    fn of(sample: i64) -> u32 {
        sample as u32
    }

    #[inline(always)]
    fn zero() -> u32 {
        0
    }

    fn at_least(least: i64) -> Option<u32> {
        if least > i64::from(u32::MAX) {
            return None;
        }
        Some(least.max(i64::from(u32::MIN)) as u32)
    }

    #[inline(always)]
    fn is_at_least(self, bound: u32) -> bool {
        self >= bound
    }

    #[inline(always)]
    fn lesser(self, other: u32) -> u32 {
        self.min(other)
    }

    #[inline(always)]
    fn greater(self, other: u32) -> u32 {
        self.max(other)
    }
}

impl Packed for i32 {
    ghost value = { λ number. number };

    ghost Fits = { IsOfKind kinds.I32 };

    #[inline(always)]
    fn sample(&self) -> i64 {
        i64::from(*self)
    }

    #[inline(always)]
    fn of(sample: i64) -> i32 {
        sample as i32
    }

    #[inline(always)]
    fn zero() -> i32 {
        0
    }

    fn at_least(least: i64) -> Option<i32> {
        if least > i64::from(i32::MAX) {
            return None;
        }
        Some(least.max(i64::from(i32::MIN)) as i32)
    }

    #[inline(always)]
    fn is_at_least(self, bound: i32) -> bool {
        self >= bound
    }

    #[inline(always)]
    fn lesser(self, other: i32) -> i32 {
        self.min(other)
    }

    #[inline(always)]
    fn greater(self, other: i32) -> i32 {
        self.max(other)
    }
}

impl Packed for i64 {
    ghost value = { λ number. number };

    ghost Fits = { λ _. Unit {0} };

    #[inline(always)]
    fn sample(&self) -> i64 {
        *self
    }

    #[inline(always)]
    fn of(sample: i64) -> i64 {
        sample
    }

    #[inline(always)]
    fn zero() -> i64 {
        0
    }

    fn at_least(least: i64) -> Option<i64> {
        Some(least)
    }

    #[inline(always)]
    fn is_at_least(self, bound: i64) -> bool {
        self >= bound
    }

    #[inline(always)]
    fn lesser(self, other: i64) -> i64 {
        self.min(other)
    }

    #[inline(always)]
    fn greater(self, other: i64) -> i64 {
        self.max(other)
    }
}

/// The sample at a place.
#[inline(always)]
pub fn sample_at<T: Packed>(packed: &[T], place: usize) -> i64
    requires { place < length packed.now }
    ensures { result ≡ sample (map T.value packed.now) place }
{
    packed[place].sample()
}
