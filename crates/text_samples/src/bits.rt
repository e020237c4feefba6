//! The bits of samples.
ghost use Rattle.std.specs.Prelude.{◌≡◌};
ghost use Rattle.iso_base.specs.Volume.{IsOfKind};
ghost use Rattle.iso_base.specs.SampleBytes.{bits_of};

use iso_base::SampleKind;

/// The bits of a sample as a number: a negative one is in two's complement, in the width of its kind.
#[inline(always)]
pub fn bits_of(kind: SampleKind, value: i64) -> u32
    requires { IsOfKind kind value }
    ensures { result ≡ bits_of kind value }
{
    match kind {
        SampleKind::I8 if value < 0 => (value + 0x100) as u32,
        SampleKind::I16 if value < 0 => (value + 0x1_0000) as u32,
        SampleKind::I32 if value < 0 => (value + 0x1_0000_0000) as u32,
        _ => value as u32,
    }
}
