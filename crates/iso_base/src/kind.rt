//! The types of samples.

ghost use Rattle.std.specs.Prelude.{◌≡◌};
ghost use Rattle.iso_base.specs.Volume.{least_of, greatest_of, width_of};

/// The type of the samples of a volume: signed or unsigned, of 8, 16 or 32 bits.
#[derive(Clone, Copy, Debug, PartialEq, Eq)]
pub enum SampleKind {
    I8,
    U8,
    I16,
    U16,
    I32,
    U32,
}

impl SampleKind {
    /// The least sample of the kind.
    pub fn least(self) -> i64
        ensures { result ≡ least_of self }
    {
        match self {
            SampleKind::I8 => -128,
            SampleKind::I16 => -32_768,
            SampleKind::I32 => -2_147_483_648,
            _ => 0,
        }
    }

    /// The greatest sample of the kind.
    pub fn greatest(self) -> i64
        ensures { result ≡ greatest_of self }
    {
        match self {
            SampleKind::I8 => 127,
            SampleKind::U8 => 255,
            SampleKind::I16 => 32_767,
            SampleKind::U16 => 65_535,
            SampleKind::I32 => 2_147_483_647,
            SampleKind::U32 => 4_294_967_295,
        }
    }

    /// The bytes of a sample: 1, 2 or 4.
    pub fn width(self) -> u8
        ensures { result ≡ width_of self }
    {
        match self {
            SampleKind::I8 | SampleKind::U8 => 1,
            SampleKind::I16 | SampleKind::U16 => 2,
            SampleKind::I32 | SampleKind::U32 => 4,
        }
    }
}
