//! Widths that samples are kept in.
ghost use Rattle.std.specs.Prelude.{◌≡◌};
ghost use Rattle.packed_samples.specs.Widths.{holds, holds_all, width_of};

use iso_base::SampleKind;

/// A width that samples are kept in: unsigned numbers of one or two bytes, signed ones of two or four, or eight bytes each.
#[derive(Clone, Copy, Debug, PartialEq, Eq)]
pub enum Width {
    U8,
    I16,
    U16,
    I32,
    I64,
}

impl Width {
    /// Whether there is room for a number.
    fn holds(self, number: i64) -> bool
        ensures { result ≡ holds self number }
    {
        match self {
            Width::U8 => (0..=255).contains(&number),
            Width::I16 => (-32_768..=32_767).contains(&number),
            Width::U16 => (0..=65_535).contains(&number),
            Width::I32 => (-2_147_483_648..=2_147_483_647).contains(&number),
            Width::I64 => true,
        }
    }

    /// Whether there is room for all samples of a kind, and for a pad.
    fn holds_all(self, kind: SampleKind, pad: Option<i64>) -> bool
        ensures { result ≡ holds_all self kind pad }
    {
        self.holds(kind.least())
            && self.holds(kind.greatest())
            && pad.is_none_or(|pad| self.holds(pad))
    }

    /// The narrowest width that has room for all samples of a volume of this kind and pad.
    pub fn of(kind: SampleKind, pad: Option<i64>) -> Width
        ensures { result ≡ width_of kind pad }
    {
        if Width::U8.holds_all(kind, pad) {
            Width::U8
        } else if Width::I16.holds_all(kind, pad) {
            Width::I16
        } else if Width::U16.holds_all(kind, pad) {
            Width::U16
        } else if Width::I32.holds_all(kind, pad) {
            Width::I32
        } else {
            Width::I64
        }
    }
}
