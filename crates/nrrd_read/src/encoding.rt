//! The forms of samples in a file.
ghost use Rattle.std.specs.Prelude.{◌≡◌};
ghost use Rattle.nrrd_read.specs.Checks.{has_order};

use iso_base::SampleKind;

/// An encoding that is read.
#[derive(Clone, Copy, Debug, PartialEq, Eq)]
pub enum Encoding {
    /// The bytes of each sample.
    Raw,
    /// Decimal numbers.
    Text,
    /// The hex digits of each sample's bytes.
    Hex,
}

impl Encoding {
    /// Whether samples of the kind have a byte order: where they are of more than one byte, and no numbers in print.
    pub fn has_order(self, kind: SampleKind) -> bool
        ensures { result ≡ has_order self kind }
    {
        match self {
            Encoding::Raw | Encoding::Hex => kind.width() > 1,
            Encoding::Text => false,
        }
    }
}
