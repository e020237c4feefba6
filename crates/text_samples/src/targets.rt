//! What samples are gathered into, one after the other: a list of them, or their bytes in the width of their kind.
//!
//! Text and hex samples are each read by one body, over a trait of what they are gathered into: a list, or bytes.
ghost use Rattle.std.specs.Prelude.{◌≡◌, ◌≤◌, ◌++◌, ◌∷◌, [], ℤ, IfOk, List};
ghost use Rattle.iso_base.specs.Volume.{IsOfKind};
ghost use Rattle.iso_base.specs.declared.kind.SampleKind.{SampleKind};
ghost use Rattle.iso_base.specs.SampleBytes.{samples_text};

use crate::bits::bits_of;
use iso_base::SampleKind;
use std::alloc::{AllocError, Global};

/// What samples of a kind are gathered into.
pub(crate) trait Gather: Drop {
    /// It holds these samples of the kind, in order.
    ghost Holds: { Self → SampleKind → List ℤ → Type 0 };

    /// Nothing yet, with room for so many samples of the kind.
    fn with_room(alloc: Global, kind: SampleKind, count: usize) -> Result<Self, AllocError>
        requires { count ≤ 160000000 }
        ensures { IfOk result (λ gathered. Holds gathered kind []) };

    /// Takes one more sample of the kind.
    fn add(&mut self, kind: SampleKind, value: i64) -> Result<(), AllocError>
        requires { IsOfKind kind value }
        ensures { (samples : List ℤ) → Holds self.old kind samples →
            IfOk result (λ _. Holds self.new kind (samples ++ value ∷ [])) };
}

/// The samples as numbers.
impl Gather for Vec<i64> {
    ghost Holds = { λ list _ samples. list.items ≡ samples };

    fn with_room(alloc: Global, _kind: SampleKind, count: usize) -> Result<Vec<i64>, AllocError> {
        Vec::with_capacity(alloc, count)
    }

    #[inline(always)]
    fn add(&mut self, _kind: SampleKind, value: i64) -> Result<(), AllocError> {
        Ok(self.push(value)?)
    }
}

/// The bytes of the samples, the low byte of each first.
impl Gather for Vec<u8> {
    ghost Holds = { λ bytes kind samples. bytes.items ≡ samples_text kind samples };

    fn with_room(alloc: Global, kind: SampleKind, count: usize) -> Result<Vec<u8>, AllocError> {
        Vec::with_capacity(alloc, kind.width() as usize * count)
    }

    #[inline(always)]
    fn add(&mut self, kind: SampleKind, value: i64) -> Result<(), AllocError> {
        let [a, b, c, d] = bits_of(kind, value).to_le_bytes();
        match kind {
            SampleKind::I8 | SampleKind::U8 => self.extend_from_slice(&[a]),
            SampleKind::I16 | SampleKind::U16 => self.extend_from_slice(&[a, b]),
            SampleKind::I32 | SampleKind::U32 => self.extend_from_slice(&[a, b, c, d]),
        }
    }
}
