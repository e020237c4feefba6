//! Samples between the width that they are kept in and eight bytes.
ghost use Rattle.std.specs.Prelude.{◌≡◌, All, length, map};

use samples::{Packed, copy_all};

/// Writes the samples that some numbers stand for over as many.
#[inline(always)]
pub fn unpack<T: Packed>(packed: &[T], into: &mut [i64])
    requires { length packed.now ≡ length into.old }
    ensures { into.new ≡ map T.value packed.now }
{
    copy_all(packed, into);
}

/// Writes the numbers that samples are kept as over as many.
#[inline(always)]
pub fn pack<T: Packed>(samples: &[i64], into: &mut [T])
    requires count { length samples.now ≡ length into.old }
    requires fits { All T.Fits samples.now }
    ensures { map T.value into.new ≡ samples.now }
{
    copy_all(samples, into);
}
