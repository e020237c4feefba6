//! Signs of numbers: 1 for each that is above a level, else 0.
ghost use Rattle.std.specs.Prelude.{◌≡◌, ℤ, cond, int_le, length, map};
ghost use Rattle.samples.specs.Signs.{IsBound, sign_of};

use crate::number::Packed;
use iso_base::Level;

/// 1 for a number that is at least a bound, else 0; where there is no bound, 0.
#[inline(always)]
pub fn sign<T: Packed>(number: T, bound: Option<T>) -> u8
    ensures { (least : ℤ) → IsBound T.Fits T.value least bound → result ≡ cond (int_le least (T.value number)) 1 0 }
{
    // Reading the sample brings in that there is room for it.
    let _ = number.sample();
    match bound {
        Some(bound) => u8::from(number.is_at_least(bound)),
        None => 0,
    }
}

/// 1 for a sample above the level, else 0.
#[inline(always)]
pub fn sample_sign(sample: i64, level: Level) -> u8
    ensures { result ≡ sign_of level sample }
{
    if sample >= level.least_above() { 1 } else { 0 }
}

/// Writes 1 for each number that is at least a bound, and 0 for each other; where there is no bound, 0 throughout.
#[inline(always)]
fn fill_by_bound<T: Packed>(numbers: &[T], bound: Option<T>, into: &mut [u8])
    requires { length numbers.now ≡ length into.old }
    ensures { (least : ℤ) → IsBound T.Fits T.value least bound → into.new
        ≡ map (λ sample. cond (int_le least sample) 1 0) (map T.value numbers.now) }
{
    for k in 0..numbers.len() {
        into[k] = sign(numbers[k], bound);
    }
}

/// Writes 1 for each number above the level, and 0 for each other.
#[inline(always)]
pub fn fill_signs<T: Packed>(numbers: &[T], level: Level, into: &mut [u8])
    requires { length numbers.now ≡ length into.old }
    ensures { into.new ≡ map (sign_of level) (map T.value numbers.now) }
{
    // Each case has its own loop, so that none asks of each number again whether there is a bound.
    match T::at_least(level.least_above()) {
        Some(bound) => fill_by_bound(numbers, Some(bound), into),
        None => fill_by_bound(numbers, None, into),
    }
}
