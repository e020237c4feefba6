//! Levels, in thousandths, and samples compared with them.
//!
//! Why: DECISIONS.md, "One comparison a sample".

ghost use Rattle.std.specs.Prelude.{◌≡◌, ◌<◌, ◌^◌, ◌↔◌, ℤ, int_le, unsigned_abs, IsSome, IfSome};
ghost use Rattle.iso_base.specs.Volume.{IsSample, level_limit, shifted, is_above_level, is_above_pad};

use std::marker::Model;

/// Levels have an absolute value below this: 2^33 times 1,000, in thousandths.
const LEVEL_LIMIT: u128 = 8_589_934_592_000;

/// A level, in thousandths of the unit of samples: a whole number of absolute value below 2^33 times 1,000.
/// Contracts see it as that number.
#[derive(Clone, Copy, PartialEq, Eq)]
pub struct Level(i64);

impl Model for Level {
    ghost use Rattle.std.specs.Prelude.{ℤ, ◌<◌, unsigned_abs};
    ghost use Rattle.iso_base.specs.Volume.{level_limit};

    ghost Value = { ℤ };

    ghost view = { λ l. l.0 };

    ghost invariant = { λ l. unsigned_abs l.0 < level_limit };

    ghost inverse = { λ z. record { 0 = z } };
}

impl Level {
    /// The level of so many thousandths; none where their absolute value reaches 2^33 times 1,000.
    pub fn new(thousandths: i128) -> Option<Level>
        ensures made { IsSome result ↔ (unsigned_abs thousandths < level_limit) }
        ensures value { IfSome result (λ l. l ≡ thousandths) }
    {
        if thousandths.unsigned_abs() < LEVEL_LIMIT {
            Some(Level(thousandths as i64))
        } else {
            None
        }
    }

    /// The level in thousandths.
    pub fn value(self) -> i64
        ensures value { result ≡ self }
        ensures bound { unsigned_abs self < level_limit }
    {
        self.0
    }

    /// The shifted value of a sample, a thousand times the sample less the level: at least 0 where the sample is above.
    pub fn shifted(self, sample: i64) -> i64
        requires { IsSample sample }
        ensures value { result ≡ shifted sample self }
        ensures bound { unsigned_abs result < 2 ^ 44 }
    {
        1000 * sample - self.0
    }

    /// The least sample that is above the level: who compares many samples with one level compares them with this.
    pub fn least_above(self) -> i64
        ensures { (sample : ℤ) → int_le result sample ≡ is_above_level sample self }
    {
        if self.0 > 0 {
            (self.0 + 999) / 1000
        } else {
            self.0 / 1000
        }
    }

    /// Whether the level is above a pad, so that no sample of the pad's layer is above the level.
    pub fn is_above_pad(self, pad: i64) -> bool
        requires { IsSample pad }
        ensures { result ≡ is_above_pad self pad }
    {
        self.shifted(pad) < 0
    }
}
