//! Ways to write digits.

ghost use Rattle.std.specs.Prelude.{◌≡◌, ◌+◌, ◌≤◌, ◌<◌, ◌^◌, ◌++◌, take, length, decimal};
ghost use Rattle.iso_defs.specs.Texts.{three_digits};

/// A way to write the digits of numbers.
pub trait Digits {
    /// Writes a number.
    fn put_number(&self, n: u64, room: &mut [u8], at: usize) -> usize
        requires bound { n < 10 ^ 11 }
        requires space { at + 12 ≤ length room.old }
        ensures end { result ≤ at + 12 }
        ensures behind { at ≤ result }
        ensures written { take result room.new ≡ take at room.old ++ decimal n };

    /// Writes a number below 1,000 in three digits.
    fn put_three_digits(&self, n: u64, room: &mut [u8], at: usize) -> usize
        requires bound { n < 1000 }
        requires space { at + 4 ≤ length room.old }
        ensures end { result ≡ at + 3 }
        ensures written { take result room.new ≡ take at room.old ++ three_digits n };
}
