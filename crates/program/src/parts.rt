//! The parts of a line: words and numbers. A line has at most 128 bytes.

ghost use Rattle.std.specs.Prelude.{◌≡◌, ◌+◌, ◌≤◌, ◌++◌, length};
ghost use Rattle.arrayvec.specs.ArrayString.{array_string_len};
ghost use Rattle.iso_defs.specs.Texts.{counted, counted_twice, level_and_pad};

use arrayvec::ArrayString;
use iso_base::put_level;
use number_digits::put_number;

/// Appends words and a number.
pub fn put_counted(words: &str, n: u64, into: &mut ArrayString<128>)
    requires room { array_string_len into.old + length words.now ≤ 60 }
    ensures text { into.new.bytes ≡ into.old.bytes ++ counted words.now n }
    ensures room { array_string_len into.new ≤ 80 }
{
    into.push_str(words);
    put_number(n, into);
}

/// Appends words and two numbers.
pub fn put_counted_twice(words: &str, first: u64, second: u64, into: &mut ArrayString<128>)
    requires room { array_string_len into.old + length words.now ≤ 60 }
    ensures text { into.new.bytes ≡ into.old.bytes ++ counted_twice words.now first second }
    ensures room { array_string_len into.new ≤ 101 }
{
    into.push_str(words);
    put_number(first, into);
    into.push(' ');
    put_number(second, into);
}

/// Appends words, a level, given in thousandths, and a pad.
pub fn put_level_and_pad(words: &str, level: i64, pad: i64, into: &mut ArrayString<128>)
    requires room { array_string_len into.old + length words.now ≤ 40 }
    ensures text { into.new.bytes ≡ into.old.bytes ++ (words.now ++ level_and_pad level pad) }
    ensures room { array_string_len into.new ≤ 121 }
{
    let mut level_text = ArrayString::new();
    put_level(level, &mut level_text);
    into.push_str(words);
    into.push_str(level_text.as_str());
    into.push(' ');
    put_number(pad, into);
}

/// Appends words and a name.
pub fn put_named(words: &str, name: &str, into: &mut ArrayString<128>)
    requires room { array_string_len into.old + length words.now ≤ 60 }
    requires name { length name.now ≤ 20 }
    ensures text { into.new.bytes ≡ into.old.bytes ++ (words.now ++ name.now) }
    ensures room { array_string_len into.new ≤ 80 }
{
    into.push_str(words);
    into.push_str(name);
}
