//! Texts that occur in several lines, made once.

ghost use Rattle.std.specs.Prelude.{◌≡◌, ◌+◌, ◌≤◌, ◌<◌, ◌^◌, ◌++◌, [], take, length, decimal};
ghost use Rattle.mesh_text.specs.Pieces.{piece_text};

use crate::fours::Fours;
use number_digits::{Digits, put_array};

/// Writes bytes from a place on.
#[inline(always)]
pub(crate) fn put_text(text: &[u8], room: &mut [u8], at: usize) -> usize
    requires space { at + length text.now ≤ length room.old }
    ensures end { result ≡ at + length text.now }
    ensures written { take result room.new ≡ take at room.old ++ text.now }
{
    let end = at + text.len();
    room[at..end].copy_from_slice(text);
    end
}

/// A text of at most N bytes, to be put into lines more than once: its array is moved at once.
#[derive(Clone, Copy)]
pub struct Piece<const N: usize> {
    pub bytes: [u8; N],
    pub len: usize,
}

impl<const N: usize> Piece<N> {
    /// No bytes.
    pub fn new() -> Piece<N>
        ensures text { piece_text result ≡ [] }
        ensures none { result.len ≡ 0 }
    {
        Piece {
            bytes: [0; N],
            len: 0,
        }
    }

    /// The bytes.
    pub fn text(&self) -> &[u8]
        requires { self.now.len ≤ N }
        ensures text { result.now ≡ piece_text self.now }
        ensures count { length result.now ≡ self.now.len }
    {
        &self.bytes[..self.len]
    }

    /// Puts bytes behind the others. Inlined, since most are so few that no call is worth while.
    #[inline(always)]
    pub fn push(&mut self, text: &[u8])
        requires room { self.old.len + length text.now ≤ N }
        ensures text { piece_text self.new ≡ piece_text self.old ++ text.now }
        ensures count { self.new.len ≡ self.old.len + length text.now }
    {
        self.len = put_text(text, &mut self.bytes, self.len);
    }

    /// Puts a number behind the others.
    pub fn push_number(&mut self, digits: &Fours, n: u64)
        requires bound { n < 10 ^ 11 }
        requires room { self.old.len + 12 ≤ N }
        ensures text { piece_text self.new ≡ piece_text self.old ++ decimal n }
        ensures count { self.new.len ≡ self.old.len + length (decimal n) }
    {
        self.len = digits.put_number(n, &mut self.bytes, self.len);
    }

    /// Writes the text.
    #[inline(always)]
    pub(crate) fn put(&self, room: &mut [u8], at: usize) -> usize
        requires len { self.now.len ≤ N }
        requires space { at + N ≤ length room.old }
        ensures end { result ≡ at + self.now.len }
        ensures written { take result room.new ≡ take at room.old ++ piece_text self.now }
    {
        put_array(&self.bytes, room, at);
        at + self.len
    }
}
