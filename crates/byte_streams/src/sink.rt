//! Where bytes go, and how all of them are written.

ghost use Rattle.std.specs.Prelude.{◌≡◌};
ghost use Rattle.std.specs.Io.{WritesAtMost};
ghost use Rattle.byte_streams.specs.Seen.{Tape, Writes, Puts};

use crate::Failed;

/// Where bytes go. It is seen as the bytes taken so far, where they are told, a count of faults, and what lies beside
/// them, which no call changes.
pub trait Sink {
    ghost seen: { Self → Tape };

    /// Takes a front of the bytes, at least one of them where there is one, and says how many. `Failed` comes only
    /// where the count of faults rose; a front of the bytes, which may be empty, was then taken.
    fn write(&mut self, bytes: &[u8]) -> Result<usize, Failed>
        ensures bound { WritesAtMost result bytes.now }
        ensures writes { Writes (seen self.old) (seen self.new) result bytes.now };
}

/// Writes all the bytes. `Failed` comes only where the count of faults rose; a front of the bytes was then taken.
pub fn write_all_of<K: Sink>(sink: &mut K, bytes: &[u8]) -> Result<(), Failed>
    ensures { Puts (K.seen sink.old) (K.seen sink.new) result bytes.now }
{
    let mut rest = bytes;
    while !rest.is_empty() {
        let count = sink.write(rest)?;
        rest = &rest[count..];
    }
    Ok(())
}
