//! Small texts gathered into larger writes.

ghost use Rattle.std.specs.Prelude.{◌≡◌, ◌≤◌, ◌++◌, length, IsTrue, false};
ghost use Rattle.byte_streams.specs.Seen.{Puts, Stages};

use crate::Failed;
use crate::sink::{Sink, write_all_of};
use arrayvec::ArrayString;

/// The bytes that are written at once: a write of the system costs as much as thousands of bytes.
const STAGE_BYTES: usize = 32_768;

/// Puts bytes behind those that wait; false, with nothing changed, where memory is wanted for it.
#[inline]
fn keep(waiting: &mut Vec<u8>, bytes: &[u8]) -> bool
    ensures kept { IsTrue result → waiting.new.items ≡ waiting.old.items ++ bytes.now }
    ensures not { result ≡ false → waiting.new.items ≡ waiting.old.items }
{
    waiting.extend_from_slice(bytes).is_ok()
}

/// Writes what waits, and lets the new bytes wait, or writes them too where there is no room for them.
fn write_waiting<K: Sink>(sink: &mut K, waiting: &mut Vec<u8>, bytes: &[u8]) -> Result<(), Failed>
    ensures { Stages (K.seen sink.old) (K.seen sink.new) waiting.old.items waiting.new.items result bytes.now }
{
    write_all_of(sink, waiting)?;
    waiting.clear();
    if keep(waiting, bytes) {
        return Ok(());
    }
    write_all_of(sink, bytes)
}

/// Puts bytes behind those that wait in a buffer, and first writes those where they are a block or more. The caller
/// writes what waits at the end. Give the buffer the room of a block and of the most bytes that are put at a time, and no call
/// takes memory; where memory is wanted, bytes are written at once. After `Failed` the sink has taken a front of what waited
/// and the bytes.
#[inline]
pub fn stage<K: Sink>(sink: &mut K, waiting: &mut Vec<u8>, bytes: &[u8]) -> Result<(), Failed>
    ensures { Stages (K.seen sink.old) (K.seen sink.new) waiting.old.items waiting.new.items result bytes.now }
{
    if waiting.len() < STAGE_BYTES && keep(waiting, bytes) {
        return Ok(());
    }
    write_waiting(sink, waiting, bytes)
}

/// The most bytes that wait where no memory is taken for them.
pub const LINES: usize = 8_192;

/// Puts a line behind those that wait in a block, and first writes these where there is no room for it. The caller
/// writes what waits at the end. No memory is taken. After `Failed` the sink has taken a front of what waited and the line.
pub fn gather<K: Sink>(
    sink: &mut K,
    waiting: &mut ArrayString<LINES>,
    line: &str,
) -> Result<(), Failed>
    requires { length line.now ≤ 8192 }
    ensures { Stages (K.seen sink.old) (K.seen sink.new) waiting.old.bytes waiting.new.bytes result line.now }
{
    if line.len() <= waiting.remaining_capacity() {
        waiting.push_str(line);
        return Ok(());
    }
    write_all_of(sink, waiting.as_str().as_bytes())?;
    waiting.clear();
    waiting.push_str(line);
    Ok(())
}
