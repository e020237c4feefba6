//! Where bytes come from, and how all of them are read.

ghost use Rattle.std.specs.Prelude.{◌≡◌, ◌<◌, ◌≤◌, length, IfOk, IfSome, IsErrOf, OnErr, vec_len};
ghost use Rattle.std.specs.Io.{ReadsAtMost};
ghost use Rattle.byte_streams.specs.Causes.{Rose, one_more};
ghost use Rattle.byte_streams.specs.Seen.{Feed, Reads, ReadsAll, ReadsOnce, ReadsPast, ReadsWithin, TakesPiece};

use crate::Failed;
use std::alloc::{AllocError, Global};
use thiserror::Error;

/// Where bytes come from. It is seen as the bytes still to come, where they are told, and four counts: of its reads, which
/// each read raises by one; of those that took nothing; of those among them that came after the last read that took a byte;
/// and of faults. A count stops at the end of its type.
pub trait Source {
    ghost seen: { Self → Feed };

    /// Puts the next bytes at the front of `into`, and says how many; 0 is the end of the input. What the rest of
    /// `into` then holds is open. `Failed` comes only where the count of faults rose, and nothing was then read.
    fn read(&mut self, into: &mut [u8]) -> Result<usize, Failed>
        requires { 0 < length into.old }
        ensures bound { ReadsAtMost result into.new }
        ensures reads { Reads (seen self.old) (seen self.new) result into.new };
}

/// Counts a read that took so many bytes: whether it took none.
pub fn count_read(taken: usize, empty_reads: &mut u64, empty_at_end: &mut u64)
    ensures some { 0 < taken → (empty_reads.new ≡ empty_reads.old) × (empty_at_end.new ≡ 0) }
    ensures none { taken ≡ 0 → (empty_reads.new ≡ one_more empty_reads.old)
        × (empty_at_end.new ≡ one_more empty_at_end.old) }
{
    if taken == 0 {
        *empty_reads = empty_reads.saturating_add(1);
        *empty_at_end = empty_at_end.saturating_add(1);
    } else {
        *empty_at_end = 0;
    }
}

/// Why not all was read.
#[derive(Clone, Copy, Debug, PartialEq, Eq, Error)]
pub enum ReadFault {
    /// A read failed, and the source's count of faults rose.
    #[error("not read")]
    Failed,
    /// There were more bytes than the limit.
    #[error("too long")]
    TooLong,
    /// Memory could not be had.
    #[error("no memory")]
    Memory,
}

impl From<AllocError> for ReadFault {
    ghost use Rattle.std.specs.Prelude.{◌≡◌};
    ghost use Rattle.byte_streams.specs.declared.source.ReadFault.TheVariants.{Memory};

    ghost from_gives = { λ _ e. e ≡ Memory };

    fn from(_: AllocError) -> ReadFault {
        ReadFault::Memory
    }
}

/// The most bytes that a read asks for.
pub const READ_BYTES: usize = 65_536;

// Apart, so that callers see the length alone.
fn zeros(alloc: Global, len: usize) -> Result<Vec<u8>, AllocError>
    ensures { IfOk result (λ v. vec_len v ≡ len) }
{
    vec![in alloc; 0u8; len]
}

/// Reads one piece, at most as long as `chunk`, and appends it to the bytes.
fn read_piece<S: Source>(
    source: &mut S,
    chunk: &mut [u8],
    bytes: &mut Vec<u8>,
) -> Result<usize, ReadFault>
    requires { 0 < length chunk.old }
    ensures piece { IfOk result (TakesPiece (S.seen source.old) (S.seen source.new) bytes.old.items bytes.new.items) }
    ensures few { IfOk result (λ count. count ≤ length chunk.old) }
    ensures stopped { OnErr result (ReadsOnce (length chunk.old) (S.seen source.old) (S.seen source.new)) }
    ensures not_long { IsErrOf result ReadFault.TooLong → ⊥ }
    ensures failed { IsErrOf result ReadFault.Failed → Rose (S.seen source.old).faults (S.seen source.new).faults }
    ensures later { (S.seen source.old).faults ≤ (S.seen source.new).faults }
{
    match source.read(chunk) {
        Ok(count) => {
            bytes.extend_from_slice(&chunk[..count])?;
            Ok(count)
        }
        Err(Failed) => Err(ReadFault::Failed),
    }
}

/// Reads all that is left by way of `chunk`.
fn read_by<S: Source>(
    alloc: Global,
    source: &mut S,
    limit: u64,
    chunk: &mut [u8],
) -> Result<Vec<u8>, ReadFault>
    requires some { 0 < length chunk.old }
    requires few { length chunk.old ≤ 65536 }
    ensures all { IfOk result (λ v. ReadsAll (S.seen source.old) (S.seen source.new) v.items) }
    ensures within { IfOk result (λ v. length v.items ≤ limit) }
    ensures reading { ReadsWithin limit (S.seen source.old) (S.seen source.new) }
    ensures past { IsErrOf result ReadFault.TooLong → ReadsPast limit (S.seen source.old) (S.seen source.new) }
    ensures too_long { IsErrOf result ReadFault.TooLong → IfSome (S.seen source.old).left (λ all. limit < length all) }
    ensures failed { IsErrOf result ReadFault.Failed → Rose (S.seen source.old).faults (S.seen source.new).faults }
    ensures later { (S.seen source.old).faults ≤ (S.seen source.new).faults }
{
    let mut bytes = Vec::new(alloc);
    while bytes.len() as u64 <= limit {
        if read_piece(source, chunk, &mut bytes)? == 0 {
            return Ok(bytes);
        }
    }
    Err(ReadFault::TooLong)
}

/// Reads all that is left of a source, in pieces of at most 64 KiB, if that is no more than `limit` bytes. `TooLong`
/// comes only where there are more, and reading stops at the first piece that passes the limit. `Failed` comes only where
/// the source's count of faults rose. Each read but the last takes at least one byte: none follows one that failed, or the
/// end.
pub fn read_all_of<S: Source>(
    alloc: Global,
    source: &mut S,
    limit: u64,
) -> Result<Vec<u8>, ReadFault>
    ensures all { IfOk result (λ v. ReadsAll (S.seen source.old) (S.seen source.new) v.items) }
    ensures within { IfOk result (λ v. length v.items ≤ limit) }
    ensures reading { ReadsWithin limit (S.seen source.old) (S.seen source.new) }
    ensures past { IsErrOf result ReadFault.TooLong → ReadsPast limit (S.seen source.old) (S.seen source.new) }
    ensures too_long { IsErrOf result ReadFault.TooLong → IfSome (S.seen source.old).left (λ all. limit < length all) }
    ensures failed { IsErrOf result ReadFault.Failed → Rose (S.seen source.old).faults (S.seen source.new).faults }
    ensures later { (S.seen source.old).faults ≤ (S.seen source.new).faults }
{
    let mut chunk = zeros(alloc, READ_BYTES)?;
    read_by(alloc, source, limit, &mut chunk)
}
