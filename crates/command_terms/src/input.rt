//! The bytes of the input.

ghost use Rattle.std.specs.Prelude.{◌≤◌, length, ℤ, Option, IfOk, IfErr};
ghost use Rattle.byte_streams.specs.Seen.{ReadsAll, ReadsWithin};
ghost use Rattle.command_terms.specs.Volumes.{volume_limit, HoldsNone};

use byte_streams::{Source, read_all_of};
use program::Answer;
use std::alloc::Global;

/// The most bytes of a volume file.
pub const VOLUME_LIMIT: u64 = 640_065_536;

/// The bytes of the whole input.
pub fn bytes_of_input<S: Source>(alloc: Global, input: &mut S) -> Result<Vec<u8>, Answer>
    ensures all { IfOk result (λ v. ReadsAll (S.seen input.old) (S.seen input.new) v.items) }
    ensures within { IfOk result (λ v. length v.items ≤ volume_limit) }
    ensures reading { ReadsWithin volume_limit (S.seen input.old) (S.seen input.new) }
    ensures fault { (pad : Option ℤ) (level : ℤ)
        → IfErr result (λ answer. HoldsNone pad level (S.seen input.old) (S.seen input.new) answer) }
{
    Ok(read_all_of(alloc, input, VOLUME_LIMIT)?)
}
