//! Where bytes come from and go to: sources and sinks, in memory and of the system. Each has a count of faults that never
//! falls, and a call fails only where that count rises.
#![tactic(auto)]

mod memory_sink;
mod memory_source;
mod sink;
mod small_writes;
mod source;
mod standard;

use iso_base::BenchFault;
pub use memory_sink::MemSink;
pub use memory_source::MemSource;
pub use sink::{Sink, write_all_of};
pub use small_writes::{LINES, gather, stage};
pub use source::{READ_BYTES, ReadFault, Source, count_read, read_all_of};
pub use standard::{StdSink, StdSource};
use thiserror::Error;

/// A call of the outside failed, and its count of faults rose.
#[derive(Clone, Copy, Debug, PartialEq, Eq, Error)]
#[error("failed")]
pub struct Failed;

impl From<Failed> for BenchFault {
    ghost use Rattle.std.specs.Prelude.{◌≡◌};
    ghost use Rattle.iso_base.specs.declared.fault.BenchFault.TheVariants.{ShelfFailed};

    ghost from_gives = { λ _ fault. fault ≡ ShelfFailed };

    fn from(_: Failed) -> BenchFault {
        BenchFault::ShelfFailed
    }
}
