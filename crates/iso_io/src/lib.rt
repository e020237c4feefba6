//! Where bytes come from and go to: the sources and sinks of `byte_streams`, and shelves of files, in memory and of the system. Each
//! has a count of faults that never falls, and a call fails only where that count rises, or where a shelf that tells its files
//! is asked to read one that is missing.
#![tactic(auto)]

mod file_shelf;
mod file_text;
mod memory_shelf;
mod place;
mod places;
mod shelf;
mod shelf_file;

pub use byte_streams::{
    Failed, LINES, MemSink, MemSource, ReadFault, Sink, Source, StdSink, StdSource, count_read,
    gather, read_all_of, stage, write_all_of,
};
pub use file_shelf::FileShelf;
pub use file_text::{FileText, write_file};
pub use memory_shelf::MemShelf;
pub use refusals::ShelfError;
pub use shelf::Shelf;
pub use shelf_file::ShelfFile;
