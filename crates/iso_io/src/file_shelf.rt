//! The files of the system as a file store.
//!
//! The system's adapters are seen as a number, their count of failures. A file that is too long, and being out of
//! memory, are answers without a failure.
//!
//! Why: DECISIONS.md, "The file store keeps a file open".

ghost use Rattle.std.specs.Prelude.{◌≡◌, ◌≤◌, length, IfOk};
ghost use Rattle.byte_streams.specs.Causes.{Rose};
ghost use Rattle.byte_streams.specs.Causes.{one_more};

use crate::shelf::Shelf;
use arrayvec::ArrayString;
use byte_streams::{Failed, ReadFault, StdSink, StdSource, read_all_of, write_all_of};
use refusals::ShelfError;
use std::alloc::Global;
use std::fs::{File, OpenOptions};
use std::marker::Model;
use std::os::fd::AsRawFd;
use std::os::unix::fs::MetadataExt;

/// A file of the system that is open for bytes to be put behind its own.
#[derive(Drop)]
struct OpenFile {
    name: ArrayString<255>,
    sink: StdSink<File>,
}

/// The files of the system, whose names it resolves from the working directory. It tells nothing of their bytes, and is
/// seen as a count, which rises at each call that fails and at no other. The file that was started or appended to last stays
/// open until a call makes a file anew, reads or fails, so that a text of thousands of appends opens its file once. What was
/// closed of the standard streams is taken meanwhile, so that no file gets its descriptor, and with it the replies.
#[derive(Drop)]
pub struct FileShelf<'a> {
    rt: &'a HostRuntime,
    _streams: [Option<File>; 3],
    open: Option<OpenFile>,
    faults: u64,
}

impl<'a> Model for FileShelf<'a> {
    ghost use Rattle.std.specs.Prelude.{ℕ};

    ghost Value = { ℕ };

    ghost view = { λ s. s.faults };
}

impl<'a> FileShelf<'a> {
    /// The files that this runtime reaches. Of the standard streams those that are closed stay so: a write to one fails.
    pub fn new(rt: &'a HostRuntime) -> FileShelf<'a>
        ensures { result ≡ 0 }
    {
        FileShelf {
            rt,
            _streams: [take_stream(rt), take_stream(rt), take_stream(rt)],
            open: None,
            faults: 0,
        }
    }

    /// A call failed.
    fn fault(&mut self) -> Failed
        ensures counted { self.new ≡ one_more self.old }
        ensures rose { Rose self.old self.new }
        ensures later { self.old ≤ self.new }
    {
        self.faults = self.faults.saturating_add(1);
        Failed
    }
}

/// The last descriptor of a standard stream.
const LAST_STREAM: i32 = 2;

/// Takes the smallest descriptor that is free, if it is one of a standard stream. It stands for a folder, which can be neither
/// read nor written as a stream is, or, where there is none, for the null device, which can only be read, as empty.
fn take_stream(rt: &HostRuntime) -> Option<File> {
    let file = match File::open(rt, "/") {
        Ok(folder) => folder,
        Err(_) => File::open(rt, "/dev/null").ok()?,
    };
    if file.as_raw_fd() <= LAST_STREAM {
        Some(file)
    } else {
        None
    }
}

/// The bytes of a file of the system.
fn read_file(rt: &HostRuntime, alloc: Global, name: &str, limit: u64) -> Result<Vec<u8>, ReadFault>
    ensures { IfOk result (λ v. length v.items ≤ limit) }
{
    match File::open(rt, name) {
        Ok(file) => read_all_of(alloc, &mut StdSource::new(file), limit),
        Err(_) => Err(ReadFault::Failed),
    }
}

/// Opens a file of the system that was not started here, which is made where there is none, for bytes to be put behind its
/// own, whoever else puts some there meanwhile.
fn open_behind(rt: &HostRuntime, name: &str) -> Result<StdSink<File>, Failed> {
    match OpenOptions::new().append(true).create(true).open(rt, name) {
        Ok(file) => Ok(StdSink::new(file)),
        Err(_) => Err(Failed),
    }
}

/// A regular file opened once more, if it still has that name.
fn opened_again(rt: &HostRuntime, name: &str, file: &File) -> Option<File> {
    let known = file.metadata().ok()?;
    if !known.is_file() {
        return None;
    }
    let again = OpenOptions::new().write(true).open(rt, name).ok()?;
    let found = again.metadata().ok()?;
    if found.dev() == known.dev() && found.ino() == known.ino() {
        Some(again)
    } else {
        None
    }
}

/// Makes a file of the system empty, and opens it.
// A file system may write a file to the disk when it is closed after it was made empty, as ext4 does, and the next write of the
// same name then waits for the disk. So a regular file is opened once more while it is empty, and what made it so is closed.
fn make_empty(rt: &HostRuntime, name: &str) -> Result<File, Failed> {
    let Ok(file) = File::create(rt, name) else {
        return Err(Failed);
    };
    Ok(opened_again(rt, name, &file).unwrap_or(file))
}

/// A file that stays open, but for a name too long to be kept in place.
fn kept_open(name: &str, sink: StdSink<File>) -> Option<OpenFile> {
    match ArrayString::from(name) {
        Ok(name) => Some(OpenFile { name, sink }),
        Err(_) => None,
    }
}

/// Puts bytes behind those of a file of the system, by way of what is open where that is this file. It then stays open;
/// where the call fails none does.
fn append_to(
    rt: &HostRuntime,
    open: &mut Option<OpenFile>,
    name: &str,
    bytes: &[u8],
) -> Result<(), Failed> {
    let mut sink = match open.take() {
        Some(file) if file.name.as_str() == name => file.sink,
        _ => open_behind(rt, name)?,
    };
    write_all_of(&mut sink, bytes)?;
    *open = kept_open(name, sink);
    Ok(())
}

impl<'a> Shelf for FileShelf<'a> {
    ghost use Rattle.std.specs.Prelude.{◌≡◌, ◌⊎◌, ◌≤◌, length, IfOk, IfErr, is_err, if◌then◌else◌};
    ghost use Rattle.byte_streams.specs.Causes.{one_more};
    ghost use Rattle.iso_io.specs.Shelves.{Starts, Grows, is_failed, untold_store};

    ghost seen = { untold_store };

    fn read(&mut self, alloc: Global, name: &str, limit: u64) -> Result<Vec<u8>, ShelfError>
        ensures later { self.old ≤ self.new }
        ensures within { IfOk result (λ v. length v.items ≤ limit) }
        ensures limit { IfErr result (λ e. e ≡ ShelfError.Failed ⊎ e ≡ ShelfError.TooLong limit ⊎ e
            ≡ ShelfError.Memory) }
        ensures faults { self.new ≡ (if is_failed result then one_more self.old else self.old) }
    {
        self.open = None;
        match read_file(self.rt, alloc, name, limit) {
            Ok(bytes) => Ok(bytes),
            Err(ReadFault::Failed) => {
                self.fault();
                Err(ShelfError::Failed)
            }
            Err(ReadFault::TooLong) => Err(ShelfError::TooLong { limit }),
            Err(ReadFault::Memory) => Err(ShelfError::Memory),
        }
    }

    fn start(&mut self, name: &str) -> Result<(), Failed>
        ensures starts { Starts (untold_store self.old) (untold_store self.new) result name.now }
        ensures faults { self.new ≡ (if is_err result then one_more self.old else self.old) }
    {
        self.open = None;
        match make_empty(self.rt, name) {
            Ok(file) => {
                self.open = kept_open(name, StdSink::new(file));
                Ok(())
            }
            Err(Failed) => Err(self.fault()),
        }
    }

    fn append(&mut self, name: &str, bytes: &[u8]) -> Result<(), Failed>
        ensures grows { Grows (untold_store self.old) (untold_store self.new) result name.now bytes.now }
        ensures faults { self.new ≡ (if is_err result then one_more self.old else self.old) }
    {
        if append_to(self.rt, &mut self.open, name, bytes).is_err() {
            return Err(self.fault());
        }
        Ok(())
    }
}
