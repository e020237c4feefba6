//! Files of a shelf that are made anew of a text.
//!
//! Why: DECISIONS.md, "A file is made of a text in one place".
ghost use Rattle.std.specs.Prelude.{◌≡◌, ◌<◌, ◌^◌, List, ℕ, ⊤, IfOk};
ghost use Rattle.byte_streams.specs.Seen.{Puts};
ghost use Rattle.iso_io.specs.Loans.{loan_of, name_of, shelf_of};
ghost use Rattle.iso_io.specs.Shelves.{Starts, Stores, file_tape};

use crate::shelf::Shelf;
use crate::shelf_file::ShelfFile;
use byte_streams::{Failed, Sink};

/// A text that is written to a sink as it is made, and what its writer tells of it. A writer may have been lent what it works
/// with: then `keeps` says what it leaves of that.
pub trait FileText {
    type Told;

    ghost text: { Self → List ℕ };

    ghost is_ready: { Self → Type 0 } = { λ _. ⊤ };

    ghost tells: { Self → Self.Told → Type 0 };

    ghost keeps: { Self → Self → Type 0 } = { λ _ _. ⊤ };

    /// Writes the text. `Failed` comes only where the sink's count rose; a front of the text was then taken.
    fn put<K: Sink>(&mut self, sink: &mut K) -> Result<Self::Told, Failed>
        requires { is_ready self.old }
        ensures text { Puts (K.seen sink.old) (K.seen sink.new) result (text self.old) }
        ensures tells { IfOk result (tells self.old) }
        ensures keeps { keeps self.old self.new };

    ghost stays: { (writer : Self) → keeps writer writer };
}

/// The most bytes of the name of a file of the system.
const NAME_BYTES: usize = 255;

/// Whether no file of the system has the name.
// Apart, so that whoever asks has entered its frame before, whatever the answer is.
#[inline(never)]
fn is_too_long(name: &str) -> bool {
    name.len() > NAME_BYTES
}

/// The same name, by way of a copy.
fn copied<'a>(name: &'a str, room: &mut [u8]) -> &'a str
    ensures { result.now ≡ name.now }
{
    let count = name.len().min(room.len());
    let (copy, bytes) = (&mut room[..count], &name.as_bytes()[..count]);
    copy.copy_from_slice(bytes);
    if &*copy == bytes { name } else { "" }
}

/// The same name, by way of a buffer on the stack.
#[inline(always)]
fn by_way_of_stack<const DEPTH: usize>(name: &str) -> &str
    requires { DEPTH < 2 ^ 63 }
    ensures { result.now ≡ name.now }
{
    copied(name, &mut [0; DEPTH])
}

/// Makes the name an empty file. Before that so many bytes of stack are entered: where there are not as many, the program ends
/// while the file still has what it held.
// A frame is entered whole, page by page, whichever of its buffers are then used. This one is used for no name that a system
// has, and so is never filled.
#[inline(never)]
fn start_above<H: Shelf, const DEPTH: usize>(shelf: &mut H, name: &str) -> Result<(), Failed>
    requires { DEPTH < 2 ^ 63 }
    ensures { Starts (H.seen shelf.old) (H.seen shelf.new) result name.now }
{
    if is_too_long(name) {
        shelf.start(by_way_of_stack::<DEPTH>(name))
    } else {
        shelf.start(name)
    }
}

// Apart, so that its caller learns that it is the same shelf afterwards.
fn fill_file<H: Shelf, T: FileText>(
    file: &mut ShelfFile<H>,
    text: &mut T,
) -> Result<T::Told, Failed>
    requires { T.is_ready text.old }
    ensures text { Puts (file_tape (loan_of file.old) (H.seen (shelf_of file.old)) (name_of file.old))
        (file_tape (loan_of file.new) (H.seen (shelf_of file.new)) (name_of file.new)) result (T.text text.old) }
    ensures tells { IfOk result (T.tells text.old) }
    ensures keeps { T.keeps text.old text.new }
    ensures same_reference { loan_of file.new ≡ loan_of file.old }
{
    text.put(file)
}

/// Makes the name's file a text, which is written as it is made. `Failed` comes only where the shelf's count rose; the file is
/// then as before or a front of the text, and all other files are as before. `DEPTH` is how many bytes of stack the text
/// takes beyond the frame of the caller, so that they are entered before the file is made empty.
pub fn write_file<H: Shelf, T: FileText, const DEPTH: usize>(
    shelf: &mut H,
    name: &str,
    text: &mut T,
) -> Result<T::Told, Failed>
    requires depth { DEPTH < 2 ^ 63 }
    requires text { T.is_ready text.old }
    ensures file { Stores (H.seen shelf.old) (H.seen shelf.new) result name.now (T.text text.old) }
    ensures tells { IfOk result (T.tells text.old) }
    ensures keeps { T.keeps text.old text.new }
{
    start_above::<H, DEPTH>(shelf, name)?;
    let mut file = ShelfFile::new(shelf, name);
    fill_file(&mut file, text)
}
