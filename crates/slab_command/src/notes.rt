//! The line that says why the program ends.

ghost use Rattle.std.specs.Prelude.{◌≡◌, ◌≤◌, codes, length};
ghost use Rattle.iso_defs.specs.Texts.{counted};
ghost use Rattle.program.specs.Notes.{note_line};
ghost use Rattle.program.specs.Tries.{Tries};
ghost use Rattle.slab_command.specs.Answers.{slab_note};

use crate::answer::SlabAnswer;
use arrayvec::ArrayString;
use iso_io::{Sink, write_all_of};
use number_digits::put_number;
use program::put_note_by;

/// The program's name.
const NAME: &str = "isoslab";

/// The line of words and a number.
fn counted_line(words: &str, count: u64) -> ArrayString<128>
    requires { length words.now ≤ 20 }
    ensures { result.bytes ≡ note_line (codes "isoslab") (counted words.now count) }
{
    let mut text = ArrayString::new();
    text.push_str("isoslab: ");
    text.push_str(words);
    put_number(count, &mut text);
    text.push('\n');
    text
}

/// Appends a line. Where the sink fails, no one is told.
fn put_line<N: Sink>(notes: &mut N, line: &str)
    ensures { Tries (N.seen notes.old) (N.seen notes.new) line.now }
{
    let _ = write_all_of(notes, line.as_bytes());
}

/// Appends the line that says why the program ends, or nothing where it is done. Where the sink fails, a prefix of the line was
/// taken, and no one is told.
#[tactic(auto, unfolding(crate::specs::Answers::slab_note))]
pub fn put_slab_note<N: Sink>(notes: &mut N, answer: SlabAnswer)
    ensures { Tries (N.seen notes.old) (N.seen notes.new) (slab_note answer) }
{
    match answer {
        SlabAnswer::Common(answer) => put_note_by(notes, NAME, &answer),
        SlabAnswer::Thin { slices } => {
            put_line(
                notes,
                counted_line("slab thin ", u64::from(slices)).as_str(),
            );
        }
        SlabAnswer::Numbers { largest } => {
            put_line(notes, counted_line("slab numbers ", largest).as_str());
        }
    }
}
