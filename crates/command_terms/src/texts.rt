//! Texts that a program tells of itself.

ghost use Rattle.byte_streams.specs.Seen.{Feed};
ghost use Rattle.command_terms.specs.Outcome.{Tells, unread_between};

use byte_streams::{Failed, Sink, write_all_of};
use program::Answer;

/// Writes a text that a program tells of itself, and reads nothing.
pub fn tell<K: Sink>(text: &str, output: &mut K) -> Answer
    ensures { (input : Feed) → Tells text.now (unread_between input K.seen output.old output.new) result }
{
    match write_all_of(output, text.as_bytes()) {
        Ok(()) => Answer::Done,
        Err(Failed) => Answer::OutputFault,
    }
}
