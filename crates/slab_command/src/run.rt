//! All that the program does.

ghost use Rattle.std.specs.Prelude.{map, string_bytes};
ghost use Rattle.byte_streams.specs.Seen.{Feed, ReadsWithin};
ghost use Rattle.command_terms.specs.Volumes.{volume_limit};
ghost use Rattle.iso_io.specs.Shelves.{Store};
ghost use Rattle.slab_command.specs.Outcome.{call_between, unread_call};
ghost use Rattle.slab_command.specs.Promise.{RunsSlab};
ghost use Rattle.slab_command.specs.Running.{Gives, GivesAsked, TellsText};
ghost use Rattle.slab_command.specs.Words.{IsSound};

use crate::answer::SlabAnswer;
use crate::asked::Asked;
use crate::help::{help_text, version_text};
use crate::notes::put_slab_note;
use crate::slabs::serve_slab;
use crate::words::asked_of_words;
use command_terms::tell;
use iso_io::{Shelf, Sink, Source};
use mesh_text::ply_head_text;
use program::{Answer, Status};
use std::alloc::Global;

/// Writes a text, reads nothing and leaves the shelf.
fn tell_text<K: Sink>(text: &str, output: &mut K) -> SlabAnswer
    ensures { (input : Feed) (store : Store)
        → TellsText text.now (unread_call input store K.seen output.old output.new) result }
{
    SlabAnswer::from(tell(text, output))
}

/// Does what is asked for.
fn give<S: Source, K: Sink, H: Shelf>(
    alloc: Global,
    asked: &Asked,
    input: &mut S,
    output: &mut K,
    shelf: &mut H,
) -> SlabAnswer
    requires sound { IsSound asked.now }
    ensures gives { Gives asked.now
        (call_between S.seen K.seen H.seen input.old input.new output.old output.new shelf.old shelf.new) result }
    ensures reading { ReadsWithin volume_limit (S.seen input.old) (S.seen input.new) }
{
    match asked {
        Asked::Slab { job } => serve_slab(alloc, job, input, output, shelf),
        Asked::Head {
            vertices,
            triangles,
        } => tell_text(ply_head_text(*vertices, *triangles).as_str(), output),
        Asked::Help => tell_text(help_text(), output),
        Asked::Version => tell_text(version_text().as_str(), output),
    }
}

/// Does what the words ask for.
fn give_asked<S: Source, K: Sink, H: Shelf>(
    alloc: Global,
    words: &[String],
    input: &mut S,
    output: &mut K,
    shelf: &mut H,
) -> SlabAnswer
    ensures gives { GivesAsked (map string_bytes words.now)
        (call_between S.seen K.seen H.seen input.old input.new output.old output.new shelf.old shelf.new) result }
    ensures reading { ReadsWithin volume_limit (S.seen input.old) (S.seen input.new) }
{
    match asked_of_words(words) {
        None => SlabAnswer::from(Answer::BadWords),
        Some(asked) => give(alloc, &asked, input, output, shelf),
    }
}

/// Does what the words ask for, and says by which status it ends; every status but `Done` puts its line into `notes`, whose
/// failure changes nothing else. `count` and `write` read a slab of a volume from `input` and append the line of what it owns to
/// `output`; `write` makes three files of the shelf first. `head`, help and version read nothing.
///
/// `words` are those after the program's name.
///
/// All that it promises is `RunsSlab` in `specs/Promise.antt`.
pub fn run_slab<S: Source, K: Sink, N: Sink, H: Shelf>(
    alloc: Global,
    words: &[String],
    input: &mut S,
    output: &mut K,
    notes: &mut N,
    shelf: &mut H,
) -> Status
    ensures run { RunsSlab (map string_bytes words.now)
        (call_between S.seen K.seen H.seen input.old input.new output.old output.new shelf.old shelf.new) result
        (N.seen notes.old) (N.seen notes.new) }
{
    let answer = give_asked(alloc, words, input, output, shelf);
    put_slab_note(notes, answer);
    answer.status()
}
