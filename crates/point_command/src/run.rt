//! All that the program of points alone does.

ghost use Rattle.std.specs.Prelude.{map, string_bytes};
ghost use Rattle.byte_streams.specs.Seen.{ReadsWithin};
ghost use Rattle.command_terms.specs.Outcome.{streams_between};
ghost use Rattle.point_command.specs.Promise.{RunsPoints};
ghost use Rattle.point_command.specs.Running.{Gives, GivesPoints};
ghost use Rattle.command_terms.specs.Volumes.{volume_limit};

use crate::crossings::points;
use crate::help::{help_text, version_text};
use crate::words::{Asked, asked_of_words};
use byte_streams::{Sink, Source};
use command_terms::tell;
use program::{Answer, Status, put_note};
use std::alloc::Global;

/// Does what is asked for.
fn give<S: Source, K: Sink>(alloc: Global, asked: Asked, input: &mut S, output: &mut K) -> Answer
    ensures gives { Gives asked (streams_between S.seen K.seen input.old input.new output.old output.new) result }
    ensures reading { ReadsWithin volume_limit (S.seen input.old) (S.seen input.new) }
{
    match asked {
        Asked::Points { level } => points(alloc, level, input, output),
        Asked::Help => tell(help_text(), output),
        Asked::Version => tell(version_text().as_str(), output),
    }
}

/// Does what the words ask for.
fn give_points<S: Source, K: Sink>(
    alloc: Global,
    words: &[String],
    input: &mut S,
    output: &mut K,
) -> Answer
    ensures gives { GivesPoints (map string_bytes words.now)
        (streams_between S.seen K.seen input.old input.new output.old output.new) result }
    ensures reading { ReadsWithin volume_limit (S.seen input.old) (S.seen input.new) }
{
    match asked_of_words(words) {
        None => Answer::BadWords,
        Some(asked) => give(alloc, asked, input, output),
    }
}

/// Writes the points that the words `points --level=V` ask for, and says by which status it ends; every status but `Done` puts
/// its line into `notes`, whose failure changes nothing else. The words `--help`, `points --help` and `--version` are answered by
/// a text, and all others are bad ones.
///
/// `words` are those after the program's name. The volume is read from `input`; its points are appended to `output`.
///
/// All that it promises is `RunsPoints` in `specs/Promise.antt`.
pub fn run_points<S: Source, K: Sink, N: Sink>(
    alloc: Global,
    words: &[String],
    input: &mut S,
    output: &mut K,
    notes: &mut N,
) -> Status
    ensures run { RunsPoints (map string_bytes words.now)
        (streams_between S.seen K.seen input.old input.new output.old output.new) result (N.seen notes.old)
        (N.seen notes.new) }
{
    let answer = give_points(alloc, words, input, output);
    put_note(notes, &answer);
    answer.status()
}
