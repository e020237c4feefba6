//! The words that ask for a slab, or for what the program tells of itself.

ghost use Rattle.std.specs.Prelude.{◌≡◌, ◌≤◌, IfSome, length, map, string_bytes};
ghost use Rattle.iso_base.specs.Volume.{IsSample};
ghost use Rattle.slab_command.specs.Words.{AreSound, IsSound, asked_by, asked_of, count_of, files_in, head_of, last_in, name_in, number_in, number_value, slab_in, write_of};

use crate::asked::{Asked, MOST_NUMBER, Slab, SlabFiles, SlabJob};
use arguments::{
    Found, are_options, format_in, level_in, only_options, pad_in, plain_word, value_of,
};
use mesh_walk::Numbering;
use program::{asks_help, asks_version};
use script::FileName;
use text_lines::digits;

const COMMANDS: [&[u8]; 3] = [b"count", b"write", b"head"];

const LEVEL: &[u8] = b"--level=";

const PAD: &[u8] = b"--pad=";

const FORMAT: &[u8] = b"--format=";

const FROM: &[u8] = b"--from=";

const LAST: &[u8] = b"--last";

const EDGES: &[u8] = b"--edges=";

const CENTRES: &[u8] = b"--centres=";

/// The most bytes of the name that those of the files begin with: the longest of these has ten more, and a name has 255 at most.
const NAME_BYTES: usize = 245;

/// The number of a text: 0, or digits of which the first is another one.
fn number(text: &[u8]) -> Option<u32>
    ensures value { result ≡ number_value text.now }
    ensures most { IfSome result (λ n. n ≤ 2147483647) }
{
    if let [b'0', _, ..] = text {
        return None;
    }
    let n = digits(text)?;
    if n <= MOST_NUMBER {
        Some(n as u32)
    } else {
        None
    }
}

/// The number of the option with this head `--name=`, which must be there.
fn number_in(words: &[String], head: &[u8]) -> Option<u32>
    ensures value { result ≡ number_in head.now (map string_bytes words.now) }
    ensures most { IfSome result (λ n. n ≤ 2147483647) }
{
    match value_of(words, head) {
        Found::Once(text) => number(text),
        _ => None,
    }
}

/// Whether the slab is the last one: whether the option that says so is there.
fn last_in(words: &[String]) -> Option<bool>
    ensures { result ≡ last_in (map string_bytes words.now) }
{
    match value_of(words, LAST) {
        Found::Nothing => Some(false),
        Found::Once([]) => Some(true),
        _ => None,
    }
}

/// The slab.
fn slab_in(words: &[String]) -> Option<Slab>
    ensures value { result ≡ slab_in (map string_bytes words.now) }
    ensures pad { IfSome result (λ slab. IfSome slab.pad IsSample) }
{
    let level = level_in(words)?;
    let pad = pad_in(words)?;
    let from = number_in(words, FROM)?;
    let is_last = last_in(words)?;
    Some(Slab {
        level,
        pad,
        from,
        is_last,
    })
}

/// What the names of the files begin with: the plain word.
fn name_in(words: &[String]) -> Option<FileName>
    ensures value { result ≡ name_in (map string_bytes words.now) }
    ensures few { IfSome result (λ name. length name ≤ 245) }
{
    let Found::Once(name) = plain_word(words) else {
        return None;
    };
    if name.len() > NAME_BYTES {
        return None;
    }
    FileName::new(name)
}

/// The files.
fn files_in(words: &[String]) -> Option<SlabFiles>
    ensures value { result ≡ files_in (map string_bytes words.now) }
    ensures sound { IfSome result AreSound }
{
    let name = name_in(words)?;
    let format = format_in(words)?;
    let first_edge = number_in(words, EDGES)?;
    let first_centre = number_in(words, CENTRES)?;
    Some(SlabFiles {
        format,
        numbers: Numbering {
            first_edge,
            first_centre,
        },
        name,
    })
}

#[tactic(auto, unfolding(crate::specs::Words::count_of))]
fn count(words: &[String]) -> Option<Asked>
    ensures value { result ≡ count_of (map string_bytes words.now) }
    ensures sound { IfSome result IsSound }
{
    if !are_options(words, &[LEVEL, PAD, FROM, LAST]) {
        return None;
    }
    let slab = slab_in(words)?;
    let job = SlabJob { slab, files: None };
    Some(Asked::Slab { job })
}

#[tactic(auto, unfolding(crate::specs::Words::write_of))]
fn write(words: &[String]) -> Option<Asked>
    ensures value { result ≡ write_of (map string_bytes words.now) }
    ensures sound { IfSome result IsSound }
{
    if !only_options(words, &[LEVEL, PAD, FROM, LAST, FORMAT, EDGES, CENTRES]) {
        return None;
    }
    let slab = slab_in(words)?;
    let files = files_in(words)?;
    let job = SlabJob {
        slab,
        files: Some(files),
    };
    Some(Asked::Slab { job })
}

fn head(words: &[String]) -> Option<Asked>
    ensures value { result ≡ head_of (map string_bytes words.now) }
    ensures sound { IfSome result IsSound }
{
    let [vertices, triangles] = words else {
        return None;
    };
    let vertices = number(vertices.as_bytes())?;
    let triangles = number(triangles.as_bytes())?;
    Some(Asked::Head {
        vertices,
        triangles,
    })
}

/// What a command and the words behind it ask for, where they are no question about the program.
fn read_command(words: &[String]) -> Option<Asked>
    ensures value { result ≡ asked_by (map string_bytes words.now) }
    ensures sound { IfSome result IsSound }
{
    let (command, words) = words.split_first()?;
    let command = command.as_bytes();
    if command == b"count".as_slice() {
        count(words)
    } else if command == b"write".as_slice() {
        write(words)
    } else if command == b"head".as_slice() {
        head(words)
    } else {
        None
    }
}

/// What the words ask for; none exactly where they are no command line. Options stand in any order, each at most once. The
/// words do not hold the program's name.
pub fn asked_of_words(words: &[String]) -> Option<Asked>
    ensures value { result ≡ asked_of (map string_bytes words.now) }
    ensures sound { IfSome result IsSound }
{
    if asks_help(words, &COMMANDS) {
        Some(Asked::Help)
    } else if asks_version(words) {
        Some(Asked::Version)
    } else {
        read_command(words)
    }
}
