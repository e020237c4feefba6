//! Which request the words are.

ghost use Rattle.std.specs.Prelude.{◌≡◌, ◌≤◌, map, string_bytes, IfSome};
ghost use Rattle.iso_base.specs.Volume.{IsSample};
ghost use Rattle.arguments.specs.Words.{level_value, pad_value, format_value, count_value, sizes_value, level_in, pad_in, format_in, bricks_in, pages_in, sizes_in, points_of, extract_of, session_of, check_of, gen_of, soak_of, command_of, request_of, HasSamplePad, HasCapacity};

use crate::options::{Found, are_options, only_options, plain_word, value_of};
use crate::request::Request;
use iso_base::{Level, Sizes};
use mesh_text::TwoWayFormat;
use program::{asks_help, asks_version};
use script::{FileName, count};
use text_lines::{level_number, number, whole};

const COMMANDS: [&[u8]; 6] = [b"points", b"extract", b"session", b"check", b"gen", b"soak"];

const LEVEL: &[u8] = b"--level=";

const PAD: &[u8] = b"--pad=";

const FORMAT: &[u8] = b"--format=";

const BRICKS: &[u8] = b"--bricks=";

const PAGES: &[u8] = b"--pages=";

/// The level of a text: a level number within the limit of levels.
fn level(text: &[u8]) -> Option<Level>
    ensures { result ≡ level_value text.now }
{
    Level::new(level_number(text)?)
}

/// The pad of a text: a number from -2^31 to 2^32 - 1.
fn pad(text: &[u8]) -> Option<i64>
    ensures value { result ≡ pad_value text.now }
    ensures range { IfSome result IsSample }
{
    let pad = number(text)?;
    if -2_147_483_648 <= pad && pad <= 4_294_967_295 {
        Some(pad)
    } else {
        None
    }
}

/// The form of meshes that a text names.
fn format(text: &[u8]) -> Option<TwoWayFormat>
    ensures { result ≡ format_value text.now }
{
    if text == b"ply".as_slice() {
        Some(TwoWayFormat::Ply)
    } else if text == b"obj".as_slice() {
        Some(TwoWayFormat::Obj)
    } else {
        None
    }
}

/// The count of a text, from one number to another.
fn count_within(text: &[u8], least: u32, most: u32) -> Option<u32>
    ensures value { result ≡ count_value least most text.now }
    ensures least { IfSome result (λ n. least ≤ n) }
    ensures most { IfSome result (λ n. n ≤ most) }
{
    let n = count(text)?;
    if least <= n && n <= most {
        Some(n)
    } else {
        None
    }
}

/// The sizes of three texts, samples along x, y and z.
fn sizes(x: &[u8], y: &[u8], z: &[u8]) -> Option<Sizes>
    ensures { result ≡ sizes_value x.now y.now z.now }
{
    Sizes::new(whole(x)?, whole(y)?, whole(z)?).ok()
}

/// The sizes of words that are three.
fn sizes_in(words: &[String]) -> Option<Sizes>
    ensures { result ≡ sizes_in (map string_bytes words.now) }
{
    let (x, words) = words.split_first()?;
    let (y, words) = words.split_first()?;
    let (z, words) = words.split_first()?;
    match words.split_first() {
        None => sizes(x.as_bytes(), y.as_bytes(), z.as_bytes()),
        Some(_) => None,
    }
}

/// The level, which must be there.
pub fn level_in(words: &[String]) -> Option<Level>
    ensures { result ≡ level_in (map string_bytes words.now) }
{
    match value_of(words, LEVEL) {
        Found::Once(text) => level(text),
        _ => None,
    }
}

/// The pad, which may be left out: then there is none.
pub fn pad_in(words: &[String]) -> Option<Option<i64>>
    ensures value { result ≡ pad_in (map string_bytes words.now) }
    ensures range { IfSome result (λ pad. IfSome pad IsSample) }
{
    match value_of(words, PAD) {
        Found::Nothing => Some(None),
        Found::Once(text) => Some(Some(pad(text)?)),
        Found::Again => None,
    }
}

/// The form of the mesh, which may be left out: then it is PLY.
pub fn format_in(words: &[String]) -> Option<TwoWayFormat>
    ensures { result ≡ format_in (map string_bytes words.now) }
{
    match value_of(words, FORMAT) {
        Found::Nothing => Some(TwoWayFormat::Ply),
        Found::Once(text) => format(text),
        Found::Again => None,
    }
}

/// How many bricks may keep their mesh; 4,096 where that is left out.
fn bricks_in(words: &[String]) -> Option<u32>
    ensures value { result ≡ bricks_in (map string_bytes words.now) }
    ensures least { IfSome result (λ n. 1 ≤ n) }
    ensures most { IfSome result (λ n. n ≤ 65536) }
{
    match value_of(words, BRICKS) {
        Found::Nothing => Some(4096),
        Found::Once(text) => count_within(text, 1, 65_536),
        Found::Again => None,
    }
}

/// In how many pages; 65,536 where that is left out.
fn pages_in(words: &[String]) -> Option<u32>
    ensures value { result ≡ pages_in (map string_bytes words.now) }
    ensures least { IfSome result (λ n. 16 ≤ n) }
    ensures most { IfSome result (λ n. n ≤ 1048576) }
{
    match value_of(words, PAGES) {
        Found::Nothing => Some(65_536),
        Found::Once(text) => count_within(text, 16, 1_048_576),
        Found::Again => None,
    }
}

#[tactic(auto, unfolding(crate::specs::Words::points_of))]
fn points(words: &[String]) -> Option<Request>
    ensures value { result ≡ points_of (map string_bytes words.now) }
    ensures pads { IfSome result HasSamplePad }
    ensures capacity { IfSome result HasCapacity }
{
    if !are_options(words, &[LEVEL]) {
        return None;
    }
    let level = level_in(words)?;
    Some(Request::Points { level })
}

#[tactic(auto, unfolding(crate::specs::Words::extract_of))]
fn extract(words: &[String]) -> Option<Request>
    ensures value { result ≡ extract_of (map string_bytes words.now) }
    ensures pads { IfSome result HasSamplePad }
    ensures capacity { IfSome result HasCapacity }
{
    if !are_options(words, &[LEVEL, PAD, FORMAT]) {
        return None;
    }
    let level = level_in(words)?;
    let pad = pad_in(words)?;
    let format = format_in(words)?;
    Some(Request::Extract { level, pad, format })
}

#[tactic(auto, unfolding(crate::specs::Words::session_of))]
fn session(words: &[String]) -> Option<Request>
    ensures value { result ≡ session_of (map string_bytes words.now) }
    ensures pads { IfSome result HasSamplePad }
    ensures capacity { IfSome result HasCapacity }
{
    if !only_options(words, &[LEVEL, PAD, BRICKS, PAGES]) {
        return None;
    }
    let Found::Once(name) = plain_word(words) else {
        return None;
    };
    let name = FileName::new(name)?;
    let level = level_in(words)?;
    let pad = pad_in(words)?;
    let bricks = bricks_in(words)?;
    let pages = pages_in(words)?;
    Some(Request::Session {
        level,
        pad,
        name,
        bricks,
        pages,
    })
}

#[tactic(auto, unfolding(crate::specs::Words::check_of))]
fn check(words: &[String]) -> Option<Request>
    ensures value { result ≡ check_of (map string_bytes words.now) }
    ensures pads { IfSome result HasSamplePad }
    ensures capacity { IfSome result HasCapacity }
{
    if !only_options(words, &[]) {
        return None;
    }
    let Found::Once(word) = plain_word(words) else {
        return None;
    };
    let format = format(word)?;
    Some(Request::Check { format })
}

#[tactic(auto, unfolding(crate::specs::Words::gen_of))]
fn generation(words: &[String]) -> Option<Request>
    ensures value { result ≡ gen_of (map string_bytes words.now) }
    ensures pads { IfSome result HasSamplePad }
    ensures capacity { IfSome result HasCapacity }
{
    if !only_options(words, &[]) {
        return None;
    }
    let (seed, words) = words.split_first()?;
    let seed = whole(seed.as_bytes())?;
    let sizes = sizes_in(words)?;
    Some(Request::Gen { seed, sizes })
}

#[tactic(auto, unfolding(crate::specs::Words::soak_of))]
fn soak(words: &[String]) -> Option<Request>
    ensures value { result ≡ soak_of (map string_bytes words.now) }
    ensures pads { IfSome result HasSamplePad }
    ensures capacity { IfSome result HasCapacity }
{
    if !only_options(words, &[]) {
        return None;
    }
    let Found::Once(word) = plain_word(words) else {
        return None;
    };
    let seed = whole(word)?;
    Some(Request::Soak { seed })
}

/// What a command and the words behind it ask for, where they are no question about the program.
#[tactic(auto, unfolding(crate::specs::Words::command_of))]
fn read_command(words: &[String]) -> Option<Request>
    ensures value { result ≡ command_of (map string_bytes words.now) }
    ensures pads { IfSome result HasSamplePad }
    ensures capacity { IfSome result HasCapacity }
{
    let (command, words) = words.split_first()?;
    let command = command.as_bytes();
    if command == b"points".as_slice() {
        points(words)
    } else if command == b"extract".as_slice() {
        extract(words)
    } else if command == b"session".as_slice() {
        session(words)
    } else if command == b"check".as_slice() {
        check(words)
    } else if command == b"gen".as_slice() {
        generation(words)
    } else if command == b"soak".as_slice() {
        soak(words)
    } else {
        None
    }
}

/// What the words ask for; none exactly where they are no command line. `--help`, alone or behind a command, asks for help,
/// and `--version` alone for the version. Else the first word is the command. A later word that begins with `-` is an option
/// `--name=value`, in any order, each at most once; all others are plain words. The words do not hold the program's name.
#[tactic(auto, unfolding(crate::specs::Words::request_of))]
pub fn read_words(words: &[String]) -> Option<Request>
    ensures value { result ≡ request_of (map string_bytes words.now) }
    ensures pads { IfSome result HasSamplePad }
    ensures capacity { IfSome result HasCapacity }
{
    if asks_help(words, &COMMANDS) {
        Some(Request::Help)
    } else if asks_version(words) {
        Some(Request::Version)
    } else {
        read_command(words)
    }
}
