//! The words that ask for points, or for what the program tells of itself.

ghost use Rattle.std.specs.Prelude.{◌≡◌, map, string_bytes};
ghost use Rattle.point_command.specs.Words.{asked_of, level_of_option, level_of_text, level_of_two, points_level};

use iso_base::Level;
use program::{asks_help, asks_version};
use text_lines::level_number;

const LEVEL: &[u8] = b"--level=";

const COMMANDS: [&[u8]; 1] = [b"points"];

/// What the program is asked for.
#[derive(Clone, Copy)]
pub enum Asked {
    /// The points at a level.
    Points { level: Level },
    /// What the program can do.
    Help,
    /// Its version.
    Version,
}

/// The level of a text: a level number within the limit of levels.
fn level(text: &[u8]) -> Option<Level>
    ensures { result ≡ level_of_text text.now }
{
    Level::new(level_number(text)?)
}

/// The level of the option `--level=V`.
fn option_level(option: &[u8]) -> Option<Level>
    ensures { result ≡ level_of_option option.now }
{
    level(option.strip_prefix(LEVEL)?)
}

/// The level of two words.
fn level_of_two(command: &[u8], option: &[u8]) -> Option<Level>
    ensures { result ≡ level_of_two command.now option.now }
{
    if command == b"points".as_slice() {
        option_level(option)
    } else {
        None
    }
}

/// The level of the words `points --level=V`; none exactly where the words are others, or the level is none.
/// The words do not hold the program's name.
fn level_of_words(words: &[String]) -> Option<Level>
    ensures { result ≡ points_level (map string_bytes words.now) }
{
    let (command, words) = words.split_first()?;
    let (option, words) = words.split_first()?;
    match words.split_first() {
        None => level_of_two(command.as_bytes(), option.as_bytes()),
        Some(_) => None,
    }
}

/// What the words ask for; none exactly where they are others.
pub fn asked_of_words(words: &[String]) -> Option<Asked>
    ensures { result ≡ asked_of (map string_bytes words.now) }
{
    if asks_help(words, &COMMANDS) {
        Some(Asked::Help)
    } else if asks_version(words) {
        Some(Asked::Version)
    } else {
        let level = level_of_words(words)?;
        Some(Asked::Points { level })
    }
}
