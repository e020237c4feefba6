//! What each program is asked about itself: the words that ask for help, those that ask for the version, and the version.
//! No call takes memory.

ghost use Rattle.std.specs.Prelude.{◌≡◌, ◌≤◌, bytes_eq, codes, length, map, string_bytes};
ghost use Rattle.program.specs.Questions.{asks_help, asks_version, is_among, version_line};

use arrayvec::ArrayString;

/// The version of the programs. CHANGELOG.md says what came with each.
const VERSION: &str = "1.1.0";

/// Whether a word is one of the commands.
fn is_among(command: &[u8], commands: &[&[u8]]) -> bool
    ensures { result ≡ is_among command.now (map (λ c. c.now) commands.now) }
{
    for known in commands {
        if command == *known {
            return true;
        }
    }
    false
}

fn is_help(word: &String) -> bool
    ensures { result ≡ bytes_eq (string_bytes word.now) (codes "--help") }
{
    word.as_bytes() == b"--help".as_slice()
}

/// Whether the words ask for help: they are `--help` alone, or one of these commands and then `--help`. The words do not
/// hold the program's name.
pub fn asks_help(words: &[String], commands: &[&[u8]]) -> bool
    ensures { result ≡ asks_help (map (λ c. c.now) commands.now) (map string_bytes words.now) }
{
    match words {
        [word] => is_help(word),
        [command, word] => is_among(command.as_bytes(), commands) && is_help(word),
        _ => false,
    }
}

/// Whether the words ask for the version: they are `--version` alone.
pub fn asks_version(words: &[String]) -> bool
    ensures { result ≡ asks_version (map string_bytes words.now) }
{
    match words {
        [word] => word.as_bytes() == b"--version".as_slice(),
        _ => false,
    }
}

/// The line that tells the version of the program of this name.
pub fn version_line(name: &str) -> ArrayString<32>
    requires { length name.now ≤ 20 }
    ensures { result.bytes ≡ version_line name.now }
{
    let mut text = ArrayString::new();
    text.push_str(name);
    text.push(' ');
    text.push_str(VERSION);
    text.push('\n');
    text
}
