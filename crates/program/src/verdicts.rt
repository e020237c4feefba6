//! The line of a verdict.

ghost use Rattle.std.specs.Prelude.{◌≡◌, ◌++◌, ◌≤◌};
ghost use Rattle.arrayvec.specs.ArrayString.{array_string_len};
ghost use Rattle.program.specs.Verdicts.{verdict_text, verdict_words};

use crate::parts::{put_counted, put_counted_twice};
use arrayvec::ArrayString;
use iso_base::Verdict;

#[tactic(auto, unfolding(crate::specs::Verdicts::verdict_words))]
fn words_of(verdict: Verdict) -> ArrayString<128>
    ensures text { result.bytes ≡ verdict_words verdict }
    ensures room { array_string_len result ≤ 101 }
{
    let mut text = ArrayString::new();
    match verdict {
        Verdict::Closed => text.push_str("closed"),
        Verdict::Border { edges } => put_counted("border ", u64::from(edges), &mut text),
        Verdict::RepeatedCorner { t } => put_counted("repeated corner ", u64::from(t), &mut text),
        Verdict::EdgeTwice { a, b } => {
            put_counted_twice("edge twice ", u64::from(a), u64::from(b), &mut text)
        }
        Verdict::SplitVertex { v } => put_counted("split vertex ", u64::from(v), &mut text),
    }
    text
}

/// The line that a verdict is told by. Triangles and vertices are counted from 0.
pub fn verdict_line(verdict: Verdict) -> ArrayString<128>
    ensures { result.bytes ≡ verdict_text verdict }
{
    let mut text = words_of(verdict);
    text.push('\n');
    text
}
