//! The lines of measures.

ghost use Rattle.std.specs.Prelude.{◌≡◌, ◌++◌, ◌+◌, ◌≤◌};
ghost use Rattle.arrayvec.specs.ArrayString.{array_string_len};
ghost use Rattle.byte_streams.specs.Seen.{Puts};
ghost use Rattle.script.specs.Replies.{area_text, measure_line, measures_text, share_line};

use crate::text::{Text, put_counted, put_counted_signed};
use arrayvec::ArrayString;
use byte_streams::{Failed, Sink, gather, write_all_of};
use measure::Share;

fn head_text(count: usize) -> Text
    ensures { result.bytes ≡ measure_line count }
{
    let mut text = Text::new();
    put_counted("measure parts ", count as u64, &mut text);
    text.push('\n');
    text
}

/// Appends the three numbers of an area.
#[tactic(auto, unfolding(crate::specs::Replies::area_text))]
fn put_area(area: &[i128; 3], into: &mut Text)
    requires room { array_string_len into.old ≤ 80 }
    ensures text { into.new.bytes ≡ into.old.bytes ++ area_text area.now }
    ensures room { array_string_len into.new ≤ array_string_len into.old + 128 }
{
    put_counted_signed(" area ", area[0], into);
    put_counted_signed(" ", area[1], into);
    put_counted_signed(" ", area[2], into);
}

fn share_text(share: &Share) -> Text
    ensures { result.bytes ≡ share_line share.now }
{
    let mut text = Text::new();
    put_counted("part ", u64::from(share.least), &mut text);
    put_counted_signed(" six ", share.six, &mut text);
    put_area(&share.area, &mut text);
    put_counted(" border ", share.border, &mut text);
    text.push('\n');
    text
}

/// Appends the lines of measures: `measure parts` with the number of the parts, then for each share `part`, its least vertex,
/// `six`, `area` with three numbers, and `border`. The `ok` that ends the reply is not among them. `Failed` comes only
/// where the sink's count of faults rose; a front of the lines was then taken. Lines are written in blocks of 8 KiB.
pub fn put_measures<K: Sink>(sink: &mut K, shares: &[Share]) -> Result<(), Failed>
    ensures { Puts (K.seen sink.old) (K.seen sink.new) result (measures_text shares.now) }
{
    let mut waiting = ArrayString::new();
    waiting.push_str(head_text(shares.len()).as_str());
    for share in shares {
        gather(sink, &mut waiting, share_text(share).as_str())?;
    }
    write_all_of(sink, waiting.as_str().as_bytes())
}
