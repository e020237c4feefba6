//! Samples as decimal numbers.
ghost use Rattle.std.specs.Prelude.{◌≡◌, ◌≤◌, ◌+◌, ◌*◌, false, length, Ok, IfOk, IfErr, IfSome, All};
ghost use Rattle.iso_base.specs.Volume.{IsOfKind, width_of};
ghost use Rattle.text_samples.specs.Answers.{Fails};
ghost use Rattle.text_samples.specs.Gathered.{IsReadInto};
ghost use Rattle.iso_base.specs.SampleBytes.{samples_in};
ghost use Rattle.text_samples.specs.Text.{sample_said, text_samples};

use crate::fault::SampleFault;
use crate::targets::Gather;
use crate::words::next_word;
use iso_base::SampleKind;
use std::alloc::Global;
use text_lines::number;

/// The sample that a word says: a number in the kind's range.
#[inline(always)]
#[tactic(auto, unfolding(crate::specs::Text::sample_said))]
fn sample(word: &[u8], kind: SampleKind) -> Option<i64>
    ensures value { result ≡ sample_said kind word.now }
    ensures range { IfSome result (IsOfKind kind) }
{
    let value = number(word)?;
    if kind.least() <= value && value <= kind.greatest() {
        Some(value)
    } else {
        None
    }
}

/// Reads so many samples from a text, and gives the number of bytes after the last of its words beside them.
fn gather<G: Gather>(
    alloc: Global,
    bytes: &[u8],
    kind: SampleKind,
    count: u64,
) -> Result<(G, u64), SampleFault>
    requires some { 1 ≤ count }
    requires limit { count ≤ 160000000 }
    ensures ok { IfOk result (λ r. IsReadInto (G.Holds r.0 kind) kind count (text_samples kind count bytes.now) r.1) }
    ensures err { IfErr result (λ fault. Fails fault (text_samples kind count bytes.now)) }
{
    let room = (bytes.len() / 2 + 1).min(count as usize);
    let mut samples = G::with_room(alloc, kind, room)?;
    let mut rest = bytes;
    for place in 0..count {
        let Some((word, after)) = next_word(rest) else {
            return Err(SampleFault::Short {
                needed: count,
                present: place,
            });
        };
        let Some(value) = sample(word, kind) else {
            return Err(SampleFault::Bad { place });
        };
        samples.add(kind, value)?;
        rest = after;
    }
    Ok((samples, rest.len() as u64))
}

/// Reads so many samples from a text: the first words between separators, each a number in the range of the kind. Beside them
/// it gives the number of bytes after the last of these words. A separator is a space, a tab, a line feed, a vertical tab,
/// a form feed, a return or a comma.
///
/// `Bad` comes where one of these words is no such number, with the place of the first; else `Short` where there are too
/// few words, with how many are needed and how many there are. `Memory` may come at any word, and memory is asked for
/// once, for the samples that the text has room for.
pub fn read_text(
    alloc: Global,
    bytes: &[u8],
    kind: SampleKind,
    count: u64,
) -> Result<(Vec<i64>, u64), SampleFault>
    requires some { 1 ≤ count }
    requires limit { count ≤ 160000000 }
    ensures ok { IfOk result (λ r. text_samples kind count bytes.now ≡ Ok (r.0.items, r.1)) }
    ensures each { IfOk result (λ r. All (IsOfKind kind) r.0.items) }
    ensures number { IfOk result (λ r. length r.0.items ≡ count) }
    ensures err { IfErr result (λ fault. Fails fault (text_samples kind count bytes.now)) }
{
    gather(alloc, bytes, kind, count)
}

/// Reads samples as `read_text` does, into their bytes: 1, 2 or 4 each, as the kind has, the low byte first.
pub fn read_text_bytes(
    alloc: Global,
    bytes: &[u8],
    kind: SampleKind,
    count: u64,
) -> Result<(Vec<u8>, u64), SampleFault>
    requires some { 1 ≤ count }
    requires limit { count ≤ 160000000 }
    ensures ok { IfOk result (λ r. text_samples kind count bytes.now
        ≡ Ok (samples_in kind false r.0.items count, r.1)) }
    ensures size { IfOk result (λ r. length r.0.items ≡ width_of kind * count) }
    ensures err { IfErr result (λ fault. Fails fault (text_samples kind count bytes.now)) }
{
    gather(alloc, bytes, kind, count)
}
