//! Samples put behind what waits, which is written where there is no room for them.

ghost use Rattle.std.specs.Prelude.{◌≡◌, ◌+◌, ◌*◌, ◌^◌, ◌<◌, ◌≤◌, ◌⊎◌, ◌∷◌, ◌++◌, [], All, IfOk, flat_map, length, map};
ghost use Rattle.std.specs.Fmt.{signed_decimal};
ghost use Rattle.iso_defs.specs.Bytes.{line_feed};
ghost use Rattle.byte_streams.specs.Seen.{Stages};
ghost use Rattle.nrrd_text.specs.Forms.{IsOfForm, printed};

use crate::forms::Form;
use crate::sample_lines::SampleLines;
use byte_streams::{Failed, Sink, write_all_of};
use number_digits::Digits;
use samples::Packed;

/// The samples that are appended at once: one test finds whether there is room for all of them.
const PIECE_SAMPLES: usize = 256;

/// The first samples of a row, and the others.
fn next_piece<T: Packed>(values: &[T]) -> (&[T], &[T])
    ensures parts { values.now ≡ result.0.now ++ result.1.now }
    ensures few { length result.0.now ≤ 256 }
    ensures fewer { (values.now ≡ []) ⊎ (length result.1.now < length values.now) }
{
    values.split_at(values.len().min(PIECE_SAMPLES))
}

/// Writes what waits.
fn write_waiting<K: Sink>(sink: &mut K, waiting: &mut SampleLines) -> Result<(), Failed>
    ensures staged { Stages (K.seen sink.old) (K.seen sink.new) waiting.old waiting.new result [] }
    ensures none { IfOk result (λ _. waiting.new ≡ []) }
{
    write_all_of(sink, waiting.as_bytes())?;
    waiting.clear();
    Ok(())
}

/// Makes room for so many samples.
fn make_room<K: Sink>(sink: &mut K, waiting: &mut SampleLines, samples: usize) -> Result<(), Failed>
    requires { samples ≤ 256 }
    ensures staged { Stages (K.seen sink.old) (K.seen sink.new) waiting.old waiting.new result [] }
    ensures room { IfOk result (λ _. length waiting.new + 24 * samples ≤ 32768) }
{
    if waiting.has_room(samples) {
        return Ok(());
    }
    write_waiting(sink, waiting)
}

/// Puts the end of a line behind what waits.
pub(crate) fn gather_end<K: Sink>(sink: &mut K, waiting: &mut SampleLines) -> Result<(), Failed>
    ensures { Stages (K.seen sink.old) (K.seen sink.new) waiting.old waiting.new result (line_feed ∷ []) }
{
    make_room(sink, waiting, 1)?;
    waiting.push_end();
    Ok(())
}

/// Puts the first number of a line behind what waits, and says how many bytes it has.
pub(crate) fn gather_first<K: Sink, D: Digits>(
    sink: &mut K,
    waiting: &mut SampleLines,
    digits: &D,
    value: i64,
) -> Result<u64, Failed>
    ensures staged { Stages (K.seen sink.old) (K.seen sink.new) waiting.old waiting.new result (signed_decimal value) }
    ensures bytes { IfOk result (λ n. n ≡ length (signed_decimal value)) }
    ensures few { IfOk result (λ n. n ≤ 24) }
{
    make_room(sink, waiting, 1)?;
    let before = waiting.len();
    waiting.push_first(digits, value);
    Ok((waiting.len() - before) as u64)
}

/// Puts some samples in print behind what waits, and says how many bytes they have.
fn gather_piece<K: Sink, D: Digits, T: Packed>(
    sink: &mut K,
    waiting: &mut SampleLines,
    digits: &D,
    form: Form,
    values: &[T],
) -> Result<u64, Failed>
    requires form { All (IsOfForm form) (map T.value values.now) }
    requires room { length values.now ≤ 256 }
    ensures staged { Stages (K.seen sink.old) (K.seen sink.new) waiting.old waiting.new result
        (flat_map (printed form) (map T.value values.now)) }
    ensures bytes { IfOk result (λ n. n ≡ length (flat_map (printed form) (map T.value values.now))) }
    ensures few { IfOk result (λ n. n ≤ 24 * length values.now) }
{
    make_room(sink, waiting, values.len())?;
    let before = waiting.len();
    waiting.push(digits, form, values);
    Ok((waiting.len() - before) as u64)
}

/// Puts samples in print behind what waits.
pub(crate) fn gather_samples<K: Sink, D: Digits, T: Packed>(
    sink: &mut K,
    waiting: &mut SampleLines,
    digits: &D,
    form: Form,
    values: &[T],
) -> Result<(), Failed>
    requires { All (IsOfForm form) (map T.value values.now) }
    ensures { Stages (K.seen sink.old) (K.seen sink.new) waiting.old waiting.new result
        (flat_map (printed form) (map T.value values.now)) }
{
    let mut rest = values;
    while !rest.is_empty() {
        let (piece, others) = next_piece(rest);
        gather_piece(sink, waiting, digits, form, piece)?;
        rest = others;
    }
    Ok(())
}

/// Appends samples to those that wait, as `gather` does, and says how many bytes they have.
pub(crate) fn gather_counted<K: Sink, D: Digits, T: Packed>(
    sink: &mut K,
    waiting: &mut SampleLines,
    digits: &D,
    form: Form,
    values: &[T],
) -> Result<u64, Failed>
    requires form { All (IsOfForm form) (map T.value values.now) }
    requires few { length values.now ≤ 2 ^ 32 }
    ensures samples { Stages (K.seen sink.old) (K.seen sink.new) waiting.old waiting.new result
        (flat_map (printed form) (map T.value values.now)) }
    ensures bytes { IfOk result (λ n. n ≡ length (flat_map (printed form) (map T.value values.now))) }
    ensures bound { IfOk result (λ n. n ≤ 24 * length values.now) }
{
    let mut bytes = 0u64;
    let mut rest = values;
    while !rest.is_empty() {
        let (piece, others) = next_piece(rest);
        bytes += gather_piece(sink, waiting, digits, form, piece)?;
        rest = others;
    }
    Ok(bytes)
}
