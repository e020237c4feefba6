//! Rows of samples in print, gathered with others before they are written.
ghost use Rattle.std.specs.Prelude.{◌≡◌, ◌+◌, ◌*◌, ◌^◌, ◌≤◌, All, IfOk, length, map};
ghost use Rattle.byte_streams.specs.Seen.{Stages};
ghost use Rattle.iso_base.specs.Volume.{IsOfKind};
ghost use Rattle.nrrd_text.specs.Writing.{hex_line, text_line};

use crate::forms::{Form, numbers_of};
use crate::pieces::{gather_counted, gather_end, gather_first, gather_samples};
use crate::sample_lines::SampleLines;
use byte_streams::{Failed, Sink};
use iso_base::SampleKind;
use number_digits::{Counted, Digits};
use samples::Packed;

/// Puts a line of samples as numbers, one space between two, behind what waits, and says how many bytes it has. What waits is written
/// where there is no room, and by the caller at the end. After `Failed` the sink has taken a front of what waited and the
/// line, and its count of faults rose. No memory is taken.
pub fn gather_text<K: Sink, D: Digits, T: Packed>(
    sink: &mut K,
    waiting: &mut SampleLines,
    digits: &D,
    kind: SampleKind,
    values: &[T],
) -> Result<u64, Failed>
    requires each { All (IsOfKind kind) (map T.value values.now) }
    requires few { length values.now ≤ 2 ^ 32 }
    ensures line { Stages (K.seen sink.old) (K.seen sink.new) waiting.old waiting.new result
        (text_line (map T.value values.now)) }
    ensures bytes { IfOk result (λ n. n ≡ length (text_line (map T.value values.now))) }
    ensures bound { IfOk result (λ n. n ≤ 24 * length values.now + 1) }
{
    let Some((first, others)) = values.split_first() else {
        gather_end(sink, waiting)?;
        return Ok(1);
    };
    let first = gather_first(sink, waiting, digits, first.sample())?;
    let bytes = gather_counted(sink, waiting, digits, numbers_of(kind), others)?;
    gather_end(sink, waiting)?;
    Ok(first + bytes + 1)
}

/// Puts a line of samples as hex digits, as `put_hex` writes it, behind what waits, and says how many bytes it has. What
/// waits is written as by `gather_text`.
pub fn gather_hex<K: Sink, T: Packed>(
    sink: &mut K,
    waiting: &mut SampleLines,
    kind: SampleKind,
    values: &[T],
) -> Result<u64, Failed>
    requires each { All (IsOfKind kind) (map T.value values.now) }
    requires few { length values.now ≤ 2 ^ 32 }
    ensures line { Stages (K.seen sink.old) (K.seen sink.new) waiting.old waiting.new result
        (hex_line kind (map T.value values.now)) }
    ensures bytes { IfOk result (λ n. n ≡ length (hex_line kind (map T.value values.now))) }
    ensures bound { IfOk result (λ n. n ≤ 24 * length values.now + 1) }
{
    gather_samples(sink, waiting, &Counted, Form::Digits(kind), values)?;
    gather_end(sink, waiting)?;
    Ok(2 * u64::from(kind.width()) * values.len() as u64 + 1)
}
