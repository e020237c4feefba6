//! Contour lines as text.

ghost use Rattle.std.specs.Prelude.{◌≡◌, ◌+◌, ◌*◌, ◌<◌, ◌≤◌, ◌^◌, ◌++◌, All, length, unsigned_abs};
ghost use Rattle.arrayvec.specs.ArrayString.{array_string_len};
ghost use Rattle.iso_defs.specs.Texts.{decimal_text};
ghost use Rattle.byte_streams.specs.Seen.{Puts, Stages};
ghost use Rattle.plane_contour.specs.Texts.{IsNear, contours_text, head_line, line_text, point_line, points_text, printed_coordinate};

use crate::line::{Contours, Line};
use arrayvec::ArrayString;
use byte_streams::{Failed, LINES, Sink, gather, write_all_of};
use iso_base::{EdgeName, PAD_SHIFT, Thousandth, put_decimal};
use number_digits::put_number;

/// Appends the text of contour lines: for each the line `cycle N` or `path N`, and for each of its N points the line
/// `X Y`. Coordinates have three decimals; with a pad, the pad's layer is taken off each. `Failed` comes only where the
/// sink's count rose; a front of the text was then taken. Lines are written in blocks of 8 KiB.
pub fn put_contours<K: Sink>(sink: &mut K, lines: &Contours, padded: bool) -> Result<(), Failed>
    ensures { Puts (K.seen sink.old) (K.seen sink.new) result (contours_text padded lines.now) }
{
    let mut waiting = ArrayString::new();
    for line in lines.lines() {
        gather_line(sink, &mut waiting, line, padded)?;
    }
    write_all_of(sink, waiting.as_str().as_bytes())
}

fn gather_line<K: Sink>(
    sink: &mut K,
    waiting: &mut ArrayString<LINES>,
    line: &Line,
    padded: bool,
) -> Result<(), Failed>
    ensures { Stages (K.seen sink.old) (K.seen sink.new) waiting.old.bytes waiting.new.bytes result
        (line_text padded line.now) }
{
    gather(sink, waiting, head_text(line).as_str())?;
    gather_points(sink, waiting, line.points(), padded)
}

fn gather_points<K: Sink>(
    sink: &mut K,
    waiting: &mut ArrayString<LINES>,
    points: &[(EdgeName, Thousandth, Thousandth)],
    padded: bool,
) -> Result<(), Failed>
    requires { All IsNear points.now }
    ensures { Stages (K.seen sink.old) (K.seen sink.new) waiting.old.bytes waiting.new.bytes result
        (points_text padded points.now) }
{
    for point in points {
        gather(sink, waiting, point_text(point, padded).as_str())?;
    }
    Ok(())
}

fn head_text(line: &Line) -> ArrayString<32>
    ensures { result.bytes ≡ head_line line.now }
{
    let mut text = ArrayString::new();
    text.push_str(if line.cycle() { "cycle " } else { "path " });
    put_number(line.points().len(), &mut text);
    text.push('\n');
    text
}

fn point_text(point: &(EdgeName, Thousandth, Thousandth), padded: bool) -> ArrayString<40>
    requires { IsNear point.now }
    ensures { result.bytes ≡ point_line padded point.now }
{
    let mut text = ArrayString::new();
    put_coordinate(point.1, padded, &mut text);
    text.push(' ');
    put_coordinate(point.2, padded, &mut text);
    text.push('\n');
    text
}

fn put_coordinate(value: Thousandth, padded: bool, into: &mut ArrayString<40>)
    requires near { unsigned_abs value.0 < 2 ^ 32 }
    requires room { array_string_len into.old + 16 ≤ 40 }
    ensures text { into.new.bytes ≡ into.old.bytes ++ decimal_text (printed_coordinate padded value.0) }
    ensures room { array_string_len into.new ≤ array_string_len into.old + 16 }
{
    let printed = if padded { value.0 - PAD_SHIFT } else { value.0 };
    let mut digits = ArrayString::new();
    put_decimal(Thousandth(printed), &mut digits);
    into.push_str(digits.as_str());
}
