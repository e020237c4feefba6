//! How samples are printed in a line.

ghost use Rattle.nrrd_text.specs.Forms.{PrintsNumbers};

use iso_base::SampleKind;

/// How samples are printed in a line, each by itself.
#[derive(Clone, Copy)]
pub(crate) enum Form {
    /// Numbers of any size, each behind a space.
    Numbers,
    /// Numbers that a byte can be, each behind a space: a look at a table for each.
    Bytes,
    /// The hex digits of the bytes of samples of a kind.
    Digits(SampleKind),
}

/// How the numbers of a kind's samples are printed.
pub(crate) fn numbers_of(kind: SampleKind) -> Form
    ensures { PrintsNumbers kind result }
{
    match kind {
        SampleKind::U8 => Form::Bytes,
        _ => Form::Numbers,
    }
}
