//! What the fields of a header say of the samples.
ghost use Rattle.std.specs.Prelude.{◌≡◌};
ghost use Rattle.nrrd_read.specs.Scanning.{get_field, seen_fields};
ghost use Rattle.nrrd_read.specs.Checks.{layout_of};

use crate::checks::{
    ask_dimension, ask_skip, ask_value, big_endian_of, encoding_of, kind_of, sizes_of,
};
use crate::encoding::Encoding;
use crate::header::Header;
use iso_base::{SampleKind, Sizes};
use refusals::{Field, NrrdFault};

/// How the samples are laid out.
#[derive(Clone, Copy)]
pub struct Layout {
    pub sizes: Sizes,
    pub kind: SampleKind,
    pub encoding: Encoding,
    /// Whether the high byte of a sample comes first.
    pub big_endian: bool,
}

/// What the fields say of the samples.
#[tactic(auto, unfolding(crate::specs::Checks::layout_of))]
pub fn read_layout(header: &Header<'_>) -> Result<Layout, NrrdFault>
    ensures { result ≡ layout_of (get_field (seen_fields header.now)) }
{
    let dimension = ask_value(header.dimension, Field::Dimension)?;
    let kind = ask_value(header.kind, Field::Kind)?;
    let sizes = ask_value(header.sizes, Field::Sizes)?;
    let encoding = ask_value(header.encoding, Field::Encoding)?;
    ask_dimension(dimension)?;
    let kind = kind_of(kind)?;
    let encoding = encoding_of(encoding)?;
    ask_skip(header.line_skip, Field::LineSkip)?;
    ask_skip(header.byte_skip, Field::ByteSkip)?;
    let sizes = sizes_of(sizes)?;
    let big_endian = big_endian_of(encoding.has_order(kind), header.endian)?;
    Ok(Layout {
        sizes,
        kind,
        encoding,
        big_endian,
    })
}
