//! The formats of meshes that are both read and written.
//!
//! Why: DECISIONS.md, "Formats of meshes are two enums".

use iso_base::MeshFormat;

/// A format of meshes that is both read and written: what `extract` and sessions write, `check` reads.
#[derive(Clone, Copy, Debug, PartialEq, Eq)]
pub enum TwoWayFormat {
    /// ASCII PLY 1.0, whose faces count vertices from 0.
    Ply,
    /// Wavefront OBJ, whose faces count vertices from 1.
    Obj,
}

impl From<TwoWayFormat> for MeshFormat {
    ghost use Rattle.std.specs.Prelude.{◌≡◌};
    ghost use Rattle.mesh_text.specs.Formats.{mesh_format};

    ghost from_gives = { λ format among_all. among_all ≡ mesh_format format };

    /// The same format, among all in which meshes are written.
    fn from(format: TwoWayFormat) -> MeshFormat {
        match format {
            TwoWayFormat::Ply => MeshFormat::Ply,
            TwoWayFormat::Obj => MeshFormat::Obj,
        }
    }
}
