//! The mesh of a volume at a level, from which its text is written.
ghost use Rattle.std.specs.Prelude.{◌≡◌, All, IfOk, length};
ghost use Rattle.iso_defs.specs.Grid.{point_count};
ghost use Rattle.iso_base.specs.Volume.{IsSample};
ghost use Rattle.byte_streams.specs.Seen.{Puts};
ghost use Rattle.flat_mesh.specs.Lattice.{heights};
ghost use Rattle.flat_mesh.specs.Mesh.{mesh_of};
ghost use Rattle.mesh_lines.specs.Lines.{text_of, written_of};

use byte_streams::{Failed, Sink};
use edge_points::RowRanks;
use iso_base::{Level, Memory, Sizes, Written};
use mesh_lines::Style;
use mesh_walk::write_mesh;
use sample_rows::ListRows;
use samples::Samples;
use std::alloc::Global;
use std::marker::Model;

/// The mesh of a volume at a level that is never held: the rows of the volume, and room for a number for each. Contracts see the
/// grid, the samples and the level.
#[derive(Drop)]
pub struct ListMesh<'a, S: Samples> {
    rows: ListRows<'a, S>,
    ranks: RowRanks,
}

impl<'a, S: Samples> Model for ListMesh<'a, S> {
    ghost use Rattle.std.specs.Prelude.{◌≡◌};
    ghost use Rattle.flat_mesh.specs.Lattice.{Leveled};

    ghost Value = { Leveled };

    ghost view = { λ m. m.rows };

    ghost invariant = { λ m. m.ranks.grid ≡ m.rows.grid };
}

impl<'a, S: Samples> ListMesh<'a, S> {
    /// The mesh of a volume at a level, from its sizes and its samples.
    pub fn of(
        alloc: Global,
        sizes: Sizes,
        samples: &'a S,
        level: Level,
    ) -> Result<ListMesh<'a, S>, Memory>
        requires count { length (S.list samples.now) ≡ point_count sizes }
        requires samples { All IsSample (S.list samples.now) }
        ensures { IfOk result (λ m. m ≡ record { grid = sizes; samples = S.list samples.now; level = level }) }
    {
        let ranks = RowRanks::new(alloc, &sizes)?;
        let rows = ListRows::of(alloc, sizes, samples, level)?;
        Ok(ListMesh { rows, ranks })
    }

    /// Appends the text of the mesh in a style, and says how many vertices, faces and bytes were written. No memory is taken. `Failed`
    /// comes only where the sink's count rose; a front of the text was then taken.
    pub fn write<K: Sink>(&mut self, style: Style, sink: &mut K) -> Result<Written, Failed>
        ensures text { let mesh = mesh_of self.old.grid (heights self.old) in
            Puts (K.seen sink.old) (K.seen sink.new) result (text_of style mesh) }
        ensures written { let mesh = mesh_of self.old.grid (heights self.old) in
            IfOk result (λ w. w ≡ written_of style mesh) }
        ensures volume { self.new ≡ self.old }
    {
        write_mesh(&mut self.rows, style, &mut self.ranks, sink)
    }
}
