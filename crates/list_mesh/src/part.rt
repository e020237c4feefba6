//! A part of the mesh of a volume, what its lowest slices have.
ghost use Rattle.std.specs.Prelude.{◌≡◌, ◌≤◌, All, IfOk, length};
ghost use Rattle.iso_defs.specs.Grid.{point_count};
ghost use Rattle.iso_base.specs.Volume.{IsSample};
ghost use Rattle.byte_streams.specs.Seen.{Puts};
ghost use Rattle.mesh_rows.specs.Counts.{centres_among, triangles_among};
ghost use Rattle.mesh_walk.specs.Numbers.{AreFirst, AreRowRanks, edges_to};
ghost use Rattle.mesh_walk.specs.Spans.{edge_count, owned_centres_text, owned_edges_text, owned_faces_text, points_to};
ghost use Rattle.flat_mesh.specs.Lattice.{Leveled};

use byte_streams::{Failed, Sink};
use edge_points::RowRanks;
use iso_base::{Level, Memory, MeshFormat, Sizes};
use mesh_lines::{Origin, Style};
use mesh_walk::{
    Numbering, PartCounts, Walk, count_part, rank_rows, write_part_centres, write_part_edges,
    write_part_faces,
};
use sample_rows::ListRows;
use samples::Samples;
use std::alloc::Global;
use std::marker::Model;

/// How a part is counted: no line is written then, so any style will do.
const UNWRITTEN: Style = Style {
    format: MeshFormat::Ply,
    origin: Origin::Volume,
};

/// The numbers that a part is counted and its vertices are written with: lines of vertices have none.
const UNNUMBERED: Numbering = Numbering {
    first_edge: 0,
    first_centre: 0,
};

/// How many crossing edges begin before each row of points and in all, and how many of the lowest slices a part has.
#[derive(Drop)]
struct Lowest {
    ranks: RowRanks,
    total: u32,
    slices: u32,
}

impl Lowest {
    /// The walk over the part in a style, with the numbers of its vertices.
    fn walk(&self, style: Style, numbers: Numbering) -> Walk<'_>
        ensures style { result.style ≡ style }
        ensures ranks { result.ranks.now ≡ self.now.ranks }
        ensures total { result.total ≡ self.now.total }
        ensures slices { result.slices ≡ self.now.slices }
        ensures numbers { result.numbers ≡ numbers }
    {
        Walk {
            style,
            ranks: &self.ranks,
            total: self.total,
            slices: self.slices,
            numbers,
        }
    }
}

/// The part of the mesh of a volume at a level that belongs to its lowest slices: the vertices on the edges that begin there,
/// and the centres and triangles of the cells whose lower slice is one of them. It is never held. Contracts see the volume and
/// how many slices there are.
#[derive(Drop)]
pub struct ListPart<'a, S: Samples> {
    rows: ListRows<'a, S>,
    lowest: Lowest,
}

impl<'a, S: Samples> Model for ListPart<'a, S> {
    ghost use Rattle.std.specs.Prelude.{◌≤◌};
    ghost use Rattle.list_mesh.specs.Parts.{Part};
    ghost use Rattle.mesh_walk.specs.Numbers.{AreRowRanks};

    ghost Value = { Part };

    ghost view = { λ p. record { volume = p.rows; slices = p.lowest.slices } };

    ghost invariant = { λ p. AreRowRanks p.rows p.lowest.ranks p.lowest.total
        × (1 ≤ p.lowest.slices) × (p.lowest.slices ≤ p.rows.grid.nz) };
}

impl<'a, S: Samples> ListPart<'a, S> {
    /// The part that so many of the lowest slices of a volume have, from its sizes and its samples.
    pub fn of(
        alloc: Global,
        sizes: Sizes,
        samples: &'a S,
        level: Level,
        slices: u32,
    ) -> Result<ListPart<'a, S>, Memory>
        requires count { length (S.list samples.now) ≡ point_count sizes }
        requires samples { All IsSample (S.list samples.now) }
        requires some { 1 ≤ slices }
        requires slices { slices ≤ sizes.nz }
        ensures volume { IfOk result (λ p. p.volume
            ≡ record { grid = sizes; samples = S.list samples.now; level = level }) }
        ensures slices { IfOk result (λ p. p.slices ≡ slices) }
    {
        let mut ranks = RowRanks::new(alloc, &sizes)?;
        let mut rows = ListRows::of(alloc, sizes, samples, level)?;
        let total = rank_rows(&mut rows, &mut ranks);
        let lowest = Lowest {
            ranks,
            total,
            slices,
        };
        Ok(ListPart { rows, lowest })
    }

    /// How many of the lowest slices it has.
    pub fn slices(&self) -> u32
        ensures { result ≡ self.now.slices }
    {
        self.lowest.slices
    }

    /// How many crossing edges the whole volume has.
    pub fn volume_edges(&self) -> u32
        ensures { result ≡ edge_count self.now.volume }
    {
        self.lowest.total
    }

    /// How many vertices on edges, centres and triangles the part has.
    pub fn count(&mut self) -> PartCounts
        ensures edges { let v = self.old.volume in result.edges ≡ edges_to v (points_to v self.old.slices) }
        ensures centres { let v = self.old.volume in result.centres ≡ centres_among v 0 (points_to v self.old.slices) }
        ensures faces { let v = self.old.volume in result.faces ≡ triangles_among v 0 (points_to v self.old.slices) }
        ensures part { self.new ≡ self.old }
    {
        count_part(&mut self.rows, self.lowest.walk(UNWRITTEN, UNNUMBERED))
    }

    /// Appends the lines of its vertices on edges. `Failed` comes only where the sink's count rose; a prefix of the lines was
    /// then taken. No memory is taken, here and below.
    pub fn write_edges<K: Sink>(&mut self, style: Style, sink: &mut K) -> Result<(), Failed>
        ensures text { let v = self.old.volume in
            Puts (K.seen sink.old) (K.seen sink.new) result (owned_edges_text style v self.old.slices) }
        ensures part { self.new ≡ self.old }
    {
        write_part_edges(&mut self.rows, self.lowest.walk(style, UNNUMBERED), sink)
    }

    /// Appends the lines of its centres.
    pub fn write_centres<K: Sink>(&mut self, style: Style, sink: &mut K) -> Result<(), Failed>
        ensures text { let v = self.old.volume in
            Puts (K.seen sink.old) (K.seen sink.new) result (owned_centres_text style v self.old.slices) }
        ensures part { self.new ≡ self.old }
    {
        write_part_centres(&mut self.rows, self.lowest.walk(style, UNNUMBERED), sink)
    }

    /// Appends the lines of its triangles, by these numbers of the volume's first vertex on an edge and of the first centre.
    pub fn write_faces<K: Sink>(
        &mut self,
        style: Style,
        numbers: Numbering,
        sink: &mut K,
    ) -> Result<(), Failed>
        requires numbers { AreFirst numbers }
        ensures text { let v = self.old.volume in
            let text = owned_faces_text style.format numbers v self.old.slices in
            Puts (K.seen sink.old) (K.seen sink.new) result text }
        ensures part { self.new ≡ self.old }
    {
        write_part_faces(&mut self.rows, self.lowest.walk(style, numbers), sink)
    }
}
