//! The whole text of a mesh.
ghost use Rattle.std.specs.Prelude.{◌≡◌, ◌+◌, ◌*◌, ◌≤◌, IfOk};
ghost use Rattle.iso_defs.specs.Rows.{row_count};
ghost use Rattle.byte_streams.specs.Seen.{Puts};
ghost use Rattle.flat_mesh.specs.Lattice.{heights};
ghost use Rattle.flat_mesh.specs.Mesh.{mesh_of};
ghost use Rattle.mesh_lines.specs.Blocks.{Adds};
ghost use Rattle.mesh_lines.specs.Lines.{text_of, written_of};
ghost use Rattle.mesh_walk.specs.Numbers.{AreFirst, AreRowRanks, cells_cost};
ghost use Rattle.mesh_walk.specs.Spans.{IsWhole, lines_text};

use crate::centres::write_centres;
use crate::edges::write_edges;
use crate::faces::write_faces;
use crate::ranks::rank_rows;
use crate::walk::{Numbering, Walk};
use byte_streams::{Failed, Sink};
use edge_points::RowRanks;
use iso_base::Written;
use mesh_lines::{LineBuffer, Style};
use mesh_rows::MeshRows;

/// Puts the lines of all vertices, what stands behind them, and the lines of all triangles behind the others.
fn write_lines<R: MeshRows, K: Sink>(
    rows: &mut R,
    walk: Walk<'_>,
    faces: u32,
    block: &mut LineBuffer,
    sink: &mut K,
) -> Result<(), Failed>
    requires ranks { AreRowRanks (R.leveled rows.old) walk.ranks.now walk.total }
    requires numbers { AreFirst walk.numbers }
    requires whole { IsWhole (R.leveled rows.old) walk.slices walk.numbers }
    ensures adds { let v = R.leveled rows.old in
        Adds (K.seen sink.old) (K.seen sink.new) block.old block.new result (lines_text walk.entry.style v faces) }
    ensures bytes { let g = (R.leveled rows.old).grid in
        IfOk result (λ _. block.new.total ≤ block.old.total + 256 + 3520 * (g.nx * row_count g)) }
    ensures volume { R.leveled rows.new ≡ R.leveled rows.old }
    ensures kept { R.kept rows.new ≡ R.kept rows.old }
    ensures least { R.spent rows.old ≤ R.spent rows.new }
    ensures most { let cost = R.row_cost (R.kept rows.old) in
        R.spent rows.new ≤ R.spent rows.old + 2 * cells_cost (R.leveled rows.old) cost }
{
    write_edges(rows, walk, block, sink)?;
    write_centres(rows, walk, block, sink)?;
    block.write_middle(walk.style.format, faces, sink)?;
    write_faces(rows, walk, block, sink)?;
    Ok(())
}

/// Appends the text of the mesh of a volume at a level in a style, and says how many vertices, faces and bytes were
/// written. The mesh is never held, and no memory is taken. `Failed` comes only where the sink's count rose; a front of the
/// text was then taken. Each row of cells is asked for at most twice. `ranks` is a buffer.
pub fn write_mesh<R: MeshRows, K: Sink>(
    rows: &mut R,
    style: Style,
    ranks: &mut RowRanks,
    sink: &mut K,
) -> Result<Written, Failed>
    requires ranks { ranks.old.grid ≡ (R.leveled rows.old).grid }
    ensures text { let v = R.leveled rows.old in
        Puts (K.seen sink.old) (K.seen sink.new) result (text_of style (mesh_of v.grid (heights v))) }
    ensures written { let v = R.leveled rows.old in
        IfOk result (λ w. w ≡ written_of style (mesh_of v.grid (heights v))) }
    ensures ranks { ranks.new.grid ≡ ranks.old.grid }
    ensures volume { R.leveled rows.new ≡ R.leveled rows.old }
    ensures kept { R.kept rows.new ≡ R.kept rows.old }
    ensures least { R.spent rows.old ≤ R.spent rows.new }
    ensures most { let cells = cells_cost (R.leveled rows.old) (R.row_cost (R.kept rows.old)) in
        R.spent rows.new ≤ R.spent rows.old + (R.count_cost (R.kept rows.old) + 2 * cells) }
{
    let sizes = rows.sizes();
    let total = rank_rows(rows, ranks);
    let counts = rows.count_cells();
    let vertices = total + counts.centres;
    let mut block = LineBuffer::new();
    block.push_head(style.format, vertices, counts.faces);
    let walk = Walk {
        style,
        ranks,
        total,
        slices: sizes.nz(),
        numbers: Numbering {
            first_edge: 0,
            first_centre: total,
        },
    };
    write_lines(rows, walk, counts.faces, &mut block, sink)?;
    block.write_waiting(sink)?;
    Ok(Written {
        vertices,
        faces: counts.faces,
        bytes: block.total(),
    })
}
