//! A mesh written while its volume is walked.
ghost use Rattle.std.specs.Prelude.{◌≡◌, ◌+◌, ◌*◌, ◌≤◌, IfOk, is_some};
ghost use Rattle.iso_defs.specs.Bricks.{brick_count};
ghost use Rattle.iso_defs.specs.Texts.{scratch_ply};
ghost use Rattle.iso_base.specs.Volume.{field};
ghost use Rattle.byte_streams.specs.Seen.{Puts};
ghost use Rattle.flat_mesh.specs.Lattice.{heights};
ghost use Rattle.flat_mesh.specs.Mesh.{mesh_of};
ghost use Rattle.mesh_lines.specs.Lines.{text_of, written_of};
ghost use Rattle.mesh_lines.specs.Padded.{obj_written, ply_written, scratch_obj};
ghost use Rattle.span_tree.specs.Spans.{IsRightFor};
ghost use Rattle.brick_rows.specs.Named.{NamesCases, asked_among};
ghost use Rattle.brick_rows.specs.Rows.{at_level};
ghost use Rattle.stitch.specs.Origins.{origin_for};
ghost use Rattle.stitch.specs.Recent.{AreRecent};

use crate::room::RowRoom;
use crate::store::StoreRows;
use brick_rows::{BricksAtLevel, CellRows};
use brick_store::BrickStore;
use byte_streams::{Failed, Sink};
use iso_base::{Level, MeshFormat, Steps, Written};
use mesh_lines::{Origin, Style};
use mesh_walk::write_mesh;
use span_tree::SpanTree;
use std::sync::ledger::Ledger;

/// Where the coordinates of the mesh of a volume are counted from.
fn origin_of(store: &BrickStore) -> Origin
    ensures { result ≡ origin_for (is_some store.now.pad) }
{
    if store.pad().is_some() {
        Origin::Pad
    } else {
        Origin::Volume
    }
}

/// Appends the text of the mesh in a style, and says how many vertices, faces and bytes were written.
fn write_in<R: CellRows, K: Sink, L: Ledger>(
    style: Style,
    field: &BricksAtLevel,
    rows: &mut R,
    room: &mut RowRoom,
    sink: &mut K,
    steps: &mut Steps<L>,
) -> Result<Written, Failed>
    requires named { NamesCases (R.named rows.old) field.now.grid (heights field.now) }
    requires ranks { room.old.ranks.grid ≡ field.now.grid }
    requires right { AreRecent field.now room.old.known.recent }
    ensures text { Puts (K.seen sink.old) (K.seen sink.new) result
        (text_of style (mesh_of field.now.grid (heights field.now))) }
    ensures written { IfOk result (λ w. w ≡ written_of style (mesh_of field.now.grid (heights field.now))) }
    ensures ranks { room.new.ranks.grid ≡ room.old.ranks.grid }
    ensures right { AreRecent field.now room.new.known.recent }
    ensures same { R.named rows.new ≡ R.named rows.old }
    ensures least { steps.old ≤ steps.new }
    ensures most { steps.new
        ≤ steps.old + 1536 * asked_among field.now.grid (heights field.now) (R.named rows.old) 0
        (brick_count field.now.grid) }
{
    // Reading the sizes brings in what is true of every volume at a level.
    let _ = field.sizes();
    let mut store = StoreRows::new(field, rows, &mut room.known, steps);
    write_mesh(&mut store, style, &mut room.ranks, sink)
}

/// Appends the text of the mesh of a volume in bricks at a level, as PLY, and says how many vertices, faces and bytes were
/// written. The mesh is never held, and no memory is taken. `Failed` comes only where the sink's count rose; a front of the
/// text was then taken. Each active brick is asked once for its counts and each of its rows at most twice, and no other brick. The lists
/// of rows in the room have to be right for the volume, and are so afterwards, also where the write failed.
pub fn write_ply<R: CellRows, K: Sink, L: Ledger>(
    store: &BrickStore,
    tree: &SpanTree,
    level: Level,
    rows: &mut R,
    room: &mut RowRoom,
    sink: &mut K,
    steps: &mut Steps<L>,
) -> Result<Written, Failed>
    requires tree { IsRightFor tree.now store.now }
    requires named { NamesCases (R.named rows.old) store.now.grid (field store.now.samples level) }
    requires ranks { room.old.ranks.grid ≡ store.now.grid }
    requires right { AreRecent (at_level store.now level) room.old.known.recent }
    ensures text { Puts (K.seen sink.old) (K.seen sink.new) result
        (scratch_ply (is_some store.now.pad) store.now.grid (field store.now.samples level)) }
    ensures written { IfOk result (λ w. w ≡ ply_written (is_some store.now.pad)
        (mesh_of store.now.grid (field store.now.samples level))) }
    ensures ranks { room.new.ranks.grid ≡ room.old.ranks.grid }
    ensures right { AreRecent (at_level store.now level) room.new.known.recent }
    ensures same { R.named rows.new ≡ R.named rows.old }
    ensures least { steps.old ≤ steps.new }
    ensures most { steps.new ≤ steps.old + 1536 * asked_among store.now.grid (field store.now.samples level)
        (R.named rows.old) 0 (brick_count store.now.grid) }
{
    // Reading the sizes brings in what is true of every volume.
    let _ = store.sizes();
    let style = Style {
        format: MeshFormat::Ply,
        origin: origin_of(store),
    };
    let field = BricksAtLevel::new(store, tree, level);
    write_in(style, &field, rows, room, sink, steps)
}

/// Appends the text of the same mesh as OBJ, as `write_ply` does. Its faces count vertices from 1.
pub fn write_obj<R: CellRows, K: Sink, L: Ledger>(
    store: &BrickStore,
    tree: &SpanTree,
    level: Level,
    rows: &mut R,
    room: &mut RowRoom,
    sink: &mut K,
    steps: &mut Steps<L>,
) -> Result<Written, Failed>
    requires tree { IsRightFor tree.now store.now }
    requires named { NamesCases (R.named rows.old) store.now.grid (field store.now.samples level) }
    requires ranks { room.old.ranks.grid ≡ store.now.grid }
    requires right { AreRecent (at_level store.now level) room.old.known.recent }
    ensures text { Puts (K.seen sink.old) (K.seen sink.new) result
        (scratch_obj (is_some store.now.pad) store.now.grid (field store.now.samples level)) }
    ensures written { IfOk result (λ w. w ≡ obj_written (is_some store.now.pad)
        (mesh_of store.now.grid (field store.now.samples level))) }
    ensures ranks { room.new.ranks.grid ≡ room.old.ranks.grid }
    ensures right { AreRecent (at_level store.now level) room.new.known.recent }
    ensures same { R.named rows.new ≡ R.named rows.old }
    ensures least { steps.old ≤ steps.new }
    ensures most { steps.new ≤ steps.old + 1536 * asked_among store.now.grid (field store.now.samples level)
        (R.named rows.old) 0 (brick_count store.now.grid) }
{
    // Reading the sizes brings in what is true of every volume.
    let _ = store.sizes();
    let style = Style {
        format: MeshFormat::Obj,
        origin: origin_of(store),
    };
    let field = BricksAtLevel::new(store, tree, level);
    write_in(style, &field, rows, room, sink, steps)
}
