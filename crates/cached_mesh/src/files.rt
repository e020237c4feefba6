//! The mesh as a file of a shelf.

ghost use Rattle.std.specs.Prelude.{◌≡◌, ◌+◌, ◌*◌, ◌≤◌, IfOk, is_some, length};
ghost use Rattle.iso_base.specs.Volume.{field};
ghost use Rattle.byte_streams.specs.Seen.{Puts};
ghost use Rattle.iso_io.specs.Shelves.{Stores};
ghost use Rattle.flat_mesh.specs.Mesh.{mesh_of};
ghost use Rattle.mesh_lines.specs.Padded.{two_way_written};
ghost use Rattle.mesh_cache.specs.Economy.{IsRight, waiting};
ghost use Rattle.span_tree.specs.Spans.{IsRightFor};
ghost use Rattle.cached_mesh.specs.Rooms.{IsRoomFor};
ghost use Rattle.cached_mesh.specs.Texts.{scratch_text};

use crate::held::{Held, clear_signs};
use crate::room::MeshRoom;
use crate::rows::CachedRows;
use crate::slices::clear_slices;
use brick_store::BrickStore;
use iso_base::{Level, Steps, Written};
use iso_io::{Failed, FileText, Shelf, Sink, write_file};
use mesh_cache::MeshCache;
use mesh_text::TwoWayFormat;
use span_tree::SpanTree;
use std::sync::ledger::Ledger;
use stitch::{write_obj, write_ply};

/// So many bytes of stack are taken to write a mesh: by the block of lines, and above it by the buffers of the triangles.
/// `tools/measure_stack.py` finds whether they are enough.
const STACK_BYTES: usize = 584_000;

/// A volume in bricks at a level, with the tree of its spans and what is kept of its mesh.
#[derive(Clone, Copy)]
pub struct KeptVolume<'a> {
    pub store: &'a BrickStore,
    pub tree: &'a SpanTree,
    pub cache: &'a MeshCache,
    pub level: Level,
}

/// Appends the text of the mesh in a format, and says how many vertices, faces and bytes were written.
fn put_mesh<K: Sink, L: Ledger>(
    sink: &mut K,
    volume: &KeptVolume<'_>,
    format: TwoWayFormat,
    room: &mut MeshRoom,
    steps: &mut Steps<L>,
) -> Result<Written, Failed>
    requires tree { IsRightFor volume.now.tree.now volume.now.store.now }
    requires items { IsRight volume.now.store.now.grid volume.now.store.now.samples volume.now.cache.now.items }
    requires room { IsRoomFor volume.now.store.now volume.now.level room.old }
    ensures text { Puts (K.seen sink.old) (K.seen sink.new) result
        (scratch_text format volume.now.store.now volume.now.level) }
    ensures written { let v = volume.now.store.now in
        IfOk result (λ w. w ≡ two_way_written format (is_some v.pad)
        (mesh_of v.grid (field v.samples volume.now.level))) }
    ensures room { IsRoomFor volume.now.store.now volume.now.level room.new }
    ensures least { steps.old ≤ steps.new }
    ensures most { let v = volume.now.store.now in
        steps.new ≤ steps.old + 1536 * length (waiting v.grid v.samples volume.now.level volume.now.cache.now.items) }
{
    let (store, tree, cache) = (volume.store, volume.tree, volume.cache);
    let level = volume.level;
    let held = room.held.as_mut();
    clear_slices(held);
    let signed = room.signed.as_mut();
    clear_signs(signed);
    let mut rows = CachedRows::new(store, cache, level, Held::new(held, signed));
    match format {
        TwoWayFormat::Ply => write_ply(store, tree, level, &mut rows, &mut room.rows, sink, steps),
        TwoWayFormat::Obj => write_obj(store, tree, level, &mut rows, &mut room.rows, sink, steps),
    }
}

/// The text of the mesh in a format, and what is lent to write it.
#[derive(Drop)]
struct MeshText<'a, L: Ledger> {
    volume: &'a KeptVolume<'a>,
    format: TwoWayFormat,
    room: &'a mut MeshRoom,
    steps: &'a mut Steps<L>,
}

impl<'a, L: Ledger> MeshText<'a, L> {
    /// The text of a volume's mesh. Writing keeps both loans, and what it does to them is seen by who made them.
    fn new(
        volume: &'a KeptVolume<'a>,
        format: TwoWayFormat,
        room: &'a mut MeshRoom,
        steps: &'a mut Steps<L>,
    ) -> MeshText<'a, L>
        ensures volume { result.volume.now ≡ volume.now }
        ensures format { result.format ≡ format }
        ensures same_room { result.room.ghost_name ≡ room.entry.ghost_name }
        ensures same_steps { result.steps.ghost_name ≡ steps.entry.ghost_name }
        ensures room { result.room.now ≡ room.old }
        ensures steps { result.steps.now ≡ steps.old }
    {
        MeshText {
            volume,
            format,
            room,
            steps,
        }
    }
}

impl<'a, L: Ledger> FileText for MeshText<'a, L> {
    ghost use Rattle.std.specs.Prelude.{◌≡◌, ◌*◌, length, refl};
    ghost use Rattle.std.proofs.Math.Nat.{le_refl, le-add_right};
    ghost use Rattle.cached_mesh.specs.Writers.{IsReadyText, KeepsLoans, text_of, waiting_in, written_of};

    type Told = Written;

    ghost text = { text_of };

    ghost is_ready = { IsReadyText };

    ghost tells = { λ t w. w ≡ written_of t };

    ghost keeps = { KeepsLoans };

    ghost stays = { λ t. record {
      same_room = refl;
      same_steps = refl;
      room = λ fits. fits;
      least = le_refl t.steps.now;
      most = le-add_right t.steps.now (1536 * length (waiting_in t));
    } };

    fn put<K: Sink>(&mut self, sink: &mut K) -> Result<Written, Failed> {
        put_mesh(sink, self.volume, self.format, self.room, self.steps)
    }
}

/// Makes the name's file the text of the mesh of a volume at a level, as it is from scratch. The text is written as it is made,
/// and no memory is taken. A brick that is kept at the level gives its entries, and the counter rises by at most 1,536 for each
/// other active brick. `Failed` comes only where the shelf's count rose; the file is then as before or a front of the text, and
/// all other files are as before. The room's lists of rows have to be right for the volume at the level, and are so afterwards.
pub fn write_mesh<H: Shelf, L: Ledger>(
    shelf: &mut H,
    name: &str,
    volume: &KeptVolume<'_>,
    format: TwoWayFormat,
    room: &mut MeshRoom,
    steps: &mut Steps<L>,
) -> Result<Written, Failed>
    requires tree { IsRightFor volume.now.tree.now volume.now.store.now }
    requires items { IsRight volume.now.store.now.grid volume.now.store.now.samples volume.now.cache.now.items }
    requires room { IsRoomFor volume.now.store.now volume.now.level room.old }
    ensures file { Stores (H.seen shelf.old) (H.seen shelf.new) result name.now
        (scratch_text format volume.now.store.now volume.now.level) }
    ensures written { let v = volume.now.store.now in
        IfOk result (λ w. w ≡ two_way_written format (is_some v.pad)
        (mesh_of v.grid (field v.samples volume.now.level))) }
    ensures room { IsRoomFor volume.now.store.now volume.now.level room.new }
    ensures least { steps.old ≤ steps.new }
    ensures most { let v = volume.now.store.now in
        steps.new ≤ steps.old + 1536 * length (waiting v.grid v.samples volume.now.level volume.now.cache.now.items) }
{
    let mut text = MeshText::new(volume, format, room, steps);
    write_file::<_, _, STACK_BYTES>(shelf, name, &mut text)
}
