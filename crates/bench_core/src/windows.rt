//! Windows of a volume as files of a shelf.

ghost use Rattle.std.specs.Prelude.{◌≡◌, OnOk, Some};
ghost use Rattle.voxel_list.specs.Areas.{IsArea};
ghost use Rattle.window_mesh.specs.Crops.{IsWindowOfMesh};
ghost use Rattle.unpadded_volume.specs.Unpadded.{IsInside};
ghost use Rattle.bench_core.specs.Windows.{WritesWindow, inner_corner};

use brick_store::BrickStore;
use iso_base::{BenchFault, Level, MeshFormat, Point, Written};
use iso_io::{Failed, FileText, Shelf, Sink, write_file};
use list_mesh::ListMesh;
use mesh_lines::{Origin, Style};
use samples::Samples;
use std::alloc::Global;
use unpadded_volume::layer_of;
use voxel_list::FillBox;
use window_mesh::BoxSamples;

/// So many bytes of stack are taken to write a window, beyond the buffers of `write_window`, which are in its own frame: those
/// of the triangles. `tools/measure_stack.py` finds whether they are enough.
const STACK_BYTES: usize = 464_000;

/// A window to be written: a box of points of the stored grid, the format of the text, and the name of the file.
#[derive(Clone, Copy)]
pub struct Window<'a> {
    pub area: FillBox,
    pub format: MeshFormat,
    pub name: &'a str,
}

/// Where the least corner of a box off the pad's layer lies in the volume without its pad.
fn corner_of(store: &BrickStore, area: &FillBox) -> Point
    requires { IsInside store.now area.now.low }
    ensures corner { (result.x, result.y, result.z) ≡ inner_corner store.now area.now }
    ensures area { IsArea area.now }
{
    let layer = layer_of(store);
    let low = area.low();
    Point {
        x: low.x - layer,
        y: low.y - layer,
        z: low.z - layer,
    }
}

/// The text of a mesh in a style.
#[derive(Drop)]
struct WindowText<'a, S: Samples> {
    mesh: ListMesh<'a, S>,
    style: Style,
}

impl<'a, S: Samples> FileText for WindowText<'a, S> {
    ghost use Rattle.flat_mesh.specs.Lattice.{heights};
    ghost use Rattle.flat_mesh.specs.Mesh.{mesh_of};
    ghost use Rattle.mesh_lines.specs.Lines.{text_of, written_of};
    ghost use Rattle.std.specs.Prelude.{◌≡◌};

    type Told = Written;

    ghost text = { λ t. text_of t.style (mesh_of t.mesh.grid (heights t.mesh)) };

    ghost tells = { λ t w. w ≡ written_of t.style (mesh_of t.mesh.grid (heights t.mesh)) };

    ghost stays = { λ _. tt };

    fn put<K: Sink>(&mut self, sink: &mut K) -> Result<Written, Failed> {
        self.mesh.write(self.style, sink)
    }
}

/// Makes the name's file the mesh of a box of points off the pad's layer, in its place in the volume without its pad. The text
/// is written as it is made, from the samples in the bricks. The shelf is touched last, when all memory is taken.
pub fn write_window<H: Shelf>(
    alloc: Global,
    store: &BrickStore,
    level: Level,
    window: &Window,
    shelf: &mut H,
) -> Result<Written, BenchFault>
    requires low { IsInside store.now window.now.area.low }
    requires high { IsInside store.now window.now.area.high }
    ensures window { let w = window.now in
        WritesWindow store.now level (Some w.area) w.format (H.seen shelf.old) (H.seen shelf.new) result w.name.now }
    ensures part { OnOk result (IsWindowOfMesh store.now level window.now.area) }
{
    let samples = BoxSamples::new(store, &window.area)?;
    let mesh = ListMesh::of(alloc, samples.sizes(), &samples, level)?;
    let style = Style {
        format: window.format,
        origin: Origin::Window(corner_of(store, &window.area)),
    };
    let mut text = WindowText { mesh, style };
    Ok(write_file::<_, _, STACK_BYTES>(shelf, window.name, &mut text)?)
}
