//! The mesh of a window.
ghost use Rattle.std.specs.Prelude.{◌≡◌, None, IfErr, IfOk, OnOk};
ghost use Rattle.iso_base.specs.Points.{IsPoint};
ghost use Rattle.iso_base.specs.Volume.{field};
ghost use Rattle.flat_mesh.specs.Mesh.{mesh_of};
ghost use Rattle.window_laws.specs.Windows.{thin_axis};
ghost use Rattle.window_mesh.specs.Crops.{IsBoxOfKind, IsFaultOf, IsWindowOfMesh, cropped, window_of};

use crate::boxes::{WindowFault, crop};
use brick_store::BrickStore;
use flat_mesh::{Mesh, extract_flat};
use iso_base::Level;
use std::alloc::Global;
use voxel_list::FillBox;

/// The mesh of a window at a level, from scratch: the part of the whole mesh that lies in the box. Its vertices, carried to
/// the whole grid, are the vertices of the whole mesh on edges and in cells in the box, at their places; its triangles are
/// those of the whole mesh whose cells lie in the box, in their order. The box is one that `crop` takes; the refusals are
/// those of `crop`.
pub fn named_window(
    alloc: Global,
    store: &BrickStore,
    area: &FillBox,
    level: Level,
) -> Result<Mesh, WindowFault>
    requires inside { IsPoint store.now.grid area.now.high }
    requires kind { IsBoxOfKind store.now area.now }
    ensures mesh { IfOk result (λ m. m ≡ mesh_of (window_of area.now).grid
        (field (cropped store.now area.now).samples level)) }
    ensures part { OnOk result (IsWindowOfMesh store.now level area.now) }
    ensures thick { OnOk result (thin_axis (window_of area.now).grid ≡ None) }
    ensures fault { IfErr result (IsFaultOf (window_of area.now).grid) }
{
    // Reading a corner brings in that the box's corners are in order.
    let _ = area.low();
    let volume = crop(alloc, store, area)?;
    let mesh = extract_flat(alloc, &volume, level)?;
    Ok(mesh)
}
