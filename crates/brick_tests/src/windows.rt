//! Tests of `window_mesh`: the samples of a box of a volume in bricks where they lie, and copied as a volume of their own.

ghost use Rattle.std.specs.Prelude.{◌≡◌, IfSome, None};
ghost use Rattle.iso_base.specs.Points.{IsPoint};

use crate::texts::text_of;
use crate::walks::{Pattern, is_text, listed_text, volume_of_pattern};
use brick_store::BrickStore;
use flat_mesh::Mesh;
use iso_base::{Level, MeshFormat};
use mesh_lines::{Origin, Style};
use mesh_text::TwoWayFormat;
use samples::Samples;
use std::alloc::Global;
use voxel_list::{FillBox, VoxelList};
use window_mesh::{BoxSamples, WindowFault, crop, named_window};

/// A box of the stored grid by two corners.
fn box_of(store: &BrickStore, corners: [i64; 6]) -> Option<FillBox>
    ensures { IfSome result (λ a. IsPoint store.now.grid a.high) }
{
    let sizes = store.sizes();
    let area = FillBox::new(&sizes, corners)?;
    let high = area.high();
    if high.x < sizes.nx() && high.y < sizes.ny() && high.z < sizes.nz() {
        Some(area)
    } else {
        None
    }
}

/// A box of a volume without a pad as a volume of its own.
fn copy_box(alloc: Global, store: &BrickStore, area: &FillBox) -> Result<VoxelList, WindowFault>
    requires inside { IsPoint store.now.grid area.now.high }
    requires pad { store.now.pad ≡ None }
{
    let _ = store.sizes();
    crop(alloc, store, area)
}

/// Its mesh, in memory.
fn mesh_of(
    alloc: Global,
    store: &BrickStore,
    area: &FillBox,
    level: Level,
) -> Result<Mesh, WindowFault>
    requires inside { IsPoint store.now.grid area.now.high }
    requires pad { store.now.pad ≡ None }
{
    let _ = store.sizes();
    named_window(alloc, store, area, level)
}

/// Whether the samples of a box are these.
fn are_samples(samples: &BoxSamples, volume: &VoxelList) -> bool {
    let count = samples.sizes().count();
    if volume.samples().len() != count as usize {
        return false;
    }
    for index in 0..count {
        if samples.at(index) != volume.samples()[index as usize] {
            return false;
        }
    }
    true
}

/// Whether the mesh that is written over the samples of a box is this one, at a level.
fn is_written(alloc: Global, samples: &BoxSamples, mesh: &Mesh, level: Level) -> Option<bool> {
    let style = Style {
        format: MeshFormat::Obj,
        origin: Origin::Volume,
    };
    let told = listed_text(alloc, samples.sizes(), samples, level, style).ok()?;
    let text = text_of(alloc, mesh, TwoWayFormat::Obj, false).ok()?;
    Some(is_text(&text, &told))
}

/// Whether a box of a volume without a pad has the same samples and the same mesh where it lies and by itself, at a level; or
/// is refused for the same reason.
fn is_same_box(alloc: Global, store: &BrickStore, area: &FillBox, level: Level) -> Option<bool>
    requires inside { IsPoint store.now.grid area.now.high }
    requires pad { store.now.pad ≡ None }
{
    let samples = match BoxSamples::new(store, area) {
        Ok(samples) => samples,
        Err(fault) => return Some(copy_box(alloc, store, area).err() == Some(fault)),
    };
    let volume = copy_box(alloc, store, area).ok()?;
    let mesh = mesh_of(alloc, store, area, level).ok()?;
    Some(are_samples(&samples, &volume) && is_written(alloc, &samples, &mesh, level)?)
}

/// The same of a box by its corners.
fn is_same(alloc: Global, store: &BrickStore, corners: [i64; 6], level: Level) -> Option<bool> {
    let area = box_of(store, corners)?;
    match store.pad() {
        None => is_same_box(alloc, store, &area, level),
        Some(_) => None,
    }
}

/// A volume in bricks whose samples are like chance.
fn bricks(alloc: Global) -> Option<BrickStore> {
    BrickStore::of(
        alloc,
        volume_of_pattern(alloc, Pattern::Chance, [19, 10, 9])?,
    )
    .ok()
}

#[test]
fn boxes_where_they_lie(rt: HostRuntime) {
    let store = bricks(rt.alloc()).expect(&rt, "there are bricks");
    let level = Level::new(128_000).expect(&rt, "it is a level");
    for corners in [
        [0, 0, 0, 18, 9, 8],
        [3, 2, 1, 17, 9, 8],
        [7, 8, 0, 9, 9, 8],
        [16, 3, 7, 17, 4, 8],
        [4, 4, 4, 4, 9, 8],
        [4, 5, 4, 6, 5, 4],
    ] {
        let found = is_same(rt.alloc(), &store, corners, level);
        assert_eq!(rt; found, Some(true), "{corners:?}");
    }
}
