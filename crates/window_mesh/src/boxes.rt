//! Boxes of a volume as volumes of their own.
ghost use Rattle.std.specs.Prelude.{◌≡◌, ◌≢◌, ◌+◌, ◌<◌, None, IfErr, IfOk, OnOk};
ghost use Rattle.iso_defs.specs.Grid.{index};
ghost use Rattle.iso_base.specs.Points.{IsPoint};
ghost use Rattle.window_laws.specs.Windows.{thin_axis};
ghost use Rattle.window_mesh.specs.declared.boxes.WindowFault.TheVariants.{Memory};
ghost use Rattle.window_mesh.specs.Crops.{IsBoxOfKind, IsFaultOf, cropped, first_cropped, refusal_of, window_of};

use crate::rows::add_row;
use brick_store::BrickStore;
use iso_base::{BenchFault, Memory, Point, SizeFault, Sizes, VoxelData};
use std::alloc::{AllocError, Global};
use thiserror::Error;
use voxel_list::{FillBox, VoxelList};

/// Why a box is no window.
#[derive(Clone, Copy, Debug, PartialEq, Eq, Error)]
pub enum WindowFault {
    /// An axis has fewer than 2 points of the box; with their number. Axis 0 is x, 1 is y, 2 is z.
    #[error("too few points along an axis")]
    Thin { axis: u8, n: u64 },
    /// Memory could not be had.
    #[error("no memory")]
    Memory,
}

impl From<AllocError> for WindowFault {
    ghost from_gives = { λ _ fault. fault ≡ Memory };

    fn from(_: AllocError) -> WindowFault {
        WindowFault::Memory
    }
}

impl From<Memory> for WindowFault {
    ghost from_gives = { λ _ fault. fault ≡ Memory };

    fn from(_: Memory) -> WindowFault {
        WindowFault::Memory
    }
}

impl From<WindowFault> for BenchFault {
    ghost from_gives = { λ fault refusal. refusal ≡ refusal_of fault };

    fn from(fault: WindowFault) -> BenchFault {
        match fault {
            WindowFault::Thin { axis, n } => BenchFault::WindowThin { axis, n },
            WindowFault::Memory => BenchFault::Memory,
        }
    }
}

/// The sizes of a box as a grid of its own. No memory is taken.
pub fn window_sizes(sizes: &Sizes, area: &FillBox) -> Result<Sizes, WindowFault>
    requires { IsPoint sizes.now area.now.high }
    ensures grid { IfOk result (λ g. g ≡ (window_of area.now).grid) }
    ensures thick { OnOk result (thin_axis (window_of area.now).grid ≡ None) }
    ensures fault { IfErr result (IsFaultOf (window_of area.now).grid) }
    ensures memory { IfErr result (λ fault. fault ≢ WindowFault.Memory) }
{
    // Reading the number of points brings in that the sizes are those of a grid.
    let _ = sizes.count();
    let (low, high) = (area.low(), area.high());
    let nx = u64::from(high.x - low.x) + 1;
    let ny = u64::from(high.y - low.y) + 1;
    let nz = u64::from(high.z - low.z) + 1;
    match Sizes::new(nx, ny, nz) {
        Ok(window) => Ok(window),
        Err(SizeFault::TooThin { axis, n }) => Err(WindowFault::Thin { axis, n }),
        Err(SizeFault::AxisTooLong { .. }) => unreachable!(),
        Err(SizeFault::TooMany { .. }) => unreachable!(),
    }
}

/// Puts the samples of a layer of a box behind those of the layers before it.
fn add_layer(
    store: &BrickStore,
    area: &FillBox,
    window: &Sizes,
    z: u32,
    samples: &mut Vec<i64>,
) -> Result<(), AllocError>
    requires inside { IsPoint store.now.grid area.now.high }
    requires window { window.now ≡ (window_of area.now).grid }
    requires layer { z < window.now.nz }
    requires before { samples.old.items ≡ first_cropped store.now (window_of area.now) (index window.now 0 0 z) }
    ensures { OnOk result (samples.new.items ≡ first_cropped store.now (window_of area.now)
        (index window.now 0 0 (z + 1))) }
{
    let (low, high) = (area.low(), area.high());
    for y in 0..window.ny() {
        let from = Point {
            x: low.x,
            y: low.y + y,
            z: low.z + z,
        };
        add_row(store, from, high.x + 1, samples)?;
    }
    Ok(())
}

/// The box of a volume as a volume of its own, without a pad. The box lies in the stored grid, and all its samples are of
/// the volume's kind. The cost is that of the box, whatever the volume's size. `Thin` comes exactly where the box has fewer
/// than two points along an axis, with the first such, and before memory is asked for.
pub fn crop(alloc: Global, store: &BrickStore, area: &FillBox) -> Result<VoxelList, WindowFault>
    requires inside { IsPoint store.now.grid area.now.high }
    requires kind { IsBoxOfKind store.now area.now }
    ensures volume { IfOk result (λ v. v ≡ cropped store.now area.now) }
    ensures thick { OnOk result (thin_axis (window_of area.now).grid ≡ None) }
    ensures fault { IfErr result (IsFaultOf (window_of area.now).grid) }
{
    // Reading a corner brings in that the box's corners are in order.
    let _ = area.low();
    let window = window_sizes(&store.sizes(), area)?;
    let mut samples = Vec::with_capacity(alloc, window.count() as usize)?;
    for z in 0..window.nz() {
        add_layer(store, area, &window, z, &mut samples)?;
    }
    Ok(VoxelList::of(VoxelData::new(window, store.kind(), samples)))
}
