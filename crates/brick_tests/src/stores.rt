//! Stores that several tests start from.
ghost use Rattle.std.specs.Prelude.{◌≡◌, IfOk, IfSome, None};
ghost use Rattle.iso_base.specs.declared.kind.SampleKind.TheVariants.{U8};

use brick_store::BrickStore;
use iso_base::{Level, Memory, Point, SampleKind, Sizes, VoxelData};
use std::alloc::Global;
use std::process::Abort;
use voxel_list::VoxelList;

/// The last point that lies in eight bricks of seventeen points along each axis, and the first of the brick behind it.
pub const MIDDLE: Point = Point { x: 8, y: 8, z: 8 };

/// These sizes. Of any numbers, since the checker is long over what sizes of figures are.
pub fn sizes_of(nx: u64, ny: u64, nz: u64) -> Option<Sizes>
    ensures { IfSome result (λ g. g ≡ record { nx = nx; ny = ny; nz = nz }) }
{
    Sizes::new(nx, ny, nz).ok()
}

/// The level of so many thousandths.
pub fn level_of(rt: &impl Abort, thousandths: i128) -> Level {
    Level::new(thousandths).expect(rt, "it is a level")
}

/// A volume of these sizes, all 0. Of any sizes, for the same reason.
fn zeros_of(alloc: Global, sizes: Sizes) -> Result<BrickStore, Memory>
    ensures grid { IfOk result (λ b. b.grid ≡ sizes) }
    ensures kind { IfOk result (λ b. b.kind ≡ U8) }
    ensures pad { IfOk result (λ b. b.pad ≡ None) }
{
    let samples = vec![in alloc; 0; sizes.count() as usize]?;
    let data = VoxelData::new(sizes, SampleKind::U8, samples);
    BrickStore::of(alloc, VoxelList::of(data))
}

/// Seventeen points along each axis, all 0: two bricks along each.
pub fn zeros(alloc: Global) -> Result<BrickStore, Memory>
    ensures grid { IfOk result (λ b. b.grid ≡ record { nx = 17; ny = 17; nz = 17 }) }
    ensures kind { IfOk result (λ b. b.kind ≡ U8) }
    ensures pad { IfOk result (λ b. b.pad ≡ None) }
{
    let Some(sizes) = sizes_of(17, 17, 17) else {
        return Err(Memory);
    };
    zeros_of(alloc, sizes)
}

/// The same with 10 in the middle.
pub fn store_of_dots(alloc: Global) -> Result<BrickStore, Memory>
    ensures { IfOk result (λ b. b.grid ≡ record { nx = 17; ny = 17; nz = 17 }) }
{
    let mut store = zeros(alloc)?;
    store.set(MIDDLE, 10);
    Ok(store)
}
