//! Tests of `voxel_list`.

ghost use Rattle.std.specs.Prelude.{◌≡◌, IfOk, IfSome, None};
ghost use Rattle.iso_defs.specs.Grid.{Grid};
ghost use Rattle.iso_base.specs.declared.kind.SampleKind.TheVariants.{U8};
ghost use Rattle.iso_base.specs.Volume.{Volume};

use crate::grids::{sizes_of, two_a_side};
use iso_base::{Memory, Point, SampleKind, SizeFault, Sizes, VoxelData};
use std::alloc::Global;
use std::test::Fail;
use voxel_list::{FillBox, PadFault, VoxelList};

const FAR: Point = Point { x: 1, y: 0, z: 1 };

/// The first of two by two by two samples is 10, the last 255, and the others are 0.
fn volume(alloc: Global, sizes: Sizes) -> Result<VoxelList, Memory>
    requires { sizes ≡ record { nx = 2; ny = 2; nz = 2 } }
    ensures grid { IfOk result (λ v. v.grid ≡ record { nx = 2; ny = 2; nz = 2 }) }
    ensures kind { IfOk result (λ v. v.kind ≡ U8) }
    ensures pad { IfOk result (λ v. v.pad ≡ None) }
{
    let samples = vec![in alloc; 0; 8]?;
    let mut volume = VoxelList::of(VoxelData::new(sizes, SampleKind::U8, samples));
    volume.set(Point { x: 0, y: 0, z: 0 }, 10);
    volume.set(Point { x: 1, y: 1, z: 1 }, 255);
    Ok(volume)
}

/// The middle of three by three by three samples is 10, and the others are 0.
pub fn one_above(alloc: Global, sizes: Sizes) -> Result<VoxelList, Memory>
    requires { sizes ≡ record { nx = 3; ny = 3; nz = 3 } }
    ensures { IfOk result (λ v. v.grid ≡ record { nx = 3; ny = 3; nz = 3 }) }
{
    let samples = vec![in alloc; 0; 27]?;
    let mut volume = VoxelList::of(VoxelData::new(sizes, SampleKind::U8, samples));
    volume.set(Point { x: 1, y: 1, z: 1 }, 10);
    Ok(volume)
}

/// The middle of three by three by three samples is 0, and the others are 10.
pub fn one_below(alloc: Global, sizes: Sizes) -> Result<VoxelList, Memory>
    requires { sizes ≡ record { nx = 3; ny = 3; nz = 3 } }
{
    let samples = vec![in alloc; 10; 27]?;
    let mut volume = VoxelList::of(VoxelData::new(sizes, SampleKind::U8, samples));
    volume.set(Point { x: 1, y: 1, z: 1 }, 0);
    Ok(volume)
}

/// The number of points, the lowest and the highest of the box of some corners.
fn box_of(corners: [i64; 6]) -> Option<(u64, Point, Point)> {
    let area = FillBox::new(&two_a_side()?, corners)?;
    Some((area.count(), area.low(), area.high()))
}

#[test]
fn boxes_of_corners(rt: HostRuntime) {
    let low = Point { x: 0, y: 0, z: 1 };
    assert!(rt; box_of([1, 0, 1, 0, 0, 1]) == Some((2, low, FAR)));
    assert!(rt; box_of([0, 0, 0, 0, 2, 0]).is_none());
    assert!(rt; box_of([0, 0, -1, 0, 0, 0]).is_none());
}

#[test]
fn samples_of_points(rt: HostRuntime) -> Result<(), Fail> {
    let sizes = two_a_side().ok_or("2, 2 and 2 are sizes")?;
    let mut list = volume(rt.alloc(), sizes)?;
    let old = list.copy(rt.alloc())?;
    list.set(FAR, 7);
    let (new, listed) = (list.get(FAR), list.samples()[5]);
    assert!(rt; (new, listed, old.get(FAR)) == (7, 7, 0));
    Ok(())
}

fn padded_with_7(alloc: Global) -> Result<VoxelList, Fail>
    ensures { IfOk result (λ v. v.grid ≡ record { nx = 4; ny = 4; nz = 4 }) }
{
    let sizes = two_a_side().ok_or("2, 2 and 2 are sizes")?;
    Ok(volume(alloc, sizes)?.padded(alloc, 7)?)
}

/// Two samples of the volume, and two of the pad.
fn some_samples(padded: &VoxelList) -> [i64; 4]
    requires { padded.now.grid ≡ record { nx = 4; ny = 4; nz = 4 } }
{
    [
        padded.get(Point { x: 1, y: 1, z: 1 }),
        padded.get(Point { x: 2, y: 2, z: 2 }),
        padded.get(FAR),
        padded.get(Point { x: 3, y: 3, z: 3 }),
    ]
}

#[test]
fn pad_round_a_volume(rt: HostRuntime) -> Result<(), Fail> {
    let padded = padded_with_7(rt.alloc())?;
    assert!(rt; padded.sizes().count() == 64 && padded.pad() == Some(7));
    assert!(rt; some_samples(&padded) == [10, 255, 7, 7]);
    Ok(())
}

/// The sizes of a grid that is one point too long along x for a pad.
fn long_sizes() -> Option<Sizes>
    ensures { IfSome result (λ g. g ≡ record { nx = 1025; ny = 2; nz = 2 }) }
{
    sizes_of(1025, 2, 2)
}

/// All samples are 0.
fn zeros(alloc: Global, sizes: Sizes) -> Result<VoxelList, Memory>
    requires { sizes ≡ record { nx = 1025; ny = 2; nz = 2 } }
    ensures { IfOk result (λ v. v.pad ≡ None) }
{
    let samples = vec![in alloc; 0; 4100]?;
    Ok(VoxelList::of(VoxelData::new(sizes, SampleKind::U8, samples)))
}

#[test]
fn no_room_for_a_pad(rt: HostRuntime) -> Result<(), Fail> {
    let list = zeros(rt.alloc(), long_sizes().ok_or("1025, 2 and 2 are sizes")?)?;
    let fault = PadFault::Size(SizeFault::AxisTooLong { axis: 0, n: 1027 });
    assert!(rt; list.padded(rt.alloc(), 0).err() == Some(fault));
    Ok(())
}
