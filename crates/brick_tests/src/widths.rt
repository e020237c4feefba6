//! The widths that bricks are kept in: the narrowest with room for all samples of the kind and for the pad.
ghost use Rattle.std.specs.Prelude.{◌≡◌, IfOk, None};

use crate::stores::sizes_of;
use brick_store::BrickStore;
use iso_base::{SampleKind, Sizes, VoxelData};
use packed_samples::{PackedRun, Width};
use std::alloc::{AllocError, Global};
use voxel_list::VoxelList;

/// Kinds and pads, and the width of their bricks.
const WIDTHS: [(SampleKind, Option<i64>, Width); 20] = [
    (SampleKind::U8, None, Width::U8),
    (SampleKind::U8, Some(0), Width::U8),
    (SampleKind::U8, Some(255), Width::U8),
    (SampleKind::U8, Some(-1), Width::I16),
    (SampleKind::U8, Some(256), Width::I16),
    (SampleKind::U8, Some(32_768), Width::U16),
    (SampleKind::U8, Some(65_536), Width::I32),
    (SampleKind::U8, Some(4_294_967_295), Width::I64),
    (SampleKind::I8, None, Width::I16),
    (SampleKind::I8, Some(4_294_967_295), Width::I64),
    (SampleKind::I16, None, Width::I16),
    (SampleKind::I16, Some(-32_768), Width::I16),
    (SampleKind::I16, Some(32_768), Width::I32),
    (SampleKind::U16, None, Width::U16),
    (SampleKind::U16, Some(-1), Width::I32),
    (SampleKind::I32, None, Width::I32),
    (SampleKind::I32, Some(-2_147_483_648), Width::I32),
    (SampleKind::I32, Some(2_147_483_648), Width::I64),
    (SampleKind::U32, None, Width::I64),
    (SampleKind::U32, Some(-2_147_483_648), Width::I64),
];

/// The width that the copies of a store lie in.
fn width_of(store: &BrickStore) -> Width {
    match store.copies() {
        PackedRun::U8(_) => Width::U8,
        PackedRun::I16(_) => Width::I16,
        PackedRun::U16(_) => Width::U16,
        PackedRun::I32(_) => Width::I32,
        PackedRun::I64(_) => Width::I64,
    }
}

/// A volume of a kind, all 0.
fn zeros_of(alloc: Global, sizes: Sizes, kind: SampleKind) -> Result<VoxelList, AllocError>
    ensures { IfOk result (λ v. v.pad ≡ None) }
{
    let samples = vec![in alloc; 0; sizes.count() as usize]?;
    Ok(VoxelList::of(match kind {
        SampleKind::I8 => VoxelData::new(sizes, SampleKind::I8, samples),
        SampleKind::U8 => VoxelData::new(sizes, SampleKind::U8, samples),
        SampleKind::I16 => VoxelData::new(sizes, SampleKind::I16, samples),
        SampleKind::U16 => VoxelData::new(sizes, SampleKind::U16, samples),
        SampleKind::I32 => VoxelData::new(sizes, SampleKind::I32, samples),
        SampleKind::U32 => VoxelData::new(sizes, SampleKind::U32, samples),
    }))
}

/// The bricks of such a volume, of two points along each axis, in its pad, if it has one.
fn bricks_of(alloc: Global, kind: SampleKind, pad: Option<i64>) -> Option<BrickStore> {
    let volume = zeros_of(alloc, sizes_of(2, 2, 2)?, kind).ok()?;
    let Some(pad) = pad else {
        return BrickStore::of(alloc, volume).ok();
    };
    if !(-2_147_483_648..=4_294_967_295).contains(&pad) {
        return None;
    }
    BrickStore::of(alloc, volume.padded(alloc, pad).ok()?).ok()
}

#[test]
fn each_kind_and_pad_in_its_width(rt: HostRuntime) {
    for (kind, pad, width) in WIDTHS {
        let store = bricks_of(rt.alloc(), kind, pad).expect(&rt, "memory suffices");
        assert_eq!(rt; width_of(&store), width, "{kind:?} {pad:?}");
    }
}
