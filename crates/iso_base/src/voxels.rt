//! What a volume file gives.

ghost use Rattle.std.specs.Prelude.{◌≡◌, length, All};
ghost use Rattle.iso_defs.specs.Grid.{point_count};
ghost use Rattle.iso_base.specs.Volume.{IsOfKind, IsVoxels};

use crate::kind::SampleKind;
use crate::sizes::Sizes;
use std::marker::Model;

/// What a volume file gives: its sizes, the kind of its samples, and one sample of that kind for each point, by index.
#[derive(Drop)]
pub struct VoxelData {
    sizes: Sizes,
    kind: SampleKind,
    samples: Vec<i64>,
}

impl Model for VoxelData {
    ghost use Rattle.iso_base.specs.Volume.{Voxels, IsVoxels};

    ghost Value = { Voxels };

    ghost view = { λ v. record { grid = v.sizes; kind = v.kind; samples = v.samples.items } };

    ghost invariant = { λ v. IsVoxels (record { grid = v.sizes; kind = v.kind; samples = v.samples.items }) };
}

impl VoxelData {
    /// The volume of these samples.
    pub fn new(sizes: Sizes, kind: SampleKind, samples: Vec<i64>) -> VoxelData
        requires count { length samples.items ≡ point_count sizes }
        requires each { All (IsOfKind kind) samples.items }
        ensures { result ≡ record { grid = sizes; kind = kind; samples = samples.items } }
    {
        let _ = sizes.nx();
        VoxelData {
            sizes,
            kind,
            samples,
        }
    }

    /// The sizes of the grid.
    pub fn sizes(&self) -> Sizes
        ensures value { result ≡ self.now.grid }
        ensures voxels { IsVoxels self.now }
    {
        let _ = &self.kind;
        self.sizes
    }

    /// The kind of the samples.
    pub fn kind(&self) -> SampleKind
        ensures { result ≡ self.now.kind }
    {
        self.kind
    }

    /// The samples, by index.
    pub fn samples(&self) -> &[i64]
        ensures value { result.now ≡ self.now.samples }
        ensures voxels { IsVoxels self.now }
    {
        &self.samples
    }

    /// The sizes, the kind and the samples.
    pub fn into_parts(self) -> (Sizes, SampleKind, Vec<i64>)
        ensures sizes { result.0 ≡ self.grid }
        ensures kind { result.1 ≡ self.kind }
        ensures samples { result.2.items ≡ self.samples }
        ensures voxels { IsVoxels self }
    {
        let VoxelData {
            sizes,
            kind,
            samples,
        } = self;
        (sizes, kind, samples)
    }
}
