//! Volumes whose samples stood in print.
ghost use Rattle.std.specs.Prelude.{◌≡◌, ◌*◌, ◌≤◌, false, length};
ghost use Rattle.iso_defs.specs.Grid.{point_count};
ghost use Rattle.iso_base.specs.Volume.{width_of};
ghost use Rattle.raw_samples.specs.Raw.{voxels_in};

use crate::raw::RawVolume;
use iso_base::{SampleKind, Sizes};
use std::marker::Model;

/// A volume whose samples stood in print. They were read into bytes of its own, as raw samples lie in a file, the low byte
/// of each first: 1, 2 or 4 bytes each, as their kind has.
#[derive(Drop)]
pub struct ReadVolume {
    sizes: Sizes,
    kind: SampleKind,
    bytes: Vec<u8>,
}

impl Model for ReadVolume {
    ghost use Rattle.std.specs.Prelude.{false};
    ghost use Rattle.iso_base.specs.Volume.{Voxels};
    ghost use Rattle.raw_samples.specs.Raw.{IsRaw, voxels_in};

    ghost Value = { Voxels };

    ghost view = { λ v. voxels_in v.sizes v.kind false v.bytes.items };

    ghost invariant = { λ v. IsRaw v.sizes v.kind false v.bytes.items };
}

impl ReadVolume {
    /// The volume whose samples these bytes begin with: of this kind, with the low byte of each first.
    pub fn new(sizes: Sizes, kind: SampleKind, bytes: Vec<u8>) -> ReadVolume
        requires { width_of kind * point_count sizes ≤ length bytes.items }
        ensures { result ≡ voxels_in sizes kind false bytes.items }
    {
        // The raw volume of the bytes brings in that there is a sample of the kind for each point.
        let _ = RawVolume::new(sizes, kind, false, &bytes).sizes();
        ReadVolume { sizes, kind, bytes }
    }

    /// The volume over its bytes, which are lent: it is served as raw samples are.
    pub fn raw(&self) -> RawVolume<'_>
        ensures { result ≡ self.now }
    {
        RawVolume::new(self.sizes, self.kind, false, &self.bytes)
    }
}
