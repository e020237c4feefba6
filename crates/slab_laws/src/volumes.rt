//! Slabs of volumes, from their samples.

ghost use Rattle.slab_laws.specs.SlabVolumes.{CutsOfPadded, CutsOfVolume, PaddedSlicesAreSlab, SlicesAreSlab};

/// Slices of a volume are a slab of it; and in their padding, with a layer below only where they begin the volume and one
/// above only where they end it, they are a slab of the padded volume. So each volume, with padding and without, has the
/// slabs that own given numbers of slices.
pub fn slices_are_slabs()
    ensures unpadded { SlicesAreSlab }
    ensures padded { PaddedSlicesAreSlab }
    ensures volume { CutsOfVolume }
    ensures padded_volume { CutsOfPadded }
{}
