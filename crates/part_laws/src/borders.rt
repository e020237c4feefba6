//! Laws of what is measured of the mesh of a volume.

ghost use Rattle.fan_laws.specs.Padded.{HasPadBelow};
ghost use Rattle.iso_base.specs.Volume.{IsVolume, Volume};
ghost use Rattle.measure.specs.Measures.{HasNoArea};
ghost use Rattle.part_laws.specs.Printed.{HasNoBorder, HasOneVolumeIn, measures_at};
ghost use Rattle.std.specs.Prelude.{All, ℤ};

/// A part without border has no area, and its volume is the same from every point, since the mesh is a manifold. Where a
/// pad is below the level, no part has a border.
pub fn parts_without_border()
    ensures areas { (v : Volume) (level : ℤ) → All HasNoArea (measures_at v level) }
    ensures volumes { (v : Volume) (level : ℤ) → All (HasOneVolumeIn v level) (measures_at v level) }
    ensures closed { (v : Volume) (level : ℤ) → IsVolume v → HasPadBelow v level →
        All HasNoBorder (measures_at v level) }
{}
