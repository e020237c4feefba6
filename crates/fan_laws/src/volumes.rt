//! Laws of the mesh of a volume at a level.

ghost use Rattle.fan_laws.specs.Padded.{HasPadBelow};
ghost use Rattle.iso_base.specs.Volume.{field, sample};
ghost use Rattle.iso_defs.specs.Grid.{name_bound, is_crossing};
ghost use Rattle.iso_defs.specs.Manifold.{IsFan, times_run};
ghost use Rattle.iso_defs.specs.Scratch.{triangles, vertex_names, vertices};
ghost use Rattle.iso_defs.specs.Verdict.Verdict.{Closed};
ghost use Rattle.iso_defs.specs.Verdict.{IsOrientedSurface, IsVerdict, in_outer_plane};
ghost use Rattle.std.specs.List.{count_by};
ghost use Rattle.std.specs.Prelude.{false, if◌then◌else◌, pos, unsigned_abs, ℕ, ℤ, ◌*ℤ◌, ◌-ℤ◌, ◌<◌, ◌==◌, ◌^◌, ◌≡◌, ◌≤◌};

use iso_base::Level;
use voxel_list::VoxelList;

/// No ordered pair of vertices is run by two triangles of the mesh.
pub fn directed_once(volume: &VoxelList, level: Level)
    ensures { (a b : ℕ) → times_run (triangles volume.now.grid (field volume.now.samples level)) a b ≤ 1 }
{}

/// The triangles around each vertex of the mesh form one cycle or one path, and the mesh is an oriented surface: each
/// edge off the border lies in two triangles that run it in opposite directions, each border edge in one. Each crossing
/// lattice edge names exactly one vertex, and no other lattice edge names any.
pub fn one_fan(volume: &VoxelList, level: Level)
    ensures fans { (v : ℕ) → IsFan (triangles volume.now.grid (field volume.now.samples level)) v }
    ensures surface { IsOrientedSurface volume.now.grid (field volume.now.samples level) }
    ensures names { (n : ℕ) → n < name_bound volume.now.grid →
        count_by (λ m. m == n) (vertex_names volume.now.grid (field volume.now.samples level))
        ≡ (if is_crossing volume.now.grid (field volume.now.samples level) n then 1 else 0) }
{
    // Reading the sizes brings in what is true of every volume.
    let _ = volume.sizes();
}

/// Where a volume has a pad below the level, no edge of the mesh is a border edge, and the mesh is closed.
pub fn closed_when_padded(volume: &VoxelList, level: Level)
    requires { HasPadBelow volume.now level }
    ensures inside { (a b : ℕ) → 0 < times_run (triangles volume.now.grid (field volume.now.samples level)) a b →
        in_outer_plane volume.now.grid (field volume.now.samples level) a b ≡ false }
    ensures closed { IsVerdict (triangles volume.now.grid (field volume.now.samples level)) Closed }
{
    // Reading the sizes brings in what is true of every volume.
    let _ = volume.sizes();
}

/// At a level that is a whole number, in units of samples, the mesh is that of each sample less the level.
pub fn whole_levels_stay(volume: &VoxelList, level: i64)
    requires { unsigned_abs level < 2 ^ 33 }
    ensures vertices { vertices volume.now.grid (field volume.now.samples (pos 1000 *ℤ level))
        ≡ vertices volume.now.grid (λ p. sample volume.now.samples p -ℤ level) }
    ensures triangles { triangles volume.now.grid (field volume.now.samples (pos 1000 *ℤ level))
        ≡ triangles volume.now.grid (λ p. sample volume.now.samples p -ℤ level) }
{}
