//! The mesh of a volume, row by row.
ghost use Rattle.iso_base.specs.Volume.{field};
ghost use Rattle.stitch.specs.Joining.{JoinsRows};

use fan_laws::mesh_by_rows;
use iso_base::Level;
use voxel_list::VoxelList;

/// The mesh of a volume at a level is the meshes of its rows joined end to end, and the number of a crossing edge's vertex is
/// how many crossing edges stand in earlier rows and earlier in its own row.
pub fn rows_join(volume: &VoxelList, level: Level)
    ensures { JoinsRows volume.now.grid (field volume.now.samples level) }
{
    mesh_by_rows();
}
