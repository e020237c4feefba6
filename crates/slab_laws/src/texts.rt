//! The text of a mesh, put together from its slabs.

ghost use Rattle.slab_laws.specs.SlabTexts.{CutsAreSlabs, ObjBySlabs, PlyBySlabs};

/// The text of a mesh is that of the slabs that its grid is cut into: all vertices on edges, all centres and all
/// triangles, each slab behind the one below it, as PLY behind a head with the sums of their counts. There are such slabs
/// for all numbers of owned slices that leave two slices for the last slab.
pub fn text_by_slabs()
    ensures ply { PlyBySlabs }
    ensures obj { ObjBySlabs }
    ensures cuts { CutsAreSlabs }
{}
