//! The formats in which the mesh of a window is written.

/// A format in which the mesh of a window is written.
#[derive(Clone, Copy, PartialEq, Eq)]
pub enum MeshFormat {
    /// ASCII PLY 1.0, whose faces count vertices from 0.
    Ply,
    /// Wavefront OBJ, whose faces count vertices from 1.
    Obj,
    /// The Object File Format, whose faces count vertices from 0.
    Off,
    /// Polygons of a legacy VTK file, version 3.0, in ASCII; its faces count vertices from 0.
    Vtk,
}
