//! Laws of the mesh of every field of shifted values on a grid.

ghost use Rattle.iso_defs.specs.Cell.{cell_edge};
ghost use Rattle.iso_defs.specs.Grid.{cells, Grid, is_cell, name_bound, point_count, IsThick, is_crossing};
ghost use Rattle.iso_defs.specs.Lists.{below};
ghost use Rattle.iso_defs.specs.Rows.{row_cells, row_count};
ghost use Rattle.iso_defs.specs.Scratch.{crossing_edges, named_triangles, number_of, triangles, vertices};
ghost use Rattle.measure.specs.Measures.{measures_of, triangles_in};
ghost use Rattle.measure_laws.specs.Vectors.{Vector};
ghost use Rattle.mesh_report.specs.Report.{component, components, summary_of};
ghost use Rattle.part_laws.specs.Classes.{class_of};
ghost use Rattle.part_laws.specs.FirstCells.{first_edges, is_first_at};
ghost use Rattle.part_laws.specs.Loops.{AreLong, loops_in, mesh_loops, met_after, renamed, triangles_round};
ghost use Rattle.part_laws.specs.Parts.{class_loops, classes, mesh_summary};
ghost use Rattle.part_laws.specs.Swept.{mesh_shares};
ghost use Rattle.std.specs.List.{count_by, flat_map};
ghost use Rattle.std.specs.Prelude.{[], Bool, false, length, map, true, ℕ, ℤ, ◌<◌, ◌≡◌, ◌≤◌};

/// The triangles of a mesh are those of its loops, loop by loop, and its loops are those of its rows of cells, row by row.
/// Each loop has three vertices at least.
pub fn mesh_of_loops()
    ensures triangles { (g : Grid) (s : ℕ → ℤ) → named_triangles g s ≡ flat_map triangles_round (mesh_loops g s) }
    ensures rows { (g : Grid) (s : ℕ → ℤ) → mesh_loops g s
        ≡ flat_map (λ r. flat_map (loops_in g s) (row_cells g r)) (below (row_count g)) }
    ensures long { (g : Grid) (s : ℕ → ℤ) → AreLong (mesh_loops g s) }
{}

/// The crossing edges are the vertices that its loops meet, each counted at the first loop that has it.
pub fn edges_by_loops()
    ensures { (g : Grid) (s : ℕ → ℤ) (p : ℕ → Bool) → IsThick g → count_by p (crossing_edges g s)
        ≡ count_by p (met_after [] (mesh_loops g s)) }
{}

/// Each crossing edge is counted at one cell, the first of those that have it, as its place in the cell tells.
pub fn edges_by_cells()
    ensures counts { (g : Grid) (s : ℕ → ℤ) (p : ℕ → Bool) → IsThick g → count_by p (crossing_edges g s)
        ≡ count_by p (flat_map (first_edges g s) (cells g)) }
    ensures none { (g : Grid) (q r e x : ℕ) → q < point_count g → is_cell g q ≡ true → r < point_count g →
        is_cell g r ≡ true → e < 12 → x < 12 →
        cell_edge g q e ≡ cell_edge g r x → is_first_at g q e ≡ true → q ≤ r }
    ensures some { (g : Grid) (q e : ℕ) → q < point_count g → is_cell g q ≡ true → e < 12 → is_first_at g q e ≡ false →
        (r x : ℕ) × (r < q) × (is_cell g r ≡ true) × (x < 12) × (cell_edge g r x ≡ cell_edge g q e) }
{}

/// The component of a crossing edge's vertex is the class of that edge: what edges of the mesh join, loops join. The
/// components, by their least vertices, are the classes, by their least crossing edges, and the triangles of a component
/// are those of the loops of its class.
pub fn components_by_loops()
    ensures component { (g : Grid) (s : ℕ → ℤ) (e : ℕ) → IsThick g → e < name_bound g → is_crossing g s e ≡ true →
        component (length (vertices g s)) (triangles g s) (number_of g s e)
        ≡ number_of g s (class_of (mesh_loops g s) e) }
    ensures all { (g : Grid) (s : ℕ → ℤ) → IsThick g →
        components (length (vertices g s)) (triangles g s)
        ≡ map (number_of g s) (classes (crossing_edges g s) (mesh_loops g s)) }
    ensures triangles { (g : Grid) (s : ℕ → ℤ) (e : ℕ) → IsThick g → e < name_bound g → is_crossing g s e ≡ true →
        triangles_in (length (vertices g s)) (triangles g s) (number_of g s e)
        ≡ flat_map triangles_round (map (renamed (number_of g s)) (class_loops (mesh_loops g s) e)) }
{}

/// The report on a mesh is that on its loops: the numbers of all, and those of each class, by least crossing edge.
pub fn summary_by_loops()
    ensures { (g : Grid) (s : ℕ → ℤ) → IsThick g → summary_of (length (vertices g s)) (triangles g s)
        ≡ mesh_summary g s }
{}

/// What is measured of a mesh is what is measured of its loops, wherever its vertices lie.
pub fn measures_by_loops()
    ensures { (g : Grid) (s : ℕ → ℤ) (at : ℕ → Vector) → IsThick g →
        measures_of (length (vertices g s)) (triangles g s) at ≡ mesh_shares g s at }
{}
