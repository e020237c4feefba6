//! Laws of a grid, and of every field of shifted values on it.

ghost use Rattle.iso_defs.specs.Grid.{Grid, cells, name_bound, point_count, IsThick, is_crossing};
ghost use Rattle.iso_defs.specs.Contours.{plane_pairs, contours, line_pairs};
ghost use Rattle.iso_defs.specs.Lists.{below, count_pair};
ghost use Rattle.iso_defs.specs.PlaneOfMesh.{IsPlaneOfMesh};
ghost use Rattle.iso_defs.specs.Rows.{row_cells, row_count, row_edges};
ghost use Rattle.iso_defs.specs.Scratch.{cell_centres, cell_triangles, crossing_edges, named_triangles, number_of, triangles, vertex_names, vertices};
ghost use Rattle.fan_laws.specs.Together.{LiesInFace};
ghost use Rattle.std.specs.List.{count_by, flat_map};
ghost use Rattle.std.specs.Prelude.{if◌then◌else◌, length, nat_lt, slice_index, ℕ, ℤ, ◌*◌, ◌+◌, ◌<◌, ◌==◌, ◌≡◌, ◌≢◌, ◌≤◌};

use iso_base::{EdgeName, Sizes};

/// Two different lattice edges lie together in at most one unit face of the grid.
pub fn pair_determines_face(a: EdgeName, b: EdgeName, sizes: &Sizes)
    ensures { (p m r n : ℕ) → a.0 ≢ b.0 → LiesInFace sizes.now p m a.0 → LiesInFace sizes.now p m b.0 →
        LiesInFace sizes.now r n a.0 → LiesInFace sizes.now r n b.0 → (p ≡ r) × (m ≡ n) }
{
    // Reading a size brings in that the sizes are those of a grid.
    let _ = sizes.nx();
}

/// A lattice edge names one vertex where it is crossing, and else none; no two vertices have one name; and the number of a vertex,
/// by which triangles speak of it, is its place in the list of vertices.
pub fn one_vertex()
    ensures edges { (g : Grid) (s : ℕ → ℤ) (n : ℕ) → n < name_bound g → count_by (λ m. m == n) (vertex_names g s)
        ≡ (if is_crossing g s n then 1 else 0) }
    ensures all { (g : Grid) (s : ℕ → ℤ) (n : ℕ) → count_by (λ m. m == n) (vertex_names g s) ≤ 1 }
    ensures places { (g : Grid) (s : ℕ → ℤ) (i : ℕ) → i < length (vertices g s) →
        number_of g s (slice_index (vertex_names g s) i) ≡ i }
{}

/// A mesh has at most seven times as many vertices and twelve times as many triangles as its grid has points.
pub fn mesh_sizes()
    ensures vertices { (g : Grid) (s : ℕ → ℤ) → length (vertices g s) ≤ 7 * point_count g }
    ensures triangles { (g : Grid) (s : ℕ → ℤ) → length (triangles g s) ≤ 12 * point_count g }
{}

/// The segments of a plane, in either direction, are the edges of the mesh between vertices of lattice edges in the plane.
pub fn plane_of_mesh()
    ensures { (g : Grid) (s : ℕ → ℤ) (k : ℕ) → IsThick g → k < g.nz → IsPlaneOfMesh g s k }
{}

/// The contour lines of a plane together hold each of its segments exactly once, and nothing else.
pub fn lines_hold_segments()
    ensures { (g : Grid) (s : ℕ → ℤ) (k a b : ℕ) → k < g.nz →
        count_pair (flat_map line_pairs (contours g s k)) (a, b) ≡ count_pair (plane_pairs g s k) (a, b) }
{}

/// The mesh is the meshes of its rows joined end to end, and the number of a crossing edge's vertex is how many
/// crossing edges stand in earlier rows and earlier in its own row.
pub fn mesh_by_rows()
    ensures edges { (g : Grid) (s : ℕ → ℤ) → crossing_edges g s ≡ flat_map (row_edges g s) (below (row_count g)) }
    ensures centres { (g : Grid) (s : ℕ → ℤ) → flat_map (cell_centres g s) (cells g)
        ≡ flat_map (λ r. flat_map (cell_centres g s) (row_cells g r)) (below (row_count g)) }
    ensures faces { (g : Grid) (s : ℕ → ℤ) → named_triangles g s
        ≡ flat_map (λ r. flat_map (cell_triangles g s) (row_cells g r)) (below (row_count g)) }
    ensures numbers { (g : Grid) (s : ℕ → ℤ) (r n : ℕ) → r < row_count g → r * (3 * g.nx) ≤ n → n
        < r * (3 * g.nx) + 3 * g.nx →
        number_of g s n ≡ length (flat_map (row_edges g s) (below r)) + count_by (λ u. nat_lt u n) (row_edges g s r) }
{}
