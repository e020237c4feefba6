//! Where the crossing edges of rows of points are crossed.
ghost use Rattle.std.specs.Prelude.{◌≡◌, ◌+◌, ◌*◌, ◌<◌, ◌≤◌, ◌^◌, ◌++◌, ◌∷◌, [], IfOk, false, length, take};
ghost use Rattle.mesh_rows.specs.Rows.{AreEdges, AreFlags, IsStill, row_names, row_places};
ghost use Rattle.sample_rows.specs.Places.{HaveAllPlaces, HavePlaces};

use crate::field::ListField;
use crate::signs::are_all;
use flat_mesh::Heights;
use iso_base::{ROW_EDGES, Sizes};
use row_bits::list_edges;
use samples::Samples;
use std::alloc::{AllocError, Global};

/// Where all crossing edges are crossed, in thousandths from their lower ends, in order of name. By row of points, `starts` says
/// where the places of its edges begin.
#[derive(Drop)]
pub struct CrossingPlaces {
    pub list: Vec<u16>,
    pub starts: Vec<u32>,
}

/// Buffers for a row of points: the samples at the ends of its edges, its crossing edges, and where these are crossed.
#[derive(Drop)]
pub struct PlaceBuffers {
    pub ends: Vec<i64>,
    pub edges: [u16; ROW_EDGES],
    pub places: [u16; ROW_EDGES],
}

/// Buffers for the rows of a volume.
pub fn place_buffers(alloc: Global, sizes: &Sizes) -> Result<PlaceBuffers, AllocError>
    ensures { IfOk result (λ b. length b.ends.items ≡ 3 * sizes.now.nx) }
{
    Ok(PlaceBuffers {
        ends: vec![in alloc; 0i64; 4 * sizes.nx() as usize]?,
        edges: [0; ROW_EDGES],
        places: [0; ROW_EDGES],
    })
}

/// Writes where these edges of a row of points are crossed, at the front of a buffer. `ends` is a buffer too.
fn fill_front<S: Samples>(
    field: &ListField<S>,
    y: u32,
    z: u32,
    edges: &[u16],
    ends: &mut [i64],
    places: &mut [u16; ROW_EDGES],
)
    requires y { y < field.now.grid.ny }
    requires z { z < field.now.grid.nz }
    requires edges { AreEdges field.now y z edges.now }
    requires few { length edges.now ≤ 3078 }
    requires room { length ends.old ≡ 3 * field.now.grid.nx }
    ensures { take (length edges.now) places.new ≡ row_places field.now y z }
{
    field.fill_crossings(y, z, edges, ends, &mut places[..edges.len()]);
}

/// Lists the crossing edges of a row of points of these flags at the front of a buffer, and where they are crossed at the front of
/// another, and says how many there are.
fn fill_crossings<S: Samples>(
    field: &ListField<S>,
    flags: &[u8],
    y: u32,
    z: u32,
    row: &mut PlaceBuffers,
) -> usize
    requires y { y < field.now.grid.ny }
    requires z { z < field.now.grid.nz }
    requires count { length flags.now ≡ field.now.grid.nx }
    requires flags { AreFlags field.now y z flags.now }
    requires room { length row.old.ends.items ≡ 3 * field.now.grid.nx }
    ensures count { result ≤ 3078 }
    ensures edges { AreEdges field.now y z (take result row.new.edges) }
    ensures places { take result row.new.places ≡ row_places field.now y z }
    ensures room { length row.new.ends.items ≡ 3 * field.now.grid.nx }
{
    let _ = field.sizes();
    if are_all(flags, 0) {
        return 0;
    }
    let count = list_edges(flags, &mut row.edges);
    let edges = &row.edges[..count];
    fill_front(field, y, z, edges, &mut row.ends, &mut row.places);
    count
}

/// Puts the places of a row behind those of the rows before it.
fn keep_row(row_places: &[u16], places: &mut CrossingPlaces) -> Result<(), AllocError>
    requires { length places.old.list.items < 2 ^ 32 }
    ensures list { IfOk result (λ _. places.new.list.items ≡ places.old.list.items ++ row_places.now) }
    ensures starts { let start = length places.old.list.items in
        IfOk result (λ _. places.new.starts.items ≡ places.old.starts.items ++ (start ∷ [])) }
{
    let start = places.list.len() as u32;
    if row_places.len() > 0 {
        places.list.extend_from_slice(row_places)?;
    }
    places.starts.push(start)?;
    Ok(())
}

/// Adds the places of a row of points of these flags, lists its crossing edges at the front of a buffer, and says how many there are.
pub fn add_row<S: Samples>(
    field: &ListField<S>,
    flags: &[u8],
    y: u32,
    z: u32,
    row: &mut PlaceBuffers,
    places: &mut CrossingPlaces,
) -> Result<usize, AllocError>
    requires y { y < field.now.grid.ny }
    requires z { z < field.now.grid.nz }
    requires count { length flags.now ≡ field.now.grid.nx }
    requires flags { AreFlags field.now y z flags.now }
    requires room { length row.old.ends.items ≡ 3 * field.now.grid.nx }
    requires places { HavePlaces field.now (y + field.now.grid.ny * z) places.old }
    ensures places { IfOk result (λ _. HavePlaces field.now (y + field.now.grid.ny * z + 1) places.new) }
    ensures count { IfOk result (λ n. n ≤ 3078) }
    ensures edges { IfOk result (λ n. AreEdges field.now y z (take n row.new.edges)) }
    ensures room { length row.new.ends.items ≡ 3 * field.now.grid.nx }
{
    let _ = field.sizes();
    let count = fill_crossings(field, flags, y, z, row);
    keep_row(&row.places[..count], places)?;
    Ok(count)
}

/// Adds the places of a row of points where no crossing edge begins.
pub fn add_none<S: Samples>(
    field: &ListField<S>,
    y: u32,
    z: u32,
    places: &mut CrossingPlaces,
) -> Result<(), AllocError>
    requires y { y < field.now.grid.ny }
    requires z { z < field.now.grid.nz }
    requires still { IsStill field.now y z }
    requires places { HavePlaces field.now (y + field.now.grid.ny * z) places.old }
    ensures { IfOk result (λ _. HavePlaces field.now (y + field.now.grid.ny * z + 1) places.new) }
{
    let _ = (field.sizes(), y, z);
    keep_row(&[], places)?;
    Ok(())
}

/// The places of no rows, with room for some: a list that begins small is copied as it grows.
pub fn no_places<S: Samples>(
    alloc: Global,
    field: &ListField<S>,
) -> Result<CrossingPlaces, AllocError>
    ensures { IfOk result (HavePlaces field.now 0) }
{
    let sizes = field.sizes();
    Ok(CrossingPlaces {
        list: Vec::with_capacity(alloc, sizes.count() as usize / 4)?,
        starts: Vec::with_capacity(alloc, (sizes.ny() * sizes.nz()) as usize)?,
    })
}

/// The places of a row of points, which has so many crossing edges.
pub fn place_row<'a, H: Heights>(
    field: &H,
    places: &'a CrossingPlaces,
    y: u32,
    z: u32,
    count: usize,
) -> &'a [u16]
    requires y { y < (H.leveled field.now).grid.ny }
    requires z { z < (H.leveled field.now).grid.nz }
    requires places { HaveAllPlaces (H.leveled field.now) places.now }
    requires count { count ≡ length (row_places (H.leveled field.now) y z) }
    ensures { result.now ≡ row_places (H.leveled field.now) y z }
{
    let sizes = field.sizes();
    let start = places.starts[(y + sizes.ny() * z) as usize] as usize;
    &places.list[start..start + count]
}

/// How many crossing edges begin in a row of points.
pub fn count_row<H: Heights>(field: &H, places: &CrossingPlaces, y: u32, z: u32) -> u32
    requires y { y < (H.leveled field.now).grid.ny }
    requires z { z < (H.leveled field.now).grid.nz }
    requires places { HaveAllPlaces (H.leveled field.now) places.now }
    ensures { result ≡ length (row_names (H.leveled field.now) y z) }
{
    let sizes = field.sizes();
    let row = (y + sizes.ny() * z) as usize;
    let end = if row + 1 < places.starts.len() {
        places.starts[row + 1]
    } else {
        places.list.len() as u32
    };
    end - places.starts[row]
}
