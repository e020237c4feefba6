//! Stored points and planes, by coordinates that do not count the pad's layer.

ghost use Rattle.std.specs.Prelude.{◌≡◌, ◌+◌, ◌<◌, ◌≤◌, IfSome};
ghost use Rattle.iso_base.specs.Volume.{inner_grid, layer};
ghost use Rattle.unpadded_volume.specs.Unpadded.{IsInside, place_of, plane_of, stored_coordinate};

use brick_store::BrickStore;
use iso_base::{Point, Sizes};

/// How many layers a pad adds on a side: one, or none without a pad.
pub fn layer_of(store: &BrickStore) -> u32
    ensures value { result ≡ layer store.now.pad }
    ensures bound { result ≤ 1 }
{
    if store.pad().is_some() { 1 } else { 0 }
}

/// The sizes without the pad's layer.
pub fn inner_sizes(store: &BrickStore) -> Sizes
    ensures { result ≡ inner_grid store.now }
{
    let sizes = store.sizes();
    let around = 2 * layer_of(store);
    let inner = Sizes::new(
        u64::from(sizes.nx() - around),
        u64::from(sizes.ny() - around),
        u64::from(sizes.nz() - around),
    );
    match inner {
        Ok(inner) => inner,
        Err(_) => unreachable!(),
    }
}

/// The stored plane z = k, where the volume without its pad has it.
pub fn plane_in(store: &BrickStore, k: i64) -> Option<u32>
    ensures plane { result ≡ plane_of store.now k }
    ensures within { IfSome result (λ p. p < store.now.grid.nz) }
{
    stored_at(store.sizes().nz(), layer_of(store), k)
}

/// The stored point of coordinates, where the volume without its pad has it.
#[tactic(auto, unfolding(crate::specs::Unpadded::place_of))]
pub fn place_in(store: &BrickStore, x: i64, y: i64, z: i64) -> Option<Point>
    ensures place { result ≡ place_of store.now (x, y, z) }
    ensures inside { IfSome result (IsInside store.now) }
{
    let sizes = store.sizes();
    let layer = layer_of(store);
    Some(Point {
        x: stored_at(sizes.nx(), layer, x)?,
        y: stored_at(sizes.ny(), layer, y)?,
        z: stored_at(sizes.nz(), layer, z)?,
    })
}

/// The stored coordinate of one that does not count the layer, along an axis of `n` stored points.
fn stored_at(n: u32, layer: u32, x: i64) -> Option<u32>
    requires layer { layer ≤ 1 }
    requires size { n ≤ 1026 }
    ensures value { result ≡ stored_coordinate n layer x }
    ensures inside { IfSome result (λ p. (layer ≤ p) × (p + layer < n)) }
{
    if 0 <= x && x < i64::from(n) - 2 * i64::from(layer) {
        Some(x as u32 + layer)
    } else {
        None
    }
}
