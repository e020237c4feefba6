//! Kept entries of bricks.
use crate::stores::level_of;
use brick_store::BrickId;
use iso_base::{Level, Memory};
use mesh_cache::{Capacity, MeshCache, Offer};
use std::alloc::Global;
use std::process::Abort;

/// An empty cache of so many bricks and pages.
fn cache_of(alloc: Global, bricks: u32, pages: u32) -> Result<MeshCache, Memory> {
    let Some(capacity) = Capacity::new(bricks, pages) else {
        return Err(Memory);
    };
    MeshCache::new(alloc, capacity)
}

/// What becomes of entries of a brick, if none are kept of it at the level.
fn offer_entries(
    cache: &mut MeshCache,
    brick: u32,
    level: Level,
    entries: &[u32],
) -> Option<Offer> {
    let brick = BrickId(brick);
    if cache.kept(brick, level).is_some() || entries.len() > 512 {
        return None;
    }
    Some(cache.offer(brick, level, entries))
}

/// A brick, a level, the entries that are offered and what becomes of them.
type Offered = (u32, i128, &'static [u32], Offer);

fn check_offers(rt: &impl Abort, cache: &mut MeshCache, offers: &[Offered]) {
    for (brick, level, entries, becomes) in offers {
        let offer = offer_entries(cache, *brick, level_of(rt, *level), entries);
        assert_eq!(rt; offer, Some(*becomes), "{brick} at {level}");
    }
}

/// How many entries of a brick are kept at a level.
fn check_kept(rt: &impl Abort, cache: &MeshCache, counts: &[(u32, i128, Option<u32>)]) {
    for (brick, level, count) in counts {
        let kept = cache.kept(BrickId(*brick), level_of(rt, *level));
        assert_eq!(rt; kept, *count, "{brick} at {level}");
    }
}

/// The same, where the brick goes to the front.
fn check_lookup(rt: &impl Abort, cache: &mut MeshCache, brick: u32, count: Option<u32>) {
    let kept = cache.lookup(BrickId(brick), level_of(rt, 5_000));
    assert_eq!(rt; kept, count);
}

/// Where one brick is kept.
const OF_ONE: [Offered; 3] = [
    (0, 5_000, &[1], Offer::Kept),
    (
        1,
        5_000,
        &[1],
        Offer::NoRoom {
            needed: 1,
            free: 15,
        },
    ),
    (1, 6_000, &[1], Offer::Kept),
];

#[test]
fn the_level_offered_stays(rt: HostRuntime) {
    let mut cache = cache_of(rt.alloc(), 1, 16).expect(&rt, "memory suffices");
    check_offers(&rt, &mut cache, &OF_ONE);
    check_lookup(&rt, &mut cache, 0, None);
}

/// What is kept behind two offers, a look-up of the first brick, and an offer at another level.
const BEHIND_A_LOOKUP: [(u32, i128, Option<u32>); 4] = [
    (7, 5_000, Some(40)),
    (8, 5_000, None),
    (9, 6_000, Some(0)),
    (9, 5_000, None),
];

fn check_stay(rt: &impl Abort, cache: &mut MeshCache) {
    check_offers(
        rt,
        cache,
        &[
            (7, 5_000, &[3; 40], Offer::Kept),
            (8, 5_000, &[4; 8], Offer::Kept),
        ],
    );
    check_lookup(rt, cache, 7, Some(40));
    check_offers(rt, cache, &[(9, 6_000, &[], Offer::Kept)]);
    check_kept(rt, cache, &BEHIND_A_LOOKUP);
}

#[test]
fn what_was_looked_up_stays(rt: HostRuntime) {
    let mut cache = cache_of(rt.alloc(), 2, 16).expect(&rt, "memory suffices");
    check_stay(&rt, &mut cache);
}

/// Forty entries, of which the last differs.
fn forty() -> [u32; 40] {
    let mut entries = [3; 40];
    entries[39] = 5;
    entries
}

fn check_entries(rt: &impl Abort, cache: &MeshCache) {
    assert_eq!(rt; cache.kept(BrickId(7), level_of(rt, 5_000)), Some(40));
    assert_eq!(rt; cache.entry(BrickId(7), 39), 5);
}

fn check_handed_out(rt: &impl Abort, cache: &mut MeshCache) {
    let offer = offer_entries(cache, 7, level_of(rt, 5_000), &forty());
    assert_eq!(rt; offer, Some(Offer::Kept));
    check_entries(rt, cache);
    cache.drop_brick(BrickId(7));
    check_kept(rt, cache, &[(7, 5_000, None)]);
}

#[test]
fn entries_are_handed_out(rt: HostRuntime) {
    let mut cache = cache_of(rt.alloc(), 2, 16).expect(&rt, "memory suffices");
    check_handed_out(&rt, &mut cache);
    let capacity = cache.capacity();
    assert_eq!(rt; (capacity.bricks(), capacity.pages()), (2, 16));
}

fn check_lent(rt: &impl Abort, cache: &MeshCache) {
    let five = cache.kept_entries(BrickId(7), level_of(rt, 5_000));
    let lent = five.expect(rt, "they are kept");
    assert_eq!(rt; lent.front(), [3; 32].as_slice());
    assert_eq!(rt; lent.rest().front(), [3, 3, 3, 3, 3, 3, 3, 5].as_slice());
    let six = cache.kept_entries(BrickId(7), level_of(rt, 6_000));
    assert!(rt; six.is_none());
}

#[test]
fn entries_are_lent_at_their_level(rt: HostRuntime) {
    let mut cache = cache_of(rt.alloc(), 2, 16).expect(&rt, "memory suffices");
    let offer = offer_entries(&mut cache, 7, level_of(&rt, 5_000), &forty());
    assert_eq!(rt; offer, Some(Offer::Kept));
    check_lent(&rt, &cache);
}

/// Numbers of bricks and pages, and whether a cache may have them.
const CAPACITIES: [(u32, u32, bool); 6] = [
    (1, 16, true),
    (65_536, 1_048_576, true),
    (0, 16, false),
    (65_537, 16, false),
    (1, 15, false),
    (1, 1_048_577, false),
];

#[test]
fn capacities_have_ends(rt: HostRuntime) {
    for (bricks, pages, is_one) in CAPACITIES {
        let capacity = Capacity::new(bricks, pages);
        assert_eq!(rt; capacity.is_some(), is_one, "{bricks} {pages}");
    }
}
