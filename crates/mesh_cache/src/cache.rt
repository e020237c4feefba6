//! The cache of the entries of bricks, each at a level.
//!
//! `lookup`, `entry` and `capacity` are for users of one entry, or of the order of use. The program reads by
//! `kept_entries` alone, which lends a brick's entries page by page and leaves the order.

ghost use Rattle.std.specs.Prelude.{◌≡◌, ◌-◌, ◌<◌, ◌≤◌, length, take, slice_index, option_map, None, IfOk, IfSome};
ghost use Rattle.std.specs.Ordering.{int_eq};
ghost use Rattle.page_pool.specs.Chains.{need};
ghost use Rattle.mesh_cache.specs.Cache.{IsCache, empty_cache, with_items, item_of, entries_of, kept_at, without, looked_up, has_room, gives_way, room_made};

use crate::Capacity;
use brick_store::BrickId;
use iso_base::{Level, Memory};
use lru::LruCache;
use page_pool::{Chain, Entries, Full, Pool, pages_needed};
use std::alloc::Global;
use std::marker::Model;
use std::num::NonZeroUsize;

/// What is filed of a brick: the level, and the chain that has the entries.
#[derive(Drop)]
struct Filed {
    level: Level,
    chain: Chain,
}

impl Filed {
    /// Whether the entries are those at a level.
    fn is_at(&self, level: Level) -> bool
        ensures { result ≡ int_eq self.now.level level }
    {
        self.level == level
    }
}

/// What became of an offer of entries.
#[derive(Clone, Copy, Debug, PartialEq, Eq)]
pub enum Offer {
    /// The entries are kept.
    Kept,
    /// No further item may go, and the cache is full or has too few pages free.
    NoRoom {
        /// The pages that the entries need.
        needed: u32,
        /// The pages that are free, with the items gone that went for the offer.
        free: u32,
    },
    /// There is room, but no memory for one more place in the order of use. It is counted.
    NoMemory,
}

/// Entries of bricks, each at a level, one item for a brick. Contracts see the items, the most recently used first, the
/// capacity, and how often memory was wanting.
///
/// The order of use has a chain of the pool for each item, and every chain of the pool stands in it.
#[derive(Drop)]
pub struct MeshCache {
    filed: LruCache<u32, Filed>,
    pool: Pool,
    capacity: Capacity,
    missed: u64,
}

impl Model for MeshCache {
    ghost use Rattle.mesh_cache.specs.Cache.{Cache};
    ghost use Rattle.mesh_cache.specs.Filing.{items_in, IsFiled};

    ghost Value = { Cache };

    ghost view = { λ c. record { items = items_in c.pool c.filed.entries; limits = c.capacity; missed = c.missed } };

    ghost invariant = { λ c. IsFiled c.filed c.pool c.capacity };
}

impl MeshCache {
    ghost use Rattle.mesh_cache.specs.Offering.{Puts, Offers};

    /// An empty cache.
    pub fn new(alloc: Global, capacity: Capacity) -> Result<MeshCache, Memory>
        ensures { IfOk result (λ cache. cache ≡ empty_cache capacity) }
    {
        let bricks = NonZeroUsize::new(capacity.bricks() as usize).unwrap();
        Ok(MeshCache {
            filed: LruCache::new(alloc, bricks)?,
            pool: Pool::new(alloc, capacity.pages())?,
            capacity,
            missed: 0,
        })
    }

    /// How many entries are kept of a brick at a level, whose item goes to the front; none exactly where the brick has no item
    /// there, which changes nothing.
    pub fn lookup(&mut self, brick: BrickId, level: Level) -> Option<u32>
        ensures count { result ≡ option_map length (kept_at brick.0 level self.old.items) }
        ensures few { IfSome result (λ count. count ≤ 512) }
        ensures items { self.new ≡ with_items self.old (looked_up brick.0 level self.old.items) }
    {
        let count = self.kept(brick, level)?;
        self.filed.promote(&brick.0);
        Some(count)
    }

    /// How many entries are kept of a brick at a level, as `lookup` answers; the order of use stays.
    pub fn kept(&self, brick: BrickId, level: Level) -> Option<u32>
        ensures count { result ≡ option_map length (kept_at brick.0 level self.now.items) }
        ensures few { IfSome result (λ count. count ≤ 512) }
    {
        let filed = self.filed.peek(&brick.0)?;
        if !filed.is_at(level) {
            return None;
        }
        Some(self.pool.length(&filed.chain))
    }

    /// The entries that are kept of a brick at a level, lent page by page; the order of use stays.
    #[inline(always)]
    pub fn kept_entries(&self, brick: BrickId, level: Level) -> Option<Entries<'_>>
        ensures { result ≡ kept_at brick.0 level self.now.items }
    {
        if self.filed.is_empty() {
            return None;
        }
        let filed = self.filed.peek(&brick.0)?;
        if !filed.is_at(level) {
            return None;
        }
        Some(self.pool.entries(&filed.chain))
    }

    /// How much the cache may keep.
    pub fn capacity(&self) -> Capacity
        ensures value { result ≡ self.now.limits }
        ensures cache { IsCache self.now }
    {
        self.capacity
    }

    /// An entry of a brick that is kept.
    pub fn entry(&self, brick: BrickId, place: u32) -> u32
        requires { place < length (entries_of brick.0 self.now.items) }
        ensures { result ≡ slice_index (entries_of brick.0 self.now.items) place }
    {
        match self.filed.peek(&brick.0) {
            Some(filed) => self.pool.read(&filed.chain, place),
            None => unreachable!(),
        }
    }

    /// Removes what is kept of a brick, at whatever level. The others stay in their order.
    pub fn drop_brick(&mut self, brick: BrickId)
        ensures { self.new ≡ with_items self.old (without brick.0 self.old.items) }
    {
        if let Some(filed) = self.filed.pop(&brick.0) {
            self.pool.release(filed.chain);
        }
    }

    /// Offers at most 512 entries of a brick at a level, at which it has no item. First what the brick has at another level
    /// goes, then, while there is no room, the least recently used item, unless it is at the level offered. What there is room
    /// for then is put first; else the items are left with these removals alone.
    pub fn offer(&mut self, brick: BrickId, level: Level, entries: &[u32]) -> Offer
        requires few { length entries.now ≤ 512 }
        requires none { kept_at brick.0 level self.old.items ≡ None }
        ensures { Offers self.old (record { brick = brick.0; level = level; entries = entries.now }) result self.new }
    {
        self.drop_brick(brick);
        self.make_room(level, pages_needed(entries.len()));
        self.put(brick, level, entries)
    }

    /// Drops the least recently used items while there is no room, up to one at the level.
    fn make_room(&mut self, level: Level, needed: u32)
        ensures { self.new ≡ with_items self.old (room_made self.old.limits level needed self.old.items) }
    {
        while !self.has_room(needed) && self.gives_way(level) {
            self.drop_last();
        }
    }

    /// Whether there is room for an item of so many pages.
    fn has_room(&self, needed: u32) -> bool
        ensures { result ≡ has_room self.now.limits needed self.now.items }
    {
        needed <= self.pool.free() && self.filed.len() < self.capacity.bricks() as usize
    }

    /// Whether there is a least recently used item, and it is at another level.
    fn gives_way(&self, level: Level) -> bool
        ensures { result ≡ gives_way level self.now.items }
    {
        match self.filed.peek_lru() {
            Some((_, filed)) => !filed.is_at(level),
            None => false,
        }
    }

    /// Drops the least recently used item, if there is one.
    fn drop_last(&mut self)
        ensures { self.new ≡ with_items self.old (take (length self.old.items - 1) self.old.items) }
    {
        if let Some((_, filed)) = self.filed.pop_lru() {
            self.pool.release(filed.chain);
        }
    }

    /// Puts the entries of a brick first, where there is room. The brick has no item.
    fn put(&mut self, brick: BrickId, level: Level, entries: &[u32]) -> Offer
        requires few { length entries.now ≤ 512 }
        requires none { item_of brick.0 self.old.items ≡ None }
        ensures { Puts self.old (record { brick = brick.0; level = level; entries = entries.now }) result self.new }
    {
        if self.filed.len() >= self.capacity.bricks() as usize {
            return Offer::NoRoom {
                needed: pages_needed(entries.len()),
                free: self.pool.free(),
            };
        }
        let chain = match self.pool.store(entries) {
            Ok(chain) => chain,
            Err(Full { needed, free }) => return Offer::NoRoom { needed, free },
        };
        match self.filed.put(brick.0, Filed { level, chain }) {
            Ok(_) => Offer::Kept,
            Err(refused) => {
                let (_, filed) = refused.value;
                self.pool.release(filed.chain);
                self.missed = self.missed.saturating_add(1);
                Offer::NoMemory
            }
        }
    }
}
