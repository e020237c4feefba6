//! Lists of numbers that were asked for last, each under a key.
//!
//! Why: DECISIONS.md, "Where edges are crossed is kept for a list, and computed again for bricks".
ghost use Rattle.std.specs.Prelude.{◌≡◌, ◌⊎◌, ℕ, ◌+◌, ◌/◌, ◌%◌, ◌^◌, ◌<◌, ◌≤◌, ◌++◌, IfOk, List, [], drop, length, set, slice_index, take};
ghost use Rattle.std.specs.Bool.{OnTrue};
ghost use Rattle.stitch.specs.Recent.{AreNoted, AreWithin, HasNone, IsKept, IsNoted, IsPut, IsWithoutKeys, numbers_in, numbers_of};

use iso_base::Memory;
use std::alloc::Global;

/// The places for lists: three for each of 16,384 rows, which are all rows of a volume of 128 points along each axis.
pub const LIST_PLACES: usize = 49_152;

/// The most numbers that are used, however many there is room for.
const MOST_NUMBERS: usize = (1 << 31) - 1;

/// Stands in place of where a list begins where none is noted.
const NO_LIST: u32 = u32::MAX;

/// Lists of numbers, each under a key. A key has a place, by its remainder, where it is noted how often the number of places goes into
/// the key whose list was put there last, where among the numbers that list begins, and how long it is. Each list is put behind the one
/// before, and where there is no more room, all are let go: none that is noted is ever written over. `most` is how many numbers there
/// may be: the more, the more lists are kept, and none where there is no room.
#[derive(Drop)]
pub struct RecentLists {
    pub tags: Box<[u8; LIST_PLACES]>,
    pub starts: Box<[u32; LIST_PLACES]>,
    pub counts: Box<[u16; LIST_PLACES]>,
    pub numbers: Option<Vec<u16>>,
    pub most: usize,
}

// Each of these is apart, so that the table is the only one in its frame, and gone from the stack then.

#[inline(never)]
fn new_tags(alloc: Global) -> Result<Box<[u8; LIST_PLACES]>, Memory> {
    Ok(Box::new(alloc, [0; LIST_PLACES])?)
}

#[inline(never)]
fn new_starts(alloc: Global) -> Result<Box<[u32; LIST_PLACES]>, Memory> {
    Ok(Box::new(alloc, [0; LIST_PLACES])?)
}

#[inline(never)]
fn new_counts(alloc: Global) -> Result<Box<[u16; LIST_PLACES]>, Memory> {
    Ok(Box::new(alloc, [0; LIST_PLACES])?)
}

/// Where the list of a key is noted.
#[inline(always)]
fn place_of(key: u32) -> usize
    ensures value { result ≡ key % 49152 }
    ensures bound { result < 49152 }
{
    key as usize % LIST_PLACES
}

/// What is noted of a key there.
#[inline(always)]
fn tag_of(key: u32) -> u8
    requires { key < 2 ^ 23 }
    ensures { result ≡ key / 49152 }
{
    (key as usize / LIST_PLACES) as u8
}

/// The numbers of a room.
#[inline(always)]
fn numbers_in(room: &Option<Vec<u16>>) -> &[u16]
    ensures { result.now ≡ numbers_in room.now }
{
    match room {
        Some(numbers) => numbers.as_slice(),
        None => &[],
    }
}

/// For how many numbers a room has memory, as far as they are used.
fn most_in(room: &Option<Vec<u16>>) -> usize
    ensures { result < 2 ^ 31 }
{
    match room {
        Some(numbers) => numbers.capacity().min(MOST_NUMBERS),
        None => 0,
    }
}

/// Lets the numbers of a room go.
fn clear(room: &mut Option<Vec<u16>>)
    ensures { numbers_in room.new ≡ [] }
{
    if let Some(numbers) = room {
        numbers.clear();
    }
}

/// Puts a list behind the numbers of a room, and says whether it is there.
#[inline(always)]
fn push_list(list: &[u16], room: &mut Option<Vec<u16>>) -> bool
    ensures { OnTrue result (numbers_in room.new ≡ numbers_in room.old ++ list.now) }
{
    match room {
        Some(numbers) => numbers.extend_from_slice(list).is_ok(),
        None => false,
    }
}

/// Tells contracts how many places there are, and does nothing else.
#[inline(always)]
fn tell_places(tags: &[u8; LIST_PLACES], starts: &[u32; LIST_PLACES], counts: &[u16; LIST_PLACES])
    ensures tags { length tags.now ≡ 49152 }
    ensures starts { length starts.now ≡ 49152 }
    ensures counts { length counts.now ≡ 49152 }
{
    let _ = (tags.len(), starts.len(), counts.len());
}

/// Whether a list is noted at the place of a key, and is its own.
#[inline(always)]
fn is_noted(tags: &[u8; LIST_PLACES], starts: &[u32; LIST_PLACES], key: u32) -> bool
    requires { key < 2 ^ 23 }
    ensures { OnTrue result (AreNoted tags.now starts.now key) }
{
    let place = place_of(key);
    tags[place] == tag_of(key) && starts[place] != NO_LIST
}

/// The list at a place.
#[inline(always)]
fn part_of<'n>(
    starts: &[u32; LIST_PLACES],
    counts: &[u16; LIST_PLACES],
    room: &'n Option<Vec<u16>>,
    place: usize,
) -> &'n [u16]
    requires place { place < 49152 }
    requires inside { slice_index starts.now place + slice_index counts.now place ≤ length (numbers_in room.now) }
    ensures { result.now
        ≡ take (slice_index counts.now place) (drop (slice_index starts.now place) (numbers_in room.now)) }
{
    let start = starts[place] as usize;
    &numbers_in(room)[start..start + counts[place] as usize]
}

impl RecentLists {
    /// No lists, and room for their numbers.
    pub fn new(alloc: Global, numbers: Option<Vec<u16>>) -> Result<RecentLists, Memory>
        ensures within { IfOk result AreWithin }
        ensures none { IfOk result HasNone }
    {
        let most = most_in(&numbers);
        let mut lists = RecentLists {
            tags: new_tags(alloc)?,
            starts: new_starts(alloc)?,
            counts: new_counts(alloc)?,
            numbers,
            most,
        };
        lists.forget();
        Ok(lists)
    }

    /// Lets all lists go.
    pub fn forget(&mut self)
        ensures within { self.old.most < 2 ^ 31 → AreWithin self.new }
        ensures none { HasNone self.new }
        ensures most { self.new.most ≡ self.old.most }
        ensures numbers { numbers_of self.new ≡ [] }
    {
        tell_places(&self.tags, &self.starts, &self.counts);
        self.starts.fill(NO_LIST);
        clear(&mut self.numbers);
    }

    /// Lets the lists of the keys from one to before another go, and those that stand in their places.
    pub fn forget_keys(&mut self, from: u32, end: u32)
        ensures { IsWithoutKeys from end self.old self.new }
    {
        tell_places(&self.tags, &self.starts, &self.counts);
        for key in from..end {
            self.starts[place_of(key)] = NO_LIST;
        }
    }

    /// Whether the list of a key is kept.
    #[inline(always)]
    pub fn has(&self, key: u32) -> bool
        requires within { AreWithin self.now }
        requires key { key < 2 ^ 23 }
        ensures { OnTrue result (IsNoted self.now key) }
    {
        is_noted(&self.tags, &self.starts, key)
    }

    /// The list of a key that is kept.
    #[inline(always)]
    pub fn list(&self, key: u32) -> &[u16]
        requires within { AreWithin self.now }
        requires noted { IsNoted self.now key }
        ensures { IsKept self.now key result.now }
    {
        part_of(&self.starts, &self.counts, &self.numbers, place_of(key))
    }

    /// Lets all lists go if so many numbers more do not fit behind them.
    #[inline(always)]
    fn make_room(&mut self, count: usize)
        requires within { AreWithin self.old }
        requires few { count ≤ self.old.most }
        ensures within { AreWithin self.new }
        ensures kept { (k : ℕ) → (l : List ℕ) → IsKept self.new k l → IsKept self.old k l }
        ensures room { length (numbers_of self.new) + count ≤ self.new.most }
    {
        if self.most - numbers_in(&self.numbers).len() < count {
            self.forget();
        }
    }

    /// Notes where the list of a key was put.
    #[inline(always)]
    fn note(&mut self, key: u32, start: usize, count: usize)
        requires key { key < 2 ^ 23 }
        requires few { count ≤ 4096 }
        requires low { start < 2 ^ 31 }
        ensures tags { self.new.tags.value ≡ set self.old.tags.value (key % 49152) (key / 49152) }
        ensures starts { self.new.starts.value ≡ set self.old.starts.value (key % 49152) start }
        ensures counts { self.new.counts.value ≡ set self.old.counts.value (key % 49152) count }
        ensures numbers { self.new.numbers ≡ self.old.numbers }
        ensures most { self.new.most ≡ self.old.most }
    {
        let place = place_of(key);
        self.tags[place] = tag_of(key);
        self.starts[place] = start as u32;
        self.counts[place] = count as u16;
    }

    /// Keeps a list under a key, if there is room for it.
    pub fn put(&mut self, key: u32, list: &[u16])
        requires within { AreWithin self.old }
        requires key { key < 2 ^ 23 }
        requires few { length list.now ≤ 4096 }
        ensures within { AreWithin self.new }
        ensures each { (k : ℕ) → (l : List ℕ) → IsKept self.new k l → IsPut key list.now k l ⊎ IsKept self.old k l }
    {
        if self.most < list.len() {
            return;
        }
        self.make_room(list.len());
        let start = numbers_in(&self.numbers).len();
        if push_list(list, &mut self.numbers) {
            self.note(key, start, list.len());
        } else {
            self.forget();
        }
    }
}
