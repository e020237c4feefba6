//! Lists of a fixed length of which a front is written, as far as it is needed.
ghost use Rattle.std.specs.Prelude.{◌≡◌, ℕ, ◌+◌, ◌-◌, ◌^◌, ◌<◌, ◌≤◌, IfOk, MatchOption, Some, length, map, slice_get, slice_set, vec_capacity};
ghost use Rattle.iso_defs.specs.Lists.{below};
ghost use Rattle.page_pool.specs.Layout.{all_items};

use std::alloc::{AllocError, Global};
use std::marker::Model;

/// What a late list has one of at each place.
pub(crate) trait Item: Copy + Drop {
    ghost blank: { ℕ → Self };

    /// What stands at a place that nothing was written to.
    fn blank(at: u32) -> Self
        requires { at < 2 ^ 32 - 1 }
        ensures { result ≡ blank at };
}

/// So many items, reserved once, blank at first. Contracts see the list of them. Memory is touched for an item where one is
/// first written that does not stand before it, so that a list of many items is made at once.
#[derive(Drop)]
pub(crate) struct LateList<T: Item> {
    written: Vec<T>,
    total: u32,
}

impl<T: Item> Model for LateList<T> {
    ghost use Rattle.std.specs.Prelude.{ℕ, ◌^◌, ◌<◌, ◌≤◌, List, length, vec_capacity};
    ghost use Rattle.page_pool.specs.Layout.{all_items};

    ghost Value = { List T };

    ghost view = { λ l. all_items T.blank l.written.items l.total };

    ghost invariant = { λ l. (length l.written.items ≤ l.total)
        × ((l.total ≤ vec_capacity l.written) × (l.total < 2 ^ 32)) };
}

/// Writes blank items as far as one place.
fn reach<T: Item>(written: &mut Vec<T>, at: u32)
    requires room { at < vec_capacity written.old }
    requires few { at < 2 ^ 32 - 1 }
    ensures items { (total : ℕ) → at < total
        → all_items T.blank written.new.items total ≡ all_items T.blank written.old.items total }
    ensures inside { at < length written.new.items }
    ensures within { (total : ℕ) → at < total → length written.old.items ≤ total → length written.new.items ≤ total }
    ensures capacity { vec_capacity written.old ≤ vec_capacity written.new }
{
    for next in written.len()..at as usize + 1 {
        written.push(T::blank(next as u32)).unwrap();
    }
}

impl<T: Item> LateList<T> {
    /// So many blank items.
    pub(crate) fn new(alloc: Global, total: u32) -> Result<LateList<T>, AllocError>
        ensures { IfOk result (λ l. l ≡ map T.blank (below total)) }
    {
        let written = Vec::with_capacity(alloc, total as usize)?;
        Ok(LateList { written, total })
    }

    /// How many items there are.
    pub(crate) fn count(&self) -> u32
        ensures { result ≡ length self.now }
    {
        self.total
    }

    /// The item at a place, if it or one behind it was written: else a blank one stands there.
    #[inline(always)]
    pub(crate) fn get(&self, at: u32) -> Option<&T>
        requires { at < length self.now }
        ensures { MatchOption result (slice_get self.now at ≡ Some (T.blank at))
            (λ item. slice_get self.now at ≡ Some item.now) }
    {
        self.written.get(at as usize)
    }

    /// The item at a place.
    #[inline(always)]
    pub(crate) fn at(&self, at: u32) -> T
        requires { at < length self.now }
        ensures { slice_get self.now at ≡ Some result }
    {
        match self.written.get(at as usize) {
            Some(item) => *item,
            None => T::blank(at),
        }
    }

    /// Writes an item.
    pub(crate) fn put(&mut self, at: u32, item: T)
        requires { at < length self.old }
        ensures { self.new ≡ slice_set self.old at item }
    {
        reach(&mut self.written, at);
        self.written[at as usize] = item;
    }
}
