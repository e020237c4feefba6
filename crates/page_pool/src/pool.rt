//! The pool: lists of numbers in chains of pages.
//!
//! A page's memory is first touched when it is written, and so are the links and lengths: a pool asks for all its pages
//! when it is made, and writes none.

ghost use Rattle.std.specs.Prelude.{◌≡◌, ◌*◌, ◌^◌, ◌<◌, ◌≤◌, ◌↔◌, length, take, drop, slice_index, None, Some, IsErr, IfOk, IfErr, OnErr};
ghost use Rattle.page_pool.specs.Chains.{need, chain_at, Has, entries_at, with_chain, without_chain, no_chains, IsWhole};

use crate::entries::Entries;
use crate::layout::{
    Lengths, Links, PAGE_ENTRIES, Pages, follow, page_at, pages_needed, write_over,
};
use iso_base::Memory;
use std::alloc::Global;
use std::marker::Model;
use thiserror::Error;

/// The name of a chain, which only `Pool::store` gives. No other chain that the pool has goes by it. Letting it go keeps the
/// chain's pages taken for good.
#[derive(Drop)]
pub struct Chain {
    first: u32,
}

impl Model for Chain {
    ghost use Rattle.std.specs.Prelude.{ℕ};

    ghost Value = { ℕ };

    ghost view = { λ c. c.first };
}

/// A list needs more pages than are free. Nothing was stored.
#[derive(Clone, Copy, Debug, PartialEq, Eq, Error)]
#[error("too few free pages")]
pub struct Full {
    /// The pages that the list needs.
    pub needed: u32,
    /// The pages that are free.
    pub free: u32,
}

/// Pages of 32 entries, reserved once, and lists of entries in chains of them. Contracts see the entries of each chain by
/// its name, the number of free pages and that of all pages.
///
/// Each page has a link. A chain goes from page to page by the links, from the page that it is named by, and so do the free
/// pages.
#[derive(Drop)]
pub struct Pool {
    pages: Pages,
    links: Links,
    lengths: Lengths,
    next_free: u32,
    free: u32,
}

impl Model for Pool {
    ghost use Rattle.std.specs.Prelude.{length};
    ghost use Rattle.page_pool.specs.Chains.{Chains};
    ghost use Rattle.page_pool.specs.Layout.{chains_of, IsLaidOut};

    ghost Value = { Chains };

    ghost view = { λ p. record {
      by_name = chains_of p.pages p.links p.lengths;
      free = p.free;
      total = length p.pages;
    } };

    ghost invariant = { λ p. IsLaidOut p.pages p.links p.lengths p.next_free p.free };
}

impl Pool {
    /// A pool of so many pages, all free.
    pub fn new(alloc: Global, pages: u32) -> Result<Pool, Memory>
        requires some { 1 ≤ pages }
        requires few { pages ≤ 2 ^ 20 }
        ensures { IfOk result (λ pool. pool ≡ no_chains pages) }
    {
        let all = Pages::new(alloc, pages)?;
        let links = Links::new(alloc, pages)?;
        let lengths = Lengths::new(alloc, pages)?;
        Ok(Pool {
            pages: all,
            links,
            lengths,
            next_free: 0,
            free: pages,
        })
    }

    /// Stores a list of at most 512 entries, in as many pages as it needs. `Full` comes exactly where fewer are free, and
    /// changes nothing.
    pub fn store(&mut self, entries: &[u32]) -> Result<Chain, Full>
        requires { length entries.now ≤ 512 }
        ensures full { IsErr result ↔ (self.old.free < need (length entries.now)) }
        ensures numbers { IfErr result (λ full. full
            ≡ record { needed = need (length entries.now); free = self.old.free }) }
        ensures unchanged { OnErr result (self.new ≡ self.old) }
        ensures new_name { IfOk result (λ chain. chain_at self.old chain ≡ None) }
        ensures stored { IfOk result (λ chain. chain_at self.new chain ≡ Some entries.now) }
        ensures others { IfOk result (λ chain. self.new ≡ with_chain self.old chain entries.now) }
    {
        let needed = pages_needed(entries.len());
        if needed > self.free {
            return Err(Full {
                needed,
                free: self.free,
            });
        }
        let first = self.next_free;
        self.next_free = write_over(&mut self.pages, &self.links, first, entries);
        self.lengths.put(first, Some(entries.len() as u16));
        self.free -= needed;
        Ok(Chain { first })
    }

    /// How many entries a chain has.
    pub fn length(&self, chain: &Chain) -> u32
        requires { Has self.now chain.now }
        ensures count { result ≡ length (entries_at self.now chain.now) }
        ensures few { result ≤ 512 }
    {
        match self.lengths.at(chain.first) {
            Some(length) => u32::from(length),
            None => 0,
        }
    }

    /// An entry of a chain, by its place in the list that was stored.
    pub fn read(&self, chain: &Chain, place: u32) -> u32
        requires chain { Has self.now chain.now }
        requires place { place < length (entries_at self.now chain.now) }
        ensures { result ≡ slice_index (entries_at self.now chain.now) place }
    {
        let place = place as usize;
        self.page(chain, (place / PAGE_ENTRIES) as u32)[place % PAGE_ENTRIES]
    }

    /// The entries in a page of a chain, by the number of the page in the chain: the next 32 after `32 * number`, or what is
    /// left.
    fn page(&self, chain: &Chain, number: u32) -> &[u32]
        requires chain { Has self.now chain.now }
        requires number { number < need (length (entries_at self.now chain.now)) }
        ensures { result.now ≡ take 32 (drop (32 * number) (entries_at self.now chain.now)) }
    {
        let left = self.length(chain) as usize - PAGE_ENTRIES * number as usize;
        let page = follow(&self.links, chain.first, number);
        &page_at(&self.pages, page)[..left.min(PAGE_ENTRIES)]
    }

    /// The entries of a chain, lent page by page.
    #[inline(always)]
    pub fn entries(&self, chain: &Chain) -> Entries<'_>
        requires { Has self.now chain.now }
        ensures { result ≡ entries_at self.now chain.now }
    {
        let left = self.length(chain);
        Entries::new(&self.pages, &self.links, chain.first, left)
    }

    /// Gives the pages of a chain back. Its name is gone.
    pub fn release(&mut self, chain: Chain)
        requires { Has self.old chain }
        ensures { self.new ≡ without_chain self.old chain }
    {
        let first = chain.first;
        let needed = pages_needed(self.length(&chain) as usize);
        let last = follow(&self.links, first, needed - 1);
        self.links.put(last, self.next_free);
        self.lengths.put(first, None);
        self.next_free = first;
        self.free += needed;
    }

    /// How many pages are free.
    pub fn free(&self) -> u32
        ensures value { result ≡ self.now.free }
        ensures whole { IsWhole self.now }
    {
        self.free
    }

    /// How many pages there are.
    pub fn total(&self) -> u32
        ensures { result ≡ self.now.total }
    {
        self.pages.count()
    }
}
