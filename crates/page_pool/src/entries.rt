//! The entries of a chain, lent page by page.
ghost use Rattle.std.specs.Prelude.{◌≡◌, take, drop};
ghost use Rattle.page_pool.specs.Layout.{AreLinked, chain_from};

use crate::layout::{Links, PAGE_ENTRIES, Pages, page_at};
use std::marker::Model;

/// So many entries of a chain, from one of its pages on. Contracts see the list of them. To go on to the next page follows one
/// link.
#[derive(Drop)]
pub struct Entries<'a> {
    pages: &'a Pages,
    links: &'a Links,
    page: u32,
    left: u32,
}

impl<'a> Model for Entries<'a> {
    ghost use Rattle.std.specs.Prelude.{ℕ, List};
    ghost use Rattle.page_pool.specs.Layout.{AreLinked, chain_from};

    ghost Value = { List ℕ };

    ghost view = { λ e. chain_from e.pages.now e.links.now e.page e.left };

    ghost invariant = { λ e. AreLinked e.pages.now e.links.now e.page e.left };
}

impl<'a> Entries<'a> {
    /// So many entries in linked pages.
    #[inline(always)]
    pub(crate) fn new(pages: &'a Pages, links: &'a Links, page: u32, left: u32) -> Entries<'a>
        requires { AreLinked pages.now links.now page left }
        ensures { result ≡ chain_from pages.now links.now page left }
    {
        Entries {
            pages,
            links,
            page,
            left,
        }
    }

    /// The entries of the first page: 32 of them, or all where they are fewer.
    #[inline(always)]
    pub fn front(&self) -> &'a [u32]
        ensures { result.now ≡ take 32 self.now }
    {
        let count = (self.left as usize).min(PAGE_ENTRIES);
        &page_at(self.pages, self.page)[..count]
    }

    /// The entries behind the first page.
    #[inline(always)]
    pub fn rest(self) -> Entries<'a>
        ensures { result ≡ drop 32 self.entry }
    {
        let many = PAGE_ENTRIES as u32;
        if self.left <= many {
            return Entries::new(self.pages, self.links, self.page, 0);
        }
        let next = self.links.at(self.page);
        Entries::new(self.pages, self.links, next, self.left - many)
    }
}
