//! Pages, and the links that lead from one to the next.
//!
//! Why: DECISIONS.md, "Chains of pages".
ghost use Rattle.std.specs.Prelude.{◌≡◌, ℕ, ◌+◌, ◌-◌, ◌/◌, ◌<◌, ◌≤◌, ◌≢◌, [], None, length, take, slice_index_or, All};
ghost use Rattle.page_pool.specs.Chains.{need};
ghost use Rattle.page_pool.specs.Layout.{follow, content, blank};

use crate::late_list::{Item, LateList};

/// How many entries a page has room for.
pub(crate) const PAGE_ENTRIES: usize = 32;

/// A page of the pool.
pub(crate) type Page = [u32; PAGE_ENTRIES];

/// A page that nothing was written to.
const BLANK: Page = [0; PAGE_ENTRIES];

impl Item for Page {
    ghost blank = { λ _. blank };

    fn blank(_at: u32) -> Page {
        BLANK
    }
}

/// A link leads to the next page at first.
impl Item for u32 {
    ghost blank = { λ page. page + 1 };

    fn blank(at: u32) -> u32 {
        at + 1
    }
}

/// At first no chain begins at a page, so that there is no number of its entries.
impl Item for Option<u16> {
    ghost blank = { λ _. None };

    fn blank(_at: u32) -> Option<u16> {
        None
    }
}

/// The pages of a pool.
pub(crate) type Pages = LateList<Page>;

/// For each page of a pool the one that follows it.
pub(crate) type Links = LateList<u32>;

/// For each page of a pool the number of entries of the chain that begins there, if one does.
pub(crate) type Lengths = LateList<Option<u16>>;

/// A page of a pool.
pub(crate) fn page_at(pages: &Pages, page: u32) -> &Page
    requires { page < length pages.now }
    ensures { result.now ≡ slice_index_or pages.now page [] }
{
    match pages.get(page) {
        Some(page) => page,
        None => &BLANK,
    }
}

/// How many pages a list of so many entries needs, which is one at least.
pub fn pages_needed(entries: usize) -> u32
    requires { entries ≤ 512 }
    ensures { result ≡ need entries }
{
    (entries.div_ceil(PAGE_ENTRIES) as u32).max(1)
}

/// The page that `steps` links lead to.
pub(crate) fn follow(links: &Links, from: u32, steps: u32) -> u32
    requires { (k : ℕ) → k < steps → follow links.now k from < length links.now }
    ensures { result ≡ follow links.now steps from }
{
    let mut page = from;
    for _ in 0..steps {
        page = links.at(page);
    }
    page
}

/// A page that begins with these entries.
fn page_of(entries: &[u32]) -> Page
    requires { length entries.now ≤ 32 }
    ensures entries { take (length entries.now) result ≡ entries.now }
    ensures len { length result ≡ 32 }
{
    let mut page = [0; PAGE_ENTRIES];
    page[..entries.len()].copy_from_slice(entries);
    page
}

/// Writes entries over as many linked pages as they need, and gives the page that follows them.
pub(crate) fn write_over(pages: &mut Pages, links: &Links, first: u32, entries: &[u32]) -> u32
    requires few { length entries.now ≤ 512 }
    requires links { length links.now ≡ length pages.old }
    requires whole { All (λ page. length page ≡ 32) pages.old }
    requires inside { (k : ℕ) → k < need (length entries.now) → follow links.now k first < length links.now }
    requires apart { (k j : ℕ) → k < need (length entries.now) → j < need (length entries.now)
        → follow links.now k first ≡ follow links.now j first → k ≡ j }
    ensures next { result ≡ follow links.now (need (length entries.now)) first }
    ensures count { length pages.new ≡ length pages.old }
    ensures whole { All (λ page. length page ≡ 32) pages.new }
    ensures written { take (length entries.now) (content pages.new links.now (need (length entries.now)) first)
        ≡ entries.now }
    ensures others { (page : ℕ) → ((k : ℕ) → k < need (length entries.now) → follow links.now k first ≢ page)
        → slice_index_or pages.new page [] ≡ slice_index_or pages.old page [] }
{
    let mut page = first;
    for k in 0..pages_needed(entries.len()) as usize {
        let start = PAGE_ENTRIES * k;
        let end = entries.len().min(start + PAGE_ENTRIES);
        pages.put(page, page_of(&entries[start..end]));
        page = links.at(page);
    }
    page
}
