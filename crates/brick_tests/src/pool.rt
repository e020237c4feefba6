//! Pages that lists are stored in.
ghost use Rattle.page_pool.specs.Chains.{Has};

use page_pool::{Chain, Full, Pool, pages_needed};
use std::process::Abort;

/// One entry more than a page has room for.
fn entries() -> [u32; 33] {
    let mut entries = [7; 33];
    entries[31] = 8;
    entries[32] = 9;
    entries
}

/// The chain of these entries, for which there is room.
fn store_chain(rt: &impl Abort, pool: &mut Pool) -> Chain
    ensures { Has pool.new result }
{
    pool.store(&entries()).expect(rt, "there is room")
}

/// A list that is too long changes nothing, and a chain that is released gives its pages back.
fn check_full(rt: &impl Abort, pool: &mut Pool) {
    let chain = store_chain(rt, pool);
    assert_eq!(rt; pool.free(), 14);
    let full = pool.store(&[7; 512]).err();
    assert!(rt;
        full == Some(Full {
            needed: 16,
            free: 14
        })
    );
    pool.release(chain);
}

fn check_empty(rt: &impl Abort, pool: &mut Pool) {
    let empty = pool.store(&[]).expect(rt, "there is room");
    assert_eq!(rt; (pool.free(), pool.length(&empty)), (15, 0));
}

fn check_pages(rt: &impl Abort, pool: &mut Pool) {
    assert_eq!(rt; (pool.total(), pool.free()), (16, 16));
    check_full(rt, pool);
    assert_eq!(rt; pool.free(), 16);
    check_empty(rt, pool);
}

#[test]
fn pages_come_and_go(rt: HostRuntime) {
    let mut pool = Pool::new(rt.alloc(), 16).expect(&rt, "memory suffices");
    check_pages(&rt, &mut pool);
}

/// The entry at a place of a chain.
fn entry(pool: &Pool, chain: &Chain, place: u32) -> Option<u32>
    requires { Has pool.now chain.now }
{
    if place < pool.length(chain) {
        return Some(pool.read(chain, place));
    }
    None
}

fn check_entries(rt: &impl Abort, pool: &Pool, chain: &Chain)
    requires { Has pool.now chain.now }
{
    assert_eq!(rt; pool.length(chain), 33);
    for (place, value) in [(31, Some(8)), (32, Some(9))] {
        assert_eq!(rt; entry(pool, chain, place), value);
    }
}

#[test]
fn a_chain_is_read(rt: HostRuntime) {
    let mut pool = Pool::new(rt.alloc(), 16).expect(&rt, "memory suffices");
    let chain = store_chain(&rt, &mut pool);
    check_entries(&rt, &pool, &chain);
}

fn check_lent(rt: &impl Abort, pool: &Pool, chain: &Chain)
    requires { Has pool.now chain.now }
{
    let lent = pool.entries(chain);
    let mut page = [7; 32];
    page[31] = 8;
    assert_eq!(rt; lent.front(), page.as_slice());
    let rest = lent.rest();
    assert_eq!(rt; rest.front(), [9].as_slice());
    assert!(rt; rest.rest().front().is_empty());
}

#[test]
fn a_chain_is_lent_page_by_page(rt: HostRuntime) {
    let mut pool = Pool::new(rt.alloc(), 16).expect(&rt, "memory suffices");
    let chain = store_chain(&rt, &mut pool);
    check_lent(&rt, &pool, &chain);
}

#[test]
fn lists_need_whole_pages(rt: HostRuntime) {
    for (entries, pages) in [(0, 1), (32, 1), (33, 2), (512, 16)] {
        assert_eq!(rt; pages_needed(entries), pages, "of {entries}");
    }
}
