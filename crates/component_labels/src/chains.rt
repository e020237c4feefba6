//! The pairs that begin at each label.

ghost use Rattle.std.specs.Prelude.{◌≡◌, ℕ, ◌+◌, ◌<◌, ◌≤◌, ◌^◌, All, IfOk, length, slice_index};
ghost use Rattle.component_labels.specs.Chains.{AreChained, BeginsBelow};

use iso_base::Memory;
use std::alloc::Global;

/// For each label the number of the last pair that begins at it, and for each pair that of the one before it that begins at the same
/// label: one more than the pair's place, or 0 where there is none.
#[derive(Drop)]
pub struct Chains {
    pub last: Vec<u32>,
    pub before: Vec<u32>,
}

/// Chains all pairs, where no label has one yet.
fn chain_all(pairs: &[(u32, u32)], last: &mut [u32], before: &mut [u32])
    requires few { length pairs.now < 2 ^ 32 }
    requires inside { All (BeginsBelow (length last.old)) pairs.now }
    requires room { length before.old ≡ length pairs.now }
    requires none { (a : ℕ) → a < length last.old → slice_index last.old a ≡ 0 }
    ensures { AreChained pairs.now (length pairs.now) last.new before.new }
{
    for at in 0..pairs.len() {
        let label = pairs[at].0 as usize;
        before[at] = last[label];
        last[label] = at as u32 + 1;
    }
}

impl Chains {
    /// The chains of pairs of labels below a number.
    pub fn of(alloc: Global, count: u32, pairs: &[(u32, u32)]) -> Result<Chains, Memory>
        requires few { length pairs.now < 2 ^ 32 }
        requires inside { All (BeginsBelow count) pairs.now }
        ensures chained { IfOk result (λ c. AreChained pairs.now (length pairs.now) c.last.items c.before.items) }
        ensures labels { IfOk result (λ c. length c.last.items ≡ count) }
        ensures pairs { IfOk result (λ c. length c.before.items ≡ length pairs.now) }
    {
        let mut last = vec![in alloc; 0u32; count as usize]?;
        let mut before = vec![in alloc; 0u32; pairs.len()]?;
        chain_all(pairs, last.as_mut_slice(), before.as_mut_slice());
        Ok(Chains { last, before })
    }
}
