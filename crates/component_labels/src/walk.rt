//! A walk over labels, breadth first.

ghost use Rattle.std.specs.Prelude.{◌≡◌, ◌≢◌, ℕ, ◌+◌, ◌<◌, ◌≤◌, ◌^◌, [], All, IfOk, List, OnOk, length, slice_index};
ghost use Rattle.part_laws.specs.Meets.{least_joined as joined};
ghost use Rattle.component_labels.specs.Chains.{AreChained, ArePaired, BeginsBelow, begins_at, ends_at};
ghost use Rattle.component_labels.specs.Walks.{AreClosed, IsLeast, IsSpread, Keeps, none, unseen};

use crate::chains::Chains;
use iso_base::Memory;
use std::alloc::Global;

/// The mark of a label that was not seen.
const UNSEEN_LABEL: u32 = u32::MAX;

/// Sees a label from a start: puts it last in the queue, unless it was seen before.
fn see(least: &mut [u32], queue: &mut Vec<u32>, label: u32, start: u32) -> Result<(), Memory>
    requires label { label < length least.old }
    requires start { start < none }
    ensures seen { OnOk result (slice_index least.new label ≢ none) }
    ensures kept { OnOk result (Keeps start least.old queue.old.items least.new queue.new.items) }
    ensures spread { OnOk result ((ps : List (ℕ × ℕ)) → IsSpread ps start least.old queue.old.items →
        joined ps label ≡ joined ps start
        → IsSpread ps start least.new queue.new.items) }
{
    if least[label as usize] == UNSEEN_LABEL {
        queue.push(label)?;
        least[label as usize] = start;
    }
    Ok(())
}

/// Sees the ends of the pairs that begin at a label.
fn see_ends(
    chains: &Chains,
    pairs: &[(u32, u32)],
    least: &mut [u32],
    queue: &mut Vec<u32>,
    label: u32,
    start: u32,
) -> Result<(), Memory>
    requires chained { AreChained pairs.now (length pairs.now) chains.now.last.items chains.now.before.items }
    requires labels { length chains.now.last.items ≡ length least.old }
    requires links { length chains.now.before.items ≡ length pairs.now }
    requires paired { ArePaired (length least.old) pairs.now }
    requires label { label < length least.old }
    requires start { start < none }
    requires spread { IsSpread pairs.now start least.old queue.old.items }
    requires same { joined pairs.now label ≡ joined pairs.now start }
    ensures spread { OnOk result (IsSpread pairs.now start least.new queue.new.items) }
    ensures kept { OnOk result (Keeps start least.old queue.old.items least.new queue.new.items) }
    ensures ends { OnOk result ((i : ℕ) → i < length pairs.now → begins_at pairs.now i ≡ label →
        slice_index least.new (ends_at pairs.now i) ≢ none) }
{
    let mut left = chains.last[label as usize];
    while left > 0 {
        let at = left as usize - 1;
        see(least, queue, pairs[at].1, start)?;
        left = chains.before[at];
    }
    Ok(())
}

/// Walks on until the pairs of each label in the queue were followed, and answers how many labels that are.
fn walk_on(
    chains: &Chains,
    pairs: &[(u32, u32)],
    least: &mut [u32],
    queue: &mut Vec<u32>,
    start: u32,
    before: usize,
) -> Result<usize, Memory>
    requires chained { AreChained pairs.now (length pairs.now) chains.now.last.items chains.now.before.items }
    requires labels { length chains.now.last.items ≡ length least.old }
    requires links { length chains.now.before.items ≡ length pairs.now }
    requires paired { ArePaired (length least.old) pairs.now }
    requires start { start < none }
    requires spread { IsSpread pairs.now start least.old queue.old.items }
    requires older { AreClosed pairs.now start least.old queue.old.items before }
    ensures spread { OnOk result (IsSpread pairs.now start least.new queue.new.items) }
    ensures kept { OnOk result (Keeps start least.old queue.old.items least.new queue.new.items) }
    ensures closed { IfOk result (λ walked. AreClosed pairs.now start least.new queue.new.items walked
        × (walked ≡ length queue.new.items)) }
{
    let mut walked = before;
    while walked < queue.len() {
        let label = queue[walked];
        see_ends(chains, pairs, least, queue, label, start)?;
        walked += 1;
    }
    Ok(walked)
}

/// Walks from each label in turn that no earlier one leads to, where none was seen.
fn walk_all(
    chains: &Chains,
    pairs: &[(u32, u32)],
    least: &mut [u32],
    queue: &mut Vec<u32>,
) -> Result<(), Memory>
    requires few { length least.old < none }
    requires chained { AreChained pairs.now (length pairs.now) chains.now.last.items chains.now.before.items }
    requires labels { length chains.now.last.items ≡ length least.old }
    requires links { length chains.now.before.items ≡ length pairs.now }
    requires paired { ArePaired (length least.old) pairs.now }
    requires unseen { (a : ℕ) → a < length least.old → slice_index least.old a ≡ none }
    requires empty { queue.old.items ≡ [] }
    ensures { OnOk result (IsLeast (length least.old) pairs.now least.new) }
{
    let mut walked = 0;
    for start in 0..least.len() as u32 {
        see(least, queue, start, start)?;
        walked = walk_on(chains, pairs, least, queue, start, walked)?;
    }
    Ok(())
}

/// For each label below a number the least one that pairs join with it, over any number of pairs. Each pair stands in both orders.
pub fn least_joined(alloc: Global, count: u32, pairs: &[(u32, u32)]) -> Result<Vec<u32>, Memory>
    requires count { count < none }
    requires few { length pairs.now < 2 ^ 32 }
    requires paired { ArePaired count pairs.now }
    ensures { IfOk result (λ least. IsLeast count pairs.now least.items) }
{
    let chains = Chains::of(alloc, count, pairs)?;
    let mut least = vec![in alloc; UNSEEN_LABEL; count as usize]?;
    let mut queue = Vec::with_capacity(alloc, count as usize)?;
    walk_all(&chains, pairs, least.as_mut_slice(), &mut queue)?;
    Ok(least)
}
