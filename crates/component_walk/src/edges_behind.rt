//! The crossing edges that were left behind, by their labels.

ghost use Rattle.std.specs.Prelude.{◌≡◌, ℕ, ◌+◌, ◌<◌, ◌≤◌, ◌==◌, ◌++◌, ◌∷◌, [], List, IfOk, OnOk, if◌then◌else◌, length, slice_index};
ghost use Rattle.component_walk.specs.Passed.{AreEdges};

use iso_base::Memory;
use std::alloc::Global;

/// For each label how many of the crossing edges that were left behind have it. The labels in the order of their first crossing edges, each
/// with the number of that edge. How many crossing edges were left behind.
#[derive(Drop)]
pub struct Passed {
    pub crossings: Vec<u32>,
    pub order: Vec<(u32, u32)>,
    pub count: u32,
}

/// Notes a label with its first crossing edge, if none was counted before.
#[inline(always)]
fn note_first(
    order: &mut Vec<(u32, u32)>,
    before: u32,
    label: u32,
    number: u32,
) -> Result<(), Memory>
    ensures { OnOk result (order.new.items ≡ (if before == 0 then order.old.items ++ (label, number) ∷ []
        else order.old.items)) }
{
    if before == 0 {
        order.push((label, number))?;
    }
    Ok(())
}

impl Passed {
    /// No edges, and no labels.
    pub fn new(alloc: Global) -> Passed
        ensures crossings { result.crossings.items ≡ [] }
        ensures order { result.order.items ≡ [] }
        ensures count { result.count ≡ 0 }
    {
        Passed {
            crossings: Vec::new(alloc),
            order: Vec::new(alloc),
            count: 0,
        }
    }

    /// Leaves an edge behind that has a label.
    pub fn pass(&mut self, label: u32) -> Result<(), Memory>
        requires label { label < length self.old.crossings.items }
        requires few { self.old.count < 4294967295 }
        requires small { slice_index self.old.crossings.items label ≤ self.old.count }
        ensures count { OnOk result (self.new.count ≡ self.old.count + 1) }
        ensures size { OnOk result (length self.new.crossings.items ≡ length self.old.crossings.items) }
        ensures edges { OnOk result ((f number : ℕ → ℕ) (es : List ℕ) (e : ℕ) →
            AreEdges f number es self.old.crossings.items self.old.order.items → f e ≡ label → number e ≡ self.old.count
            → AreEdges f number (es ++ e ∷ []) self.new.crossings.items self.new.order.items) }
    {
        let before = self.crossings[label as usize];
        note_first(&mut self.order, before, label, self.count)?;
        self.crossings[label as usize] = before + 1;
        self.count += 1;
        Ok(())
    }
}
