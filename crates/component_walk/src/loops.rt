//! The labels of loops, what is added up of the loops of each, and its crossing edges.
//!
//! Two labels that run side by side meet at every cell. For each label the smaller one that it met last is kept, and
//! that pair is not noted again right after. A set of pairs would cost more than it saves.

ghost use Rattle.std.specs.Prelude.{◌≡◌, ℕ, ◌+◌, ◌*◌, ◌<◌, ◌≤◌, ◌++◌, ◌∷◌, [], List, IfOk, OnOk, length};
ghost use Rattle.cell_loops.specs.Loops.{IsLoop};
ghost use Rattle.flat_mesh.specs.Centres.{IsCellAt};
ghost use Rattle.flat_mesh.specs.Lattice.{Leveled};
ghost use Rattle.part_laws.specs.Loops.{Loop};
ghost use Rattle.component_walk.specs.Sums.{IsLoopIn, IsOneLoop};
ghost use Rattle.component_walk.specs.Walks.{ArePlaces, CanAdd, IsLonger, IsWalked, loops_before};

use crate::edges_behind::Passed;
use crate::tally::Tally;
use component_labels::Labels;
use flat_mesh::{Cell, Heights};
use iso_base::{Memory, Sizes};
use std::alloc::Global;

/// The labels of the loops so far, what is added up of the loops of each, and the crossing edges that were left behind.
#[derive(Drop)]
pub struct Walked<T: Tally> {
    pub labels: Labels,
    pub tallies: Vec<T>,
    pub edges: Passed,
}

impl<T: Tally> Walked<T> {
    /// No loop has a label.
    pub fn new(alloc: Global, sizes: Sizes) -> Result<Walked<T>, Memory>
        ensures { IfOk result (λ w. (v : Leveled) → v.grid ≡ sizes →
            IsWalked T.value T.fits T.of_loop v 0 (loops_before v 0) w.labels w.tallies.items w.edges) }
    {
        let labels = Labels::new(alloc, sizes)?;
        Ok(Walked {
            labels,
            tallies: Vec::new(alloc),
            edges: Passed::new(alloc),
        })
    }

    /// Nothing is known of the labels beyond those that have been added up.
    // Apart, as few loops make one.
    #[inline(never)]
    fn know_more(&mut self) -> Result<(), Memory>
        requires tallies { length self.old.tallies.items ≤ self.old.labels.count }
        requires edges { length self.old.edges.crossings.items ≡ length self.old.tallies.items }
        ensures labels { OnOk result (self.new.labels ≡ self.old.labels) }
        ensures order { OnOk result (self.new.edges.order.items ≡ self.old.edges.order.items) }
        ensures passed { OnOk result (self.new.edges.count ≡ self.old.edges.count) }
        ensures longer { OnOk result (IsLonger T.value T.fits (length self.old.tallies.items) self.old.labels.count
            self.old.tallies.items self.new.tallies.items self.old.edges.crossings.items
            self.new.edges.crossings.items) }
    {
        let count = self.labels.count() as usize;
        for at in self.tallies.len()..count {
            // The invariant alone speaks of the place.
            let _ = at;
            self.tallies.push(T::none())?;
            self.edges.crossings.push(0)?;
        }
        Ok(())
    }

    /// Nothing is known of new labels, if there are any.
    #[inline(always)]
    fn know(&mut self) -> Result<(), Memory>
        requires tallies { length self.old.tallies.items ≤ self.old.labels.count }
        requires edges { length self.old.edges.crossings.items ≡ length self.old.tallies.items }
        ensures labels { OnOk result (self.new.labels ≡ self.old.labels) }
        ensures order { OnOk result (self.new.edges.order.items ≡ self.old.edges.order.items) }
        ensures passed { OnOk result (self.new.edges.count ≡ self.old.edges.count) }
        ensures longer { OnOk result (IsLonger T.value T.fits (length self.old.tallies.items) self.old.labels.count
            self.old.tallies.items self.new.tallies.items self.old.edges.crossings.items
            self.new.edges.crossings.items) }
    {
        if self.tallies.len() < self.labels.count() as usize {
            return self.know_more();
        }
        Ok(())
    }

    /// Gives a loop of a cell a label whose edges have their labels at some places, and adds it up with the others of the label.
    #[inline(always)]
    pub fn add_loop<H: Heights>(
        &mut self,
        field: &H,
        places: &[u32; 12],
        cell: Cell,
        edges: &[u8],
    ) -> Result<(), Memory>
        requires cell { IsCellAt (H.leveled field.now).grid cell }
        requires edges { IsLoop edges.now }
        requires there { IsOneLoop (H.leveled field.now) cell.index edges.now }
        requires places { ArePlaces (H.leveled field.now).grid
            (cell.low.y + (H.leveled field.now).grid.ny * cell.low.z) places.now }
        requires state { CanAdd T.value T.fits T.of_loop (H.leveled field.now)
            (cell.low.y + (H.leveled field.now).grid.ny * cell.low.z) self.old.labels self.old.tallies.items
            self.old.edges }
        ensures { OnOk result ((loops : List Loop) (l : Loop) → IsLoopIn (H.leveled field.now) cell.index edges.now l
            → IsWalked T.value T.fits T.of_loop (H.leveled field.now)
            (cell.low.y + (H.leveled field.now).grid.ny * cell.low.z) loops self.old.labels
            self.old.tallies.items self.old.edges
            → IsWalked T.value T.fits T.of_loop (H.leveled field.now)
            (cell.low.y + (H.leveled field.now).grid.ny * cell.low.z) (loops ++ l ∷ []) self.new.labels
            self.new.tallies.items self.new.edges) }
    {
        // Reading the sizes brings in what is true of every volume at a level.
        let _ = field.sizes();
        let label = self.labels.add_loop(places, 3 * cell.low.x, edges)?;
        self.know()?;
        // Reading the number brings in that there are fewer labels than the number that stands for none.
        let _ = self.labels.count();
        // Reading the pairs brings in that they are pairs of labels.
        let _ = self.labels.pairs();
        self.tallies[label as usize].add_loop(field, cell, edges);
        Ok(())
    }
}
