//! The components, and what is added up of the loops of each.

ghost use Rattle.std.specs.Prelude.{◌≡◌, ◌≢◌, ℕ, ◌+◌, ◌<◌, ◌^◌, ℤ, ◌+ℤ◌, All, IfOk, List, length, map, slice_index, slice_index_or};
ghost use Rattle.std.specs.List.{sum_by};
ghost use Rattle.iso_defs.specs.Lists.{below};
ghost use Rattle.flat_mesh.specs.Lattice.{Leveled};
ghost use Rattle.component_labels.specs.Walks.{IsLeast};
ghost use Rattle.component_labels.specs.Fronts.{none};
ghost use Rattle.component_walk.specs.Begun.{AreAdded, AreBegun, AreFew, IsEmpty};
ghost use Rattle.component_walk.specs.Components.{AreComponents, IsWhole};

use crate::loops::Walked;
use crate::tally::Tally;
use component_labels::{Labels, NO_LABEL, least_joined};
use iso_base::Memory;
use std::alloc::Global;

/// The number of the smallest vertex of a component, how many crossing edges it has, and what is added up of its loops.
#[derive(Clone, Copy, Drop)]
pub struct Component<T> {
    pub least: u32,
    pub crossings: u32,
    pub tally: T,
}

impl<T: Tally> Component<T> {
    /// Without edges and loops, but with a smallest vertex.
    fn begin(least: u32) -> Component<T>
        ensures least { result.least ≡ least }
        ensures empty { IsEmpty T.value T.fits result }
    {
        Component {
            least,
            crossings: 0,
            tally: T::none(),
        }
    }

    /// With the crossing edges and the loops of a label.
    fn add(&mut self, crossings: u32, tally: &T)
        requires few { self.old.crossings + crossings < 2 ^ 32 }
        requires room { (n m : ℕ) × (n + m < 2 ^ 31) × T.fits n self.old.tally × T.fits m tally.now }
        ensures least { self.new.least ≡ self.old.least }
        ensures crossings { self.new.crossings ≡ self.old.crossings + crossings }
        ensures values { (i : ℕ) → T.value self.new.tally i ≡ T.value self.old.tally i +ℤ T.value tally.now i }
        ensures fits { (n m : ℕ) → T.fits n self.old.tally → T.fits m tally.now → T.fits (n + m) self.new.tally }
    {
        self.crossings += crossings;
        self.tally.add(tally);
    }
}

/// The components without loops, in the order of their smallest vertices. `order` has labels with the numbers of their first crossing edges, and
/// `joined` the smallest label that is joined with each. The place of each component is noted at the smallest of its labels.
fn begin_all<T: Tally>(
    alloc: Global,
    order: &[(u32, u32)],
    joined: &[u32],
    places: &mut [u32],
) -> Result<Vec<Component<T>>, Memory>
    requires few { length order.now < none }
    requires labels { All (λ (o : ℕ × ℕ). o.0 < length joined.now) order.now }
    requires joined { (a : ℕ) → a < length joined.now → slice_index joined.now a < length places.old }
    requires none { (a : ℕ) → a < length places.old → slice_index places.old a ≡ none }
    ensures size { length places.new ≡ length places.old }
    ensures begun { IfOk result (λ cs. (label number : ℕ → ℕ) (es : List ℕ) → order.now
        ≡ map (λ e. (label e, number e)) es
        → AreBegun T.value T.fits (λ e. slice_index joined.now (label e)) number es places.new cs.items) }
{
    let mut components = Vec::new(alloc);
    for &(label, least) in order {
        let name = joined[label as usize] as usize;
        if places[name] == NO_LABEL {
            places[name] = components.len() as u32;
            components.push(Component::begin(least))?;
        }
    }
    Ok(components)
}

/// Adds to each component the crossing edges and the loops of its labels.
fn add_all<T: Tally>(
    joined: &[u32],
    places: &[u32],
    crossings: &[u32],
    tallies: &[T],
    components: &mut [Component<T>],
)
    requires joined { (a : ℕ) → a < length joined.now → slice_index joined.now a < length places.now }
    requires crossings { length crossings.now ≡ length joined.now }
    requires tallies { length tallies.now ≡ length joined.now }
    requires empty { (i : ℕ) (d : Component T) → i < length components.old →
        IsEmpty T.value T.fits (slice_index_or components.old i d) }
    requires few_edges { sum_by (slice_index crossings.now) (below (length joined.now)) < 2 ^ 32 }
    requires few_steps { AreFew T.fits (length joined.now) tallies.now }
    ensures { AreAdded T.value T.fits (λ a. slice_index places.now (slice_index joined.now a)) (length joined.now)
        crossings.now tallies.now components.old components.new }
{
    for label in 0..joined.len() {
        let place = places[joined[label] as usize] as usize;
        if place < components.len() {
            components[place].add(crossings[label], &tallies[label]);
        }
    }
}

/// The smallest label that is joined with each. All else that is known of labels is given up, so that its memory is free.
fn joined_labels(alloc: Global, labels: Labels) -> Result<Vec<u32>, Memory>
    ensures { IfOk result (λ least. IsLeast labels.count labels.pairs least.items) }
{
    let (count, pairs) = labels.into_pairs();
    least_joined(alloc, count, &pairs)
}

/// The components in the order of their smallest vertices. What the walk left is given up, so that its memory is free.
pub fn components<T: Tally>(alloc: Global, walked: Walked<T>) -> Result<Vec<Component<T>>, Memory>
    requires whole { (v : Leveled) × IsWhole T.value T.fits T.of_loop v walked.labels walked.tallies.items
        walked.edges }
    ensures { IfOk result (λ cs. (v : Leveled) →
        IsWhole T.value T.fits T.of_loop v walked.labels walked.tallies.items walked.edges →
        AreComponents T.value T.fits T.of_loop v cs.items) }
{
    let Walked {
        labels,
        tallies,
        edges,
    } = walked;
    // The sizes bound how many edges and loops there are.
    let _ = labels.sizes().nx();
    let joined = joined_labels(alloc, labels)?;
    let mut places = vec![in alloc; NO_LABEL; joined.len()]?;
    let mut components = begin_all(alloc, &edges.order, &joined, places.as_mut_slice())?;
    add_all(
        &joined,
        &places,
        &edges.crossings,
        &tallies,
        components.as_mut_slice(),
    );
    Ok(components)
}
