//! Laws of loops that get labels. Each call says its law and does nothing else.

ghost use Rattle.std.specs.Prelude.{◌≡◌, ◌<◌, ◌≤◌, ◌+◌, ◌*◌, ◌%◌, ◌++◌, ◌∷◌, [], ℕ, List, length, slice_index, false, true};
ghost use Rattle.iso_defs.specs.Grid.{Grid};
ghost use Rattle.iso_defs.specs.Lists.{is_in};
ghost use Rattle.component_labels.specs.Chains.{ArePaired};
ghost use Rattle.part_laws.specs.Loops.{Loop};
ghost use Rattle.part_laws.specs.Meets.{is_met, relabelled};
ghost use Rattle.component_labels.specs.Fronts.{none, room, row_name};
ghost use Rattle.component_labels.specs.Labelling.{IsAdded, Known};
ghost use Rattle.component_labels.specs.Walked.{IsLabelled};

/// A loop that got a label is labelled with the others, where its vertices lie within two slices from a row on and have their labels at these
/// places.
pub fn loop_is_labelled()
    ensures { (g : Grid) (row : ℕ) (xs : List (ℕ × Loop)) (label : ℕ → ℕ) (old new : Known) (slot : ℕ →
        ℕ) (n a : ℕ) (l : Loop) →
        IsLabelled g row xs label old → IsAdded old new slot n a →
        n ≡ length l.1 → ((i : ℕ) → i < n → slot i ≡ slice_index l.1 i % room g) →
        ((v : ℕ) → is_in v l.1 ≡ true → (row_name g row ≤ v) × (v < row_name g row + room g)) → 3 ≤ n → new.count
        < none → ArePaired new.count new.pairs →
        IsLabelled g row (xs ++ (a, l) ∷ []) (relabelled label a l) new }
{}

/// Where the labels of a row of points are given up, and no loop has a vertex behind the two slices, those of the two slices from the next row on
/// stand.
pub fn row_is_left()
    ensures { (g : Grid) (row : ℕ) (xs : List (ℕ × Loop)) (label : ℕ → ℕ) (old new : Known) →
        IsLabelled g row xs label old →
        new.marks.grid ≡ old.marks.grid → new.count ≡ old.count → new.pairs ≡ old.pairs →
        ((k : ℕ) → k < 3 * g.nx → slice_index new.marks.labels ((row_name g row + k) % room g) ≡ none) →
        ((n : ℕ) → row_name g (row + 1) ≤ n → n < row_name g row + room g →
        slice_index new.marks.labels (n % room g) ≡ slice_index old.marks.labels (n % room g)) →
        ((n : ℕ) → row_name g row + room g ≤ n → is_met xs n ≡ false) → IsLabelled g (row + 1) xs label new }
{}
