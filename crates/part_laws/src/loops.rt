//! Laws of every list of loops.

ghost use Rattle.iso_defs.specs.Lists.{below, is_in};
ghost use Rattle.measure_laws.specs.Vectors.{total, dot, minus, Vector};
ghost use Rattle.part_laws.specs.Classes.{class_of, IsChain, IsLeastChained, IsShared};
ghost use Rattle.part_laws.specs.Labels.{AreLabelled, IsRooted, labelled, unlabelled};
ghost use Rattle.part_laws.specs.Loops.{AreLong, faces, Loop, met_after, rims, spokes};
ghost use Rattle.part_laws.specs.Parts.{class_loops};
ghost use Rattle.part_laws.specs.Swept.{six_of, swept};
ghost use Rattle.std.specs.List.{AllByRecursion, count_by, filter, list_any, sum_by};
ghost use Rattle.std.specs.Prelude.{[], Bool, if◌then◌else◌, List, not, pos, ℕ, ℤ, ◌*◌, ◌+◌, ◌++◌, ◌-ℤ◌, ◌<◌, ◌==◌, ◌≡◌, ◌≤◌, ◌∷◌};

/// Three times the triangles of loops are their steps and twice their spokes.
pub fn faces_by_steps()
    ensures { (ls : List Loop) → AreLong ls → 3 * faces ls ≡ rims ls + 2 * spokes ls }
{}

/// One loop more meets those of its vertices that none of the loops before it has.
pub fn loops_meet()
    ensures { (ls : List Loop) (l : Loop) → met_after [] (ls ++ l ∷ [])
        ≡ met_after [] ls ++ filter (λ v. not (list_any (λ k. is_in v k.1) ls)) l.1 }
{}

/// The class of a vertex is the least vertex to which chains of loops lead, and nothing else is. Two vertices are of one
/// class exactly where a chain leads from one to the other, and then also of one class where there are more loops.
pub fn classes_by_chains()
    ensures least { (ls : List Loop) (v : ℕ) → IsLeastChained ls v (class_of ls v) }
    ensures unique { (ls : List Loop) (v k : ℕ) → IsLeastChained ls v k → class_of ls v ≡ k }
    ensures joined { (ls : List Loop) (v : ℕ) (us : List ℕ) (w : ℕ) → IsChain ls v us w → class_of ls v
        ≡ class_of ls w }
    ensures chained { (ls : List Loop) (v w : ℕ) → class_of ls v ≡ class_of ls w → (us : List ℕ) × IsChain ls v us w }
    ensures grows { (ls ks : List Loop) (v w : ℕ) → class_of ls v ≡ class_of ls w → class_of (ls ++ ks) v
        ≡ class_of (ls ++ ks) w }
{}

/// A number of each vertex is its class where it is the same for the vertices of a loop, and names a vertex of the class
/// that is not greater.
pub fn classes_told()
    ensures { (ls : List Loop) (f : ℕ → ℕ) → IsShared ls f → ((v : ℕ) → f v ≤ v) →
        ((v : ℕ) → class_of ls (f v) ≡ class_of ls v) → (v : ℕ) → class_of ls v ≡ f v }
{}

/// Where loops have labels below n, the loops of a class are those whose labels belong to it, and a sum over the loops of
/// some labels is the sum over these labels. So it is with crossing edges.
pub fn sums_by_labels()
    ensures classes { (xs : List (ℕ × Loop)) (root : ℕ → ℕ) (k : ℕ) → IsRooted xs root →
        class_loops (unlabelled xs) k ≡ labelled xs (λ a. root a == k) }
    ensures sums { (n : ℕ) (xs : List (ℕ × Loop)) (p : ℕ → Bool) (f : Loop → ℕ) → AreLabelled n xs →
        sum_by f (labelled xs p) ≡ sum_by (λ a. if p a then sum_by f (labelled xs (λ b. b == a)) else 0) (below n) }
    ensures totals { (n : ℕ) (xs : List (ℕ × Loop)) (p : ℕ → Bool) (f : Loop → ℤ) → AreLabelled n xs →
        total f (labelled xs p) ≡ total (λ a. if p a then total f (labelled xs (λ b. b == a)) else pos 0) (below n) }
    ensures edges { (n : ℕ) (es : List ℕ) (label : ℕ → ℕ) (p : ℕ → Bool) → AllByRecursion (λ e. label e < n) es →
        count_by (λ e. p (label e)) es ≡ sum_by (λ a. if p a then count_by (λ e. label e == a) es else 0) (below n) }
{}

/// Loops may be measured from any point: what a loop spans is the same, and its volume is less by that of the point over it.
pub fn loops_moved()
    ensures area { (at : ℕ → Vector) (o : Vector) (vs : List ℕ) → swept (λ v. minus (at v) o) vs ≡ swept at vs }
    ensures six { (at : ℕ → Vector) (o : Vector) (l : Loop) → six_of (λ v. minus (at v) o) l
        ≡ six_of at l -ℤ dot o (swept at l.1) }
{}
