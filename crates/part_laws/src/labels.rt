//! Laws of loops that get labels.

ghost use Rattle.iso_defs.specs.Grid.{Grid, IsThick};
ghost use Rattle.iso_defs.specs.Scratch.{triangles, vertices};
ghost use Rattle.measure.specs.Measures.{measures_of};
ghost use Rattle.measure_laws.specs.Vectors.{Vector};
ghost use Rattle.mesh_report.specs.Report.{summary_of};
ghost use Rattle.part_laws.specs.ByLabels.{named_shares, named_summary};
ghost use Rattle.part_laws.specs.Classes.{class_of};
ghost use Rattle.part_laws.specs.Labels.{IsRooted, unlabelled};
ghost use Rattle.part_laws.specs.Loops.{AreLong, Loop, mesh_loops};
ghost use Rattle.part_laws.specs.Meets.{IsLabelling, IsNext, is_met, least_joined, relabelled};
ghost use Rattle.std.specs.Prelude.{[], length, List, true, ℕ, ℤ, ◌++◌, ◌≡◌, ◌≤◌, ◌∷◌};

/// A labelling tells classes: vertices of one class have labels that pairs join, and the other way around; each label has the class of the vertex
/// that it began at as its root.
pub fn labelling_told()
    ensures one { (xs : List (ℕ × Loop)) (ps : List (ℕ × ℕ)) (label : ℕ → ℕ) → IsLabelling xs ps label → (v w : ℕ) →
        class_of (unlabelled xs) v ≡ class_of (unlabelled xs) w → least_joined ps (label v)
        ≡ least_joined ps (label w) }
    ensures joined { (xs : List (ℕ × Loop)) (ps : List (ℕ × ℕ)) (label : ℕ → ℕ) → IsLabelling xs ps label →
        (v w : ℕ) → is_met xs v ≡ true → is_met xs w ≡ true →
        least_joined ps (label v) ≡ least_joined ps (label w) → class_of (unlabelled xs) v
        ≡ class_of (unlabelled xs) w }
    ensures rooted { (xs : List (ℕ × Loop)) (ps : List (ℕ × ℕ)) (label : ℕ → ℕ) (h : IsLabelling xs ps label) →
        AreLong (unlabelled xs) →
        IsRooted xs (λ a. class_of (unlabelled xs) (h.began a)) }
    ensures roots { (xs : List (ℕ × Loop)) (ps : List (ℕ × ℕ)) (label : ℕ → ℕ) (h : IsLabelling xs ps label) (a b : ℕ) →
        least_joined ps a ≡ least_joined ps b → class_of (unlabelled xs) (h.began a)
        ≡ class_of (unlabelled xs) (h.began b) }
{}

/// No loops are labelled, and one loop more is, where the next label is one that it may get.
pub fn labelling_grows()
    ensures none { (label : ℕ → ℕ) → IsLabelling [] [] label }
    ensures more { (xs : List (ℕ × Loop)) (ps qs : List (ℕ × ℕ)) (label : ℕ → ℕ) (l : Loop) (a : ℕ) →
        IsLabelling xs ps label → IsNext xs ps qs label l a → 3 ≤ length l.1 →
        IsLabelling (xs ++ (a, l) ∷ []) (ps ++ qs) (relabelled label a l) }
{}

/// The report on the mesh, and what is measured of it, by a labelling of its loops: the parts are those of the crossing edges whose labels are joined
/// with no label before.
pub fn parts_by_labels()
    ensures summary { (g : Grid) (s : ℕ → ℤ) (xs : List (ℕ × Loop)) (ps : List (ℕ × ℕ)) (label : ℕ → ℕ) →
        IsThick g → unlabelled xs ≡ mesh_loops g s → IsLabelling xs ps label →
        summary_of (length (vertices g s)) (triangles g s) ≡ named_summary g s xs (least_joined ps) label }
    ensures measures { (g : Grid) (s : ℕ → ℤ) (xs : List (ℕ × Loop)) (ps : List (ℕ × ℕ)) (label : ℕ → ℕ) (at : ℕ →
        Vector) → IsThick g → unlabelled xs ≡ mesh_loops g s → IsLabelling xs ps label →
        measures_of (length (vertices g s)) (triangles g s) at ≡ named_shares g s xs (least_joined ps) label at }
{}
