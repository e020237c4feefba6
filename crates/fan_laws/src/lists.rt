//! Laws of every list of triangles.

ghost use Rattle.iso_defs.specs.Cell.{Triangle};
ghost use Rattle.iso_defs.specs.FanWalk.{fan_walk};
ghost use Rattle.iso_defs.specs.Manifold.{IsFan, arcs, times_run};
ghost use Rattle.iso_defs.specs.Verdict.{IsVerdict, Verdict};
ghost use Rattle.std.specs.Prelude.{List, true, ℕ, ◌↔◌, ◌≡◌, ◌≤◌};

/// Where no ordered pair is run twice, the triangles around a vertex form one fan exactly where one walk takes all its arcs.
pub fn walk_decides_fan()
    ensures { (ts : List Triangle) (v : ℕ) → ((a b : ℕ) → times_run ts a b ≤ 1) →
        (fan_walk (arcs ts v) ≡ true) ↔ IsFan ts v }
{}

/// Every list of triangles has one verdict, and only one.
pub fn one_verdict()
    ensures some { (ts : List Triangle) → (v : Verdict) × IsVerdict ts v }
    ensures unique { (ts : List Triangle) (v w : Verdict) → IsVerdict ts v → IsVerdict ts w → v ≡ w }
{}
