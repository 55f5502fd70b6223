//! What is drawn is a list of faults that is read.
ghost use Rattle.std.specs.Prelude.{ℕ, List, Option, None, [], ◌∷◌, ◌≡◌, ◌<◌, ◌≤◌, true, unwrap_or};
ghost use Rattle.std.specs.List.{list_all};
ghost use Rattle.ro_region.specs.declared.Range.{Range};
ghost use Rattle.ro_image.specs.Image.{AreSegments};
ghost use Rattle.ro_faults.specs.Texts.{is_fault};
ghost use Rattle.ro_faults.specs.declared.Target.TheVariants.{Pc};
ghost use Rattle.ro_inject.specs.Draws.{faults_drawn};

/// The numbers of drawn faults are in the ranges of a run of three replicas, and of one of more where a replica is named.
pub fn drawn_faults_are_read()
    ensures { (ranges : List Range) (only : Option ℕ) (replicas seed count : ℕ) → AreSegments ranges → 3 ≤ replicas → unwrap_or only 0 < replicas → list_all (is_fault replicas) (faults_drawn ranges only seed count) ≡ true }
{}

/// One fault by the seed 42: the line `0 1 5824 pc 11`.
pub fn drawn_row()
    ensures { (ranges : List Range) → faults_drawn ranges None 42 1 ≡ record { replica = 0; thread = 1; at = 5824; target = Pc 11 } ∷ [] }
{}
