//! Rows of plans.
ghost use Rattle.std.specs.Prelude.{◌≡◌, [], ◌∷◌};
ghost use Rattle.ro_settings.specs.declared.Mode.TheVariants.{Voted, Cooperative};
ghost use Rattle.ro_journal.specs.declared.Entry.TheVariants.{Put};
ghost use Rattle.ro_plans.specs.Plans.{plan_in};
ghost use Rattle.ro_plans.specs.Rows.{lease_of, row_journal};

/// A row: each step of a thread is in the plan once, where the first replica made it. The steps of the votes, by which a voted run
/// counts, add nothing, and so does a step that a replica makes again.
pub fn plans_row()
    ensures cooperative { plan_in Cooperative row_journal ≡ 0 ∷ 0 ∷ 0 ∷ 0 ∷ 1 ∷ 1 ∷ 1 ∷ 1 ∷ [] }
    ensures voted { plan_in Voted row_journal ≡ 0 ∷ 0 ∷ 0 ∷ 0 ∷ 1 ∷ [] }
    ensures again { plan_in Cooperative (Put (lease_of 0 7) 2 0 ∷ Put (lease_of 1 7) 3 0 ∷ Put (lease_of 0 7) 1 0 ∷ []) ≡ 7 ∷ 7 ∷ 7 ∷ [] }
{}
