//! What setting an owner does.
ghost use Rattle.std.specs.Prelude.{ℕ, ◌≡◌, ◌≢◌, [], ◌∷◌, ◌++◌, Option, Some, None};
ghost use Rattle.ro_mutex.specs.Owners.{Owners, owner_of, with_owner};

/// An address has the owner that it was given, and every other one keeps its own.
#[tactic(auto, using(crate::proofs::Given::one_owner))]
pub fn one_owner_changes()
    ensures given { (owners : Owners) (address : ℕ) (owner : Option ℕ) → owner_of (with_owner owners address owner) address ≡ Some owner }
    ensures others { (owners : Owners) (address other : ℕ) (owner : Option ℕ) → other ≢ address → owner_of (with_owner owners address owner) other ≡ owner_of owners other }
{}

/// An address that is not in the table comes to its end with its first owner.
#[tactic(auto, using(crate::proofs::Given::at_the_end))]
pub fn new_addresses_come_last()
    ensures { (owners : Owners) (address : ℕ) (owner : Option ℕ) → owner_of owners address ≡ None → with_owner owners address owner ≡ owners ++ (address, owner) ∷ [] }
{}
