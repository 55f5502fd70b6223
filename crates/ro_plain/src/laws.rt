//! What holds of the steps of the unreplicated machine.
ghost use Rattle.std.specs.Prelude.{ℕ, ◌≡◌, ◌≢◌, ◌∷◌, [], Some, None, false};
ghost use Rattle.ro_plain.specs.Machine.{Program, Machine, IsPlain, step, run};
ghost use Rattle.ro_plain.specs.Accesses.{accesses, conflict_at};

/// A plain instruction of one thread, and a step of another that touches none of its bytes and does not end the program,
/// lead to one machine in both orders.
pub fn steps_commute()
    ensures { (program : Program) (machine after : Machine) (thread other : ℕ) → thread ≢ other → IsPlain program machine thread → step program machine other ≡ Some after → after.ended ≡ None → ((byte : ℕ) → conflict_at (accesses program machine thread) (accesses program machine other) byte ≡ false) → (end : Machine) × (run program machine (thread ∷ other ∷ []) ≡ Some end) × (run program machine (other ∷ thread ∷ []) ≡ Some end) }
{}
