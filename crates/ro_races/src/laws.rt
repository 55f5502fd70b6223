//! What holds of races and of the order of steps.
ghost use Rattle.std.specs.Prelude.{ℕ, List, ◌≡◌, ◌<◌, ◌⊎◌, ◌↔◌, length, Some, slice_get};
ghost use Rattle.ro_plain.specs.Machine.{Program, IsExecution};
ghost use Rattle.ro_plain.specs.Order.{sync_at, HappensBefore, RaceFree};
ghost use Rattle.ro_races.specs.declared.sources.Source.TheVariants.{Thread};
ghost use Rattle.ro_races.specs.declared.found.Found.TheVariants.{NoRace};
ghost use Rattle.ro_races.specs.First.{IsFirstRace};
ghost use Rattle.ro_races.specs.Follows.{IsFound};
ghost use Rattle.ro_races.specs.Clocks.{learns_from, Past, PastOf};

/// A program has no races exactly where in none of its executions a race is found.
pub fn races_of_executions()
    ensures { (program : Program) → RaceFree program ↔ ((threads : List ℕ) → IsExecution program threads → IsFound program threads NoRace) }
{}

/// What happens before a step of a thread is what its thread's past, and what it learns from, bring.
pub fn known_is_before()
    ensures { (program : Program) (threads : List ℕ) (place thread : ℕ) → slice_get threads place ≡ Some thread → (earlier : ℕ) → HappensBefore program threads earlier place ↔ (Past program threads place (Thread thread) earlier ⊎ PastOf program threads place (learns_from (sync_at program threads place)) earlier) }
{}

/// A run has one first race at most.
pub fn one_race_is_first()
    ensures { (program : Program) (threads : List ℕ) (i j byte other_i other_j other_byte : ℕ) → IsFirstRace program threads i j byte → IsFirstRace program threads other_i other_j other_byte → (i ≡ other_i) × (j ≡ other_j) × (byte ≡ other_byte) }
{}
