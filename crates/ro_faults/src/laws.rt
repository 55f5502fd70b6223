//! What is written is read back.
ghost use Rattle.std.specs.Prelude.{ℕ, List, ◌≡◌, ◌^◌, ◌<◌, ◌≤◌, length, true, Ok};
ghost use Rattle.std.specs.List.{list_all};
ghost use Rattle.ro_faults.specs.declared.Fault.{Fault};
ghost use Rattle.ro_faults.specs.Texts.{is_fault, faults_text, file_faults};

/// The text of faults is read as these faults, where they are not too many and their numbers are in their ranges.
pub fn texts_read_back()
    ensures { (replicas : ℕ) (faults : List Fault) → replicas < 2 ^ 32 → length faults ≤ 256 → list_all (is_fault replicas) faults ≡ true → file_faults replicas (faults_text faults) ≡ Ok faults }
{}

/// A text that is read is the text of the faults that are read, so that each list has one text; the faults are not too
/// many, and their numbers are in their ranges.
pub fn texts_spelled_once()
    ensures { (replicas : ℕ) (bytes : List ℕ) (faults : List Fault) → replicas < 2 ^ 32 → file_faults replicas bytes ≡ Ok faults → (faults_text faults ≡ bytes) × (length faults ≤ 256) × (list_all (is_fault replicas) faults ≡ true) }
{}
