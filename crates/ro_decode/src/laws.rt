//! Reading and writing undo each other.
ghost use Rattle.std.specs.Prelude.{ℕ, ◌≡◌, ◌^◌, ◌<◌, Some};
ghost use Rattle.ro_decode.specs.Table.{InRange, word_of, instruction_of};

use crate::Instr;

/// An instruction in range is read back from its word.
#[tactic(auto, unfolding(crate::specs::Table::word_of, crate::specs::Table::instruction_of))]
pub fn decode_undoes_encode()
    ensures { (i : Instr) → InRange i → instruction_of (word_of i) ≡ Some i }
{}

/// The instruction that a word spells is in range, and its word is that word.
#[tactic(auto, unfolding(crate::specs::Table::word_of, crate::specs::Table::instruction_of))]
pub fn encode_undoes_decode()
    ensures { (w : ℕ) (i : Instr) → w < 2 ^ 32 → instruction_of w ≡ Some i → InRange i × (word_of i ≡ w) }
{}
