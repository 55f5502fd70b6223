//! Entries for the words of a page.
ghost use Rattle.std.specs.Prelude.{ℕ, ◌≡◌, ◌≢◌, ◌<◌, ◌≤◌, Some, IfOk};
ghost use Rattle.std.specs.List.{slice_get};
ghost use Rattle.ro_coded.specs.Coded.{AreCoded, AreOthersKept, HasEntry, IsFresh};

use crate::Coded;
use crate::making::{FRESH, entry_of};
use std::alloc::{AllocError, Global};

/// How many entries there are: one for each word of a page, and one behind them that says nothing.
pub const ENTRIES: usize = 1025;

/// Entries for the words of a page.
#[derive(Drop)]
pub struct Code {
    pub entries: [Coded; ENTRIES],
}

impl Code {
    /// Entries that say nothing, in a block of their own.
    ///
    /// # Errors
    /// Where there is no memory.
    #[cold]
    #[inline(never)]
    pub fn fresh(alloc: Global) -> Result<Box<Code>, AllocError>
        ensures code { IfOk result (λ code. (words : ℕ → ℕ) → AreCoded words code.value.entries) }
        ensures fresh { IfOk result (λ code. (at : ℕ) → IsFresh code.value.entries at) }
    {
        Ok(Box::new(alloc, Code::nothing())?)
    }

    /// Entries that say nothing.
    pub fn nothing() -> Code
        ensures code { (words : ℕ → ℕ) → AreCoded words result.entries }
        ensures fresh { (at : ℕ) → IsFresh result.entries at }
    {
        Code {
            entries: [FRESH; ENTRIES],
        }
    }

    /// The entry at a place.
    #[inline(always)]
    pub fn at(&self, at: u32) -> &Coded
        requires { at ≤ 1024 }
        ensures { slice_get self.now.entries at ≡ Some result.now }
    {
        &self.entries[at as usize]
    }

    /// Says nothing of a word any longer. Entries that may stand for the words from before it was changed may so for those after.
    #[inline(always)]
    pub fn forget(&mut self, at: u32)
        requires { at ≤ 1024 }
        ensures code { (words after : ℕ → ℕ) → AreCoded words self.old.entries → ((k : ℕ) → k ≢ at → after k ≡ words k) → AreCoded after self.new.entries }
        ensures fresh { IsFresh self.new.entries at }
        ensures others { AreOthersKept self.old.entries self.new.entries at }
    {
        self.entries[at as usize] = FRESH;
    }

    /// Says of a word what it spells.
    #[cold]
    #[inline(never)]
    pub fn learn(&mut self, at: u32, word: u32)
        requires { at < 1024 }
        ensures code { (words : ℕ → ℕ) → words at ≡ word → AreCoded words self.old.entries → AreCoded words self.new.entries }
        ensures entry { HasEntry self.new.entries at word }
        ensures others { AreOthersKept self.old.entries self.new.entries at }
    {
        self.entries[at as usize] = entry_of(word, at);
    }
}
