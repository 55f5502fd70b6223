//! Where each of a few pages stands, found by looking at one after another.
ghost use Rattle.std.specs.Prelude.{ℕ, ◌≡◌, ◌≢◌, ◌+◌, ◌^◌, ◌<◌, ◌≤◌, OnOk, OnErr, IfOk, IfSome, IfNone, length, vec_len, List, [], ◌∷◌, ◌++◌, Some, None, true, false, option_to_list};
ghost use Rattle.std.specs.List.{All, slice_get};
ghost use Rattle.ro_pages.specs.Directories.{IsEntry, is_listed};

use std::alloc::{AllocError, Global};
use std::marker::Model;

/// The numbers of a few pages, in the order in which they were added, each once.
#[derive(Drop)]
pub struct ShortDirectory {
    numbers: Vec<u32>,
    /// How many pages can be added with no more memory.
    room: usize,
}

impl Model for ShortDirectory {
    ghost use Rattle.std.specs.Prelude.{◌+◌, ◌≤◌, vec_len, vec_capacity};
    ghost use Rattle.ro_pages.specs.Directories.{Listed, AreOnce, coded_listed};

    ghost Value = { Listed };

    ghost coded = { coded_listed };

    ghost view = { λ s. record { numbers = s.numbers.items; room = s.room } };

    ghost invariant = { λ s. AreOnce s.numbers.items × (vec_len s.numbers + s.room ≤ vec_capacity s.numbers) };
}

impl ShortDirectory {
    /// A directory of no page, with room for so many. It fails only for want of memory.
    pub fn new(alloc: Global, room: u32) -> Result<ShortDirectory, AllocError>
        ensures numbers { IfOk result (λ d. d.numbers ≡ []) }
        ensures room { IfOk result (λ d. d.room ≡ room) }
    {
        Ok(ShortDirectory {
            numbers: Vec::with_capacity(alloc, room as usize)?,
            room: room as usize,
        })
    }

    /// The place of a page; where it stands nowhere, a number that is no place.
    pub fn entry(&self, page: u32) -> usize
        ensures { IsEntry self.now.numbers page result }
    {
        place_of(self.numbers.as_slice(), page)
    }

    /// No page stands at two places.
    #[inline(always)]
    pub fn each_once(&self)
        ensures { (page place : ℕ) → slice_get self.now.numbers place ≡ Some page → IsEntry self.now.numbers page place }
    {
        let _room = self.room;
    }

    /// Adds a page behind the others. It takes no memory.
    pub fn add(&mut self, page: u32)
        requires new { is_listed self.old.numbers page ≡ false }
        requires room { 0 < self.old.room }
        ensures numbers { self.new.numbers ≡ self.old.numbers ++ page ∷ [] }
        ensures room { self.new.room + 1 ≡ self.old.room }
    {
        self.numbers.push_reserved(page);
        self.room -= 1;
    }

    /// The page that was added last, of those that it has.
    pub fn last(&self) -> Option<u32>
        ensures some { IfSome result (λ page. (is_listed self.now.numbers page ≡ true) × ((front : List ℕ) × (self.now.numbers ≡ front ++ page ∷ []))) }
        ensures none { result ≡ None → self.now.numbers ≡ [] }
    {
        self.numbers.as_slice().last().copied()
    }

    /// Takes the last page away.
    pub fn pop(&mut self) -> Option<u32>
        ensures numbers { self.old.numbers ≡ self.new.numbers ++ option_to_list result }
        ensures some { IfSome result (λ page. self.new.room ≡ self.old.room + 1) }
        ensures none { result ≡ None → self.old.numbers ≡ [] }
    {
        let page = self.numbers.pop()?;
        self.room += 1;
        Some(page)
    }

    /// Whether a page was added.
    pub fn has(&self, page: u32) -> bool
        ensures { result ≡ is_listed self.now.numbers page }
    {
        self.entry(page) < self.numbers.len()
    }
}

/// The first place at which a number stands, or one past the last.
fn place_of(numbers: &[u32], page: u32) -> usize
    ensures within { result ≤ length numbers.now }
    ensures found { result < length numbers.now → slice_get numbers.now result ≡ Some page }
    ensures first { (other : ℕ) → other < result → slice_get numbers.now other ≢ Some page }
{
    for i in 0..numbers.len() {
        if numbers[i] == page {
            return i;
        }
    }
    numbers.len()
}
