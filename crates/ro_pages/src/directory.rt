//! Where each page stands, found in two tables.
ghost use Rattle.std.specs.Prelude.{ℕ, ◌≡◌, ◌≢◌, ◌+◌, ◌*◌, ◌^◌, ◌<◌, ◌≤◌, OnOk, OnErr, IfOk, length, slice_index, vec_len, vec_capacity, [], ◌∷◌, ◌++◌, Some, false};
ghost use Rattle.std.specs.List.{All, slice_get};
ghost use Rattle.ro_pages.specs.Directories.{IsEntry, IsLonger, Tables, entry_of, is_listed};

use ro_limits::PAGES;
use std::alloc::{AllocError, Global};
use std::marker::Model;

/// How many pages a second table is for.
const SPAN: u32 = 1024;

/// The entry of a page that stands nowhere.
const NOWHERE: usize = usize::MAX;

/// The numbers of pages, in the order in which they were added, and for each page its place among them.
#[derive(Drop)]
pub struct Directory {
    /// For each 1,024 pages the place of their second table.
    firsts: Vec<usize>,
    /// The second tables, one behind another. All pages of which none was added share the one at 0.
    entries: Vec<usize>,
    numbers: Vec<u32>,
    /// How many pages can be added with no more memory.
    room: usize,
}

impl Model for Directory {
    ghost use Rattle.std.specs.Prelude.{◌≡◌, ◌+◌, ◌*◌, ◌≤◌, vec_len, vec_capacity};
    ghost use Rattle.ro_pages.specs.Directories.{Listed, Tables, Finds, coded_listed};

    ghost Value = { Listed };

    ghost coded = { coded_listed };

    ghost view = { λ s. record { numbers = s.numbers.items; room = s.room } };

    ghost invariant = { λ s. Tables s.firsts.items s.entries.items × Finds s.firsts.items s.entries.items s.numbers.items × (vec_len s.numbers + s.room ≤ vec_capacity s.numbers) × (vec_len s.entries + 1024 * s.room ≤ vec_capacity s.entries) };
}

impl Directory {
    /// A directory of no page, with no room.
    pub fn new(alloc: Global) -> Result<Directory, AllocError>
        ensures numbers { IfOk result (λ d. d.numbers ≡ []) }
        ensures room { IfOk result (λ d. d.room ≡ 0) }
    {
        let firsts = vec![in alloc; 0usize; (PAGES / SPAN) as usize]?;
        let entries = vec![in alloc; NOWHERE; SPAN as usize]?;
        Ok(Directory {
            firsts,
            entries,
            numbers: Vec::new(alloc),
            room: 0,
        })
    }

    /// Makes sure that `count` pages can be added with no more memory. Where memory is wanting, nothing changes.
    pub fn reserve(&mut self, count: u32) -> Result<(), AllocError>
        ensures numbers { self.new.numbers ≡ self.old.numbers }
        ensures room { OnOk result (count ≤ self.new.room) }
        ensures kept { self.old.room ≤ self.new.room }
        ensures err { OnErr result (self.new ≡ self.old) }
    {
        self.numbers.reserve(count as usize)?;
        self.entries.reserve((SPAN as usize) * (count as usize))?;
        self.room = self.room.max(count as usize);
        Ok(())
    }

    /// The place of a page; where it stands nowhere, a number that is no place.
    #[inline(always)]
    pub fn entry(&self, page: u32) -> usize
        requires { page < 2 ^ 20 }
        ensures { IsEntry self.now.numbers page result }
    {
        self.entries[self.firsts[(page / SPAN) as usize] + (page % SPAN) as usize]
    }

    /// No page stands at two places.
    #[inline(always)]
    pub fn each_once(&self)
        ensures { (page place : ℕ) → slice_get self.now.numbers place ≡ Some page → IsEntry self.now.numbers page place }
    {
        let _room = self.room;
    }

    /// Adds a page behind the others. It takes no memory.
    pub fn add(&mut self, page: u32)
        requires page { page < 2 ^ 20 }
        requires new { is_listed self.old.numbers page ≡ false }
        requires room { 0 < self.old.room }
        ensures numbers { self.new.numbers ≡ self.old.numbers ++ page ∷ [] }
        ensures room { self.new.room + 1 ≡ self.old.room }
    {
        let table = (page / SPAN) as usize;
        add_table(&mut self.firsts, &mut self.entries, table);
        let place = self.firsts[table] + (page % SPAN) as usize;
        self.entries[place] = self.numbers.len();
        self.numbers.push_reserved(page);
        self.room -= 1;
    }

    /// Whether a page was added; none past the last one was.
    pub fn has(&self, page: u32) -> bool
        ensures { result ≡ is_listed self.now.numbers page }
    {
        page < PAGES && self.entry(page) < self.numbers.len()
    }

    /// The numbers of the pages, by their places.
    pub fn numbers(&self) -> &[u32]
        ensures numbers { result.now ≡ self.now.numbers }
        ensures low { All (λ page. page < 2 ^ 20) self.now.numbers }
    {
        &self.numbers
    }
}

/// Gives pages that share the table at 0 one of their own.
fn add_table(firsts: &mut Vec<usize>, entries: &mut Vec<usize>, table: usize)
    requires table { table < 1024 }
    requires tables { Tables firsts.old.items entries.old.items }
    requires room { vec_len entries.old + 1024 ≤ vec_capacity entries.old }
    ensures tables { Tables firsts.new.items entries.new.items }
    ensures own { slice_index firsts.new.items table ≢ 0 }
    ensures same { (page : ℕ) → page < 2 ^ 20 → entry_of firsts.new.items entries.new.items page ≡ entry_of firsts.old.items entries.old.items page }
    ensures len { vec_len entries.new ≤ vec_len entries.old + 1024 }
    ensures capacity { vec_capacity entries.new ≡ vec_capacity entries.old }
{
    if firsts[table] == 0 {
        firsts[table] = entries.len();
        add_empty(entries);
    }
}

/// Adds an empty table behind the others.
fn add_empty(entries: &mut Vec<usize>)
    requires { vec_len entries.old + 1024 ≤ vec_capacity entries.old }
    ensures longer { IsLonger entries.new.items entries.old.items }
    ensures len { vec_len entries.new ≡ vec_len entries.old + 1024 }
    ensures capacity { vec_capacity entries.new ≡ vec_capacity entries.old }
{
    for _ in 0..SPAN {
        entries.push_reserved(NOWHERE);
    }
}
