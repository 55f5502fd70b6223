//! A memory of a few pages, which another one has lent.
ghost use Rattle.std.specs.Prelude.{ℕ, ◌≡◌, ◌≢◌, ◌+◌, ◌/◌, ◌^◌, ◌<◌, ◌≤◌, ◌++◌, ◌∷◌, [], List, IfOk, IfSome, MatchOption, Some, None, true, false, length, nat_lt};
ghost use Rattle.std.specs.FinMap as map;
ghost use Rattle.std.specs.List.{slice_get};
ghost use Rattle.ro_pages.specs.Directories.{is_listed};
ghost use Rattle.ro_pages.specs.Held.{memory_of, has_page, most_lent};
ghost use Rattle.ro_pages.specs.Words.{bytes_in};

use crate::access::Memory;
use crate::short::ShortDirectory;
use crate::table::{Page, Pages, zero_page};
use crate::words::{load_from, store_in};
use ro_limits::{PAGE_SIZE, PAGE_WORDS};
use std::alloc::{AllocError, Global};
use std::marker::Model;
use std::mem;

/// How many pages a memory of a few can be lent.
pub const MOST_LENT: u32 = 16;

/// Pages that a memory has lent, each with its number, and pages of its own for more of them.
///
/// A page is lent as one word: the two memories exchange boxes, so one of its own stands in the place of each page that it
/// was lent, until that goes back.
#[derive(Drop)]
pub struct FewPages {
    /// The place of each lent page, with room for one in the place of each spare one.
    directory: ShortDirectory,
    /// The lent pages, with room for one in the place of each spare one.
    backed: Vec<Page>,
    /// Pages of its own, whose bytes say nothing, with room for one in the place of each lent page.
    spare: Vec<Page>,
}

impl Model for FewPages {
    ghost use Rattle.std.specs.Prelude.{◌≡◌, ◌+◌, ◌≤◌, length, vec_len, vec_capacity};
    ghost use Rattle.ro_pages.specs.Held.{Held, coded_held, most_lent, pages_of};
    ghost use Rattle.ro_pages.specs.Words.{bytes_in};

    ghost Value = { Held };

    ghost coded = { coded_held };

    ghost view = { λ s. record { pages = pages_of (λ b. bytes_in b.value) s.directory.numbers s.backed.items; spare = vec_len s.spare; numbers = s.directory.numbers } };

    ghost invariant = { λ s. (length s.directory.numbers ≡ length s.backed.items) × (vec_len s.backed + vec_len s.spare ≤ vec_capacity s.backed) × (vec_len s.backed + vec_len s.spare ≤ vec_capacity s.spare) × (vec_len s.spare ≤ s.directory.room) × (length s.directory.numbers + vec_len s.spare ≡ most_lent) };
}

impl FewPages {
    /// The words of a page, if it was lent it.
    #[inline(always)]
    fn page(&self, page: u32) -> Option<&[u32; PAGE_WORDS]>
        ensures { MatchOption result (map.get self.now.pages page ≡ None) (λ words. map.get self.now.pages page ≡ Some (bytes_in words.now)) }
    {
        let page = self.backed.get(self.directory.entry(page))?;
        let words: &[u32; PAGE_WORDS] = page;
        Some(words)
    }
}

impl Memory for FewPages {
    ghost memory = { λ m. memory_of m.pages };

    ghost backing = { λ m. has_page m.pages };

    ghost kept = { λ m. slice_get m.numbers };

    #[inline(always)]
    fn backed(&self, page: u32) -> bool {
        self.page(page).is_some()
    }

    #[inline(always)]
    fn load(&self, address: u32, size: u32) -> u32 {
        self.load_kept(self.place(address / PAGE_SIZE), address, size)
    }

    #[inline(always)]
    fn place(&self, page: u32) -> usize {
        self.directory.entry(page)
    }

    #[inline(always)]
    fn load_at(&self, place: usize, address: u32) -> u32 {
        self.load_kept(place, address, 4)
    }

    #[tactic(auto, using(crate::proofs::PageBytes::number_in_words, crate::proofs::PageBytes::aligned_within))]
    #[inline(always)]
    fn load_kept(&self, place: usize, address: u32, size: u32) -> u32 {
        self.directory.each_once();
        let words: &[u32; PAGE_WORDS] = &self.backed[place];
        load_from(words, address % PAGE_SIZE, size)
    }

    #[inline(always)]
    fn store(&mut self, address: u32, size: u32, value: u32) {
        let place = self.place(address / PAGE_SIZE);
        self.store_kept(place, address, size, value);
    }

    #[inline(always)]
    fn store_kept(&mut self, place: usize, address: u32, size: u32, value: u32) {
        self.directory.each_once();
        let words: &mut [u32; PAGE_WORDS] = &mut self.backed[place];
        store_in(words, address % PAGE_SIZE, size, value);
    }
}

impl FewPages {
    /// A memory with no page that was lent, and with pages of its own for so many as it can be lent. It fails only for want
    /// of memory.
    pub fn new(alloc: Global) -> Result<FewPages, AllocError>
        ensures pages { IfOk result (λ f. f.pages ≡ map.empty) }
        ensures numbers { IfOk result (λ f. f.numbers ≡ []) }
        ensures spare { IfOk result (λ f. f.spare ≡ most_lent) }
    {
        let directory = ShortDirectory::new(alloc, MOST_LENT)?;
        let backed = Vec::with_capacity(alloc, MOST_LENT as usize)?;
        let mut spare = Vec::with_capacity(alloc, MOST_LENT as usize)?;
        for _ in 0..MOST_LENT {
            spare.push(zero_page(alloc)?)?;
        }
        Ok(FewPages {
            directory,
            backed,
            spare,
        })
    }

    /// Each page that it has is listed, and there is room for the most with those that it has.
    #[inline(always)]
    pub fn each_listed(&self)
        ensures listed { (page : ℕ) → is_listed self.now.numbers page ≡ has_page self.now.pages page }
        ensures room { length self.now.numbers + self.now.spare ≡ most_lent }
    {
        let _spare = self.spare.len();
    }

    /// Whether one more page can be lent to it.
    pub fn has_room(&self) -> bool
        ensures { result ≡ nat_lt 0 self.now.spare }
    {
        !self.spare.is_empty()
    }

    /// Whether it was lent a page.
    pub fn has_page(&self, page: u32) -> bool
        ensures { result ≡ has_page self.now.pages page }
    {
        self.directory.has(page)
    }

    /// The number of the page that it took in last, of those that it has.
    pub(crate) fn last(&self) -> Option<u32>
        ensures some { IfSome result (λ number. (has_page self.now.pages number ≡ true) × ((front : List ℕ) × (self.now.numbers ≡ front ++ number ∷ []))) }
        ensures none { result ≡ None → self.now.numbers ≡ [] }
        ensures empty { result ≡ None → (page : ℕ) → has_page self.now.pages page ≡ false }
    {
        self.directory.last()
    }

    /// Takes a page in, and leaves one of its own in its place.
    pub(crate) fn take_in(&mut self, number: u32, page: &mut Page)
        requires new { has_page self.old.pages number ≡ false }
        requires spare { 0 < self.old.spare }
        ensures pages { self.new.pages ≡ map.insert self.old.pages number (bytes_in page.old.value) }
        ensures numbers { self.new.numbers ≡ self.old.numbers ++ number ∷ [] }
        ensures spare { self.new.spare + 1 ≡ self.old.spare }
    {
        if let Some(other) = self.spare.pop() {
            self.directory.add(number);
            self.backed.push_reserved(mem::replace(page, other));
        }
    }

    /// Takes a copy of a page in, for which it has one of its own.
    pub(crate) fn take_copy(&mut self, number: u32, page: &Page)
        requires new { has_page self.old.pages number ≡ false }
        requires spare { 0 < self.old.spare }
        ensures pages { self.new.pages ≡ map.insert self.old.pages number (bytes_in page.now.value) }
        ensures numbers { self.new.numbers ≡ self.old.numbers ++ number ∷ [] }
        ensures spare { self.new.spare + 1 ≡ self.old.spare }
    {
        if let Some(mut copy) = self.spare.pop() {
            *copy = **page;
            self.directory.add(number);
            self.backed.push_reserved(copy);
        }
    }

    /// Gives the page that was taken in last back, for the one that was left in its place.
    pub(crate) fn give_back(&mut self, number: u32, page: &mut Page)
        requires last { (front : List ℕ) × (self.old.numbers ≡ front ++ number ∷ []) }
        ensures pages { self.old.pages ≡ map.insert self.new.pages number (bytes_in page.new.value) }
        ensures gone { has_page self.new.pages number ≡ false }
        ensures numbers { self.old.numbers ≡ self.new.numbers ++ number ∷ [] }
        ensures spare { self.new.spare ≡ self.old.spare + 1 }
    {
        self.directory.each_once();
        let Some(_) = self.directory.pop() else {
            unreachable!()
        };
        let Some(mine) = self.backed.pop() else {
            unreachable!()
        };
        self.spare.push_reserved(mem::replace(page, mine));
    }
}
