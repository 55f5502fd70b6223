//! Pages that are found by their numbers.
ghost use Rattle.std.specs.Prelude.{ℕ, ◌≡◌, ◌≢◌, ◌+◌, ◌*◌, ◌/◌, ◌^◌, ◌<◌, ◌≤◌, OnOk, OnErr, IfOk, MatchOption, Some, None, vec_len, vec_capacity, true, false, ◌==◌, ◌||◌, [], ◌∷◌, ◌++◌, length, slice_index};
ghost use Rattle.std.specs.FinMap as map;
ghost use Rattle.std.specs.List.{All, slice_get};
ghost use Rattle.std.specs.Option.{option_map, is_some};
ghost use Rattle.ro_pages.specs.Bytes.{bytes_at, stored, covers_page};
ghost use Rattle.ro_pages.specs.Held.{CountsUnequal, memory_of, has_page, zeros};
ghost use Rattle.ro_pages.specs.Words.{bytes_in};

use crate::access::Memory;
use crate::directory::Directory;
use crate::words::{load_from, read_from, store_in, write_to};
use ro_limits::{PAGE_SIZE, PAGE_WORDS};
use std::alloc::{AllocError, Global};
use std::marker::Model;

/// The words of a backed page.
pub(crate) type Page = Box<[u32; PAGE_WORDS]>;

/// Pages that are backed, in the order in which they were, and zeroed pages to back more with.
#[derive(Drop)]
pub struct Pages {
    /// The place of each backed page, with room for the spare ones.
    pub(crate) directory: Directory,
    /// The backed pages, with room for the spare ones.
    pub(crate) backed: Vec<Page>,
    spare: Vec<Page>,
    alloc: Global,
}

impl Model for Pages {
    ghost use Rattle.std.specs.Prelude.{◌≡◌, ◌+◌, ◌≤◌, length, vec_len, vec_capacity};
    ghost use Rattle.std.specs.List.{All};
    ghost use Rattle.ro_pages.specs.Held.{Held, coded_held, pages_of, zeros};
    ghost use Rattle.ro_pages.specs.Words.{bytes_in};

    ghost Value = { Held };

    ghost coded = { coded_held };

    ghost view = { λ s. record { pages = pages_of (λ b. bytes_in b.value) s.directory.numbers s.backed.items; spare = vec_len s.spare; numbers = s.directory.numbers } };

    ghost invariant = { λ s. (length s.directory.numbers ≡ length s.backed.items) × All (λ b. bytes_in b.value ≡ zeros) s.spare.items × (vec_len s.backed + vec_len s.spare ≤ vec_capacity s.backed) × (vec_len s.spare ≤ s.directory.room) };
}

impl Pages {
    /// A memory with no page backed and none to spare. It fails only for want of memory.
    pub fn new(alloc: Global) -> Result<Pages, AllocError>
        ensures pages { IfOk result (λ m. m.pages ≡ map.empty) }
        ensures spare { IfOk result (λ m. m.spare ≡ 0) }
    {
        let directory = Directory::new(alloc)?;
        Ok(Pages {
            directory,
            backed: Vec::new(alloc),
            spare: Vec::new(alloc),
            alloc,
        })
    }

    /// Makes sure that `count` pages can be backed with no more memory. Where memory is wanting, nothing changes.
    pub fn reserve(&mut self, count: u32) -> Result<(), AllocError>
        ensures pages { self.new.pages ≡ self.old.pages }
        ensures room { OnOk result (count ≤ self.new.spare) }
        ensures kept { OnOk result (self.old.spare ≤ self.new.spare) }
        ensures numbers { self.new.numbers ≡ self.old.numbers }
        ensures err { OnErr result (self.new ≡ self.old) }
    {
        if self.spare.len() >= count as usize {
            return Ok(());
        }
        self.backed.reserve(count as usize)?;
        self.directory.reserve(count)?;
        let before = self.spare.len();
        for _ in 0..count {
            if self.spare.len() >= count as usize {
                break;
            }
            if let Err(error) = add_spare(self.alloc, &mut self.spare) {
                self.spare.truncate(before);
                return Err(error);
            }
        }
        Ok(())
    }

    /// Backs a page, with zeros, by a spare one. It takes no memory, and no byte changes.
    #[tactic(auto, using(crate::proofs::Places::pages_of_push, crate::proofs::Backed::same_memory, crate::proofs::Backed::one_more))]
    pub fn back(&mut self, page: u32)
        requires page { page < 2 ^ 20 }
        requires unbacked { has_page self.old.pages page ≡ false }
        requires spare { 0 < self.old.spare }
        ensures pages { self.new.pages ≡ map.insert self.old.pages page zeros }
        ensures bytes { memory_of self.new.pages ≡ memory_of self.old.pages }
        ensures backed { (other : ℕ) → has_page self.new.pages other ≡ ((other == page) || has_page self.old.pages other) }
        ensures spare { self.new.spare + 1 ≡ self.old.spare }
        ensures stay { (place other : ℕ) → slice_get self.old.numbers place ≡ Some other → slice_get self.new.numbers place ≡ Some other }
    {
        if let Some(fresh) = self.spare.pop() {
            self.directory.add(page);
            self.backed.push_reserved(fresh);
        }
    }

    /// Whether a page is backed; none past the last one is.
    pub fn has_page(&self, page: u32) -> bool
        ensures { result ≡ has_page self.now.pages page }
    {
        self.directory.has(page)
    }

    /// Takes over the bytes of another memory in which the same pages are backed, and tells how many pages it wrote: those
    /// whose bytes were not the same.
    pub fn copy_from(&mut self, other: &Pages) -> usize
        requires { (page : ℕ) → has_page self.old.pages page ≡ has_page other.now.pages page }
        ensures pages { self.new.pages ≡ other.now.pages }
        ensures spare { self.new.spare ≡ self.old.spare }
        ensures numbers { self.new.numbers ≡ self.old.numbers }
        ensures written { CountsUnequal self.old.pages other.now.pages result }
    {
        let mut written = 0;
        for page in other.directory.numbers() {
            let mine = self.directory.entry(*page);
            let theirs = other.directory.entry(*page);
            written += copy_page(&mut self.backed[mine], &other.backed[theirs]);
        }
        written
    }

    /// Whether another memory, in which the same pages are backed, has the same bytes.
    pub fn is_same(&self, other: &Pages) -> bool
        requires { (page : ℕ) → has_page self.now.pages page ≡ has_page other.now.pages page }
        ensures same { result ≡ true → self.now.pages ≡ other.now.pages }
        ensures apart { result ≡ false → memory_of self.now.pages ≢ memory_of other.now.pages }
    {
        for page in other.directory.numbers() {
            let mine = self.directory.entry(*page);
            let theirs = other.directory.entry(*page);
            if !has_same_bytes(&self.backed[mine], &other.backed[theirs]) {
                return false;
            }
        }
        true
    }

    /// Reads the bytes from an address on; those of a page that isn't backed are 0.
    pub fn read_bytes(&self, address: u32, bytes: &mut [u8])
        requires { address + length bytes.old ≤ 2 ^ 32 }
        ensures { bytes.new ≡ bytes_at (memory_of self.now.pages) address (length bytes.old) }
    {
        let mut done = 0;
        while done < bytes.len() {
            done = self.read_more(address, bytes, done);
        }
    }

    /// Reads the bytes of one page more.
    fn read_more(&self, address: u32, bytes: &mut [u8], done: usize) -> usize
        requires within { address + length bytes.old ≤ 2 ^ 32 }
        requires more { done < length bytes.old }
        requires read { (i : ℕ) → i < done → slice_index bytes.old i ≡ memory_of self.now.pages (address + i) }
        ensures more { done < result }
        ensures within { result ≤ length bytes.old }
        ensures read { (i : ℕ) → i < result → slice_index bytes.new i ≡ memory_of self.now.pages (address + i) }
    {
        let size = PAGE_SIZE as usize;
        let place = address as usize + done;
        let end = bytes.len().min(done + (size - place % size));
        self.read_in_page((place / size) as u32, place % size, &mut bytes[done..end]);
        end
    }

    /// Reads bytes of one page.
    fn read_in_page(&self, page: u32, offset: usize, bytes: &mut [u8])
        requires page { page < 2 ^ 20 }
        requires within { offset + length bytes.old ≤ 4096 }
        ensures { (i : ℕ) → i < length bytes.old → slice_index bytes.new i ≡ memory_of self.now.pages (4096 * page + offset + i) }
    {
        match self.page(page) {
            Some(words) => read_from(words, offset, bytes),
            None => bytes.fill(0),
        }
    }

    /// Stores bytes from an address on, in pages that are backed.
    pub fn write_bytes(&mut self, address: u32, bytes: &[u8])
        requires within { address + length bytes.now ≤ 2 ^ 32 }
        requires backed { (page : ℕ) → covers_page (record { place = address; count = length bytes.now }) page ≡ true → has_page self.old.pages page ≡ true }
        ensures bytes { memory_of self.new.pages ≡ stored (memory_of self.old.pages) address bytes.now }
        ensures pages { has_page self.new.pages ≡ has_page self.old.pages }
        ensures spare { self.new.spare ≡ self.old.spare }
        ensures numbers { self.new.numbers ≡ self.old.numbers }
    {
        let size = PAGE_SIZE as usize;
        let mut done = 0;
        while done < bytes.len() {
            let place = address as usize + done;
            let end = bytes.len().min(done + (size - place % size));
            self.write_in_page((place / size) as u32, place % size, &bytes[done..end]);
            done = end;
        }
    }

    /// Stores bytes in one page, which is backed.
    fn write_in_page(&mut self, page: u32, offset: usize, bytes: &[u8])
        requires page { page < 2 ^ 20 }
        requires within { offset + length bytes.now ≤ 4096 }
        requires backed { has_page self.old.pages page ≡ true }
        ensures bytes { memory_of self.new.pages ≡ stored (memory_of self.old.pages) (4096 * page + offset) bytes.now }
        ensures pages { has_page self.new.pages ≡ has_page self.old.pages }
        ensures spare { self.new.spare ≡ self.old.spare }
        ensures numbers { self.new.numbers ≡ self.old.numbers }
    {
        let place = self.directory.entry(page);
        let words: &mut [u32; PAGE_WORDS] = &mut self.backed[place];
        write_to(words, offset, bytes);
    }

    /// The words of a page, if it is backed.
    #[inline(always)]
    fn page(&self, page: u32) -> Option<&[u32; PAGE_WORDS]>
        requires { page < 2 ^ 20 }
        ensures { MatchOption result (map.get self.now.pages page ≡ None) (λ words. map.get self.now.pages page ≡ Some (bytes_in words.now)) }
    {
        let page = self.backed.get(self.directory.entry(page))?;
        let words: &[u32; PAGE_WORDS] = page;
        Some(words)
    }
}

impl Memory for Pages {
    ghost memory = { λ m. memory_of m.pages };

    ghost backing = { λ m. has_page m.pages };

    ghost kept = { λ m. slice_get m.numbers };

    #[inline(always)]
    fn backed(&self, page: u32) -> bool {
        self.page(page).is_some()
    }

    #[inline(always)]
    fn load(&self, address: u32, size: u32) -> u32 {
        self.load_kept(self.place(address / PAGE_SIZE), address, size)
    }

    #[inline(always)]
    fn place(&self, page: u32) -> usize {
        self.directory.entry(page)
    }

    #[inline(always)]
    fn load_at(&self, place: usize, address: u32) -> u32 {
        self.load_kept(place, address, 4)
    }

    #[tactic(auto, using(crate::proofs::PageBytes::number_in_words, crate::proofs::PageBytes::aligned_within))]
    #[inline(always)]
    fn load_kept(&self, place: usize, address: u32, size: u32) -> u32 {
        self.directory.each_once();
        let words: &[u32; PAGE_WORDS] = &self.backed[place];
        load_from(words, address % PAGE_SIZE, size)
    }

    #[inline(always)]
    fn store(&mut self, address: u32, size: u32, value: u32) {
        let place = self.place(address / PAGE_SIZE);
        self.store_kept(place, address, size, value);
    }

    #[inline(always)]
    fn store_kept(&mut self, place: usize, address: u32, size: u32, value: u32) {
        self.directory.each_once();
        let words: &mut [u32; PAGE_WORDS] = &mut self.backed[place];
        store_in(words, address % PAGE_SIZE, size, value);
    }
}

/// A page of zeros.
#[tactic(auto, using(crate::proofs::WordParts::zero_words))]
pub(crate) fn zero_page(alloc: Global) -> Result<Page, AllocError>
    ensures { IfOk result (λ b. bytes_in b.value ≡ zeros) }
{
    Ok(Box::new(alloc, [0u32; PAGE_WORDS])?)
}

/// Adds a page of zeros to the spare ones.
fn add_spare(alloc: Global, spare: &mut Vec<Page>) -> Result<(), AllocError>
    requires { All (λ b. bytes_in b.value ≡ zeros) spare.old.items }
    ensures zeroed { All (λ b. bytes_in b.value ≡ zeros) spare.new.items }
    ensures ok { OnOk result (vec_len spare.new ≡ vec_len spare.old + 1) }
    ensures err { OnErr result (spare.new.items ≡ spare.old.items) }
{
    spare.push(zero_page(alloc)?)?;
    Ok(())
}

/// Takes over the bytes of a page, which is written only where they differ, and tells how many pages were: one or none.
fn copy_page(mine: &mut Page, theirs: &Page) -> usize
    ensures bytes { bytes_in mine.new.value ≡ bytes_in theirs.now.value }
    ensures same { result ≡ 0 → bytes_in mine.old.value ≡ bytes_in theirs.now.value }
    ensures other { result ≢ 0 → (result ≡ 1) × (bytes_in mine.old.value ≢ bytes_in theirs.now.value) }
{
    if has_same_bytes(mine, theirs) {
        return 0;
    }
    **mine = **theirs;
    1
}

/// Whether two pages have the same bytes.
fn has_same_bytes(one: &[u32; PAGE_WORDS], other: &[u32; PAGE_WORDS]) -> bool
    ensures same { result ≡ true → bytes_in one.now ≡ bytes_in other.now }
    ensures apart { result ≡ false → bytes_in one.now ≢ bytes_in other.now }
    ensures words { (length one.now ≡ 1024) × (length other.now ≡ 1024) }
{
    one == other
}
