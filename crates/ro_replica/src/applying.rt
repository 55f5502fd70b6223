//! What an event does to a replica.
ghost use Rattle.std.specs.Prelude.{◌≡◌, ◌<◌, ◌≤◌, ◌+◌, ◌^◌, ◌||◌, ◌∷◌, ℕ, true, IfSome, Some, length, map, slice_get, vec_len, vec_capacity};
ghost use Rattle.ro_pages.specs.Bytes.{covers_page, stored};
ghost use Rattle.ro_pages.specs.Held.{memory_of, has_page};
ghost use Rattle.ro_region.specs.Permission.{with_range};
ghost use Rattle.ro_replica.specs.Replica.{is_page, applied, cancelled, thread_after, with_made, without_cancelled};
ghost use Rattle.ro_replica.specs.Seen.{replica_of, Widens, CanApply};

use crate::backing::{back, back_stretch};
use crate::cpus::{change, made_cpu};
use crate::opening::unstopped;
use crate::replicas::Replica;
use ro_event::{Effect, Made, Stop};
use ro_pages::Pages;
use ro_region::{Range, Regions};
use ro_thread::Thread;

impl Replica {
    /// Does what an event does to a replica, and forgets the page faults that it settles.
    pub fn apply(&mut self, effect: &Effect)
        requires { CanApply effect.now self.old }
        ensures program { Widens effect.now.range self.new self.old }
        ensures applied { replica_of self.new ≡ cancelled (applied effect.now (replica_of self.old)) }
    {
        store(&mut self.pages, effect);
        change_thread(&mut self.threads[effect.thread as usize], effect);
        make(&mut self.threads, effect.made);
        widen(&mut self.regions, effect.range);
        forget_faults(self.threads.as_mut_slice(), &self.pages);
    }
}

/// Backs the pages that an effect backs, and stores its bytes.
pub fn store(pages: &mut Pages, effect: &Effect)
    requires few { length effect.now.bytes ≤ 4096 }
    requires within { effect.now.place + length effect.now.bytes ≤ 2 ^ 32 }
    requires page { IfSome effect.now.page (λ page. page < 2 ^ 20) }
    requires spare { 3 ≤ pages.old.spare }
    ensures bytes { memory_of pages.new.pages ≡ stored (memory_of pages.old.pages) effect.now.place effect.now.bytes }
    ensures backed { has_page pages.new.pages ≡ (λ page. has_page pages.old.pages page || is_page effect.now.page page || covers_page (record { place = effect.now.place; count = length effect.now.bytes }) page) }
    ensures stay { (place page : ℕ) → slice_get pages.old.numbers place ≡ Some page → slice_get pages.new.numbers place ≡ Some page }
{
    back_page(pages, effect.page);
    if effect.bytes.is_empty() {
        return;
    }
    store_bytes(pages, effect.place, effect.bytes.as_slice());
}

/// Backs the pages of some bytes, and stores these.
fn store_bytes(pages: &mut Pages, place: u32, bytes: &[u8])
    requires few { length bytes.now ≤ 4096 }
    requires within { place + length bytes.now ≤ 2 ^ 32 }
    requires spare { 2 ≤ pages.old.spare }
    ensures bytes { memory_of pages.new.pages ≡ stored (memory_of pages.old.pages) place bytes.now }
    ensures backed { has_page pages.new.pages ≡ (λ page. has_page pages.old.pages page || covers_page (record { place = place; count = length bytes.now }) page) }
    ensures stay { (at page : ℕ) → slice_get pages.old.numbers at ≡ Some page → slice_get pages.new.numbers at ≡ Some page }
{
    back_stretch(pages, place, bytes.len() as u32);
    pages.write_bytes(place, bytes);
}

/// Backs a page, if there is one to back.
fn back_page(pages: &mut Pages, page: Option<u32>)
    requires page { IfSome page (λ page. page < 2 ^ 20) }
    requires spare { 0 < pages.old.spare }
    ensures bytes { memory_of pages.new.pages ≡ memory_of pages.old.pages }
    ensures backed { has_page pages.new.pages ≡ (λ other. has_page pages.old.pages other || is_page page other) }
    ensures spare { pages.old.spare ≤ pages.new.spare + 1 }
    ensures stay { (place other : ℕ) → slice_get pages.old.numbers place ≡ Some other → slice_get pages.new.numbers place ≡ Some other }
{
    if let Some(page) = page {
        back(pages, page);
    }
}

/// What an effect does to its thread.
fn change_thread(thread: &mut Thread, effect: &Effect)
    ensures { thread.new ≡ thread_after effect.now thread.old }
{
    change(&mut thread.cpu, effect);
    thread.since = 0;
    if effect.releases {
        thread.stop = None;
    }
}

/// Makes a thread, if one is to be made; there is a place for it.
fn make(threads: &mut Vec<Thread>, made: Option<Made>)
    requires creator { IfSome made (λ made. (made.creator < vec_len threads.old) × (vec_len threads.old < 16)) }
    requires places { 16 ≤ vec_capacity threads.old }
    ensures items { threads.new.items ≡ with_made made threads.old.items }
    ensures places { vec_capacity threads.old ≤ vec_capacity threads.new }
{
    let Some(made) = made else {
        return;
    };
    let creator = &threads[made.creator as usize].cpu;
    let cpu = made_cpu(&made, creator, threads.len() as u32);
    if threads.push(unstopped(cpu)).is_err() {
        unreachable!()
    }
}

/// Permits a range more, if there is one; there is a place for it.
pub fn widen(regions: &mut Regions, range: Option<Range>)
    requires { IfSome range (λ range. length regions.old.given < 4096) }
    ensures { regions.new ≡ record regions.old { given = with_range range regions.old.given } }
{
    if let Some(range) = range {
        add(regions, range);
    }
}

/// Permits a range more. It is a function of its own so that effects that give none, which most are, don't prepare for it.
#[cold]
#[inline(never)]
fn add(regions: &mut Regions, range: Range)
    requires { length regions.old.given < 4096 }
    ensures { regions.new ≡ record regions.old { given = range ∷ regions.old.given } }
{
    regions.add(range);
}

/// Forgets the page faults of threads on pages that are backed.
fn forget_faults(threads: &mut [Thread], pages: &Pages)
    ensures { threads.new ≡ map (without_cancelled (has_page pages.now.pages)) threads.old }
{
    for thread in threads.iter_mut() {
        forget_fault(thread, pages);
    }
}

/// Forgets a thread's page fault on a page that is backed.
fn forget_fault(thread: &mut Thread, pages: &Pages)
    ensures { thread.new ≡ without_cancelled (has_page pages.now.pages) thread.old }
{
    if let Some(Stop::PageFault(page)) = thread.stop {
        if pages.has_page(page) {
            thread.stop = None;
        }
    }
}
