//! A thread of a replica that is lent with some of its pages.
ghost use Rattle.std.specs.Prelude.{ℕ, ◌≡◌, ◌≤◌, ◌<◌, ◌+◌, ◌^◌, ◌==◌, ◌&&◌, ◌||◌, [], Bool, List, Some, None, true, Option, IsTrue, length, slice_get, vec_capacity};
ghost use Rattle.std.specs.List.{All, filter};
ghost use Rattle.std.specs.Ordering.{nat_cmp};
ghost use Rattle.std.specs.FinMap.{FinMap};
ghost use Rattle.ro_event.specs.declared.stops.Stop.{Stop};
ghost use Rattle.ro_region.specs.Permission.{is_writable, ranges_of};
ghost use Rattle.ro_pages.specs.Bytes.{Memory};
ghost use Rattle.ro_pages.specs.Directories.{is_listed};
ghost use Rattle.ro_pages.specs.Held.{has_page, memory_of, most_lent};
ghost use Rattle.ro_exec.specs.Parts.{SameBeside};
ghost use Rattle.ro_thread.specs.declared.Thread.{Thread};
ghost use Rattle.ro_replica.specs.Runs.{is_due};
ghost use Rattle.ro_replica.specs.Views.{is_unstopped};
ghost use Rattle.ro_replica.specs.Seen.{replica_of, SameProgram};
ghost use Rattle.ro_replica.specs.Lent.{AreLent, HasProgram, IsLaneFor, LentIn, put_back};

use crate::lanes::Lane;
use crate::replicas::Replica;
use ro_pages::{FewPages, Pages};
use ro_region::Regions;

impl Replica {
    /// Lends a thread that is not stopped, with those pages of a wish that the replica has. A page of which a byte may be
    /// written leaves the replica for the time, any other goes as a copy. It takes no memory. Pages that have left with
    /// another lane aren't wished for: what stands in their places here says nothing.
    pub fn lend_pages(&mut self, lane: &mut Lane, thread: u32, wish: &[u32])
        requires going { IsTrue (is_unstopped thread (replica_of self.old)) }
        requires lane { IsLaneFor lane.old self.old }
        requires none { lane.old.held.numbers ≡ [] }
        requires few { length wish.now ≤ most_lent }
        requires low { All (λ page. page < 2 ^ 20) wish.now }
        ensures program { SameProgram self.new self.old }
        ensures lane { HasProgram lane.new self.old }
        ensures pages { (page : ℕ) → has_page lane.new.held.pages page ≡ (is_listed wish.now page && has_page self.old.held.pages page) }
        ensures began { slice_get self.old.threads thread ≡ Some lane.new.thread }
        ensures moved { (page : ℕ) → is_listed lane.new.moved page ≡ (has_page lane.new.held.pages page && is_writable self.old.layout.ranges page) }
        ensures lent { (count : ℕ) → ((k : ℕ) → k ≤ count → filter (is_due thread (lane.new.thread.done + k)) self.old.waiting ≡ []) → LentIn (has_page lane.new.held.pages) thread count (memory_of lane.new.held.pages) lane.new.thread (replica_of self.old) }
        ensures rest { replica_of self.new ≡ record (replica_of self.old) { memory = memory_of self.new.held.pages } }
        ensures beside { SameBeside (is_listed lane.new.moved) (memory_of self.new.held.pages) (memory_of self.old.held.pages) }
        ensures spare { self.new.held.spare ≡ self.old.held.spare }
        ensures low { (page : ℕ) → has_page lane.new.held.pages page ≡ true → page < 2 ^ 20 }
        ensures mine { (page : ℕ) → has_page lane.new.held.pages page ≡ true → has_page self.new.held.pages page ≡ true }
        ensures comes_back { (after : Memory) (end : Thread) (stop : Option Stop) → put_back thread (has_page lane.new.held.pages) after end stop (replica_of self.new) ≡ put_back thread (has_page lane.new.held.pages) after end stop (replica_of self.old) }
        ensures at_once { put_back thread (has_page lane.new.held.pages) (memory_of lane.new.held.pages) lane.new.thread None (replica_of self.new) ≡ replica_of self.old }
    {
        lane.regions.copy_from(&self.regions);
        lane.watchdog = self.watchdog;
        lane.thread = self.threads[thread as usize];
        lend_all(
            &mut self.pages,
            &self.regions,
            &mut lane.pages,
            &mut lane.moved,
            wish,
        );
    }
}

/// Lends those pages of a wish that a memory has to one that has no page.
fn lend_all(
    pages: &mut Pages,
    regions: &Regions,
    few: &mut FewPages,
    moved: &mut Vec<u32>,
    wish: &[u32],
)
    requires none { few.old.numbers ≡ [] }
    requires few { length wish.now ≤ most_lent }
    requires low { All (λ page. page < 2 ^ 20) wish.now }
    requires home { moved.old.items ≡ [] }
    requires room { most_lent ≤ vec_capacity moved.old }
    ensures lent { AreLent (ranges_of regions.now) (is_listed wish.now) pages.old.pages pages.new.pages few.new.pages moved.new.items }
    ensures backed { has_page pages.new.pages ≡ has_page pages.old.pages }
    ensures numbers { pages.new.numbers ≡ pages.old.numbers }
    ensures spare { pages.new.spare ≡ pages.old.spare }
    ensures fewer { length moved.new.items ≤ length few.new.numbers }
    ensures room { vec_capacity moved.new ≡ vec_capacity moved.old }
{
    few.each_listed();
    for i in 0..wish.len() {
        lend_one(pages, regions, few, moved, wish[i]);
    }
}

/// Lends a page, if the memory has it and the other one hasn't.
fn lend_one(
    pages: &mut Pages,
    regions: &Regions,
    few: &mut FewPages,
    moved: &mut Vec<u32>,
    page: u32,
)
    requires page { page < 2 ^ 20 }
    requires few { length few.old.numbers < most_lent }
    requires fewer { length moved.old.items ≤ length few.old.numbers }
    requires room { most_lent ≤ vec_capacity moved.old }
    ensures lent { (wished : ℕ → Bool) (home : FinMap nat_cmp (List ℕ)) → has_page pages.old.pages ≡ has_page home → AreLent (ranges_of regions.now) wished home pages.old.pages few.old.pages moved.old.items → AreLent (ranges_of regions.now) (λ other. wished other || (page == other)) home pages.new.pages few.new.pages moved.new.items }
    ensures backed { has_page pages.new.pages ≡ has_page pages.old.pages }
    ensures numbers { pages.new.numbers ≡ pages.old.numbers }
    ensures spare { pages.new.spare ≡ pages.old.spare }
    ensures few { length few.new.numbers ≤ length few.old.numbers + 1 }
    ensures fewer { length moved.new.items ≤ length few.new.numbers }
    ensures room { vec_capacity moved.new ≡ vec_capacity moved.old }
{
    few.each_listed();
    if !pages.has_page(page) || few.has_page(page) {
        return;
    }
    if regions.is_writable(page) {
        pages.lend(page, few);
        moved.push_reserved(page);
    } else {
        pages.lend_copy(page, few);
    }
}
