//! What a lease of a thread has of its replica: all, or the pages that the thread wishes.
ghost use Rattle.std.specs.Prelude.{ℕ, ◌≡◌, ◌≢◌, ◌∷◌, [], ◌<◌, ◌≤◌, ◌==◌, ◌&&◌, IsSome, None, Some, not, length, take, slice_get};
ghost use Rattle.std.specs.List.{filter, list_all, list_any};
ghost use Rattle.arrayvec.specs.ArrayVec.{ArrayVec};
ghost use Rattle.ro_region.specs.Permission.{is_writable, ranges_of};
ghost use Rattle.ro_replica.specs.Replica.{Replica as ReplicaSeen};
ghost use Rattle.ro_legal.specs.Core.{another_goes, is_free, is_open, lent_to, offers, shares};
ghost use Rattle.ro_legal.specs.Parts.{Pages, Sharing, Whole, is_lent};
ghost use Rattle.ro_core.specs.Fields.{GoesThere, Holds, IsSeat, is_free_page, lent_at};
ghost use Rattle.ro_core.specs.Wishing.{wish_place};
ghost use Rattle.ro_core.specs.Runs.{fields_of, state_of};

use crate::cores::Core;
use crate::wishing::{PageList, Wish};
use ro_journal::Lease;
use ro_legal::lends_pages;
use ro_limits::MOST_THREADS;
use ro_region::Regions;

/// How often a thread may miss a page between two votes before its leases are whole.
pub(crate) const MOST_MISSES: u32 = 8;

/// How many of the pages that a thread wishes most have to be there.
const MOST_WANTED: usize = 2;

impl Core {
    /// Whether what a lease of a thread needs of its replica is there. The thread is not stopped in it.
    #[inline(always)]
    pub(crate) fn offers(&self, replica: u32, thread: u32) -> bool
        requires holds { Holds (fields_of self.now) }
        requires seat { GoesThere (fields_of self.now) replica thread }
        ensures { result ≡ offers (state_of self.now) replica thread }
    {
        !lends_pages(&self.settings) || self.is_offered(replica, thread)
    }

    // The same, where pages are lent.
    #[inline(never)]
    fn is_offered(&self, replica: u32, thread: u32) -> bool
        requires holds { Holds (fields_of self.now) }
        requires lends { IsSome (state_of self.now).sharing }
        requires seat { GoesThere (fields_of self.now) replica thread }
        ensures { result ≡ offers (state_of self.now) replica thread }
    {
        if self.shares(replica, thread) {
            self.is_open(replica, thread)
        } else {
            is_home(self.leases.as_slice(), replica)
        }
    }

    /// The pages that a lease of a thread has, or none where that has the whole replica.
    #[inline(always)]
    pub(crate) fn pages_for(&self, replica: u32, thread: u32) -> Option<PageList>
        requires holds { Holds (fields_of self.now) }
        requires seat { GoesThere (fields_of self.now) replica thread }
        ensures whole { result ≡ None → lent_to (state_of self.now) replica thread ≡ Whole }
        ensures pages { (pages : ArrayVec ℕ) → result ≡ Some pages → lent_to (state_of self.now) replica thread ≡ Pages pages.items }
        ensures lends { IsSome result → IsSome (state_of self.now).sharing }
    {
        if lends_pages(&self.settings) && self.shares(replica, thread) {
            Some(self.free_pages(replica, thread))
        } else {
            None
        }
    }

    // Whether a thread is lent with the pages that it wishes: another one goes on there, no fault of this one may be struck in a
    // quantum, and it missed pages seldom.
    #[inline(never)]
    fn shares(&self, replica: u32, thread: u32) -> bool
        requires holds { Holds (fields_of self.now) }
        requires lends { IsSome (state_of self.now).sharing }
        requires seat { GoesThere (fields_of self.now) replica thread }
        ensures { (sharing : Sharing) → (state_of self.now).sharing ≡ Some sharing → result ≡ shares sharing (state_of self.now) replica thread }
    {
        self.wish(replica, thread).misses <= MOST_MISSES
            && self.another_goes(replica, thread)
            && self.seats.is_calm(replica, thread, self.settings.quantum)
    }

    // What a thread wishes.
    fn wish(&self, replica: u32, thread: u32) -> &Wish
        requires holds { Holds (fields_of self.now) }
        requires lends { IsSome (state_of self.now).sharing }
        requires seat { GoesThere (fields_of self.now) replica thread }
        ensures { slice_get (fields_of self.now).wishes (wish_place replica thread) ≡ Some result.now }
    {
        &self.wishes[place_of(replica, thread)]
    }

    // Whether another thread of a replica goes on.
    fn another_goes(&self, replica: u32, thread: u32) -> bool
        requires holds { Holds (fields_of self.now) }
        requires seat { IsSeat (fields_of self.now).seats replica }
        ensures { (value : ReplicaSeen) → slice_get (state_of self.now).replicas replica ≡ Some value → result ≡ another_goes (state_of self.now) value thread }
    {
        for other in 0..self.kernel.made() {
            if other != thread
                && self.kernel.lives_on(other)
                && self.seats.is_unstopped(replica, other)
            {
                return true;
            }
        }
        false
    }

    // Whether a thread and the pages that it wishes most can be lent.
    fn is_open(&self, replica: u32, thread: u32) -> bool
        requires holds { Holds (fields_of self.now) }
        requires lends { IsSome (state_of self.now).sharing }
        requires seat { GoesThere (fields_of self.now) replica thread }
        ensures { (sharing : Sharing) → (state_of self.now).sharing ≡ Some sharing → result ≡ is_open sharing (state_of self.now) replica thread }
    {
        !is_out(self.leases.as_slice(), replica, thread)
            && are_free(
                first_of(self.wish(replica, thread)),
                self.kernel.regions(),
                self.leases.as_slice(),
                self.lent.as_slice(),
                replica,
            )
    }

    // Those pages of a thread's wish that can be lent.
    fn free_pages(&self, replica: u32, thread: u32) -> PageList
        requires holds { Holds (fields_of self.now) }
        requires lends { IsSome (state_of self.now).sharing }
        requires seat { GoesThere (fields_of self.now) replica thread }
        ensures { (sharing : Sharing) → (state_of self.now).sharing ≡ Some sharing → result.items ≡ filter (is_free sharing (state_of self.now) replica) ((state_of self.now).wishes replica thread) }
    {
        let mut pages = copy_of(&self.wish(replica, thread).pages);
        keep_free(
            &mut pages,
            self.kernel.regions(),
            self.leases.as_slice(),
            self.lent.as_slice(),
            replica,
        );
        pages
    }
}

/// The place of a thread's wish.
pub(crate) fn place_of(replica: u32, thread: u32) -> usize
    requires replica { replica < 5 }
    requires thread { thread < 16 }
    ensures { result ≡ wish_place replica thread }
{
    (MOST_THREADS * replica + thread) as usize
}

// The pages that a thread wishes most.
fn first_of(wish: &Wish) -> &[u32]
    ensures { result.now ≡ take 2 wish.now.pages.items }
{
    let pages = wish.pages.as_slice();
    &pages[..pages.len().min(MOST_WANTED)]
}

fn copy_of(pages: &PageList) -> PageList
    ensures { result.items ≡ pages.now.items }
{
    let mut copy = PageList::new();
    let Ok(()) = copy.try_extend_from_slice(pages.as_slice()) else {
        unreachable!()
    };
    copy
}

/// Whether no lease of a replica is out.
pub(crate) fn is_home(leases: &[Lease], replica: u32) -> bool
    ensures { result ≡ not (list_any (λ lease. lease.replica == replica) leases.now) }
{
    !is_lent(leases, replica)
}

fn is_lent(leases: &[Lease], replica: u32) -> bool
    ensures { result ≡ list_any (λ lease. lease.replica == replica) leases.now }
{
    leases.iter().any(|lease| lease.replica == replica)
}

// Whether a lease of a thread of a replica is out.
fn is_out(leases: &[Lease], replica: u32, thread: u32) -> bool
    ensures { result ≡ list_any (λ lease. (lease.replica == replica) && (lease.thread == thread)) leases.now }
{
    leases
        .iter()
        .any(|lease| lease.replica == replica && lease.thread == thread)
}

// Whether a page of a replica can be lent: no lease has it, or no byte of it may be written.
fn is_free(
    page: u32,
    regions: &Regions,
    leases: &[Lease],
    lent: &[Option<PageList>],
    replica: u32,
) -> bool
    ensures { result ≡ is_free_page (ranges_of regions.now) leases.now lent.now replica page }
{
    !(is_taken(page, leases, lent, replica) && regions.is_writable(page))
}

fn is_taken(page: u32, leases: &[Lease], lent: &[Option<PageList>], replica: u32) -> bool
    ensures { result ≡ list_any (λ lease. (lease.replica == replica) && is_lent (lent_at lent.now lease.driver) page) leases.now }
{
    leases.iter().any(|lease| lease.replica == replica && has_page(lent, lease.driver, page))
}

// Whether the lease of a driver has a page.
fn has_page(lent: &[Option<PageList>], driver: u32, page: u32) -> bool
    ensures { result ≡ is_lent (lent_at lent.now driver) page }
{
    match lent.get(driver as usize) {
        Some(Some(pages)) => pages.as_slice().contains(&page),
        _ => true,
    }
}

// Whether all of these pages of a replica can be lent.
fn are_free(
    pages: &[u32],
    regions: &Regions,
    leases: &[Lease],
    lent: &[Option<PageList>],
    replica: u32,
) -> bool
    ensures { result ≡ list_all (is_free_page (ranges_of regions.now) leases.now lent.now replica) pages.now }
{
    pages
        .iter()
        .all(|page| is_free(*page, regions, leases, lent, replica))
}

// Keeps those pages that can be lent.
fn keep_free(
    pages: &mut PageList,
    regions: &Regions,
    leases: &[Lease],
    lent: &[Option<PageList>],
    replica: u32,
)
    ensures { pages.new.items ≡ filter (is_free_page (ranges_of regions.now) leases.now lent.now replica) pages.old.items }
{
    pages.retain(|page| is_free(*page, regions, leases, lent, replica));
}

/// Notes which pages the lease of a driver has.
#[tactic(auto, using(crate::proofs::Wishings::lent_other, crate::proofs::Wishings::lent_own, crate::proofs::Wishings::lent_past))]
pub(crate) fn note_lent(lent: &mut [Option<PageList>], driver: u32, pages: PageList)
    ensures count { length lent.new ≡ length lent.old }
    ensures others { (other : ℕ) → other ≢ driver → lent_at lent.new other ≡ lent_at lent.old other }
    ensures noted { driver < length lent.old → lent_at lent.new driver ≡ Pages pages.items }
{
    let place = driver as usize;
    if place < lent.len() {
        lent[place] = Some(pages);
    }
}

/// Notes that the lease of a driver has a whole replica.
#[inline(always)]
#[tactic(auto, using(crate::proofs::Wishings::lent_other, crate::proofs::Wishings::lent_own, crate::proofs::Wishings::lent_past))]
pub(crate) fn note_whole(lent: &mut [Option<PageList>], driver: u32)
    ensures count { length lent.new ≡ length lent.old }
    ensures others { (other : ℕ) → other ≢ driver → lent_at lent.new other ≡ lent_at lent.old other }
    ensures noted { lent_at lent.new driver ≡ Whole }
{
    let place = driver as usize;
    if place < lent.len() {
        lent[place] = None;
    }
}
