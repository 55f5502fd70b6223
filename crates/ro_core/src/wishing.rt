//! The pages that threads wish to be lent.
ghost use Rattle.std.specs.Prelude.{◌≡◌, ◌==◌, ◌<◌, ◌≤◌, [], not};
ghost use Rattle.std.specs.List.{filter};
ghost use Rattle.ro_core.specs.Wishing.{NotesFault, Forgives, ForgetsMisses, wished_behind, missed_behind};
ghost use Rattle.ro_core.specs.Seen.{stop_in};
ghost use Rattle.ro_legal.specs.Parts.{wish_with};

use crate::sharing::{MOST_MISSES, place_of};
use arrayvec::ArrayVec;
use ro_event::Stop;
use ro_lease::Loan;
use ro_pages::MOST_LENT;

const MOST_WISHES: usize = MOST_LENT as usize;

/// Pages of a replica, by their numbers.
pub(crate) type PageList = ArrayVec<u32, MOST_WISHES>;

/// What a thread wishes of a replica: the pages that it missed there, the last one first.
#[derive(Drop)]
pub(crate) struct Wish {
    pub pages: PageList,
    /// How often it missed one since its last vote.
    pub misses: u32,
}

impl Wish {
    /// A thread that missed no page.
    pub fn new() -> Wish
        ensures pages { result.pages.items ≡ [] }
        ensures misses { result.misses ≡ 0 }
    {
        Wish {
            pages: PageList::new(),
            misses: 0,
        }
    }
}

/// A wish, with a page first.
pub(crate) fn wish_first(wish: &mut PageList, page: u32)
    ensures { wish.new.items ≡ wish_with page wish.old.items }
{
    remove_all(wish, page);
    wish.truncate(MOST_WISHES - 1);
    wish.insert(0, page);
}

/// Removes each copy of a page.
fn remove_all(pages: &mut PageList, page: u32)
    ensures { pages.new.items ≡ filter (λ other. not (other == page)) pages.old.items }
{
    pages.retain(|other| *other != page);
}

/// Notes the page at whose fault the thread of a loan stands, if it does, and whether it missed it.
#[inline(always)]
#[tactic(auto, using(crate::proofs::Wishings::changes_set, crate::proofs::Wishings::changes_none))]
pub(crate) fn note_fault(wishes: &mut [Wish], place: usize, thread: u32, loan: &Loan, missed: bool)
    ensures { NotesFault place (stop_in thread loan.now) missed wishes.old wishes.new }
{
    // where only whole replicas are lent nothing is noted
    if wishes.is_empty() {
        return;
    }
    if place < wishes.len() {
        note_in(&mut wishes[place], thread, loan, missed);
    }
}

#[inline(never)]
fn note_in(wish: &mut Wish, thread: u32, loan: &Loan, missed: bool)
    ensures pages { wish.new.pages.items ≡ wished_behind (stop_in thread loan.now) wish.old.pages.items }
    ensures misses { wish.new.misses ≡ missed_behind missed wish.old.misses }
{
    if let Some(Stop::PageFault(page)) = stop_in(thread, loan) {
        wish_first(&mut wish.pages, page);
    }
    if missed && wish.misses <= MOST_MISSES {
        wish.misses += 1;
    }
}

// Where the thread of a loan stands still in it.
fn stop_in(thread: u32, loan: &Loan) -> Option<Stop>
    ensures { result ≡ stop_in thread loan.now }
{
    match loan {
        Loan::Whole(replica) => replica.stop(thread),
        Loan::Part(lane) => lane.stop(),
    }
}

/// A thread was voted on: it missed no page since.
#[tactic(auto, using(crate::proofs::Wishings::forgives_none, crate::proofs::Wishings::forgives_empty, crate::proofs::Wishings::forgives_more))]
pub(crate) fn forgive(wishes: &mut [Wish], thread: u32, replicas: u32)
    requires thread { thread < 16 }
    requires replicas { replicas ≤ 5 }
    ensures { Forgives thread replicas wishes.old wishes.new }
{
    if wishes.is_empty() {
        return;
    }
    for replica in 0..replicas {
        forget_misses(wishes, place_of(replica, thread));
    }
}

#[tactic(auto, using(crate::proofs::Wishings::changes_set, crate::proofs::Wishings::changes_none))]
fn forget_misses(wishes: &mut [Wish], place: usize)
    ensures { ForgetsMisses place wishes.old wishes.new }
{
    if place < wishes.len() {
        wishes[place].misses = 0;
    }
}
