//! A pass of a lock page, as the locks of a peer.
ghost use Rattle.std.specs.Prelude.{◌≡◌, ◌⊎◌, ◌++◌, ◌<◌, ◌≤◌, ◌↔◌, ℕ, List, [], ◌∷◌, Some, IsTrue};
ghost use Rattle.ro_lockpage.specs.Ranks.{row_in, given, steps, AreOlder};
ghost use Rattle.ro_peer.specs.Leases.{KeepsRows};
ghost use Rattle.ro_locking.specs.Asking.{ceiling_of, decision_of, known_by, rows_of, won_by, refused_by, seat_of};

use ro_lockpage::{Answer, LockPage, Pass};
use ro_peer::{Decision, Locks};
use std::marker::Model;

/// A pass of a lock page of 256 mutexes, as the locks of a peer: a mutex's number is its number on the page. Each mutex
/// may be got below a rank of its own.
#[derive(Drop)]
pub struct PageLocks<'a> {
    page: &'a LockPage,
    pass: Pass,
    /// Below which rank each mutex may be got, by the mutexes' numbers.
    ceilings: &'a [u64],
}

// Contracts see the pass and the ceilings.
impl<'a> Model for PageLocks<'a> {
    ghost use Rattle.std.specs.Prelude.{◌≡◌};
    ghost use Rattle.ro_locking.specs.Asking.{Asking};

    ghost Value = { Asking };

    ghost view = { λ locks. record { pass = locks.pass; ceilings = locks.ceilings.now } };

    ghost invariant = { λ locks. (locks.page.now.mutexes ≡ 256) × (locks.pass.page ≡ locks.page.now.name) };
}

impl<'a> PageLocks<'a> {
    /// The locks that a page decides, asked by this pass: of each mutex the ranks below its ceiling, by the mutexes'
    /// numbers, and none of a mutex that has no ceiling.
    pub fn new(page: &'a LockPage, pass: Pass, ceilings: &'a [u64]) -> PageLocks<'a>
        requires wide { page.now.mutexes ≡ 256 }
        requires pass { pass.page ≡ page.now.name }
        ensures { result ≡ record { pass = pass; ceilings = ceilings.now } }
    {
        PageLocks {
            page,
            pass,
            ceilings,
        }
    }

    /// The pass.
    pub fn into_pass(self) -> Pass
        ensures { result ≡ self.entry.pass }
    {
        let PageLocks {
            page: _,
            pass,
            ceilings: _,
        } = self;
        pass
    }
}

// What a pass knows are rows, those that may be got are below the ceilings, what it won was decided here, and it stays the
// same pass of its page, with its ceilings.
impl<'a> Locks for PageLocks<'a> {
    ghost use Rattle.std.specs.Prelude.{ℕ, List};
    ghost use Rattle.atomic_table.specs.Seated.{TableId};
    ghost use Rattle.ro_locking.specs.Asking.{known_by, rows_of, won_by, refused_by, seat_of};

    ghost won = { λ locks. won_by locks.pass };

    ghost rows = { rows_of };

    ghost known = { λ locks. known_by locks.pass };

    ghost refused = { refused_by };

    ghost Stays = { TableId × ℕ × List ℕ };

    ghost stays = { seat_of };

    fn decide(&mut self, number: u32, rank: u32, thread: u32) -> Decision
        requires number { number < 256 }
        requires thread { thread < 16 }
        ensures keeps { KeepsRows (rows_of self.old) (rows_of self.new) }
        ensures knows { KeepsRows (known_by self.old.pass) (known_by self.new.pass) }
        ensures asker { result ≡ Decision.Asker → rows_of self.new number rank ≡ Some thread }
        ensures other { result ≡ Decision.Other → refused_by self.new number rank thread }
        ensures stays { seat_of self.new ≡ seat_of self.old }
        ensures wins { (other at owner : ℕ) → won_by self.new.pass other at owner → won_by self.old.pass other at owner ⊎ ((result ≡ Decision.Asker) × (other ≡ number) × (at ≡ rank) × (owner ≡ thread)) }
        // Below the ceiling the page is asked, and else nobody.
        ensures asks { rank < ceiling_of self.old.ceilings number → (older : List ℕ) × (found : ℕ) × AreOlder rank older × (result ≡ decision_of (given (row_in rank found) thread) thread) × (self.new.pass.asked ≡ self.old.pass.asked ++ steps number rank (older ++ found ∷ [])) }
        ensures refuses { ceiling_of self.old.ceilings number ≤ rank → (result ≡ Decision.Other) × (self.new ≡ self.old) }
    {
        if !is_below(self.ceilings, number, rank) {
            return Decision::Other;
        }
        let answer = self.page.decide(&mut self.pass, number, rank, thread);
        decision(answer, thread)
    }
}

/// Whether a rank of a mutex is below the mutex's ceiling, by the mutexes' numbers; none is where it has no ceiling.
pub fn is_below(ceilings: &[u64], number: u32, rank: u32) -> bool
    ensures { IsTrue result ↔ (rank < ceiling_of ceilings.now number) }
{
    match ceilings.get(number as usize) {
        Some(&ceiling) => u64::from(rank) < ceiling,
        None => false,
    }
}

// What the page's answer is to the thread that asked.
fn decision(answer: Answer, thread: u32) -> Decision
    ensures { result ≡ decision_of answer thread }
{
    match answer {
        Answer::For(other) => {
            if other == thread {
                Decision::Asker
            } else {
                Decision::Other
            }
        }
        Answer::Passed => Decision::Other,
    }
}
