//! Who got which rank of a mutex, and who gets one by that.
ghost use Rattle.std.specs.Prelude.{◌≡◌, ◌↔◌, IsTrue, [], None};
ghost use Rattle.ro_audit.specs.Ranks.{rows_in, with_taker};

use indexmap::IndexMap;
use ro_locking::is_below;
use ro_peer::{Decision, Locks};
use std::alloc::Global;
use std::marker::Model;
use std::mem;

/// A rank of a mutex, by the mutex's number.
#[derive(Clone, Copy, PartialEq, Eq, Hash, Debug)]
pub struct Rank {
    pub number: u32,
    pub rank: u32,
}

/// Which thread got each rank of each mutex.
#[derive(Drop)]
pub struct Ranks {
    takers: IndexMap<Rank, u32>,
    alloc: Global,
}

// Contracts see the ranks with their threads.
impl Model for Ranks {
    ghost use Rattle.std.specs.Prelude.{List, ℕ};
    ghost use Rattle.ro_audit.specs.declared.ranks.Rank.{Rank};

    ghost Value = { List (Rank × ℕ) };

    ghost view = { λ ranks. ranks.takers.entries };
}

impl Ranks {
    /// No ranks.
    pub fn new(alloc: Global) -> Ranks
        ensures { result ≡ [] }
    {
        Ranks {
            takers: IndexMap::new(alloc),
            alloc,
        }
    }

    /// Takes them out, and leaves none.
    pub fn take(&mut self) -> Ranks
        ensures taken { result ≡ self.old }
        ensures left { self.new ≡ [] }
    {
        let none = Ranks::new(self.alloc);
        mem::replace(self, none)
    }

    /// The thread that got a rank, if one did.
    pub fn taker(&self, at: Rank) -> Option<u32>
        ensures { result ≡ rows_in self.now at.number at.rank }
    {
        self.takers.get(&at).copied()
    }

    // Gives a rank that nobody got to a thread, and answers whether there was memory for that.
    fn give(&mut self, at: Rank, thread: u32) -> bool
        requires { rows_in self.old at.number at.rank ≡ None }
        ensures { self.new ≡ with_taker self.old at thread result }
    {
        self.takers.insert(at, thread).is_ok()
    }
}

// Whether a rank that was given is the asker's.
fn decision(given: bool) -> Decision
    ensures { (result ≡ Decision.Asker) ↔ IsTrue given }
{
    if given {
        Decision::Asker
    } else {
        Decision::Other
    }
}

/// The locks of a peer by which a thread gets a rank of a mutex that is below the mutex's ceiling, and that no other thread got.
pub(crate) struct Deciding<'a> {
    ranks: Ranks,
    /// Below which rank each mutex may be got, by the mutexes' numbers.
    ceilings: &'a [u64],
}

impl<'a> Deciding<'a> {
    /// The locks by these ranks and ceilings.
    pub fn new(ranks: Ranks, ceilings: &'a [u64]) -> Deciding<'a>
        ensures ranks { result.ranks ≡ ranks }
        ensures ceilings { result.ceilings.now ≡ ceilings.now }
    {
        Deciding { ranks, ceilings }
    }

    /// The ranks.
    pub fn into_ranks(self) -> Ranks
        ensures { result ≡ self.entry.ranks }
    {
        let Deciding { ranks, ceilings: _ } = self;
        ranks
    }
}

// What was got are rows, and those that may be got are below the ceilings, which stay.
impl<'a> Locks for Deciding<'a> {
    ghost use Rattle.std.specs.Prelude.{⊤, List, ℕ};
    ghost use Rattle.ro_locking.specs.Asking.{below};
    ghost use Rattle.ro_audit.specs.Ranks.{rows_in, won_in};

    ghost won = { λ locks. won_in locks.ranks };

    ghost rows = { λ locks. below locks.ceilings.now (rows_in locks.ranks) };

    ghost known = { λ locks. rows_in locks.ranks };

    ghost refused = { λ locks number rank thread. ⊤ };

    ghost Stays = { List ℕ };

    ghost stays = { λ locks. locks.ceilings.now };

    fn decide(&mut self, number: u32, rank: u32, thread: u32) -> Decision {
        if !is_below(self.ceilings, number, rank) {
            return Decision::Other;
        }
        let at = Rank { number, rank };
        match self.ranks.taker(at) {
            Some(taker) if taker == thread => Decision::Asker,
            Some(_) => Decision::Other,
            // Where there is no memory nobody gets it.
            None => decision(self.ranks.give(at, thread)),
        }
    }
}

/// Locks by which nobody gets a mutex.
#[derive(Drop)]
pub(crate) struct ForNobody;

impl Locks for ForNobody {
    ghost use Rattle.std.specs.Prelude.{⊤, None};

    ghost won = { λ locks number rank thread. ⊥ };

    ghost rows = { λ locks number rank. None };

    ghost known = { λ locks number rank. None };

    ghost refused = { λ locks number rank thread. ⊤ };

    ghost stays = { λ locks. tt };

    fn decide(&mut self, _number: u32, _rank: u32, _thread: u32) -> Decision {
        Decision::Other
    }
}
