//! What the core does next, and how long threads have waited.
ghost use Rattle.std.specs.Prelude.{◌≡◌, ◌<◌, ◌≤◌, ◌+◌, ◌^◌, ℕ, Option, Some, is_some, slice_get, slice_set};
ghost use Rattle.ro_event.specs.declared.calls.Call.{Call};
ghost use Rattle.ro_legal.specs.Waits.{AreWaits, waited_behind, is_overdue};

use ro_journal::How;
use ro_limits::{MOST_THREADS, VOTES_IN_A_ROW};

/// What the core does next.
#[derive(Clone, Copy, PartialEq, Eq, Debug)]
pub enum Action {
    /// A vote on this thread.
    Vote(u32),
    /// The call on which this thread is blocked is served.
    Free(u32),
    /// All of each replica is compared.
    Scrub,
    /// A thread of a replica is lent.
    Lend { replica: u32, thread: u32 },
    /// The run ends.
    End(How),
    /// Nothing, until a lease comes back.
    Wait,
    /// Nothing any more.
    Over,
}

/// For how many votes of others a thread that can go on waits before it comes first.
pub const PATIENCE: u64 = VOTES_IN_A_ROW as u64;

/// How many threads there can be.
const THREADS: usize = MOST_THREADS as usize;

/// How long threads have waited: for how many votes of others since each was voted on or freed itself.
#[derive(Clone, Copy, PartialEq, Eq, Debug)]
pub struct Waits {
    votes: u64,
    since: [u64; THREADS],
}

impl Waits {
    /// Those of a run in which no thread was voted on.
    pub fn new() -> Waits
        ensures waits { AreWaits result (λ thread. 0) }
        ensures votes { result.votes ≡ 0 }
    {
        Waits {
            votes: 0,
            since: [0; THREADS],
        }
    }

    /// What an event of a thread makes of them, which is a free where the thread was blocked on a call, else a vote.
    pub fn note(&mut self, thread: u32, was_blocked: bool)
        requires few { self.old.votes + 1 < 2 ^ 64 }
        requires thread { thread < 16 }
        ensures waits { (blocked : Option Call) → was_blocked ≡ is_some blocked → (waited : ℕ → ℕ) → AreWaits self.old waited → AreWaits self.new (waited_behind waited thread blocked) }
        ensures since { self.new.since ≡ slice_set self.old.since thread self.new.votes }
        ensures votes { (self.old.votes ≤ self.new.votes) × (self.new.votes ≤ self.old.votes + 1) }
    {
        if !was_blocked {
            self.votes += 1;
        }
        self.since[thread as usize] = self.votes;
    }

    /// How many votes were held.
    pub fn votes(&self) -> u64
        ensures { result ≡ self.now.votes }
    {
        self.votes
    }

    /// How many were when a thread was last voted on or freed.
    pub fn since(&self, thread: u32) -> u64
        requires thread { thread < 16 }
        ensures { slice_get self.now.since thread ≡ Some result }
    {
        self.since[thread as usize]
    }

    /// For how many votes of others a thread has waited.
    pub fn waited(&self, thread: u32) -> u64
        requires thread { thread < 16 }
        ensures { (waited : ℕ → ℕ) → AreWaits self.now waited → result ≡ waited thread }
    {
        self.votes.saturating_sub(self.since(thread))
    }

    /// Whether a thread has waited so long that it comes first.
    pub fn is_overdue(&self, thread: u32) -> bool
        requires thread { thread < 16 }
        ensures { (waited : ℕ → ℕ) → AreWaits self.now waited → result ≡ is_overdue (waited thread) }
    {
        self.waited(thread) >= PATIENCE
    }
}
