//! The verdict of a scrub: which of the replicas more than half are as.
ghost use Rattle.std.specs.Prelude.{◌≡◌, ◌≤◌, ◌<◌, ◌↔◌, ℕ, List, [], Some, None, true, IsNone, IsTrue, IfOk, IfSome, OnErr, OnOk, length, map, slice_get, slice_index_or};
ghost use Rattle.ro_journal.specs.Losers.{numbers};
ghost use Rattle.ro_vote.specs.Prevails.{Prevails, NonePrevails, NoneAt, NoneBelow};
ghost use Rattle.ro_replica.specs.Seen.{ReplicaOf, AreTwins};
ghost use Rattle.ro_legal.specs.Legal.{IsAllowed, may_scrub, output_of};
ghost use Rattle.ro_legal.specs.Decides.{DecidesScrub, IsSplit};
ghost use Rattle.ro_core.specs.Fields.{AreAllTwins, Holds};
ghost use Rattle.ro_core.specs.Seated.{seat_snapshot};
ghost use Rattle.ro_core.specs.Seen.{Appends, Stays};
ghost use Rattle.ro_core.specs.Runs.{fields_of, job_of, state_of, silent, IsScrubbed};

use crate::cores::Core;
use crate::voting::split_of;
use ro_journal::{Entry, Lost};
use ro_kernel::Kernel;
use ro_replica::ReplicaBox;
use ro_vote::Won;
use std::alloc::AllocError;

impl Core {
    /// Compares the replicas whole: each that is not as more than half of them becomes as these, and the entry that was
    /// appended is answered. Where no more than half are the same, that is an end, and no views are kept.
    ///
    /// # Errors
    /// Where there is no memory; nothing has changed then.
    pub fn scrub(&mut self) -> Result<Entry, AllocError>
        requires holds { Holds (fields_of self.old) }
        requires may { may_scrub (state_of self.old) ≡ true }
        ensures holds { Holds (fields_of self.new) }
        ensures entry { IfOk result (λ entry. IsAllowed (job_of self.old) (state_of self.old) entry × DecidesScrub (state_of self.old) entry × Appends (silent self.old) (silent self.new) entry) }
        ensures output { OnOk result (output_of (job_of self.new) (fields_of self.new).journal ≡ output_of (job_of self.old) (fields_of self.old).journal) }
        ensures no_views { IfOk result (λ entry. IsSplit entry → (fields_of self.new).views ≡ []) }
        ensures err { OnErr result (Stays (silent self.old) (silent self.new)) }
    {
        match prevailing(self.seats.homes.as_slice(), &self.kernel) {
            Some(won) => self.clean(won),
            None => {
                let how = split_of(self.seats.homes.len());
                self.views.clear();
                Ok(self.conclude(how))
            }
        }
    }

    // A scrub that was won: each loser becomes as the winner.
    fn clean(&mut self, won: Won) -> Result<Entry, AllocError>
        requires scrubbed { IsScrubbed (fields_of self.old) won.won won.lost }
        ensures holds { Holds (fields_of self.new) }
        ensures entry { IfOk result (λ entry. IsAllowed (job_of self.old) (state_of self.old) entry × DecidesScrub (state_of self.old) entry × Appends (silent self.old) (silent self.new) entry) }
        ensures output { OnOk result (output_of (job_of self.new) self.new.journal.items ≡ output_of (job_of self.old) self.old.journal.items) }
        ensures won { IfOk result (λ entry. IsSplit entry → ⊥) }
        ensures err { OnErr result (Stays (silent self.old) (silent self.new)) }
    {
        self.prepare()?;
        let threads = self.kernel.made();
        self.seats.heal(&won, threads);
        let entry = Entry::Scrub {
            won: won.won,
            lost: won.lost,
        };
        self.journal.push_reserved(entry);
        self.wrote = 0;
        self.scrubbed = self.steps;
        Ok(entry)
    }
}

/// The lowest of the replicas that more than half are the same as, and those that are not; or `None`.
pub(crate) fn prevailing(seats: &[Option<ReplicaBox>], kernel: &Kernel) -> Option<Won>
    requires few { length seats.now ≤ 5 }
    requires twins { AreAllTwins seats.now }
    ensures won { IfSome result (λ w. Prevails (map (seat_snapshot kernel.now.kernel) seats.now) w.won (numbers w.lost)) }
    ensures none { IsNone result → NonePrevails (map (seat_snapshot kernel.now.kernel) seats.now) }
{
    for number in 0..seats.len() {
        if let Some(lost) = others(seats, number, kernel) {
            return Some(Won {
                won: number as u32,
                lost,
            });
        }
    }
    None
}

// Those that are not the same as one of them, where these are fewer than half.
fn others(seats: &[Option<ReplicaBox>], won: usize, kernel: &Kernel) -> Option<Lost>
    requires few { length seats.now ≤ 5 }
    requires twins { AreAllTwins seats.now }
    requires there { won < length seats.now }
    ensures won { IfSome result (λ lost. NoneBelow (map (seat_snapshot kernel.now.kernel) seats.now) won → Prevails (map (seat_snapshot kernel.now.kernel) seats.now) won (numbers lost)) }
    ensures none { IsNone result → NoneAt (map (seat_snapshot kernel.now.kernel) seats.now) won }
{
    let mut lost = Lost::Nobody;
    for number in 0..seats.len() {
        if !are_same(seats, won, number, kernel) {
            lost = lost.with(number as u32)?;
        }
    }
    if 2 * lost.count() < seats.len() {
        Some(lost)
    } else {
        None
    }
}

// Whether the replicas in two seats are the same.
fn are_same(seats: &[Option<ReplicaBox>], one: usize, other: usize, kernel: &Kernel) -> bool
    requires twins { AreAllTwins seats.now }
    requires one { one < length seats.now }
    requires other { other < length seats.now }
    ensures { IsTrue result ↔ (seat_snapshot kernel.now.kernel (slice_index_or seats.now other None) ≡ seat_snapshot kernel.now.kernel (slice_index_or seats.now one None)) }
{
    one == other || is_same(&seats[one], &seats[other], kernel)
}

fn is_same(one: &Option<ReplicaBox>, other: &Option<ReplicaBox>, kernel: &Kernel) -> bool
    requires { (value another : ReplicaOf) → one.now ≡ Some value → other.now ≡ Some another → AreTwins value another }
    ensures { IsTrue result ↔ (seat_snapshot kernel.now.kernel one.now ≡ seat_snapshot kernel.now.kernel other.now) }
{
    match (one, other) {
        (Some(one), Some(other)) => one.is_same(other, kernel),
        (None, None) => true,
        _ => false,
    }
}
