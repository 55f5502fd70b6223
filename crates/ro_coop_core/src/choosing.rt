//! What the core does next.
ghost use Rattle.std.specs.Prelude.{◌≡◌, ◌<◌, ◌&&◌, ℕ, IfSome, None, not, length, true};
ghost use Rattle.std.specs.List.{list_all};
ghost use Rattle.ro_legal.specs.Sides.{Side, is_ahead};
ghost use Rattle.ro_legal.specs.Core.{is_going, nothing_lent, is_home, is_awake, is_lendable, is_parked, is_barred, is_kept, may_vote, may_free};
ghost use Rattle.ro_legal.specs.Legal.{is_stuck};
ghost use Rattle.ro_legal.specs.Action.{lowest_below, threads_made, lend_next, turn_next, turn_of, overdue_and, is_urgent, outwaits, most_urgent_below, urgent_next, longest_below, first_freed, first_action, next_action as next};
ghost use Rattle.ro_coop_core.specs.Seats.{KnowsParked, seat_stopped};
ghost use Rattle.ro_coop_core.specs.Fields.{Holds};
ghost use Rattle.ro_coop_core.specs.Numbers.{HasMutexes, HasRank};
ghost use Rattle.ro_coop_core.specs.Runs.{fields_of, job_of, state_of};

use crate::cores::Core;
use crate::seats::{Seat, ceiling, taker};
use ro_event::Call;
use ro_journal::How;
use ro_legal::{Action, Parking};
use ro_peer::Mutexes;

impl Core {
    /// What comes next: an end that is due; else, where nothing is lent, a thread is freed; else one has its turn that has waited
    /// too long; else the lowest thread is voted on, or the lowest of the lowest replica is lent. Of those that can be freed the
    /// lowest is, unless one has waited too long: then the one that has waited longest.
    pub fn next_action(&self) -> Action
        requires holds { Holds (fields_of self.now) }
        ensures next { result ≡ next (job_of self.now) (state_of self.now) }
    {
        if self.ended.is_some() {
            return Action::Over;
        }
        if let Some(how) = self.due {
            return Action::End(how);
        }
        match self.first_action() {
            Some(action) => action,
            None if self.leases.is_empty() => Action::End(How::Deadlock),
            None => Action::Wait,
        }
    }

    // The first of what can be done.
    fn first_action(&self) -> Option<Action>
        requires holds { Holds (fields_of self.now) }
        ensures { result ≡ first_action (job_of self.now) (state_of self.now) }
    {
        if let Some(thread) = self.first_to_free() {
            return Some(Action::Free(thread));
        }
        match self.urgent_next() {
            Some(action) => Some(action),
            None => self.turn_next(),
        }
    }

    // The vote or the lease of the thread that has waited longest, if one has waited too long and can go on.
    fn urgent_next(&self) -> Option<Action>
        requires holds { Holds (fields_of self.now) }
        ensures { result ≡ urgent_next (state_of self.now) }
    {
        match self.most_urgent() {
            Some(thread) => self.turn_of(thread),
            None => None,
        }
    }

    // That thread, and of several the lowest.
    fn most_urgent(&self) -> Option<u32>
        requires holds { Holds (fields_of self.now) }
        ensures { result ≡ most_urgent_below (state_of self.now) (threads_made (state_of self.now)) }
    {
        let mut longest = None;
        for thread in 0..self.kernel.made() {
            if self.is_urgent(thread) && self.outwaits(thread, longest) {
                longest = Some(thread);
            }
        }
        longest
    }

    // Whether a thread has waited too long, and can be voted on or lent.
    fn is_urgent(&self, thread: u32) -> bool
        requires holds { Holds (fields_of self.now) }
        requires thread { thread < 16 }
        ensures { result ≡ is_urgent (state_of self.now) thread }
    {
        self.waits.is_overdue(thread) && self.turn_of(thread).is_some()
    }

    // Whether a thread has waited longer than another one, if there is one.
    fn outwaits(&self, thread: u32, other: Option<u32>) -> bool
        requires holds { Holds (fields_of self.now) }
        requires thread { thread < 16 }
        requires other { IfSome other (λ t. t < 16) }
        ensures { result ≡ outwaits (state_of self.now) thread other }
    {
        match other {
            Some(other) => self.waits.waited(other) < self.waits.waited(thread),
            None => true,
        }
    }

    // What can be done for a thread: its vote, and else its lease in the lowest replica.
    fn turn_of(&self, thread: u32) -> Option<Action>
        requires holds { Holds (fields_of self.now) }
        ensures { result ≡ turn_of (state_of self.now) thread }
    {
        if self.may_vote(thread) {
            return Some(Action::Vote(thread));
        }
        for replica in 0..self.settings.replicas {
            if self.is_lendable(replica, thread) {
                return Some(Action::Lend { replica, thread });
            }
        }
        None
    }

    // The lowest vote, and else a lease.
    fn turn_next(&self) -> Option<Action>
        requires holds { Holds (fields_of self.now) }
        ensures { result ≡ turn_next (state_of self.now) }
    {
        match self.lowest_to_vote() {
            Some(thread) => Some(Action::Vote(thread)),
            None => self.lowest_to_lend(),
        }
    }

    // Of the threads that can be freed the one that has waited too long, and longest, else the lowest.
    fn first_to_free(&self) -> Option<u32>
        requires holds { Holds (fields_of self.now) }
        ensures { result ≡ first_freed (job_of self.now) (state_of self.now) }
    {
        let lowest = self.lowest_to_free()?;
        Some(self.longest_to_free().unwrap_or(lowest))
    }

    // Of those that can be freed and have waited too long the one that has waited longest, and of several the lowest.
    fn longest_to_free(&self) -> Option<u32>
        requires holds { Holds (fields_of self.now) }
        ensures { result ≡ longest_below (state_of self.now) (may_free (job_of self.now) (state_of self.now)) (threads_made (state_of self.now)) }
    {
        let mut longest = None;
        for thread in 0..self.kernel.made() {
            if self.is_due_free(thread) && self.outwaits(thread, longest) {
                longest = Some(thread);
            }
        }
        longest
    }

    // Whether a thread has waited too long, and can be freed.
    fn is_due_free(&self, thread: u32) -> bool
        requires holds { Holds (fields_of self.now) }
        requires thread { thread < 16 }
        ensures { result ≡ overdue_and (state_of self.now) (may_free (job_of self.now) (state_of self.now)) thread }
    {
        self.waits.is_overdue(thread) && self.may_free(thread)
    }

    // The lowest that can be freed.
    fn lowest_to_free(&self) -> Option<u32>
        requires holds { Holds (fields_of self.now) }
        ensures { result ≡ lowest_below (threads_made (state_of self.now)) (may_free (job_of self.now) (state_of self.now)) }
    {
        for thread in 0..self.kernel.made() {
            if self.may_free(thread) {
                return Some(thread);
            }
        }
        None
    }

    fn lowest_to_vote(&self) -> Option<u32>
        requires holds { Holds (fields_of self.now) }
        ensures { result ≡ lowest_below (threads_made (state_of self.now)) (may_vote (state_of self.now)) }
    {
        for thread in 0..self.kernel.made() {
            if self.may_vote(thread) {
                return Some(thread);
            }
        }
        None
    }

    // The lowest lease of the lowest replica.
    fn lowest_to_lend(&self) -> Option<Action>
        requires holds { Holds (fields_of self.now) }
        ensures { result ≡ lend_next (state_of self.now) }
    {
        for replica in 0..self.settings.replicas {
            if let Some(thread) = self.lowest_lendable(replica) {
                return Some(Action::Lend { replica, thread });
            }
        }
        None
    }

    fn lowest_lendable(&self, replica: u32) -> Option<u32>
        requires holds { Holds (fields_of self.now) }
        requires replica { replica < length (state_of self.now).replicas }
        ensures { result ≡ lowest_below (threads_made (state_of self.now)) (is_lendable (state_of self.now) replica) }
    {
        for thread in 0..self.kernel.made() {
            if self.is_lendable(replica, thread) {
                return Some(thread);
            }
        }
        None
    }

    /// Whether no end has come, and none must.
    pub fn is_going(&self) -> bool
        requires holds { Holds (fields_of self.now) }
        ensures { result ≡ is_going (state_of self.now) }
    {
        self.due.is_none() && self.ended.is_none()
    }

    /// The call on which a thread is blocked, if it is.
    pub fn blocked_call(&self, thread: u32) -> Option<Call>
        ensures { Holds (fields_of self.now) → result ≡ (state_of self.now).blocked thread }
    {
        match self.blocked.get(thread as usize) {
            Some(call) => *call,
            None => None,
        }
    }

    // Whether the core goes on and nothing is lent.
    fn is_idle(&self) -> bool
        requires holds { Holds (fields_of self.now) }
        ensures { result ≡ (is_going (state_of self.now) && nothing_lent (state_of self.now)) }
    {
        self.is_going() && self.leases.is_empty()
    }

    /// Whether a thread stands still in every replica, and is not blocked.
    pub fn may_vote(&self, thread: u32) -> bool
        requires holds { Holds (fields_of self.now) }
        ensures { result ≡ may_vote (state_of self.now) thread }
    {
        self.is_idle() && self.can_vote(thread)
    }

    // The same where the core goes on and nothing is lent.
    fn can_vote(&self, thread: u32) -> bool
        requires holds { Holds (fields_of self.now) }
        requires idle { is_going (state_of self.now) && nothing_lent (state_of self.now) ≡ true }
        ensures { result ≡ may_vote (state_of self.now) thread }
    {
        match self.blocked_call(thread) {
            Some(_) => false,
            None => self.kernel.lives_on(thread) && stands_in_all(self.seats.as_slice(), thread),
        }
    }

    /// Whether the call on which a thread is blocked would be done now.
    pub fn may_free(&self, thread: u32) -> bool
        requires holds { Holds (fields_of self.now) }
        ensures { result ≡ may_free (job_of self.now) (state_of self.now) thread }
    {
        self.is_idle()
            && match self.blocked_call(thread) {
                Some(call) => self.kernel.ready(thread, call),
                None => false,
            }
    }

    /// Whether nothing can be done.
    pub fn is_stuck(&self) -> bool
        requires holds { Holds (fields_of self.now) }
        ensures { result ≡ is_stuck (job_of self.now) (state_of self.now) }
    {
        self.is_idle() && self.first_action().is_none()
    }

    // Whether a thread may be lent in a replica.
    pub(crate) fn is_lendable(&self, replica: u32, thread: u32) -> bool
        requires holds { Holds (fields_of self.now) }
        requires replica { replica < length (state_of self.now).replicas }
        ensures { result ≡ is_lendable (state_of self.now) replica thread }
    {
        self.is_awake(replica, thread) && !self.is_parked(replica, thread)
    }

    // Whether a thread lives, and is not stopped in a replica that is at home.
    fn is_awake(&self, replica: u32, thread: u32) -> bool
        requires holds { Holds (fields_of self.now) }
        requires replica { replica < length (state_of self.now).replicas }
        ensures { result ≡ is_awake (state_of self.now) replica thread }
    {
        self.seats[replica as usize].is_unstopped(thread) && self.kernel.lives_on(thread)
    }

    // Whether a thread waits at a lock in a replica that is at home.
    fn is_parked(&self, replica: u32, thread: u32) -> bool
        requires holds { Holds (fields_of self.now) }
        requires replica { replica < length (state_of self.now).replicas }
        ensures { is_home (state_of self.now) replica ≡ true → result ≡ is_parked (state_of self.now) replica thread }
    {
        let seat = &self.seats[replica as usize];
        match (&seat.home, seat.parking(thread)) {
            (Some(partner), Some(parking)) => {
                self.is_kept(seat, partner.peer.mutexes(), thread, parking)
            }
            _ => false,
        }
    }

    // Whether a thread that came back at a lock, where the peer of a seat has these mutexes, would come back again.
    fn is_kept(&self, seat: &Seat, mutexes: &Mutexes, thread: u32, parking: Parking) -> bool
        requires holds { Holds (fields_of self.now) }
        requires had { HasMutexes (state_of self.now) mutexes.now }
        ensures { (side : Side) → side.mutexes ≡ mutexes.now → KnowsParked seat.now side → result ≡ is_kept (state_of self.now) side thread parking }
    {
        let Some(number) = mutexes.number(parking.mutex) else {
            return false;
        };
        let mutex = mutexes.mutex(number);
        mutex.owner.is_some()
            || parking.has_asked(mutex.rank) && self.is_barred(seat, thread, number, parking)
    }

    // Whether the next rank of a mutex of a seat's peer, for which the thread asked there, is not for the thread.
    fn is_barred(&self, seat: &Seat, thread: u32, number: u32, parking: Parking) -> bool
        requires holds { Holds (fields_of self.now) }
        requires next { HasRank (state_of self.now) number parking.mutex parking.rank }
        ensures { (side : Side) → KnowsParked seat.now side → result ≡ is_barred (state_of self.now) side thread parking.mutex parking.rank }
    {
        match taker(self.seats.as_slice(), number, parking.rank) {
            Some(other) => other != thread,
            None => {
                self.is_ahead(number, parking.rank)
                    || seat.is_awaited(thread, parking.mutex, parking.rank)
                    || !self.leases.is_empty()
            }
        }
    }

    // Whether some peer is so far behind that the next rank of a peer's mutex is not to be got yet.
    fn is_ahead(&self, number: u32, rank: u32) -> bool
        requires holds { Holds (fields_of self.now) }
        requires next { (address : ℕ) × HasRank (state_of self.now) number address rank }
        ensures { (address : ℕ) → HasRank (state_of self.now) number address rank → result ≡ is_ahead (state_of self.now).sides address rank }
    {
        ceiling(self.seats.as_slice(), number) <= u64::from(rank)
    }
}

// Whether a thread stands still in every peer, each of which is at home.
fn stands_in_all(seats: &[Seat], thread: u32) -> bool
    ensures { result ≡ list_all (seat_stopped thread) seats.now }
{
    seats.iter().all(|seat| seat.is_stopped(thread))
}
