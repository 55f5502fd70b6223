//! Questions to a core: what may be done, what would end the run, and what holds. None of them changes its journal.
ghost use Rattle.std.specs.Prelude.{◌≡◌, ◌<◌, ◌≤◌, ◌↔◌, IfSome, IsSome, IsTrue, Some, length, true};
ghost use Rattle.ro_event.specs.Views.{View as ViewSeen};
ghost use Rattle.ro_journal.specs.declared.How.{How as HowSeen};
ghost use Rattle.ro_peer.specs.Seen.{peer_of};
ghost use Rattle.ro_legal.specs.Core.{is_home, is_lendable, may_vote};
ghost use Rattle.ro_legal.specs.Legal.{MayTake, EndsFree};
ghost use Rattle.ro_legal.specs.Cooperative.{EndsVote, peer_in};
ghost use Rattle.ro_coop_core.specs.Fields.{Holds};
ghost use Rattle.ro_coop_core.specs.Seen.{Stays, parked_in};
ghost use Rattle.ro_coop_core.specs.Runs.{fields_of, job_of, state_of, seen, IsAgreed};

use crate::cores::Core;
use crate::seats::show_all;
use ro_journal::{How, Lease};
use ro_kernel::Kernel;
use ro_legal::{Parking, has_lease};
use ro_peer::Peer;
use ro_serving::Coming;

impl Core {
    /// Whether a thread of a replica may be lent to a driver.
    pub fn may_take(&self, lease: Lease) -> bool
        requires holds { Holds (fields_of self.now) }
        ensures { IsTrue result ↔ MayTake (job_of self.now) (state_of self.now) lease }
    {
        self.is_going()
            && lease.driver < self.settings.drivers
            && !has_lease(self.leases.as_slice(), lease.driver)
            && self.can_lend(lease.replica, lease.thread)
    }

    // The same of its replica and thread alone.
    fn can_lend(&self, replica: u32, thread: u32) -> bool
        requires holds { Holds (fields_of self.now) }
        ensures { result ≡ is_lendable (state_of self.now) replica thread }
    {
        replica < self.settings.replicas && self.is_lendable(replica, thread)
    }

    /// The end that would come in the place of a vote on a thread, if one would: that of replicas that don't agree on it, or of the
    /// limit of steps.
    pub fn vote_end(&mut self, thread: u32) -> Option<How>
        requires holds { Holds (fields_of self.old) }
        requires may { may_vote (state_of self.old) thread ≡ true }
        ensures holds { Holds (fields_of self.new) }
        ensures stays { Stays (seen self.old) (seen self.new) }
        ensures end { (how : HowSeen) → (result ≡ Some how) ↔ EndsVote (job_of self.old) (state_of self.old) thread how }
    {
        show_all(self.seats.as_slice(), thread, self.views.as_mut_slice());
        if self.agree(thread) {
            return self.agreed_end(thread);
        }
        Some(How::Differ)
    }

    // The end that would come in the place of a vote on which the replicas agree, if one would: that of the limit of steps.
    fn agreed_end(&mut self, thread: u32) -> Option<How>
        requires agreed { (view : ViewSeen) × IsAgreed (fields_of self.old) thread view }
        ensures same { self.new ≡ self.old }
        ensures end { (how : HowSeen) → (result ≡ Some how) ↔ EndsVote (job_of self.old) (state_of self.old) thread how }
    {
        let reservation = self.lapse(thread);
        let coming = Coming::of(&self.kernel, thread, &self.views[0]);
        let next = coming.did.steps();
        self.revive(thread, reservation);
        if self.steps + next > self.settings.limit {
            let steps = self.steps;
            return Some(How::Limit { steps, next });
        }
        None
    }

    /// The end that would come in the place of a free, if one would.
    pub fn free_end(&self) -> Option<How>
        requires holds { Holds (fields_of self.now) }
        ensures { (how : HowSeen) → (result ≡ Some how) ↔ EndsFree (job_of self.now) (state_of self.now) how }
    {
        if self.steps < self.settings.limit {
            return None;
        }
        let steps = self.steps;
        Some(How::Limit { steps, next: 1 })
    }

    /// How many steps the first steps have so far.
    pub fn steps(&self) -> u64
        ensures { Holds (fields_of self.now) → result ≡ (state_of self.now).steps }
    {
        self.steps
    }

    /// How many bytes the events wrote, but for those that a failing sink did not take at the end.
    pub fn bytes(&self) -> u64
        requires holds { Holds (fields_of self.now) }
        ensures { result ≡ length (state_of self.now).output }
    {
        self.sent
    }

    /// How many of them the last entry's event did.
    pub fn wrote(&self) -> u32
        requires holds { Holds (fields_of self.now) }
        ensures wrote { result ≡ (state_of self.now).wrote }
        ensures within { result ≤ length (state_of self.now).output }
    {
        self.wrote
    }

    /// How it ended, if it did.
    pub fn ended(&self) -> Option<How>
        requires holds { Holds (fields_of self.now) }
        ensures { result ≡ (state_of self.now).ended }
    {
        self.ended
    }

    /// The kernel.
    pub fn kernel(&self) -> &Kernel
        ensures kernel { Holds (fields_of self.now) → result.now.kernel ≡ (state_of self.now).kernel }
    {
        &self.kernel
    }

    /// A peer, where there is one of this number and it is not lent.
    pub fn peer(&self, number: u32) -> Option<&Peer>
        ensures there { Holds (fields_of self.now) → IfSome result (λ peer. peer_in (state_of self.now) number ≡ Some (peer_of peer.now)) }
        ensures home { Holds (fields_of self.now) → IsSome result ↔ ((number < length (state_of self.now).replicas) × (is_home (state_of self.now) number ≡ true)) }
    {
        let partner = self.seats.get(number as usize)?.home.as_ref()?;
        Some(&partner.peer)
    }

    /// Where a thread of a peer came back, where it last came back at a lock.
    pub fn parking(&self, number: u32, thread: u32) -> Option<Parking>
        ensures { Holds (fields_of self.now) → result ≡ parked_in (state_of self.now) number thread }
    {
        self.seats.get(number as usize)?.parking(thread)
    }
}
