//! Questions to a core: what may be done, what would end the run, and what holds. None of them changes it.
ghost use Rattle.std.specs.Prelude.{◌≡◌, ◌<◌, ◌≤◌, ◌↔◌, IfSome, IsSome, IsTrue, Some, length, slice_get, true};
ghost use Rattle.ro_journal.specs.declared.How.{How as HowSeen};
ghost use Rattle.ro_replica.specs.Seen.{replica_of};
ghost use Rattle.ro_legal.specs.Core.{is_going, is_home, is_lendable, may_vote, may_free};
ghost use Rattle.ro_legal.specs.Legal.{MayTake, is_stuck, may_scrub, EndsVote, EndsFree, EndsScrub};
ghost use Rattle.ro_core.specs.Seen.{Stays};
ghost use Rattle.ro_core.specs.Fields.{Holds};
ghost use Rattle.ro_core.specs.Runs.{fields_of, job_of, state_of, silent, IsHeld};

use crate::cores::Core;
use crate::scrubbing::prevailing;
use crate::sharing::is_home;
use crate::voting::split_of;
use ro_journal::{How, Lease};
use ro_kernel::Kernel;
use ro_legal::has_lease;
use ro_replica::ReplicaBox;
use ro_serving::Coming;
use ro_vote::{Won, verdict};

impl Core {
    /// Whether a thread of a replica may be lent to a driver.
    pub fn may_take(&self, lease: Lease) -> bool
        requires holds { Holds (fields_of self.now) }
        ensures { IsTrue result ↔ MayTake (job_of self.now) (state_of self.now) lease }
    {
        self.is_going()
            && lease.driver < self.settings.drivers
            && !has_lease(self.leases.as_slice(), lease.driver)
            && self.can_lend(lease.replica, lease.thread)
    }

    // The same of its replica and thread alone.
    fn can_lend(&self, replica: u32, thread: u32) -> bool
        requires holds { Holds (fields_of self.now) }
        ensures { result ≡ is_lendable (state_of self.now) replica thread }
    {
        replica < self.settings.replicas && self.is_lendable(replica, thread)
    }

    /// The end that would come in the place of a vote on a thread, if one would.
    pub fn vote_end(&mut self, thread: u32) -> Option<How>
        requires holds { Holds (fields_of self.old) }
        requires may { may_vote (state_of self.old) thread ≡ true }
        ensures holds { Holds (fields_of self.new) }
        ensures stays { Stays (silent self.old) (silent self.new) }
        ensures end { (how : HowSeen) → (result ≡ Some how) ↔ EndsVote (job_of self.old) (state_of self.old) thread how }
    {
        self.seats.show(thread, self.views.as_mut_slice());
        match verdict(self.views.as_slice()) {
            Some(won) => self.won_end(thread, won),
            None => Some(split_of(self.views.len())),
        }
    }

    // The end that would come in the place of a vote that was won: that of the limit of steps.
    fn won_end(&self, thread: u32, won: Won) -> Option<How>
        requires held { IsHeld (fields_of self.now) thread won.won won.lost }
        ensures { (how : HowSeen) → (result ≡ Some how) ↔ EndsVote (job_of self.now) (state_of self.now) thread how }
    {
        let view = &self.views[won.won as usize];
        let count = view.since();
        let coming = Coming::of(&self.kernel, thread, view);
        let next = u64::from(count) + coming.did.steps();
        if next > self.settings.limit - self.steps {
            let steps = self.steps;
            return Some(How::Limit { steps, next });
        }
        None
    }

    /// The end that would come in the place of a free, if one would.
    pub fn free_end(&self) -> Option<How>
        requires holds { Holds (fields_of self.now) }
        ensures { (how : HowSeen) → (result ≡ Some how) ↔ EndsFree (job_of self.now) (state_of self.now) how }
    {
        if self.steps < self.settings.limit {
            return None;
        }
        let steps = self.steps;
        Some(How::Limit { steps, next: 1 })
    }

    /// The end that would come in the place of a scrub: that of replicas of which no more than half are the same.
    pub fn scrub_end(&self) -> Option<How>
        requires holds { Holds (fields_of self.now) }
        requires may { may_scrub (state_of self.now) ≡ true }
        ensures { (how : HowSeen) → (result ≡ Some how) ↔ EndsScrub (state_of self.now) how }
    {
        match prevailing(self.seats.homes.as_slice(), &self.kernel) {
            Some(_) => None,
            None => Some(split_of(self.seats.homes.len())),
        }
    }

    /// How many steps the plan has so far.
    pub fn steps(&self) -> u64
        ensures { Holds (fields_of self.now) → result ≡ (state_of self.now).steps }
    {
        self.steps
    }

    /// How many bytes the events wrote, but for those that a failing sink did not take at the end.
    pub fn bytes(&self) -> u64
        requires holds { Holds (fields_of self.now) }
        ensures { result ≡ length (state_of self.now).output }
    {
        self.sent
    }

    /// How many of them the last entry's event did.
    pub fn wrote(&self) -> u32
        requires holds { Holds (fields_of self.now) }
        ensures wrote { result ≡ (state_of self.now).wrote }
        ensures within { result ≤ length (state_of self.now).output }
    {
        self.wrote
    }

    /// How it ended, if it did.
    pub fn ended(&self) -> Option<How>
        requires holds { Holds (fields_of self.now) }
        ensures { result ≡ (state_of self.now).ended }
    {
        self.ended
    }

    /// The kernel.
    pub fn kernel(&self) -> &Kernel
        ensures kernel { Holds (fields_of self.now) → result.now.kernel ≡ (state_of self.now).kernel }
    {
        &self.kernel
    }

    /// A replica, where there is one of this number and nothing of it is lent.
    pub fn replica(&self, number: u32) -> Option<&ReplicaBox>
        ensures there { Holds (fields_of self.now) → IfSome result (λ r. slice_get (state_of self.now).replicas number ≡ Some (replica_of r.now)) }
        ensures home { Holds (fields_of self.now) → IsSome result ↔ ((number < length (state_of self.now).replicas) × (is_home (state_of self.now) number ≡ true)) }
    {
        if is_home(self.leases.as_slice(), number) {
            self.seats.replica(number)
        } else {
            None
        }
    }
}
