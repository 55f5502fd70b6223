//! The core that keeps the rules of a cooperative run, as an audit needs it.
ghost use Rattle.std.specs.Prelude.{◌≡◌, IsErr, None};

use crate::audit_cores::AuditCore;
use crate::follower::Why;
use crate::ranks::Ranks;
use crate::returning::{Told, end_as_told, run_for, why_short};
use ro_coop_core::Core;
use ro_coop_lease::{Back, Lent, Took};
use ro_event::Call;
use ro_faults::Fault;
use ro_image::Executable;
use ro_journal::{Entry, How, Lease};
use ro_kernel::Kernel;
use ro_peer::Came;
use ro_replica::ReplicaBox;
use ro_settings::Settings;
use std::alloc::{AllocError, Global};

impl AuditCore for Core {
    ghost use Rattle.ro_audit.specs.Ranks.{rows_in};

    type Got = Ranks;

    ghost got_of = { rows_in };

    fn begin(
        alloc: Global,
        image: Executable,
        input: &[u8],
        _faults: &[Fault],
        settings: Settings,
    ) -> Result<Core, Executable> {
        Core::begin(alloc, image, input, settings)
    }

    fn nothing_got(alloc: Global) -> Ranks {
        Ranks::new(alloc)
    }

    fn ended(&self) -> Option<How> {
        self.ended()
    }

    fn may_take(&self, lease: Lease) -> bool {
        self.may_take(lease)
    }

    fn may_vote(&self, thread: u32) -> bool {
        self.may_vote(thread)
    }

    fn may_free(&self, thread: u32) -> bool {
        self.may_free(thread)
    }

    fn may_scrub(&self) -> bool {
        false
    }

    fn is_stuck(&self) -> bool {
        self.is_stuck()
    }

    fn is_going(&self) -> bool {
        self.is_going()
    }

    fn vote_end(&mut self, thread: u32) -> Option<How> {
        self.vote_end(thread)
    }

    fn free_end(&self) -> Option<How> {
        self.free_end()
    }

    // No scrub is made in a cooperative run, so that none is asked for.
    fn scrub_end(&self) -> Option<How>
        ensures { result ≡ None }
    {
        None
    }

    fn compare(&mut self) -> Result<Entry, AllocError>
        ensures same { self.new ≡ self.old }
        ensures none { IsErr result }
    {
        Err(AllocError)
    }

    fn steps(&self) -> u64 {
        self.steps()
    }

    fn kernel(&self) -> &Kernel {
        self.kernel()
    }

    fn blocked_call(&self, thread: u32) -> Option<Call> {
        self.blocked_call(thread)
    }

    fn replica(&self, number: u32) -> Option<&ReplicaBox> {
        Some(self.peer(number)?.replica())
    }

    fn owner(&self, mutex: u32) -> Option<u32> {
        for number in 0..self.settings().replicas {
            if let Some(peer) = self.peer(number) {
                let mutexes = peer.mutexes();
                if let Some(place) = mutexes.number(mutex) {
                    return mutexes.mutex(place).owner;
                }
            }
        }
        self.kernel().owner(mutex)?
    }

    fn waits_at(&self, thread: u32) -> Option<u32> {
        for number in 0..self.settings().replicas {
            if self.peer(number).is_some() {
                if let Some(parking) = self.parking(number, thread) {
                    return Some(parking.mutex);
                }
            }
        }
        None
    }

    fn come_back(
        &self,
        got: &mut Ranks,
        mut lent: Lent,
        entry: &Entry,
    ) -> Result<Result<Back, Why>, AllocError> {
        let told = Told::of(entry);
        self.bound(&mut lent.partner, lent.lease.replica);
        let most = told.count.min(lent.quantum);
        let ran = run_for(got, &mut lent, most);
        if ran.count < told.count {
            return Ok(Err(why_short(got, &lent, ran)?));
        }
        match end_as_told(&mut lent, told) {
            Ok(came) => Ok(Ok(back_of(lent, told.count, came))),
            Err(why) => Ok(Err(why)),
        }
    }
}

// What was lent, behind a run of so many instructions that came back by this.
fn back_of(lent: Lent, count: u32, came: Came) -> Back
    ensures { result ≡ record { lease = lent.lease; partner = lent.partner; took = record { count = count; came = came } } }
{
    let Lent {
        lease,
        quantum: _,
        partner,
    } = lent;
    Back {
        lease,
        partner,
        took: Took { count, came },
    }
}
