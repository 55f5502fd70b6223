//! The core that keeps the rules of votes, as an audit needs it.
ghost use Rattle.std.specs.Prelude.{◌≡◌};
ghost use Rattle.ro_audit.specs.Returning.{otherwise};

use crate::audit_cores::AuditCore;
use crate::follower::{Why, is_same};
use crate::returning::Told;
use ro_core::Core;
use ro_cores::RunCore;
use ro_event::Call;
use ro_faults::Fault;
use ro_image::Executable;
use ro_journal::{Entry, How, Lease};
use ro_kernel::Kernel;
use ro_lease::{Back, Lent, Took};
use ro_replica::ReplicaBox;
use ro_settings::Settings;
use std::alloc::{AllocError, Global};

impl AuditCore for Core {
    ghost use Rattle.std.specs.Prelude.{None};

    type Got = ();

    ghost got_of = { λ got number rank. None };

    fn begin(
        alloc: Global,
        image: Executable,
        input: &[u8],
        faults: &[Fault],
        settings: Settings,
    ) -> Result<Core, Executable> {
        Core::begin(alloc, image, input, faults, settings)
    }

    fn nothing_got(_alloc: Global) {}

    fn ended(&self) -> Option<How> {
        self.ended()
    }

    fn may_take(&self, lease: Lease) -> bool {
        self.may_take(lease)
    }

    fn may_vote(&self, thread: u32) -> bool {
        self.may_vote(thread)
    }

    fn may_free(&self, thread: u32) -> bool {
        self.may_free(thread)
    }

    fn may_scrub(&self) -> bool {
        self.may_scrub()
    }

    fn is_stuck(&self) -> bool {
        self.is_stuck()
    }

    fn is_going(&self) -> bool {
        self.is_going()
    }

    fn vote_end(&mut self, thread: u32) -> Option<How> {
        self.vote_end(thread)
    }

    fn free_end(&self) -> Option<How> {
        self.free_end()
    }

    fn scrub_end(&self) -> Option<How> {
        self.scrub_end()
    }

    fn compare(&mut self) -> Result<Entry, AllocError> {
        self.scrub()
    }

    fn steps(&self) -> u64 {
        self.steps()
    }

    fn kernel(&self) -> &Kernel {
        self.kernel()
    }

    fn blocked_call(&self, thread: u32) -> Option<Call> {
        self.blocked_call(thread)
    }

    fn replica(&self, number: u32) -> Option<&ReplicaBox> {
        self.replica(number)
    }

    fn owner(&self, mutex: u32) -> Option<u32> {
        self.kernel().owner(mutex)?
    }

    fn waits_at(&self, _thread: u32) -> Option<u32> {
        None
    }

    fn come_back(
        &self,
        _got: &mut (),
        lent: Lent,
        entry: &Entry,
    ) -> Result<Result<Back, Why>, AllocError> {
        let back = lent.run();
        if is_same(&self.entry(&back), entry) {
            return Ok(Ok(back));
        }
        Ok(Err(why_otherwise(Told::of(entry), &back.took)))
    }
}

// Why a lease doesn't come back as it is told, where its run came to these counts: they are others, or it comes back by the other
// entry.
fn why_otherwise(told: Told, took: &Took) -> Why
    ensures { result ≡ otherwise told took.now }
{
    if took.count == told.count && took.hit == told.hit {
        told.refusal()
    } else {
        Why::Ran {
            count: took.count,
            hit: took.hit,
        }
    }
}
