//! A peer that is lent to a driver, which runs it with no lock held, and what comes back.
#![tactic(auto)]

mod laws;

ghost use Rattle.std.specs.Prelude.{◌≡◌};
ghost use Rattle.ro_coop_lease.specs.Loans.{CanGo, Gives};

pub use laws::{what_is_lent_may_return, what_was_got_is_known};
use ro_coop_core::Partner;
use ro_journal::Lease;
use ro_locking::PageLocks;
use ro_lockpage::{LockPage, Pass};
use ro_peer::{Came, PeerRan};

/// A lease and its peer, whose thread is to run for at most so many instructions.
#[derive(Drop)]
pub struct Lent {
    pub lease: Lease,
    pub quantum: u32,
    pub partner: Partner,
}

/// What a run took, and why it came back.
#[derive(Clone, Copy)]
pub struct Took {
    /// How many instructions were retired. A call that the peer answered counts as one.
    pub count: u32,
    pub came: Came,
}

/// The peer after its run.
#[derive(Drop)]
pub struct Back {
    pub lease: Lease,
    pub partner: Partner,
    pub took: Took,
}

impl Lent {
    /// Runs the lease's thread. The page decides who gets a mutex, and is asked by this pass, which comes back.
    pub fn run(self, page: &LockPage, pass: Pass) -> (Back, Pass)
        requires can { CanGo self }
        requires wide { page.now.mutexes ≡ 256 }
        requires ours { pass.page ≡ page.now.name }
        ensures { Gives self pass result.0 result.1 }
    {
        let Lent {
            lease,
            quantum,
            mut partner,
        } = self;
        let mut locks = PageLocks::new(page, pass, partner.ceilings.as_slice());
        let PeerRan { count, came } = partner.peer.run(&mut locks, lease.thread, quantum);
        let pass = locks.into_pass();
        let back = Back {
            lease,
            partner,
            took: Took { count, came },
        };
        (back, pass)
    }
}
