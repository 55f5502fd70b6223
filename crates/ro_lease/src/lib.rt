//! A replica that is lent to a driver, or a thread of it with a few of its pages; how a driver runs it with no lock held, and
//! what comes back.
#![tactic(auto)]

ghost use Rattle.ro_lease.specs.Loans.{CanGo, Gives};

use ro_journal::Lease;
use ro_replica::{LaneBox, Ran, ReplicaBox};

/// What a lease has of its replica.
#[derive(Drop)]
pub enum Loan {
    /// All of it.
    Whole(ReplicaBox),
    /// A thread, and a few of its pages.
    Part(LaneBox),
}

/// A lease and what it has, whose thread is to run for at most so many instructions.
#[derive(Drop)]
pub struct Lent {
    pub lease: Lease,
    pub quantum: u32,
    pub loan: Loan,
}

/// What a run took.
#[derive(Clone, Copy)]
pub struct Took {
    /// How many instructions were retired.
    pub count: u32,
    /// How many faults were struck.
    pub hit: u32,
}

/// What comes back: the lease, and what it had, after its run. Where the thread stands still is kept in that; after a whole
/// quantum it does nowhere.
#[derive(Drop)]
pub struct Back {
    pub lease: Lease,
    pub loan: Loan,
    pub took: Took,
}

impl Lent {
    /// Runs the thread.
    pub fn run(self) -> Back
        requires { CanGo self }
        ensures { Gives self result }
    {
        let Lent {
            lease,
            quantum,
            loan,
        } = self;
        match loan {
            Loan::Whole(mut replica) => {
                let Ran {
                    count,
                    hit,
                    stop: _,
                } = replica.run(lease.thread, quantum);
                Back {
                    lease,
                    loan: Loan::Whole(replica),
                    took: Took { count, hit },
                }
            }
            Loan::Part(mut lane) => {
                let count = lane.run(quantum);
                Back {
                    lease,
                    loan: Loan::Part(lane),
                    took: Took { count, hit: 0 },
                }
            }
        }
    }
}
