//! The core of a cooperative run: its peers, which answer the calls on mutexes by themselves, the leases that are out, and the
//! journal of its events. Each call of the core is one entry of the journal, and the core is at each moment what its journal
//! leaves.
#![tactic(auto)]

mod asking;
mod ceilings;
mod choosing;
mod cores;
mod leasing;
mod opening;
mod seats;
mod showing;
mod voting;

pub use cores::{Core, Finished};
pub use seats::Partner;
pub use voting::Voted;
