//! The master: the core of a run and its sink behind one lock, and the passes with which drivers take their turns. Each entry of the
//! journal is one driver's; what a pass has seen is a beginning of the one history, and its own places are all that bear
//! its number.
#![tactic(auto)]

mod desks;
mod holding;
mod laws;
mod lookout;
mod masters;
mod passes;
mod seats;
mod sessions;
mod steps;
mod waking;

pub use desks::Desk;
pub use holding::{Back, Held, Lent};
pub use laws::going_on;
pub use masters::{Aside, Master, Refused, Started};
pub use passes::{Counter, Opened, Pass};
pub use seats::Naming;
pub use sessions::{Finished, Session};
