//! The unreplicated machine, run: what a journal's plan comes to with one memory, no votes and no faults.
#![tactic(auto)]

mod backing;
mod calls;
mod errors;
mod lane;
mod length;
mod looking;
mod plain;
mod playing;
mod running;
mod watching;

pub use errors::{PlainEnd, PlanError, StepError, TooLong};
pub use lane::Lane;
pub use length::{MOST_STEPS, plan_steps};
pub use plain::Plain;
pub use running::run_plan;
pub use watching::{NO_BYTES, Relation, Stretch, Watched};
