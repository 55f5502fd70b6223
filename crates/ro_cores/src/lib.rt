//! The core of a run, be it one that keeps the rules of votes or those of a cooperative run: what a session needs of either, what
//! is lent to drivers and comes back, and what drivers of a cooperative run know of the lock page.
#![tactic(auto)]

mod laws;
mod run_cores;
mod sharing;
mod together;
mod voted;

pub use laws::{loans_return, shares_know};
pub use run_cores::{Lendable, Remains, RunCore};
pub use sharing::{SharedPage, Spare};
