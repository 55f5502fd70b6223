//! An audit: whether a journal is legal by the rules of its run's mode, and what it comes to. It is followed entry by entry through
//! a core of its own.
#![tactic(auto)]

mod audit_cores;
mod audits;
mod copies;
mod follower;
mod loans;
mod ranks;
mod returning;
mod together;
mod voted;
mod whole;

pub use audit_cores::AuditCore;
pub use audits::{AuditError, Audited, Trail, audit, trace};
pub use copies::{Difference, Parts};
pub use follower::Why;
pub use ranks::{Rank, Ranks};
pub use whole::Whole;
