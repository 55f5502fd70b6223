//! Which threads stand still in which replicas.
//!
//! A vote is held on a thread where it stands still in every replica. In how many it does is counted as that changes, so
//! that no replica has to be asked.
#![tactic(auto)]

mod groups;

pub use groups::Groups;
