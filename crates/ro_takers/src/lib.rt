//! Who got each mutex of a replica, at its last ranks.
//!
//! A thread gets a mutex at a rank: the first time that it is got at rank 0, then at 1, and so on.
#![tactic(auto)]

mod takers;

pub use takers::{MOST_APART, Takers};
