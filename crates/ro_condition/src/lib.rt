//! Which threads wait on condition variables, in the order in which they began.
//!
//! A condition variable is known by its address alone. A signal reaches the first that waits on it and was not signalled
//! yet, a broadcast all of them; where nobody waits, both change nothing. A waiter is in the list until its wait ends.
#![tactic(auto)]

mod laws;
mod waiters;

pub use laws::{each_wait_is_its_own, signals_reach_the_first};
pub use waiters::{Waiter, Waiters};
