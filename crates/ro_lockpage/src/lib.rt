//! The lock information page: ranks of mutexes, each of which is decided once, for one thread, by whoever asks first.
#![tactic(auto)]

mod pages;
mod seats;
mod steps;
mod words;

pub use pages::{Closed, LockPage, Pass};
pub use words::Answer;
