//! What a driver needs of whom it works for: a post gives out leases, runs them, and takes back what became of them.
#![tactic(auto)]

mod posts;

pub use posts::{Driver, Post, Turn};
