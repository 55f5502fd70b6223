//! Tests that start threads: drivers that run side by side, and threads that decide ranks of the lock page at once.
#![tactic(auto)]

#[cfg(test)]
mod drivers;
#[cfg(test)]
mod lock_pages;
