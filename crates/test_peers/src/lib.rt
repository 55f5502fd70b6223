//! Worked rows of peers, as tests: a program that locks and unlocks.
#![tactic(auto)]

#[cfg(test)]
mod locking;
