//! Worked rows of journals, as tests: what an audit comes to, and what is told of it in sentences and as JSON.
#![tactic(auto)]

#[cfg(test)]
mod audits;
#[cfg(test)]
mod findings;
#[cfg(test)]
mod traps;
