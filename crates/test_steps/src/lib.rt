//! Worked rows of what a thread does, as tests: one instruction, the stretches that a run keeps, runs of a quantum, calls of
//! the kernel.
#![tactic(auto)]

#[cfg(test)]
mod atomics;
#[cfg(test)]
mod kernel;
#[cfg(test)]
mod registers;
#[cfg(test)]
mod steps;
#[cfg(test)]
mod stretches;
#[cfg(test)]
mod threads;
