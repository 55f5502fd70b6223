//! Whole runs by the call that does it all, as tests of what no script can ask of the program: stores and sinks that fail at each
//! of their calls, which file was refused, views that are kept, drivers that wait for each other. `tests/rows` has all other runs.
#![tactic(auto)]

#[cfg(test)]
mod commands;
#[cfg(test)]
mod edges;
#[cfg(test)]
mod guests;
#[cfg(test)]
mod outside;
