//! Races of one run: two steps of different threads that access one byte, one of them writing it, and that nothing orders.
//!
//! `check` runs the plan of a journal on the unreplicated machine and tells the first race of it, by vector clocks.
#![tactic(auto)]

mod atomics;
mod checking;
mod found;
mod laws;
mod marks;
mod running;
mod shadows;
mod sources;

pub use found::{Found, RacesError};
pub use laws::{known_is_before, one_race_is_first, races_of_executions};
pub use running::check;
