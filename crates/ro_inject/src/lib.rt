//! Faults drawn at random, the same ones for the same seed.
#![tactic(auto)]

mod drawing;
mod laws;

pub use drawing::{Bounds, draw};
pub use laws::{drawn_faults_are_read, drawn_row};
