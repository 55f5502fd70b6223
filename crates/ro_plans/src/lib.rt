//! The plan of a journal, by the mode of its run: the order of single steps of threads that the unreplicated machine takes.
#![tactic(auto)]

mod length;
mod rows;
mod slowly;
mod walk;

pub use length::plan_length;
pub use rows::plans_row;
pub use walk::{Stretch, Walk};
