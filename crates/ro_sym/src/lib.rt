//! The functions that an executable names: where its symbols put each of those of POSIX threads, or why its symbols are
//! refused; and which function or data object an address lies in. Nothing here takes memory.
#![tactic(auto)]

mod addresses;
mod sections;
mod symbols;
mod table;

pub use addresses::{Within, function_at, object_at};
pub use table::calls;
