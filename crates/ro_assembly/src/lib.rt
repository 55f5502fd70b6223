//! Instructions as assemblers write them, the names of registers, and the address that a load, a store or an atomic
//! instruction accesses.
#![tactic(auto)]

mod accesses;
mod names;
mod texts;

pub use accesses::address_touched;
pub use names::register_name;
pub use texts::instruction_text;
