//! The command that the words of a command line spell.
//!
//! `clap` says which words form a command; what it takes beyond that is refused before, and numbers are read here.
#![tactic(auto)]

mod commands;
mod grammar;
mod laws;
mod settings;
mod shapes;

pub use commands::{
    AuditCommand, BenchCommand, Command, InjectCommand, Kept, PlanCommand, RunCommand, WordsError,
    parse_audit, parse_words,
};
pub use laws::{
    audit_alone_is_usual, commands_are_apart, numbers_lie_in_range, order_is_free,
    run_alone_is_usual, spellings_agree,
};
pub use settings::Said;
