//! The command `audit`, from its words to what is found: the files are fetched and read, the journal is followed, and what it
//! comes to is found.
#![tactic(auto)]

mod agreeing;
mod asking;
mod commands;
mod copies;
mod fields;
mod places;
mod standing;

pub use commands::{Form, Judged, audit_files, audit_words, find};
