//! What an audit finds of a journal: as data, and its two forms, sentences and JSON.
#![tactic(auto)]

mod findings;
mod json;
mod lines;
mod registers;
mod sentences;

pub use findings::{
    CopyMade, Differed, Ended, Field, Findings, Instruction, Mapped, Odd, Part, Place, Split,
    Standing, State, Strike, Symbol, ThreadFields, ThreadParts, Trapped, Variable, Verdict,
    Waiting,
};
