//! The report of a run: its journal behind a head, where that is to be shown, then the summary of it and the answer. Each line has a
//! fixed size, so that a report takes no memory.
#![tactic(auto)]

mod answers;
mod laws;
mod summaries;

pub use answers::{Answer, FileKind, HeadLine, answer_line};
pub use laws::shown_line_by_line;
pub use ro_elf::ExeError;
pub use ro_journal_text::{JournalCode, entry_text, header};
pub use ro_text::Line;
pub use summaries::{bench_line, plain_line, summary};
