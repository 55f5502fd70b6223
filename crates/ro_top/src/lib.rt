//! A command from its words to its answer: the files are fetched and read, the program runs on its replicas, and what
//! came of it is reported.
#![tactic(auto)]

mod benching;
mod done;
mod driving;
mod injecting;
mod playing;
mod racing;
mod reports;
mod running;
mod top;
mod writing;

pub use done::{Done, Told, UNTOLD, answered, without_words};
pub use reports::give_all;
pub use ro_report::{Answer, FileKind, JournalCode};
pub use running::{JobRun, run_job};
pub use top::romain;
