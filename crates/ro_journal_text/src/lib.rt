//! The text of a journal: a line `romain 2`, or `romain 2 coop` of a cooperative run, and then a line for each entry.
//!
//! An entry's line has its words between single spaces, its numbers in decimal, and a line feed at its end:
//! `take D R T`, `put D R T N H`, `part D R T N H`, `vote T N W L X`, `free T`, `scrub W L` or `end HOW`. A text is written line by
//! line, without memory, or whole; it is read up to its first bad line, or to the line of the entry that ends the run. L is a
//! dash, a replica, or two rising ones parted by a comma. A text whose first line is `romain 1` is read too: it has replicas
//! 0 to 2 alone, and no two of them lose.
//!
//! A record is a journal that says of what run it is. Its first line is `romain 3 vote` or `romain 3 coop`; then come the lines
//! `replicas N`, `drivers N`, `watchdog N`, `quantum N`, `limit N`, `scrub N`, `exe H`, `input H` and `faults H`, where H is a
//! SHA-256 in lower-case hex, and then the entries as behind `romain 2`.
#![tactic(auto)]

mod entries;
mod errors;
mod files;
mod headings;
mod heads;
mod laws;
mod lines;
mod records;
mod versions;
mod words;

pub use errors::{JournalCode, JournalError};
pub use files::{
    AnyJournal, FileJournal, RecordedJournal, journal_text, read_any, read_journal, read_record,
};
pub use headings::{Heading, header};
pub use heads::{is_record, read_head};
pub use laws::{heads_read_back, records_read_back, texts_read_back, texts_spelled_once};
pub use lines::entry_text;
pub use records::{DIGEST_BYTES, FIRST_ENTRY, Recorded, head_text};
pub use versions::Version;
