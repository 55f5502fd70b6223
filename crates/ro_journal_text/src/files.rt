//! The texts of journals.
ghost use Rattle.std.specs.Prelude.{◌≡◌, ◌≤◌, ◌∷◌, Ok, IfOk, IfErr, IfSome};
ghost use Rattle.ro_text.specs.Lines.{parts_of};
ghost use Rattle.ro_journal_text.specs.Texts.{journal_text};
ghost use Rattle.ro_journal_text.specs.Records.{any_in, file_any, file_record, of_journal, of_record, record_in};
ghost use Rattle.ro_settings.specs.Ranges.{InRange};
ghost use Rattle.ro_journal_text.specs.Reading.{refuses, file_journal, headed_journal, journal_in, lines_entries, is_end};

use crate::entries::read_entry;
use crate::errors::{JournalCode, JournalError};
use crate::headings::{header, read_heading};
use crate::heads::{is_record, read_head};
use crate::lines::entry_text;
use crate::records::{FIRST_ENTRY, Recorded};
use crate::versions::Version;
use ro_journal::Entry;
use ro_settings::Mode;
use ro_text::first_line;
use std::alloc::{AllocError, Global};

/// The journal of a text.
#[derive(Drop)]
pub struct FileJournal {
    /// The mode of the run.
    pub mode: Mode,
    pub entries: Vec<Entry>,
}

/// A journal that says of what run it is.
#[derive(Drop)]
pub struct RecordedJournal {
    pub recorded: Recorded,
    pub entries: Vec<Entry>,
}

/// The journal of a text in any version.
#[derive(Drop)]
pub struct AnyJournal {
    /// Of what run it is, where the text says so.
    pub recorded: Option<Recorded>,
    /// The mode of the run.
    pub mode: Mode,
    pub entries: Vec<Entry>,
}

/// The text of a journal of a run in the mode.
///
/// # Errors
/// Memory can run out.
pub fn journal_text(alloc: Global, mode: Mode, entries: &[Entry]) -> Result<Vec<u8>, AllocError>
    ensures { IfOk result (λ bytes. bytes.items ≡ journal_text mode entries.now) }
{
    let mut bytes = Vec::from_slice(alloc, header(mode))?;
    for entry in entries {
        bytes.extend_from_slice(entry_text(entry).as_bytes())?;
    }
    Ok(bytes)
}

/// Reads the text of a journal, up to its first bad line, to the line of the entry that ends the run, or to its end.
///
/// # Errors
/// The number of the first bad line and what is bad in it, or `NoMemory`.
pub fn read_journal(alloc: Global, bytes: &[u8]) -> Result<FileJournal, JournalError>
    ensures read { IfOk result (λ journal. file_journal bytes.now ≡ Ok (journal_in journal)) }
    ensures refused { IfErr result (λ error. refuses error (file_journal bytes.now)) }
{
    match first_line(bytes) {
        Some((first, rest)) => read_headed(alloc, first, rest),
        None => Err(JournalError::Bad {
            line: 1,
            code: JournalCode::Form,
        }),
    }
}

/// Reads a text whose head says of what run it is, as far as `read_journal` reads one.
///
/// # Errors
/// The number of the first bad line and what is bad in it, or `NoMemory`.
pub fn read_record(alloc: Global, bytes: &[u8]) -> Result<RecordedJournal, JournalError>
    ensures read { IfOk result (λ journal. file_record bytes.now ≡ Ok (record_in journal)) }
    ensures refused { IfErr result (λ error. refuses error (file_record bytes.now)) }
    ensures in_range { IfOk result (λ journal. InRange journal.recorded.settings) }
{
    let (recorded, rest) = read_head(bytes)?;
    let entries = read_entries(alloc, rest, Version::Second, FIRST_ENTRY)?;
    Ok(RecordedJournal { recorded, entries })
}

/// Reads a text in any version: as `read_record` does where its first line is that of a record, else as `read_journal` does.
///
/// # Errors
/// The number of the first bad line and what is bad in it, or `NoMemory`.
pub fn read_any(alloc: Global, bytes: &[u8]) -> Result<AnyJournal, JournalError>
    ensures read { IfOk result (λ journal. file_any bytes.now ≡ Ok (any_in journal)) }
    ensures refused { IfErr result (λ error. refuses error (file_any bytes.now)) }
    ensures in_range { IfOk result (λ journal. IfSome journal.recorded (λ recorded. InRange recorded.settings)) }
{
    if is_record(bytes) {
        record_of(alloc, bytes)
    } else {
        journal_of(alloc, bytes)
    }
}

// The journal of a record.
fn record_of(alloc: Global, bytes: &[u8]) -> Result<AnyJournal, JournalError>
    ensures read { IfOk result (λ journal. of_record (file_record bytes.now) ≡ Ok (any_in journal)) }
    ensures refused { IfErr result (λ error. refuses error (of_record (file_record bytes.now))) }
    ensures in_range { IfOk result (λ journal. IfSome journal.recorded (λ recorded. InRange recorded.settings)) }
{
    let RecordedJournal { recorded, entries } = read_record(alloc, bytes)?;
    Ok(AnyJournal {
        recorded: Some(recorded),
        mode: recorded.settings.mode,
        entries,
    })
}

// The journal of a text of an older version.
fn journal_of(alloc: Global, bytes: &[u8]) -> Result<AnyJournal, JournalError>
    ensures read { IfOk result (λ journal. of_journal (file_journal bytes.now) ≡ Ok (any_in journal)) }
    ensures refused { IfErr result (λ error. refuses error (of_journal (file_journal bytes.now))) }
    ensures in_range { IfOk result (λ journal. IfSome journal.recorded (λ recorded. InRange recorded.settings)) }
{
    let FileJournal { mode, entries } = read_journal(alloc, bytes)?;
    Ok(AnyJournal {
        recorded: None,
        mode,
        entries,
    })
}

// The journal behind a first line.
#[tactic(auto, using(crate::proofs::Steps::none_headed, crate::proofs::Steps::headed_read, crate::proofs::Steps::headed_refused))]
fn read_headed(alloc: Global, first: &[u8], rest: &[u8]) -> Result<FileJournal, JournalError>
    ensures read { IfOk result (λ journal. headed_journal (first.now ∷ parts_of rest.now) ≡ Ok (journal_in journal)) }
    ensures refused { IfErr result (λ error. refuses error (headed_journal (first.now ∷ parts_of rest.now))) }
{
    let Some(heading) = read_heading(first) else {
        return Err(JournalError::Bad {
            line: 1,
            code: JournalCode::Form,
        });
    };
    let entries = read_entries(alloc, rest, heading.version(), 2)?;
    Ok(FileJournal {
        mode: heading.mode(),
        entries,
    })
}

// The entries of lines from a number on.
fn read_entries(
    alloc: Global,
    bytes: &[u8],
    version: Version,
    first: u64,
) -> Result<Vec<Entry>, JournalError>
    requires { first ≤ 11 }
    ensures read { IfOk result (λ entries. lines_entries version first (parts_of bytes.now) ≡ Ok entries.items) }
    ensures refused { IfErr result (λ error. refuses error (lines_entries version first (parts_of bytes.now))) }
{
    let mut entries = Vec::new(alloc);
    let mut rest = bytes;
    let mut line = first;
    while let Some((text, behind)) = first_line(rest) {
        match read_entry(text, version) {
            Ok(entry) => {
                entries.push(entry).map_err(AllocError::from)?;
                if is_end(&entry) {
                    return Ok(entries);
                }
            }
            Err(code) => return Err(JournalError::Bad { line, code }),
        }
        rest = behind;
        line += 1;
    }
    if rest.is_empty() {
        Ok(entries)
    } else {
        Err(JournalError::Bad {
            line,
            code: JournalCode::Form,
        })
    }
}

fn is_end(entry: &Entry) -> bool
    ensures { result ≡ is_end entry.now }
{
    matches!(entry, Entry::End { .. })
}
