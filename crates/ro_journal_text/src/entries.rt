//! The entry of a line.
ghost use Rattle.std.specs.Prelude.{◌≡◌, [], ◌∷◌, Some, true, map, IfOk};
ghost use Rattle.ro_journal_text.specs.Reading.{take_of, run_of, put_of, part_of, is_run, vote_of, free_of, scrub_of, end_of, entry_of, is_entry, ranged, line_entry};

use crate::errors::JournalCode;
use crate::versions::Version;
use crate::words::{read_did, read_how, read_lost};
use ro_journal::{Entry, Lease};
use ro_text::{is_number, split_words, value_within};

// What comes back with a lease: how many instructions its run retired, and how many faults were struck.
#[derive(Clone, Copy, Debug)]
pub(crate) struct Run {
    pub(crate) lease: Lease,
    pub(crate) count: u32,
    pub(crate) hit: u32,
}

// The entry of a line without its line feed.
#[tactic(auto, using(crate::proofs::Many::many_words))]
pub(crate) fn read_entry(line: &[u8], version: Version) -> Result<Entry, JournalCode>
    ensures { result ≡ line_entry version line.now }
{
    match split_words(line) {
        Some(words) => read_words(words.as_slice(), version),
        None => Err(JournalCode::Form),
    }
}

fn read_words(words: &[&[u8]], version: Version) -> Result<Entry, JournalCode>
    ensures { result ≡ ranged (is_entry version) (entry_of version (map (λ word. word.now) words.now)) }
{
    match words {
        [kind, fields @ ..] => read_kind(kind, fields, version),
        [] => Err(JournalCode::Form),
    }
}

// The entry of its first word and the others.
fn read_kind(kind: &[u8], fields: &[&[u8]], version: Version) -> Result<Entry, JournalCode>
    ensures { result ≡ ranged (is_entry version) (entry_of version (kind.now ∷ map (λ word. word.now) fields.now)) }
{
    if kind == b"take".as_slice() {
        read_take(fields, version)
    } else if kind == b"put".as_slice() {
        read_put(fields, version)
    } else if kind == b"part".as_slice() {
        read_part(fields, version)
    } else if kind == b"vote".as_slice() {
        read_vote(fields, version)
    } else if kind == b"free".as_slice() {
        read_free(fields)
    } else if kind == b"scrub".as_slice() {
        read_scrub(fields, version)
    } else if kind == b"end".as_slice() {
        read_end(fields)
    } else {
        Err(JournalCode::Form)
    }
}

fn read_take(fields: &[&[u8]], version: Version) -> Result<Entry, JournalCode>
    ensures { result ≡ ranged (is_entry version) (take_of (map (λ word. word.now) fields.now)) }
{
    match fields {
        [driver, replica, thread] => take_entry(driver, replica, thread, version),
        _ => Err(JournalCode::Form),
    }
}

fn take_entry(
    driver: &[u8],
    replica: &[u8],
    thread: &[u8],
    version: Version,
) -> Result<Entry, JournalCode>
    ensures { result ≡ ranged (is_entry version) (take_of (driver.now ∷ replica.now ∷ thread.now ∷ [])) }
{
    if !is_number(driver) || !is_number(replica) || !is_number(thread) {
        return Err(JournalCode::Form);
    }
    match (
        value_within(driver, 0, 7),
        value_within(replica, 0, version.most_replica()),
        value_within(thread, 0, 15),
    ) {
        (Some(driver), Some(replica), Some(thread)) => Ok(Entry::Take(Lease {
            driver: driver as u32,
            replica: replica as u32,
            thread: thread as u32,
        })),
        _ => Err(JournalCode::Range),
    }
}

fn read_put(fields: &[&[u8]], version: Version) -> Result<Entry, JournalCode>
    ensures { result ≡ ranged (is_entry version) (put_of (map (λ word. word.now) fields.now)) }
{
    let Run { lease, count, hit } = read_run(fields, version)?;
    Ok(Entry::Put { lease, count, hit })
}

fn read_part(fields: &[&[u8]], version: Version) -> Result<Entry, JournalCode>
    ensures { result ≡ ranged (is_entry version) (part_of version (map (λ word. word.now) fields.now)) }
{
    match version {
        Version::First => Err(JournalCode::Form),
        Version::Second => read_second_part(fields),
    }
}

fn read_second_part(fields: &[&[u8]]) -> Result<Entry, JournalCode>
    ensures { result ≡ ranged (is_entry Version.Second) (part_of Version.Second (map (λ word. word.now) fields.now)) }
{
    let Run { lease, count, hit } = read_run(fields, Version::Second)?;
    Ok(Entry::Part { lease, count, hit })
}

// A lease that comes back, with its run.
fn read_run(fields: &[&[u8]], version: Version) -> Result<Run, JournalCode>
    ensures read { result ≡ ranged (is_run version) (run_of (map (λ word. word.now) fields.now)) }
    ensures given { IfOk result (λ run. run_of (map (λ word. word.now) fields.now) ≡ Some run) }
    ensures inside { IfOk result (λ run. is_run version run ≡ true) }
{
    match fields {
        [driver, replica, thread, count, hit] => run_entry(
            driver, replica, thread, count, hit, version,
        ),
        _ => Err(JournalCode::Form),
    }
}

fn run_entry(
    driver: &[u8],
    replica: &[u8],
    thread: &[u8],
    count: &[u8],
    hit: &[u8],
    version: Version,
) -> Result<Run, JournalCode>
    ensures read { result ≡ ranged (is_run version) (run_of (driver.now ∷ replica.now ∷ thread.now ∷ count.now ∷ hit.now ∷ [])) }
    ensures given { IfOk result (λ run. run_of (driver.now ∷ replica.now ∷ thread.now ∷ count.now ∷ hit.now ∷ []) ≡ Some run) }
    ensures inside { IfOk result (λ run. is_run version run ≡ true) }
{
    if !is_number(driver)
        || !is_number(replica)
        || !is_number(thread)
        || !is_number(count)
        || !is_number(hit)
    {
        return Err(JournalCode::Form);
    }
    match (
        value_within(driver, 0, 7),
        value_within(replica, 0, version.most_replica()),
        value_within(thread, 0, 15),
        value_within(count, 0, 65_536),
        value_within(hit, 0, 256),
    ) {
        (Some(driver), Some(replica), Some(thread), Some(count), Some(hit)) => Ok(Run {
            lease: Lease {
                driver: driver as u32,
                replica: replica as u32,
                thread: thread as u32,
            },
            count: count as u32,
            hit: hit as u32,
        }),
        _ => Err(JournalCode::Range),
    }
}

fn read_vote(fields: &[&[u8]], version: Version) -> Result<Entry, JournalCode>
    ensures { result ≡ ranged (is_entry version) (vote_of version (map (λ word. word.now) fields.now)) }
{
    match fields {
        [thread, count, won, lost, did] => vote_entry(thread, count, won, lost, did, version),
        _ => Err(JournalCode::Form),
    }
}

fn vote_entry(
    thread: &[u8],
    count: &[u8],
    won: &[u8],
    lost: &[u8],
    did: &[u8],
    version: Version,
) -> Result<Entry, JournalCode>
    ensures { result ≡ ranged (is_entry version) (vote_of version (thread.now ∷ count.now ∷ won.now ∷ lost.now ∷ did.now ∷ [])) }
{
    if !is_number(thread) || !is_number(count) || !is_number(won) {
        return Err(JournalCode::Form);
    }
    match (read_did(did, version), read_lost(lost, version)) {
        (None, _) => Err(JournalCode::Form),
        (_, Err(code)) => Err(code),
        (Some(did), Ok(lost)) => match (
            value_within(thread, 0, 15),
            value_within(count, 0, 1_000_000),
            value_within(won, 0, version.most_replica()),
        ) {
            (Some(thread), Some(count), Some(won)) => Ok(Entry::Vote {
                thread: thread as u32,
                count: count as u32,
                won: won as u32,
                lost,
                did,
            }),
            _ => Err(JournalCode::Range),
        },
    }
}

// Its ranges are the same in each version.
fn read_free(fields: &[&[u8]]) -> Result<Entry, JournalCode>
    ensures { result ≡ ranged (is_entry Version.Second) (free_of (map (λ word. word.now) fields.now)) }
{
    match fields {
        [thread] => free_entry(thread),
        _ => Err(JournalCode::Form),
    }
}

fn free_entry(thread: &[u8]) -> Result<Entry, JournalCode>
    ensures { result ≡ ranged (is_entry Version.Second) (free_of (thread.now ∷ [])) }
{
    if !is_number(thread) {
        return Err(JournalCode::Form);
    }
    match value_within(thread, 0, 15) {
        Some(thread) => Ok(Entry::Free {
            thread: thread as u32,
        }),
        None => Err(JournalCode::Range),
    }
}

fn read_scrub(fields: &[&[u8]], version: Version) -> Result<Entry, JournalCode>
    ensures { result ≡ ranged (is_entry version) (scrub_of version (map (λ word. word.now) fields.now)) }
{
    match (fields, version) {
        ([won, lost], Version::Second) => scrub_entry(won, lost),
        _ => Err(JournalCode::Form),
    }
}

fn scrub_entry(won: &[u8], lost: &[u8]) -> Result<Entry, JournalCode>
    ensures { result ≡ ranged (is_entry Version.Second) (scrub_of Version.Second (won.now ∷ lost.now ∷ [])) }
{
    if !is_number(won) {
        return Err(JournalCode::Form);
    }
    match read_lost(lost, Version::Second) {
        Err(code) => Err(code),
        Ok(lost) => match value_within(won, 0, Version::Second.most_replica()) {
            Some(won) => Ok(Entry::Scrub {
                won: won as u32,
                lost,
            }),
            None => Err(JournalCode::Range),
        },
    }
}

// Its ranges are the same in each version.
fn read_end(fields: &[&[u8]]) -> Result<Entry, JournalCode>
    ensures { result ≡ ranged (is_entry Version.Second) (end_of (map (λ word. word.now) fields.now)) }
{
    Ok(Entry::End {
        how: read_how(fields)?,
    })
}
