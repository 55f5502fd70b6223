//! The head of a record, read.
ghost use Rattle.std.specs.Prelude.{◌≡◌, ◌≢◌, ◌≤◌, ◌<◌, ◌^◌, ℕ, List, Result, Ok, Err, IfOk, IfErr, option_map};
ghost use Rattle.ro_settings.specs.Ranges.{InRange, IsIn, IsReplicas, range_of};
ghost use Rattle.ro_settings.specs.declared.Mode.{Mode};
ghost use Rattle.ro_text.specs.Lines.{parts_of, words_of};
ghost use Rattle.ro_journal_text.specs.declared.errors.JournalError.{JournalError};
ghost use Rattle.ro_journal_text.specs.Records.{Headed, at_line, digest_in, head_of, mode_in, number_in, replicas_in, says_record, value_behind};

use crate::errors::{JournalCode, JournalError};
use crate::records::{DIGEST_BYTES, Recorded};
use ro_settings::{
    DRIVERS, LIMIT, Mode, NumberOption, QUANTUM, REPLICAS, SCRUB, Settings, WATCHDOG, may_run,
};
use ro_text::{first_line, is_number, split_words, value_within};

/// The head that a text begins with, and what stands behind it.
///
/// # Errors
/// The number of the first bad line and what is bad in it.
pub fn read_head(bytes: &[u8]) -> Result<(Recorded, &[u8]), JournalError>
    ensures read { IfOk result (λ found. head_of (parts_of bytes.now) ≡ Ok (record { recorded = found.0; rest = parts_of found.1.now })) }
    ensures refused { IfErr result (λ error. head_of (parts_of bytes.now) ≡ Err error) }
    ensures in_range { IfOk result (λ found. InRange found.0.settings) }
{
    let (mode, rest) = mode_line(bytes)?;
    let (replicas, rest) = replicas_line(rest)?;
    let (drivers, rest) = number_line(rest, 3, &DRIVERS)?;
    let (watchdog, rest) = number_line(rest, 4, &WATCHDOG)?;
    let (quantum, rest) = number_line(rest, 5, &QUANTUM)?;
    let (limit, rest) = number_line(rest, 6, &LIMIT)?;
    let (scrub, rest) = number_line(rest, 7, &SCRUB)?;
    let (exe, rest) = digest_line(rest, 8, b"exe")?;
    let (input, rest) = digest_line(rest, 9, b"input")?;
    let (faults, rest) = digest_line(rest, 10, b"faults")?;
    let settings = Settings {
        mode,
        replicas,
        drivers: drivers as u32,
        watchdog: watchdog as u32,
        quantum: quantum as u32,
        limit,
        scrub,
    };
    let recorded = Recorded {
        settings,
        exe,
        input,
        faults,
    };
    Ok((recorded, rest))
}

/// Whether the first line of a text is that of a record.
#[tactic(auto, using(crate::proofs::Steps::says_by))]
pub fn is_record(bytes: &[u8]) -> bool
    ensures { result ≡ says_record (parts_of bytes.now) }
{
    match first_line(bytes) {
        Some((first, _)) => read_mode(first).is_ok(),
        None => false,
    }
}

// The mode of the first line, and what stands behind the line.
#[tactic(auto, using(crate::proofs::HeadLines::line_said, crate::proofs::HeadLines::line_bad, crate::proofs::HeadLines::line_missing))]
fn mode_line(bytes: &[u8]) -> Result<(Mode, &[u8]), JournalError>
    ensures read { IfOk result (λ found. (more : Mode → List (List ℕ) → Result Headed JournalError) → at_line 1 mode_in (parts_of bytes.now) more ≡ more found.0 (parts_of found.1.now)) }
    ensures refused { IfErr result (λ error. (more : Mode → List (List ℕ) → Result Headed JournalError) → at_line 1 mode_in (parts_of bytes.now) more ≡ Err error) }
{
    let Some((text, rest)) = first_line(bytes) else {
        return Err(JournalError::Bad {
            line: 1,
            code: JournalCode::Form,
        });
    };
    match read_mode(text) {
        Ok(mode) => Ok((mode, rest)),
        Err(code) => Err(JournalError::Bad { line: 1, code }),
    }
}

// The replicas of the second line.
#[tactic(auto, using(crate::proofs::HeadLines::line_said, crate::proofs::HeadLines::line_bad, crate::proofs::HeadLines::line_missing))]
fn replicas_line(bytes: &[u8]) -> Result<(u32, &[u8]), JournalError>
    ensures read { IfOk result (λ found. (more : ℕ → List (List ℕ) → Result Headed JournalError) → at_line 2 replicas_in (parts_of bytes.now) more ≡ more found.0 (parts_of found.1.now)) }
    ensures refused { IfErr result (λ error. (more : ℕ → List (List ℕ) → Result Headed JournalError) → at_line 2 replicas_in (parts_of bytes.now) more ≡ Err error) }
    ensures inside { IfOk result (λ found. IsReplicas found.0) }
{
    let Some((text, rest)) = first_line(bytes) else {
        return Err(JournalError::Bad {
            line: 2,
            code: JournalCode::Form,
        });
    };
    match read_replicas(text) {
        Ok(replicas) => Ok((replicas, rest)),
        Err(code) => Err(JournalError::Bad { line: 2, code }),
    }
}

// The number of a line.
#[tactic(auto, using(crate::proofs::HeadLines::line_said, crate::proofs::HeadLines::line_bad, crate::proofs::HeadLines::line_missing))]
fn number_line<'a>(
    bytes: &'a [u8],
    line: u64,
    option: &NumberOption,
) -> Result<(u64, &'a [u8]), JournalError>
    ensures read { IfOk result (λ found. (more : ℕ → List (List ℕ) → Result Headed JournalError) → at_line line (number_in (range_of option.now)) (parts_of bytes.entry.now) more ≡ more found.0 (parts_of found.1.now)) }
    ensures refused { IfErr result (λ error. (more : ℕ → List (List ℕ) → Result Headed JournalError) → at_line line (number_in (range_of option.now)) (parts_of bytes.entry.now) more ≡ Err error) }
    ensures inside { IfOk result (λ found. IsIn (range_of option.now) found.0) }
{
    let Some((text, rest)) = first_line(bytes) else {
        return Err(JournalError::Bad {
            line,
            code: JournalCode::Form,
        });
    };
    match read_number(text, option) {
        Ok(number) => Ok((number, rest)),
        Err(code) => Err(JournalError::Bad { line, code }),
    }
}

// The digest of a line.
#[tactic(auto, using(crate::proofs::HeadLines::line_said, crate::proofs::HeadLines::line_bad, crate::proofs::HeadLines::line_missing))]
fn digest_line<'a>(
    bytes: &'a [u8],
    line: u64,
    name: &[u8],
) -> Result<([u8; DIGEST_BYTES], &'a [u8]), JournalError>
    ensures read { IfOk result (λ found. (more : List ℕ → List (List ℕ) → Result Headed JournalError) → at_line line (digest_in name.now) (parts_of bytes.entry.now) more ≡ more found.0 (parts_of found.1.now)) }
    ensures refused { IfErr result (λ error. (more : List ℕ → List (List ℕ) → Result Headed JournalError) → at_line line (digest_in name.now) (parts_of bytes.entry.now) more ≡ Err error) }
{
    let Some((text, rest)) = first_line(bytes) else {
        return Err(JournalError::Bad {
            line,
            code: JournalCode::Form,
        });
    };
    match read_digest(text, name) {
        Ok(digest) => Ok((digest, rest)),
        Err(code) => Err(JournalError::Bad { line, code }),
    }
}

fn read_mode(line: &[u8]) -> Result<Mode, JournalCode>
    ensures { result ≡ mode_in line.now }
{
    if line == b"romain 3 vote".as_slice() {
        Ok(Mode::Voted)
    } else if line == b"romain 3 coop".as_slice() {
        Ok(Mode::Cooperative)
    } else {
        Err(JournalCode::Form)
    }
}

fn read_replicas(line: &[u8]) -> Result<u32, JournalCode>
    ensures read { result ≡ replicas_in line.now }
    ensures inside { IfOk result IsReplicas }
{
    let replicas = read_number(line, &REPLICAS)? as u32;
    if may_run(replicas) {
        Ok(replicas)
    } else {
        Err(JournalCode::Range)
    }
}

fn read_number(line: &[u8], option: &NumberOption) -> Result<u64, JournalCode>
    ensures read { result ≡ number_in (range_of option.now) line.now }
    ensures inside { IfOk result (IsIn (range_of option.now)) }
{
    let Some(word) = value_behind(line, option.name.as_bytes()) else {
        return Err(JournalCode::Form);
    };
    if !is_number(word) {
        return Err(JournalCode::Form);
    }
    value_within(word, option.least, option.most).ok_or(JournalCode::Range)
}

fn read_digest(line: &[u8], name: &[u8]) -> Result<[u8; DIGEST_BYTES], JournalCode>
    ensures { result ≡ digest_in name.now line.now }
{
    let Some(word) = value_behind(line, name) else {
        return Err(JournalCode::Form);
    };
    let mut digest = [0u8; DIGEST_BYTES];
    if hex::decode_to_slice(word, &mut digest).is_err() {
        return Err(JournalCode::Form);
    }
    let mut spelled = [0u8; 2 * DIGEST_BYTES];
    let _ = hex::encode_to_slice(digest.as_slice(), &mut spelled);
    if word == spelled.as_slice() {
        Ok(digest)
    } else {
        Err(JournalCode::Form)
    }
}

// What stands behind the name in a line of two words.
fn value_behind<'a>(line: &'a [u8], name: &[u8]) -> Option<&'a [u8]>
    ensures { option_map (λ value. value.now) result ≡ value_behind name.now (words_of line.entry.now) }
{
    let words = split_words(line)?;
    match words.as_slice() {
        [word, value] if *word == name => Some(value),
        _ => None,
    }
}
