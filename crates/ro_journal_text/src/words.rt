//! The words of an entry's line, read.
ghost use Rattle.std.specs.Prelude.{◌≡◌, [], ◌∷◌, Some, true, map, IfOk, IfSome};
ghost use Rattle.std.specs.List.{list_all};
ghost use Rattle.ro_text.specs.Numbers.{is_number, value_of};
ghost use Rattle.ro_journal_text.specs.Reading.{did_of, has_did, listed, several_of, lost_of, how_of, is_lost, is_how, trapped_by, ranged};
ghost use Rattle.ro_event.specs.Traps.{trap_of};

use crate::errors::JournalCode;
use crate::versions::Version;
use ro_event::TrapCause;
use ro_journal::{Did, How, Lost};
use ro_limits::MOST_STEPS;
use ro_text::{cut_at, is_number, value_within};

pub(crate) fn read_did(word: &[u8], version: Version) -> Option<Did>
    ensures read { result ≡ did_of version word.now }
    ensures inside { IfSome result (λ did. has_did version did ≡ true) }
{
    if word == b"served".as_slice() {
        Some(Did::Served)
    } else if word == b"blocked".as_slice() {
        Some(Did::Blocked)
    } else if word == b"parked".as_slice() {
        match version {
            Version::First => None,
            Version::Second => Some(Did::Parked),
        }
    } else if word == b"mapped".as_slice() {
        Some(Did::PageBacked)
    } else if word == b"watch".as_slice() {
        Some(Did::Watch)
    } else if word == b"trapped".as_slice() {
        Some(Did::Trapped)
    } else {
        None
    }
}

pub(crate) fn read_lost(word: &[u8], version: Version) -> Result<Lost, JournalCode>
    ensures read { result ≡ ranged (is_lost version) (lost_of version word.now) }
    ensures given { IfOk result (λ lost. lost_of version word.now ≡ Some lost) }
    ensures inside { IfOk result (λ lost. is_lost version lost ≡ true) }
{
    if is_number(word) {
        match value_within(word, 0, version.most_replica()) {
            Some(replica) => Ok(Lost::One(replica as u32)),
            None => Err(JournalCode::Range),
        }
    } else if word == b"-".as_slice() {
        Ok(Lost::Nobody)
    } else {
        match version {
            Version::First => Err(JournalCode::Form),
            Version::Second => read_several(word),
        }
    }
}

// Two losers, parted by a comma. More are out of range.
fn read_several(word: &[u8]) -> Result<Lost, JournalCode>
    ensures { result ≡ ranged (is_lost Version.Second) (several_of (listed word.now)) }
{
    let Some((lower, rest)) = cut_at(word, b',') else {
        return Err(JournalCode::Form);
    };
    if !is_number(lower) || !are_numbers(rest) {
        return Err(JournalCode::Form);
    }
    if !is_number(rest) {
        return Err(JournalCode::Range);
    }
    read_pair(lower, rest)
}

// Two numbers, which are to rise.
fn read_pair(lower: &[u8], higher: &[u8]) -> Result<Lost, JournalCode>
    requires lower { is_number lower.now ≡ true }
    requires higher { is_number higher.now ≡ true }
    ensures { result ≡ ranged (is_lost Version.Second) (Some (Lost.Two (value_of lower.now) (value_of higher.now))) }
{
    let most = Version::Second.most_replica();
    match (value_within(lower, 0, most), value_within(higher, 0, most)) {
        (Some(lower), Some(higher)) if lower < higher => Ok(Lost::Two(lower as u32, higher as u32)),
        _ => Err(JournalCode::Range),
    }
}

// Whether all that stands between commas is a number.
fn are_numbers(word: &[u8]) -> bool
    ensures { result ≡ list_all is_number (listed word.now) }
{
    match cut_at(word, b',') {
        Some((first, rest)) => is_number(first) && are_numbers(rest),
        None => is_number(word),
    }
}

pub(crate) fn read_how(words: &[&[u8]]) -> Result<How, JournalCode>
    ensures read { result ≡ ranged is_how (how_of (map (λ word. word.now) words.now)) }
    ensures given { IfOk result (λ how. how_of (map (λ word. word.now) words.now) ≡ Some how) }
    ensures inside { IfOk result (λ how. is_how how ≡ true) }
{
    match words {
        [kind] => read_bare(kind),
        [kind, number] => read_numbered(kind, number),
        [kind, steps, next] => read_limit(kind, steps, next),
        _ => Err(JournalCode::Form),
    }
}

fn read_bare(kind: &[u8]) -> Result<How, JournalCode>
    ensures read { result ≡ ranged is_how (how_of (kind.now ∷ [])) }
    ensures given { IfOk result (λ how. how_of (kind.now ∷ []) ≡ Some how) }
    ensures inside { IfOk result (λ how. is_how how ≡ true) }
{
    if kind == b"deadlock".as_slice() {
        Ok(How::Deadlock)
    } else if kind == b"differ".as_slice() {
        Ok(How::Differ)
    } else if kind == b"no-majority".as_slice() {
        Ok(How::NoMajority)
    } else {
        Err(JournalCode::Form)
    }
}

fn read_numbered(kind: &[u8], number: &[u8]) -> Result<How, JournalCode>
    ensures read { result ≡ ranged is_how (how_of (kind.now ∷ number.now ∷ [])) }
    ensures given { IfOk result (λ how. how_of (kind.now ∷ number.now ∷ []) ≡ Some how) }
    ensures inside { IfOk result (λ how. is_how how ≡ true) }
{
    if !is_number(number) {
        return Err(JournalCode::Form);
    }
    if kind == b"exit".as_slice() {
        match value_within(number, 0, 255) {
            Some(status) => Ok(How::Exit(status as u8)),
            None => Err(JournalCode::Range),
        }
    } else if kind == b"trap".as_slice() {
        read_cause(number)
    } else if kind == b"sink".as_slice() {
        match value_within(number, 0, 4095) {
            Some(taken) => Ok(How::Sink(taken as u32)),
            None => Err(JournalCode::Range),
        }
    } else {
        Err(JournalCode::Form)
    }
}

// The end by the trap that has a number.
fn read_cause(number: &[u8]) -> Result<How, JournalCode>
    requires { is_number number.now ≡ true }
    ensures read { result ≡ ranged is_how (Some (trapped_by (trap_of (value_of number.now)))) }
    ensures given { IfOk result (λ how. trapped_by (trap_of (value_of number.now)) ≡ how) }
    ensures inside { IfOk result (λ how. is_how how ≡ true) }
{
    let Some(value) = value_within(number, 1, 9) else {
        return Err(JournalCode::Range);
    };
    match TrapCause::of_number(value) {
        Some(cause) => Ok(How::Trap(cause)),
        None => Err(JournalCode::Range),
    }
}

fn read_limit(kind: &[u8], steps: &[u8], next: &[u8]) -> Result<How, JournalCode>
    ensures read { result ≡ ranged is_how (how_of (kind.now ∷ steps.now ∷ next.now ∷ [])) }
    ensures given { IfOk result (λ how. how_of (kind.now ∷ steps.now ∷ next.now ∷ []) ≡ Some how) }
    ensures inside { IfOk result (λ how. is_how how ≡ true) }
{
    if kind != b"limit".as_slice() || !is_number(steps) || !is_number(next) {
        return Err(JournalCode::Form);
    }
    match (
        value_within(steps, 0, MOST_STEPS),
        value_within(next, 0, MOST_STEPS),
    ) {
        (Some(steps), Some(next)) => Ok(How::Limit { steps, next }),
        _ => Err(JournalCode::Range),
    }
}
