//! The files that a command names.
ghost use Rattle.std.specs.Prelude.{◌≡◌, ◌<◌, ◌≤◌, [], ◌∷◌, IfOk, IfErr, IfSome, length, Ok, Err};
ghost use Rattle.ro_report.specs.declared.answers.Answer.TheVariants as a;
ghost use Rattle.std.specs.Option.{option_map};
ghost use Rattle.ro_image.specs.Executable.{bad_code, image_of};
ghost use Rattle.ro_faults.specs.Texts.{file_faults};
ghost use Rattle.ro_journal_text.specs.Records.{any_in, file_any};
ghost use Rattle.ro_settings.specs.Ranges.{InRange};
ghost use Rattle.ro_io.specs.Outside.{Asks, unfailed};
ghost use Rattle.ro_files.specs.Files.{most_of, named, IsFile, IsContent};
ghost use Rattle.ro_files.specs.Refusals.{RefusesFile, RefusesContent, RefusesExe, RefusesList, RefusesPlan};

use ro_faults::{Fault, FaultsError, read_faults};
use ro_image::{Executable, ImageError, read_executable};
use ro_io::{FetchError, Store};
use ro_journal_text::{AnyJournal, JournalError, read_any};
use ro_report::{Answer, FileKind};
use std::alloc::Global;

// How many bytes a file may have.
fn most_bytes(kind: FileKind) -> usize
    ensures { result ≡ most_of kind }
{
    match kind {
        FileKind::Exe => 8 * 1024 * 1024,
        FileKind::Input => 1024 * 1024,
        FileKind::Faults => 64 * 1024,
        FileKind::Plan => 16 * 1024 * 1024,
    }
}

/// The content of a file, of which one byte more is fetched than it may have.
///
/// # Errors
/// `StoreFailed`, `TooLong` or `NoMemory`.
pub fn fetch<S: Store>(
    store: &mut S,
    alloc: Global,
    kind: FileKind,
    name: &str,
) -> Result<Vec<u8>, Answer>
    ensures content { IfOk result (λ bytes. IsFile (S.told store.old) name.now bytes.items) }
    ensures short { IfOk result (λ bytes. length bytes.items ≤ most_of kind) }
    ensures refused { IfErr result (RefusesFile (S.told store.old) kind name.now (S.failures store.old) (S.failures store.new) (S.calls store.old) (S.calls store.new)) }
    ensures told { S.told store.new ≡ S.told store.old }
    ensures failures { S.failures store.old ≤ S.failures store.new }
    ensures calm { (result ≡ Err a.StoreFailed → ⊥) → S.failures store.new ≡ S.failures store.old }
    ensures asks { IfOk result (λ _. Asks (S.calls store.old) (S.calls store.new) (unfailed (name.now ∷ []))) }
{
    let most = most_bytes(kind);
    match store.fetch(alloc, name, most + 1) {
        Ok(bytes) if bytes.len() <= most => Ok(bytes),
        Ok(_) => Err(Answer::TooLong(kind)),
        Err(FetchError::Failed) => Err(Answer::StoreFailed),
        Err(FetchError::NoMemory) => Err(Answer::NoMemory),
    }
}

// The same of a file that need not be named.
pub(crate) fn fetch_named<S: Store>(
    store: &mut S,
    alloc: Global,
    kind: FileKind,
    name: Option<&str>,
) -> Result<Vec<u8>, Answer>
    ensures content { IfOk result (λ bytes. IsContent (S.told store.old) kind (option_map (λ n. n.now) name.entry) bytes.items) }
    ensures refused { IfErr result (RefusesContent (S.told store.old) kind (option_map (λ n. n.now) name.entry) (S.failures store.old) (S.failures store.new) (S.calls store.old) (S.calls store.new)) }
    ensures told { S.told store.new ≡ S.told store.old }
    ensures failures { S.failures store.old ≤ S.failures store.new }
    ensures calm { (result ≡ Err a.StoreFailed → ⊥) → S.failures store.new ≡ S.failures store.old }
    ensures asks { IfOk result (λ _. Asks (S.calls store.old) (S.calls store.new) (unfailed (named (option_map (λ n. n.now) name.entry)))) }
{
    match name {
        Some(name) => fetch(store, alloc, kind, name),
        None => Ok(Vec::new(alloc)),
    }
}

/// The image of an executable.
///
/// # Errors
/// `BadExe` or `NoMemory`.
pub fn image(alloc: Global, bytes: &[u8]) -> Result<Executable, Answer>
    ensures accepted { IfOk result (λ image. bad_code bytes.now ≡ None) }
    ensures image { IfOk result (λ image. image ≡ image_of bytes.now) }
    ensures refused { IfErr result (RefusesExe bytes.now) }
{
    match read_executable(alloc, bytes) {
        Ok(image) => Ok(image),
        Err(ImageError::Bad(error)) => Err(Answer::BadExe(error)),
        Err(ImageError::NoMemory) => Err(Answer::NoMemory),
    }
}

// The faults of a list for so many replicas.
pub(crate) fn faults(alloc: Global, bytes: &[u8], replicas: u32) -> Result<Vec<Fault>, Answer>
    requires { 0 < replicas }
    ensures faults { IfOk result (λ faults. file_faults replicas bytes.now ≡ Ok faults.items) }
    ensures refused { IfErr result (RefusesList replicas bytes.now) }
{
    match read_faults(alloc, bytes, replicas) {
        Ok(faults) => Ok(faults),
        Err(FaultsError::Bad { line, code }) => Err(Answer::BadFaults { line, code }),
        Err(FaultsError::NoMemory) => Err(Answer::NoMemory),
    }
}

/// The journal of a text in any version.
///
/// # Errors
/// `BadPlan` or `NoMemory`.
pub fn journal(alloc: Global, bytes: &[u8]) -> Result<AnyJournal, Answer>
    ensures journal { IfOk result (λ journal. file_any bytes.now ≡ Ok (any_in journal)) }
    ensures in_range { IfOk result (λ journal. IfSome journal.recorded (λ recorded. InRange recorded.settings)) }
    ensures refused { IfErr result (RefusesPlan bytes.now) }
{
    match read_any(alloc, bytes) {
        Ok(journal) => Ok(journal),
        Err(JournalError::Bad { line, code }) => Err(Answer::BadPlan { line, code }),
        Err(JournalError::NoMemory) => Err(Answer::NoMemory),
    }
}
