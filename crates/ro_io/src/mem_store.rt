//! A store over memory.
ghost use Rattle.std.specs.Prelude.{◌≡◌, ◌≤◌, ◌↔◌, ◌++◌, true, List, [], ◌∷◌, Some, None, nat_eq, find, length, take, IfOk, IfSome, OnOk, OnErr, IsErr, IsErrOf, IfErr, IsSome};
ghost use Rattle.std.specs.Option.{option_copied};
ghost use Rattle.std.specs.Cmp.Lexicographic.{pointwise};
ghost use Rattle.ro_io.specs.Outside.{Asks, Call, Rose, IsFront, risen, unfailed};
ghost use Rattle.ro_io.specs.MemStore.{file_in, is_failing, fetched_of, after_fetch};

use crate::stores::{FetchError, Store};
use std::alloc::{AllocError, Global};
use std::marker::Model;

/// A store over memory: files, and the numbers of the calls that fail.
#[derive(Drop)]
pub struct MemStore {
    alloc: Global,
    files: Vec<File>,
    failing: Vec<u64>,
    calls: u64,
    failures: u64,
    noted: Noted,
}

impl Model for MemStore {
    ghost use Rattle.ro_io.specs.MemStore.{StoreState};

    ghost Value = { StoreState };

    ghost view = { λ s. record {
      files = s.files.items;
      failing = s.failing.items;
      calls = s.calls;
      failures = s.failures;
      noted = s.noted;
    } };
}

// The calls, or `None` where there was no memory for one.
#[derive(Drop)]
struct Noted(Option<Vec<Call>>);

impl Model for Noted {
    ghost use Rattle.std.specs.Prelude.{List, Option};
    ghost use Rattle.std.specs.Option.{option_map};
    ghost use Rattle.ro_io.specs.Outside.{Call};

    ghost Value = { Option (List Call) };

    ghost view = { λ n. option_map (λ calls. calls.items) n.0 };
}

impl Noted {
    // There was none.
    fn new(alloc: Global) -> Noted
        ensures { result ≡ Some [] }
    {
        Noted(Some(Vec::new(alloc)))
    }

    // Notes one more, if the calls before are noted.
    //
    // # Errors
    // Where there is no memory for it. No call is noted any more then.
    fn note(&mut self, alloc: Global, name: &str, failed: bool) -> Result<(), AllocError>
        ensures told { IfSome self.new (λ all. (earlier : List Call) × (self.old ≡ Some earlier) × (all ≡ earlier ++ record { name = name.now; failed = failed } ∷ [])) }
        ensures lasts { OnOk result (IsSome self.old → IsSome self.new) }
        ensures ceases { OnErr result (self.new ≡ None) }
    {
        let Some(calls) = &mut self.0 else {
            return Ok(());
        };
        if let Err(error) = push_call(alloc, calls, name, failed) {
            self.0 = None;
            return Err(error);
        }
        Ok(())
    }
}

// A call: the name that was asked for, and whether it failed.
#[derive(Drop)]
struct Call {
    name: String,
    failed: bool,
}

impl Model for Call {
    ghost use Rattle.std.specs.Prelude.{string_bytes};
    ghost use Rattle.ro_io.specs.Outside.{Call as CallOf};

    ghost Value = { CallOf };

    ghost view = { λ c. record { name = string_bytes c.name; failed = c.failed } };
}

// Appends a call.
fn push_call(
    alloc: Global,
    calls: &mut Vec<Call>,
    name: &str,
    failed: bool,
) -> Result<(), AllocError>
    ensures { OnOk result (calls.new.items ≡ calls.old.items ++ record { name = name.now; failed = failed } ∷ []) }
{
    let name = String::from_str(alloc, name)?;
    calls.push(Call { name, failed })?;
    Ok(())
}

// A file: its name and its bytes.
#[derive(Drop)]
struct File {
    name: String,
    bytes: Vec<u8>,
}

impl Model for File {
    ghost use Rattle.std.specs.Prelude.{ℕ, List, string_bytes};

    ghost Value = { List ℕ × List ℕ };

    ghost view = { λ f. (string_bytes f.name, f.bytes.items) };
}

impl File {
    fn new(alloc: Global, name: &str, bytes: &[u8]) -> Result<File, AllocError>
        ensures { IfOk result (λ file. file ≡ (name.now, bytes.now)) }
    {
        Ok(File {
            name: String::from_str(alloc, name)?,
            bytes: Vec::from_slice(alloc, bytes)?,
        })
    }

    fn is_named(&self, name: &str) -> bool
        ensures { result ≡ pointwise nat_eq self.now.0 name.now }
    {
        self.name.as_str() == name
    }

    // The first `most` bytes, or all where there are fewer.
    fn front(&self, most: usize) -> &[u8]
        ensures { result.now ≡ take most self.now.1 }
    {
        let bytes = self.bytes.as_slice();
        if bytes.len() <= most {
            bytes
        } else {
            &bytes[..most]
        }
    }
}

impl MemStore {
    /// A store with no files, of which no call fails.
    pub fn new(alloc: Global) -> MemStore
        ensures { result ≡ record { files = []; failing = []; calls = 0; failures = 0; noted = Some [] } }
    {
        MemStore {
            alloc,
            files: Vec::new(alloc),
            failing: Vec::new(alloc),
            calls: 0,
            failures: 0,
            noted: Noted::new(alloc),
        }
    }

    /// Puts a file behind the others. Of two files of one name the first is fetched.
    ///
    /// # Errors
    /// Where there is no memory for it. The store is as before then.
    pub fn put(&mut self, name: &str, bytes: &[u8]) -> Result<(), AllocError>
        ensures ok { OnOk result
            (self.new ≡ record self.old { files = self.old.files ++ (name.now, bytes.now) ∷ [] }) }
        ensures err { OnErr result (self.new ≡ self.old) }
    {
        self.files.push(File::new(self.alloc, name, bytes)?)?;
        Ok(())
    }

    /// Has the call of this number fail, where the first is 1.
    ///
    /// # Errors
    /// Where there is no memory to note it. The store is as before then.
    pub fn fail_at(&mut self, call: u64) -> Result<(), AllocError>
        ensures ok { OnOk result
            (self.new ≡ record self.old { failing = self.old.failing ++ call ∷ [] }) }
        ensures err { OnErr result (self.new ≡ self.old) }
    {
        self.failing.push(call)?;
        Ok(())
    }

    // Whether the next call fails whatever it asks for.
    fn is_failing(&self) -> bool
        ensures { result ≡ is_failing self.now }
    {
        let call = self.calls.saturating_add(1);
        self.failing.iter().any(|number| *number == call)
    }

    // Counts a call, and notes it.
    //
    // # Errors
    // Where there is no memory to note it. It is counted all the same.
    fn count(&mut self, name: &str, failed: bool) -> Result<(), AllocError>
        ensures after { self.new ≡ record self.old { calls = risen self.old.calls; noted = self.new.noted } }
        ensures noted { IfSome self.new.noted (λ all. (earlier : List Call) × (self.old.noted ≡ Some earlier) × (all ≡ earlier ++ record { name = name.now; failed = failed } ∷ [])) }
        ensures lasts { OnOk result (IsSome self.old.noted → IsSome self.new.noted) }
        ensures ceases { OnErr result (self.new.noted ≡ None) }
    {
        self.calls = self.calls.saturating_add(1);
        self.noted.note(self.alloc, name, failed)
    }

    // Counts a call that fails, and its failure, where it can be noted.
    fn fail(&mut self, name: &str) -> Result<Vec<u8>, FetchError>
        ensures refused { IsErr result }
        ensures after { IsErrOf result FetchError.Failed → self.new ≡ record self.old { calls = risen self.old.calls; failures = risen self.old.failures; noted = self.new.noted } }
        ensures wanting { IsErrOf result FetchError.NoMemory → self.new ≡ record self.old { calls = risen self.old.calls; noted = self.new.noted } }
        ensures noted { IfSome self.new.noted (λ all. (earlier : List Call) × (self.old.noted ≡ Some earlier) × (all ≡ earlier ++ record { name = name.now; failed = true } ∷ [])) }
        ensures lasts { IsErrOf result FetchError.Failed → IsSome self.old.noted → IsSome self.new.noted }
        ensures silent { IsErrOf result FetchError.NoMemory → self.new.noted ≡ None }
        ensures failures { self.old.failures ≤ self.new.failures }
    {
        if self.count(name, true).is_err() {
            return Err(FetchError::NoMemory);
        }
        self.failures = self.failures.saturating_add(1);
        Err(FetchError::Failed)
    }

    // What the next call fetches, if it does not fail.
    fn next(&self, name: &str, most: usize) -> Option<&[u8]>
        ensures { option_copied result ≡ fetched_of self.now name.now most }
    {
        if self.is_failing() {
            return None;
        }
        match find(&self.files, name) {
            Some(file) => Some(file.front(most)),
            None => None,
        }
    }
}

impl Store for MemStore {
    ghost told = { λ s. Some (file_in s.files) };

    ghost failures = { λ s. s.failures };

    ghost calls = { λ s. record { count = s.calls; list = s.noted } };

    fn fetch(&mut self, alloc: Global, name: &str, most: usize) -> Result<Vec<u8>, FetchError>
        ensures length { IfOk result (λ bytes. length bytes.items ≤ most) }
        ensures front { IfOk result (λ bytes.
            IsFront (file_in self.old.files) name.now most bytes.items) }
        ensures told { self.new.files ≡ self.old.files }
        ensures cause { IsErrOf result FetchError.Failed → Rose self.old.failures self.new.failures }
        ensures calm { (IsErrOf result FetchError.Failed → ⊥) → self.new.failures ≡ self.old.failures }
        ensures failures { self.old.failures ≤ self.new.failures }
        ensures lost { IsErrOf result FetchError.Failed → Asks (record { count = self.old.calls; list = self.old.noted }) (record { count = self.new.calls; list = self.new.noted }) (record { name = name.now; failed = true } ∷ []) }
        ensures asked { (IsErrOf result FetchError.Failed → ⊥) → Asks (record { count = self.old.calls; list = self.old.noted }) (record { count = self.new.calls; list = self.new.noted }) (unfailed (name.now ∷ [])) }

        // Which answer comes, but for want of memory, and all that the call changes. It ceases to tell only where the
        // answer is want of memory.
        ensures fetched { IfOk result (λ bytes.
            fetched_of self.old name.now most ≡ Some bytes.items) }
        ensures failed { IsErrOf result FetchError.Failed → fetched_of self.old name.now most ≡ None }
        ensures after { (IsErrOf result FetchError.NoMemory → ⊥) → self.new ≡ after_fetch self.old name.now most self.new.noted }
        ensures wanting { IsErrOf result FetchError.NoMemory → self.new ≡ record self.old { calls = risen self.old.calls; noted = self.new.noted } }
        ensures lasts { (IsErrOf result FetchError.NoMemory → ⊥) → IsSome self.old.noted → IsSome self.new.noted }
    {
        let Some(bytes) = self.next(name, most) else {
            return self.fail(name);
        };
        let copy = copy_of(alloc, bytes);
        match self.count(name, false) {
            Ok(()) => copy,
            Err(_) => Err(FetchError::NoMemory),
        }
    }
}

// The bytes in memory of their own.
fn copy_of(alloc: Global, bytes: &[u8]) -> Result<Vec<u8>, FetchError>
    ensures ok { IfOk result (λ copy. copy.items ≡ bytes.now) }
    ensures err { IfErr result (λ error. error ≡ FetchError.NoMemory) }
{
    match Vec::from_slice(alloc, bytes) {
        Ok(copy) => Ok(copy),
        Err(_) => Err(FetchError::NoMemory),
    }
}

// The first file of this name, if any.
fn find<'a>(files: &'a [File], name: &str) -> Option<&'a File>
    ensures { option_copied result ≡ find (λ file. pointwise nat_eq file.0 name.now) files.now }
{
    files.iter().find(|file| file.is_named(name))
}
