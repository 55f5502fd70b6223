//! Where files come from.
ghost use Rattle.std.specs.Prelude.{◌≡◌, ◌≤◌, ◌∷◌, [], true, IfOk, IsErrOf, IfSome, length};
ghost use Rattle.ro_io.specs.Outside.{Asks, Rose, IsFront, unfailed};

use std::alloc::Global;

/// Why a file did not come.
#[derive(Clone, Copy, Debug, PartialEq, Eq)]
pub enum FetchError {
    /// There is no such file, or it can't be read.
    Failed,
    /// There was no memory for the bytes.
    NoMemory,
}

/// Where files come from.
pub trait Store {
    ghost use Rattle.std.specs.Prelude.{ℕ, Option};
    ghost use Rattle.ro_io.specs.Outside.{Calls, Files};

    // The files that it holds, where it tells.
    ghost told: { Self → Option Files };

    // How often it failed.
    ghost failures: { Self → ℕ };

    // How often it was called, and for which files, where it tells.
    ghost calls: { Self → Calls };

    /// Fetches the first `most` bytes of a file, or all where it has fewer. Each call counts as one, whatever comes of it.
    ///
    /// # Errors
    /// `Failed` where there is no such file or it can't be read; the count of failures rose then, and only then. `NoMemory`
    /// where there is no memory for the bytes.
    fn fetch(&mut self, alloc: Global, name: &str, most: usize) -> Result<Vec<u8>, FetchError>
        ensures length { IfOk result (λ bytes. length bytes.items ≤ most) }
        ensures front { IfOk result (λ bytes. IfSome (told self.old) (λ files. IsFront files name.now most bytes.items)) }
        ensures told { told self.new ≡ told self.old }
        ensures cause { IsErrOf result FetchError.Failed → Rose (failures self.old) (failures self.new) }
        ensures calm { (IsErrOf result FetchError.Failed → ⊥) → failures self.new ≡ failures self.old }
        ensures failures { failures self.old ≤ failures self.new }
        ensures lost { IsErrOf result FetchError.Failed → Asks (calls self.old) (calls self.new) (record { name = name.now; failed = true } ∷ []) }
        ensures asked { (IsErrOf result FetchError.Failed → ⊥) → Asks (calls self.old) (calls self.new) (unfailed (name.now ∷ [])) };
}
