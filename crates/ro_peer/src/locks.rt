//! Who decides which thread gets a mutex.
ghost use Rattle.std.specs.Prelude.{◌≡◌, ◌<◌, ◌⊎◌, ℕ, Some};

/// For whom a rank of a mutex was decided.
#[derive(Clone, Copy, PartialEq, Eq, Debug)]
pub enum Decision {
    /// For the thread that asked.
    Asker,
    /// For another, or it isn't known any more.
    Other,
}

/// What is asked which thread gets a mutex at a rank: the first time that it is got, the second, and so on.
pub trait Locks {
    ghost use Rattle.std.specs.Prelude.{ℕ};
    ghost use Rattle.ro_orders.specs.Copies.{Rows};

    // A rank of a mutex, by the mutex's number, was decided here for a thread.
    ghost won: { Self → ℕ → ℕ → ℕ → Type 0 };

    // The thread of each rank of each mutex, by the mutex's number, as far as it is known, of the ranks that may be got.
    ghost rows: { Self → Rows };

    // The same of all ranks.
    ghost known: { Self → Rows };

    // A rank of a mutex, by the mutex's number, is not a thread's.
    ghost refused: { Self → ℕ → ℕ → ℕ → Type 0 };

    // What asking leaves as it was.
    ghost Stays: { Type 0 } = { Unit {0} };

    ghost stays: { Self → Self.Stays };

    /// Decides a rank of a mutex for a thread if it was decided for none, and answers whether it is the thread's.
    fn decide(&mut self, number: u32, rank: u32, thread: u32) -> Decision
        requires number { number < 256 }
        requires thread { thread < 16 }
        ensures keeps { (other at owner : ℕ) → rows self.old other at ≡ Some owner → rows self.new other at ≡ Some owner }
        ensures knows { (other at owner : ℕ) → known self.old other at ≡ Some owner → known self.new other at ≡ Some owner }
        ensures asker { result ≡ Decision.Asker → rows self.new number rank ≡ Some thread }
        ensures other { result ≡ Decision.Other → refused self.new number rank thread }
        ensures stays { stays self.new ≡ stays self.old }
        ensures wins { (other at owner : ℕ) → won self.new other at owner → won self.old other at owner ⊎ ((result ≡ Decision.Asker) × (other ≡ number) × (at ≡ rank) × (owner ≡ thread)) };
}
