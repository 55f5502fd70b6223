//! What peers got whose locks a page decides, and its rows: laws.
ghost use Rattle.std.specs.Prelude.{◌≡◌, ◌<◌, ◌++◌, ℕ, List, [], Option, Some, None, ◌∷◌, Contains, length};
ghost use Rattle.ro_exec.specs.Next.{Layout};
ghost use Rattle.ro_orders.specs.Copies.{Rows};
ghost use Rattle.ro_lockpage.specs.Ranks.{word_of, row_in, given};
ghost use Rattle.ro_lockpage.specs.Pages.{PassOf, AllAgree, history};
ghost use Rattle.ro_peer.specs.declared.locks.Decision.TheVariants.{Asker, Other};
ghost use Rattle.ro_peer.specs.declared.mutexes.Mutex.{Mutex};
ghost use Rattle.ro_peer.specs.declared.running.Came.{Came};
ghost use Rattle.ro_peer.specs.Peers.{Peer};
ghost use Rattle.ro_peer.specs.Gets.{Get, InRows};
ghost use Rattle.ro_peer.specs.Seen.{by_address};
ghost use Rattle.ro_peer.specs.Leases.{PeerRuns, KeepsRows, Wins};
ghost use Rattle.ro_peer.specs.Events.{with_entered};
ghost use Rattle.ro_locking.specs.Asking.{below, decision_of, known_by, won_by};
ghost use Rattle.ro_locking.specs.Got.{HasGot, KeepsNumbers, AllGot, AreAmong, AreBelow};

/// What runs by a pass got adds up: by a pass that won nothing they got nothing; a run adds what it got, by the clauses of
/// its call; and it stays so where mutexes are entered.
pub fn gets_add_up()
    ensures first { (mutexes : List Mutex) (pass : PassOf) → pass.won ≡ [] → HasGot mutexes pass [] }
    ensures more { (mutexes : List Mutex) (old new : PassOf) (gets more : List Get) → HasGot mutexes old gets → KeepsRows (known_by old) (known_by new) → InRows (by_address mutexes (known_by new)) more → Wins (won_by old) (won_by new) mutexes more → HasGot mutexes new (gets ++ more) }
    ensures later { (old new : List Mutex) (pass : PassOf) (gets : List Get) → KeepsNumbers old new → HasGot old pass gets → HasGot new pass gets }
{}

/// What is got by the rows below the ceilings is got by all rows, and is below the ceiling of its mutex.
pub fn gets_are_below()
    ensures in_rows { (mutexes : List Mutex) (ceilings : List ℕ) (rows : Rows) (gets : List Get) → InRows (by_address mutexes (below ceilings rows)) gets → InRows (by_address mutexes rows) gets }
    ensures under { (mutexes : List Mutex) (ceilings : List ℕ) (rows : Rows) (gets : List Get) → InRows (by_address mutexes (below ceilings rows)) gets → AreBelow mutexes ceilings gets }
{}

/// Mutexes keep their numbers where one is entered, and in a run.
pub fn numbers_stay()
    ensures entered { (mutexes : List Mutex) (address : ℕ) (owner : Option ℕ) → KeepsNumbers mutexes (with_entered mutexes address owner) }
    ensures ran { (layout : Layout) (watchdog quantum thread : ℕ) (rows : Rows) (old new : Peer) (count : ℕ) (came : Came) → PeerRuns layout watchdog quantum thread rows old new count came → KeepsNumbers old.mutexes new.mutexes }
{}

/// What was got is what the page tells: where all passes of a page that is closed agree with its history, each get of
/// runs by them is in its rows; and each of its rows is a get of a run by one of them.
pub fn rows_are_gets()
    ensures in_rows { (mutexes : List Mutex) (passes : List PassOf) (gets : ℕ → List Get) (all : List Get) → AllAgree (history passes) passes → AllGot mutexes passes gets → AreAmong (length passes) gets all → InRows (by_address mutexes (history passes)) all }
    ensures all_got { (mutexes : List Mutex) (passes : List PassOf) (gets : ℕ → List Get) → AllGot mutexes passes gets → (address rank thread : ℕ) → by_address mutexes (history passes) address rank ≡ Some thread → (place : ℕ) × (place < length passes) × Contains (gets place) (record { mutex = address; rank = rank; thread = thread }) }
{}

/// A row: threads 4 and 5 ask for rank 3 of a mutex with four rows. Whoever asks first gets it, in each replica, and the
/// other does not; and nobody gets it once its row is rank 7's.
pub fn decision_row()
    ensures first { decision_of (given (row_in 3 0) 4) 4 ≡ Asker }
    ensures again { decision_of (given (row_in 3 (word_of 3 4)) 4) 4 ≡ Asker }
    ensures other { decision_of (given (row_in 3 (word_of 3 4)) 5) 5 ≡ Other }
    ensures passed { decision_of (given (row_in 3 (word_of 7 4)) 4) 4 ≡ Other }
{}

/// A row: below a ceiling of 4 the mutex 0 may be got at rank 3 and not at rank 4, and the mutex 1, which has no ceiling, not
/// at all.
pub fn ceiling_row()
    ensures under { (rows : Rows) → below (4 ∷ []) rows 0 3 ≡ rows 0 3 }
    ensures at { (rows : Rows) → below (4 ∷ []) rows 0 4 ≡ None }
    ensures none { (rows : Rows) → below (4 ∷ []) rows 1 0 ≡ None }
{}
