//! Rows: a cooperative run of two replicas, and what an answered call does to a reservation.
ghost use Rattle.std.specs.Prelude.{◌≡◌, List, [], ◌∷◌, ◌++◌, Some, None, replicate};
ghost use Rattle.ro_journal.specs.declared.How.TheVariants.{Exit as ExitHow};
ghost use Rattle.ro_plain.specs.Order.{RaceFree};
ghost use Rattle.ro_simulation.specs.Guests.{locking_guest};
ghost use Rattle.ro_orders.specs.Turns.{TakesByLocks};
ghost use Rattle.ro_orders.specs.Choices.{in_table};
ghost use Rattle.ro_coop.specs.Core.{OneEnters, opening_core, kernel_for, settled, LegalFrom, first_of};
ghost use Rattle.ro_coop.specs.Rowless.{threads_of, got_in_replica};
ghost use Rattle.ro_coop.specs.Sound.{core_behind};
ghost use Rattle.ro_coop.specs.Guests.{letters_job, letters_mutex, page_of_thread, letters_journal, shown, a_reservation, kernel_reserving, core_answering, reserved_in, answer_to};

/// A row: a cooperative run of the guest whose threads write one letter each under one mutex, with two replicas. Thread 1's
/// lock is voted, and brings the mutex into the table; thread 2 comes to its lock in one replica, waits there, and gets the
/// mutex later, in each replica by itself. The journal is legal where the mutex's first row is thread 2's, writes both letters
/// and exits with 0; its first steps have thread 2's lock behind thread 1's unlock. Where the row is thread 1's, it is not legal.
/// The guest has no races and takes cooperative mutexes by locks alone, as the laws ask.
pub fn letters_row()
    ensures free { RaceFree locking_guest }
    ensures by_locks { TakesByLocks locking_guest in_table }
    ensures legal { (one : OneEnters in_table) → LegalFrom (letters_job one) (page_of_thread 2) (opening_core (letters_job one)) letters_journal }
    ensures comes_to { (one : OneEnters in_table) → shown (core_behind (letters_job one) (page_of_thread 2) (opening_core (letters_job one)) letters_journal) ≡ (0x41 ∷ 0x42 ∷ [], Some (ExitHow 0), ((None, 1) ∷ []) ∷ ((None, 1) ∷ []) ∷ []) }
    ensures first { first_of letters_journal ≡ replicate 14 0 ++ replicate 5 1 ++ replicate 4 2 ++ replicate 11 1 ++ 0 ∷ [] ++ replicate 12 2 ++ replicate 6 0 }
    ensures got { (one : OneEnters in_table) → threads_of letters_mutex (got_in_replica (letters_job one) (opening_core (letters_job one)) 0 letters_journal) ≡ 2 ∷ [] }
    ensures got_too { (one : OneEnters in_table) → threads_of letters_mutex (got_in_replica (letters_job one) (opening_core (letters_job one)) 1 letters_journal) ≡ 2 ∷ [] }
    ensures of_another { (one : OneEnters in_table) → LegalFrom (letters_job one) (page_of_thread 1) (opening_core (letters_job one)) letters_journal → ⊥ }
{}

/// A row: threads 0 and 1 have a reservation of one word, and each replica answered a call of thread 1. So in each replica
/// thread 1's has ended and thread 0's has not, and the kernel that serves thread 1 knows of it: its SC fails, and that of
/// thread 0 would succeed. That the kernel knows of it changes nothing as the replicas see it.
pub fn reservation_row()
    ensures seen { (one : OneEnters in_table) → reserved_in (core_answering one) ≡ replicate 2 (Some a_reservation ∷ None ∷ replicate 14 None) }
    ensures ended { (one : OneEnters in_table) → (kernel_for (core_answering one) 1).reserved ≡ Some a_reservation ∷ None ∷ replicate 14 None }
    ensures other { (one : OneEnters in_table) → (kernel_for (core_answering one) 0).reserved ≡ kernel_reserving.reserved }
    ensures same { (one : OneEnters in_table) → reserved_in (settled (core_answering one) 1) ≡ reserved_in (core_answering one) }
    ensures fails { (one : OneEnters in_table) → answer_to (core_answering one) 1 ≡ Some 1 }
    ensures succeeds { (one : OneEnters in_table) → answer_to (core_answering one) 0 ≡ Some 0 }
{}
