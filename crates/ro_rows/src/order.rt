//! Rows of the order of steps: what each step of a small guest means for it, and which bytes it accesses.
ghost use Rattle.std.specs.Prelude.{◌≡◌, ℕ, [], ◌∷◌, ◌++◌, length, replicate};
ghost use Rattle.ro_journal.specs.Plan.{plan_of};
ghost use Rattle.ro_plain.specs.Order.{Sync, Unlocks, Locks, Makes, Joins, Exits, Updates, Observes, Nothing, HappensBefore, RaceFree, accesses_at};
ghost use Rattle.ro_simulation.specs.Drives.{driven};
ghost use Rattle.ro_simulation.specs.Guests.{locking_guest, usual_job};
ghost use Rattle.ro_rows.specs.Guests.{atomic_guest, waiting_guest};
ghost use Rattle.ro_rows.specs.Rows.{waiting_job};
ghost use Rattle.ro_rows.specs.Order.{locking_plan, syncs_from, bytes, none, calls_guest, calls_plan, atomics_guest, beside_guest, own_word_guest, looking_guest, adding_plan, looking_plan, waiting_plan, mapping_guest, racing_guest, created_guest, joined_guest, locked_guest, two_mutexes_guest, two_mutexes_plan, creations_plan, exits_plan};

/// A row: the plan of the locking guest has 53 steps, and of them two create, two lock and unlock the mutex at 100E8,
/// two exit, two join, and no other means anything for the order.
pub fn sync_row()
    ensures plan { plan_of (driven 200 (usual_job locking_guest [])) ≡ locking_plan }
    ensures steps { length locking_plan ≡ 53 }
    ensures syncs { syncs_from locking_guest locking_plan 0 53 ≡ replicate 6 Nothing ++ Makes 1 ∷ replicate 3 Nothing ++ Makes 2 ∷ replicate 7 Nothing ++ Locks 0x100E8 ∷ replicate 7 Nothing ++ Unlocks 0x100E8 ∷ replicate 2 Nothing ++ Exits ∷ Joins 1 ∷ replicate 6 Nothing ++ Locks 0x100E8 ∷ replicate 7 Nothing ++ Unlocks 0x100E8 ∷ replicate 2 Nothing ++ Exits ∷ Joins 2 ∷ replicate 3 Nothing }
{}

/// A row: the first thread's write comes before the second's, by its unlock and the second's lock; what created a thread
/// comes before its first step, and its exit before what follows its join. The second write is not before the first.
pub fn before_row()
    ensures chain { HappensBefore locking_guest locking_plan 23 42 }
    ensures creation { HappensBefore locking_guest locking_plan 6 14 }
    ensures join { HappensBefore locking_guest locking_plan 29 31 }
    ensures not_back { HappensBefore locking_guest locking_plan 42 23 → ⊥ }
{}

/// A row: a creation stores four bytes, a lock accesses nothing, a write reads its instruction and its payload, and a join
/// with no place for a value accesses nothing. A call at its address is not fetched.
pub fn accesses_row()
    ensures create { accesses_at locking_guest locking_plan 6 ≡ record { reads = none ∷ []; writes = bytes 0x100E0 4 ∷ []; atomic = [] } }
    ensures lock { accesses_at locking_guest locking_plan 18 ≡ record { reads = none ∷ []; writes = none ∷ []; atomic = [] } }
    ensures write { accesses_at locking_guest locking_plan 23 ≡ record { reads = bytes 0x100EC 1 ∷ bytes 0x100B8 4 ∷ []; writes = none ∷ []; atomic = [] } }
    ensures join { accesses_at locking_guest locking_plan 30 ≡ record { reads = none ∷ []; writes = none ∷ []; atomic = [] } }
{}

/// A row: a trylock that is answered 0 locks, and one that is answered 16 means nothing, nor an unlock or a join that is
/// answered an error. A read stores what it read, a join stores the exit value; a write that is answered an error, and a
/// trap, access nothing but their instruction.
pub fn calls_row()
    ensures syncs { syncs_from calls_guest calls_plan 0 37 ≡ replicate 3 Nothing ++ Locks 0x100E4 ∷ replicate 5 Nothing ++ Unlocks 0x100E4 ∷ replicate 20 Nothing ++ Makes 1 ∷ Exits ∷ replicate 3 Nothing ++ Joins 1 ∷ Nothing ∷ [] }
    ensures read { accesses_at calls_guest calls_plan 17 ≡ record { reads = none ∷ bytes 0x10088 4 ∷ []; writes = bytes 0x100E8 2 ∷ []; atomic = [] } }
    ensures write { accesses_at calls_guest calls_plan 20 ≡ record { reads = none ∷ bytes 0x10094 4 ∷ []; writes = none ∷ []; atomic = [] } }
    ensures load { accesses_at calls_guest calls_plan 21 ≡ record { reads = bytes 0x100E8 4 ∷ bytes 0x10098 4 ∷ []; writes = none ∷ []; atomic = [] } }
    ensures store { accesses_at calls_guest calls_plan 22 ≡ record { reads = none ∷ bytes 0x1009C 4 ∷ []; writes = bytes 0x100EC 2 ∷ []; atomic = [] } }
    ensures exit { accesses_at calls_guest calls_plan 31 ≡ record { reads = none ∷ []; writes = none ∷ []; atomic = [] } }
    ensures join { accesses_at calls_guest calls_plan 35 ≡ record { reads = none ∷ []; writes = bytes 0x100E0 4 ∷ []; atomic = [] } }
    ensures trap { accesses_at calls_guest calls_plan 36 ≡ record { reads = bytes 0x100C4 4 ∷ []; writes = []; atomic = [] } }
{}

/// A row: of two threads that store to one byte, a program in which nothing orders the stores has races, and one in which a
/// creation, a join or a mutex alone orders them has none, in whatever order its threads step.
pub fn races_row()
    ensures races { RaceFree racing_guest → ⊥ }
    ensures by_creation { RaceFree created_guest }
    ensures by_join { RaceFree joined_guest }
    ensures by_mutex { RaceFree locked_guest }
{}

/// A row: an LR looks at its word, an SC that stores and an AMO update it, and an SC that fails means nothing. Each reads its word and
/// its instruction, and accesses the word as one.
pub fn atomics_row()
    ensures syncs { syncs_from atomic_guest (replicate 9 0) 0 9 ≡ Nothing ∷ Observes 0x11000 ∷ Nothing ∷ Updates 0x11000 ∷ Nothing ∷ Updates 0x11000 ∷ replicate 3 Nothing }
    ensures load { accesses_at atomic_guest (replicate 9 0) 1 ≡ record { reads = bytes 0x11000 4 ∷ bytes 0x10058 4 ∷ []; writes = none ∷ []; atomic = bytes 0x11000 4 ∷ [] } }
    ensures store { accesses_at atomic_guest (replicate 9 0) 3 ≡ record { reads = bytes 0x11000 4 ∷ bytes 0x10060 4 ∷ []; writes = bytes 0x11000 4 ∷ []; atomic = bytes 0x11000 4 ∷ [] } }
    ensures fails { accesses_at atomic_guest (replicate 9 0) 4 ≡ record { reads = bytes 0x11000 4 ∷ bytes 0x10064 4 ∷ []; writes = none ∷ []; atomic = bytes 0x11000 4 ∷ [] } }
    ensures adds { accesses_at atomic_guest (replicate 9 0) 5 ≡ record { reads = bytes 0x11000 4 ∷ bytes 0x10068 4 ∷ []; writes = bytes 0x11000 4 ∷ []; atomic = bytes 0x11000 4 ∷ [] } }
{}

/// A row: of two threads that each add to one word, a program has no races where both do it by AMOADD, and it has where one
/// stores to the word by a plain instruction. It has too where the word is that of the one's own AMOADD, which was read before:
/// an atomic instruction on its own word orders nothing.
pub fn words_row()
    ensures atomic { RaceFree atomics_guest }
    ensures plain { RaceFree beside_guest → ⊥ }
    ensures own { RaceFree own_word_guest → ⊥ }
    ensures nothing { syncs_from own_word_guest adding_plan 6 3 ≡ Nothing ∷ Nothing ∷ Updates 0x10068 ∷ [] }
{}

/// A row: what orders nothing. The creation of thread 2 comes before no step of thread 1, the exit of thread 2 before no join
/// of thread 1, and an unlock before no lock of another mutex: of two threads that store to one byte, each under a mutex of
/// its own, the second store is not after the first one, and so the program has races.
pub fn unordered_row()
    ensures creation { HappensBefore locking_guest creations_plan 6 11 }
    ensures other_creation { HappensBefore locking_guest creations_plan 10 11 → ⊥ }
    ensures exit { HappensBefore locking_guest exits_plan 29 46 }
    ensures other_exit { HappensBefore locking_guest exits_plan 45 46 → ⊥ }
    ensures mutexes { syncs_from two_mutexes_guest two_mutexes_plan 8 7 ≡ Locks 0x100A4 ∷ replicate 3 Nothing ++ Unlocks 0x100A4 ∷ Nothing ∷ Locks 0x100AC ∷ [] }
    ensures other_mutex { HappensBefore two_mutexes_guest two_mutexes_plan 9 15 → ⊥ }
    ensures races { RaceFree two_mutexes_guest → ⊥ }
{}

/// A row: the first step of a wait unlocks its mutex, and its second one locks it; a signal means nothing, and neither step accesses a
/// byte. So what thread 0 did before its wait comes before thread 1's lock, and thread 1's unlock before what thread 0 does behind the wait.
pub fn wait_row()
    ensures plan { plan_of (driven 200 waiting_job) ≡ waiting_plan }
    ensures syncs { syncs_from waiting_guest waiting_plan 0 39 ≡ replicate 3 Nothing ++ Locks 0x11000 ∷ replicate 6 Nothing ++ Makes 1 ∷ replicate 3 Nothing ++ Unlocks 0x11000 ∷ replicate 3 Nothing ++ Locks 0x11000 ∷ replicate 5 Nothing ++ Unlocks 0x11000 ∷ Locks 0x11000 ∷ replicate 2 Nothing ++ Unlocks 0x11000 ∷ replicate 5 Nothing ++ Exits ∷ Joins 1 ∷ replicate 3 Nothing }
    ensures first { accesses_at waiting_guest waiting_plan 14 ≡ record { reads = none ∷ []; writes = []; atomic = [] } }
    ensures second { accesses_at waiting_guest waiting_plan 25 ≡ record { reads = none ∷ []; writes = none ∷ []; atomic = [] } }
    ensures signal { accesses_at waiting_guest waiting_plan 21 ≡ record { reads = none ∷ []; writes = none ∷ []; atomic = [] } }
    ensures before_wait { HappensBefore waiting_guest waiting_plan 13 18 }
    ensures behind_wait { HappensBefore waiting_guest waiting_plan 20 26 }
{}

/// A row: a mmap writes the whole range that it gives, in whole pages, and means nothing for the order; one that is answered an error
/// writes nothing.
pub fn mapping_row()
    ensures syncs { syncs_from mapping_guest (replicate 10 0) 0 10 ≡ replicate 10 Nothing }
    ensures given { accesses_at mapping_guest (replicate 10 0) 5 ≡ record { reads = none ∷ bytes 0x10068 4 ∷ []; writes = none ∷ bytes 0x50000000 0x2000 ∷ []; atomic = [] } }
    ensures refused { accesses_at mapping_guest (replicate 10 0) 7 ≡ record { reads = none ∷ bytes 0x10070 4 ∷ []; writes = none ∷ []; atomic = [] } }
    ensures store { accesses_at mapping_guest (replicate 10 0) 9 ≡ record { reads = none ∷ bytes 0x10078 4 ∷ []; writes = bytes 0x50001FFF 1 ∷ []; atomic = [] } }
{}

/// A row: an AMOADD comes before a later LR of its word, and what its thread did before it comes before that too. An LR comes before no AMOADD
/// of another thread.
pub fn looks_row()
    ensures syncs { syncs_from looking_guest adding_plan 6 3 ≡ Updates 0x10084 ∷ Nothing ∷ Observes 0x10084 ∷ [] }
    ensures update { HappensBefore looking_guest adding_plan 6 8 }
    ensures before_it { HappensBefore looking_guest adding_plan 0 8 }
    ensures looks_first { syncs_from looking_guest looking_plan 7 2 ≡ Observes 0x10084 ∷ Updates 0x10084 ∷ [] }
    ensures look { HappensBefore looking_guest looking_plan 7 8 → ⊥ }
{}
