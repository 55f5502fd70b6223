//! Rows: what steps of a guest of two threads under one mutex take part in, in which orders, and what comes of that.
ghost use Rattle.std.specs.Prelude.{◌≡◌, ℕ, true, false, not, List, [], ◌∷◌, ◌++◌, Some, None, replicate, map};
ghost use Rattle.ro_event.specs.declared.calls.Which.TheVariants.{System, Function, Atomic};
ghost use Rattle.ro_event.specs.declared.functions.Function.TheVariants.{Create, Lock, TryLock, Unlock, Wait};
ghost use Rattle.ro_event.specs.declared.stops.Stop.TheVariants.{Calls, Trap};
ghost use Rattle.ro_event.specs.declared.traps.TrapCause.TheVariants.{NoInstruction};
ghost use Rattle.ro_decode.specs.declared.Instr.TheVariants.{Ecall};
ghost use Rattle.ro_exec.specs.Next.{all_backed, Stands, Executes};
ghost use Rattle.ro_kernel.specs.Kernel.{opening_kernel};
ghost use Rattle.ro_plain.specs.Machine.{Machine, opening, run};
ghost use Rattle.ro_plain.specs.Order.{RaceFree};
ghost use Rattle.ro_orders.specs.Turns.{Alone, Gets, Serves, turn_by, OfMutex, OfKernel, takes, order_of, TakesByLocks, SameCounts, SameOrders};
ghost use Rattle.ro_orders.specs.Choices.{in_table, no_mutex};
ghost use Rattle.ro_orders.specs.Answers.{Answers, Waits, answer_of};
ghost use Rattle.ro_orders.specs.Copies.{Copy, StepsAlone, first_after, Runs};
ghost use Rattle.ro_orders.specs.Guests.{two_locks, two_trylocks, two_waits, its_mutex, first_then_second, in_between, second_then_first, turns_from, byte_after, kernel_with, call_on, copy_of};

/// A row: what a lock and an unlock come to. A free mutex is got, one's own is answered 35, and another's waits; an unlock
/// frees one's own, and is answered 1 elsewhere; and where no word can be stored at the address, 14.
pub fn answer_row()
    ensures gets { answer_of true (Function Lock) 1 None ≡ Answers (Some (Some 1)) 0 }
    ensures own { answer_of true (Function Lock) 1 (Some 1) ≡ Answers None 35 }
    ensures waits { answer_of true (Function Lock) 1 (Some 0) ≡ Waits }
    ensures frees { answer_of true (Function Unlock) 1 (Some 1) ≡ Answers (Some None) 0 }
    ensures of_another { answer_of true (Function Unlock) 1 (Some 0) ≡ Answers None 1 }
    ensures of_none { answer_of true (Function Unlock) 1 None ≡ Answers None 1 }
    ensures not_fit { map (λ which. answer_of false which 1 None) ((Function Lock) ∷ (Function Unlock) ∷ []) ≡ replicate 2 (Answers None 14) }
{}

/// A row: of the mutexes, those that stand in the table are cooperative, whoever owns them.
pub fn choice_row()
    ensures none { in_table.holds (opening_kernel 0x11000) its_mutex ≡ false }
    ensures free { in_table.holds (kernel_with None) its_mutex ≡ true }
    ensures owned { in_table.holds (kernel_with (Some 1)) its_mutex ≡ true }
    ensures other { in_table.holds (kernel_with (Some 1)) 0x100B8 ≡ false }
{}

/// A row: what a step takes part in. A lock of a cooperative mutex that is free gets it; a lock that is answered 35, one that
/// waits, an unlock of one's own and one of another's are alone, and so is an instruction. The kernel serves all else: calls
/// on a mutex that does not stand in the table, a trylock, a wait, other calls, an atomic instruction, and a trap.
pub fn turn_row()
    ensures gets { turn_by two_locks in_table (kernel_with None) 1 (Stands (Calls (call_on (Function Lock) its_mutex))) ≡ Gets its_mutex }
    ensures own { turn_by two_locks in_table (kernel_with (Some 1)) 1 (Stands (Calls (call_on (Function Lock) its_mutex))) ≡ Alone }
    ensures waits { turn_by two_locks in_table (kernel_with (Some 0)) 1 (Stands (Calls (call_on (Function Lock) its_mutex))) ≡ Alone }
    ensures frees { turn_by two_locks in_table (kernel_with (Some 1)) 1 (Stands (Calls (call_on (Function Unlock) its_mutex))) ≡ Alone }
    ensures of_another { turn_by two_locks in_table (kernel_with (Some 0)) 1 (Stands (Calls (call_on (Function Unlock) its_mutex))) ≡ Alone }
    ensures instruction { turn_by two_locks in_table (kernel_with None) 1 (Executes Ecall) ≡ Alone }
    ensures first_lock { turn_by two_locks in_table (opening_kernel 0x11000) 0 (Stands (Calls (call_on (Function Lock) its_mutex))) ≡ Serves }
    ensures first_unlock { turn_by two_locks in_table (opening_kernel 0x11000) 0 (Stands (Calls (call_on (Function Unlock) its_mutex))) ≡ Serves }
    ensures trylock { turn_by two_locks in_table (kernel_with None) 1 (Stands (Calls (call_on (Function TryLock) its_mutex))) ≡ Serves }
    ensures others { map (λ which. turn_by two_locks in_table (kernel_with None) 1 (Stands (Calls (call_on which its_mutex)))) ((Function Create) ∷ (Function Wait) ∷ System 64 ∷ Atomic 0x0053252F ∷ []) ≡ replicate 4 Serves }
    ensures trap { turn_by two_locks in_table (kernel_with None) 1 (Stands (Trap NoInstruction)) ≡ Serves }
    ensures mutex { map (λ turn. takes turn (OfMutex its_mutex)) (Gets its_mutex ∷ Gets 0x100B8 ∷ Alone ∷ Serves ∷ []) ≡ true ∷ replicate 3 false }
    ensures kernel { map (λ turn. takes turn OfKernel) (Serves ∷ Gets its_mutex ∷ Alone ∷ []) ≡ true ∷ replicate 2 false }
{}

/// A row: the first lock brings the mutex into the table, so the kernel serves it, and the creation; then each thread gets the
/// mutex once, and all other steps are alone.
pub fn turns_row()
    ensures { turns_from (opening two_locks) first_then_second ≡ replicate 3 Alone ++ Serves ∷ replicate 7 Alone ++ Serves ∷ replicate 2 Alone ++ Gets its_mutex ∷ replicate 5 Alone ++ Gets its_mutex ∷ replicate 4 Alone }
{}

/// A row: two executions of as many steps of each thread, in which the threads get the mutex in two orders, come to two
/// machines: the last one's number is stored. The kernel serves thread 0 alone in both, and nobody gets another mutex.
pub fn orders_row()
    ensures one { order_of two_locks in_table (OfMutex its_mutex) (opening two_locks) first_then_second ≡ 0 ∷ 1 ∷ [] }
    ensures other { order_of two_locks in_table (OfMutex its_mutex) (opening two_locks) second_then_first ≡ 1 ∷ 0 ∷ [] }
    ensures kernel { order_of two_locks in_table OfKernel (opening two_locks) first_then_second ≡ 0 ∷ 0 ∷ [] }
    ensures kernel_too { order_of two_locks in_table OfKernel (opening two_locks) second_then_first ≡ 0 ∷ 0 ∷ [] }
    ensures no_other { order_of two_locks in_table (OfMutex 0x100B8) (opening two_locks) first_then_second ≡ [] }
    ensures counts { SameCounts first_then_second second_then_first }
    ensures byte { byte_after first_then_second ≡ Some 1 }
    ensures byte_too { byte_after second_then_first ≡ Some 0 }
{}

/// A row: that guest has no races and takes mutexes by locks alone, so that where thread 1 comes to its lock earlier but gets the mutex as
/// late, the machine is the same.
pub fn meeting_row()
    ensures free { RaceFree two_locks }
    ensures by_locks { TakesByLocks two_locks in_table }
    ensures counts { SameCounts first_then_second in_between }
    ensures orders { SameOrders two_locks in_table (opening two_locks) first_then_second in_between }
    ensures runs { (machine : Machine) × (run two_locks (opening two_locks) first_then_second ≡ Some machine) }
    ensures same { run two_locks (opening two_locks) first_then_second ≡ run two_locks (opening two_locks) in_between }
{}

/// A row: a program with a trylock or a wait in its table of calls does not take cooperative mutexes by locks alone, where all that
/// stand in the kernel's table are cooperative. Where none is, it does.
pub fn trylock_row()
    ensures trylock { TakesByLocks two_trylocks in_table → ⊥ }
    ensures wait { TakesByLocks two_waits in_table → ⊥ }
    ensures no_mutex { TakesByLocks two_trylocks no_mutex × TakesByLocks two_waits no_mutex }
{}

/// A row: the list of first steps grows by a step of a thread that has made all of its first steps in the copy, and by no
/// other; what other threads did counts for nothing.
pub fn first_row()
    ensures grows { first_after (0 ∷ 1 ∷ 0 ∷ []) (copy_of (0 ∷ 0 ∷ [])) 0 ≡ 0 ∷ 1 ∷ 0 ∷ 0 ∷ [] }
    ensures stays { first_after (0 ∷ 1 ∷ 0 ∷ []) (copy_of (0 ∷ 1 ∷ [])) 0 ≡ 0 ∷ 1 ∷ 0 ∷ [] }
    ensures of_another { first_after (0 ∷ 1 ∷ 0 ∷ []) (copy_of (0 ∷ 1 ∷ [])) 1 ≡ 0 ∷ 1 ∷ 0 ∷ 1 ∷ [] }
{}

/// A row: of two copies one takes two steps and the other one of these: the first steps are the two. Where a row is another
/// thread's, no copy has the step that gets the mutex.
pub fn copies_row()
    ensures runs { (copies : List Copy) × Runs two_locks in_table all_backed (λ mutex rank. None) copies (0 ∷ 0 ∷ []) × (map (λ copy. copy.taken) copies ≡ (0 ∷ 0 ∷ []) ∷ (0 ∷ []) ∷ []) }
    ensures out_of_turn { (machine : Machine) (after : Copy) → run two_locks (opening two_locks) (replicate 14 0) ≡ Some machine → StepsAlone two_locks in_table all_backed (λ mutex rank. Some 1) (record (copy_of (replicate 14 0)) { machine = machine }) 0 after → ⊥ }
{}
