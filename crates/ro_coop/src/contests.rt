//! Rows of the rules of a cooperative run (`ro_legal`): whole journals of two and three replicas.
ghost use Rattle.std.specs.Prelude.{◌≡◌, ℕ, List, [], ◌∷◌, ◌++◌, length, replicate, true, false, Some, is_some};
ghost use Rattle.ro_event.specs.Views.{View};
ghost use Rattle.ro_journal.specs.declared.Did.{Did};
ghost use Rattle.ro_journal.specs.declared.losers.Lost.{Lost};
ghost use Rattle.ro_journal.specs.declared.How.TheVariants.{Exit as ExitHow, Deadlock, Differ};
ghost use Rattle.ro_plain.specs.Order.{RaceFree};
ghost use Rattle.ro_settings.specs.Ranges.{InRange};
ghost use Rattle.ro_orders.specs.Turns.{TakesByLocks};
ghost use Rattle.ro_orders.specs.Choices.{in_table, no_mutex, chosen_of};
ghost use Rattle.ro_orders.specs.Guests.{two_locks, two_trylocks, two_waits};
ghost use Rattle.ro_peer.specs.Gets.{InRows};
ghost use Rattle.ro_legal.specs.Core.{is_lendable, may_vote, views_of};
ghost use Rattle.ro_legal.specs.Legal.{is_stuck};
ghost use Rattle.ro_legal.specs.Cooperative.{opening_core, lease_run, AgreeOn, EndsVote, MayVote, IsAllowed, Legal, replay, gets_from};
ghost use Rattle.ro_coop.specs.Core.{first_of};
ghost use Rattle.ro_coop.specs.Contests.{lease_by, part_by, writers_guest, writers_job, page_of_threads, writers_asked, writers_got, writers_parted, writers_wrote, writers_freed, writers_freed_too, writers_journal, looking_job, looking_back, looking_asked, looking_got, gives_up, contest_shown, crossing_guest, crossing_job, crossing_again, crossing_stuck, crossing_journal, waiting_guest, waiting_job, waiting_stuck, waiting_journal, byte_guest, byte_job, byte_front, byte_journal, reserving_job, reserving_front, with_none_answered, store_answers};

/// A row: a journal of two replicas by the rules of a cooperative run. Thread 0's first lock is voted, and brings the mutex into the
/// table. Later thread 1 comes back at the free mutex in replica 1, and gets it in replica 0; thread 0 comes back at its lock in both,
/// in replica 0 since thread 1 owns the mutex, in replica 1 since that row is thread 1's. Each thread writes a letter, and thread 0
/// exits with 0. The journal is legal, and what was got has its rows on a page that has thread 1 before thread 0, and not on the
/// other. The core's steps are as many as the first ones. The guest has no races, and the settings are in their ranges, as the
/// laws ask; it takes mutexes by locks alone.
pub fn rules_row()
    ensures free { RaceFree writers_guest }
    ensures by_locks { TakesByLocks writers_guest in_table }
    ensures in_range { InRange writers_job.settings }
    ensures legal { Legal writers_job writers_journal }
    ensures in_rows { InRows (page_of_threads (1 ∷ 0 ∷ [])) (gets_from writers_job (opening_core writers_job) writers_journal) }
    ensures of_others { InRows (page_of_threads (0 ∷ 1 ∷ [])) (gets_from writers_job (opening_core writers_job) writers_journal) → ⊥ }
    ensures comes_to { contest_shown (replay writers_job writers_journal) ≡ (0x41 ∷ 0x42 ∷ [], Some (ExitHow 0), 35, (1 ∷ 0 ∷ []) ∷ (1 ∷ 0 ∷ []) ∷ []) }
    ensures first { first_of writers_journal ≡ replicate 19 0 ++ replicate 6 1 ++ replicate 2 0 ++ replicate 6 1 ++ replicate 2 0 }
    ensures steps { (replay writers_job writers_journal).steps ≡ length (first_of writers_journal) }
{}

/// A row: who is lent along that journal. Thread 1, which came back at the free mutex in replica 1, is not lent there while a lease is out
/// that may have got it, and is once it got it itself in replica 0. Thread 0 is not lent where thread 1 owns the mutex, nor where
/// it is free and the row is thread 1's, nor when thread 1 then owns it there; it is lent in each replica once thread 1
/// unlocked the mutex there. And a lease whose thread comes to a lock of a mutex that it owns does not come back there.
pub fn parked_row()
    ensures asked { is_lendable (replay writers_job writers_asked) 1 1 ≡ false }
    ensures got { is_lendable (replay writers_job writers_got) 1 1 ≡ true }
    ensures owned { is_lendable (replay writers_job writers_parted) 0 0 ≡ false }
    ensures of_another { is_lendable (replay writers_job writers_parted) 1 0 ≡ false }
    ensures owned_then { is_lendable (replay writers_job writers_wrote) 1 0 ≡ false }
    ensures freed { is_lendable (replay writers_job writers_freed) 0 0 ≡ true }
    ensures not_yet { is_lendable (replay writers_job writers_freed) 1 0 ≡ false }
    ensures freed_too { is_lendable (replay writers_job writers_freed_too) 1 0 ≡ true }
    ensures comes_there { is_some (lease_run crossing_job (replay crossing_job crossing_again) (lease_by 0 0) 2) ≡ true }
    ensures its_own { IsAllowed crossing_job (replay crossing_job crossing_again) (part_by 0 0 2) → ⊥ }
{}

/// A row: who gives way. Thread 1 unlocks the mutex in replica 0 and comes back at it, and thread 0 came back there while thread 1 owned
/// it. Then thread 1 is not lent there, though nothing is lent and nobody got the mutex since; it gives up the mutex's next rank.
/// Thread 0 is lent, and does not. Once thread 0 came back too where the mutex was free, both are lent, and neither gives the
/// rank up. But where thread 1 got that rank in replica 1, it is lent in replica 0 too, and gives up the rank behind it.
pub fn looking_row()
    ensures legal { Legal looking_job looking_asked }
    ensures gives_way { is_lendable (replay looking_job looking_back) 0 1 ≡ false }
    ensures waits { is_lendable (replay looking_job looking_back) 0 0 ≡ true }
    ensures given_up { gives_up (replay looking_job looking_back) 0 1 1 ≡ true }
    ensures not_given_up { gives_up (replay looking_job looking_back) 0 0 1 ≡ false }
    ensures asked { is_lendable (replay looking_job looking_asked) 0 1 ≡ true }
    ensures asked_too { is_lendable (replay looking_job looking_asked) 0 0 ≡ true }
    ensures kept { gives_up (replay looking_job looking_asked) 0 1 1 ≡ false }
    ensures kept_too { gives_up (replay looking_job looking_asked) 0 0 1 ≡ false }
    ensures also_legal { Legal looking_job looking_got }
    ensures got { is_lendable (replay looking_job looking_got) 0 1 ≡ true }
    ensures its_own { gives_up (replay looking_job looking_got) 0 1 1 ≡ false }
    ensures behind_it { gives_up (replay looking_job looking_got) 0 1 2 ≡ true }
{}

/// A row: a deadlock. Thread 0 owns a mutex and comes back at the lock of another, which thread 1 owns, and that one comes back at the lock
/// of the first, each in both replicas. Then nothing can be done, and the journal that ends by a deadlock is legal. So the
/// law of deadlocks, whose premises all hold of it, is not empty.
pub fn crossing_row()
    ensures free { RaceFree crossing_guest }
    ensures by_locks { TakesByLocks crossing_guest in_table }
    ensures in_range { InRange crossing_job.settings }
    ensures legal { Legal crossing_job crossing_journal }
    ensures before { Legal crossing_job crossing_stuck }
    ensures got { gets_from crossing_job (opening_core crossing_job) crossing_stuck ≡ [] }
    ensures stuck { is_stuck crossing_job (replay crossing_job crossing_stuck) ≡ true }
    ensures comes_to { contest_shown (replay crossing_job crossing_journal) ≡ ([], Some Deadlock, 18, [] ∷ [] ∷ []) }
    ensures first { first_of crossing_journal ≡ replicate 12 0 ++ replicate 2 1 ++ replicate 2 0 ++ replicate 2 1 }
{}

/// A row: of a guest whose table of calls has a trylock and a wait no mutex is cooperative, so all its calls are voted on. Its thread gets
/// a mutex by a trylock, and waits for a signal that nobody gives. The journal that ends by a deadlock is legal, and all that the
/// laws ask for holds of it.
pub fn waiting_row()
    ensures free { RaceFree waiting_guest }
    ensures chosen { chosen_of waiting_guest ≡ no_mutex }
    ensures in_range { InRange waiting_job.settings }
    ensures legal { Legal waiting_job waiting_journal }
    ensures before { Legal waiting_job waiting_stuck }
    ensures got { gets_from waiting_job (opening_core waiting_job) waiting_stuck ≡ [] }
    ensures stuck { is_stuck waiting_job (replay waiting_job waiting_stuck) ≡ true }
    ensures comes_to { contest_shown (replay waiting_job waiting_journal) ≡ ([], Some Deadlock, 8, [] ∷ [] ∷ []) }
    ensures first { first_of waiting_journal ≡ replicate 8 0 }
{}

/// A row: three replicas of a guest with a race. In one of them a byte is stored before it is loaded, in the others not, so the views of
/// the thread that loads it are not one, and the journal may end by a difference in the place of the vote. So the law of equal
/// views, whose other premises hold of it, needs that there are no races.
pub fn three_views_row()
    ensures by_locks { TakesByLocks byte_guest in_table }
    ensures in_range { InRange byte_job.settings }
    ensures legal { Legal byte_job byte_journal }
    ensures before { Legal byte_job byte_front }
    ensures got { gets_from byte_job (opening_core byte_job) byte_front ≡ [] }
    ensures may { may_vote (replay byte_job byte_front) 0 ≡ true }
    ensures differs { EndsVote byte_job (replay byte_job byte_front) 0 Differ }
    ensures races { RaceFree byte_guest → ⊥ }
{}

/// A row: three replicas of a guest that reserves a word, unlocks a mutex, and stores into the word if it still has it reserved. Each
/// replica answers the unlock by itself, which ends the reservation, so that the store fails. Where replica 0 came to the store
/// without having answered it, as a fault may make it, all views are the same as before, and by that replica's answers the store
/// would succeed. There is no vote then, and the journal may end by a difference in its place.
pub fn reserving_row()
    ensures legal { Legal reserving_job reserving_front }
    ensures may { may_vote (replay reserving_job reserving_front) 0 ≡ true }
    ensures agree { (view : View) × AgreeOn reserving_job (replay reserving_job reserving_front) 0 view }
    ensures fails { store_answers (replay reserving_job reserving_front) ≡ Some 1 }
    ensures may_too { may_vote (with_none_answered (replay reserving_job reserving_front)) 0 ≡ true }
    ensures same_views { views_of reserving_job (with_none_answered (replay reserving_job reserving_front)) 0 ≡ views_of reserving_job (replay reserving_job reserving_front) 0 }
    ensures would_succeed { store_answers (with_none_answered (replay reserving_job reserving_front)) ≡ Some 0 }
    ensures differs { EndsVote reserving_job (with_none_answered (replay reserving_job reserving_front)) 0 Differ }
    ensures no_vote { (count won : ℕ) (lost : Lost) (did : Did) → MayVote reserving_job (with_none_answered (replay reserving_job reserving_front)) 0 count won lost did → ⊥ }
{}

/// A row: of a program whose table of calls has a trylock or a wait no mutex is cooperative; of one with locks in their place all
/// that stand in the kernel's table are.
pub fn chosen_row()
    ensures by_locks { chosen_of two_locks ≡ in_table }
    ensures by_trylock { chosen_of two_trylocks ≡ no_mutex }
    ensures by_wait { chosen_of two_waits ≡ no_mutex }
{}
