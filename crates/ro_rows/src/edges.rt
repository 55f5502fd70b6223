//! Rows at the edges of what is allowed, and of what comes next.
ghost use Rattle.std.specs.Prelude.{◌≡◌, suc, Bool, true, false, [], ◌∷◌, ◌++◌, length, Some, None};
ghost use Rattle.std.specs.List.{filter};
ghost use Rattle.ro_journal.specs.Leases.{lease_to};
ghost use Rattle.ro_journal.specs.declared.Did.TheVariants.{Served, Blocked};
ghost use Rattle.ro_journal.specs.declared.How.TheVariants.{Exit, Deadlock, Differ, NoMajority, Limit, Sink};
ghost use Rattle.ro_journal.specs.declared.Entry.TheVariants.{Take, Put, Vote, Free, Scrub, End};
ghost use Rattle.ro_journal.specs.declared.losers.Lost.TheVariants.{Nobody, One};
ghost use Rattle.ro_journal.specs.Plan.{plan_of};
ghost use Rattle.ro_thread.specs.declared.Thread.{Thread};
ghost use Rattle.ro_replica.specs.Snapshots.{thread_snapshot};
ghost use Rattle.ro_plain.specs.Machine.{AllEnd};
ghost use Rattle.ro_legal.specs.declared.actions.Action.TheVariants as act;
ghost use Rattle.ro_legal.specs.Waits.{waited_of};
ghost use Rattle.ro_legal.specs.Core.{opening_core, may_free};
ghost use Rattle.ro_legal.specs.Legal.{Legal, IsAllowed, may_scrub, after, replay, output_of};
ghost use Rattle.ro_legal.specs.Action.{next_action, IsNext};
ghost use Rattle.ro_simulation.specs.Theorem.{CannotDiffer};
ghost use Rattle.ro_simulation.specs.Guests.{exit_guest};
ghost use Rattle.ro_simulation.specs.Rows.{flip_a0};
ghost use Rattle.ro_simulation.specs.Drives.{driven};
ghost use Rattle.ro_rows.specs.Exit.{exit_job};
ghost use Rattle.ro_rows.specs.Rows.{decisions, deadlock_job, deadlock_before, hello_job};
ghost use Rattle.ro_rows.specs.Edges.{small_job, waiters_job, two_wait, unlocked, letter_job, all_hits, is_vote, page_limit_job, before_free, exit_runs, until_free, scrubbing, one_runs, one_lent, both_stand, last_lent, parted_job, parted_runs, parted_pair, hello_written, watch_job, watch_journal, with_waits, with_three_waits, votes_of, hidden_pair_job, hidden_pair, hidden_three_job, hidden_three, shown_pair_job, shown_pair};

/// A row: no execution of the guest that exits with 7 has more than three steps, and one has more than two.
pub fn length_row()
    ensures three { AllEnd exit_job.program 3 }
    ensures not_two { AllEnd exit_job.program 2 → ⊥ }
{}

/// A row: of three drivers number 2 may take a lease, and there is no number 3; and replica 1 may be taken first, but the core
/// takes replica 0.
pub fn take_row()
    ensures last { IsAllowed exit_job (opening_core exit_job) (Take (lease_to 2 0 0)) }
    ensures no_such { IsAllowed exit_job (opening_core exit_job) (Take (lease_to 3 0 0)) → ⊥ }
    ensures any_first { IsAllowed exit_job (opening_core exit_job) (Take (lease_to 0 1 0)) }
    ensures next { IsNext exit_job (opening_core exit_job) (Take (lease_to 0 0 0)) }
    ensures not_next { IsNext exit_job (opening_core exit_job) (Take (lease_to 0 1 0)) → ⊥ }
{}

/// A row: a run that came back at no stop before its quantum was over is not allowed, nor one of more instructions than
/// there are before the stop, nor one that another driver gives back, nor one that says that a fault was struck.
pub fn put_row()
    ensures at_stop { IsAllowed exit_job (replay exit_job (Take (lease_to 0 0 0) ∷ [])) (Put (lease_to 0 0 0) 2 0) }
    ensures early { IsAllowed exit_job (replay exit_job (Take (lease_to 0 0 0) ∷ [])) (Put (lease_to 0 0 0) 1 0) → ⊥ }
    ensures late { IsAllowed exit_job (replay exit_job (Take (lease_to 0 0 0) ∷ [])) (Put (lease_to 0 0 0) 3 0) → ⊥ }
    ensures another { IsAllowed exit_job (replay exit_job (Take (lease_to 0 0 0) ∷ [])) (Put (lease_to 1 0 0) 2 0) → ⊥ }
    ensures unstruck { IsAllowed exit_job (replay exit_job (Take (lease_to 0 0 0) ∷ [])) (Put (lease_to 0 0 0) 2 1) → ⊥ }
{}

/// A row: three replicas cannot come to a difference of two, and two of them can only where there is a fault.
pub fn differ_row()
    ensures three { CannotDiffer (small_job exit_guest (flip_a0 1 ∷ []) 3 1000000000) }
    ensures two { CannotDiffer (small_job exit_guest [] 2 1000000000) }
    ensures struck { CannotDiffer (small_job exit_guest (flip_a0 1 ∷ []) 2 1000000000) → ⊥ }
{}

/// A row: a deadlock may end the journal where nothing can be voted on, freed or lent, and not before: not at the
/// opening, not while a vote can still be held or a blocked call served, and not while a lease is out, also where all else stands.
pub fn stuck_row()
    ensures stuck { IsAllowed deadlock_job (replay deadlock_job deadlock_before) (End Deadlock) }
    ensures not_opening { IsAllowed deadlock_job (opening_core deadlock_job) (End Deadlock) → ⊥ }
    ensures not_going { IsAllowed exit_job (replay exit_job exit_runs) (End Deadlock) → ⊥ }
    ensures not_lent { IsAllowed exit_job (replay exit_job (Take (lease_to 0 0 0) ∷ [])) (End Deadlock) → ⊥ }
    ensures not_free { IsAllowed (page_limit_job 1000000000) (replay (page_limit_job 1000000000) before_free) (End Deadlock) → ⊥ }
    ensures not_last { IsAllowed exit_job (replay exit_job last_lent) (End Deadlock) → ⊥ }
{}

/// A row: a vote that takes the plan to its limit is allowed, and one more step is a limit's end, with the plan's length and
/// what the vote would have added; so it is with a free.
pub fn limit_row()
    ensures vote_fits { IsAllowed (small_job exit_guest [] 3 3) (replay (small_job exit_guest [] 3 3) exit_runs) (Vote 0 2 0 Nobody Served) }
    ensures no_limit { IsAllowed (small_job exit_guest [] 3 3) (replay (small_job exit_guest [] 3 3) exit_runs) (End (Limit 0 3)) → ⊥ }
    ensures vote_passes { IsAllowed (small_job exit_guest [] 3 2) (replay (small_job exit_guest [] 3 2) exit_runs) (Vote 0 2 0 Nobody Served) → ⊥ }
    ensures limit { IsAllowed (small_job exit_guest [] 3 2) (replay (small_job exit_guest [] 3 2) exit_runs) (End (Limit 0 3)) }
    ensures free_fits { IsAllowed (page_limit_job 18) (replay (page_limit_job 18) before_free) (Free 0) }
    ensures no_free_limit { IsAllowed (page_limit_job 18) (replay (page_limit_job 18) before_free) (End (Limit 17 1)) → ⊥ }
    ensures free_passes { IsAllowed (page_limit_job 17) (replay (page_limit_job 17) before_free) (Free 0) → ⊥ }
    ensures free_limit { IsAllowed (page_limit_job 17) (replay (page_limit_job 17) before_free) (End (Limit 17 1)) }
{}

/// A row: a copy lets a second thread stand in every replica at the moment at which a first one may be freed. The free comes
/// before that vote.
pub fn free_first_row()
    ensures decides { decisions (driven 200 letter_job) ≡ Vote 0 6 0 Nobody Served ∷ Vote 0 3 0 Nobody Served ∷ Vote 0 3 0 Nobody Blocked ∷ Vote 1 4 0 Nobody Served ∷ Vote 1 4 0 Nobody Served ∷ Vote 1 2 0 Nobody Served ∷ Vote 1 2 0 (One 2) Served ∷ Free 0 ∷ Vote 2 4 0 Nobody Served ∷ Vote 0 2 0 Nobody Blocked ∷ Vote 2 4 0 Nobody Served ∷ Vote 2 2 0 Nobody Served ∷ Vote 2 2 0 Nobody Served ∷ Free 0 ∷ Vote 0 2 0 Nobody Served ∷ End (Exit 0) ∷ [] }
    ensures legal { Legal letter_job (driven 200 letter_job) }
    ensures votes { length (filter is_vote (driven 200 letter_job)) ≡ 13 }
    ensures hits { all_hits (driven 200 letter_job) ≡ 1 }
    ensures steps { length (plan_of (driven 200 letter_job)) ≡ 53 }
    ensures output { output_of letter_job (driven 200 letter_job) ≡ 65 ∷ 66 ∷ [] }
{}

/// A row: two threads wait for a mutex, the higher one for longer. Neither may be freed before the unlock and both may be
/// behind it, and the lower one is, unless the other has waited for 64 votes, and longer than it; but none while a lease is out.
pub fn waiters_row()
    ensures legal { Legal waiters_job unlocked }
    ensures wait { may_free waiters_job (replay waiters_job two_wait) 1 ≡ false }
    ensures wait_too { may_free waiters_job (replay waiters_job two_wait) 2 ≡ false }
    ensures may { may_free waiters_job (replay waiters_job unlocked) 1 ≡ true }
    ensures may_too { may_free waiters_job (replay waiters_job unlocked) 2 ≡ true }
    ensures lowest { next_action waiters_job (replay waiters_job unlocked) ≡ act.Free 1 }
    ensures early { next_action waiters_job (with_three_waits 0 0 63 (replay waiters_job unlocked)) ≡ act.Free 1 }
    ensures overdue { next_action waiters_job (with_three_waits 0 63 64 (replay waiters_job unlocked)) ≡ act.Free 2 }
    ensures longer { next_action waiters_job (with_three_waits 0 64 65 (replay waiters_job unlocked)) ≡ act.Free 2 }
    ensures shorter { next_action waiters_job (with_three_waits 0 65 64 (replay waiters_job unlocked)) ≡ act.Free 1 }
    ensures alike { next_action waiters_job (with_three_waits 0 64 64 (replay waiters_job unlocked)) ≡ act.Free 1 }
    ensures then_waits { may_free waiters_job (replay waiters_job (unlocked ++ Free 1 ∷ [])) 2 ≡ false }
    ensures lent { may_free waiters_job (replay waiters_job (unlocked ++ Take (lease_to 0 0 0) ∷ [])) 1 ≡ false }
{}

/// A row: a vote on a thread that stands in every replica waits until no lease is out, also none of another thread. Where two
/// votes may be held the lower thread's comes next, and where a thread may be freed a vote does not.
pub fn vote_row()
    ensures lent { IsAllowed deadlock_job (replay deadlock_job one_lent) (Vote 0 3 0 Nobody Blocked) → ⊥ }
    ensures home { IsAllowed deadlock_job (replay deadlock_job both_stand) (Vote 0 3 0 Nobody Blocked) }
    ensures either { IsAllowed deadlock_job (replay deadlock_job both_stand) (Vote 1 3 0 Nobody Blocked) }
    ensures lowest { IsNext deadlock_job (replay deadlock_job both_stand) (Vote 0 3 0 Nobody Blocked) }
    ensures not_higher { IsNext deadlock_job (replay deadlock_job both_stand) (Vote 1 3 0 Nobody Blocked) → ⊥ }
    ensures may { IsAllowed letter_job (replay letter_job (until_free (driven 200 letter_job))) (Vote 2 4 0 Nobody Served) }
    ensures free { IsNext letter_job (replay letter_job (until_free (driven 200 letter_job))) (Free 0) }
    ensures not_next { IsNext letter_job (replay letter_job (until_free (driven 200 letter_job))) (Vote 2 4 0 Nobody Served) → ⊥ }
{}

/// A row: where no view has a majority, two replicas end by a difference and three by no majority, and not the other way
/// round.
pub fn parted_row()
    ensures two { IsAllowed (small_job exit_guest (flip_a0 1 ∷ []) 2 1000000000) (replay (small_job exit_guest (flip_a0 1 ∷ []) 2 1000000000) parted_pair) (End Differ) }
    ensures two_majority { IsAllowed (small_job exit_guest (flip_a0 1 ∷ []) 2 1000000000) (replay (small_job exit_guest (flip_a0 1 ∷ []) 2 1000000000) parted_pair) (End NoMajority) → ⊥ }
    ensures three { IsAllowed parted_job (replay parted_job parted_runs) (End NoMajority) }
    ensures three_differ { IsAllowed parted_job (replay parted_job parted_runs) (End Differ) → ⊥ }
{}

/// A row: a sink may fail right behind a write, and has taken fewer bytes of it than all.
pub fn sink_row()
    ensures none { IsAllowed hello_job (replay hello_job hello_written) (End (Sink 0)) }
    ensures all_but_one { IsAllowed hello_job (replay hello_job hello_written) (End (Sink 4)) }
    ensures all { IsAllowed hello_job (replay hello_job hello_written) (End (Sink 5)) → ⊥ }
    ensures later { IsAllowed hello_job (replay hello_job (hello_written ++ Take (lease_to 0 0 0) ∷ [])) (End (Sink 0)) → ⊥ }
{}

/// A row: a vote on the watchdog's turn lets its thread run on in every replica.
pub fn watch_row()
    ensures driven_is { driven 8 watch_job ≡ watch_journal }
    ensures legal { Legal watch_job watch_journal }
    ensures next { next_action watch_job (replay watch_job watch_journal) ≡ act.Lend 0 0 }
{}

/// A row: replicas may be scrubbed where each live thread stands in every one of them and none is lent. A scrub is due once the
/// plan has grown by its number, and not one step before; without a number it never is. While it is due threads are lent where they
/// can be, a lease that is out is waited for, and nothing is voted on or freed.
pub fn due_row()
    ensures lent { may_scrub (replay deadlock_job one_lent) ≡ false }
    ensures lendable { may_scrub (replay deadlock_job one_runs) ≡ false }
    ensures still { may_scrub (replay deadlock_job both_stand) ≡ true }
    ensures never { next_action deadlock_job (replay deadlock_job both_stand) ≡ act.Vote 0 }
    ensures early { next_action (scrubbing (suc (replay deadlock_job both_stand).steps) deadlock_job) (replay deadlock_job both_stand) ≡ act.Vote 0 }
    ensures due { next_action (scrubbing (replay deadlock_job both_stand).steps deadlock_job) (replay deadlock_job both_stand) ≡ act.Scrub }
    ensures before { next_action deadlock_job (replay deadlock_job one_runs) ≡ act.Vote 0 }
    ensures lends { next_action (scrubbing 1 deadlock_job) (replay deadlock_job one_runs) ≡ act.Lend 2 1 }
    ensures waits { next_action (scrubbing 1 deadlock_job) (replay deadlock_job one_lent) ≡ act.Wait }
    ensures not_freed { next_action (scrubbing 1 letter_job) (replay letter_job (until_free (driven 200 letter_job))) ≡ act.Scrub }
{}

/// A row: a thread that has waited for 64 votes of others comes first, with its vote and its leases, and not one vote sooner. Of two
/// it is the one that has waited longer, and the lowest of those that have waited as long. Another thread's vote is one more, its free
/// is none, and a vote or a free of its own begins anew.
pub fn waits_row()
    ensures vote { next_action deadlock_job (with_waits 0 64 (replay deadlock_job both_stand)) ≡ act.Vote 1 }
    ensures early { next_action deadlock_job (with_waits 0 63 (replay deadlock_job both_stand)) ≡ act.Vote 0 }
    ensures first { next_action deadlock_job (with_waits 64 0 (replay deadlock_job both_stand)) ≡ act.Vote 0 }
    ensures longer { next_action deadlock_job (with_waits 64 65 (replay deadlock_job both_stand)) ≡ act.Vote 1 }
    ensures shorter { next_action deadlock_job (with_waits 65 64 (replay deadlock_job both_stand)) ≡ act.Vote 0 }
    ensures lowest { next_action deadlock_job (with_waits 64 64 (replay deadlock_job both_stand)) ≡ act.Vote 0 }
    ensures lend { next_action deadlock_job (with_waits 0 64 (replay deadlock_job one_runs)) ≡ act.Lend 2 1 }
    ensures lend_early { next_action deadlock_job (with_waits 0 63 (replay deadlock_job one_runs)) ≡ act.Vote 0 }
    ensures vote_first { next_action deadlock_job (with_waits 64 0 (replay deadlock_job one_runs)) ≡ act.Vote 0 }
    ensures others { waited_of (votes_of 0 63) 1 ≡ 63 }
    ensures own { waited_of (votes_of 0 63) 0 ≡ 0 }
    ensures anew { waited_of (votes_of 0 64 ++ votes_of 1 2) 1 ≡ 0 }
    ensures since { waited_of (votes_of 0 64 ++ votes_of 1 2) 0 ≡ 2 }
    ensures freed { waited_of (votes_of 0 64 ++ Free 1 ∷ []) 1 ≡ 0 }
    ensures other_freed { waited_of (votes_of 0 3 ++ Free 0 ∷ []) 1 ≡ 3 }
{}

/// A row: where nothing can be done any more and a scrub is due, the scrub comes next, and the deadlock doesn't, though a journal may
/// end so; behind the scrub the deadlock does.
pub fn due_deadlock_row()
    ensures scrub { next_action (scrubbing 1 deadlock_job) (replay deadlock_job deadlock_before) ≡ act.Scrub }
    ensures not_next { IsNext (scrubbing 1 deadlock_job) (replay deadlock_job deadlock_before) (End Deadlock) → ⊥ }
    ensures allowed { IsAllowed (scrubbing 1 deadlock_job) (replay deadlock_job deadlock_before) (End Deadlock) }
    ensures behind { next_action (scrubbing 1 deadlock_job) (after (scrubbing 1 deadlock_job) (replay deadlock_job deadlock_before) (Scrub 0 Nobody)) ≡ act.End Deadlock }
    ensures next { IsNext (scrubbing 1 deadlock_job) (after (scrubbing 1 deadlock_job) (replay deadlock_job deadlock_before) (Scrub 0 Nobody)) (End Deadlock) }
{}

/// A row: of a thread that has exited a scrub compares its count alone, of a live one registers, pc and stop too.
pub fn snapshot_row()
    ensures exited { (one other : Thread) → one.since ≡ other.since → thread_snapshot false one ≡ thread_snapshot false other }
    ensures counts { (lives : Bool) (one other : Thread) → thread_snapshot lives one ≡ thread_snapshot lives other → one.since ≡ other.since }
    ensures registers { (one other : Thread) → thread_snapshot true one ≡ thread_snapshot true other → one.cpu ≡ other.cpu }
    ensures stops { (one other : Thread) → thread_snapshot true one ≡ thread_snapshot true other → one.stop ≡ other.stop }
{}

/// A row: a scrub notes the length of the plan, and a sink doesn't fail behind it. Where the replicas that it compares are one, neither a
/// difference nor no majority may end the journal in its place. Where they are not, two of them end by a difference and three by no
/// majority, and not the other way round; that comes next where a scrub is due, and else the vote does, as their views are one.
pub fn scrub_row()
    ensures steps { (replay deadlock_job deadlock_before).steps ≡ 16 }
    ensures none_yet { (replay deadlock_job deadlock_before).scrubbed ≡ 0 }
    ensures noted { (after deadlock_job (replay deadlock_job deadlock_before) (Scrub 0 Nobody)).scrubbed ≡ 16 }
    ensures may { IsAllowed deadlock_job (replay deadlock_job deadlock_before) (Scrub 0 Nobody) }
    ensures no_sink { IsAllowed deadlock_job (after deadlock_job (replay deadlock_job deadlock_before) (Scrub 0 Nobody)) (End (Sink 0)) → ⊥ }
    ensures no_sink_behind { IsAllowed hello_job (after hello_job (replay hello_job hello_written) (Scrub 0 Nobody)) (End (Sink 0)) → ⊥ }
    ensures alike { IsAllowed deadlock_job (replay deadlock_job deadlock_before) (End NoMajority) → ⊥ }
    ensures alike_two { IsAllowed shown_pair_job (replay shown_pair_job shown_pair) (End Differ) → ⊥ }
    ensures two { IsAllowed hidden_pair_job (replay hidden_pair_job hidden_pair) (End Differ) }
    ensures two_majority { IsAllowed hidden_pair_job (replay hidden_pair_job hidden_pair) (End NoMajority) → ⊥ }
    ensures three { IsAllowed hidden_three_job (replay hidden_three_job hidden_three) (End NoMajority) }
    ensures three_differ { IsAllowed hidden_three_job (replay hidden_three_job hidden_three) (End Differ) → ⊥ }
    ensures next { IsNext (scrubbing 1 hidden_pair_job) (replay hidden_pair_job hidden_pair) (End Differ) }
    ensures next_three { IsNext (scrubbing 1 hidden_three_job) (replay hidden_three_job hidden_three) (End NoMajority) }
    ensures vote { next_action hidden_pair_job (replay hidden_pair_job hidden_pair) ≡ act.Vote 0 }
    ensures not_next { IsNext hidden_pair_job (replay hidden_pair_job hidden_pair) (End Differ) → ⊥ }
{}
