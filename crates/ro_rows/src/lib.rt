//! Worked rows: the journals of small guests, computed; the order of their steps and their races; the edges of what is allowed;
//! and tables. What a row says comes from outside, by hand, by a standard or by an assembler: it pins the definitions.
#![tactic(auto)]

mod cooperative;
mod edges;
mod lending;
mod order;
mod tables;

ghost use Rattle.std.specs.Prelude.{◌≡◌, ◌≢◌, ℕ, List, [], ◌∷◌, length, replicate, Some, None};
ghost use Rattle.std.specs.Option.{option_map};
ghost use Rattle.ro_image.specs.Executable.{bad_code, image_of};
ghost use Rattle.ro_journal.specs.declared.Did.TheVariants.{Served, Parked, PageBacked, Blocked};
ghost use Rattle.ro_journal.specs.declared.How.TheVariants.{Exit, Deadlock, Differ, Sink};
ghost use Rattle.ro_journal.specs.declared.Entry.TheVariants.{Vote, Free, End};
ghost use Rattle.ro_journal.specs.declared.losers.Lost.TheVariants.{Nobody, One, Two};
ghost use Rattle.ro_journal.specs.Plan.{plan_of, outcome_of};
ghost use Rattle.ro_plain.specs.Machine.{Machine, opening, run};
ghost use Rattle.ro_plain.specs.Order.{RaceFree};
ghost use Rattle.ro_legal.specs.Core.{Job, opening_core};
ghost use Rattle.ro_legal.specs.Legal.{Legal, IsAllowed, replay, output_of};
ghost use Rattle.ro_legal.specs.Action.{EachIsNext};
ghost use Rattle.ro_legal.specs.Ideal.{StaysApart};
ghost use Rattle.ro_simulation.specs.Guests.{exit_guest, usual_job};
ghost use Rattle.ro_simulation.specs.Rows.{flip_a0, IsCovered};
ghost use Rattle.ro_simulation.specs.Theorem.{IsFront};
ghost use Rattle.ro_simulation.specs.Drives.{driven};
ghost use Rattle.ro_rows.specs.Exit.{exit_file, exit_image, exit_job, exit_journal};
ghost use Rattle.ro_rows.specs.Guests.{loop_guest};
ghost use Rattle.ro_rows.specs.Rows.{five_job, IdealEnds, decisions, page_job, atomic_job, waiting_job, lost_job, lost_journal, deadlock_job, deadlock_journal, pair_job, pair_journal, single_job, watched_job, hello_job, failing_journal, healed_job, hidden_job, before_vote};

pub use cooperative::refused_row;
pub use edges::{
    differ_row, due_deadlock_row, due_row, free_first_row, length_row, limit_row, parted_row,
    put_row, scrub_row, sink_row, snapshot_row, stuck_row, take_row, vote_row, waiters_row,
    waits_row, watch_row,
};
pub use lending::{exited_row, lend_row, nine_row, part_row, shared_row};
pub use order::{
    accesses_row, atomics_row, before_row, calls_row, looks_row, mapping_row, races_row, sync_row,
    unordered_row, wait_row, words_row,
};
pub use tables::{
    brk_row, checks_row, ends_row, errors_row, instructions_row, mmap_row, names_row, results_row,
    settings_row, threads_row, traps_row, words_of_calls_row,
};

/// A row: the program of a file of 96 bytes exits with 7. Its journal of eight entries is legal and the one that one
/// driver makes, each entry is what the core does next, and the plan is three steps of thread 0, after which the
/// unreplicated machine has ended by the same exit and has written nothing, as the journal has.
pub fn exit_row()
    ensures size { length exit_file ≡ 96 }
    ensures accepted { bad_code exit_file ≡ None }
    ensures image { image_of exit_file ≡ exit_image }
    ensures driven_is { driven 8 exit_job ≡ exit_journal }
    ensures legal { Legal exit_job exit_journal }
    ensures next { EachIsNext exit_job (opening_core exit_job) exit_journal }
    ensures plan { plan_of exit_journal ≡ 0 ∷ 0 ∷ 0 ∷ [] }
    ensures ideal { IdealEnds exit_job exit_journal (Exit 7) [] }
    ensures output { output_of exit_job exit_journal ≡ [] }
{}

/// The simulation theorem covers that journal, as its program has no races.
pub fn exit_is_covered()
    ensures race_free { RaceFree exit_job.program }
    ensures covered { IsCovered exit_job exit_journal (Exit 7) [] }
{}

/// In the journal of one driver each entry is what the core does next, unless it ends by a difference.
pub fn driven_is_next()
    ensures { (fuel : ℕ) (job : Job) → outcome_of (driven fuel job) ≢ Some Differ → EachIsNext job (opening_core job) (driven fuel job) }
{}

/// A row: two threads store to one page of the heap. The first fault backs it for both; thread 0 joins
/// thread 1, is freed when that has exited, and exits with 0.
pub fn page_row()
    ensures legal { Legal page_job (driven 100 page_job) }
    ensures decides { decisions (driven 100 page_job) ≡ Vote 0 6 0 Nobody Served ∷ Vote 0 1 0 Nobody PageBacked ∷ Vote 0 4 0 Nobody Blocked ∷ Vote 1 4 0 Nobody Served ∷ Free 0 ∷ Vote 0 2 0 Nobody Served ∷ End (Exit 0) ∷ [] }
    ensures ideal { IdealEnds page_job (driven 100 page_job) (Exit 0) [] }
{}

/// A row: LR, SC, SC once more and AMOADD on a word of the heap, which none of them needs a page fault for. Each is one vote; the
/// first SC answers 0 and the second 1, and what was added makes the exit's 8.
pub fn atomic_row()
    ensures legal { Legal atomic_job (driven 100 atomic_job) }
    ensures decides { decisions (driven 100 atomic_job) ≡ Vote 0 1 0 Nobody Served ∷ Vote 0 1 0 Nobody Served ∷ Vote 0 0 0 Nobody Served ∷ Vote 0 0 0 Nobody Served ∷ Vote 0 2 0 Nobody Served ∷ End (Exit 8) ∷ [] }
    ensures ideal { IdealEnds atomic_job (driven 100 atomic_job) (Exit 8) [] }
{}

/// A row: thread 0 holds a mutex and joins a thread that wants it. The journal of one driver ends by a deadlock, and in
/// the unreplicated machine no thread can step.
pub fn deadlock_row()
    ensures driven_is { driven 100 deadlock_job ≡ deadlock_journal }
    ensures legal { Legal deadlock_job deadlock_journal }
    ensures ideal { IdealEnds deadlock_job deadlock_journal Deadlock [] }
{}

/// A row: thread 0 waits on a condition variable and gives its mutex up, thread 1 takes that, signals and lets go, and thread
/// 0 goes on. The plan has 39 steps: a vote that parks its thread adds one more than its instructions, and so does the free.
pub fn waiting_row()
    ensures legal { Legal waiting_job (driven 200 waiting_job) }
    ensures decides { decisions (driven 200 waiting_job) ≡ Vote 0 3 0 Nobody Served ∷ Vote 0 6 0 Nobody Served ∷ Vote 0 3 0 Nobody Parked ∷ Vote 1 3 0 Nobody Served ∷ Vote 1 2 0 Nobody Served ∷ Vote 1 2 0 Nobody Served ∷ Free 0 ∷ Vote 0 2 0 Nobody Served ∷ Vote 0 3 0 Nobody Blocked ∷ Vote 1 2 0 Nobody Served ∷ Free 0 ∷ Vote 0 2 0 Nobody Served ∷ End (Exit 5) ∷ [] }
    ensures steps { length (plan_of (driven 200 waiting_job)) ≡ 39 }
    ensures ideal { IdealEnds waiting_job (driven 200 waiting_job) (Exit 5) [] }
{}

/// A row: a signal that nobody waits for is lost. The wait behind it never ends, and no thread can step.
pub fn lost_row()
    ensures driven_is { driven 100 lost_job ≡ lost_journal }
    ensures legal { Legal lost_job lost_journal }
    ensures ideal { IdealEnds lost_job lost_journal Deadlock [] }
{}

/// A row: of two replicas one is struck, and the journal of one driver ends by a difference before anything is served.
pub fn pair_row()
    ensures driven_is { driven 10 pair_job ≡ pair_journal }
    ensures legal { Legal pair_job pair_journal }
    ensures ideal { IdealEnds pair_job pair_journal Differ [] }
{}

/// A row: with quanta of one instruction each replica takes three leases where it took one, and the vote is the same.
pub fn single_row()
    ensures count { length (driven 20 single_job) ≡ 20 }
    ensures legal { Legal single_job (driven 20 single_job) }
    ensures decides { decisions (driven 20 single_job) ≡ Vote 0 2 0 Nobody Served ∷ End (Exit 7) ∷ [] }
{}

/// A row: a struck counter keeps one replica running until the watchdog stops it, and it loses the vote.
pub fn watched_row()
    ensures legal { Legal watched_job (driven 20 watched_job) }
    ensures decides { decisions (driven 20 watched_job) ≡ Vote 0 9 0 (One 2) Served ∷ End (Exit 7) ∷ [] }
{}

/// A row: two of five replicas are struck, and both lose the vote.
pub fn five_row()
    ensures legal { Legal five_job (driven 20 five_job) }
    ensures decides { decisions (driven 20 five_job) ≡ Vote 0 2 1 (Two 0 3) Served ∷ End (Exit 7) ∷ [] }
{}

/// A row: of five replicas a copy differs where its winner does. Replica 0 is struck where no view shows it, replica 1 loses a
/// vote and becomes a copy of it, and then replica 2 is struck: faults do not stay apart, and what is written is no front of what
/// the unreplicated machine writes.
pub fn hidden_row()
    ensures race_free { RaceFree hidden_job.program }
    ensures legal { Legal hidden_job (driven 30 hidden_job) }
    ensures decides { decisions (driven 30 hidden_job) ≡ Vote 0 5 0 (One 1) Served ∷ Vote 0 3 0 (Two 3 4) Served ∷ Vote 0 2 0 Nobody Served ∷ End (Exit 0) ∷ [] }
    ensures output { output_of hidden_job (driven 30 hidden_job) ≡ 104 ∷ 101 ∷ 108 ∷ 108 ∷ 110 ∷ [] }
    ensures ideal { IdealEnds hidden_job (driven 30 hidden_job) (Exit 0) (104 ∷ 101 ∷ 108 ∷ 108 ∷ 111 ∷ []) }
    ensures no_front { IsFront (output_of hidden_job (driven 30 hidden_job)) (104 ∷ 101 ∷ 108 ∷ 108 ∷ 111 ∷ []) → ⊥ }
    ensures not_apart { StaysApart hidden_job (driven 30 hidden_job) → ⊥ }
{}

/// A row: the sink takes two bytes of `hello` and fails. The journal may end there, with `he` written.
pub fn failing_row()
    ensures legal { Legal hello_job failing_journal }
    ensures output { output_of hello_job failing_journal ≡ 104 ∷ 101 ∷ [] }
    ensures ideal { IdealEnds hello_job failing_journal (Sink 2) (104 ∷ 101 ∷ 108 ∷ 108 ∷ 111 ∷ []) }
{}

/// A row: a struck byte shows in the second write and not in the first. Its replica wins with the others, loses the next
/// vote, and goes on as a copy; what is written is `hello`.
pub fn healed_row()
    ensures legal { Legal healed_job (driven 30 healed_job) }
    ensures decides { decisions (driven 30 healed_job) ≡ Vote 0 5 0 Nobody Served ∷ Vote 0 3 0 (One 1) Served ∷ Vote 0 2 0 Nobody Served ∷ End (Exit 0) ∷ [] }
    ensures output { output_of healed_job (driven 30 healed_job) ≡ 104 ∷ 101 ∷ 108 ∷ 108 ∷ 111 ∷ [] }
    ensures ideal { IdealEnds healed_job (driven 30 healed_job) (Exit 0) (104 ∷ 101 ∷ 108 ∷ 108 ∷ 111 ∷ []) }
{}

/// A row: a vote that names no loser where there is one is not allowed.
pub fn loser_row()
    ensures { IsAllowed (usual_job exit_guest (flip_a0 1 ∷ [])) (replay (usual_job exit_guest (flip_a0 1 ∷ [])) before_vote) (Vote 0 2 0 Nobody Served) → ⊥ }
{}

/// A row: a jump to itself takes a thousand steps and has not ended.
pub fn loop_row()
    ensures { option_map (λ (machine : Machine). machine.ended) (run loop_guest (opening loop_guest) (replicate 1000 0)) ≡ Some None }
{}
