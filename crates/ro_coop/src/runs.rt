//! What holds of every cooperative run by its rules (`ro_legal`): laws, of programs without races where nothing else is said. The
//! program may have trylocks and waits; then no mutex is cooperative, and all its calls are voted on.
ghost use Rattle.std.specs.Prelude.{◌≡◌, ℕ, [], true, length, List, Some, None, slice_get};
ghost use Rattle.ro_event.specs.Views.{View};
ghost use Rattle.ro_journal.specs.declared.Entry.{Entry};
ghost use Rattle.ro_plain.specs.Machine.{Machine, opening, step, run};
ghost use Rattle.ro_plain.specs.Order.{RaceFree};
ghost use Rattle.ro_settings.specs.Ranges.{InRange};
ghost use Rattle.ro_orders.specs.Copies.{Rows};
ghost use Rattle.ro_peer.specs.Gets.{InRows};
ghost use Rattle.ro_legal.specs.Core.{Job, may_vote};
ghost use Rattle.ro_legal.specs.Legal.{is_stuck};
ghost use Rattle.ro_legal.specs.Sides.{Side, threads_of};
ghost use Rattle.ro_legal.specs.Cooperative.{opening_core, Legal, replay, gets_from, AgreeOn};
ghost use Rattle.ro_coop.specs.Core.{first_of};
ghost use Rattle.ro_coop.specs.Runs.{IsExecutionOf, RunsAsFirst};

/// The first steps of a legal journal are an execution, where each lock that was got has its thread in its row: threads get each
/// mutex in it in the order of the rows, and it writes what was written, but for what a failing sink did not take. Where
/// the run ended by an exit or a trap, it ends so.
pub fn journals_are_executions()
    ensures { (job : Job) (rows : Rows) → RaceFree job.program → InRange job.settings → job.faults ≡ [] → (journal : List Entry) → Legal job journal → InRows rows (gets_from job (opening_core job) journal) → IsExecutionOf job rows (first_of journal) (replay job journal) }
{}

/// A vote finds equal views, so no run ends by a difference.
pub fn votes_agree()
    ensures { (job : Job) (rows : Rows) → RaceFree job.program → InRange job.settings → job.faults ≡ [] → (journal : List Entry) → Legal job journal → InRows rows (gets_from job (opening_core job) journal) → (thread : ℕ) → may_vote (replay job journal) thread ≡ true → (view : View) × AgreeOn job (replay job journal) thread view }
{}

/// A deadlock is real: where nothing can be done any more, no thread has a step in the machine of the first steps, which has
/// not ended.
pub fn deadlocks_are_real()
    ensures { (job : Job) (rows : Rows) → RaceFree job.program → InRange job.settings → job.faults ≡ [] → (journal : List Entry) → Legal job journal → InRows rows (gets_from job (opening_core job) journal) → is_stuck job (replay job journal) ≡ true → (machine : Machine) → run job.program (opening job.program) (first_of journal) ≡ Some machine → (machine.ended ≡ None) × ((t : ℕ) (after : Machine) → step job.program machine t ≡ Some after → ⊥) }
{}

/// A whole run is the execution of its journal's first steps: an exit or a trap by which the journal ends is how that ended, a
/// deadlock is one of it, and no journal ends by a difference. Where it ends by the limit, an execution is longer than that; so
/// a program of which none is comes to its own end, unless the sink fails.
pub fn cooperative_runs()
    ensures { (job : Job) (rows : Rows) → RaceFree job.program → InRange job.settings → job.faults ≡ [] → (journal : List Entry) → Legal job journal → InRows rows (gets_from job (opening_core job) journal) → RunsAsFirst job rows journal }
{}

/// There are as many steps as first ones, races or not. So the limit of steps counts the execution's.
pub fn steps_are_first_steps()
    ensures { (job : Job) → job.faults ≡ [] → (journal : List Entry) → Legal job journal → (replay job journal).steps ≡ length (first_of journal) }
{}

/// Every replica gets each mutex that it answers for in the order of the rows, races or not.
pub fn replicas_follow_rows()
    ensures { (job : Job) (rows : Rows) (journal : List Entry) → Legal job journal → InRows rows (gets_from job (opening_core job) journal) → (number : ℕ) (side : Side) → slice_get (replay job journal).sides number ≡ Some side → (mutex rank thread : ℕ) → slice_get (threads_of mutex side.gets) rank ≡ Some thread → rows mutex rank ≡ Some thread }
{}
