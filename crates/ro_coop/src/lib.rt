//! The cooperative mode: replicas that answer the calls on some mutexes by themselves.
#![tactic(auto)]

mod contests;
mod rows;
mod runs;

ghost use Rattle.std.specs.Prelude.{◌≡◌, ℕ, suc, true, false, ◌==◌, List, Some, None, slice_get};
ghost use Rattle.ro_journal.specs.declared.Entry.{Entry};
ghost use Rattle.ro_kernel.specs.Kernel.{lives_on};
ghost use Rattle.ro_replica.specs.Views.{view_of};
ghost use Rattle.ro_plain.specs.Machine.{Machine, opening, step, run};
ghost use Rattle.ro_plain.specs.Order.{RaceFree};
ghost use Rattle.ro_orders.specs.Turns.{TakesByLocks};
ghost use Rattle.ro_orders.specs.Choices.{in_table};
ghost use Rattle.ro_orders.specs.Copies.{Rows};
ghost use Rattle.ro_peer.specs.Peers.{Peer};
ghost use Rattle.ro_peer.specs.Gets.{InRows};
ghost use Rattle.ro_coop.specs.Core.{OneEnters, Job, Core, opening_core, ranges_here, is_going, LegalFrom, first_of};
ghost use Rattle.ro_coop.specs.Rowless.{RowlessFrom, got_from, threads_of, got_in_replica};
ghost use Rattle.ro_coop.specs.Sound.{core_behind, IsSound};
ghost use Rattle.ro_coop.specs.Stuck.{Stopped, IsStuck};

pub use contests::{
    chosen_row, crossing_row, looking_row, parked_row, reserving_row, rules_row, three_views_row,
    waiting_row,
};
pub use rows::{letters_row, reservation_row};
pub use runs::{
    cooperative_runs, deadlocks_are_real, journals_are_executions, replicas_follow_rows,
    steps_are_first_steps, votes_agree,
};

/// The first steps of a legal journal are an execution: threads get each cooperative mutex in it in the order of its rows,
/// what was written is what it writes, and where the run ended by an exit or a trap, it ends so.
pub fn legal_sound()
    ensures { (job : Job) (rows : Rows) → RaceFree job.program → TakesByLocks job.program job.chosen → (0 == job.settings.watchdog) ≡ false → (others : ℕ) → job.settings.replicas ≡ suc others → (journal : List Entry) → LegalFrom job rows (opening_core job) journal → IsSound job rows (first_of journal) (core_behind job rows (opening_core job) journal) }
{}

/// A vote finds equal views: where a run goes on and every replica has stopped a thread, all views of it are one.
pub fn views_agree()
    ensures { (job : Job) (rows : Rows) → RaceFree job.program → TakesByLocks job.program job.chosen → (0 == job.settings.watchdog) ≡ false → (others : ℕ) → job.settings.replicas ≡ suc others → (journal : List Entry) → LegalFrom job rows (opening_core job) journal → is_going (core_behind job rows (opening_core job) journal) ≡ true → (t : ℕ) → lives_on (core_behind job rows (opening_core job) journal).kernel t ≡ true → ((i : ℕ) (peer : Peer) → slice_get (core_behind job rows (opening_core job) journal).peers i ≡ Some peer → Stopped peer t) → (i j : ℕ) (one other : Peer) → slice_get (core_behind job rows (opening_core job) journal).peers i ≡ Some one → slice_get (core_behind job rows (opening_core job) journal).peers j ≡ Some other → view_of (ranges_here job (core_behind job rows (opening_core job) journal)) t one.replica ≡ view_of (ranges_here job (core_behind job rows (opening_core job) journal)) t other.replica }
{}

/// A deadlock is real: where nothing can be done any more, and each row that is written was taken by some replica, no
/// thread has a step in the machine of the first steps, which has not ended.
pub fn stuck_stays()
    ensures { (job : Job) (rows : Rows) → RaceFree job.program → TakesByLocks job.program job.chosen → (0 == job.settings.watchdog) ≡ false → (others : ℕ) → job.settings.replicas ≡ suc others → (journal : List Entry) → LegalFrom job rows (opening_core job) journal → IsStuck job rows (core_behind job rows (opening_core job) journal) → (machine : Machine) → run job.program (opening job.program) (first_of journal) ≡ Some machine → (machine.ended ≡ None) × ((t : ℕ) (after : Machine) → step job.program machine t ≡ Some after → ⊥) }
{}

/// A journal is legal with the rows of a lock page exactly where it is legal without them, whoever asks getting the mutex,
/// and each lock that was got has its thread in its row. So a journal is judged from left to right, and held against the
/// page when it is closed.
pub fn rows_join()
    ensures join { (job : Job) (rows : Rows) (core : Core) (journal : List Entry) → RowlessFrom job core journal → InRows rows (got_from job core journal) → LegalFrom job rows core journal }
    ensures split { (job : Job) (rows : Rows) (core : Core) (journal : List Entry) → LegalFrom job rows core journal → RowlessFrom job core journal × InRows rows (got_from job core journal) }
{}

/// Every replica takes each cooperative mutex in the order of its rows, races or not.
pub fn rows_followed()
    ensures { (job : Job) (rows : Rows) (number mutex : ℕ) (journal : List Entry) → LegalFrom job rows (opening_core job) journal → (rank thread : ℕ) → slice_get (threads_of mutex (got_in_replica job (opening_core job) number journal)) rank ≡ Some thread → rows mutex rank ≡ Some thread }
{}

/// Where all mutexes that stand in the table are cooperative, a call that is served makes none so but its own, as a job asks.
pub fn one_enters_the_table()
    ensures { OneEnters in_table }
{}
