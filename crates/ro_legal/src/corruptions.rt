//! What holds of every legal journal, whatever becomes of a replica between its entries and in them.
ghost use Rattle.std.specs.Prelude.{◌≡◌, ◌<◌, ◌≤◌, ◌+◌, ℕ, List, Some, slice_get};
ghost use Rattle.ro_replica.specs.Replica.{Replica};
ghost use Rattle.ro_legal.specs.Core.{Job, opening_core};
ghost use Rattle.ro_legal.specs.Upsets.{Moment, Possible, AreNextFrom, core_of};

/// The same pages are backed in every replica, a corrupted one among them.
pub fn corrupted_pages_are_the_same()
    ensures { (job : Job) (moments : List Moment) → Possible job moments → (number other : ℕ) (one two : Replica) → slice_get (core_of job moments).replicas number ≡ Some one → slice_get (core_of job moments).replicas other ≡ Some two → one.backed ≡ two.backed }
{}

/// Scrubs that are asked for come in time, whatever becomes of a replica: where each entry is what the core does next, the
/// plan grows by no more than the scrub's number and the watchdog's together from one scrub to the next.
pub fn scrubs_come_in_time_still()
    ensures { (job : Job) → 0 < job.settings.scrub → (moments : List Moment) → Possible job moments → AreNextFrom job (opening_core job) moments → (core_of job moments).steps ≤ (core_of job moments).scrubbed + job.settings.scrub + job.settings.watchdog }
{}
