//! The core: a sequential machine whose journal only grows. It is plain data, and knows no sink.
ghost use Rattle.std.specs.Prelude.{◌≡◌, ◌≢◌, ◌⊎◌, ◌-◌, ◌≤◌, ◌++◌, ◌∷◌, [], ℕ, Some, true};
ghost use Rattle.ro_journal.specs.declared.How.TheVariants.{Differ, NoMajority, Sink as BySink};
ghost use Rattle.ro_journal.specs.declared.Entry.TheVariants.{End};
ghost use Rattle.ro_journal.specs.Plan.{outcome_of};
ghost use Rattle.ro_legal.specs.Core.{is_going};
ghost use Rattle.ro_legal.specs.declared.actions.Action.TheVariants.{End as DoEnd};
ghost use Rattle.ro_legal.specs.Legal.{IsAllowed, MayEnd, EndsAlone, EndsSink, output_of};
ghost use Rattle.ro_legal.specs.Action.{next_action as next, IsNext};
ghost use Rattle.ro_core.specs.Seen.{Appends, KeepsViews};
ghost use Rattle.ro_core.specs.Fields.{Holds, HoldsUnseen};
ghost use Rattle.ro_core.specs.Runs.{fields_of, job_of, state_of, silent};

use crate::seats::Seats;
use crate::wishing::{PageList, Wish};
use ro_event::{Call, View};
use ro_faults::Fault;
use ro_image::Executable;
use ro_journal::{Entry, How, Lease};
use ro_kernel::Kernel;
use ro_legal::Waits;
use ro_replica::LaneBox;
use ro_settings::Settings;
use std::alloc::Global;

/// How many threads a program may make.
pub(crate) const THREADS: usize = ro_limits::MOST_THREADS as usize;

/// The core of a run: what it was opened with, its journal, and what that journal leaves.
pub struct Core {
    pub(crate) image: Executable,
    pub(crate) faults: Vec<Fault>,
    pub(crate) settings: Settings,
    pub(crate) journal: Vec<Entry>,
    pub(crate) seats: Seats,
    pub(crate) leases: Vec<Lease>,
    /// Where pages are lent, for each driver those that its lease has, or none where that has a whole replica.
    pub(crate) lent: Vec<Option<PageList>>,
    /// Where pages are lent, what each thread of each replica wishes.
    pub(crate) wishes: Vec<Wish>,
    /// Lanes for the leases to come.
    pub(crate) lanes: Vec<LaneBox>,
    pub(crate) kernel: Kernel,
    /// Of each thread the voted call on which it is blocked.
    pub(crate) blocked: [Option<Call>; THREADS],
    /// The lowest thread whose call, on which it is blocked, would be done now. Only an event changes which one that is.
    pub(crate) unblocked: Option<u32>,
    /// Until so many votes were held no thread that lives and is not blocked is overdue.
    pub(crate) calm: u64,
    /// The length of the plan so far.
    pub(crate) steps: u64,
    /// How long it was at the last scrub.
    pub(crate) scrubbed: u64,
    /// How long threads have waited.
    pub(crate) waits: Waits,
    /// How many bytes the events wrote.
    pub(crate) sent: u64,
    /// How many of them the last entry's event did.
    pub(crate) wrote: u32,
    pub(crate) due: Option<How>,
    pub(crate) ended: Option<How>,
    /// Room for the views of a vote, one for each replica.
    pub(crate) views: Vec<View>,
    pub(crate) alloc: Global,
}

/// What a core leaves behind.
pub struct Finished {
    /// The image with which it was opened.
    pub image: Executable,
    /// How the run ended, if it did.
    pub how: Option<How>,
    /// Where it ended by a vote of views that had no majority, those views in the order of the replicas.
    pub views: Vec<View>,
    pub journal: Vec<Entry>,
}

impl Core {
    /// Ends the run so, where this end is due or comes alone, be a scrub due or not.
    pub fn end(&mut self, how: How)
        requires holds { Holds (fields_of self.old) }
        requires now { (next (job_of self.old) (state_of self.old) ≡ DoEnd how) ⊎ EndsAlone (job_of self.old) (state_of self.old) how }
        ensures holds { Holds (fields_of self.new) }
        ensures allowed { IsAllowed (job_of self.old) (state_of self.old) (End how) }
        ensures next { (next (job_of self.old) (state_of self.old) ≡ DoEnd how) ⊎ EndsSink (state_of self.old) how → IsNext (job_of self.old) (state_of self.old) (End how) }
        ensures appends { Appends (silent self.old) (silent self.new) (End how) }
        ensures ended { (fields_of self.new).ended ≡ Some how }
    {
        self.sent = sent_behind(self.sent, self.wrote, how);
        self.journal.push_reserved(Entry::End { how });
        self.wrote = 0;
        self.due = None;
        self.ended = Some(how);
    }

    /// Ends the run in the place of a vote, a free or a scrub, with the views that are to be kept.
    pub(crate) fn conclude(&mut self, how: How) -> Entry
        requires holds { HoldsUnseen (fields_of self.old) }
        requires going { is_going (state_of self.old) ≡ true }
        requires allowed { MayEnd (job_of self.old) (state_of self.old) how }
        requires views { KeepsViews (job_of self.old) (self.old.journal.items ++ End how ∷ []) self.old.views.items }
        requires not_sink { (bytes : ℕ) → how ≢ BySink bytes }
        ensures holds { Holds (fields_of self.new) }
        ensures entry { result ≡ End how }
        ensures appends { Appends (silent self.old) (silent self.new) (End how) }
        ensures output { output_of (job_of self.new) self.new.journal.items ≡ output_of (job_of self.old) self.old.journal.items }
        ensures views { self.new.views.items ≡ self.old.views.items }
    {
        let entry = Entry::End { how };
        self.journal.push_reserved(entry);
        self.wrote = 0;
        self.ended = Some(how);
        entry
    }

    /// Hands out the image, how the run ended, if it did, the views of a vote that came to nothing, and the journal.
    pub fn finish(self) -> Finished
        ensures image { result.image ≡ (job_of self).program.image }
        ensures how { Holds (fields_of self) → result.how ≡ outcome_of (fields_of self).journal }
        ensures views { Holds (fields_of self) → KeepsViews (job_of self) (fields_of self).journal result.views.items }
        ensures kept { Holds (fields_of self) → (outcome_of (fields_of self).journal ≡ Some Differ) ⊎ (outcome_of (fields_of self).journal ≡ Some NoMajority) → result.views.items ≡ (fields_of self).views }
        ensures no_views { Holds (fields_of self) → outcome_of (fields_of self).journal ≢ Some Differ → outcome_of (fields_of self).journal ≢ Some NoMajority → result.views.items ≡ [] }
        ensures journal { result.journal.items ≡ (fields_of self).journal }
    {
        let Core {
            image,
            faults: _,
            settings: _,
            journal,
            seats: _,
            leases: _,
            lent: _,
            wishes: _,
            lanes: _,
            kernel: _,
            blocked: _,
            unblocked: _,
            calm: _,
            steps: _,
            scrubbed: _,
            waits: _,
            sent: _,
            wrote: _,
            due: _,
            ended,
            views,
            alloc,
        } = self;
        Finished {
            image,
            how: ended,
            views: kept_views(alloc, ended, views),
            journal,
        }
    }
}

// The views of the last vote, where the run ended by their having no majority.
fn kept_views(alloc: Global, ended: Option<How>, views: Vec<View>) -> Vec<View>
    ensures split { ((ended ≡ Some Differ) ⊎ (ended ≡ Some NoMajority)) → result.items ≡ views.items }
    ensures no_split { ended ≢ Some Differ → ended ≢ Some NoMajority → result.items ≡ [] }
{
    match ended {
        Some(How::Differ | How::NoMajority) => views,
        _ => Vec::new(alloc),
    }
}

// How many of so many bytes are out behind an end, where the last entry wrote some of them: a failing sink took not all of these.
fn sent_behind(sent: u64, wrote: u32, how: How) -> u64
    requires wrote { (taken : ℕ) → how ≡ BySink taken → (taken ≤ wrote) × (wrote ≤ sent) }
    ensures cut { (taken : ℕ) → how ≡ BySink taken → result ≡ sent - (wrote - taken) }
    ensures whole { ((taken : ℕ) → how ≡ BySink taken → ⊥) → result ≡ sent }
{
    match how {
        How::Sink(taken) => sent - u64::from(wrote - taken),
        _ => sent,
    }
}
