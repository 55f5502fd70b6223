//! Votes, and the calls that are served after one.
ghost use Rattle.std.specs.Prelude.{◌≡◌, ◌⊎◌, ◌<◌, ◌≤◌, ◌∷◌, ◌++◌, ℕ, List, [], Some, None, true, false, is_some, IfOk, IfSome, OnErr, OnOk, length};
ghost use Rattle.ro_vote.specs.Verdict.{verdict_of, Split};
ghost use Rattle.ro_legal.specs.Core.{may_vote, may_free, views_of};
ghost use Rattle.ro_legal.specs.Legal.{IsAllowed, output_of};
ghost use Rattle.ro_core.specs.Fields.{blocked_at, Holds, AreSpared, split_end};
ghost use Rattle.ro_core.specs.Seen.{Appends, IsOfMajority, Stays};
ghost use Rattle.ro_legal.specs.Decides.{DecidesVote, DecidesFree, IsSplit};
ghost use Rattle.ro_core.specs.Runs.{fields_of, job_of, state_of, silent, payload_by, MakesRoom, IsHeld, CanOccur, LastWrote};

use crate::choosing::{calm_behind, unblocked_behind};
use crate::cores::Core;
use crate::wishing::forgive;
use ro_journal::{Entry, How};
use ro_serving::{Coming, Event, serve};
use ro_vote::{Won, verdict};
use std::alloc::AllocError;

/// What a vote decided: its entry, and the replica whose payload is to be written, if any is.
#[derive(Clone, Copy)]
pub struct Voted {
    pub entry: Entry,
    pub writer: Option<u32>,
}

/// What is to be noted of an event that has changed the kernel.
#[derive(Clone, Copy)]
pub(crate) struct Noted {
    pub thread: u32,
    pub entry: Entry,
    /// By how much the plan grows.
    pub steps: u64,
    /// The replica whose payload is written, if any is.
    pub writer: Option<u32>,
    /// How many threads there were before it.
    pub threads: u32,
}

impl Core {
    /// Votes on a thread that stands still in every replica: its event is done once, and the entry that was appended is answered,
    /// with the replica whose payload is to be sent. Where the views have no majority, or the limit of steps would be passed,
    /// that is an end.
    ///
    /// # Errors
    /// Where there is no memory; nothing has changed then.
    pub fn vote(&mut self, thread: u32) -> Result<Voted, AllocError>
        requires holds { Holds (fields_of self.old) }
        requires may { may_vote (state_of self.old) thread ≡ true }
        ensures holds { Holds (fields_of self.new) }
        ensures entry { IfOk result (λ voted. IsAllowed (job_of self.old) (state_of self.old) voted.entry × DecidesVote (job_of self.old) (state_of self.old) thread voted.entry × Appends (silent self.old) (silent self.new) voted.entry) }
        ensures writer { IfOk result (λ voted. IfSome voted.writer (λ number. number < length (fields_of self.new).views)) }
        ensures wrote { IfOk result (λ voted. LastWrote (fields_of self.new) (output_of (job_of self.old) (fields_of self.old).journal) (payload_by (fields_of self.new).views voted.writer)) }
        ensures majority { IfOk result (λ voted. (payload_by (fields_of self.new).views voted.writer ≡ []) ⊎ IsOfMajority (views_of (job_of self.old) (state_of self.old) thread) (payload_by (fields_of self.new).views voted.writer)) }
        ensures shown { IfOk result (λ voted. IsSplit voted.entry → (fields_of self.new).views ≡ views_of (job_of self.old) (state_of self.old) thread) }
        ensures err { OnErr result (Stays (silent self.old) (silent self.new)) }
    {
        self.seats.show(thread, self.views.as_mut_slice());
        match verdict(self.views.as_slice()) {
            Some(won) => self.hold(thread, won),
            None => Ok(Voted {
                entry: self.split(thread),
                writer: None,
            }),
        }
    }

    /// The payload of the replica that writes.
    pub fn payload(&self, writer: Option<u32>) -> &[u8]
        requires { IfSome writer (λ number. number < length (fields_of self.now).views) }
        ensures { result.now ≡ payload_by (fields_of self.now).views writer }
    {
        match writer {
            Some(number) => self.views[number as usize].payload(),
            None => &[],
        }
    }

    // The run ends by views that have no majority.
    fn split(&mut self, thread: u32) -> Entry
        requires holds { Holds (fields_of self.old) }
        requires may { may_vote (state_of self.old) thread ≡ true }
        requires views { self.old.views.items ≡ views_of (job_of self.old) (state_of self.old) thread }
        requires verdict { verdict_of self.old.views.items ≡ Split }
        ensures holds { Holds (fields_of self.new) }
        ensures allowed { IsAllowed (job_of self.old) (state_of self.old) result }
        ensures decides { DecidesVote (job_of self.old) (state_of self.old) thread result }
        ensures appends { Appends (silent self.old) (silent self.new) result }
        ensures wrote { LastWrote (fields_of self.new) (output_of (job_of self.old) self.old.journal.items) [] }
        ensures views { self.new.views.items ≡ self.old.views.items }
    {
        let how = split_of(self.views.len());
        self.conclude(how)
    }

    // A vote that was won: the limit of steps, then all memory, then the copy and the event.
    fn hold(&mut self, thread: u32, won: Won) -> Result<Voted, AllocError>
        requires held { IsHeld (fields_of self.old) thread won.won won.lost }
        ensures holds { Holds (fields_of self.new) }
        ensures entry { IfOk result (λ voted. IsAllowed (job_of self.old) (state_of self.old) voted.entry × DecidesVote (job_of self.old) (state_of self.old) thread voted.entry × Appends (silent self.old) (silent self.new) voted.entry) }
        ensures writer { IfOk result (λ voted. IfSome voted.writer (λ number. number < length self.new.views.items)) }
        ensures wrote { IfOk result (λ voted. LastWrote (fields_of self.new) (output_of (job_of self.old) self.old.journal.items) (payload_by self.new.views.items voted.writer)) }
        ensures majority { IfOk result (λ voted. (payload_by self.new.views.items voted.writer ≡ []) ⊎ IsOfMajority self.old.views.items (payload_by self.new.views.items voted.writer)) }
        ensures won { IfOk result (λ voted. IsSplit voted.entry → ⊥) }
        ensures err { OnErr result (Stays (silent self.old) (silent self.new)) }
    {
        let view = &self.views[won.won as usize];
        let count = view.since();
        let coming = Coming::of(&self.kernel, thread, view);
        let next = u64::from(count) + coming.did.steps();
        if next > self.settings.limit - self.steps {
            let steps = self.steps;
            let entry = self.conclude(How::Limit { steps, next });
            return Ok(Voted {
                entry,
                writer: None,
            });
        }
        self.prepare()?;
        let threads = self.kernel.made();
        let mut event = Event::nothing(self.alloc, thread);
        coming.happen(self.alloc, &mut self.kernel, thread, &mut event)?;
        self.seats.heal(&won, threads);
        let entry = Entry::Vote {
            thread,
            count,
            won: won.won,
            lost: won.lost,
            did: coming.did,
        };
        let writer = event.writes.then_some(won.won);
        let noted = Noted {
            thread,
            entry,
            steps: next,
            writer,
            threads,
        };
        self.occur(&event, &noted);
        Ok(Voted { entry, writer })
    }

    /// Serves the call on which a thread is blocked, and answers the entry that was appended. Where the limit of steps would
    /// be passed, that is an end.
    ///
    /// # Errors
    /// Where there is no memory; nothing has changed then.
    pub fn free(&mut self, thread: u32) -> Result<Entry, AllocError>
        requires holds { Holds (fields_of self.old) }
        requires may { may_free (job_of self.old) (state_of self.old) thread ≡ true }
        ensures holds { Holds (fields_of self.new) }
        ensures entry { IfOk result (λ entry. IsAllowed (job_of self.old) (state_of self.old) entry × DecidesFree (job_of self.old) (state_of self.old) thread entry × Appends (silent self.old) (silent self.new) entry) }
        ensures output { OnOk result (output_of (job_of self.new) (fields_of self.new).journal ≡ output_of (job_of self.old) (fields_of self.old).journal) }
        ensures err { OnErr result (Stays (silent self.old) (silent self.new)) }
    {
        let Some(call) = self.blocked[thread as usize] else {
            unreachable!()
        };
        if self.steps == self.settings.limit {
            let steps = self.steps;
            return Ok(self.conclude(How::Limit { steps, next: 1 }));
        }
        self.prepare()?;
        let threads = self.kernel.made();
        let mut event = Event::nothing(self.alloc, thread);
        serve(self.alloc, &mut self.kernel, thread, call, &mut event)?;
        let entry = Entry::Free { thread };
        let noted = Noted {
            thread,
            entry,
            steps: 1,
            writer: None,
            threads,
        };
        self.occur(&event, &noted);
        Ok(entry)
    }

    /// Makes room for an entry and the end, and for an event in every replica, each of which is at home.
    pub(crate) fn prepare(&mut self) -> Result<(), AllocError>
        requires holds { Holds (fields_of self.old) }
        requires alone { self.old.leases.items ≡ [] }
        ensures makes { MakesRoom (fields_of self.old) (fields_of self.new) }
        ensures room { OnOk result (2 ≤ (fields_of self.new).places) }
        ensures spared { OnOk result (AreSpared self.new.seats.homes.items) }
    {
        self.journal.reserve(2)?;
        self.seats.reserve()?;
        Ok(())
    }

    // Whether a thread is blocked on a call.
    fn is_blocked(&self, thread: u32) -> bool
        requires { thread < 16 }
        ensures { result ≡ is_some (blocked_at self.now.blocked thread) }
    {
        self.blocked[thread as usize].is_some()
    }

    // An event that has changed the kernel is done in every replica and noted. It stays where it is: to move it would copy it.
    fn occur(&mut self, event: &Event, noted: &Noted)
        requires can { CanOccur self.old (record { thread = noted.now.thread; event = event.now; entry = noted.now.entry; steps = noted.now.steps; writer = noted.now.writer; threads = noted.now.threads }) }
        ensures holds { Holds (fields_of self.new) }
        ensures job { job_of self.new ≡ job_of self.old }
        ensures journal { self.new.journal.items ≡ self.old.journal.items ++ noted.now.entry ∷ [] }
        ensures wrote { LastWrote (fields_of self.new) (output_of (job_of self.old) self.old.journal.items) (payload_by self.old.views.items noted.now.writer) }
        ensures views { self.new.views.items ≡ self.old.views.items }
    {
        let thread = noted.thread;
        let written = self.payload(noted.writer).len();
        let was_blocked = self.is_blocked(thread);
        let stays = leaves_blocked(event, was_blocked);
        self.seats.apply(&event.effect, noted.threads);
        self.journal.push_reserved(noted.entry);
        self.waits.note(thread, was_blocked);
        self.blocked[thread as usize] = event.blocked;
        self.unblocked = unblocked_behind(&self.kernel, &self.blocked, self.unblocked, stays);
        self.calm = calm_behind(&self.waits, &self.kernel, &self.blocked, self.calm, stays);
        self.steps += noted.steps;
        self.sent += written as u64;
        self.wrote = written as u32;
        self.due = event.due;
        forgive(self.wishes.as_mut_slice(), thread, self.settings.replicas);
    }
}

// Whether the calls on which threads are blocked, and which of them would be done, surely stay as they were before an event of a
// thread that was blocked, if it was.
fn leaves_blocked(event: &Event, was_blocked: bool) -> bool
    ensures { result ≡ true → (event.now.moves ≡ false) × (event.now.blocked ≡ None) × (was_blocked ≡ false) }
{
    !event.moves && event.blocked.is_none() && !was_blocked
}

/// How a run of so many replicas ends where their views have no majority.
pub(crate) fn split_of(replicas: usize) -> How
    ensures { result ≡ split_end replicas }
{
    if replicas == 2 {
        How::Differ
    } else {
        How::NoMajority
    }
}
