//! Votes, and the calls that are served after one.
ghost use Rattle.std.specs.Prelude.{◌≡◌, ◌⊎◌, ◌<◌, ◌≤◌, ◌∷◌, ◌++◌, ◌↔◌, IsTrue, ℕ, List, [], Some, None, true, false, is_some, IfOk, IfSome, OnErr, OnOk, length, slice_get};
ghost use Rattle.std.specs.List.{list_all};
ghost use Rattle.std.specs.Option.{option_and_then};
ghost use Rattle.ro_event.specs.Views.{View as ViewSeen, same_view};
ghost use Rattle.ro_journal.specs.declared.Entry.TheVariants.{End};
ghost use Rattle.ro_journal.specs.declared.How.TheVariants.{Differ, Limit};
ghost use Rattle.ro_kernel.specs.Kernel.{lives_on};
ghost use Rattle.ro_kernel.specs.Reserved.{reservation_of};
ghost use Rattle.ro_legal.specs.Core.{may_vote, may_free, views_of};
ghost use Rattle.ro_legal.specs.Cooperative.{IsAllowed, AreAll, AgreeOn, PassesLimit, lapses_alike};
ghost use Rattle.ro_legal.specs.Choices.{DecidesVote, DecidesFree};
ghost use Rattle.ro_coop_core.specs.Fields.{blocked_at, Holds};
ghost use Rattle.ro_coop_core.specs.Seats.{AreSpared};
ghost use Rattle.ro_coop_core.specs.Seen.{Appends, Stays};
ghost use Rattle.ro_coop_core.specs.Runs.{fields_of, job_of, state_of, seen, payload_by, IsAgreed, LastWrote};
ghost use Rattle.ro_coop_core.specs.Amid.{CanOccur, MakesRoom, entering_of, first_answered, lapsed, lapsed_one, newcomer_at, newcomer_of, revived};

use crate::cores::Core;
use crate::seats::{Entering, have_answered_alike, occur_in_all, reserve_all, show_all};
use ro_event::{Call, Stop, View};
use ro_journal::{Entry, How, Lost};
use ro_kernel::Reservation;
use ro_serving::{Coming, Event, serve};
use std::alloc::AllocError;

/// What a vote decided: its entry, and whether the payload is to be written that all views show.
#[derive(Clone, Copy)]
pub struct Voted {
    pub entry: Entry,
    pub writes: bool,
}

/// What is to be noted of an event that has changed the kernel.
#[derive(Clone, Copy)]
struct Noted {
    thread: u32,
    entry: Entry,
    /// How many steps it adds.
    steps: u64,
    writes: bool,
    /// The mutex that it may make cooperative: one that the call was on, and that didn't stand in the table.
    newcomer: Option<u32>,
}

impl Core {
    /// Votes on a thread that stands still in every replica: its event is done once, and the entry that was appended is answered.
    /// Where the replicas don't agree on the thread, or the limit of steps would be passed, that is an end.
    ///
    /// # Errors
    /// Where there is no memory; nothing has changed then.
    pub fn vote(&mut self, thread: u32) -> Result<Voted, AllocError>
        requires holds { Holds (fields_of self.old) }
        requires may { may_vote (state_of self.old) thread ≡ true }
        ensures holds { Holds (fields_of self.new) }
        ensures entry { IfOk result (λ voted. IsAllowed (job_of self.old) (state_of self.old) voted.entry × DecidesVote (job_of self.old) (state_of self.old) thread voted.entry × Appends (seen self.old) (seen self.new) voted.entry) }
        ensures wrote { IfOk result (λ voted. LastWrote (fields_of self.new) (state_of self.old).output (payload_by (fields_of self.new).views voted.writes)) }
        ensures agreed { IfOk result (λ voted. voted.writes ≡ true → (view : ViewSeen) × AgreeOn (job_of self.old) (state_of self.old) thread view × (payload_by (fields_of self.new).views true ≡ view.payload)) }
        ensures shown { IfOk result (λ voted. voted.entry ≡ End Differ → (fields_of self.new).views ≡ views_of (job_of self.old) (state_of self.old) thread) }
        ensures err { OnErr result (Stays (seen self.old) (seen self.new)) }
    {
        show_all(self.seats.as_slice(), thread, self.views.as_mut_slice());
        if self.agree(thread) {
            return self.hold(thread);
        }
        let entry = self.conclude(How::Differ);
        Ok(Voted {
            entry,
            writes: false,
        })
    }

    // Whether the replicas agree on a thread whose views they have shown: these are all one, and the replicas leave the same of the
    // thread's reservation.
    pub(crate) fn agree(&mut self, thread: u32) -> bool
        requires holds { Holds (fields_of self.old) }
        requires may { may_vote (state_of self.old) thread ≡ true }
        ensures same { self.new ≡ self.old }
        ensures agree { IsTrue result ↔ (((view : ViewSeen) × AreAll view self.old.views.items) × IsTrue (lapses_alike (state_of self.old) thread)) }
    {
        are_same(self.views.as_slice()) && self.lapses_alike(thread)
    }

    // Whether the replicas leave the same of a thread's reservation: all of them answered a call of the thread since the kernel last
    // served one, or none did, or it has none that such a call would end.
    fn lapses_alike(&mut self, thread: u32) -> bool
        requires holds { Holds (fields_of self.old) }
        requires may { may_vote (state_of self.old) thread ≡ true }
        ensures same { self.new ≡ self.old }
        ensures alike { result ≡ lapses_alike (state_of self.old) thread }
    {
        have_answered_alike(self.seats.as_slice(), thread) || !self.is_reserving(thread)
    }

    // Whether a thread has a reservation in the kernel, which is taken from it and given back.
    fn is_reserving(&mut self, thread: u32) -> bool
        requires { lives_on self.old.kernel.kernel thread ≡ true }
        ensures same { self.new ≡ self.old }
        ensures is { result ≡ is_some (reservation_of self.old.kernel.kernel.reserved thread) }
    {
        let reservation = self.kernel.release(thread);
        self.kernel.restore(thread, reservation);
        reservation.is_some()
    }

    /// The payload that all views showed, where it is to be written.
    pub fn payload(&self, writes: bool) -> &[u8]
        ensures { result.now ≡ payload_by (fields_of self.now).views writes }
    {
        match self.views.first() {
            Some(view) if writes => view.payload(),
            _ => &[],
        }
    }

    // A vote on which the replicas agree: all memory, then the limit of steps, then the event.
    fn hold(&mut self, thread: u32) -> Result<Voted, AllocError>
        requires agreed { (view : ViewSeen) × IsAgreed (fields_of self.old) thread view }
        ensures holds { Holds (fields_of self.new) }
        ensures entry { IfOk result (λ voted. IsAllowed (job_of self.old) (state_of self.old) voted.entry × DecidesVote (job_of self.old) (state_of self.old) thread voted.entry × Appends (seen self.old) (seen self.new) voted.entry) }
        ensures wrote { IfOk result (λ voted. LastWrote (fields_of self.new) (state_of self.old).output (payload_by (fields_of self.new).views voted.writes)) }
        ensures views { (fields_of self.new).views ≡ (fields_of self.old).views }
        ensures same { IfOk result (λ voted. voted.entry ≡ End Differ → ⊥) }
        ensures err { OnErr result (Stays (seen self.old) (seen self.new)) }
    {
        self.prepare()?;
        let count = self.views[0].since();
        let newcomer = self.newcomer();
        let reservation = self.lapse(thread);
        let coming = Coming::of(&self.kernel, thread, &self.views[0]);
        let steps = coming.did.steps();
        if self.steps + steps > self.settings.limit {
            self.revive(thread, reservation);
            return Ok(self.stop_at_limit(steps));
        }
        let mut event = Event::nothing(self.alloc, thread);
        match coming.happen(self.alloc, &mut self.kernel, thread, &mut event) {
            Ok(()) => {}
            Err(error) => {
                self.revive(thread, reservation);
                return Err(error);
            }
        }
        let entry = Entry::Vote {
            thread,
            count,
            won: 0,
            lost: Lost::Nobody,
            did: coming.did,
        };
        let noted = Noted {
            thread,
            entry,
            steps,
            writes: event.writes,
            newcomer,
        };
        self.occur(&event, &noted);
        Ok(Voted {
            entry,
            writes: event.writes,
        })
    }

    // The end in the place of a vote that would add so many steps.
    fn stop_at_limit(&mut self, next: u64) -> Voted
        requires holds { Holds (fields_of self.old) }
        requires passes { (thread : ℕ) × (may_vote (state_of self.old) thread ≡ true) × PassesLimit (job_of self.old) (state_of self.old) thread self.old.steps next }
        ensures holds { Holds (fields_of self.new) }
        ensures voted { result ≡ record { entry = End (Limit self.old.steps next); writes = false } }
        ensures appends { Appends (seen self.old) (seen self.new) (End (Limit self.old.steps next)) }
        ensures output { (state_of self.new).output ≡ (state_of self.old).output }
        ensures views { (fields_of self.new).views ≡ (fields_of self.old).views }
    {
        let steps = self.steps;
        Voted {
            entry: self.conclude(How::Limit { steps, next }),
            writes: false,
        }
    }

    /// Serves the call on which a thread is blocked, and answers the entry that was appended. Where the limit of steps would
    /// be passed, that is an end.
    ///
    /// # Errors
    /// Where there is no memory; nothing has changed then.
    pub fn free(&mut self, thread: u32) -> Result<Entry, AllocError>
        requires holds { Holds (fields_of self.old) }
        requires may { may_free (job_of self.old) (state_of self.old) thread ≡ true }
        ensures holds { Holds (fields_of self.new) }
        ensures entry { IfOk result (λ entry. IsAllowed (job_of self.old) (state_of self.old) entry × DecidesFree (job_of self.old) (state_of self.old) thread entry × Appends (seen self.old) (seen self.new) entry) }
        ensures output { OnOk result ((state_of self.new).output ≡ (state_of self.old).output) }
        ensures err { OnErr result (Stays (seen self.old) (seen self.new)) }
    {
        let Some(call) = self.blocked[thread as usize] else {
            unreachable!()
        };
        if self.steps >= self.settings.limit {
            let steps = self.steps;
            return Ok(self.conclude(How::Limit { steps, next: 1 }));
        }
        self.prepare()?;
        let newcomer = self.newcomer_by(call);
        let reservation = self.lapse(thread);
        let mut event = Event::nothing(self.alloc, thread);
        match serve(self.alloc, &mut self.kernel, thread, call, &mut event) {
            Ok(()) => {}
            Err(error) => {
                self.revive(thread, reservation);
                return Err(error);
            }
        }
        let entry = Entry::Free { thread };
        let noted = Noted {
            thread,
            entry,
            steps: 1,
            writes: false,
            newcomer,
        };
        self.occur(&event, &noted);
        Ok(entry)
    }

    // Makes room for an entry and the end, and for an event in every replica, each of which is at home.
    fn prepare(&mut self) -> Result<(), AllocError>
        requires holds { Holds (fields_of self.old) }
        requires alone { self.old.leases.items ≡ [] }
        ensures makes { MakesRoom (fields_of self.old) (fields_of self.new) }
        ensures places { OnOk result (2 ≤ (fields_of self.new).places) }
        ensures spared { OnOk result (AreSpared self.new.seats.items) }
    {
        self.journal.reserve(2)?;
        reserve_all(self.seats.as_mut_slice())
    }

    /// Ends a thread's reservation where its replicas answered a call of it, and answers which one it was.
    pub(crate) fn lapse(&mut self, thread: u32) -> Option<Reservation>
        requires { lives_on self.old.kernel.kernel thread ≡ true }
        ensures was { result ≡ lapsed_one (first_answered thread self.old.seats.items) thread self.old.kernel }
        ensures core { self.new ≡ record self.old { kernel = lapsed (first_answered thread self.old.seats.items) thread self.old.kernel } }
    {
        if self.has_answered(thread) {
            self.kernel.release(thread)
        } else {
            None
        }
    }

    /// Gives it back.
    pub(crate) fn revive(&mut self, thread: u32, reservation: Option<Reservation>)
        requires { lives_on self.old.kernel.kernel thread ≡ true }
        ensures { self.new ≡ record self.old { kernel = revived (first_answered thread self.old.seats.items) thread reservation self.old.kernel } }
    {
        if self.has_answered(thread) {
            self.kernel.restore(thread, reservation);
        }
    }

    // Whether replica 0, as any other, answered a call of a thread since the kernel last served one.
    fn has_answered(&self, thread: u32) -> bool
        ensures { result ≡ first_answered thread self.now.seats.items }
    {
        match self.seats.first() {
            Some(seat) => seat.has_answered(thread),
            None => false,
        }
    }

    // The mutex that the event of a vote may make cooperative, by the first view.
    fn newcomer(&self) -> Option<u32>
        ensures { result ≡ option_and_then (λ view. newcomer_of self.now.cooperates self.now.kernel.kernel.owners view.stop) (slice_get self.now.views.items 0) }
    {
        match self.views.first()?.stop() {
            Stop::Calls(call) => self.newcomer_by(*call),
            _ => None,
        }
    }

    // The mutex that the event of a call may make cooperative: one that it is on, and that does not stand in the table.
    fn newcomer_by(&self, call: Call) -> Option<u32>
        ensures { result ≡ newcomer_at self.now.cooperates self.now.kernel.kernel.owners call.a0 }
    {
        if self.cooperates && self.kernel.owner(call.a0).is_none() {
            Some(call.a0)
        } else {
            None
        }
    }

    // Whether a thread is blocked on a call.
    fn is_blocked(&self, thread: u32) -> bool
        requires { thread < 16 }
        ensures { result ≡ is_some (blocked_at self.now.blocked thread) }
    {
        self.blocked[thread as usize].is_some()
    }

    // An event that has changed the kernel is done in every replica and noted.
    fn occur(&mut self, event: &Event, noted: &Noted)
        requires can { CanOccur self.old (record { thread = noted.now.thread; event = event.now; entry = noted.now.entry; steps = noted.now.steps; writes = noted.now.writes; newcomer = noted.now.newcomer }) }
        ensures holds { Holds (fields_of self.new) }
        ensures job { job_of self.new ≡ job_of self.old }
        ensures journal { self.new.journal.items ≡ self.old.journal.items ++ noted.now.entry ∷ [] }
        ensures wrote { LastWrote (fields_of self.new) (state_of self.old).output (payload_by self.old.views.items noted.now.writes) }
        ensures views { self.new.views.items ≡ self.old.views.items }
    {
        let thread = noted.thread;
        let written = self.payload(noted.writes).len();
        let entering = self.entering(noted.newcomer);
        occur_in_all(self.seats.as_mut_slice(), &event.effect, thread, entering);
        self.journal.push_reserved(noted.entry);
        let was_blocked = self.is_blocked(thread);
        self.waits.note(thread, was_blocked);
        self.blocked[thread as usize] = event.blocked;
        self.steps += noted.steps;
        self.sent += written as u64;
        self.wrote = written as u32;
        self.due = event.due;
    }

    // The mutex that became cooperative, if it did.
    fn entering(&self, newcomer: Option<u32>) -> Option<Entering>
        ensures { result ≡ entering_of self.now.kernel.kernel.owners newcomer }
    {
        let address = newcomer?;
        let owner = self.kernel.owner(address)?;
        Some(Entering { address, owner })
    }
}

/// Whether all views are the same.
fn are_same(views: &[View]) -> bool
    ensures { IsTrue result ↔ ((view : ViewSeen) × AreAll view views.now) }
{
    match views.split_first() {
        Some((first, others)) => are_like(first, others),
        None => true,
    }
}

// Whether each of these views is the same as this one.
fn are_like(view: &View, others: &[View]) -> bool
    ensures { result ≡ list_all (λ other. same_view other view.now) others.now }
{
    others.iter().all(|other| other.same(view))
}
