//! What the core does next.
ghost use Rattle.std.specs.Prelude.{◌≡◌, ◌<◌, ◌+◌, ◌^◌, ◌&&◌, ℕ, IfSome, None, length, not, true, false};
ghost use Rattle.std.specs.Option.{option_map_or};
ghost use Rattle.ro_kernel.specs.Serve.{serves};
ghost use Rattle.ro_legal.specs.Core.{is_going, nothing_lent, is_lendable, may_vote, may_free};
ghost use Rattle.ro_legal.specs.Legal.{is_stuck, may_scrub};
ghost use Rattle.ro_legal.specs.Action.{lowest_below, or_else, threads_made, lend_next, turn_next, turn_of, overdue_and, is_urgent, outwaits, most_urgent_below, urgent_next, longest_below, first_freed, first_action, is_scrub_due, scrub_action, next_action as next};
ghost use Rattle.ro_core.specs.Fields.{first_unblocked, Holds, IsCalm};
ghost use Rattle.ro_core.specs.Runs.{fields_of, job_of, state_of};

use crate::cores::{Core, THREADS};
use ro_event::Call;
use ro_journal::How;
use ro_kernel::Kernel;
use ro_legal::{Action, PATIENCE, Waits};

impl Core {
    /// What comes next: an end that is due; else, where nothing is lent, a thread is freed; else one has its turn that has waited
    /// too long; else the lowest thread is voted on, or the lowest of the lowest replica is lent. Of those that can be freed the
    /// lowest is, unless one has waited too long: then the one that has waited longest.
    pub fn next_action(&self) -> Action
        requires holds { Holds (fields_of self.now) }
        ensures next { result ≡ next (job_of self.now) (state_of self.now) }
    {
        if self.ended.is_some() {
            return Action::Over;
        }
        if let Some(how) = self.due {
            return Action::End(how);
        }
        if self.is_scrub_due() {
            return self.scrub_action();
        }
        match self.first_action() {
            Some(action) => action,
            None => {
                if self.leases.is_empty() {
                    Action::End(How::Deadlock)
                } else {
                    Action::Wait
                }
            }
        }
    }

    // Whether so many steps came since the last scrub that the next one is due.
    fn is_scrub_due(&self) -> bool
        requires holds { Holds (fields_of self.now) }
        ensures { result ≡ is_scrub_due (job_of self.now) (state_of self.now) }
    {
        let scrub = self.settings.scrub;
        scrub != 0 && scrub <= self.steps && self.scrubbed <= self.steps - scrub
    }

    // What comes next where a scrub is due: threads are lent until all stand still.
    fn scrub_action(&self) -> Action
        requires holds { Holds (fields_of self.now) }
        ensures { result ≡ scrub_action (state_of self.now) }
    {
        match self.lowest_to_lend() {
            Some(action) => action,
            None if self.leases.is_empty() => Action::Scrub,
            None => Action::Wait,
        }
    }

    // The first of what can be done.
    fn first_action(&self) -> Option<Action>
        requires holds { Holds (fields_of self.now) }
        ensures { result ≡ first_action (job_of self.now) (state_of self.now) }
    {
        if let Some(thread) = self.first_to_free() {
            return Some(Action::Free(thread));
        }
        self.next_turn()
    }

    // The turn of a thread that has waited too long, and else the lowest.
    fn next_turn(&self) -> Option<Action>
        requires holds { Holds (fields_of self.now) }
        ensures { result ≡ or_else (urgent_next (state_of self.now)) (turn_next (state_of self.now)) }
    {
        match self.overdue_next() {
            Some(action) => Some(action),
            None => self.turn_next(),
        }
    }

    // The turn of a thread that has waited too long. Where it is known that there is none, nobody is asked.
    #[inline(always)]
    fn overdue_next(&self) -> Option<Action>
        requires holds { Holds (fields_of self.now) }
        ensures { result ≡ urgent_next (state_of self.now) }
    {
        if self.waits.votes() < self.calm {
            return None;
        }
        self.urgent_next()
    }

    // The vote or the lease of the thread that has waited longest, if one has waited too long and can go on.
    #[cold]
    fn urgent_next(&self) -> Option<Action>
        requires holds { Holds (fields_of self.now) }
        ensures { result ≡ urgent_next (state_of self.now) }
    {
        match self.most_urgent() {
            Some(thread) => self.turn_of(thread),
            None => None,
        }
    }

    // That thread, and of several the lowest.
    fn most_urgent(&self) -> Option<u32>
        requires holds { Holds (fields_of self.now) }
        ensures { result ≡ most_urgent_below (state_of self.now) (threads_made (state_of self.now)) }
    {
        let mut longest = None;
        for thread in 0..self.kernel.made() {
            if self.is_urgent(thread) && self.outwaits(thread, longest) {
                longest = Some(thread);
            }
        }
        longest
    }

    // Whether a thread has waited too long, and can be voted on or lent.
    fn is_urgent(&self, thread: u32) -> bool
        requires holds { Holds (fields_of self.now) }
        requires thread { thread < 16 }
        ensures { result ≡ is_urgent (state_of self.now) thread }
    {
        self.waits.is_overdue(thread) && self.turn_of(thread).is_some()
    }

    // Whether a thread has waited longer than another one, if there is one.
    fn outwaits(&self, thread: u32, other: Option<u32>) -> bool
        requires holds { Holds (fields_of self.now) }
        requires thread { thread < 16 }
        requires other { IfSome other (λ t. t < 16) }
        ensures { result ≡ outwaits (state_of self.now) thread other }
    {
        match other {
            Some(other) => self.waits.waited(other) < self.waits.waited(thread),
            None => true,
        }
    }

    // What can be done for a thread: its vote, and else its lease in the lowest replica.
    fn turn_of(&self, thread: u32) -> Option<Action>
        requires holds { Holds (fields_of self.now) }
        ensures { result ≡ turn_of (state_of self.now) thread }
    {
        if self.may_vote(thread) {
            return Some(Action::Vote(thread));
        }
        for replica in 0..self.settings.replicas {
            if self.is_lendable(replica, thread) {
                return Some(Action::Lend { replica, thread });
            }
        }
        None
    }

    // The lowest vote, and else a lease.
    fn turn_next(&self) -> Option<Action>
        requires holds { Holds (fields_of self.now) }
        ensures { result ≡ turn_next (state_of self.now) }
    {
        match self.lowest_to_vote() {
            Some(thread) => Some(Action::Vote(thread)),
            None => self.lowest_to_lend(),
        }
    }

    // Of the threads that can be freed the one that has waited too long, and longest, else the lowest.
    fn first_to_free(&self) -> Option<u32>
        requires holds { Holds (fields_of self.now) }
        ensures { result ≡ first_freed (job_of self.now) (state_of self.now) }
    {
        let lowest = self.lowest_to_free()?;
        Some(self.longest_to_free().unwrap_or(lowest))
    }

    // Of those that can be freed and have waited too long the one that has waited longest, and of several the lowest.
    fn longest_to_free(&self) -> Option<u32>
        requires holds { Holds (fields_of self.now) }
        ensures { result ≡ longest_below (state_of self.now) (may_free (job_of self.now) (state_of self.now)) (threads_made (state_of self.now)) }
    {
        let mut longest = None;
        for thread in 0..self.kernel.made() {
            if self.is_due_free(thread) && self.outwaits(thread, longest) {
                longest = Some(thread);
            }
        }
        longest
    }

    // Whether a thread has waited too long, and can be freed.
    fn is_due_free(&self, thread: u32) -> bool
        requires holds { Holds (fields_of self.now) }
        requires thread { thread < 16 }
        ensures { result ≡ overdue_and (state_of self.now) (may_free (job_of self.now) (state_of self.now)) thread }
    {
        self.waits.is_overdue(thread) && self.may_free(thread)
    }

    // The lowest that can be freed.
    fn lowest_to_free(&self) -> Option<u32>
        requires holds { Holds (fields_of self.now) }
        ensures { result ≡ lowest_below (threads_made (state_of self.now)) (may_free (job_of self.now) (state_of self.now)) }
    {
        if !self.is_idle() {
            return None;
        }
        self.unblocked
    }

    fn lowest_to_vote(&self) -> Option<u32>
        requires holds { Holds (fields_of self.now) }
        ensures { result ≡ lowest_below (threads_made (state_of self.now)) (may_vote (state_of self.now)) }
    {
        if !self.is_idle() {
            return None;
        }
        for thread in 0..self.kernel.made() {
            if self.can_vote(thread) {
                return Some(thread);
            }
        }
        None
    }

    // The lowest lease of the lowest replica.
    fn lowest_to_lend(&self) -> Option<Action>
        requires holds { Holds (fields_of self.now) }
        ensures { result ≡ lend_next (state_of self.now) }
    {
        for replica in 0..self.settings.replicas {
            if let Some(thread) = self.lowest_lendable(replica) {
                return Some(Action::Lend { replica, thread });
            }
        }
        None
    }

    // The lowest thread that can be lent in a replica.
    fn lowest_lendable(&self, replica: u32) -> Option<u32>
        requires holds { Holds (fields_of self.now) }
        requires replica { replica < length (state_of self.now).replicas }
        ensures { result ≡ lowest_below (threads_made (state_of self.now)) (is_lendable (state_of self.now) replica) }
    {
        for thread in 0..self.kernel.made() {
            if self.is_lendable(replica, thread) {
                return Some(thread);
            }
        }
        None
    }

    /// Whether no end has come, and none must.
    pub fn is_going(&self) -> bool
        requires holds { Holds (fields_of self.now) }
        ensures { result ≡ is_going (state_of self.now) }
    {
        self.due.is_none() && self.ended.is_none()
    }

    /// The call on which a thread is blocked, if it is.
    pub fn blocked_call(&self, thread: u32) -> Option<Call>
        ensures { Holds (fields_of self.now) → result ≡ (state_of self.now).blocked thread }
    {
        match self.blocked.get(thread as usize) {
            Some(call) => *call,
            None => None,
        }
    }

    // Whether the core goes on and nothing is lent.
    fn is_idle(&self) -> bool
        requires holds { Holds (fields_of self.now) }
        ensures { result ≡ (is_going (state_of self.now) && nothing_lent (state_of self.now)) }
    {
        self.is_going() && self.leases.is_empty()
    }

    /// Whether a thread stands still in every replica, and is not blocked.
    pub fn may_vote(&self, thread: u32) -> bool
        requires holds { Holds (fields_of self.now) }
        ensures { result ≡ may_vote (state_of self.now) thread }
    {
        self.is_idle() && self.can_vote(thread)
    }

    // The same where the core goes on and nothing is lent.
    fn can_vote(&self, thread: u32) -> bool
        requires holds { Holds (fields_of self.now) }
        requires idle { is_going (state_of self.now) && nothing_lent (state_of self.now) ≡ true }
        ensures { result ≡ may_vote (state_of self.now) thread }
    {
        match self.blocked_call(thread) {
            Some(_) => false,
            None => self.kernel.lives_on(thread) && self.seats.ready(thread),
        }
    }

    /// Whether the call on which a thread is blocked would be done now.
    pub fn may_free(&self, thread: u32) -> bool
        requires holds { Holds (fields_of self.now) }
        ensures { result ≡ may_free (job_of self.now) (state_of self.now) thread }
    {
        self.is_idle() && self.can_free(thread)
    }

    // The same where the core goes on and nothing is lent.
    fn can_free(&self, thread: u32) -> bool
        requires holds { Holds (fields_of self.now) }
        requires idle { is_going (state_of self.now) && nothing_lent (state_of self.now) ≡ true }
        ensures { result ≡ may_free (job_of self.now) (state_of self.now) thread }
    {
        match self.blocked_call(thread) {
            Some(call) => self.kernel.ready(thread, call),
            None => false,
        }
    }

    /// Whether the replicas may be compared whole: nothing is lent, and nothing can be.
    pub fn may_scrub(&self) -> bool
        requires holds { Holds (fields_of self.now) }
        ensures { result ≡ may_scrub (state_of self.now) }
    {
        self.is_idle() && self.lowest_to_lend().is_none()
    }

    /// Whether nothing can be done.
    pub fn is_stuck(&self) -> bool
        requires holds { Holds (fields_of self.now) }
        ensures { result ≡ is_stuck (job_of self.now) (state_of self.now) }
    {
        self.is_idle() && self.first_action().is_none()
    }

    // Whether a thread may be lent in a replica.
    #[inline(always)]
    pub(crate) fn is_lendable(&self, replica: u32, thread: u32) -> bool
        requires holds { Holds (fields_of self.now) }
        requires replica { replica < length (state_of self.now).replicas }
        ensures { result ≡ is_lendable (state_of self.now) replica thread }
    {
        self.seats.is_unstopped(replica, thread)
            && self.kernel.lives_on(thread)
            && self.offers(replica, thread)
    }
}

/// Until how many votes no thread that lives and is not blocked is overdue: as before an event, where that stays so.
#[inline(always)]
pub(crate) fn calm_behind(
    waits: &Waits,
    kernel: &Kernel,
    blocked: &[Option<Call>; THREADS],
    was: u64,
    stays: bool,
) -> u64
    requires { stays ≡ true → IsCalm kernel.now.kernel blocked.now waits.now was }
    ensures { IsCalm kernel.now.kernel blocked.now waits.now result }
{
    if stays && waits.votes() < was {
        was
    } else {
        calm_until(waits, kernel, blocked)
    }
}

// The same, looked up anew.
fn calm_until(waits: &Waits, kernel: &Kernel, blocked: &[Option<Call>; THREADS]) -> u64
    ensures { IsCalm kernel.now.kernel blocked.now waits.now result }
{
    let mut calm = waits.votes().saturating_add(PATIENCE);
    for thread in 0..kernel.made() {
        if blocked[thread as usize].is_none() && kernel.lives_on(thread) {
            calm = calm.min(waits.since(thread).saturating_add(PATIENCE));
        }
    }
    calm
}

/// The lowest thread whose call, on which it is blocked, would be done now: the one that was it, where that stays so.
pub(crate) fn unblocked_behind(
    kernel: &Kernel,
    blocked: &[Option<Call>; THREADS],
    was: Option<u32>,
    stays: bool,
) -> Option<u32>
    requires { stays ≡ true → was ≡ first_unblocked kernel.now blocked.now }
    ensures { result ≡ first_unblocked kernel.now blocked.now }
{
    if stays {
        was
    } else {
        lowest_unblocked(kernel, blocked)
    }
}

// The lowest thread whose call, on which it is blocked, would be done now.
fn lowest_unblocked(kernel: &Kernel, blocked: &[Option<Call>; THREADS]) -> Option<u32>
    ensures { result ≡ first_unblocked kernel.now blocked.now }
{
    for thread in 0..kernel.made() {
        if goes_on(kernel, thread, blocked[thread as usize]) {
            return Some(thread);
        }
    }
    None
}

// Whether a call on which a thread is blocked, if it is, would be done now.
fn goes_on(kernel: &Kernel, thread: u32, blocked: Option<Call>) -> bool
    ensures { result ≡ option_map_or (λ call. serves kernel.now.setup kernel.now.kernel thread call) blocked false }
{
    match blocked {
        Some(call) => kernel.ready(thread, call),
        None => false,
    }
}
