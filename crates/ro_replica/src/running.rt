//! Running a thread of a replica, with the faults that are due.
ghost use Rattle.std.specs.Prelude.{◌≡◌, ◌+◌, ◌-◌, ◌<◌, ◌≤◌, ℕ, [], true, false, IsTrue, length, filter};
ghost use Rattle.ro_replica.specs.Replica.{changed_at, stop_of};
ghost use Rattle.ro_replica.specs.Runs.{is_due, with_stop};
ghost use Rattle.ro_replica.specs.Rounds.{IsStruck, Leads};
ghost use Rattle.ro_replica.specs.Views.{is_unstopped};
ghost use Rattle.ro_replica.specs.Seen.{replica_of, SameProgram, CanCount, Runs};

use crate::replicas::Replica;
use crate::waiting::Waiting;
use ro_event::Stop;
use ro_faults::Fault;

/// What a run of a replica's thread came to.
#[derive(Clone, Copy, Debug, PartialEq, Eq)]
pub struct Ran {
    /// How many instructions were retired.
    pub count: u32,
    /// How many faults were struck.
    pub hit: u32,
    /// Where the thread stands still; none after a whole quantum.
    pub stop: Option<Stop>,
}

impl Replica {
    /// Runs a thread that is not stopped until it stands at a stop, or for a quantum of instructions. Each fault whose moment
    /// comes is struck, in the list's order.
    pub fn run(&mut self, thread: u32, quantum: u32) -> Ran
        requires going { IsTrue (is_unstopped thread (replica_of self.old)) }
        requires countable { CanCount quantum self.old thread }
        ensures program { SameProgram self.new self.old }
        ensures runs { Runs self.old.layout self.old.watchdog quantum thread (replica_of self.old) (replica_of self.new) result.count result.hit result.stop }
        ensures stands { stop_of (replica_of self.new) thread ≡ result.stop }
    {
        let hit = self.strike(thread);
        let mut ran = Ran {
            count: 0,
            hit,
            stop: None,
        };
        while ran.count < quantum && ran.stop.is_none() {
            let more = self.go_on(thread, quantum - ran.count);
            ran.count += more.count;
            ran.hit += more.hit;
            ran.stop = more.stop;
        }
        self.set_stop(thread, ran.stop);
        ran
    }

    // Runs a thread of which no fault is due to the moment of the next one, and strikes what is due there. It runs for `most`
    // instructions at most.
    fn go_on(&mut self, thread: u32, most: u32) -> Ran
        requires thread { thread < length self.old.threads }
        requires some { 0 < most }
        requires countable { CanCount most self.old thread }
        requires struck { IsStruck self.old.layout (replica_of self.old) thread }
        ensures program { SameProgram self.new self.old }
        ensures threads { length self.new.threads ≡ length self.old.threads }
        ensures fewer { result.hit + length self.new.waiting ≡ length self.old.waiting }
        ensures most { result.count ≤ most }
        ensures countable { CanCount (most - result.count) self.new thread }
        ensures struck { IsStruck self.new.layout (replica_of self.new) thread }
        ensures leads { Leads self.old.layout self.old.watchdog thread most (replica_of self.old) (replica_of self.new) result.count result.hit result.stop }
    {
        let ran = self.advance(thread, most);
        Ran {
            count: ran.count,
            hit: self.strike(thread),
            stop: ran.stop,
        }
    }

    // Runs a thread of which no fault is due to the moment of the next one.
    fn advance(&mut self, thread: u32, most: u32) -> ro_thread::RunEnd
        requires thread { thread < length self.old.threads }
        requires some { 0 < most }
        requires countable { CanCount most self.old thread }
        requires struck { IsStruck self.old.layout (replica_of self.old) thread }
        ensures program { SameProgram self.new self.old }
        ensures threads { length self.new.threads ≡ length self.old.threads }
        ensures waiting { self.new.waiting ≡ self.old.waiting }
        ensures most { result.count ≤ most }
        ensures countable { CanCount (most - result.count) self.new thread }
        ensures leads { Leads self.old.layout self.old.watchdog thread most (replica_of self.old) (replica_of self.new) result.count 0 result.stop }
    {
        let state = &mut self.threads[thread as usize];
        let until = until_due(&self.waiting, thread, state.done, most);
        ro_thread::run(
            state,
            &mut self.pages,
            &mut self.learnt,
            &self.regions,
            &self.calls,
            until,
            self.watchdog,
        )
    }

    // Writes where a thread stands still.
    fn set_stop(&mut self, thread: u32, stop: Option<Stop>)
        requires { thread < length self.old.threads }
        ensures program { SameProgram self.new self.old }
        ensures stop { replica_of self.new ≡ record (replica_of self.old) { threads = changed_at (with_stop stop) self.old.threads thread } }
    {
        self.threads[thread as usize].stop = stop;
    }
}

// For how many of so many instructions no fault of a thread is due that has retired `done`.
fn until_due(waiting: &Waiting, thread: u32, done: u128, most: u32) -> u32
    ensures most { result ≤ most }
    ensures free { (k : ℕ) → k < result → filter (is_due thread (done + k)) waiting.now ≡ [] }
    ensures some { filter (is_due thread done) waiting.now ≡ [] → 0 < most → 0 < result }
{
    if waiting.is_empty() {
        return most;
    }
    let moment = waiting.moment(thread);
    if done < moment && u128::from(most) <= moment - done {
        return most;
    }
    until_first(waiting.as_slice(), thread, done, most)
}

// The same, by a look at each fault.
#[cold]
#[inline(never)]
fn until_first(waiting: &[Fault], thread: u32, done: u128, most: u32) -> u32
    ensures most { result ≤ most }
    ensures free { (k : ℕ) → k < result → filter (is_due thread (done + k)) waiting.now ≡ [] }
    ensures some { filter (is_due thread done) waiting.now ≡ [] → 0 < most → 0 < result }
{
    let mut until = most;
    for fault in waiting {
        until = until_moment(fault, thread, done, until);
    }
    until
}

// The same for one fault.
fn until_moment(fault: &Fault, thread: u32, done: u128, most: u32) -> u32
    ensures most { result ≤ most }
    ensures free { (k : ℕ) → k < result → is_due thread (done + k) fault.now ≡ false }
    ensures some { is_due thread done fault.now ≡ false → 0 < most → 0 < result }
{
    let at = u128::from(fault.at);
    if fault.thread == thread && done <= at && at - done < u128::from(most) {
        (at - done) as u32
    } else {
        most
    }
}
