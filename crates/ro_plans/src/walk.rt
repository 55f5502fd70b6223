//! A walk over the entries of a journal, which tells the steps that each adds to the plan.
ghost use Rattle.std.specs.Prelude.{◌≡◌, ◌+◌, ◌-◌, ◌*◌, ◌^◌, ◌<◌, ◌≤◌, [], ◌++◌, IfSome, length, replicate, take, slice_index};
ghost use Rattle.ro_journal.specs.Plan.{entry_plan};
ghost use Rattle.ro_plans.specs.First.{steps_of, steps_after, lease_steps};
ghost use Rattle.ro_plans.specs.Plans.{plan_in};
ghost use Rattle.ro_plans.specs.Walks.{Adds, AddsSoMany, IsMade, IsRaised, Knows, Passed, mode_of, stretch_steps, fresh};

use crate::slowly::added_slowly;
use ro_journal::{Entry, Lease};
use ro_settings::Mode;

/// How many replicas a run has at most.
const REPLICAS: usize = 5;

/// How many threads a program has at most.
const THREADS: usize = 16;

/// How many threads all its replicas have.
const PAIRS: usize = REPLICAS * THREADS;

/// Steps of one thread in a row.
#[derive(Clone, Copy, PartialEq, Eq, Debug)]
pub struct Stretch {
    pub thread: u32,
    pub count: u64,
}

/// A walk over the entries of a journal, which tells the steps that each adds to the plan. The steps are never spelled out.
#[derive(Clone, Copy, Debug)]
pub struct Walk {
    /// How the replicas of the journal's run agree.
    mode: Mode,
    /// How many steps the leases of each replica made, thread by thread.
    made: [u64; PAIRS],
    /// The most that those of a replica made, by thread.
    most: [u64; THREADS],
}

impl Walk {
    /// A walk that came past no entry.
    pub fn new(mode: Mode) -> Walk
        ensures mode { mode_of result ≡ mode }
        ensures passed { Passed result [] }
    {
        Walk {
            mode,
            made: [0; PAIRS],
            most: [0; THREADS],
        }
    }

    /// The steps that the journal's entry at a place adds to the plan of those before it, which the walk came past; `None` where
    /// it adds none. Then it came past that entry too, unless the plan has 2^64 steps or more.
    pub fn steps(&mut self, journal: &[Entry], place: usize) -> Option<Stretch>
        requires within { place < length journal.now }
        requires passed { Passed self.old (take place journal.now) }
        ensures adds { Adds (mode_of self.old) journal.now place result }
        ensures some { IfSome result (λ stretch. 0 < stretch.count) }
        ensures mode { mode_of self.new ≡ mode_of self.old }
        ensures passed { length (plan_in (mode_of self.old) (take (place + 1) journal.now)) < 2 ^ 64 → Passed self.new (take (place + 1) journal.now) }
    {
        let entry = journal[place];
        match self.mode {
            Mode::Voted => voted(&entry),
            Mode::Cooperative => self.first(&journal[..place], &entry),
        }
    }

    /// How many steps the journal's entry at a place adds to the plan of those before it, which the walk came past. Then it came
    /// past that entry too, unless the plan has 2^64 steps or more.
    pub fn count(&mut self, journal: &[Entry], place: usize) -> u64
        requires within { place < length journal.now }
        requires passed { Passed self.old (take place journal.now) }
        ensures adds { AddsSoMany (mode_of self.old) journal.now place result }
        ensures mode { mode_of self.new ≡ mode_of self.old }
        ensures passed { length (plan_in (mode_of self.old) (take (place + 1) journal.now)) < 2 ^ 64 → Passed self.new (take (place + 1) journal.now) }
    {
        match self.steps(journal, place) {
            Some(stretch) => stretch.count,
            None => 0,
        }
    }

    // The first steps among those of an entry, by those before it.
    fn first(&mut self, before: &[Entry], entry: &Entry) -> Option<Stretch>
        requires { Knows self.old (steps_of before.now) }
        ensures adds { (steps_after (steps_of before.now) entry.now).first ≡ (steps_of before.now).first ++ stretch_steps result }
        ensures some { IfSome result (λ stretch. 0 < stretch.count) }
        ensures mode { self.new.mode ≡ self.old.mode }
        ensures knows { length (steps_after (steps_of before.now) entry.now).first < 2 ^ 64 → Knows self.new (steps_after (steps_of before.now) entry.now) }
    {
        match *entry {
            Entry::Put { lease, count, .. } | Entry::Part { lease, count, .. } => {
                let added = self.came_back(before, lease, count);
                in_a_row(lease.thread, added)
            }
            Entry::Vote { thread, did, .. } => in_a_row(thread, did.steps()),
            Entry::Free { thread } => in_a_row(thread, 1),
            Entry::Take(_) | Entry::Scrub { .. } | Entry::End { .. } => None,
        }
    }

    // How many of so many steps of a lease that came back are first ones.
    fn came_back(&mut self, before: &[Entry], lease: Lease, count: u32) -> u64
        requires { Knows self.old (steps_of before.now) }
        ensures fresh { result ≡ fresh lease count (steps_of before.now) }
        ensures mode { self.new.mode ≡ self.old.mode }
        ensures knows { length (lease_steps lease count (steps_of before.now)).first < 2 ^ 64 → Knows self.new (lease_steps lease count (steps_of before.now)) }
    {
        let replica = lease.replica as usize;
        let thread = lease.thread as usize;
        if replica < REPLICAS && thread < THREADS {
            return self.add(replica, thread, u64::from(count));
        }
        // of a replica or a thread that no run has nothing is kept
        let added = added_slowly(before, lease, count);
        self.raise(thread, added);
        added
    }

    // How many of so many steps of a replica's thread are first ones.
    fn add(&mut self, replica: usize, thread: usize, count: u64) -> u64
        requires replica { replica < 5 }
        requires thread { thread < 16 }
        requires behind { slice_index self.old.made (replica * 16 + thread) ≤ slice_index self.old.most thread }
        ensures added { result ≡ count - (slice_index self.old.most thread - slice_index self.old.made (replica * 16 + thread)) }
        ensures mode { self.new.mode ≡ self.old.mode }
        ensures made { slice_index self.old.most thread + result < 2 ^ 64 → IsMade self.old.made replica thread count self.new.made }
        ensures most { slice_index self.old.most thread + result < 2 ^ 64 → IsRaised self.old.most thread result self.new.most }
    {
        let pair = replica * THREADS + thread;
        let made = self.made[pair];
        let added = count.saturating_sub(self.most[thread] - made);
        self.made[pair] = made.saturating_add(count);
        self.raise(thread, added);
        added
    }

    // The most of a thread, where it is one that a program has, by so many.
    fn raise(&mut self, thread: usize, added: u64)
        ensures mode { self.new.mode ≡ self.old.mode }
        ensures made { self.new.made ≡ self.old.made }
        ensures most { (thread < 16 → slice_index self.old.most thread + added < 2 ^ 64) → IsRaised self.old.most thread added self.new.most }
    {
        if thread < THREADS {
            self.most[thread] = self.most[thread].saturating_add(added);
        }
    }
}

// So many steps of a thread, unless there are none.
fn in_a_row(thread: u32, count: u64) -> Option<Stretch>
    ensures steps { stretch_steps result ≡ replicate count thread }
    ensures some { IfSome result (λ stretch. 0 < stretch.count) }
{
    if count == 0 {
        None
    } else {
        Some(Stretch { thread, count })
    }
}

// The steps of an entry of a run by votes.
fn voted(entry: &Entry) -> Option<Stretch>
    ensures steps { stretch_steps result ≡ entry_plan entry.now }
    ensures some { IfSome result (λ stretch. 0 < stretch.count) }
{
    match *entry {
        Entry::Vote {
            thread,
            count,
            did,
            ..
        } => in_a_row(thread, u64::from(count) + did.steps()),
        Entry::Free { thread } => in_a_row(thread, 1),
        Entry::Take(_)
        | Entry::Put { .. }
        | Entry::Part { .. }
        | Entry::Scrub { .. }
        | Entry::End { .. } => None,
    }
}
