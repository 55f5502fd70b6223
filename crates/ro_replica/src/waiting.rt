//! The faults that wait to be struck, and for each thread a moment before which none comes.
ghost use Rattle.std.specs.Prelude.{◌≡◌, ◌≤◌, ◌<◌, ◌+◌, ◌^◌, ◌==◌, ◌&&◌, ℕ, List, [], true, nat_le, not, length, slice_index_or};
ghost use Rattle.std.specs.List.{All, filter, list_any};
ghost use Rattle.ro_faults.specs.declared.Fault.{Fault as FaultSeen};
ghost use Rattle.ro_replica.specs.Runs.{is_due};
ghost use Rattle.ro_replica.specs.Seen.{AreLater};

use crate::opening::PLACES;
use ro_faults::Fault;
use std::marker::Model;

/// Faults that wait. That none of a thread comes before a moment is learnt where its faults are looked at, so that looking
/// again before that moment costs one comparison, however many wait.
#[derive(Drop)]
pub(crate) struct Waiting {
    faults: Vec<Fault>,
    /// Of each thread a count of retired instructions that no fault of it comes before.
    moments: [u64; PLACES],
}

impl Model for Waiting {
    ghost use Rattle.std.specs.Prelude.{List};
    ghost use Rattle.ro_faults.specs.declared.Fault.{Fault};
    ghost use Rattle.ro_replica.specs.Seen.{AreLater};

    ghost Value = { List Fault };

    ghost view = { λ w. w.faults.items };

    ghost invariant = { λ w. AreLater w.moments w.faults.items };
}

impl Waiting {
    /// Faults of which nothing is known yet.
    pub(crate) fn new(faults: Vec<Fault>) -> Waiting
        ensures { result ≡ faults.items }
    {
        Waiting {
            faults,
            moments: [0; PLACES],
        }
    }

    /// The faults, in the order of the list that they came from.
    pub(crate) fn as_slice(&self) -> &[Fault]
        ensures { result.now ≡ self.now }
    {
        self.faults.as_slice()
    }

    /// How many they are.
    pub(crate) fn len(&self) -> usize
        ensures { result ≡ length self.now }
    {
        self.faults.len()
    }

    /// The fault at a place of the list.
    pub(crate) fn at(&self, place: usize) -> Fault
        requires { place < length self.now }
        ensures { result ≡ slice_index_or self.now place result }
    {
        self.faults[place]
    }

    /// A count of retired instructions before which no fault of a thread is due.
    pub(crate) fn moment(&self, thread: u32) -> u128
        ensures { (done : ℕ) → done < result → filter (is_due thread done) self.now ≡ [] }
    {
        if (thread as usize) < PLACES {
            u128::from(self.moments[thread as usize])
        } else {
            0
        }
    }

    /// Whether no faults wait at all.
    pub(crate) fn is_empty(&self) -> bool
        ensures { result ≡ true → self.now ≡ [] }
    {
        self.faults.is_empty()
    }

    /// Whether it is known that none is due of a thread that has retired so many instructions.
    pub(crate) fn is_known_free(&self, thread: u32, done: u128) -> bool
        ensures { result ≡ true → filter (is_due thread done) self.now ≡ [] }
    {
        self.is_empty() || done < self.moment(thread)
    }

    /// Whether none is due of a thread that has retired so many instructions, and none in so many more.
    pub(crate) fn is_calm(&self, thread: u32, done: u128, count: u32) -> bool
        ensures { result ≡ not (list_any (λ fault. (fault.thread == thread) && (nat_le done fault.at && nat_le fault.at (done + count))) self.now) }
    {
        !any_within(self.faults.as_slice(), thread, done, count)
    }

    /// The faults of a thread that are due wait no longer.
    pub(crate) fn forget(&mut self, thread: u32, done: u128)
        ensures { self.new ≡ filter (λ fault. not (is_due thread done fault)) self.old }
    {
        retain(&mut self.faults, thread, done);
        let moment = earliest(self.faults.as_slice(), thread);
        set_moment(&mut self.moments, thread, moment);
    }
}

fn retain(faults: &mut Vec<Fault>, thread: u32, done: u128)
    ensures { faults.new.items ≡ filter (λ fault. not (is_due thread done fault)) faults.old.items }
{
    faults.retain(|fault| !is_due(fault, thread, done));
}

fn set_moment(moments: &mut [u64; PLACES], thread: u32, moment: u64)
    ensures { (faults : List FaultSeen) → AreLater moments.old faults → All (λ f. f.thread ≡ thread → moment ≤ f.at) faults → AreLater moments.new faults }
{
    if (thread as usize) < PLACES {
        moments[thread as usize] = moment;
    }
}

// A moment before which no fault of a thread comes.
fn earliest(faults: &[Fault], thread: u32) -> u64
    ensures { All (λ f. f.thread ≡ thread → result ≤ f.at) faults.now }
{
    let mut earliest = u64::MAX;
    for fault in faults {
        earliest = earlier(fault, thread, earliest);
    }
    earliest
}

// The same for one fault.
fn earlier(fault: &Fault, thread: u32, earliest: u64) -> u64
    ensures most { result ≤ earliest }
    ensures its { fault.now.thread ≡ thread → result ≤ fault.now.at }
{
    if fault.thread == thread && fault.at < earliest {
        fault.at
    } else {
        earliest
    }
}

/// Whether one of these faults is due of a thread that has retired so many instructions, or in so many more.
fn any_within(faults: &[Fault], thread: u32, done: u128, count: u32) -> bool
    ensures { result ≡ list_any (λ fault. (fault.thread == thread) && (nat_le done fault.at && nat_le fault.at (done + count))) faults.now }
{
    faults
        .iter()
        .any(|fault| is_within(fault, thread, done, count))
}

/// The same of one fault.
fn is_within(fault: &Fault, thread: u32, done: u128, count: u32) -> bool
    ensures { result ≡ ((fault.now.thread == thread) && (nat_le done fault.now.at && nat_le fault.now.at (done + count))) }
{
    let at = u128::from(fault.at);
    fault.thread == thread && done <= at && at - done <= u128::from(count)
}

/// Whether a fault is one of a thread that has retired so many instructions.
pub(crate) fn is_due(fault: &Fault, thread: u32, done: u128) -> bool
    ensures { result ≡ is_due thread done fault.now }
{
    fault.thread == thread && u128::from(fault.at) == done
}
