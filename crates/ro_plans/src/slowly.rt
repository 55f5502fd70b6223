//! How many steps entries made, by looking at all of them: so a walk need keep nothing of a replica or a thread that no run has.
ghost use Rattle.std.specs.Prelude.{◌≡◌, ◌^◌, ◌<◌};
ghost use Rattle.ro_plans.specs.First.{times, steps_of};
ghost use Rattle.ro_plans.specs.Walks.{fresh, made_by, first_by, served_by};

use ro_journal::{Entry, Lease};

/// How many steps of a lease no replica made before it.
#[cold]
pub(crate) fn added_slowly(before: &[Entry], lease: Lease, count: u32) -> u64
    requires { times lease.thread (steps_of before.now).first < 2 ^ 64 }
    ensures { result ≡ fresh lease count (steps_of before.now) }
{
    let first = made_first(before, lease.thread);
    fresh(before, lease, count, first)
}

/// How many steps of a thread the entries made in a replica.
fn made_in(entries: &[Entry], replica: u32, thread: u32) -> u64
    requires { times thread ((steps_of entries.now).taken replica) < 2 ^ 64 }
    ensures { result ≡ times thread ((steps_of entries.now).taken replica) }
{
    let mut made = 0;
    for entry in entries {
        made += made_by(entry, replica, thread);
    }
    made
}

/// How many steps of a thread an entry makes in a replica.
fn made_by(entry: &Entry, replica: u32, thread: u32) -> u64
    ensures { result ≡ made_by entry.now replica thread }
{
    match *entry {
        Entry::Put { lease, count, .. } | Entry::Part { lease, count, .. } => {
            if replica == lease.replica && lease.thread == thread {
                u64::from(count)
            } else {
                0
            }
        }
        _ => served_by(entry, thread),
    }
}

/// How many of the first steps are a thread's.
fn made_first(entries: &[Entry], thread: u32) -> u64
    requires { times thread (steps_of entries.now).first < 2 ^ 64 }
    ensures { result ≡ times thread (steps_of entries.now).first }
{
    let mut first = 0;
    for place in 0..entries.len() {
        first += first_by(&entries[..place], &entries[place], thread, first);
    }
    first
}

/// How many first steps of a thread an entry adds, behind so many of those before it.
fn first_by(before: &[Entry], entry: &Entry, thread: u32, first: u64) -> u64
    requires { first ≡ times thread (steps_of before.now).first }
    ensures { result ≡ first_by (steps_of before.now) entry.now thread }
{
    match *entry {
        Entry::Put { lease, count, .. } | Entry::Part { lease, count, .. } => {
            if lease.thread == thread {
                fresh(before, lease, count, first)
            } else {
                0
            }
        }
        _ => served_by(entry, thread),
    }
}

/// How many steps of a lease no replica made before it, by how many of its thread some did.
fn fresh(before: &[Entry], lease: Lease, count: u32, first: u64) -> u64
    requires { first ≡ times lease.thread (steps_of before.now).first }
    ensures { result ≡ fresh lease count (steps_of before.now) }
{
    let made = made_in(before, lease.replica, lease.thread);
    u64::from(count).saturating_sub(first - made)
}

/// How many steps of a thread the event of an entry makes in all replicas.
fn served_by(entry: &Entry, thread: u32) -> u64
    ensures { result ≡ served_by entry.now thread }
{
    match *entry {
        Entry::Vote {
            thread: voted,
            did,
            ..
        } => { if voted == thread { did.steps() } else { 0 } }
        Entry::Free { thread: freed } => u64::from(freed == thread),
        _ => 0,
    }
}
