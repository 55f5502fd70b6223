//! Which threads stand still, kept beside the replicas.
ghost use Rattle.std.specs.Prelude.{ℕ, ◌≡◌, ◌≢◌, ◌≤◌, ◌<◌, ◌↔◌, List, Some, true, false, is_some, length};
ghost use Rattle.ro_journal.specs.Losers.{numbers};
ghost use Rattle.ro_kernel.specs.Kernel.{Kernel as KernelSeen};
ghost use Rattle.ro_vote.specs.Numbers.{is_among};
ghost use Rattle.ro_replica.specs.Replica.{Replica as ReplicaSeen, stop_of};
ghost use Rattle.ro_replica.specs.Seen.{replica_of};
ghost use Rattle.ro_legal.specs.Core.{Job};
ghost use Rattle.ro_legal.specs.Event.{all_applied};
ghost use Rattle.ro_core.specs.Fields.{AreHome};
ghost use Rattle.ro_core.specs.Grouped.{AreGrouped, AreMade, Returns, Copies, CopiesRow, CopiesStop, Releases, Settles, SettlesSeat, SettlesStop};
ghost use Rattle.ro_legal.specs.Sound.{BacksNone, FaultsWait};

use crate::seats::is_stopped;
use ro_event::{Effect, Stop};
use ro_group::Groups;
use ro_journal::Lost;
use ro_replica::ReplicaBox;

/// Notes a thread of a replica that comes back, if it came to a stop.
pub(crate) fn note_return(groups: &mut Groups, replica: u32, thread: u32, lent: &ReplicaBox)
    requires replica { replica < length groups.old }
    requires thread { thread < 16 }
    ensures { Returns replica thread (is_some (stop_of (replica_of lent.now) thread)) groups.old groups.new }
{
    if lent.stop(thread).is_some() {
        groups.note(replica, thread);
    }
}

/// Notes a thread of a replica that comes back, if it stands at a stop.
pub(crate) fn note_stop(groups: &mut Groups, replica: u32, thread: u32, stop: Option<Stop>)
    requires replica { replica < length groups.old }
    requires thread { thread < 16 }
    ensures { Returns replica thread (is_some stop) groups.old groups.new }
{
    if stop.is_some() {
        groups.note(replica, thread);
    }
}

/// The losers' threads stand still where the winner's do.
pub(crate) fn copy_stops(groups: &mut Groups, won: u32, lost: Lost, threads: u32)
    requires won { won < length groups.old }
    requires lost { (loser : ℕ) → is_among (numbers lost) loser ≡ true → (loser < length groups.old) × (won ≢ loser) }
    requires threads { threads ≤ 16 }
    ensures { Copies won (numbers lost) threads groups.old groups.new }
{
    match lost {
        Lost::Nobody => {}
        Lost::One(loser) => copy_row(groups, won, loser, threads),
        Lost::Two(first, second) => {
            copy_row(groups, won, first, threads);
            copy_row(groups, won, second, threads);
        }
    }
}

// One replica's threads stand still where another's do.
fn copy_row(groups: &mut Groups, from: u32, to: u32, threads: u32)
    requires from { from < length groups.old }
    requires to { to < length groups.old }
    requires differ { from ≢ to }
    requires threads { threads ≤ 16 }
    ensures { CopiesRow from to threads groups.old groups.new }
{
    for thread in 0..threads {
        copy_stop(groups, from, to, thread);
    }
}

fn copy_stop(groups: &mut Groups, from: u32, to: u32, thread: u32)
    requires from { from < length groups.old }
    requires to { to < length groups.old }
    requires thread { thread < 16 }
    ensures { CopiesStop from to thread groups.old groups.new }
{
    if groups.stopped(from, thread) {
        groups.note(to, thread);
    } else {
        groups.cancel(to, thread);
    }
}

/// What an effect that was applied in every replica did to the threads that stood still: its own may be released, and
/// page faults are settled where it backed pages.
pub(crate) fn regroup(
    seats: &[Option<ReplicaBox>],
    groups: &mut Groups,
    effect: &Effect,
    replicas: u32,
    threads: u32,
)
    requires seats { length seats.now ≡ replicas }
    requires groups { length groups.old ≡ replicas }
    requires thread { effect.now.thread < 16 }
    requires threads { threads ≤ 16 }
    ensures { (job : Job) (kernel : KernelSeen) (before : List ReplicaSeen) → AreGrouped before groups.old → AreMade threads before → FaultsWait before → AreHome job kernel seats.now (all_applied effect.now before) → AreGrouped (all_applied effect.now before) groups.new }
{
    release(groups, effect);
    if backs_pages(effect) {
        settle(seats, groups, replicas, threads);
    }
}

// Whether an effect backs pages, if they aren't yet.
fn backs_pages(effect: &Effect) -> bool
    ensures { (result ≡ false) ↔ BacksNone effect.now }
{
    effect.page.is_some() || !effect.bytes.is_empty()
}

// An effect's thread, if it is released, stands still nowhere.
fn release(groups: &mut Groups, effect: &Effect)
    requires { effect.now.thread < 16 }
    ensures { Releases effect.now groups.old groups.new }
{
    if effect.releases {
        groups.release(effect.thread);
    }
}

// Threads that don't stand still any more are cancelled.
fn settle(seats: &[Option<ReplicaBox>], groups: &mut Groups, replicas: u32, threads: u32)
    requires seats { length seats.now ≡ replicas }
    requires groups { length groups.old ≡ replicas }
    requires threads { threads ≤ 16 }
    ensures { Settles seats.now replicas threads groups.old groups.new }
{
    for replica in 0..replicas {
        settle_seat(&seats[replica as usize], groups, replica, threads);
    }
}

fn settle_seat(seat: &Option<ReplicaBox>, groups: &mut Groups, replica: u32, threads: u32)
    requires replica { replica < length groups.old }
    requires threads { threads ≤ 16 }
    ensures { SettlesSeat seat.now replica threads groups.old groups.new }
{
    for thread in 0..threads {
        settle_stop(seat, groups, replica, thread);
    }
}

fn settle_stop(seat: &Option<ReplicaBox>, groups: &mut Groups, replica: u32, thread: u32)
    requires replica { replica < length groups.old }
    requires thread { thread < 16 }
    ensures { SettlesStop seat.now replica thread groups.old groups.new }
{
    if groups.stopped(replica, thread) && !is_stopped(seat, thread) {
        groups.cancel(replica, thread);
    }
}
