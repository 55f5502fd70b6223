//! What comes back as an entry tells, or does not: what entries tell, and peers.
ghost use Rattle.std.specs.Prelude.{◌≡◌, ◌≤◌, ◌<◌, [], IfOk, IfSome, IsTrue, MatchResult, length};
ghost use Rattle.ro_journal.specs.declared.Lease.{Lease as LeaseSeen};
ghost use Rattle.ro_replica.specs.Seen.{CanCount, replica_of};
ghost use Rattle.ro_replica.specs.Views.{is_unstopped};
ghost use Rattle.ro_peer.specs.Leases.{waiting_at};
ghost use Rattle.ro_cores.specs.Loans.{Returns};
ghost use Rattle.ro_audit.specs.Returning.{IsShort, IsUntold, Looks, RunsFor, StandsAsTold, refusal_of, told_entry};

use crate::follower::Why;
use crate::ranks::{Deciding, ForNobody, Rank, Ranks};
use ro_coop_lease::Lent;
use ro_journal::Entry;
use ro_locking::is_below;
use ro_peer::{Came, PeerRan};
use std::alloc::AllocError;

/// How an entry tells that a lease comes back.
#[derive(Clone, Copy)]
pub(crate) struct Told {
    pub count: u32,
    pub hit: u32,
    /// Whether its thread waits, at a lock or for a page.
    pub waits: bool,
}

impl Told {
    /// How an entry tells it by which a lease comes back.
    pub fn of(entry: &Entry) -> Told
        requires { (lease : LeaseSeen) × Returns lease entry.now }
        ensures { (lease : LeaseSeen) → Returns lease entry.now → entry.now ≡ told_entry lease result }
    {
        match *entry {
            Entry::Put { count, hit, .. } => Told {
                count,
                hit,
                waits: false,
            },
            Entry::Part { count, hit, .. } => Told {
                count,
                hit,
                waits: true,
            },
            _ => unreachable!(),
        }
    }

    /// Why a lease doesn't come back so, where its thread stands otherwise.
    pub fn refusal(self) -> Why
        ensures { result ≡ refusal_of self }
    {
        if self.waits { Why::NoPart } else { Why::NoPut }
    }
}

/// Runs the thread of what was lent for so many instructions at most. What it gets counts among what was got.
pub(crate) fn run_for(got: &mut Ranks, lent: &mut Lent, most: u32) -> PeerRan
    requires going { IsTrue (is_unstopped lent.old.lease.thread (replica_of lent.old.partner.peer.replica)) }
    requires countable { CanCount most lent.old.partner.peer.replica lent.old.lease.thread }
    requires faultless { lent.old.partner.peer.replica.waiting ≡ [] }
    ensures { RunsFor most lent.old lent.new got.old got.new result.count result.came }
{
    let thread = lent.lease.thread;
    let partner = &mut lent.partner;
    let mut locks = Deciding::new(got.take(), partner.ceilings.as_slice());
    let ran = partner.peer.run(&mut locks, thread, most);
    *got = locks.into_ranks();
    ran
}

/// Why the thread of what was lent did not run for so many instructions as it was told.
///
/// # Errors
/// Where it may have got one more mutex, and there was no memory for that or no more ranks are counted.
pub(crate) fn why_short(got: &Ranks, lent: &Lent, ran: PeerRan) -> Result<Why, AllocError>
    requires within { IfSome (waiting_at ran.came) (λ number. number < length lent.now.partner.peer.mutexes) }
    ensures { IfOk result (IsShort got.now lent.now ran.count ran.came) }
{
    let PeerRan { count, came } = ran;
    let alone = Why::Ran { count, hit: 0 };
    match came {
        Came::Quantum | Came::Stopped(_) | Came::Owned(_) => Ok(alone),
        Came::Full(_) => Err(AllocError),
        Came::Row(number) => {
            let rank = lent.partner.peer.mutexes().mutex(number).rank;
            if !is_below(lent.partner.ceilings.as_slice(), number, rank) {
                return Ok(alone);
            }
            match got.taker(Rank { number, rank }) {
                Some(taker) if taker != lent.lease.thread => Ok(Why::OtherGot),
                _ => Err(AllocError),
            }
        }
    }
}

/// What the thread of what was lent comes back by, where it has run for as many instructions as it was told, or why it doesn't come
/// back so.
pub(crate) fn end_as_told(lent: &mut Lent, told: Told) -> Result<Came, Why>
    requires within { told.count ≤ lent.old.quantum }
    requires going { IsTrue (is_unstopped lent.old.lease.thread (replica_of lent.old.partner.peer.replica)) }
    requires countable { told.count < lent.old.quantum → CanCount 1 lent.old.partner.peer.replica lent.old.lease.thread }
    requires faultless { lent.old.partner.peer.replica.waiting ≡ [] }
    ensures { MatchResult result (StandsAsTold told lent.old lent.new) (λ why. (why ≡ refusal_of told) × IsUntold told lent.old) }
{
    if told.hit != 0 {
        return Err(told.refusal());
    }
    let came = if told.count < lent.quantum {
        let ran = look(lent);
        if ran.count != 0 {
            return Err(told.refusal());
        }
        ran.came
    } else {
        Came::Quantum
    };
    if came.waits_at().is_some() != told.waits {
        return Err(told.refusal());
    }
    Ok(came)
}

// Runs the thread for one more instruction, by which it gets nothing.
fn look(lent: &mut Lent) -> PeerRan
    requires going { IsTrue (is_unstopped lent.old.lease.thread (replica_of lent.old.partner.peer.replica)) }
    requires countable { CanCount 1 lent.old.partner.peer.replica lent.old.lease.thread }
    requires faultless { lent.old.partner.peer.replica.waiting ≡ [] }
    ensures { Looks lent.old lent.new result.count result.came }
{
    let thread = lent.lease.thread;
    lent.partner.peer.run(&mut ForNobody, thread, 1)
}
