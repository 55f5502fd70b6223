//! Running a thread of a peer.
ghost use Rattle.std.specs.Prelude.{◌≡◌, ◌⊎◌, ◌+◌, ◌<◌, ℕ, [], true, false, IsTrue, Some, None, IfSome, MatchOption, slice_get};
ghost use Rattle.ro_event.specs.declared.stops.Stop.TheVariants.{Calls};
ghost use Rattle.ro_replica.specs.Runs.{standing_at};
ghost use Rattle.ro_replica.specs.Seen.{replica_of, SameProgram, CanCount};
ghost use Rattle.ro_replica.specs.Views.{is_unstopped};
ghost use Rattle.ro_orders.specs.Turns.{is_lock_or_unlock};
ghost use Rattle.ro_peer.specs.Peers.{is_got};
ghost use Rattle.ro_peer.specs.Gets.{get_of, got_in, is_own_call};
ghost use Rattle.ro_peer.specs.Seen.{peer_of, number_of};
ghost use Rattle.ro_peer.specs.Leases.{waiting_at, PeerRuns, IsRefused, GoesOn, Meets, Permits, KeepsRows, Wins, met_gets};

use crate::answers::{Answer, answer_to};
use crate::locks::{Decision, Locks};
use crate::peers::Peer;
use ro_event::{Call, Function, Stop, Which};

/// Why a run of a thread came back.
#[derive(Clone, Copy, PartialEq, Eq, Debug)]
pub enum Came {
    /// It has run for the whole quantum.
    Quantum,
    /// It stands at a stop that the peer doesn't answer by itself.
    Stopped(Stop),
    /// It stands at the lock of a mutex, by its number, that another thread owns.
    Owned(u32),
    /// It stands at the lock of a free mutex, by its number, that can be got once more.
    Row(u32),
    /// It stands at the lock of a free mutex, by its number, that was got as often as is counted.
    Full(u32),
}

impl Came {
    /// The number of the mutex at whose lock it waits, where it does.
    pub fn waits_at(self) -> Option<u32>
        ensures { result ≡ waiting_at self }
    {
        match self {
            Came::Quantum | Came::Stopped(_) => None,
            Came::Owned(number) | Came::Row(number) | Came::Full(number) => Some(number),
        }
    }
}

/// What a run of a peer's thread came to.
#[derive(Clone, Copy, PartialEq, Eq, Debug)]
pub struct PeerRan {
    /// How many instructions were retired. A call that the peer answered counts as one.
    pub count: u32,
    pub came: Came,
}

/// What a part of a run came to.
#[derive(Clone, Copy, PartialEq, Eq, Debug)]
struct Went {
    count: u32,
    /// Why it came back; `None` where it goes on.
    came: Option<Came>,
}

/// A call on a mutex that the peer answers for.
#[derive(Clone, Copy, PartialEq, Eq, Debug)]
struct OwnCall {
    call: Call,
    /// The mutex's number.
    number: u32,
}

impl Peer {
    /// Runs a thread that is not stopped until it stands at a stop that needs a vote, or for a quantum of instructions. It
    /// answers locks and unlocks of its mutexes by itself, and comes back at a lock that waits.
    pub fn run<L: Locks>(&mut self, locks: &mut L, thread: u32, quantum: u32) -> PeerRan
        requires going { IsTrue (is_unstopped thread (replica_of self.old.replica)) }
        requires countable { CanCount quantum self.old.replica thread }
        requires faultless { self.old.replica.waiting ≡ [] }
        ensures program { SameProgram self.new.replica self.old.replica }
        ensures faultless { self.new.replica.waiting ≡ [] }
        ensures runs { PeerRuns self.old.replica.layout self.old.replica.watchdog quantum thread (L.rows locks.new) (peer_of self.old) (peer_of self.new) result.count result.came }
        ensures keeps { KeepsRows (L.rows locks.old) (L.rows locks.new) }
        ensures knows { KeepsRows (L.known locks.old) (L.known locks.new) }
        ensures stays { L.stays locks.new ≡ L.stays locks.old }
        ensures wins { Wins (L.won locks.old) (L.won locks.new) self.old.mutexes (got_in self.old.replica.layout self.old.replica.watchdog result.count (peer_of self.old) thread) }
        ensures refused { IsRefused (L.refused locks.new) thread self.new.mutexes result.came }
    {
        let mut count = 0;
        'parts: loop {
            let went = self.go_on(locks, thread, quantum - count);
            count += went.count;
            if let Some(came) = went.came {
                return PeerRan { count, came };
            }
        }
    }

    // Runs the thread to a stop, and answers it where it is a call of the peer's own.
    fn go_on<L: Locks>(&mut self, locks: &mut L, thread: u32, most: u32) -> Went
        requires going { IsTrue (is_unstopped thread (replica_of self.old.replica)) }
        requires countable { CanCount most self.old.replica thread }
        requires faultless { self.old.replica.waiting ≡ [] }
        ensures program { SameProgram self.new.replica self.old.replica }
        ensures faultless { self.new.replica.waiting ≡ [] }
        ensures goes { GoesOn self.old.replica.layout self.old.replica.watchdog most thread (L.rows locks.new) (peer_of self.old) (peer_of self.new) result.count result.came }
        ensures keeps { KeepsRows (L.rows locks.old) (L.rows locks.new) }
        ensures knows { KeepsRows (L.known locks.old) (L.known locks.new) }
        ensures stays { L.stays locks.new ≡ L.stays locks.old }
        ensures wins { Wins (L.won locks.old) (L.won locks.new) self.old.mutexes (got_in self.old.replica.layout self.old.replica.watchdog result.count (peer_of self.old) thread) }
        ensures refused { IfSome result.came (λ came. IsRefused (L.refused locks.new) thread self.new.mutexes came) }
    {
        let ran = self.replica.run(thread, most);
        let Some(stop) = ran.stop else {
            return Went {
                count: ran.count,
                came: Some(Came::Quantum),
            };
        };
        let Some(own) = self.own_call(stop) else {
            return Went {
                count: ran.count,
                came: Some(Came::Stopped(stop)),
            };
        };
        self.replica.forget_stop(thread);
        match self.meet(locks, thread, own) {
            None => Went {
                count: ran.count + 1,
                came: None,
            },
            came => Went {
                count: ran.count,
                came,
            },
        }
    }

    // The call of a stop, if the peer answers it.
    fn own_call(&self, stop: Stop) -> Option<OwnCall>
        ensures { MatchOption result (is_own_call self.now.mutexes stop ≡ false) (λ own. (stop ≡ Calls own.call) × (is_lock_or_unlock own.call.which ≡ true) × (number_of self.now.mutexes own.call.a0 ≡ Some own.number) × (own.number < 256)) }
    {
        let Stop::Calls(call) = stop else {
            return None;
        };
        if !is_lock_or_unlock(call.which) {
            return None;
        }
        let Some(number) = self.mutexes.number(call.a0) else {
            return None;
        };
        Some(OwnCall { call, number })
    }

    // Answers a call at which a thread stands, unless it waits.
    fn meet<L: Locks>(&mut self, locks: &mut L, thread: u32, own: OwnCall) -> Option<Came>
        requires standing { standing_at self.old.replica.layout self.old.replica.watchdog (replica_of self.old.replica) thread ≡ Some (Calls own.call) }
        requires locks { is_lock_or_unlock own.call.which ≡ true }
        requires number { number_of self.old.mutexes own.call.a0 ≡ Some own.number }
        requires small { own.number < 256 }
        requires thread { thread < 16 }
        requires countable { CanCount 1 self.old.replica thread }
        ensures program { SameProgram self.new.replica self.old.replica }
        ensures waiting { self.new.replica.waiting ≡ self.old.replica.waiting }
        ensures meets { Meets self.old.replica.layout self.old.replica.watchdog thread (L.rows locks.new) (peer_of self.old) (peer_of self.new) result }
        ensures keeps { KeepsRows (L.rows locks.old) (L.rows locks.new) }
        ensures knows { KeepsRows (L.known locks.old) (L.known locks.new) }
        ensures stays { L.stays locks.new ≡ L.stays locks.old }
        ensures wins { Wins (L.won locks.old) (L.won locks.new) self.old.mutexes (met_gets result (get_of self.old.replica.layout (peer_of self.old) thread)) }
        ensures refused { IfSome result (λ came. IsRefused (L.refused locks.new) thread self.new.mutexes came) }
    {
        let mutex = self.mutexes.mutex(own.number);
        let Answer::Answers { change, value } = answer_to(own.call.which, thread, mutex.owner)
        else {
            return Some(Came::Owned(own.number));
        };
        let came = permit(locks, change, own.number, mutex.rank, thread);
        if came.is_some() {
            return came;
        }
        self.replica.answer(thread, own.call, value);
        self.mutexes.change(own.number, change);
        self.answered[thread as usize] = true;
        None
    }
}

/// Whether a call is a lock or an unlock of a mutex.
pub(crate) fn is_lock_or_unlock(which: Which) -> bool
    ensures { result ≡ is_lock_or_unlock which }
{
    matches!(which, Which::Function(Function::Lock | Function::Unlock))
}

// Asks for the row where a thread gets a mutex by a change.
fn permit<L: Locks>(
    locks: &mut L,
    change: Option<Option<u32>>,
    number: u32,
    rank: u32,
    thread: u32,
) -> Option<Came>
    requires number { number < 256 }
    requires thread { thread < 16 }
    ensures permits { Permits (L.rows locks.new) change number rank thread result }
    ensures refused { (at : ℕ) → result ≡ Some (Came.Row at) → L.refused locks.new number rank thread }
    ensures keeps { KeepsRows (L.rows locks.old) (L.rows locks.new) }
    ensures knows { KeepsRows (L.known locks.old) (L.known locks.new) }
    ensures stays { L.stays locks.new ≡ L.stays locks.old }
    ensures wins { (other at owner : ℕ) → L.won locks.new other at owner → L.won locks.old other at owner ⊎ ((result ≡ None) × (is_got change ≡ true) × (other ≡ number) × (at ≡ rank) × (owner ≡ thread)) }
{
    let Some(Some(_)) = change else {
        return None;
    };
    if rank == u32::MAX {
        return Some(Came::Full(number));
    }
    match locks.decide(number, rank, thread) {
        Decision::Asker => None,
        Decision::Other => Some(Came::Row(number)),
    }
}
