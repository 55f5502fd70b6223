//! What an event does to a peer.
ghost use Rattle.std.specs.Prelude.{◌≡◌, ◌<◌, ◌≤◌, None, OnOk, length, map};
ghost use Rattle.ro_replica.specs.Replica.{changed_at};
ghost use Rattle.ro_replica.specs.Seen.{replica_of, CanApply, Keeps, SameProgram, Widens};
ghost use Rattle.ro_peer.specs.Gets.{is_own_call};
ghost use Rattle.ro_peer.specs.Seen.{number_of, peer_of};
ghost use Rattle.ro_peer.specs.Events.{affected, entering, unanswered, with_entered, without_own};

use crate::mutexes::Mutexes;
use crate::peers::Peer;
use crate::running::is_lock_or_unlock;
use ro_event::{Effect, Stop};
use ro_replica::ReplicaBox;
use std::alloc::AllocError;

impl Peer {
    /// Makes sure that so many pages can be backed with no more memory.
    ///
    /// # Errors
    /// Where there is no memory; nothing has changed then.
    pub fn reserve(&mut self, count: u32) -> Result<(), AllocError>
        ensures keeps { Keeps self.old.replica self.new.replica }
        ensures spare { OnOk result (count ≤ self.new.replica.held.spare) }
        ensures same { (self.new.mutexes ≡ self.old.mutexes) × (self.new.answered ≡ self.old.answered) }
    {
        self.replica.reserve(count)
    }

    /// Does what an event does to a replica, and forgets the page faults that it settles.
    pub fn apply(&mut self, effect: &Effect)
        requires { CanApply effect.now self.old.replica }
        ensures program { Widens effect.now.range self.new.replica self.old.replica }
        ensures affected { peer_of self.new ≡ affected effect.now (peer_of self.old) }
    {
        self.replica.apply(effect);
    }

    /// Answers for a mutex more from now on, and forgets the stops at calls that it answers itself.
    pub fn enter(&mut self, address: u32, owner: Option<u32>)
        requires room { length self.old.mutexes < 256 }
        requires new { number_of self.old.mutexes address ≡ None }
        ensures program { SameProgram self.new.replica self.old.replica }
        ensures entering { peer_of self.new ≡ entering address owner (peer_of self.old) }
    {
        self.mutexes.enter(address, owner);
        forget_own(&mut self.replica, &self.mutexes);
    }

    /// Forgets that it answered calls of a thread: the kernel has served one.
    pub fn forget_answers(&mut self, thread: u32)
        requires { thread < 16 }
        ensures replica { self.new.replica ≡ self.old.replica }
        ensures unanswered { peer_of self.new ≡ unanswered thread (peer_of self.old) }
    {
        self.answered[thread as usize] = false;
    }
}

// Forgets each stop at a call on one of these mutexes.
fn forget_own(replica: &mut ReplicaBox, mutexes: &Mutexes)
    ensures program { SameProgram replica.new replica.old }
    ensures forgotten { replica_of replica.new ≡ record (replica_of replica.old) { threads = map (without_own mutexes.now) replica.old.threads } }
{
    for thread in 0..replica.thread_count() {
        forget_own_of(replica, mutexes, thread);
    }
}

// The same of one thread.
fn forget_own_of(replica: &mut ReplicaBox, mutexes: &Mutexes, thread: u32)
    requires { thread < length replica.old.threads }
    ensures program { SameProgram replica.new replica.old }
    ensures forgotten { replica_of replica.new ≡ record (replica_of replica.old) { threads = changed_at (without_own mutexes.now) replica.old.threads thread } }
{
    let Some(stop) = replica.stop(thread) else {
        return;
    };
    if is_own(mutexes, stop) {
        replica.forget_stop(thread);
    }
}

// Whether a stop is a call on one of these mutexes.
fn is_own(mutexes: &Mutexes, stop: Stop) -> bool
    ensures { result ≡ is_own_call mutexes.now stop }
{
    let Stop::Calls(call) = stop else {
        return false;
    };
    is_lock_or_unlock(call.which) && mutexes.number(call.a0).is_some()
}
