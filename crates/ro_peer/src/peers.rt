//! Peers.
ghost use Rattle.std.specs.Prelude.{◌≡◌, [], IfOk, false, replicate, slice_index_or};

use crate::mutexes::Mutexes;
use ro_replica::ReplicaBox;
use std::alloc::{AllocError, Global};

/// How many threads a program may make.
const THREADS: usize = ro_limits::MOST_THREADS as usize;

/// A replica that answers the calls on some mutexes by itself.
#[derive(Drop)]
pub struct Peer {
    pub(crate) replica: ReplicaBox,
    pub(crate) mutexes: Mutexes,
    /// Of each thread, whether the peer answered a call of it since the kernel last served one.
    pub(crate) answered: [bool; THREADS],
}

impl Peer {
    /// A peer that answers for no mutex so far.
    ///
    /// # Errors
    /// Where there is no memory.
    pub fn new(alloc: Global, replica: ReplicaBox) -> Result<Peer, AllocError>
        ensures { IfOk result (λ peer. (peer.replica ≡ replica) × (peer.mutexes ≡ []) × (peer.answered ≡ replicate 16 false)) }
    {
        let mutexes = Mutexes::new(alloc)?;
        Ok(Peer {
            replica,
            mutexes,
            answered: [false; THREADS],
        })
    }

    /// Its replica.
    pub fn replica(&self) -> &ReplicaBox
        ensures { result.now ≡ self.now.replica }
    {
        &self.replica
    }

    /// The mutexes that it answers for.
    pub fn mutexes(&self) -> &Mutexes
        ensures { result.now ≡ self.now.mutexes }
    {
        &self.mutexes
    }

    /// Whether it answered a call of a thread since the kernel last served one.
    pub fn has_answered(&self, thread: u32) -> bool
        ensures { result ≡ slice_index_or self.now.answered thread false }
    {
        match self.answered.get(thread as usize) {
            Some(answered) => *answered,
            None => false,
        }
    }
}
