//! The mutexes whose calls a peer answers.
ghost use Rattle.std.specs.Prelude.{◌≡◌, ◌+◌, ◌<◌, ◌≤◌, ◌^◌, ◌∷◌, ◌++◌, [], true, IfOk, IfSome, None, Some, length, slice_get};
ghost use Rattle.ro_replica.specs.Replica.{changed_at};
ghost use Rattle.ro_peer.specs.Peers.{is_got, mutex_after};
ghost use Rattle.ro_peer.specs.Seen.{number_of};

use indexmap::IndexMap;
use std::alloc::{AllocError, Global};
use std::marker::Model;

/// How many mutexes there can be, as in the kernel's table.
const MOST: usize = 256;

/// A mutex in a peer.
#[derive(Clone, Copy, PartialEq, Eq, Debug)]
pub struct Mutex {
    pub address: u32,
    /// The thread that holds it in this peer, if any.
    pub owner: Option<u32>,
    /// How often it was got in this peer.
    pub rank: u32,
}

/// The mutexes whose calls a peer answers, in the order in which they were entered. There is room for 256 from the start, so
/// that nothing later takes memory.
#[derive(Drop)]
pub struct Mutexes {
    /// By their addresses.
    mutexes: IndexMap<u32, Mutex>,
}

impl Model for Mutexes {
    ghost use Rattle.std.specs.Prelude.{◌≤◌, ◌+◌, List};
    ghost use Rattle.indexmap.specs.IndexMap.{index_map_len, spare, values};
    ghost use Rattle.ro_peer.specs.Indexed.{IsIndexed};
    ghost use Rattle.ro_peer.specs.declared.mutexes.Mutex.{Mutex};

    ghost Value = { List Mutex };

    ghost view = { λ m. values m.mutexes };

    ghost invariant = { λ m. (index_map_len m.mutexes ≤ 256) × (256 ≤ index_map_len m.mutexes + spare m.mutexes) × IsIndexed m.mutexes.entries };
}

impl Mutexes {
    /// No mutexes.
    ///
    /// # Errors
    /// Where there is no memory.
    #[tactic(auto, using(crate::proofs::Indexing::of_keys))]
    pub fn new(alloc: Global) -> Result<Mutexes, AllocError>
        ensures { IfOk result (λ mutexes. mutexes ≡ []) }
    {
        let mutexes = IndexMap::with_capacity(alloc, MOST)?;
        Ok(Mutexes { mutexes })
    }

    /// The number of the mutex at an address, if it was entered.
    pub fn number(&self, address: u32) -> Option<u32>
        ensures number { result ≡ number_of self.now address }
        ensures within { IfSome result (λ number. (number < length self.now) × (number < 256)) }
    {
        match self.mutexes.get_index_of(&address) {
            Some(place) => Some(place as u32),
            None => None,
        }
    }

    /// How many there are.
    pub fn count(&self) -> usize
        ensures count { result ≡ length self.now }
        ensures most { result ≤ 256 }
    {
        self.mutexes.len()
    }

    /// The mutex of a number.
    pub fn mutex(&self, number: u32) -> Mutex
        requires { number < length self.now }
        ensures { slice_get self.now number ≡ Some result }
    {
        self.mutexes[number as usize]
    }

    /// Changes the owner of a mutex, if there is a new one, and counts who gets it.
    pub fn change(&mut self, number: u32, change: Option<Option<u32>>)
        requires counted { IfSome (slice_get self.old number) (λ mutex. is_got change ≡ true → mutex.rank + 1 < 2 ^ 32) }
        requires number { number < length self.old }
        ensures { self.new ≡ changed_at (mutex_after change) self.old number }
    {
        change_mutex(&mut self.mutexes[number as usize], change);
    }

    /// Enters a mutex that nobody got so far, and that doesn't stand yet.
    pub fn enter(&mut self, address: u32, owner: Option<u32>)
        requires room { length self.old < 256 }
        requires new { number_of self.old address ≡ None }
        ensures { self.new ≡ self.old ++ record { address = address; owner = owner; rank = 0 } ∷ [] }
    {
        let mutex = Mutex {
            address,
            owner,
            rank: 0,
        };
        self.mutexes.insert(address, mutex).unwrap();
    }
}

// The same for one mutex.
fn change_mutex(mutex: &mut Mutex, change: Option<Option<u32>>)
    requires { is_got change ≡ true → mutex.old.rank + 1 < 2 ^ 32 }
    ensures { mutex.new ≡ mutex_after change mutex.old }
{
    let Some(owner) = change else {
        return;
    };
    mutex.owner = owner;
    if owner.is_some() {
        mutex.rank += 1;
    }
}
