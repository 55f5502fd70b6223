//! The threads that got each mutex, its last ones.
ghost use Rattle.std.specs.Prelude.{ℕ, ◌≡◌, ◌+◌, ◌-◌, ◌^◌, ◌<◌, ◌≤◌, List, [], ◌∷◌, ◌++◌, OnOk, IsOk, length, replicate, slice_get, slice_set, slice_index, vec_len, vec_capacity};
ghost use Rattle.ro_takers.specs.Recalls.{Recalls, list_of, place_of};

use std::alloc::{AllocError, Global};
use std::marker::Model;

/// How many ranks of a mutex replicas may be apart, and so of how many of its last ranks the threads are kept.
pub const MOST_APART: u32 = 1_024;

/// How often each mutex was got, by the mutexes' numbers, and which threads got it at its last ranks.
#[derive(Drop)]
pub struct Takers {
    /// How often each was got.
    ranks: Vec<u32>,
    /// For each a ring of its last threads, one ring behind another: a rank's thread stands at the rank's remainder.
    rings: Vec<u8>,
    /// How many mutexes can be entered with no more memory.
    room: usize,
}

impl Model for Takers {
    ghost use Rattle.std.specs.Prelude.{◌≡◌, ◌+◌, ◌*◌, ◌≤◌, vec_len, vec_capacity};
    ghost use Rattle.ro_takers.specs.Recalls.{Taken, coded_taken};

    ghost Value = { Taken };

    ghost coded = { coded_taken };

    ghost view = { λ t. record { ranks = t.ranks.items; rings = t.rings.items; room = t.room } };

    ghost invariant = { λ t. (vec_len t.rings ≡ vec_len t.ranks * 1024) × (vec_len t.ranks + t.room ≤ vec_capacity t.ranks) × (vec_len t.rings + t.room * 1024 ≤ vec_capacity t.rings) };
}

impl Takers {
    /// Of no mutex. It takes no memory.
    pub fn new(alloc: Global) -> Takers
        ensures { Recalls [] result }
    {
        Takers {
            ranks: Vec::new(alloc),
            rings: Vec::new(alloc),
            room: 0,
        }
    }

    /// Makes sure that one more mutex can be entered. Nothing else changes, also where memory is wanting.
    pub fn reserve(&mut self) -> Result<(), AllocError>
        ensures room { OnOk result (0 < self.new.room) }
        ensures kept { self.old.room ≤ self.new.room }
        ensures succeeds { 0 < self.old.room → IsOk result }
        ensures ranks { self.new.ranks ≡ self.old.ranks }
        ensures rings { self.new.rings ≡ self.old.rings }
        ensures lists { (lists : List (List ℕ)) → Recalls lists self.old → Recalls lists self.new }
    {
        self.ranks.reserve(1)?;
        self.rings.reserve(MOST_APART as usize)?;
        self.room = self.room.max(1);
        Ok(())
    }

    /// Enters a mutex that nobody got, behind the others. It takes no memory.
    pub fn enter(&mut self)
        requires { 0 < self.old.room }
        ensures lists { (lists : List (List ℕ)) → Recalls lists self.old → Recalls (lists ++ [] ∷ []) self.new }
        ensures count { length self.new.ranks ≡ length self.old.ranks + 1 }
        ensures room { self.new.room + 1 ≡ self.old.room }
    {
        self.ranks.push_reserved(0);
        add_ring(&mut self.rings);
        self.room -= 1;
    }

    /// How often a mutex was got.
    pub fn rank(&self, number: u32) -> u32
        requires { number < length self.now.ranks }
        ensures { (lists : List (List ℕ)) → Recalls lists self.now → result ≡ length (list_of lists number) }
    {
        self.ranks[number as usize]
    }

    /// The thread that got a mutex at a rank, of its last `MOST_APART`; `None` where it was not got so often.
    pub fn taker(&self, number: u32, rank: u32) -> Option<u32>
        requires { number < length self.now.ranks }
        ensures { (lists : List (List ℕ)) → Recalls lists self.now → length (list_of lists number) ≤ rank + 1024 → result ≡ slice_get (list_of lists number) rank }
    {
        if rank < self.ranks[number as usize] {
            Some(u32::from(self.rings[place(number, rank)]))
        } else {
            None
        }
    }

    /// A mutex was got up to a rank, each time by this thread.
    pub fn note(&mut self, number: u32, rank: u32, thread: u32)
        requires number { number < length self.old.ranks }
        requires thread { thread < 256 }
        ensures lists { (lists : List (List ℕ)) → Recalls lists self.old → Recalls (slice_set lists number (list_of lists number ++ replicate (rank - length (list_of lists number)) thread)) self.new }
        ensures count { length self.new.ranks ≡ length self.old.ranks }
        ensures room { self.new.room ≡ self.old.room }
    {
        for _ in self.ranks[number as usize]..rank {
            self.note_one(number, thread);
        }
    }

    // A mutex was got once more, by this thread.
    fn note_one(&mut self, number: u32, thread: u32)
        requires number { number < length self.old.ranks }
        requires thread { thread < 256 }
        requires counted { slice_index self.old.ranks number + 1 < 2 ^ 32 }
        ensures lists { (lists : List (List ℕ)) → Recalls lists self.old → Recalls (slice_set lists number (list_of lists number ++ thread ∷ [])) self.new }
        ensures ranks { self.new.ranks ≡ slice_set self.old.ranks number (slice_index self.old.ranks number + 1) }
        ensures room { self.new.room ≡ self.old.room }
    {
        let rank = self.ranks[number as usize];
        self.rings[place(number, rank)] = thread as u8;
        self.ranks[number as usize] = rank + 1;
    }
}

// Where the thread of a mutex's rank stands.
fn place(number: u32, rank: u32) -> usize
    ensures { result ≡ place_of number rank }
{
    (number as usize) * (MOST_APART as usize) + (rank % MOST_APART) as usize
}

// Adds a mutex's ring behind the others.
fn add_ring(rings: &mut Vec<u8>)
    requires { vec_len rings.old + 1024 ≤ vec_capacity rings.old }
    ensures items { rings.new.items ≡ rings.old.items ++ replicate 1024 0 }
    ensures len { vec_len rings.new ≡ vec_len rings.old + 1024 }
    ensures capacity { vec_capacity rings.new ≡ vec_capacity rings.old }
{
    for _ in 0..MOST_APART {
        rings.push_reserved(0);
    }
}
