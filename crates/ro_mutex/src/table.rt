//! The table of owners.
ghost use Rattle.std.specs.Prelude.{◌≡◌, [], ◌<◌, ◌≤◌, length, IfOk, IsTrue, ◌↔◌, None};
ghost use Rattle.ro_mutex.specs.Owners.{owner_of, with_owner};
ghost use Rattle.ro_mutex.specs.Outcomes.{IsEnter, IsLock, IsTry, IsUnlock};

use crate::outcomes::{Entered, Locked, Tried, Unlocked};
use indexmap::IndexMap;
use std::alloc::{AllocError, Global};
use std::marker::Model;

/// How many addresses the table can hold.
const MOST: usize = 256;

/// The addresses that were ever entered or locked, each with the thread that holds it, if any.
#[derive(Drop)]
pub struct MutexTable {
    owners: IndexMap<u32, Option<u32>>,
}

impl Model for MutexTable {
    ghost use Rattle.std.specs.Prelude.{◌≤◌, ◌+◌, nat_eq};
    ghost use Rattle.indexmap.specs.IndexMap.{index_map_len, spare, IsUnique};
    ghost use Rattle.ro_mutex.specs.Owners.{Owners};

    ghost Value = { Owners };

    ghost view = { λ t. t.owners.entries };

    ghost invariant = { λ t. (index_map_len t.owners ≤ 256) × (256 ≤ index_map_len t.owners + spare t.owners) × IsUnique nat_eq t.owners };
}

impl MutexTable {
    /// A table of no addresses. It fails only for want of memory; it takes room for 256 of them.
    pub fn new(alloc: Global) -> Result<MutexTable, AllocError>
        ensures { IfOk result (λ table. table ≡ []) }
    {
        let owners = IndexMap::with_capacity(alloc, MOST)?;
        Ok(MutexTable { owners })
    }

    /// The thread that holds an address, if it is in the table.
    #[tactic(auto, using(crate::proofs::Entries::of_owners))]
    pub fn owner(&self, address: u32) -> Option<Option<u32>>
        ensures { result ≡ owner_of self.now address }
    {
        self.owners.get(&address).copied()
    }

    /// Enters an address that is not in the table, as one that nobody holds; one that is there stays as it is.
    pub fn enter(&mut self, address: u32) -> Entered
        ensures { IsEnter result self.old self.new address }
    {
        if self.owner(address).is_some() {
            return Entered::Known;
        }
        if self.is_full() {
            return Entered::Full;
        }
        self.set_owner(address, None);
        Entered::Added
    }

    /// Locks an address for a thread.
    pub fn lock(&mut self, address: u32, thread: u32) -> Locked
        ensures { IsLock result self.old self.new address thread }
    {
        match self.owner(address) {
            None => {
                if self.is_full() {
                    return Locked::Full;
                }
                self.set_owner(address, Some(thread));
                Locked::Got
            }
            Some(None) => {
                self.set_owner(address, Some(thread));
                Locked::Got
            }
            Some(Some(owner)) => {
                if owner == thread {
                    Locked::Deadlock
                } else {
                    Locked::Held
                }
            }
        }
    }

    /// Locks an address for a thread if nobody holds it.
    pub fn trylock(&mut self, address: u32, thread: u32) -> Tried
        ensures { IsTry result self.old self.new address thread }
    {
        match self.lock(address, thread) {
            Locked::Got => Tried::Got,
            Locked::Held | Locked::Deadlock => Tried::Busy,
            Locked::Full => Tried::Full,
        }
    }

    /// Frees an address that the thread holds.
    pub fn unlock(&mut self, address: u32, thread: u32) -> Unlocked
        ensures { IsUnlock result self.old self.new address thread }
    {
        if self.owner(address) != Some(Some(thread)) {
            return Unlocked::NotOwner;
        }
        self.set_owner(address, None);
        Unlocked::Freed
    }

    fn is_full(&self) -> bool
        ensures { IsTrue result ↔ (256 ≤ length self.now) }
    {
        self.owners.len() >= MOST
    }

    #[tactic(auto, using(crate::proofs::Entries::of_owners))]
    fn set_owner(&mut self, address: u32, owner: Option<u32>)
        requires { owner_of self.old address ≡ None → length self.old < 256 }
        ensures { self.new ≡ with_owner self.old address owner }
    {
        match self.owners.get_index_of(&address) {
            Some(place) => self.owners[place] = owner,
            None => {
                self.owners.insert(address, owner).unwrap();
            }
        }
    }
}
