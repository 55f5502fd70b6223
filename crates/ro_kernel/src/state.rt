//! The kernel's state.
ghost use Rattle.std.specs.Prelude.{◌≡◌, ◌∷◌, [], ◌≤◌, true, length, IfOk, slice_set};
ghost use Rattle.ro_condition.specs.Waiters.{wait_of};
ghost use Rattle.ro_kernel.specs.Kernel.{ranges_in, released, is_live, lives_on, any_live, opening_kernel};
ghost use Rattle.ro_kernel.specs.Reserved.{reservation_of};
ghost use Rattle.ro_kernel.specs.Serve.{fits};
ghost use Rattle.ro_mutex.specs.Owners.{owner_of};

use crate::Life;
use crate::inputs::Input;
use crate::reservations::Reservation;
use ro_condition::{Waiter, Waiters};
use ro_limits::{MAPPED_START, MOST_THREADS};
use ro_mutex::MutexTable;
use ro_region::{Kind, Range, Regions};
use std::alloc::{AllocError, Global};
use std::marker::Model;

/// How many threads may be made.
const THREADS: usize = MOST_THREADS as usize;

/// What the kernel knows of a guest: its threads' lives, the owners of mutexes, who waits on condition variables, which words
/// are reserved, the end of the heap and the input.
#[derive(Drop)]
pub struct Kernel {
    pub(crate) regions: Regions,
    /// Where the memory ends that was given on demand.
    pub(crate) map_end: u32,
    /// Where the heap starts.
    pub(crate) heap: u32,
    /// Where it ends, the program break.
    pub(crate) heap_end: u32,
    pub(crate) input: Input,
    /// How many bytes of the input were read.
    pub(crate) taken: usize,
    /// One for each thread that was made.
    pub(crate) lives: Vec<Life>,
    pub(crate) mutexes: MutexTable,
    pub(crate) waiters: Waiters,
    /// Of each thread that may be made, the word that its LR reserved.
    pub(crate) reserved: [Option<Reservation>; THREADS],
    pub(crate) alloc: Global,
}

impl Model for Kernel {
    ghost use Rattle.std.specs.Prelude.{◌≡◌, ◌≤◌, vec_len};
    ghost use Rattle.ro_kernel.specs.Inputs.{IsThrice};
    ghost use Rattle.ro_kernel.specs.Mapped.{mapped_to, IsMapped};
    ghost use Rattle.ro_kernel.specs.State.{State};

    ghost Value = { State };

    ghost view = { λ k. record { setup = record { ranges = k.regions.first; heap = k.heap; input = k.input.first.items }; kernel = record { lives = k.lives.items; owners = k.mutexes; waiters = k.waiters; heap_end = k.heap_end; taken = k.taken; given = k.regions.given; reserved = k.reserved } } };

    ghost invariant = { λ k. (k.taken ≤ vec_len k.input.first) × IsThrice k.input k.input.first.items × (vec_len k.lives ≤ 16) × (k.map_end ≡ mapped_to k.regions.given) × IsMapped k.regions.given };
}

impl Life {
    fn is_live(&self) -> bool
        ensures { result ≡ is_live self.now }
    {
        matches!(self, Life::Live)
    }
}

impl Kernel {
    /// The kernel of a guest that starts with these ranges: one live thread, no mutex and no waiter, an empty heap at `heap`, and
    /// nothing read of the input.
    pub fn new(
        alloc: Global,
        heap: u32,
        ranges: &[Range],
        input: &[u8],
    ) -> Result<Kernel, AllocError>
        ensures setup { IfOk result (λ k. k.setup ≡ record { ranges = ranges.now; heap = heap; input = input.now }) }
        ensures kernel { IfOk result (λ k. k.kernel ≡ opening_kernel heap) }
    {
        Ok(Kernel {
            regions: Regions::new(alloc, ranges)?,
            map_end: MAPPED_START,
            heap,
            heap_end: heap,
            input: Input::of(alloc, input)?,
            taken: 0,
            lives: [Life::Live].to_vec(alloc)?,
            mutexes: MutexTable::new(alloc)?,
            waiters: Waiters::new(alloc),
            reserved: [None; THREADS],
            alloc,
        })
    }

    /// The ranges that the guest may access by now.
    pub fn regions(&self) -> &Regions
        ensures { result.now ≡ record { given = self.now.kernel.given; first = self.now.setup.ranges } }
    {
        &self.regions
    }

    /// The number of threads that were ever made, at most 16.
    pub fn made(&self) -> u32
        ensures made { result ≡ length self.now.kernel.lives }
        ensures most { result ≤ 16 }
    {
        self.lives.len() as u32
    }

    /// Whether a thread was made and has not exited.
    pub fn lives_on(&self, thread: u32) -> bool
        ensures { result ≡ lives_on self.now.kernel thread }
    {
        match self.lives.get(thread as usize) {
            Some(life) => life.is_live(),
            None => false,
        }
    }

    /// Ends a live thread's reservation, and answers which one it was.
    #[tactic(auto, using(crate::proofs::Reserving::lives_below))]
    pub fn release(&mut self, thread: u32) -> Option<Reservation>
        requires { lives_on self.old.kernel thread ≡ true }
        ensures was { result ≡ reservation_of self.old.kernel.reserved thread }
        ensures kernel { self.new ≡ record self.old { kernel = released self.old.kernel thread } }
    {
        let reservation = self.reserved[thread as usize];
        self.reserved[thread as usize] = None;
        reservation
    }

    /// Gives a live thread a reservation back.
    #[tactic(auto, using(crate::proofs::Reserving::lives_below))]
    pub fn restore(&mut self, thread: u32, reservation: Option<Reservation>)
        requires { lives_on self.old.kernel thread ≡ true }
        ensures { self.new ≡ record self.old { kernel = record self.old.kernel { reserved = slice_set self.old.kernel.reserved thread reservation } } }
    {
        self.reserved[thread as usize] = reservation;
    }

    /// The wait of a thread on a condition variable, where it waits.
    pub fn waiter(&self, thread: u32) -> Option<Waiter>
        ensures { result ≡ wait_of self.now.kernel.waiters thread }
    {
        self.waiters.of(thread)
    }

    /// The owner of the mutex at an address, if it stands in the table.
    pub fn owner(&self, address: u32) -> Option<Option<u32>>
        ensures { result ≡ owner_of self.now.kernel.owners address }
    {
        self.mutexes.owner(address)
    }

    pub(crate) fn any_live(&self) -> bool
        ensures { result ≡ any_live self.now.kernel.lives }
    {
        self.lives.iter().any(|life| life.is_live())
    }

    /// Whether a word can be stored at an address.
    pub(crate) fn fits(&self, address: u32) -> bool
        ensures { result ≡ fits (ranges_in self.now.setup self.now.kernel) address }
    {
        address % 4 == 0 && self.regions.permits(address, 4, Kind::Write)
    }
}
