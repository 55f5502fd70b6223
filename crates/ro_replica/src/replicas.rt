//! Replicas.
ghost use Rattle.std.specs.Prelude.{◌≡◌, ◌≤◌, OnOk, length, slice_get, true};
ghost use Rattle.std.specs.Option.{option_map_or};
ghost use Rattle.ro_pages.specs.Held.{has_page};
ghost use Rattle.ro_replica.specs.Runs.{is_calm};
ghost use Rattle.ro_replica.specs.Replica.{stop_of, word_at};
ghost use Rattle.ro_replica.specs.Views.{is_unstopped};
ghost use Rattle.ro_replica.specs.Seen.{replica_of, Keeps};

use crate::waiting::Waiting;
use ro_event::{CallTable, Stop};
use ro_exec::Learnt;
use ro_limits::PAGE_SIZE;
use ro_pages::{Memory, Pages};
use ro_region::Regions;
use ro_thread::Thread;
use std::alloc::AllocError;
use std::marker::Model;

/// A replica: its pages and threads, and what never changes of its program.
#[derive(Drop)]
pub struct Replica {
    pub(crate) regions: Regions,
    pub(crate) calls: CallTable,
    pub(crate) watchdog: u32,
    pub(crate) pages: Pages,
    /// What the threads' runs have learnt of the pages.
    pub(crate) learnt: Learnt,
    pub(crate) threads: Vec<Thread>,
    pub(crate) waiting: Waiting,
}

impl Model for Replica {
    ghost use Rattle.ro_region.specs.Permission.{ranges_of};
    ghost use Rattle.std.specs.Prelude.{vec_capacity};
    ghost use Rattle.std.specs.List.{slice_get};
    ghost use Rattle.ro_replica.specs.Seen.{ReplicaOf, IsReplica};
    ghost use Rattle.ro_exec.specs.Stretches.{IsLearnt};
    ghost use Rattle.ro_pages.specs.Held.{has_page};
    ghost use Rattle.std.specs.Coded.{codes};
    ghost use Rattle.ro_pages.specs.Held.{coded_held};

    ghost Value = { ReplicaOf };

    ghost coded = { Prim.hlevel (codes, coded_held) };

    ghost view = { λ r. record { layout = record { ranges = ranges_of r.regions; calls = r.calls }; given = r.regions.given; watchdog = r.watchdog; held = r.pages; threads = r.threads.items; waiting = r.waiting } };

    ghost invariant = { λ r. IsReplica r.watchdog r.threads.items (vec_capacity r.threads) r.waiting × IsLearnt (record { ranges = ranges_of r.regions; calls = r.calls }) (has_page r.pages.pages) (slice_get r.pages.numbers) r.learnt };
}

impl Replica {
    /// Makes sure that so many pages can be backed with no more memory.
    ///
    /// # Errors
    /// Where there is no memory; nothing has changed then.
    pub fn reserve(&mut self, count: u32) -> Result<(), AllocError>
        ensures keeps { Keeps self.old self.new }
        ensures spare { OnOk result (count ≤ self.new.held.spare) }
    {
        self.pages.reserve(count)
    }

    /// How many threads were made.
    pub fn thread_count(&self) -> u32
        ensures { result ≡ length self.now.threads }
    {
        self.threads.len() as u32
    }

    /// Whether a thread was made and is not stopped.
    pub fn is_unstopped(&self, thread: u32) -> bool
        ensures { result ≡ is_unstopped thread (replica_of self.now) }
    {
        match self.threads.get(thread as usize) {
            Some(thread) => thread.stop.is_none(),
            None => false,
        }
    }

    /// The stop at which a thread stands still, if it does.
    pub fn stop(&self, thread: u32) -> Option<Stop>
        ensures { result ≡ stop_of (replica_of self.now) thread }
    {
        self.threads.get(thread as usize)?.stop
    }

    /// Whether a page is backed.
    pub fn has_page(&self, page: u32) -> bool
        ensures { result ≡ has_page self.now.held.pages page }
    {
        self.pages.has_page(page)
    }

    /// Whether no fault of a thread is due, and none in so many instructions more. Of a thread that was not made, none is.
    pub fn is_calm(&self, thread: u32, count: u32) -> bool
        ensures { result ≡ option_map_or (is_calm count thread (replica_of self.now)) (slice_get self.now.threads thread) true }
    {
        match self.threads.get(thread as usize) {
            Some(stands) => self.waiting.is_calm(thread, stands.done, count),
            None => true,
        }
    }

    /// The word at an address in little-endian order, as a fetch of a program sees it, whoever may execute it. None where the
    /// address is no multiple of 4, which no fetch gets past, and where its page isn't backed.
    pub fn word(&self, address: u32) -> Option<u32>
        ensures { result ≡ word_at (replica_of self.now) address }
    {
        if address % 4 != 0 || !self.pages.backed(address / PAGE_SIZE) {
            return None;
        }
        Some(self.pages.load(address, 4))
    }
}
