//! A thread that is lent with some of its replica's pages.
ghost use Rattle.std.specs.Prelude.{◌≡◌, ◌+◌, ◌<◌, ◌^◌, ℕ, [], false, true, length, IfOk};
ghost use Rattle.ro_pages.specs.Held.{has_page, memory_of, most_lent};
ghost use Rattle.ro_replica.specs.Replica.{Replica as ReplicaSeen};
ghost use Rattle.ro_replica.specs.Seen.{replica_of, SameProgram};
ghost use Rattle.ro_replica.specs.Lent.{LaneRuns, LentIn, IsSpareLane, SameProgramOf, ComesHome, put_back};

use crate::cpus::first_cpu;
use crate::opening::unstopped;
use crate::replicas::Replica;
use ro_event::{CallTable, Stop};
use ro_exec::Learnt;
use ro_image::Executable;
use ro_pages::{FewPages, MOST_LENT};
use ro_region::Regions;
use ro_thread::{RunEnd, Thread};
use std::alloc::{AllocError, Global};
use std::marker::Model;

/// A lane is what a lease of a few pages has: a thread of a replica, and these pages. It can be lent again and again.
#[derive(Drop)]
pub struct Lane {
    pub(crate) regions: Regions,
    calls: CallTable,
    /// That of the replica that it was lent with last, at first 0.
    pub(crate) watchdog: u32,
    pub(crate) pages: FewPages,
    /// Those of its pages that have left the replica for the time; the others are copies. There is a place for each page.
    pub(crate) moved: Vec<u32>,
    pub(crate) thread: Thread,
}

impl Model for Lane {
    ghost use Rattle.std.specs.Prelude.{◌≤◌, length, vec_capacity};
    ghost use Rattle.std.specs.Coded.{codes};
    ghost use Rattle.ro_pages.specs.Held.{coded_held, most_lent};
    ghost use Rattle.ro_region.specs.Permission.{ranges_of};
    ghost use Rattle.ro_replica.specs.Lent.{LaneOf};

    ghost Value = { LaneOf };

    ghost coded = { Prim.hlevel (codes, coded_held) };

    ghost view = { λ l. record { layout = record { ranges = ranges_of l.regions; calls = l.calls }; given = l.regions.given; watchdog = l.watchdog; held = l.pages; moved = l.moved.items; thread = l.thread } };

    ghost invariant = { λ l. (l.thread.since ≤ l.watchdog) × (length l.moved.items ≤ length l.pages.numbers) × (most_lent ≤ vec_capacity l.moved) };
}

impl Lane {
    /// A lane for replicas of the program of an image, with no page and with room for as many as a wish has. What it needs of
    /// memory it takes here.
    ///
    /// # Errors
    /// Where there is no memory.
    pub fn new(alloc: Global, image: &Executable, regions: Regions) -> Result<Lane, AllocError>
        requires regions { regions ≡ record { given = []; first = image.now.ranges } }
        ensures lane { IfOk result (IsSpareLane image.now) }
        ensures room { IfOk result (λ lane. lane.held.spare ≡ most_lent) }
    {
        Ok(Lane {
            regions,
            calls: CallTable::new(*image.calls().addresses()),
            watchdog: 0,
            pages: FewPages::new(alloc)?,
            moved: Vec::with_capacity(alloc, MOST_LENT as usize)?,
            thread: unstopped(first_cpu(0)),
        })
    }

    /// The pages that have left the replica for the time.
    pub fn moved(&self) -> &[u32]
        ensures { result.now ≡ self.now.moved }
    {
        self.moved.as_slice()
    }

    /// Runs the thread until it stands at a stop, or for a quantum of instructions, and answers how many were retired. It sees
    /// the pages that it was lent, and stands at the fault of any other page that it needs. Its stop is kept here.
    pub fn run(&mut self, quantum: u32) -> u32
        requires { self.old.thread.done + quantum < 2 ^ 128 }
        ensures program { SameProgramOf self.new self.old }
        ensures runs { LaneRuns quantum result self.old self.new }
        ensures numbers { self.new.held.numbers ≡ self.old.held.numbers }
        ensures moved { self.new.moved ≡ self.old.moved }
        ensures home { (replica : ReplicaSeen) (thread : ℕ) → LentIn (has_page self.old.held.pages) thread result (memory_of self.old.held.pages) self.old.thread replica → ComesHome quantum thread result self.new.thread.stop self.old self.new replica }
    {
        let mut learnt = Learnt::nothing();
        let RunEnd { count, stop } = ro_thread::run(
            &mut self.thread,
            &mut self.pages,
            &mut learnt,
            &self.regions,
            &self.calls,
            quantum,
            self.watchdog,
        );
        self.thread.stop = stop;
        count
    }

    /// The stop at which the thread stands still, if it does.
    pub fn stop(&self) -> Option<Stop>
        ensures { result ≡ self.now.thread.stop }
    {
        self.thread.stop
    }
}

impl Replica {
    /// Puts a lane's thread and pages back, and writes where the thread stands still.
    pub fn put_back(&mut self, thread: u32, lane: &mut Lane, stop: Option<Stop>)
        requires thread { thread < length self.old.threads }
        requires program { lane.old.watchdog ≡ self.old.watchdog }
        requires low { (page : ℕ) → has_page lane.old.held.pages page ≡ true → page < 2 ^ 20 }
        requires mine { (page : ℕ) → has_page lane.old.held.pages page ≡ true → has_page self.old.held.pages page ≡ true }
        ensures program { SameProgram self.new self.old }
        ensures back { replica_of self.new ≡ put_back thread (has_page lane.old.held.pages) (memory_of lane.old.held.pages) lane.old.thread stop (replica_of self.old) }
        ensures spare { self.new.held.spare ≡ self.old.held.spare }
        ensures same_lane { SameProgramOf lane.new lane.old }
        ensures gone { (page : ℕ) → has_page lane.new.held.pages page ≡ false }
        ensures none { lane.new.held.numbers ≡ [] }
        ensures moved { lane.new.moved ≡ [] }
        ensures room { lane.new.held.spare ≡ lane.old.held.spare + length lane.old.held.numbers }
    {
        self.pages.take_all_back(&mut lane.pages);
        lane.moved.clear();
        self.threads[thread as usize] = Thread {
            stop,
            ..lane.thread
        };
    }
}
