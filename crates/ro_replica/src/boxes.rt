//! A replica in a block of its own, so that it moves as one word.
ghost use Rattle.std.specs.Prelude.{ℕ, ◌≡◌, ◌<◌, ◌≤◌, ◌+◌, ◌^◌, ◌&&◌, ◌↔◌, [], IfOk, IsTrue, OnOk, None, Some, is_some, length, slice_get, true};
ghost use Rattle.std.specs.Option.{option_map_or};
ghost use Rattle.std.specs.List.{All, filter};
ghost use Rattle.ro_region.specs.Permission.{is_writable};
ghost use Rattle.ro_pages.specs.Directories.{is_listed};
ghost use Rattle.ro_pages.specs.Held.{has_page, memory_of, most_lent};
ghost use Rattle.ro_exec.specs.Parts.{SameBeside};
ghost use Rattle.ro_replica.specs.Lent.{HasProgram, IsLaneFor, IsSpareLane, LaneRuns, LentIn, SameProgramOf, put_back};
ghost use Rattle.ro_event.specs.declared.stops.Stop.TheVariants.{Calls};
ghost use Rattle.ro_replica.specs.Replica.{applied, cancelled, changed_at, stop_of, went_on, word_at};
ghost use Rattle.ro_replica.specs.Runs.{is_calm, is_due, with_stop, standing_at};
ghost use Rattle.ro_replica.specs.Seen.{replica_of, AreTwins, CanApply, CanCount, Keeps, Recovers, Runs, SameProgram, Widens};
ghost use Rattle.ro_replica.specs.Snapshots.{snapshot_of};
ghost use Rattle.ro_replica.specs.Views.{is_unstopped, view_of};

use crate::lanes::Lane;
use crate::replicas::Replica;
use crate::running::Ran;
use ro_event::{Call, Effect, Stop, View};
use ro_image::Executable;
use ro_kernel::Kernel;
use ro_recover::Twin;
use ro_region::Regions;
use std::alloc::{AllocError, Global};
use std::marker::Model;

/// A replica in a block of its own.
#[derive(Drop)]
pub struct ReplicaBox {
    replica: Box<Replica>,
}

impl Model for ReplicaBox {
    ghost use Rattle.ro_replica.specs.Seen.{ReplicaOf};
    ghost use Rattle.std.specs.Coded.{codes};
    ghost use Rattle.ro_pages.specs.Held.{coded_held};

    ghost Value = { ReplicaOf };

    ghost coded = { Prim.hlevel (codes, coded_held) };

    ghost view = { λ b. b.replica.value };
}

impl ReplicaBox {
    /// Moves a replica into a block.
    ///
    /// # Errors
    /// Where there is no memory.
    pub fn new(alloc: Global, replica: Replica) -> Result<ReplicaBox, AllocError>
        ensures { IfOk result (λ b. b ≡ replica) }
    {
        let replica = Box::new(alloc, replica)?;
        Ok(ReplicaBox { replica })
    }

    /// Makes sure that so many pages can be backed with no more memory.
    ///
    /// # Errors
    /// Where there is no memory; nothing has changed then.
    pub fn reserve(&mut self, count: u32) -> Result<(), AllocError>
        ensures keeps { Keeps self.old self.new }
        ensures spare { OnOk result (count ≤ self.new.held.spare) }
    {
        self.replica.reserve(count)
    }

    /// Whether no fault of a thread is due, and none in so many instructions more. Of a thread that was not made, none is.
    pub fn is_calm(&self, thread: u32, count: u32) -> bool
        ensures { result ≡ option_map_or (is_calm count thread (replica_of self.now)) (slice_get self.now.threads thread) true }
    {
        self.replica.is_calm(thread, count)
    }

    /// Whether a page is backed.
    pub fn has_page(&self, page: u32) -> bool
        ensures { result ≡ has_page self.now.held.pages page }
    {
        self.replica.has_page(page)
    }

    /// How many threads were made.
    pub fn thread_count(&self) -> u32
        ensures { result ≡ length self.now.threads }
    {
        self.replica.thread_count()
    }

    /// Whether a thread was made and is not stopped.
    pub fn is_unstopped(&self, thread: u32) -> bool
        ensures { result ≡ is_unstopped thread (replica_of self.now) }
    {
        self.replica.is_unstopped(thread)
    }

    /// The stop at which a thread stands still, if it does.
    pub fn stop(&self, thread: u32) -> Option<Stop>
        ensures { result ≡ stop_of (replica_of self.now) thread }
    {
        self.replica.stop(thread)
    }

    /// The word at an address in little-endian order, as a fetch of a program sees it, whoever may execute it. None where the
    /// address is no multiple of 4, which no fetch gets past, and where its page isn't backed.
    pub fn word(&self, address: u32) -> Option<u32>
        ensures { result ≡ word_at (replica_of self.now) address }
    {
        self.replica.word(address)
    }

    /// Shows a thread that stands still.
    pub fn view(&self, thread: u32, view: &mut View)
        requires { IsTrue (is_some (stop_of (replica_of self.now) thread)) }
        ensures { view_of self.now.layout.ranges thread (replica_of self.now) ≡ Some view.new }
    {
        self.replica.view(thread, view);
    }

    /// Whether another replica of the program is the same in all that its program can ever read.
    pub fn is_same(&self, other: &ReplicaBox, kernel: &Kernel) -> bool
        requires { AreTwins self.now other.now }
        ensures { IsTrue result ↔ (snapshot_of kernel.now.kernel (replica_of self.now) ≡ snapshot_of kernel.now.kernel (replica_of other.now)) }
    {
        self.replica.is_same(&other.replica, kernel)
    }

    /// Does what an event does to a replica, and forgets the page faults that it settles.
    pub fn apply(&mut self, effect: &Effect)
        requires { CanApply effect.now self.old }
        ensures program { Widens effect.now.range self.new self.old }
        ensures applied { replica_of self.new ≡ cancelled (applied effect.now (replica_of self.old)) }
    {
        self.replica.apply(effect);
    }

    /// Runs a thread that is not stopped until it stands at a stop, or for a quantum of instructions. Each fault whose moment
    /// comes is struck, in the list's order.
    pub fn run(&mut self, thread: u32, quantum: u32) -> Ran
        requires going { IsTrue (is_unstopped thread (replica_of self.old)) }
        requires countable { CanCount quantum self.old thread }
        ensures program { SameProgram self.new self.old }
        ensures runs { Runs self.old.layout self.old.watchdog quantum thread (replica_of self.old) (replica_of self.new) result.count result.hit result.stop }
        ensures stands { stop_of (replica_of self.new) thread ≡ result.stop }
    {
        self.replica.run(thread, quantum)
    }

    /// Forgets where a thread stands still.
    pub fn forget_stop(&mut self, thread: u32)
        requires { thread < length self.old.threads }
        ensures program { SameProgram self.new self.old }
        ensures forgotten { replica_of self.new ≡ record (replica_of self.old) { threads = changed_at (with_stop None) self.old.threads thread } }
        ensures few { length self.new.threads ≤ 16 }
    {
        self.replica.forget_stop(thread);
    }

    /// Answers the call at which a thread stands: it goes on behind it. That counts as an instruction.
    pub fn answer(&mut self, thread: u32, call: Call, value: u32)
        requires standing { standing_at self.old.layout self.old.watchdog (replica_of self.old) thread ≡ Some (Calls call) }
        requires countable { CanCount 1 self.old thread }
        ensures program { SameProgram self.new self.old }
        ensures answered { replica_of self.new ≡ record (replica_of self.old) { threads = changed_at (went_on call thread value) self.old.threads thread } }
    {
        self.replica.answer(thread, call, value);
    }
}

/// A lane in a block of its own, so that it moves as one word.
#[derive(Drop)]
pub struct LaneBox {
    lane: Box<Lane>,
}

impl Model for LaneBox {
    ghost use Rattle.ro_replica.specs.Lent.{LaneOf};
    ghost use Rattle.std.specs.Coded.{codes};
    ghost use Rattle.ro_pages.specs.Held.{coded_held};

    ghost Value = { LaneOf };

    ghost coded = { Prim.hlevel (codes, coded_held) };

    ghost view = { λ b. b.lane.value };
}

impl LaneBox {
    /// A lane for replicas of the program of an image, with no page and with room for as many as a wish has. What it needs of
    /// memory it takes here.
    ///
    /// # Errors
    /// Where there is no memory.
    pub fn new(alloc: Global, image: &Executable, regions: Regions) -> Result<LaneBox, AllocError>
        requires regions { regions ≡ record { given = []; first = image.now.ranges } }
        ensures { IfOk result (IsSpareLane image.now) }
    {
        let lane = Lane::new(alloc, image, regions)?;
        let lane = Box::new(alloc, lane)?;
        Ok(LaneBox { lane })
    }

    /// Runs the thread until it stands at a stop, or for a quantum of instructions, and answers how many were retired. It sees
    /// the pages that it was lent, and stands at the fault of any other page that it needs. Its stop is kept here.
    pub fn run(&mut self, quantum: u32) -> u32
        requires { self.old.thread.done + quantum < 2 ^ 128 }
        ensures program { SameProgramOf self.new self.old }
        ensures runs { LaneRuns quantum result self.old self.new }
    {
        self.lane.run(quantum)
    }

    /// The stop at which the thread stands still, if it does.
    pub fn stop(&self) -> Option<Stop>
        ensures { result ≡ self.now.thread.stop }
    {
        self.lane.stop()
    }
}

impl ReplicaBox {
    /// Lends a thread that is not stopped, with those pages of a wish that the replica has. A page of which a byte may be
    /// written leaves the replica for the time, any other goes as a copy. It takes no memory. Pages that have left with
    /// another lane aren't wished for: what stands in their places here says nothing.
    pub fn lend_pages(&mut self, lane: &mut LaneBox, thread: u32, wish: &[u32])
        requires going { IsTrue (is_unstopped thread (replica_of self.old)) }
        requires lane { IsLaneFor lane.old self.old }
        requires none { lane.old.held.numbers ≡ [] }
        requires few { length wish.now ≤ most_lent }
        requires low { All (λ page. page < 2 ^ 20) wish.now }
        ensures program { SameProgram self.new self.old }
        ensures lane { HasProgram lane.new self.old }
        ensures pages { (page : ℕ) → has_page lane.new.held.pages page ≡ (is_listed wish.now page && has_page self.old.held.pages page) }
        ensures began { slice_get self.old.threads thread ≡ Some lane.new.thread }
        ensures moved { (page : ℕ) → is_listed lane.new.moved page ≡ (has_page lane.new.held.pages page && is_writable self.old.layout.ranges page) }
        ensures lent { (count : ℕ) → ((k : ℕ) → k ≤ count → filter (is_due thread (lane.new.thread.done + k)) self.old.waiting ≡ []) → LentIn (has_page lane.new.held.pages) thread count (memory_of lane.new.held.pages) lane.new.thread (replica_of self.old) }
        ensures rest { replica_of self.new ≡ record (replica_of self.old) { memory = memory_of self.new.held.pages } }
        ensures beside { SameBeside (is_listed lane.new.moved) (memory_of self.new.held.pages) (memory_of self.old.held.pages) }
        ensures spare { self.new.held.spare ≡ self.old.held.spare }
        ensures low { (page : ℕ) → has_page lane.new.held.pages page ≡ true → page < 2 ^ 20 }
    {
        self.replica.lend_pages(&mut lane.lane, thread, wish);
    }

    /// Puts a lane's thread and pages back, and writes where the thread stands still.
    pub fn put_back(&mut self, thread: u32, lane: &mut LaneBox, stop: Option<Stop>)
        requires thread { thread < length self.old.threads }
        requires program { lane.old.watchdog ≡ self.old.watchdog }
        requires low { (page : ℕ) → has_page lane.old.held.pages page ≡ true → page < 2 ^ 20 }
        requires mine { (page : ℕ) → has_page lane.old.held.pages page ≡ true → has_page self.old.held.pages page ≡ true }
        ensures program { SameProgram self.new self.old }
        ensures back { replica_of self.new ≡ put_back thread (has_page lane.old.held.pages) (memory_of lane.old.held.pages) lane.old.thread stop (replica_of self.old) }
        ensures spare { self.new.held.spare ≡ self.old.held.spare }
        ensures same_lane { SameProgramOf lane.new lane.old }
        ensures none { lane.new.held.numbers ≡ [] }
    {
        self.replica.put_back(thread, &mut lane.lane, stop);
    }
}

impl Twin for ReplicaBox {
    ghost may_become = { λ one other. AreTwins one other };

    ghost became = { λ winner old new. Recovers winner old new };

    fn copy_from(&mut self, other: &ReplicaBox) {
        self.replica.copy_from(&other.replica);
    }
}
