//! Leases: a replica's thread goes out to a driver, with the whole replica or some of its pages, and comes back.
ghost use Rattle.std.specs.Prelude.{◌≡◌, ◌<◌, ◌++◌, ◌∷◌, [], IsSome, OnOk, Some, is_some, length, slice_get, slice_set};
ghost use Rattle.ro_journal.specs.declared.Entry.TheVariants.{Take};
ghost use Rattle.ro_legal.specs.Core.{lent_to};
ghost use Rattle.ro_legal.specs.Legal.{IsAllowed, output_of};
ghost use Rattle.ro_legal.specs.Parts.{Pages, Whole};
ghost use Rattle.ro_core.specs.Seen.{Appends, Stays, HasRoom, IsLent, IsLentPart, IsLentWhole, MayReturn, return_of, wanted_of};
ghost use Rattle.ro_core.specs.Fields.{Holds, IsSeat, MoreLanes, BesideSeats};
ghost use Rattle.ro_core.specs.Grouped.{Returns};
ghost use Rattle.ro_core.specs.Seated.{CanTakeBack, TakesBack};
ghost use Rattle.ro_image.specs.Image.{Image};
ghost use Rattle.ro_replica.specs.Seen.{ReplicaOf};
ghost use Rattle.ro_replica.specs.Lent.{IsSpareLane};
ghost use Rattle.std.specs.List.{All};
ghost use Rattle.ro_core.specs.Runs.{fields_of, job_of, state_of, silent};

use crate::cores::Core;
use crate::sharing::{note_lent, note_whole, place_of};
use crate::wishing::{PageList, note_fault};
use ro_event::Stop;
use ro_journal::{Entry, Lease};
use ro_lease::{Back, Loan, Took};
use ro_legal::{forget_lease, lends_pages, note_lease};
use ro_replica::{LaneBox, ReplicaBox};
use std::alloc::AllocError;

impl Core {
    /// Makes room for a take, its return, the returns of the leases that are out, and the end.
    ///
    /// # Errors
    /// Where there is no memory.
    #[inline(always)]
    pub fn room(&mut self) -> Result<(), AllocError>
        requires holds { Holds (fields_of self.old) }
        ensures holds { Holds (fields_of self.new) }
        ensures stays { Stays (silent self.old) (silent self.new) }
        ensures room { OnOk result (HasRoom (silent self.new)) }
        ensures ended { (fields_of self.new).ended ≡ (fields_of self.old).ended }
    {
        self.leases.reserve(1)?;
        self.journal.reserve(self.leases.len() + 3)?;
        if lends_pages(&self.settings) && self.lanes.is_empty() {
            self.add_lane()?;
        }
        Ok(())
    }

    // Makes a lane more.
    #[cold]
    #[inline(never)]
    fn add_lane(&mut self) -> Result<(), AllocError>
        requires holds { Holds (fields_of self.old) }
        ensures more { MoreLanes (fields_of self.old) (fields_of self.new) }
        ensures some { OnOk result (0 < length self.new.lanes.items) }
    {
        let regions = self.kernel.regions().opening(self.alloc)?;
        let lane = LaneBox::new(self.alloc, &self.image, regions)?;
        self.lanes.push(lane)?;
        Ok(())
    }

    /// Lends what a lease is for to its driver.
    #[inline(always)]
    pub fn take(&mut self, lease: Lease) -> Loan
        requires holds { Holds (fields_of self.old) }
        requires allowed { IsAllowed (job_of self.old) (state_of self.old) (Take lease) }
        requires room { HasRoom (silent self.old) }
        ensures holds { Holds (fields_of self.new) }
        ensures entry { Appends (silent self.old) (silent self.new) (Take lease) }
        ensures output { output_of (job_of self.new) (fields_of self.new).journal ≡ output_of (job_of self.old) (fields_of self.old).journal }
        ensures lent { IsLent (silent self.old) lease.replica lease.thread result }
        ensures ended { (fields_of self.new).ended ≡ (fields_of self.old).ended }
    {
        if lends_pages(&self.settings) {
            self.lend(lease)
        } else {
            Loan::Whole(self.lend_whole(lease))
        }
    }

    // The same, where pages are lent.
    #[inline(never)]
    fn lend(&mut self, lease: Lease) -> Loan
        requires holds { Holds (fields_of self.old) }
        requires allowed { IsAllowed (job_of self.old) (state_of self.old) (Take lease) }
        requires room { HasRoom (silent self.old) }
        ensures holds { Holds (fields_of self.new) }
        ensures entry { Appends (silent self.old) (silent self.new) (Take lease) }
        ensures output { output_of (job_of self.new) (fields_of self.new).journal ≡ output_of (job_of self.old) (fields_of self.old).journal }
        ensures lent { IsLent (silent self.old) lease.replica lease.thread result }
        ensures ended { (fields_of self.new).ended ≡ (fields_of self.old).ended }
    {
        match self.pages_for(lease.replica, lease.thread) {
            None => Loan::Whole(self.lend_whole(lease)),
            Some(pages) => Loan::Part(self.lend_part(lease, pages)),
        }
    }

    // Lends a whole replica.
    #[inline(always)]
    fn lend_whole(&mut self, lease: Lease) -> ReplicaBox
        requires holds { Holds (fields_of self.old) }
        requires allowed { IsAllowed (job_of self.old) (state_of self.old) (Take lease) }
        requires room { HasRoom (silent self.old) }
        requires whole { lent_to (state_of self.old) lease.replica lease.thread ≡ Whole }
        ensures holds { Holds (fields_of self.new) }
        ensures journal { (fields_of self.new).journal ≡ (fields_of self.old).journal ++ Take lease ∷ [] }
        ensures job { job_of self.new ≡ job_of self.old }
        ensures lent { IsLentWhole (silent self.old) lease.replica lease.thread result }
        ensures ended { (fields_of self.new).ended ≡ (fields_of self.old).ended }
    {
        self.journal.push_reserved(Entry::Take(lease));
        note_lease(&mut self.leases, lease);
        note_whole(self.lent.as_mut_slice(), lease.driver);
        self.wrote = 0;
        self.seats.leave(lease.replica)
    }

    // Lends a thread with some pages of its replica.
    fn lend_part(&mut self, lease: Lease, pages: PageList) -> LaneBox
        requires holds { Holds (fields_of self.old) }
        requires allowed { IsAllowed (job_of self.old) (state_of self.old) (Take lease) }
        requires room { HasRoom (silent self.old) }
        requires lends { IsSome (state_of self.old).sharing }
        requires pages { lent_to (state_of self.old) lease.replica lease.thread ≡ Pages pages.items }
        ensures holds { Holds (fields_of self.new) }
        ensures journal { (fields_of self.new).journal ≡ (fields_of self.old).journal ++ Take lease ∷ [] }
        ensures job { job_of self.new ≡ job_of self.old }
        ensures lent { IsLentPart (silent self.old) lease.replica lease.thread result }
        ensures ended { (fields_of self.new).ended ≡ (fields_of self.old).ended }
    {
        let Some(mut lane) = self.lanes.pop() else {
            unreachable!()
        };
        self.seats
            .lend_pages(lease.replica, &mut lane, lease.thread, pages.as_slice());
        self.journal.push_reserved(Entry::Take(lease));
        note_lease(&mut self.leases, lease);
        note_lent(self.lent.as_mut_slice(), lease.driver, pages);
        self.wrote = 0;
        lane
    }

    /// The entry with which a lease comes back: a part where its thread stands for the want of a page that its replica has.
    #[inline(always)]
    pub fn return_of(&self, back: &Back) -> Entry
        requires holds { Holds (fields_of self.now) }
        requires returns { MayReturn (silent self.now) back.now }
        ensures { result ≡ return_of (state_of self.now) back.now }
    {
        let lease = back.lease;
        let Took { count, hit } = back.took;
        if self.wants_page(back) {
            Entry::Part { lease, count, hit }
        } else {
            Entry::Put { lease, count, hit }
        }
    }

    // Whether a lease comes back for the want of a page that its replica has.
    #[inline(always)]
    fn wants_page(&self, back: &Back) -> bool
        requires holds { Holds (fields_of self.now) }
        requires returns { MayReturn (silent self.now) back.now }
        ensures { result ≡ is_some (wanted_of (state_of self.now) back.now.lease.replica back.now.loan) }
    {
        let Loan::Part(lane) = &back.loan else {
            return false;
        };
        let Some(stop) = lane.stop() else {
            return false;
        };
        let Stop::PageFault(page) = stop else {
            return false;
        };
        self.seats.has_page(back.lease.replica, page)
    }

    /// Puts back what a driver has run.
    #[inline(always)]
    pub fn put(&mut self, back: Back)
        requires holds { Holds (fields_of self.old) }
        requires returns { MayReturn (silent self.old) back }
        ensures holds { Holds (fields_of self.new) }
        ensures entry { Appends (silent self.old) (silent self.new) (return_of (state_of self.old) back) }
        ensures output { output_of (job_of self.new) (fields_of self.new).journal ≡ output_of (job_of self.old) (fields_of self.old).journal }
        ensures ended { (fields_of self.new).ended ≡ (fields_of self.old).ended }
    {
        let entry = self.return_of(&back);
        let missed = matches!(entry, Entry::Part { .. });
        let Back {
            lease,
            loan,
            took: _,
        } = back;
        self.journal.push_reserved(entry);
        forget_lease(&mut self.leases, lease);
        note_fault(
            self.wishes.as_mut_slice(),
            place_of(lease.replica, lease.thread),
            lease.thread,
            &loan,
            missed,
        );
        self.wrote = 0;
        match loan {
            Loan::Whole(replica) => self.seats.come_home(lease.replica, lease.thread, replica),
            Loan::Part(lane) => {
                let stop = if missed { None } else { lane.stop() };
                self.take_back(lease, lane, stop);
            }
        }
    }

    // Puts the thread and pages of a lane back into their replica, and keeps the lane for a lease to come.
    fn take_back(&mut self, lease: Lease, mut lane: LaneBox, stop: Option<Stop>)
        requires home { IsSeat self.old.seats.homes.items lease.replica }
        requires group { lease.replica < length self.old.seats.groups }
        requires thread { lease.thread < 16 }
        requires can { (value : ReplicaOf) → slice_get self.old.seats.homes.items lease.replica ≡ Some (Some value) → CanTakeBack lease.thread lane value }
        ensures homes { (value : ReplicaOf) → slice_get self.old.seats.homes.items lease.replica ≡ Some (Some value) → (after : ReplicaOf) × (self.new.seats.homes.items ≡ slice_set self.old.seats.homes.items lease.replica (Some after)) × TakesBack lease.thread lane stop value after }
        ensures groups { Returns lease.replica lease.thread (is_some stop) self.old.seats.groups self.new.seats.groups }
        ensures lanes { (image : Image) → lane.layout.ranges ≡ lane.given ++ image.ranges → lane.layout.calls ≡ image.calls → All (IsSpareLane image) self.old.lanes.items → All (IsSpareLane image) self.new.lanes.items }
        ensures rest { BesideSeats (fields_of self.old) (fields_of self.new) }
    {
        self.seats
            .take_back(lease.replica, lease.thread, &mut lane, stop);
        // where there is no memory for it, another is made when it is needed
        let _ = self.lanes.push(lane);
    }
}
