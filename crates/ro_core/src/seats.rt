//! The replicas in their seats, each empty while its replica is lent, and which threads stand still.
ghost use Rattle.std.specs.Prelude.{ℕ, ◌≡◌, ◌≢◌, ◌≤◌, ◌⊎◌, ◌↔◌, ◌<◌, ◌∷◌, [], List, Some, None, true, is_some, IfSome, IsSome, OnOk, length, slice_get, slice_index_or, slice_set};
ghost use Rattle.std.specs.List.{list_all, filter_map};
ghost use Rattle.ro_group.specs.Groups.{is_ready};
ghost use Rattle.ro_region.specs.Permission.{with_range};
ghost use Rattle.ro_kernel.specs.Kernel.{Kernel as KernelSeen, ranges_in};
ghost use Rattle.ro_plain.specs.Machine.{setup_of};
ghost use Rattle.ro_replica.specs.Replica.{Replica as ReplicaSeen, stop_of};
ghost use Rattle.ro_replica.specs.Views.{view_of};
ghost use Rattle.ro_replica.specs.Seen.{ReplicaOf, replica_of, CanApply, AreTwins, Recovers};
ghost use Rattle.ro_replica.specs.Lent.{SameProgramOf};
ghost use Rattle.ro_replica.specs.Runs.{is_calm};
ghost use Rattle.ro_pages.specs.Held.{has_page};
ghost use Rattle.std.specs.Option.{option_map_or};
ghost use Rattle.ro_journal.specs.Losers.{numbers};
ghost use Rattle.ro_legal.specs.Core.{Job};
ghost use Rattle.ro_legal.specs.Event.{all_applied, with_copy, with_recovered};
ghost use Rattle.ro_core.specs.Fields.{IsSeat, AreHome, AreSpared, CanTake, KeepsSeat, AreAllTwins, AreLosers, seat_unstopped};
ghost use Rattle.ro_core.specs.Grouped.{AreMade, Returns, seat_stopped};
ghost use Rattle.ro_legal.specs.Sound.{FaultsWait};
ghost use Rattle.ro_core.specs.Seated.{CanLend, CanTakeBack, LendsPages, Stands, TakesBack};

use crate::grouping::{copy_stops, note_return, note_stop, regroup};
use ro_event::{Effect, Stop, View};
use ro_group::Groups;
use ro_journal::Lost;
use ro_recover::recover;
use ro_replica::{LaneBox, ReplicaBox};
use ro_vote::Won;
use std::alloc::AllocError;

/// How many pages an event backs in a replica at most.
const MOST_PAGES: u32 = 3;

/// The seats of the replicas.
#[derive(Drop)]
pub(crate) struct Seats {
    /// The replicas, where they are not lent.
    pub homes: Vec<Option<ReplicaBox>>,
    /// Which threads stand still, in the replicas as they were when they left.
    pub groups: Groups,
}

impl Seats {
    /// Whether a thread stands still in every replica.
    pub fn ready(&self, thread: u32) -> bool
        requires { thread < 16 }
        ensures { result ≡ is_ready self.now.groups thread }
    {
        self.groups.ready(thread)
    }

    /// Whether a replica is at home, and a thread of it not stopped.
    pub fn is_unstopped(&self, replica: u32, thread: u32) -> bool
        requires { replica < length self.now.homes.items }
        ensures { result ≡ seat_unstopped thread (slice_index_or self.now.homes.items replica None) }
    {
        is_unstopped(&self.homes[replica as usize], thread)
    }

    /// Whether no fault of a thread of a replica at home is due, and none in so many instructions more.
    pub fn is_calm(&self, replica: u32, thread: u32, count: u32) -> bool
        requires { IsSeat self.now.homes.items replica }
        ensures { (value : ReplicaOf) → slice_get self.now.homes.items replica ≡ Some (Some value) → result ≡ option_map_or (is_calm count thread (replica_of value)) (slice_get value.threads thread) true }
    {
        is_calm(&self.homes[replica as usize], thread, count)
    }

    /// Whether a page of a replica at home is backed.
    pub fn has_page(&self, replica: u32, page: u32) -> bool
        requires { IsSeat self.now.homes.items replica }
        ensures { (value : ReplicaOf) → slice_get self.now.homes.items replica ≡ Some (Some value) → result ≡ has_page value.held.pages page }
    {
        has_page(&self.homes[replica as usize], page)
    }

    /// A replica that is in its seat.
    pub fn replica(&self, replica: u32) -> Option<&ReplicaBox>
        ensures there { IfSome result (λ r. slice_get self.now.homes.items replica ≡ Some (Some r.now)) }
        ensures home { IsSome result ↔ IsSeat self.now.homes.items replica }
    {
        self.homes.get(replica as usize)?.as_ref()
    }

    /// Lends a thread of a replica at home with those pages of a wish that it has.
    pub fn lend_pages(&mut self, replica: u32, lane: &mut LaneBox, thread: u32, wish: &[u32])
        requires home { IsSeat self.old.homes.items replica }
        requires can { (value : ReplicaOf) → slice_get self.old.homes.items replica ≡ Some (Some value) → CanLend thread wish.now lane.old value }
        ensures homes { (value : ReplicaOf) → slice_get self.old.homes.items replica ≡ Some (Some value) → (after : ReplicaOf) × (self.new.homes.items ≡ slice_set self.old.homes.items replica (Some after)) × LendsPages thread wish.now value after lane.new }
        ensures groups { self.new.groups ≡ self.old.groups }
    {
        lend_pages(&mut self.homes[replica as usize], lane, thread, wish);
    }

    /// Puts the thread and pages of a lane back into their replica, which is at home.
    pub fn take_back(&mut self, replica: u32, thread: u32, lane: &mut LaneBox, stop: Option<Stop>)
        requires home { IsSeat self.old.homes.items replica }
        requires group { replica < length self.old.groups }
        requires thread { thread < 16 }
        requires can { (value : ReplicaOf) → slice_get self.old.homes.items replica ≡ Some (Some value) → CanTakeBack thread lane.old value }
        ensures homes { (value : ReplicaOf) → slice_get self.old.homes.items replica ≡ Some (Some value) → (after : ReplicaOf) × (self.new.homes.items ≡ slice_set self.old.homes.items replica (Some after)) × TakesBack thread lane.old stop value after }
        ensures groups { Returns replica thread (is_some stop) self.old.groups self.new.groups }
        ensures lane { SameProgramOf lane.new lane.old }
        ensures none { lane.new.held.numbers ≡ [] }
    {
        take_back(&mut self.homes[replica as usize], thread, lane, stop);
        note_stop(&mut self.groups, replica, thread, stop);
    }

    /// Takes a replica out of its seat.
    pub fn leave(&mut self, replica: u32) -> ReplicaBox
        requires { IsSeat self.old.homes.items replica }
        ensures replica { slice_get self.old.homes.items replica ≡ Some (Some result) }
        ensures homes { self.new.homes.items ≡ slice_set self.old.homes.items replica None }
        ensures groups { self.new.groups ≡ self.old.groups }
    {
        leave(self.homes.as_mut_slice(), replica as usize)
    }

    /// Puts a replica that was lent for a thread back into its seat.
    pub fn come_home(&mut self, replica: u32, thread: u32, lent: ReplicaBox)
        requires home { replica < length self.old.homes.items }
        requires replica { replica < length self.old.groups }
        requires thread { thread < 16 }
        ensures homes { self.new.homes.items ≡ slice_set self.old.homes.items replica (Some lent) }
        ensures groups { Returns replica thread (is_some (stop_of (replica_of lent) thread)) self.old.groups self.new.groups }
    {
        note_return(&mut self.groups, replica, thread, &lent);
        come_home(self.homes.as_mut_slice(), replica as usize, lent);
    }

    /// Shows a thread that stands still in every replica, each of which is at home.
    pub fn show(&self, thread: u32, views: &mut [View])
        requires stopped { list_all (seat_stopped thread) self.now.homes.items ≡ true }
        requires count { length views.old ≡ length self.now.homes.items }
        ensures views { (job : Job) (kernel : KernelSeen) (replicas : List ReplicaSeen) → AreHome job kernel self.now.homes.items replicas → views.new ≡ filter_map (view_of (ranges_in (setup_of job.program) kernel) thread) replicas }
        ensures count { length views.new ≡ length views.old }
    {
        show_all(self.homes.as_slice(), thread, views);
    }

    /// Makes sure that each replica can be given an event with no more memory; all are at home.
    ///
    /// # Errors
    /// Where there is no memory; the replicas are as they were.
    pub fn reserve(&mut self) -> Result<(), AllocError>
        requires home { (job : Job) × (kernel : KernelSeen) × (replicas : List ReplicaSeen) × AreHome job kernel self.old.homes.items replicas }
        ensures kept { (job : Job) (kernel : KernelSeen) (replicas : List ReplicaSeen) → AreHome job kernel self.old.homes.items replicas → AreHome job kernel self.new.homes.items replicas }
        ensures spared { OnOk result (AreSpared self.new.homes.items) }
        ensures groups { self.new.groups ≡ self.old.groups }
    {
        reserve_pages(self.homes.as_mut_slice())
    }

    /// Each loser becomes as the winner.
    pub fn heal(&mut self, won: &Won, threads: u32)
        requires home { (job : Job) × (kernel : KernelSeen) × (replicas : List ReplicaSeen) × Stands job kernel self.old replicas }
        requires won { IsSeat self.old.homes.items won.now.won }
        requires lost { AreLosers self.old.homes.items won.now.won (numbers won.now.lost) }
        requires twins { AreAllTwins self.old.homes.items }
        requires threads { threads ≤ 16 }
        ensures stands { (job : Job) (kernel : KernelSeen) (replicas : List ReplicaSeen) → Stands job kernel self.old replicas → AreMade threads replicas → Stands job kernel self.new (with_recovered won.now.won (numbers won.now.lost) replicas) }
        ensures spared { AreSpared self.old.homes.items → AreSpared self.new.homes.items }
    {
        recover_losers(self.homes.as_mut_slice(), won.won as usize, won.lost);
        copy_stops(&mut self.groups, won.won, won.lost, threads);
    }

    /// Does what an event does to every replica; each is at home.
    pub fn apply(&mut self, effect: &Effect, threads: u32)
        requires home { (job : Job) × (kernel : KernelSeen) × (replicas : List ReplicaSeen) × Stands job kernel self.old replicas }
        requires few { length self.old.homes.items ≤ 5 }
        requires can { CanTake effect.now self.old.homes.items }
        requires thread { effect.now.thread < 16 }
        requires threads { threads ≤ 16 }
        ensures stands { (job : Job) (before after : KernelSeen) (replicas : List ReplicaSeen) → after.given ≡ with_range effect.now.range before.given → Stands job before self.old replicas → AreMade threads replicas → FaultsWait replicas → Stands job after self.new (all_applied effect.now replicas) }
    {
        apply_to_all(self.homes.as_mut_slice(), effect);
        let replicas = self.homes.len() as u32;
        regroup(
            self.homes.as_slice(),
            &mut self.groups,
            effect,
            replicas,
            threads,
        );
    }
}

fn is_calm(seat: &Option<ReplicaBox>, thread: u32, count: u32) -> bool
    ensures { (value : ReplicaOf) → seat.now ≡ Some value → result ≡ option_map_or (is_calm count thread (replica_of value)) (slice_get value.threads thread) true }
{
    match seat {
        Some(replica) => replica.is_calm(thread, count),
        None => true,
    }
}

fn has_page(seat: &Option<ReplicaBox>, page: u32) -> bool
    ensures { (value : ReplicaOf) → seat.now ≡ Some value → result ≡ has_page value.held.pages page }
{
    match seat {
        Some(replica) => replica.has_page(page),
        None => false,
    }
}

// Lends a thread of the replica in a seat with those pages of a wish that it has.
fn lend_pages(seat: &mut Option<ReplicaBox>, lane: &mut LaneBox, thread: u32, wish: &[u32])
    requires there { (value : ReplicaOf) × (seat.old ≡ Some value) }
    requires can { (value : ReplicaOf) → seat.old ≡ Some value → CanLend thread wish.now lane.old value }
    ensures { (value : ReplicaOf) → seat.old ≡ Some value → (after : ReplicaOf) × (seat.new ≡ Some after) × LendsPages thread wish.now value after lane.new }
{
    if let Some(replica) = seat {
        replica.lend_pages(lane, thread, wish);
    }
}

// Puts the thread and pages of a lane back into the replica in a seat.
fn take_back(seat: &mut Option<ReplicaBox>, thread: u32, lane: &mut LaneBox, stop: Option<Stop>)
    requires there { (value : ReplicaOf) × (seat.old ≡ Some value) }
    requires can { (value : ReplicaOf) → seat.old ≡ Some value → CanTakeBack thread lane.old value }
    ensures back { (value : ReplicaOf) → seat.old ≡ Some value → (after : ReplicaOf) × (seat.new ≡ Some after) × TakesBack thread lane.old stop value after }
    ensures lane { SameProgramOf lane.new lane.old }
    ensures none { lane.new.held.numbers ≡ [] }
{
    if let Some(replica) = seat {
        replica.put_back(thread, lane, stop);
    }
}

// Takes a replica out of its seat.
fn leave(seats: &mut [Option<ReplicaBox>], place: usize) -> ReplicaBox
    requires { IsSeat seats.old place }
    ensures replica { slice_get seats.old place ≡ Some (Some result) }
    ensures seats { seats.new ≡ slice_set seats.old place None }
{
    let Some(replica) = seats[place].take() else {
        unreachable!()
    };
    replica
}

// Puts a replica into its seat.
fn come_home(seats: &mut [Option<ReplicaBox>], place: usize, replica: ReplicaBox)
    requires { place < length seats.old }
    ensures { seats.new ≡ slice_set seats.old place (Some replica) }
{
    seats[place] = Some(replica);
}

/// Whether a replica is at home, and a thread of it stands still.
pub(crate) fn is_stopped(seat: &Option<ReplicaBox>, thread: u32) -> bool
    ensures { result ≡ seat_stopped thread seat.now }
{
    match seat {
        Some(replica) => replica.stop(thread).is_some(),
        None => false,
    }
}

// Whether a replica is at home, and a thread of it not stopped.
fn is_unstopped(seat: &Option<ReplicaBox>, thread: u32) -> bool
    ensures { result ≡ seat_unstopped thread seat.now }
{
    match seat {
        Some(replica) => replica.is_unstopped(thread),
        None => false,
    }
}

// Shows a thread that stands still in every replica, each of which is at home.
fn show_all(seats: &[Option<ReplicaBox>], thread: u32, views: &mut [View])
    requires stopped { list_all (seat_stopped thread) seats.now ≡ true }
    requires count { length views.old ≡ length seats.now }
    ensures views { (job : Job) (kernel : KernelSeen) (replicas : List ReplicaSeen) → AreHome job kernel seats.now replicas → views.new ≡ filter_map (view_of (ranges_in (setup_of job.program) kernel) thread) replicas }
    ensures count { length views.new ≡ length views.old }
{
    let Some((seat, other_seats)) = seats.split_first() else {
        return;
    };
    let Some((view, other_views)) = views.split_first_mut() else {
        return;
    };
    show(seat, thread, view);
    show_all(other_seats, thread, other_views);
}

fn show(seat: &Option<ReplicaBox>, thread: u32, view: &mut View)
    requires { seat_stopped thread seat.now ≡ true }
    ensures { (value : ReplicaOf) → seat.now ≡ Some value → view_of value.layout.ranges thread (replica_of value) ≡ Some view.new }
{
    if let Some(replica) = seat {
        replica.view(thread, view);
    }
}

// Makes sure that each replica can be given an event with no more memory. Where there is none, the replicas are as they were.
fn reserve_pages(seats: &mut [Option<ReplicaBox>]) -> Result<(), AllocError>
    ensures kept { (job : Job) (kernel : KernelSeen) (replicas : List ReplicaSeen) → AreHome job kernel seats.old replicas → AreHome job kernel seats.new replicas }
    ensures spared { OnOk result (AreSpared seats.new) }
{
    let Some((seat, others)) = seats.split_first_mut() else {
        return Ok(());
    };
    reserve_in(seat)?;
    reserve_pages(others)
}

fn reserve_in(seat: &mut Option<ReplicaBox>) -> Result<(), AllocError>
    ensures kept { KeepsSeat seat.old seat.new }
    ensures spared { OnOk result ((value : ReplicaOf) → seat.new ≡ Some value → MOST_PAGES ≤ value.held.spare) }
{
    match seat {
        Some(replica) => replica.reserve(MOST_PAGES),
        None => Ok(()),
    }
}

// Overwrites each loser with the winner.
fn recover_losers(seats: &mut [Option<ReplicaBox>], won: usize, lost: Lost)
    requires won { IsSeat seats.old won }
    requires lost { AreLosers seats.old won (numbers lost) }
    requires twins { AreAllTwins seats.old }
    ensures recovered { (job : Job) (kernel : KernelSeen) (replicas : List ReplicaSeen) → AreHome job kernel seats.old replicas → AreHome job kernel seats.new (with_recovered won (numbers lost) replicas) }
    ensures spared { AreSpared seats.old → AreSpared seats.new }
{
    match lost {
        Lost::Nobody => {}
        Lost::One(loser) => overwrite(seats, won, loser as usize),
        Lost::Two(first, second) => {
            overwrite(seats, won, first as usize);
            overwrite(seats, won, second as usize);
        }
    }
}

// Overwrites one replica with another.
fn overwrite(seats: &mut [Option<ReplicaBox>], won: usize, lost: usize)
    requires winner { IsSeat seats.old won }
    requires loser { IsSeat seats.old lost }
    requires differ { won ≢ lost }
    requires twins { AreAllTwins seats.old }
    ensures recovered { (job : Job) (kernel : KernelSeen) (replicas : List ReplicaSeen) → AreHome job kernel seats.old replicas → AreHome job kernel seats.new (with_copy won lost replicas) }
    ensures seats { (place : ℕ) → IsSeat seats.old place → IsSeat seats.new place }
    ensures twins { AreAllTwins seats.new }
    ensures spared { AreSpared seats.old → AreSpared seats.new }
{
    let winner = leave(seats, won);
    recover_in(&winner, &mut seats[lost]);
    come_home(seats, won, winner);
}

fn recover_in(winner: &ReplicaBox, seat: &mut Option<ReplicaBox>)
    requires there { (value : ReplicaOf) × (seat.old ≡ Some value) }
    requires twins { (value : ReplicaOf) → seat.old ≡ Some value → AreTwins winner.now value }
    ensures { (value : ReplicaOf) → seat.old ≡ Some value → (other : ReplicaOf) × (seat.new ≡ Some other) × Recovers winner.now value other }
{
    if let Some(loser) = seat {
        recover(winner, loser);
    }
}

// Does what an event does to every replica.
fn apply_to_all(seats: &mut [Option<ReplicaBox>], effect: &Effect)
    requires { CanTake effect.now seats.old }
    ensures { (job : Job) (before after : KernelSeen) (replicas : List ReplicaSeen) → after.given ≡ with_range effect.now.range before.given → AreHome job before seats.old replicas → AreHome job after seats.new (all_applied effect.now replicas) }
{
    let Some((seat, others)) = seats.split_first_mut() else {
        return;
    };
    apply_in(seat, effect);
    apply_to_all(others, effect);
}

fn apply_in(seat: &mut Option<ReplicaBox>, effect: &Effect)
    requires { CanTake effect.now (seat.old ∷ []) }
    ensures { (job : Job) (before after : KernelSeen) (replica : ReplicaSeen) → after.given ≡ with_range effect.now.range before.given → AreHome job before (seat.old ∷ []) (replica ∷ []) → AreHome job after (seat.new ∷ []) (all_applied effect.now (replica ∷ [])) }
{
    if let Some(replica) = seat {
        replica.apply(effect);
    }
}
