//! The seats of the peers, each empty while its peer is lent, and what is known of it meanwhile.
ghost use Rattle.std.specs.Prelude.{◌≡◌, ◌∷◌, ◌++◌, ◌||◌, [], ◌<◌, ◌≤◌, ◌+◌, ◌^◌, ℕ, List, IsSome, OnOk, None, Some, true, length, map, not, slice_index_or, slice_set, vec_len, vec_capacity};
ghost use Rattle.std.specs.List.{list_all, filter_map};
ghost use Rattle.ro_region.specs.Permission.{with_range};
ghost use Rattle.ro_kernel.specs.Kernel.{Kernel as KernelSeen, ranges_in};
ghost use Rattle.ro_plain.specs.Machine.{setup_of};
ghost use Rattle.ro_replica.specs.Replica.{Replica as ReplicaSeen};
ghost use Rattle.ro_replica.specs.Views.{view_of};
ghost use Rattle.ro_replica.specs.Seen.{CanApply, SameProgram, Widens};
ghost use Rattle.ro_peer.specs.Events.{affected, unanswered, entering as with_mutex_entered};
ghost use Rattle.ro_peer.specs.Seen.{number_of, peer_of};
ghost use Rattle.ro_takers.specs.Recalls.{Recalls};
ghost use Rattle.ro_legal.specs.Sides.{Side, opening_side, peer_with, taker_of};
ghost use Rattle.ro_legal.specs.Core.{Job, is_awaited, waits_beside};
ghost use Rattle.ro_legal.specs.Cooperative.{replica_after, replicas_after, side_served};
ghost use Rattle.ro_legal.specs.Lent.{IsOfJob};
ghost use Rattle.ro_coop_core.specs.Seats.{AllCanTake, AreHome, AreNear, AreNumbered, AreRanked, AreSpared, CanTake, HasDoneNothing, IsCeiling, IsHomeSeat, IsPartner, IsRanked, IsSpared, KnowMutex, KnowsParked, entered_of, noted, seat_answered, seat_stopped, seat_unstopped};

use crate::cores::THREADS;
use ro_event::{Effect, View};
use ro_legal::Parking;
use ro_peer::Peer;
use ro_takers::{MOST_APART, Takers};
use std::alloc::{AllocError, Global};

/// How many pages an event backs in a replica at most.
const MOST_PAGES: u32 = 3;

/// A peer, and below which ranks it may get its mutexes.
#[derive(Drop)]
pub struct Partner {
    pub peer: Peer,
    /// Of each mutex, by its number, the first rank at which it would be too far ahead.
    pub ceilings: Vec<u64>,
}

impl Partner {
    // Makes sure that it can be given an event, which makes a mutex more cooperative, with no more memory. Where there is none,
    // it is as it was.
    fn reserve(&mut self) -> Result<(), AllocError>
        ensures kept { (job : Job) (kernel : KernelSeen) (replica : ReplicaSeen) (side : Side) → IsPartner job kernel replica side self.old → IsPartner job kernel replica side self.new }
        ensures pages { OnOk result (MOST_PAGES ≤ self.new.peer.replica.held.spare) }
        ensures ceilings { OnOk result (vec_len self.new.ceilings < vec_capacity self.new.ceilings) }
    {
        self.peer.reserve(MOST_PAGES)?;
        self.ceilings.reserve(1)
    }

    // Does what an event of a thread does to the peer.
    fn occur(&mut self, effect: &Effect, thread: u32)
        requires applies { CanApply effect.now self.old.peer.replica }
        requires thread { thread < 16 }
        ensures program { Widens effect.now.range self.new.peer.replica self.old.peer.replica }
        ensures peer { peer_of self.new.peer ≡ unanswered thread (affected effect.now (peer_of self.old.peer)) }
        ensures ceilings { self.new.ceilings ≡ self.old.ceilings }
    {
        self.peer.apply(effect);
        self.peer.forget_answers(thread);
    }

    // A mutex becomes cooperative.
    fn enter(&mut self, entering: Entering)
        requires few { length self.old.peer.mutexes < 256 }
        requires new { number_of self.old.peer.mutexes entering.address ≡ None }
        requires room { vec_len self.old.ceilings < vec_capacity self.old.ceilings }
        ensures program { SameProgram self.new.peer.replica self.old.peer.replica }
        ensures peer { peer_of self.new.peer ≡ with_mutex_entered entering.address entering.owner (peer_of self.old.peer) }
        ensures ceilings { self.new.ceilings.items ≡ self.old.ceilings.items ++ 0 ∷ [] }
    {
        self.peer.enter(entering.address, entering.owner);
        self.ceilings.push_reserved(0);
    }
}

/// The seat of a peer, and what was known of it when it left.
#[derive(Drop)]
pub(crate) struct Seat {
    /// The peer, where it is not lent.
    pub home: Option<Partner>,
    /// Of each thread where it came back, where it last came back at a lock.
    pub parked: [Option<Parking>; THREADS],
    /// Of each thread how many instructions it has retired in it.
    pub done: [u64; THREADS],
    /// Who got each of its mutexes.
    pub takers: Takers,
}

/// A mutex that becomes cooperative.
#[derive(Clone, Copy, PartialEq, Eq, Debug)]
pub(crate) struct Entering {
    pub address: u32,
    pub owner: Option<u32>,
}

impl Seat {
    /// The seat of a peer at the opening.
    pub fn new(alloc: Global, peer: Peer) -> Seat
        ensures { (job : Job) (kernel : KernelSeen) (replica : ReplicaSeen) → IsOfJob job kernel peer.replica → peer_of peer ≡ peer_with replica opening_side → HasDoneNothing replica → IsHomeSeat job kernel replica opening_side result }
    {
        Seat {
            home: Some(Partner {
                peer,
                ceilings: Vec::new(alloc),
            }),
            parked: [None; THREADS],
            done: [0; THREADS],
            takers: Takers::new(alloc),
        }
    }

    /// Whether the peer is at home, and a thread of it not stopped.
    pub fn is_unstopped(&self, thread: u32) -> bool
        ensures { result ≡ seat_unstopped thread self.now }
    {
        match &self.home {
            Some(partner) => partner.peer.replica().is_unstopped(thread),
            None => false,
        }
    }

    /// Whether the peer is at home, and a thread of it stands still.
    pub fn is_stopped(&self, thread: u32) -> bool
        ensures { result ≡ seat_stopped thread self.now }
    {
        match &self.home {
            Some(partner) => partner.peer.replica().stop(thread).is_some(),
            None => false,
        }
    }

    /// Whether the peer is at home, and answered a call of a thread since the kernel last served one.
    pub fn has_answered(&self, thread: u32) -> bool
        ensures { result ≡ seat_answered thread self.now }
    {
        match &self.home {
            Some(partner) => partner.peer.has_answered(thread),
            None => false,
        }
    }

    /// Where a thread came back, where it last came back at a lock.
    pub fn parking(&self, thread: u32) -> Option<Parking>
        ensures { result ≡ slice_index_or self.now.parked thread None }
    {
        match self.parked.get(thread as usize) {
            Some(parking) => *parking,
            None => None,
        }
    }

    /// Whether another thread than this one waits for a mutex, and has not asked for a rank of it.
    pub fn is_awaited(&self, thread: u32, mutex: u32, rank: u32) -> bool
        ensures { (side : Side) → KnowsParked self.now side → result ≡ is_awaited side thread mutex rank }
    {
        for other in 0..THREADS as u32 {
            if self.waits_beside(thread, mutex, rank, other) {
                return true;
            }
        }
        false
    }

    // The same of one other thread.
    fn waits_beside(&self, thread: u32, mutex: u32, rank: u32, other: u32) -> bool
        ensures { (side : Side) → KnowsParked self.now side → result ≡ waits_beside side thread mutex rank other }
    {
        match self.parking(other) {
            Some(parking) => {
                other != thread && parking.mutex == mutex && !parking.has_asked(rank)
            }
            None => false,
        }
    }

    /// Takes the partner out of the seat.
    pub fn leave(&mut self) -> Partner
        requires { IsSome self.old.home }
        ensures partner { self.old.home ≡ Some result }
        ensures seat { self.new ≡ record self.old { home = None } }
    {
        let Some(partner) = self.home.take() else {
            unreachable!()
        };
        partner
    }

    /// Puts a partner back whose thread has run for so many instructions, and waits there at a lock, if it does. Answers how
    /// many the thread has retired in all.
    pub fn come_home(
        &mut self,
        thread: u32,
        partner: Partner,
        count: u32,
        parking: Option<Parking>,
    ) -> u64
        requires thread { thread < 16 }
        requires known { (lists : List (List ℕ)) × Recalls lists self.old.takers × (length lists ≡ length partner.peer.mutexes) }
        requires counted { slice_index_or self.old.done thread 0 + count < 2 ^ 64 }
        ensures home { self.new.home ≡ Some partner }
        ensures parked { self.new.parked ≡ slice_set self.old.parked thread parking }
        ensures done { self.new.done ≡ slice_set self.old.done thread result }
        ensures result { result ≡ slice_index_or self.old.done thread 0 + count }
        ensures takers { (lists : List (List ℕ)) → Recalls lists self.old.takers → Recalls (noted thread partner.peer.mutexes lists) self.new.takers }
    {
        self.note_takers(&partner.peer, thread);
        self.parked[thread as usize] = parking;
        self.home = Some(partner);
        let done = &mut self.done[thread as usize];
        *done += u64::from(count);
        *done
    }

    // Notes what a thread got in a run.
    fn note_takers(&mut self, peer: &Peer, thread: u32)
        requires thread { thread < 16 }
        requires known { (lists : List (List ℕ)) × Recalls lists self.old.takers × (length lists ≡ length peer.now.mutexes) }
        ensures same { self.new ≡ record self.old { takers = self.new.takers } }
        ensures takers { (lists : List (List ℕ)) → Recalls lists self.old.takers → Recalls (noted thread peer.now.mutexes lists) self.new.takers }
    {
        let mutexes = peer.mutexes();
        for number in 0..mutexes.count() as u32 {
            self.takers.note(number, mutexes.mutex(number).rank, thread);
        }
    }

    // Shows a thread that stands still.
    fn show(&self, thread: u32, view: &mut View)
        requires { seat_stopped thread self.now ≡ true }
        ensures { (job : Job) (kernel : KernelSeen) (replica : ReplicaSeen) (side : Side) → IsHomeSeat job kernel replica side self.now → view_of (ranges_in (setup_of job.program) kernel) thread replica ≡ Some view.new }
    {
        if let Some(partner) = &self.home {
            partner.peer.replica().view(thread, view);
        }
    }

    // Makes sure that the peer can be given an event, which makes a mutex more cooperative, with no more memory. Where there is
    // none, the peer is as it was.
    fn reserve(&mut self) -> Result<(), AllocError>
        ensures kept { (job : Job) (kernel : KernelSeen) (replica : ReplicaSeen) (side : Side) → IsHomeSeat job kernel replica side self.old → IsHomeSeat job kernel replica side self.new }
        ensures spared { OnOk result (IsSpared self.new) }
    {
        self.takers.reserve()?;
        match &mut self.home {
            Some(partner) => partner.reserve(),
            None => Ok(()),
        }
    }

    // Does what an event of a thread does to the peer.
    fn occur(&mut self, effect: &Effect, thread: u32, entering: Option<Entering>)
        requires can { (partner : Partner) → self.old.home ≡ Some partner → CanTake effect.now thread entering partner }
        requires room { 0 < self.old.takers.room }
        ensures { (job : Job) (before after : KernelSeen) (replica : ReplicaSeen) (side : Side) → after.given ≡ with_range effect.now.range before.given → IsRanked side → IsHomeSeat job before replica side self.old → IsHomeSeat job after (replica_after effect.now (entered_of entering) side replica) (side_served thread (entered_of entering) side) self.new }
    {
        let Some(partner) = &mut self.home else {
            return;
        };
        partner.occur(effect, thread);
        if let Some(entering) = entering {
            partner.enter(entering);
            self.takers.enter();
        }
    }
}

/// Who got a mutex at a rank, by the first seat that knows of it.
pub(crate) fn taker(seats: &[Seat], number: u32, rank: u32) -> Option<u32>
    requires known { KnowMutex number seats.now }
    ensures { (sides : List Side) (address : ℕ) → AreNumbered number address sides seats.now → AreNear address rank sides → result ≡ taker_of sides address rank }
{
    let Some((seat, others)) = seats.split_first() else {
        return None;
    };
    match seat.takers.taker(number, rank) {
        Some(thread) => Some(thread),
        None => taker(others, number, rank),
    }
}

/// The first rank of a mutex at which some peer would be left too far behind.
pub(crate) fn ceiling(seats: &[Seat], number: u32) -> u64
    requires known { KnowMutex number seats.now }
    ensures { (sides : List Side) (address : ℕ) → AreNumbered number address sides seats.now → IsCeiling sides address result }
{
    let Some((seat, others)) = seats.split_first() else {
        return u64::MAX;
    };
    let own = u64::from(seat.takers.rank(number)) + u64::from(MOST_APART);
    own.min(ceiling(others, number))
}

/// Shows a thread that stands still in every peer, each of which is at home.
pub(crate) fn show_all(seats: &[Seat], thread: u32, views: &mut [View])
    requires stopped { list_all (seat_stopped thread) seats.now ≡ true }
    requires count { length views.old ≡ length seats.now }
    ensures views { (job : Job) (kernel : KernelSeen) (replicas : List ReplicaSeen) (sides : List Side) → AreHome job kernel replicas sides seats.now → views.new ≡ filter_map (view_of (ranges_in (setup_of job.program) kernel) thread) replicas }
    ensures count { length views.new ≡ length views.old }
{
    let Some((seat, other_seats)) = seats.split_first() else {
        return;
    };
    let Some((view, other_views)) = views.split_first_mut() else {
        return;
    };
    seat.show(thread, view);
    show_all(other_seats, thread, other_views);
}

/// Whether all peers answered a call of a thread since the kernel last served one, or none did. Each is at home.
pub(crate) fn have_answered_alike(seats: &[Seat], thread: u32) -> bool
    ensures { result ≡ (list_all (seat_answered thread) seats.now || list_all (λ seat. not (seat_answered thread seat)) seats.now) }
{
    have_all_answered(seats, thread) || has_none_answered(seats, thread)
}

fn have_all_answered(seats: &[Seat], thread: u32) -> bool
    ensures { result ≡ list_all (seat_answered thread) seats.now }
{
    seats.iter().all(|seat| seat.has_answered(thread))
}

fn has_none_answered(seats: &[Seat], thread: u32) -> bool
    ensures { result ≡ list_all (λ seat. not (seat_answered thread seat)) seats.now }
{
    seats.iter().all(|seat| !seat.has_answered(thread))
}

/// Makes sure that each peer can be given an event with no more memory. Where there is none, the peers are as they were.
pub(crate) fn reserve_all(seats: &mut [Seat]) -> Result<(), AllocError>
    ensures kept { (job : Job) (kernel : KernelSeen) (replicas : List ReplicaSeen) (sides : List Side) → AreHome job kernel replicas sides seats.old → AreHome job kernel replicas sides seats.new }
    ensures spared { OnOk result (AreSpared seats.new) }
{
    let Some((seat, others)) = seats.split_first_mut() else {
        return Ok(());
    };
    seat.reserve()?;
    reserve_all(others)
}

/// Does what an event of a thread does to every peer, each of which is at home.
pub(crate) fn occur_in_all(
    seats: &mut [Seat],
    effect: &Effect,
    thread: u32,
    entering: Option<Entering>,
)
    requires { AllCanTake effect.now thread entering seats.old }
    ensures { (job : Job) (before after : KernelSeen) (replicas : List ReplicaSeen) (sides : List Side) → after.given ≡ with_range effect.now.range before.given → AreRanked sides → AreHome job before replicas sides seats.old → AreHome job after (replicas_after effect.now (entered_of entering) replicas sides) (map (side_served thread (entered_of entering)) sides) seats.new }
{
    let Some((seat, others)) = seats.split_first_mut() else {
        return;
    };
    seat.occur(effect, thread, entering);
    occur_in_all(others, effect, thread, entering);
}
