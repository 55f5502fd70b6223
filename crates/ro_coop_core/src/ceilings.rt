//! Below which ranks a lease may get the mutexes of its peer.
ghost use Rattle.std.specs.Prelude.{◌≡◌, ◌<◌, ◌^◌, ◌==◌, ℕ, List, false, not, Some, length, nat_lt, slice_get, slice_index_or};
ghost use Rattle.ro_peer.specs.declared.mutexes.Mutex.{Mutex as MutexSeen};
ghost use Rattle.ro_peer.specs.Seen.{peer_of};
ghost use Rattle.ro_legal.specs.Sides.{Side, is_ahead};
ghost use Rattle.ro_legal.specs.Core.{Core as CoreSeen, first_given_up};
ghost use Rattle.ro_legal.specs.Cooperative.{peer_in};
ghost use Rattle.ro_coop_core.specs.declared.seats.Seat.{Seat as SeatSeen};
ghost use Rattle.ro_coop_core.specs.Fields.{Holds};
ghost use Rattle.ro_coop_core.specs.Seats.{AreLowered, AreNear, AreNumbered, EachIsCeiling, IsCeiling, KnowEach, KnowMutex, KnowsParked};
ghost use Rattle.ro_coop_core.specs.Seen.{AreCeilings};
ghost use Rattle.ro_coop_core.specs.Runs.{fields_of, state_of};

use crate::cores::{Core, THREADS};
use crate::seats::{Partner, Seat, ceiling, taker};
use ro_legal::Parking;
use ro_peer::Mutexes;

impl Core {
    /// Sets below which ranks what was lent may get its mutexes by now: below those that are too far ahead, whoever waits. The
    /// number of its replica says of which peer the contract speaks.
    pub fn bound(&self, partner: &mut Partner, replica: u32)
        requires holds { Holds (fields_of self.now) }
        requires peer { peer_in (state_of self.now) replica ≡ Some (peer_of partner.old.peer) }
        requires count { length partner.old.ceilings.items ≡ length partner.old.peer.mutexes }
        ensures peer { partner.new.peer ≡ partner.old.peer }
        ensures count { length partner.new.ceilings.items ≡ length partner.old.ceilings.items }
        ensures ceilings { (number rank : ℕ) (mutex : MutexSeen) → slice_get partner.old.peer.mutexes number ≡ Some mutex → rank < 2 ^ 32 → nat_lt rank (slice_index_or partner.new.ceilings.items number 0) ≡ not (is_ahead (state_of self.now).sides mutex.address rank) }
    {
        set_ceilings(self.seats.as_slice(), partner.ceilings.as_mut_slice());
    }
}

impl Partner {
    /// Sets below which ranks a lease of a thread may get the mutexes, where this is the place of the partner's seat.
    pub(crate) fn limit(&mut self, seats: &[Seat], place: u32, thread: u32)
        requires place { place < length seats.now }
        requires few { length self.old.peer.mutexes < 2 ^ 32 }
        requires count { length self.old.ceilings.items ≡ length self.old.peer.mutexes }
        requires known { (sides : List Side) × KnowEach sides seats.now self.old.peer.mutexes }
        ensures peer { self.new.peer ≡ self.old.peer }
        ensures count { length self.new.ceilings.items ≡ length self.old.ceilings.items }
        ensures ceilings { (core : CoreSeen) (side : Side) (seat : SeatSeen) → side.mutexes ≡ self.old.peer.mutexes → KnowEach core.sides seats.now side.mutexes → slice_get seats.now place ≡ Some seat → KnowsParked seat side → AreCeilings core side thread self.new.ceilings.items }
    {
        let ceilings = self.ceilings.as_mut_slice();
        set_ceilings(seats, ceilings);
        give_way(seats, place, thread, self.peer.mutexes(), ceilings);
    }
}

// Sets the ceilings of a peer's mutexes, by their numbers, to the first ranks that are too far ahead.
fn set_ceilings(seats: &[Seat], ceilings: &mut [u64])
    requires few { length ceilings.old < 2 ^ 32 }
    requires known { (number : ℕ) → number < length ceilings.old → KnowMutex number seats.now }
    ensures count { length ceilings.new ≡ length ceilings.old }
    ensures ceilings { (sides : List Side) (number address : ℕ) → number < length ceilings.old → AreNumbered number address sides seats.now → IsCeiling sides address (slice_index_or ceilings.new number 0) }
{
    for number in 0..ceilings.len() {
        ceilings[number] = ceiling(seats, number as u32);
    }
}

// Lowers the ceilings of the mutexes for which another thread of the peer waits than this one.
fn give_way(seats: &[Seat], place: u32, thread: u32, mutexes: &Mutexes, ceilings: &mut [u64])
    requires place { place < length seats.now }
    requires count { length ceilings.old ≡ length mutexes.now }
    requires known { (sides : List Side) × KnowEach sides seats.now mutexes.now }
    ensures count { length ceilings.new ≡ length ceilings.old }
    ensures ceilings { (core : CoreSeen) (side : Side) (seat : SeatSeen) → side.mutexes ≡ mutexes.now → KnowEach core.sides seats.now side.mutexes → slice_get seats.now place ≡ Some seat → KnowsParked seat side → EachIsCeiling core.sides side.mutexes ceilings.old → AreCeilings core side thread ceilings.new }
{
    let seat = &seats[place as usize];
    for other in 0..THREADS as u32 {
        if other != thread {
            give_way_to(seats, thread, seat.parking(other), mutexes, ceilings);
        }
    }
}

// Lowers the ceiling of the mutex at which another thread waits, if it does.
fn give_way_to(
    seats: &[Seat],
    thread: u32,
    parking: Option<Parking>,
    mutexes: &Mutexes,
    ceilings: &mut [u64],
)
    requires count { length ceilings.old ≡ length mutexes.now }
    requires known { (sides : List Side) × KnowEach sides seats.now mutexes.now }
    ensures count { length ceilings.new ≡ length ceilings.old }
    ensures ceilings { (core : CoreSeen) (side : Side) (other : ℕ) → side.mutexes ≡ mutexes.now → KnowEach core.sides seats.now side.mutexes → side.parked other ≡ parking → (other == thread) ≡ false → AreLowered core side thread other ceilings.old ceilings.new }
{
    let Some(parking) = parking else {
        return;
    };
    let Some(number) = mutexes.number(parking.mutex) else {
        return;
    };
    let mutex = mutexes.mutex(number);
    if !parking.has_asked(mutex.rank) {
        let ceiling = &mut ceilings[number as usize];
        *ceiling = (*ceiling).min(first_given_up(seats, thread, number, mutex.rank));
    }
}

// Of a peer's mutex for which another thread waits, the first rank that a thread gives up: the next one, or, where it got that
// one in another peer, the one behind it.
fn first_given_up(seats: &[Seat], thread: u32, number: u32, rank: u32) -> u64
    requires known { KnowMutex number seats.now }
    ensures { (core : CoreSeen) (mutex : MutexSeen) → mutex.rank ≡ rank → AreNumbered number mutex.address core.sides seats.now → AreNear mutex.address rank core.sides → result ≡ first_given_up core thread mutex }
{
    match taker(seats, number, rank) {
        Some(own) if own == thread => u64::from(rank) + 1,
        _ => u64::from(rank),
    }
}
