//! Leases: a peer's thread goes out to a driver, and comes back.
ghost use Rattle.std.specs.Prelude.{◌≡◌, ◌<◌, ◌+◌, ◌-◌, ◌^◌, IfSome, OnOk, Some, None, length, max};
ghost use Rattle.ro_journal.specs.declared.Entry.TheVariants.{Take, Put, Part};
ghost use Rattle.ro_peer.specs.Leases.{waiting_at};
ghost use Rattle.ro_legal.specs.declared.parkings.Parking.{Parking as ParkingSeen};
ghost use Rattle.ro_legal.specs.Cooperative.{IsAllowed};
ghost use Rattle.ro_coop_core.specs.Seen.{parking_at, Appends, Stays, HasRoom, IsLent, MayReturn, ReturnIs};
ghost use Rattle.ro_coop_core.specs.Fields.{Holds};
ghost use Rattle.ro_coop_core.specs.Runs.{fields_of, job_of, state_of, seen};

use crate::cores::Core;
use crate::seats::Partner;
use ro_journal::{Entry, Lease};
use ro_legal::{Parking, forget_lease, lease_of, note_lease};
use ro_peer::{Came, Mutexes};
use std::alloc::AllocError;

impl Core {
    /// Makes room for a take, its return, the returns of the leases that are out, and the end.
    ///
    /// # Errors
    /// Where there is no memory.
    pub fn room(&mut self) -> Result<(), AllocError>
        requires holds { Holds (fields_of self.old) }
        ensures holds { Holds (fields_of self.new) }
        ensures stays { Stays (seen self.old) (seen self.new) }
        ensures room { OnOk result (HasRoom (seen self.new)) }
        ensures ended { (fields_of self.new).ended ≡ (fields_of self.old).ended }
    {
        self.leases.reserve(1)?;
        self.journal.reserve(self.leases.len() + 3)
    }

    /// Lends a peer's thread to a driver.
    pub fn take(&mut self, lease: Lease) -> Partner
        requires holds { Holds (fields_of self.old) }
        requires allowed { IsAllowed (job_of self.old) (state_of self.old) (Take lease) }
        requires room { HasRoom (seen self.old) }
        ensures holds { Holds (fields_of self.new) }
        ensures entry { Appends (seen self.old) (seen self.new) (Take lease) }
        ensures output { (state_of self.new).output ≡ (state_of self.old).output }
        ensures lent { IsLent (seen self.old) lease.replica lease.thread result }
        ensures ended { (fields_of self.new).ended ≡ (fields_of self.old).ended }
    {
        self.journal.push_reserved(Entry::Take(lease));
        note_lease(&mut self.leases, lease);
        self.wrote = 0;
        let mut partner = self.seats[lease.replica as usize].leave();
        partner.limit(self.seats.as_slice(), lease.replica, lease.thread);
        partner
    }

    /// Puts a peer back that a driver has run for so many instructions. Where its thread waits at a lock, it is not lent again
    /// before that may have changed.
    pub fn put(&mut self, driver: u32, partner: Partner, count: u32, came: Came)
        requires holds { Holds (fields_of self.old) }
        requires returns { MayReturn (seen self.old) driver partner count came }
        ensures holds { Holds (fields_of self.new) }
        ensures entry { ReturnIs (seen self.old) (seen self.new) driver count came }
        ensures output { (state_of self.new).output ≡ (state_of self.old).output }
        ensures ended { (fields_of self.new).ended ≡ (fields_of self.old).ended }
    {
        let Some(lease) = lease_of(self.leases.as_slice(), driver) else {
            unreachable!()
        };
        let parking = parking_at(partner.peer.mutexes(), came);
        self.journal.push_reserved(return_of(lease, count, parking));
        forget_lease(&mut self.leases, lease);
        self.wrote = 0;
        let done = self.seats[lease.replica as usize].come_home(
            lease.thread,
            partner,
            count,
            parking,
        );
        note_done(
            &mut self.steps,
            &mut self.most_done[lease.thread as usize],
            done,
        );
    }
}

// Notes how many instructions a thread has retired in a replica, and those that it did in none before as new steps.
fn note_done(steps: &mut u64, most: &mut u64, done: u64)
    requires { steps.old + (done - most.old) < 2 ^ 64 }
    ensures steps { steps.new ≡ steps.old + (done - most.old) }
    ensures most { most.new ≡ max most.old done }
{
    if done > *most {
        *steps += done - *most;
        *most = done;
    }
}

// The entry of a lease that came back after so many instructions, by where its thread waits.
fn return_of(lease: Lease, count: u32, parking: Option<Parking>) -> Entry
    ensures elsewhere { parking ≡ None → result ≡ Put lease count 0 }
    ensures waits { (place : ParkingSeen) → parking ≡ Some place → result ≡ Part lease count 0 }
{
    match parking {
        None => Entry::Put {
            lease,
            count,
            hit: 0,
        },
        Some(_) => Entry::Part {
            lease,
            count,
            hit: 0,
        },
    }
}

// Where a thread waits that came back so, if it does.
fn parking_at(mutexes: &Mutexes, came: Came) -> Option<Parking>
    requires { IfSome (waiting_at came) (λ number. number < length mutexes.now) }
    ensures { result ≡ parking_at mutexes.now came }
{
    let number = came.waits_at()?;
    let mutex = mutexes.mutex(number);
    Some(Parking {
        mutex: mutex.address,
        rank: mutex.rank,
        asked: mutex.owner.is_none(),
    })
}
