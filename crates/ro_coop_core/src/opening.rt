//! Opening a run.
ghost use Rattle.std.specs.Prelude.{◌≡◌, ◌<◌, ◌+◌, ◌||◌, ◌∷◌, [], ℕ, List, Option, IfErr, IfOk, not, length, drop};
ghost use Rattle.ro_event.specs.declared.calls.Which.TheVariants.{Function as OfFunction};
ghost use Rattle.ro_event.specs.Functions.{functions};
ghost use Rattle.ro_orders.specs.Choices.{has_otherwise};
ghost use Rattle.ro_orders.specs.Turns.{takes_otherwise};
ghost use Rattle.ro_coop_core.specs.Fields.{Holds, IsCalm};
ghost use Rattle.ro_coop_core.specs.Opening.{AreFirst, IsOpened};
ghost use Rattle.ro_coop_core.specs.Runs.{fields_of, job_of};

use crate::cores::{Core, THREADS};
use crate::seats::Seat;
use ro_event::{FUNCTIONS, Function, Stop, View};
use ro_image::Executable;
use ro_journal::Entry;
use ro_kernel::Kernel;
use ro_legal::Waits;
use ro_peer::Peer;
use ro_region::Regions;
use ro_replica::{Replica, ReplicaBox};
use ro_settings::Settings;
use std::alloc::{AllocError, Global};

/// All of a run's opening for which memory is taken.
#[derive(Drop)]
pub(crate) struct Opening {
    journal: Vec<Entry>,
    seats: Vec<Seat>,
    kernel: Kernel,
    views: Vec<View>,
}

impl Core {
    /// Opens a run of the program of an image, with an input.
    ///
    /// # Errors
    /// Where there is no memory; the image comes back.
    pub fn begin(
        alloc: Global,
        image: Executable,
        input: &[u8],
        settings: Settings,
    ) -> Result<Core, Executable>
        requires calm { IsCalm (record { program = record { image = image; input = input.now }; faults = []; settings = settings }) }
        ensures holds { IfOk result (λ run. Holds (fields_of run)) }
        ensures job { IfOk result (λ run. job_of run ≡ record { program = record { image = image; input = input.now }; faults = []; settings = settings }) }
        ensures journal { IfOk result (λ run. (fields_of run).journal ≡ []) }
        ensures back { IfErr result (λ given. given ≡ image) }
    {
        let Ok(opening) = Opening::new(alloc, &image, input, settings) else {
            return Err(image);
        };
        let cooperates = takes_by_locks(&image);
        Ok(Core {
            image,
            settings,
            journal: opening.journal,
            seats: opening.seats,
            leases: Vec::new(alloc),
            kernel: opening.kernel,
            cooperates,
            blocked: [None; THREADS],
            most_done: [0; THREADS],
            steps: 0,
            waits: Waits::new(),
            sent: 0,
            wrote: 0,
            due: None,
            ended: None,
            views: opening.views,
            alloc,
        })
    }
}

// Whether no function of a program's table of calls takes a mutex otherwise than by a lock, so that its mutexes cooperate.
fn takes_by_locks(image: &Executable) -> bool
    ensures { result ≡ not (has_otherwise image.now.calls.addresses functions) }
{
    let addresses = image.calls().addresses();
    for place in 0..FUNCTIONS {
        if takes_otherwise(addresses[place], place) {
            return false;
        }
    }
    true
}

// Whether the function at a place of the table of calls may take a mutex, is no lock, and has an address.
fn takes_otherwise(address: Option<u32>, place: usize) -> bool
    requires { place < length functions }
    ensures { (others : List (Option ℕ)) → has_otherwise (address ∷ others) (drop place functions) ≡ (result || has_otherwise others (drop (place + 1) functions)) }
{
    let function = Function::at(place);
    address.is_some() && is_otherwise(function)
}

fn is_otherwise(function: Function) -> bool
    ensures { result ≡ takes_otherwise (OfFunction function) }
{
    matches!(function, Function::TryLock | Function::Wait)
}

impl Opening {
    // Takes the memory for the opening of an image.
    fn new(
        alloc: Global,
        image: &Executable,
        input: &[u8],
        settings: Settings,
    ) -> Result<Opening, AllocError>
        ensures { IfOk result (IsOpened (record { program = record { image = image.now; input = input.now }; faults = []; settings = settings })) }
    {
        let kernel = Kernel::new(alloc, image.heap(), image.ranges(), input)?;
        let seats = opening_seats(alloc, image, kernel.regions(), settings)?;
        Ok(Opening {
            journal: Vec::with_capacity(alloc, 1)?,
            seats,
            kernel,
            views: blank_views(alloc, settings.replicas)?,
        })
    }
}

// The peers in their seats.
fn opening_seats(
    alloc: Global,
    image: &Executable,
    regions: &Regions,
    settings: Settings,
) -> Result<Vec<Seat>, AllocError>
    requires regions { regions.now.first ≡ image.now.ranges }
    ensures first { IfOk result (λ seats. AreFirst image.now settings.watchdog seats.items) }
    ensures count { IfOk result (λ seats. length seats.items ≡ settings.replicas) }
{
    let mut seats = Vec::new(alloc);
    for number in 0..settings.replicas {
        let regions = regions.opening(alloc)?;
        let replica = Replica::new(alloc, image, regions, number, &[], settings.watchdog)?;
        let peer = Peer::new(alloc, ReplicaBox::new(alloc, replica)?)?;
        seats.push(Seat::new(alloc, peer))?;
    }
    Ok(seats)
}

// Room for so many views.
fn blank_views(alloc: Global, count: u32) -> Result<Vec<View>, AllocError>
    ensures count { IfOk result (λ views. length views.items ≡ count) }
{
    let mut views = Vec::new(alloc);
    for _ in 0..count {
        views.push(View::new([0; 31], 0, 0, Stop::Watchdog))?;
    }
    Ok(views)
}
