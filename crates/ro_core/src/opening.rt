//! Opening a run.
ghost use Rattle.std.specs.Prelude.{◌≡◌, ◌≤◌, ◌*◌, ℕ, [], List, Option, None, Some, IfErr, IfOk, IsSome, length, slice_get};
ghost use Rattle.ro_settings.specs.Ranges.{InRange};
ghost use Rattle.ro_replica.specs.Seen.{AreFaults};
ghost use Rattle.ro_core.specs.Seen.{Opens};
ghost use Rattle.ro_legal.specs.Core.{Job, sharing_of};
ghost use Rattle.ro_legal.specs.Parts.{Whole};
ghost use Rattle.ro_core.specs.declared.wishing.Wish.{Wish as WishSeen};
ghost use Rattle.ro_core.specs.Fields.{Holds, lent_at};
ghost use Rattle.ro_core.specs.Opening.{AreFirst, IsOpened};
ghost use Rattle.ro_core.specs.Runs.{fields_of, silent};

use crate::cores::{Core, THREADS};
use crate::seats::Seats;
use crate::wishing::{PageList, Wish};
use ro_event::{Stop, View};
use ro_faults::Fault;
use ro_group::Groups;
use ro_image::Executable;
use ro_journal::Entry;
use ro_kernel::Kernel;
use ro_legal::{Waits, lends_pages};
use ro_limits::MOST_THREADS;
use ro_region::Regions;
use ro_replica::{Replica, ReplicaBox};
use ro_settings::Settings;
use std::alloc::{AllocError, Global};

/// All of a run's opening for which memory is taken.
#[derive(Drop)]
pub(crate) struct Opening {
    faults: Vec<Fault>,
    journal: Vec<Entry>,
    seats: Seats,
    lent: Vec<Option<PageList>>,
    wishes: Vec<Wish>,
    kernel: Kernel,
    views: Vec<View>,
}

impl Core {
    /// Opens a run of the program of an image, with an input and faults to be struck.
    ///
    /// # Errors
    /// Where there is no memory; the image comes back.
    pub fn begin(
        alloc: Global,
        image: Executable,
        input: &[u8],
        faults: &[Fault],
        settings: Settings,
    ) -> Result<Core, Executable>
        requires settings { InRange settings }
        requires faults { AreFaults faults.now }
        ensures holds { IfOk result (λ run. Holds (fields_of run)) }
        ensures opens { IfOk result (λ run. Opens (record { program = record { image = image; input = input.now }; faults = faults.now; settings = settings }) None 0 0 (silent run)) }
        ensures back { IfErr result (λ given. given ≡ image) }
    {
        match Opening::new(alloc, &image, input, faults, settings) {
            Ok(opening) => Ok(Core {
                image,
                faults: opening.faults,
                settings,
                journal: opening.journal,
                seats: opening.seats,
                leases: Vec::new(alloc),
                lent: opening.lent,
                wishes: opening.wishes,
                lanes: Vec::new(alloc),
                kernel: opening.kernel,
                blocked: [None; THREADS],
                unblocked: None,
                calm: 0,
                steps: 0,
                scrubbed: 0,
                waits: Waits::new(),
                sent: 0,
                wrote: 0,
                due: None,
                ended: None,
                views: opening.views,
                alloc,
            }),
            Err(_) => Err(image),
        }
    }
}

impl Opening {
    // Takes the memory for the opening of an image.
    fn new(
        alloc: Global,
        image: &Executable,
        input: &[u8],
        faults: &[Fault],
        settings: Settings,
    ) -> Result<Opening, AllocError>
        requires faults { AreFaults faults.now }
        requires replicas { settings.replicas ≤ 5 }
        ensures { IfOk result (IsOpened (record { program = record { image = image.now; input = input.now }; faults = faults.now; settings = settings })) }
    {
        let kernel = Kernel::new(alloc, image.heap(), image.ranges(), input)?;
        let homes = opening_seats(alloc, image, kernel.regions(), faults, settings)?;
        Ok(Opening {
            faults: faults.to_vec(alloc)?,
            journal: Vec::with_capacity(alloc, 1)?,
            seats: Seats {
                homes,
                groups: Groups::new(alloc, settings.replicas)?,
            },
            lent: first_lent(alloc, settings)?,
            wishes: first_wishes(alloc, settings)?,
            kernel,
            views: blank_views(alloc, settings.replicas)?,
        })
    }
}

// Where pages are lent, a place for what each driver's lease has. None is out.
fn first_lent(alloc: Global, settings: Settings) -> Result<Vec<Option<PageList>>, AllocError>
    ensures none { IfOk result (λ lent. (driver : ℕ) → lent_at lent.items driver ≡ Whole) }
    ensures count { IfOk result (λ lent. (job : Job) → job.settings ≡ settings → IsSome (sharing_of job) → length lent.items ≡ settings.drivers) }
{
    if lends_pages(&settings) {
        whole_lent(alloc, settings.drivers)
    } else {
        Ok(Vec::new(alloc))
    }
}

// So many drivers, of which none has pages.
#[tactic(auto, using(crate::proofs::Wishings::whole_pushed))]
fn whole_lent(alloc: Global, drivers: u32) -> Result<Vec<Option<PageList>>, AllocError>
    ensures none { IfOk result (λ lent. (driver : ℕ) → lent_at lent.items driver ≡ Whole) }
    ensures count { IfOk result (λ lent. length lent.items ≡ drivers) }
{
    let mut lent = Vec::new(alloc);
    for _ in 0..drivers {
        lent.push(None)?;
    }
    Ok(lent)
}

// Where pages are lent, a wish for each thread of each replica, of which none has missed a page.
fn first_wishes(alloc: Global, settings: Settings) -> Result<Vec<Wish>, AllocError>
    requires { settings.replicas ≤ 5 }
    ensures none { IfOk result (λ wishes. (place : ℕ) (wish : WishSeen) → slice_get wishes.items place ≡ Some wish → (wish.pages.items ≡ []) × (wish.misses ≡ 0)) }
    ensures count { IfOk result (λ wishes. (job : Job) → job.settings ≡ settings → IsSome (sharing_of job) → length wishes.items ≡ 16 * settings.replicas) }
{
    if lends_pages(&settings) {
        blank_wishes(alloc, MOST_THREADS * settings.replicas)
    } else {
        Ok(Vec::new(alloc))
    }
}

// So many threads, of which none has missed a page.
#[tactic(auto, using(crate::proofs::Wishings::first_pushed))]
fn blank_wishes(alloc: Global, count: u32) -> Result<Vec<Wish>, AllocError>
    ensures none { IfOk result (λ wishes. (place : ℕ) (wish : WishSeen) → slice_get wishes.items place ≡ Some wish → (wish.pages.items ≡ []) × (wish.misses ≡ 0)) }
    ensures count { IfOk result (λ wishes. length wishes.items ≡ count) }
{
    let mut wishes = Vec::new(alloc);
    for _ in 0..count {
        wishes.push(Wish::new())?;
    }
    Ok(wishes)
}

// The replicas in their seats.
fn opening_seats(
    alloc: Global,
    image: &Executable,
    regions: &Regions,
    faults: &[Fault],
    settings: Settings,
) -> Result<Vec<Option<ReplicaBox>>, AllocError>
    requires regions { regions.now.first ≡ image.now.ranges }
    requires faults { AreFaults faults.now }
    ensures first { IfOk result (λ seats. AreFirst image.now faults.now settings.watchdog seats.items) }
    ensures count { IfOk result (λ seats. length seats.items ≡ settings.replicas) }
{
    let mut seats = Vec::new(alloc);
    for number in 0..settings.replicas {
        let regions = regions.opening(alloc)?;
        let replica = Replica::new(alloc, image, regions, number, faults, settings.watchdog)?;
        seats.push(Some(ReplicaBox::new(alloc, replica)?))?;
    }
    Ok(seats)
}

// Room for so many views.
fn blank_views(alloc: Global, count: u32) -> Result<Vec<View>, AllocError>
    ensures count { IfOk result (λ views. length views.items ≡ count) }
{
    let mut views = Vec::new(alloc);
    for _ in 0..count {
        views.push(View::new([0; 31], 0, 0, Stop::Watchdog))?;
    }
    Ok(views)
}
