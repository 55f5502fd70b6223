//! What drivers of a cooperative run share: a lock page for as many mutexes as a kernel's table can have.
ghost use Rattle.std.specs.Prelude.{◌≡◌, ◌≤◌, IfOk, length};
ghost use Rattle.ro_orders.specs.Copies.{Rows};
ghost use Rattle.ro_lockpage.specs.Pages.{AreFrom, AllAgree, fresh_passes};
ghost use Rattle.ro_coop_lease.specs.Loans.{CanGo, Gives};
ghost use Rattle.ro_cores.specs.Sharing.{AreSpare};

use ro_coop_lease::{Back, Lent};
use ro_lockpage::{LockPage, Pass};
use std::alloc::{AllocError, Global};
use std::marker::Model;

/// How many mutexes a kernel's table can have.
const MUTEXES: u32 = 256;

/// How many rows a mutex has: as many as the ranks that replicas may be apart.
const ROWS: u32 = 1024;

/// How many passes a page has.
const PASSES: usize = 8;

/// A lock page that drivers share.
#[derive(Drop)]
pub struct SharedPage {
    page: LockPage,
}

// Contracts see which page it is.
impl Model for SharedPage {
    ghost use Rattle.std.specs.Prelude.{◌≡◌};
    ghost use Rattle.atomic_table.specs.Seated.{TableId};

    ghost Value = { TableId };

    ghost view = { λ s. s.page.name };

    ghost invariant = { λ s. s.page.mutexes ≡ 256 };
}

/// The passes of a page that no driver has, and room for all, with which it can be closed when there is no memory.
#[derive(Drop)]
pub struct Spare {
    passes: Vec<Pass>,
    room: Vec<Pass>,
}

// Contracts see the passes.
impl Model for Spare {
    ghost use Rattle.std.specs.Prelude.{◌≡◌, ◌≤◌, List, [], vec_capacity};
    ghost use Rattle.ro_lockpage.specs.Pages.{PassOf};

    ghost Value = { List PassOf };

    ghost view = { λ s. s.passes.items };

    ghost invariant = { λ s. (s.room.items ≡ []) × (8 ≤ vec_capacity s.room) };
}

impl SharedPage {
    /// A page that nobody asked, a pass for each of so many drivers, and what they don't have.
    ///
    /// # Errors
    /// Where there is no memory.
    pub fn open(alloc: Global, drivers: u32) -> Result<(SharedPage, Vec<Pass>, Spare), AllocError>
        requires { drivers ≤ 8 }
        ensures passes { IfOk result (λ made. made.1.items ≡ fresh_passes made.0 drivers) }
        ensures spare { IfOk result (λ made. AreSpare made.0 made.2 drivers) }
    {
        let (page, mut passes) = LockPage::new(alloc, MUTEXES, ROWS)?;
        let room = Vec::with_capacity(alloc, PASSES)?;
        let spare = passes.split_off(drivers as usize)?;
        let spare = Spare {
            passes: spare,
            room,
        };
        Ok((SharedPage { page }, passes, spare))
    }

    /// Runs a lease's thread. The page decides who gets a mutex, and is asked by this pass, which comes back.
    pub fn run(&self, lent: Lent, pass: Pass) -> (Back, Pass)
        requires can { CanGo lent }
        requires ours { pass.page ≡ self.now }
        ensures { Gives lent pass result.0 result.1 }
    {
        lent.run(&self.page, pass)
    }

    /// Closes the page. What any of the drivers' passes knows stands in the rows of them all.
    pub fn close(self, mut passes: Vec<Pass>, spare: Spare)
        requires ours { AreFrom self 0 passes.items }
        requires spare { AreSpare self spare (length passes.items) }
        ensures { (rows : Rows) × AllAgree rows passes.items }
    {
        let SharedPage { page } = self;
        let Spare {
            passes: mut others,
            room: mut all,
        } = spare;
        let Ok(()) = all.append(&mut passes) else {
            unreachable!()
        };
        let Ok(()) = all.append(&mut others) else {
            unreachable!()
        };
        let _closed = page.close(all);
    }
}
