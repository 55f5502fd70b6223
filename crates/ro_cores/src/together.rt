//! The core that keeps the rules of a cooperative run, as a session and drivers need it.
ghost use Rattle.std.specs.Prelude.{◌≡◌, ℕ, Some, length, slice_get};
ghost use Rattle.ro_orders.specs.Copies.{Rows};
ghost use Rattle.ro_lockpage.specs.Pages.{PassOf};
ghost use Rattle.ro_cores.specs.Loans.{IsShare, AgreesWith};
ghost use Rattle.ro_cores.specs.Sharing.{AreSpare};

use crate::run_cores::{Lendable, Remains, RunCore};
use crate::sharing::{SharedPage, Spare};
use ro_coop_core::{Core, Finished, Voted};
use ro_coop_lease::{Back, Lent};
use ro_journal::{Entry, How, Lease};
use ro_legal::Action;
use ro_lockpage::Pass;
use ro_settings::Settings;
use std::alloc::{AllocError, Global};

impl RunCore for Core {
    ghost use Rattle.std.specs.Prelude.{◌≡◌, ⊤, Some};
    ghost use mathlib.Core.Logic.{inr};
    ghost use Rattle.ro_settings.specs.declared.Mode.TheVariants.{Cooperative};
    ghost use Rattle.ro_coop_core.specs.Fields.{Holds};
    ghost use Rattle.ro_coop_core.specs.Runs.{fields_of, job_of, seen as run_of, payload_by};
    ghost use Rattle.ro_cores.specs.Cores.{core_of};
    ghost use Rattle.ro_cores.specs.Sharing.{AreSpare};

    type Lent = Lent;

    type Back = Back;

    type Shared = SharedPage;

    type Share = Pass;

    type Spare = Spare;

    type Writer = bool;

    ghost mode = { Cooperative };

    ghost seen = { λ core. core_of (run_of core) };

    ghost holds = { λ core. Holds (fields_of core) × ((job_of core).settings.mode ≡ Cooperative) };

    ghost lent_of = { λ lent. inr lent };

    ghost back_of = { λ back. inr back };

    ghost shared_of = { λ page. Some page };

    ghost share_of = { λ pass. Some pass };

    ghost is_spare = { λ page spare drivers. AreSpare page spare drivers };

    ghost payload_of = { λ core writes. payload_by (fields_of core).views writes };

    ghost has_payload = { λ core writes. ⊤ };

    fn next_action(&self) -> Action {
        self.next_action()
    }

    fn room(&mut self) -> Result<(), AllocError> {
        self.room()
    }

    fn lend(&mut self, lease: Lease) -> Lent {
        let quantum = self.settings().quantum;
        let partner = self.take(lease);
        Lent {
            lease,
            quantum,
            partner,
        }
    }

    fn lease(lent: &Lent) -> Lease {
        lent.lease
    }

    fn entry(&self, back: &Back) -> Entry {
        let lease = back.lease;
        let count = back.took.count;
        match back.took.came.waits_at() {
            None => Entry::Put {
                lease,
                count,
                hit: 0,
            },
            Some(_) => Entry::Part {
                lease,
                count,
                hit: 0,
            },
        }
    }

    fn give_back(&mut self, back: Back) {
        let Back {
            lease,
            partner,
            took,
        } = back;
        self.put(lease.driver, partner, took.count, took.came);
    }

    fn vote(&mut self, thread: u32) -> Result<(Entry, bool), AllocError> {
        let Voted { entry, writes } = self.vote(thread)?;
        Ok((entry, writes))
    }

    fn payload(&self, writes: bool) -> &[u8] {
        self.payload(writes)
    }

    fn free(&mut self, thread: u32) -> Result<Entry, AllocError> {
        self.free(thread)
    }

    fn scrub(&mut self) -> Result<Entry, AllocError> {
        unreachable!()
    }

    fn end(&mut self, how: How) {
        self.end(how);
    }

    fn entries(&self) -> u64 {
        self.entries()
    }

    fn settings(&self) -> Settings {
        self.settings()
    }

    // Whole replicas are lent.
    fn lendable(&self) -> Lendable {
        let most = self.settings().replicas;
        Lendable { most, now: most }
    }

    fn bytes(&self) -> u64 {
        self.bytes()
    }

    fn wrote(&self) -> u32 {
        self.wrote()
    }

    fn finish(self) -> Remains {
        let Finished {
            image,
            how,
            views,
            journal,
        } = self.finish();
        Remains {
            image,
            how,
            views,
            journal,
        }
    }

    fn open(alloc: Global, drivers: u32) -> Result<(SharedPage, Vec<Pass>, Spare), AllocError> {
        SharedPage::open(alloc, drivers)
    }

    fn run(page: &SharedPage, lent: Lent, pass: Pass) -> (Back, Pass) {
        page.run(lent, pass)
    }

    fn close(page: SharedPage, passes: Vec<Pass>, spare: Spare)
        requires each { (number : ℕ) (one : PassOf) → slice_get passes.items number ≡ Some one → IsShare (Some page) number (Some one) }
        requires spare { AreSpare page spare (length passes.items) }
        ensures { (rows : Rows) × ((number : ℕ) (one : PassOf) → slice_get passes.items number ≡ Some one → AgreesWith rows (Some one)) }
    {
        page.close(passes, spare);
    }
}
