//! The core that keeps the rules of votes, as a session and drivers need it.
ghost use Rattle.std.specs.Prelude.{◌≡◌, ℕ, None, Some, slice_get};
ghost use Rattle.ro_orders.specs.Copies.{Rows};
ghost use Rattle.ro_cores.specs.Loans.{AgreesWith};

use crate::run_cores::{Lendable, Remains, RunCore};
use ro_core::{Core, Finished, Voted};
use ro_journal::{Entry, How, Lease};
use ro_lease::{Back, Lent};
use ro_legal::{Action, lends_pages};
use ro_settings::Settings;
use std::alloc::{AllocError, Global};

impl RunCore for Core {
    ghost use Rattle.std.specs.Prelude.{◌≡◌, ⊤, None};
    ghost use mathlib.Core.Logic.{inl};
    ghost use Rattle.ro_settings.specs.declared.Mode.TheVariants.{Voted};
    ghost use Rattle.ro_core.specs.Fields.{Holds};
    ghost use Rattle.ro_core.specs.Runs.{fields_of, job_of, silent, payload_by};
    ghost use Rattle.ro_cores.specs.Cores.{HasWriter};

    type Lent = Lent;

    type Back = Back;

    type Shared = ();

    type Share = ();

    type Spare = ();

    type Writer = Option<u32>;

    ghost mode = { Voted };

    ghost seen = { silent };

    ghost holds = { λ core. Holds (fields_of core) × ((job_of core).settings.mode ≡ Voted) };

    ghost lent_of = { λ lent. inl lent };

    ghost back_of = { λ back. inl back };

    ghost shared_of = { λ shared. None };

    ghost share_of = { λ share. None };

    ghost is_spare = { λ shared spare drivers. ⊤ };

    ghost payload_of = { λ core writer. payload_by (fields_of core).views writer };

    ghost has_payload = { λ core writer. HasWriter (fields_of core).views writer };

    fn next_action(&self) -> Action {
        self.next_action()
    }

    #[inline(always)]
    fn room(&mut self) -> Result<(), AllocError> {
        self.room()
    }

    #[inline(always)]
    fn lend(&mut self, lease: Lease) -> Lent {
        let quantum = self.settings().quantum;
        let loan = self.take(lease);
        Lent {
            lease,
            quantum,
            loan,
        }
    }

    #[inline(always)]
    fn lease(lent: &Lent) -> Lease {
        lent.lease
    }

    #[inline(always)]
    fn entry(&self, back: &Back) -> Entry {
        self.return_of(back)
    }

    #[inline(always)]
    fn give_back(&mut self, back: Back) {
        self.put(back);
    }

    #[inline(always)]
    fn vote(&mut self, thread: u32) -> Result<(Entry, Option<u32>), AllocError> {
        let Voted { entry, writer } = self.vote(thread)?;
        Ok((entry, writer))
    }

    fn payload(&self, writer: Option<u32>) -> &[u8] {
        self.payload(writer)
    }

    fn free(&mut self, thread: u32) -> Result<Entry, AllocError> {
        self.free(thread)
    }

    fn scrub(&mut self) -> Result<Entry, AllocError> {
        self.scrub()
    }

    fn end(&mut self, how: How) {
        self.end(how);
    }

    fn entries(&self) -> u64 {
        self.entries()
    }

    fn settings(&self) -> Settings {
        self.settings()
    }

    fn lendable(&self) -> Lendable {
        let settings = self.settings();
        let (live, going) = if lends_pages(&settings) {
            threads_of(self)
        } else {
            (1, 1)
        };
        Lendable {
            most: settings.replicas.saturating_mul(live),
            now: settings.replicas.saturating_mul(going),
        }
    }

    fn bytes(&self) -> u64 {
        self.bytes()
    }

    fn wrote(&self) -> u32 {
        self.wrote()
    }

    fn finish(self) -> Remains {
        let Finished {
            image,
            how,
            views,
            journal,
        } = self.finish();
        Remains {
            image,
            how,
            views,
            journal,
        }
    }

    fn open(alloc: Global, drivers: u32) -> Result<((), Vec<()>, ()), AllocError> {
        let shares = vec![in alloc; (); drivers as usize]?;
        Ok(((), shares, ()))
    }

    #[inline(always)]
    fn run(_shared: &(), lent: Lent, _share: ()) -> (Back, ()) {
        (lent.run(), ())
    }

    fn close(_shared: (), shares: Vec<()>, _spare: ())
        ensures { (rows : Rows) × ((number : ℕ) (one : Unit {0}) → slice_get shares.items number ≡ Some one → AgreesWith rows None) }
    {
        let _shares = shares;
    }
}

// How many threads live, and how many of these are not blocked on a call; one at least.
fn threads_of(core: &Core) -> (u32, u32) {
    let mut live = 0u32;
    let mut going = 0u32;
    for thread in 0..core.kernel().made() {
        if core.kernel().lives_on(thread) {
            live = live.saturating_add(1);
            if core.blocked_call(thread).is_none() {
                going = going.saturating_add(1);
            }
        }
    }
    (live.max(1), going.max(1))
}
