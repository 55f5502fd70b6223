//! The desk: the core, the table and one seat, under the master's lock.
ghost use Rattle.std.specs.Prelude.{◌≡◌, ◌↔◌, [], IfOk, IsSome, IsTrue, MatchResult, None};
ghost use Rattle.ro_post.specs.Turns.{IfOver};
ghost use Rattle.ro_journal.specs.declared.How.{How as HowOf};
ghost use Rattle.ro_journal.specs.declared.Entry.{Entry as EntryOf};
ghost use Rattle.ro_journal.specs.Leases.{lease_to};
ghost use Rattle.ro_journal.specs.declared.Entry.TheVariants.{Take, End};
ghost use Rattle.ro_legal.specs.declared.actions.Action.TheVariants as act;
ghost use Rattle.ro_legal.specs.Action.{next_action as next};
ghost use Rattle.ro_legal.specs.Rules.{DecidesVote, DecidesFree, DecidesScrub};
ghost use Rattle.ro_cores.specs.Cores.{state};

use crate::holding::{Back, Lent};
use crate::lookout::Lookout;
use crate::passes::{Counter, Pass};
use crate::seats::Naming;
use crate::sessions::Session;
use crate::waking::{Wakes, Waking};
use ro_cores::RunCore;
use ro_io::Sink;
use ro_journal::{Entry, How, Lease};
use ro_legal::Action;
use ro_post::Turn;
use std::alloc::AllocError;
use std::marker::Model;

/// What stands behind the lock.
pub struct Desk<C: RunCore, K: Sink, N: Naming> {
    core: Session<C, K>,
    count: Counter<N>,
    waking: Waking,
}

impl<C: RunCore, K: Sink, N: Naming> Model for Desk<C, K, N> {
    ghost use Rattle.ro_master.specs.Desks.{DeskOf, Tied};

    ghost Value = { DeskOf };

    ghost view = { λ d. record { core = d.core; count = d.count } };

    ghost invariant = { λ d. Tied N.start d.core d.count };
}

impl<C: RunCore, K: Sink, N: Naming> Desk<C, K, N> {
    ghost use Rattle.ro_master.specs.Passes.{empty_count, shown, Knew};
    ghost use Rattle.ro_legal.specs.Jobs.{CanRun};
    ghost use Rattle.ro_legal.specs.Rules.{IsFit};
    ghost use Rattle.ro_master.specs.Desks.{AtRest, MayGiveBack, Moved, Looked, IsLoan, Decides, TurnIs, PutIs, TakesMemory, Rests, IsOver, AnswersOver, Tied};

    /// A desk for a core that was just opened, whose passes have their numbers.
    pub fn new(core: Session<C, K>, count: Counter<N>) -> Desk<C, K, N>
        requires start { core ≡ N.start }
        requires journal { (core.journal ≡ []) }
        requires can_run { CanRun core.job }
        requires fit { IsFit core.job }
        requires count { count ≡ empty_count core.job.settings.drivers }
        ensures { result ≡ record { core = core; count = count } }
    {
        let waking = Waking::new(&core.settings());
        Desk {
            core,
            count,
            waking,
        }
    }

    /// The pass sees the whole history.
    pub fn show(&mut self, pass: &mut Pass<N>)
        ensures desk { self.new ≡ self.old }
        ensures pass { pass.new ≡ shown pass.old self.old.count }
        ensures knew { Knew pass.old self.old.count }
    {
        pass.learn(&mut self.count);
    }

    /// The core.
    pub fn into_core(self) -> Session<C, K>
        ensures core { result ≡ self.core }
        ensures tied { Tied N.start self.core self.count }
        ensures mode { self.core.job.settings.mode ≡ C.mode }
    {
        self.is_tied();
        let Desk {
            core,
            count,
            waking: _,
        } = self;
        count.discard();
        core
    }

    // Lends a replica to the pass's driver.
    fn lend(&mut self, pass: &mut Pass<N>, replica: u32, thread: u32) -> Result<Lent<C>, AllocError>
        requires next { next self.old.core.job (state self.old.core) ≡ act.Lend replica thread }
        requires rest { AtRest N.start.job pass.old }
        ensures { MatchResult result (λ lent. Moved (Take (lease_to pass.old.number replica thread)) self.old self.new pass.old pass.new × IsLoan self.old pass.old replica thread lent) (λ _. Looked self.old self.new pass.old pass.new) }
    {
        if self.core.room().is_err() {
            pass.learn(&mut self.count);
            return Err(AllocError);
        }
        let _entries = self.core.entries();
        let driver = pass.number();
        let lease = Lease {
            driver,
            replica,
            thread,
        };
        pass.add(&mut self.count, &Entry::Take(lease));
        let lent = self.core.lend(lease);
        Ok(Lent::new(lent))
    }

    // Votes.
    fn vote(&mut self, pass: &mut Pass<N>, thread: u32) -> Result<(), AllocError>
        requires { next self.old.core.job (state self.old.core) ≡ act.Vote thread }
        ensures { MatchResult result (λ _. (entry : EntryOf) × DecidesVote self.old.core.job (state self.old.core) thread entry × Moved entry self.old self.new pass.old pass.new) (λ _. Looked self.old self.new pass.old pass.new) }
    {
        match self.core.vote(thread) {
            Ok(entry) => {
                let _entries = self.core.entries();
                note_lendable(&self.core, &mut self.waking);
                self.waking.voted(&entry);
                pass.add(&mut self.count, &entry);
                Ok(())
            }
            Err(_) => {
                pass.learn(&mut self.count);
                Err(AllocError)
            }
        }
    }

    // Frees.
    fn free(&mut self, pass: &mut Pass<N>, thread: u32) -> Result<(), AllocError>
        requires { next self.old.core.job (state self.old.core) ≡ act.Free thread }
        ensures { MatchResult result (λ _. (entry : EntryOf) × DecidesFree self.old.core.job (state self.old.core) thread entry × Moved entry self.old self.new pass.old pass.new) (λ _. Looked self.old self.new pass.old pass.new) }
    {
        match self.core.free(thread) {
            Ok(entry) => {
                let _entries = self.core.entries();
                note_lendable(&self.core, &mut self.waking);
                self.waking.stood();
                pass.add(&mut self.count, &entry);
                Ok(())
            }
            Err(_) => {
                pass.learn(&mut self.count);
                Err(AllocError)
            }
        }
    }

    // Scrubs.
    fn scrub(&mut self, pass: &mut Pass<N>) -> Result<(), AllocError>
        requires { next self.old.core.job (state self.old.core) ≡ act.Scrub }
        ensures { MatchResult result (λ _. (entry : EntryOf) × DecidesScrub self.old.core.job (state self.old.core) entry × Moved entry self.old self.new pass.old pass.new) (λ _. Looked self.old self.new pass.old pass.new) }
    {
        match self.core.scrub() {
            Ok(entry) => {
                let _entries = self.core.entries();
                self.waking.stood();
                pass.add(&mut self.count, &entry);
                Ok(())
            }
            Err(_) => {
                pass.learn(&mut self.count);
                Err(AllocError)
            }
        }
    }

    // Ends.
    fn end(&mut self, pass: &mut Pass<N>, how: How)
        requires { next self.old.core.job (state self.old.core) ≡ act.End how }
        ensures { Moved (End how) self.old self.new pass.old pass.new }
    {
        self.core.end(how);
        let _entries = self.core.entries();
        pass.add(&mut self.count, &Entry::End { how });
    }

    // Looks.
    fn look(&mut self, pass: &mut Pass<N>)
        ensures { Looked self.old self.new pass.old pass.new }
    {
        pass.learn(&mut self.count);
    }

    fn step(&mut self, pass: &mut Pass<N>) -> Result<Turn<Lent<C>>, AllocError>
        requires { AtRest N.start.job pass.old }
        ensures { MatchResult result (λ t. TurnIs t self.old self.new pass.old pass.new) (λ _. Looked self.old self.new pass.old pass.new × TakesMemory (next self.old.core.job (state self.old.core))) }
    {
        match self.core.next_action() {
            Action::Lend { replica, thread } => match self.lend(pass, replica, thread) {
                Ok(lent) => Ok(Turn::Leased(lent)),
                Err(e) => Err(e),
            },
            Action::Vote(thread) => match self.vote(pass, thread) {
                Ok(()) => Ok(Turn::Did),
                Err(e) => Err(e),
            },
            Action::Free(thread) => match self.free(pass, thread) {
                Ok(()) => Ok(Turn::Did),
                Err(e) => Err(e),
            },
            Action::Scrub => match self.scrub(pass) {
                Ok(()) => Ok(Turn::Did),
                Err(e) => Err(e),
            },
            Action::End(how) => {
                self.end(pass, how);
                Ok(Turn::Did)
            }
            Action::Wait => {
                self.look(pass);
                Ok(Turn::Wait)
            }
            Action::Over => {
                self.look(pass);
                Ok(Turn::Over)
            }
        }
    }

    // What ties the count to the core. While a failing sink's end is due nothing is lent.
    fn is_tied(&self)
        ensures tied { Tied N.start self.now.core self.now.count }
        ensures calm { IsSome self.now.core.failed → (state self.now.core).leases ≡ [] }
        ensures mode { self.now.core.job.settings.mode ≡ C.mode }
    {
        let _entries = self.core.entries();
    }

    /// Whether nothing can be done until a lease comes back.
    pub fn waits(&self) -> bool
        ensures { IsTrue result ↔ (next self.now.core.job (state self.now.core) ≡ act.Wait) }
    {
        matches!(self.core.next_action(), Action::Wait)
    }

    /// Who is to be woken after the last turn, that of a pass of this number, which answered this.
    pub fn woken_by_turn(
        &mut self,
        number: u32,
        answer: &Result<Turn<Lent<C>>, AllocError>,
        lookout: &Lookout,
    ) -> Wakes
        ensures { self.new ≡ self.old }
    {
        if self.waking.has_others() {
            self.woken_of_others(number, answer, lookout)
        } else {
            Wakes::Nobody
        }
    }

    // The same, where there are other drivers.
    fn woken_of_others(
        &mut self,
        number: u32,
        answer: &Result<Turn<Lent<C>>, AllocError>,
        lookout: &Lookout,
    ) -> Wakes
        ensures { self.new ≡ self.old }
    {
        self.waking.came(number);
        match answer {
            Ok(Turn::Did) => {}
            Ok(Turn::Leased(_)) => {
                let wakes = self.woken_by_lease(lookout);
                self.waking.wakes(wakes);
            }
            Ok(Turn::Wait) => {
                self.waking.found_nothing(number);
                lookout.expect_spares(self.waking.surplus());
            }
            Ok(Turn::Over) | Err(_) => self.waking.left(),
        }
        self.waking.due()
    }

    // Who is to be woken behind a take, where something can still be lent.
    fn woken_by_lease(&self, lookout: &Lookout) -> Wakes {
        let wakes = self.waking.another(lookout.called());
        if wakes != Wakes::Nobody && self.lends() {
            wakes
        } else {
            Wakes::Nobody
        }
    }

    // Whether something can be lent.
    fn lends(&self) -> bool {
        matches!(self.core.next_action(), Action::Lend { .. })
    }

    /// Who is to be woken after the last put.
    pub fn woken_by_put(&self) -> Wakes {
        if self.waking.has_others() {
            self.waking.due()
        } else {
            Wakes::Nobody
        }
    }

    /// Whether a driver that found nothing to be done is spare from now on.
    pub fn becomes_spare(&mut self) -> bool
        ensures { self.new ≡ self.old }
    {
        self.waking.becomes_spare()
    }

    /// A driver that waits for a lease falls asleep.
    pub fn fell_asleep(&mut self)
        ensures { self.new ≡ self.old }
    {
        self.waking.fell_asleep();
    }

    /// It is awake.
    pub fn woke_up(&mut self)
        ensures { self.new ≡ self.old }
    {
        self.waking.woke_up();
    }

    /// How many drivers are to become spare yet.
    pub fn surplus(&self) -> u32 {
        self.waking.surplus()
    }

    /// Whether a spare driver stays so.
    pub fn stays_spare(&self) -> bool {
        self.waking.stays_spare()
    }

    /// A spare driver comes back.
    pub fn is_spare_no_more(&mut self)
        ensures { self.new ≡ self.old }
    {
        self.waking.is_spare_no_more();
    }

    /// One turn of the pass's driver: exactly one entry of its own, or none.
    pub fn turn(&mut self, pass: &mut Pass<N>) -> Result<Turn<Lent<C>>, AllocError>
        requires { AtRest N.start.job pass.old }
        ensures did { MatchResult result (λ t. TurnIs t self.old self.new pass.old pass.new) (λ _. Looked self.old self.new pass.old pass.new × TakesMemory (next self.old.core.job (state self.old.core))) }
        ensures rest { MatchResult result (λ t. Rests N.start.job t pass.new) (λ _. AtRest N.start.job pass.new) }
        ensures number { pass.new.number ≡ pass.old.number }
        ensures over { IfOk result (λ t. IfOver t (IsOver N.start.job pass.new)) }
        ensures ended { IsSome (state self.old.core).ended → AnswersOver result × Looked self.old self.new pass.old pass.new }
        ensures tied { Tied N.start self.old.core self.old.count × Tied N.start self.new.core self.new.count }
    {
        self.is_tied();
        let answer = self.step(pass);
        self.is_tied();
        answer
    }

    /// Puts back what became of the pass's lease.
    pub fn put(&mut self, pass: &mut Pass<N>, back: Back<C>)
        requires { MayGiveBack N.start.job pass.old back }
        ensures did { PutIs self.old self.new pass.old pass.new back }
        ensures rest { AtRest N.start.job pass.new }
        ensures number { pass.new.number ≡ pass.old.number }
        ensures tied { Tied N.start self.old.core self.old.count × Tied N.start self.new.core self.new.count }
    {
        self.is_tied();
        self.take_back(pass, back);
        self.is_tied();
    }

    fn take_back(&mut self, pass: &mut Pass<N>, back: Back<C>)
        requires { MayGiveBack N.start.job pass.old back }
        ensures { PutIs self.old self.new pass.old pass.new back }
    {
        let back = back.into_inner();
        pass.learn(&mut self.count);
        let _entries = self.core.entries();
        let entry = self.core.entry(&back);
        pass.add(&mut self.count, &entry);
        self.waking.came_back(&entry);
        self.core.give_back(back);
    }
}

// What can be lent behind an event, where there is somebody to be woken for it.
fn note_lendable<C: RunCore, K: Sink>(core: &Session<C, K>, waking: &mut Waking) {
    if waking.has_others() {
        waking.can_lend(core.lendable());
    }
}
