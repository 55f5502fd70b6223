//! The master: a lock round the desk.
ghost use Rattle.std.specs.Prelude.{◌≡◌, ◌≤◌, ◌+◌, ◌++◌, [], List, IfErr, IfOk, MatchResult, OnErr, length, map, vec_capacity};
ghost use Rattle.std.specs.List.{All};
ghost use Rattle.std.specs.Option.{MatchOption};
ghost use Rattle.ro_post.specs.Turns.{MatchLeased, IfOver};
ghost use Rattle.ro_legal.specs.Jobs.{CanRun};
ghost use Rattle.ro_legal.specs.Rules.{IsFit};
ghost use Rattle.ro_cores.specs.History.{Owned, AreWithin, journal_of};
ghost use Rattle.ro_cores.specs.Cores.{state};
ghost use Rattle.ro_cores.specs.Loans.{IsJoined, ShareOf, SharesIn, lease_in};
ghost use Rattle.ro_master.specs.Driven.{IsDriven, IsHome, Goes, KeepsLast};
ghost use Rattle.ro_master.specs.Desks.{AtRest, MayGiveBack, Rests, IsOver, IsOurs, IsAtRest, IsHolding, IsReturning};
ghost use Rattle.ro_master.specs.Masters.{TurnDid, PutDid, NextDid, WantsMemory, AreUnused, fresh_drivers, AreAll, AllKnew};
ghost use Rattle.ro_master.specs.Passes.{CountOf, empty_count};

use crate::desks::Desk;
use crate::holding::{Back, Held, Lent};
use crate::lookout::Lookout;
use crate::passes::{Counter, Opened, Pass};
use crate::seats::Naming;
use crate::sessions::Session;
use crate::waking::{Rester, Wakes};
use ro_cores::RunCore;
use ro_io::{Gate, Sink};
use ro_post::{Driver, Post, Turn};
use std::alloc::{AllocError, Global};
use std::sync::{Condvar, Mutex, Wait};

/// The core of a run behind a lock.
pub struct Master<C: RunCore, K: Sink, N: Naming> {
    desk: Mutex<Desk<C, K, N>>,
    /// What the drivers share.
    shared: C::Shared,
    /// What those that wait for a lease look at before they sleep.
    lookout: Lookout,
    /// It tells those that wait for a lease that there is something to be done.
    moved: Condvar,
    /// It tells those that are spare that they are of use again, or that the run is over for a driver.
    left: Condvar,
}

/// A master with its drivers.
pub struct Started<C: RunCore, K: Sink, N: Naming> {
    pub master: Master<C, K, N>,
    pub drivers: Vec<Driver<Held<C, N>>>,
    pub aside: Aside<C>,
}

/// What is kept aside while drivers run.
pub struct Aside<C: RunCore> {
    /// What none of them has of what they share.
    spare: C::Spare,
    /// Room for their shares, once they come back.
    rack: Vec<C::Share>,
}

/// What `start` was given.
pub struct Refused<C: RunCore, K: Sink> {
    pub core: Session<C, K>,
    pub opened: Opened,
}

impl<C: RunCore, K: Sink> Refused<C, K> {
    /// Its parts.
    pub fn into_parts(self) -> (Session<C, K>, Opened)
        ensures { (result.0 ≡ self.core) × (result.1 ≡ self.opened) }
    {
        let Refused { core, opened } = self;
        (core, opened)
    }
}

impl<C: RunCore<Share: Drop>, K: Sink, N: Naming> Master<C, K, N> {
    /// A turn of the driver, under the lock.
    ///
    /// # Errors
    /// Where there is no memory.
    pub fn take_turn<R: Wait>(
        &self,
        rt: &R,
        held: &mut Held<C, N>,
    ) -> Result<Turn<Lent<C>>, AllocError>
        requires { IsAtRest N.start.job held.old }
        ensures did { TurnDid N.start result held.old.pass held.new.pass }
        ensures share { held.new.share ≡ held.old.share }
        ensures number { held.new.pass.number ≡ held.old.pass.number }
        ensures rest { MatchResult result (λ t. MatchLeased t (IsHolding N.start.job held.new) (IsAtRest N.start.job held.new)) (λ _. IsAtRest N.start.job held.new) }
        ensures over { IfOk result (λ t. IfOver t (IsOver N.start.job held.new.pass)) }
        ensures wants { OnErr result (WantsMemory N.start held.new.pass) }
    {
        let (answer, wakes) = self.locked_turn(rt, &mut held.pass);
        self.wake(wakes);
        answer
    }

    // The turn, and who is to be woken once the lock is let go.
    fn locked_turn<R: Wait>(
        &self,
        rt: &R,
        pass: &mut Pass<N>,
    ) -> (Result<Turn<Lent<C>>, AllocError>, Wakes)
        requires { AtRest N.start.job pass.old }
        ensures did { TurnDid N.start result.0 pass.old pass.new }
        ensures number { pass.new.number ≡ pass.old.number }
        ensures rest { MatchResult result.0 (λ t. Rests N.start.job t pass.new) (λ _. AtRest N.start.job pass.new) }
        ensures over { IfOk result.0 (λ t. IfOver t (IsOver N.start.job pass.new)) }
    {
        let mut desk = self.desk.lock(rt);
        let answer = desk.turn(pass);
        let wakes = desk.woken_by_turn(pass.number(), &answer, &self.lookout);
        (answer, wakes)
    }

    /// Gives back what became of the driver's lease, under the lock.
    pub fn take_back<R: Wait>(&self, rt: &R, held: &mut Held<C, N>, back: Back<C>)
        requires { IsReturning N.start.job held.old back }
        ensures did { PutDid N.start back held.old.pass held.new.pass }
        ensures share { held.new.share ≡ held.old.share }
        ensures number { held.new.pass.number ≡ held.old.pass.number }
        ensures rest { IsAtRest N.start.job held.new }
    {
        let wakes = self.locked_put(rt, &mut held.pass, back);
        self.wake(wakes);
    }

    fn locked_put<R: Wait>(&self, rt: &R, pass: &mut Pass<N>, back: Back<C>) -> Wakes
        requires { MayGiveBack N.start.job pass.old back }
        ensures did { PutDid N.start back pass.old pass.new }
        ensures number { pass.new.number ≡ pass.old.number }
        ensures rest { AtRest N.start.job pass.new }
    {
        let mut desk = self.desk.lock(rt);
        desk.put(pass, back);
        desk.woken_by_put()
    }

    /// Gives back what became of the driver's lease, if it has one, and takes the next turn, under one lock.
    ///
    /// # Errors
    /// Where there is no memory.
    pub fn take_next<R: Wait>(
        &self,
        rt: &R,
        held: &mut Held<C, N>,
        back: Option<Back<C>>,
    ) -> Result<Turn<Lent<C>>, AllocError>
        requires { MatchOption back (IsAtRest N.start.job held.old) (IsReturning N.start.job held.old) }
        ensures did { NextDid N.start back result held.old.pass held.new.pass }
        ensures share { held.new.share ≡ held.old.share }
        ensures number { held.new.pass.number ≡ held.old.pass.number }
        ensures rest { MatchResult result (λ t. MatchLeased t (IsHolding N.start.job held.new) (IsAtRest N.start.job held.new)) (λ _. IsAtRest N.start.job held.new) }
        ensures over { IfOk result (λ t. IfOver t (IsOver N.start.job held.new.pass)) }
        ensures wants { OnErr result (WantsMemory N.start held.new.pass) }
    {
        let is_fresh = back.is_none();
        if is_fresh {
            self.lookout.await_turn(held.pass.home());
        }
        let (answer, put, wakes) = self.locked_next(rt, &mut held.pass, back);
        if is_fresh {
            settle(&held.pass, &answer);
            self.lookout.took(held.pass.home());
        }
        self.wake(put);
        self.wake(wakes);
        answer
    }

    // The put and the turn, and who is to be woken for each once the lock is let go.
    fn locked_next<R: Wait>(
        &self,
        rt: &R,
        pass: &mut Pass<N>,
        back: Option<Back<C>>,
    ) -> (Result<Turn<Lent<C>>, AllocError>, Wakes, Wakes)
        requires { MatchOption back (AtRest N.start.job pass.old) (MayGiveBack N.start.job pass.old) }
        ensures did { NextDid N.start back result.0 pass.old pass.new }
        ensures number { pass.new.number ≡ pass.old.number }
        ensures rest { MatchResult result.0 (λ t. Rests N.start.job t pass.new) (λ _. AtRest N.start.job pass.new) }
        ensures over { IfOk result.0 (λ t. IfOver t (IsOver N.start.job pass.new)) }
    {
        let mut desk = self.desk.lock(rt);
        let put = put_if_any(&mut desk, pass, back);
        let answer = desk.turn(pass);
        let wakes = desk.woken_by_turn(pass.number(), &answer, &self.lookout);
        (answer, put, wakes)
    }

    // Wakes them, with the lock let go. Mostly that is nobody.
    fn wake(&self, wakes: Wakes) {
        if wakes != Wakes::Nobody {
            self.wake_some(wakes);
        }
    }

    #[cold]
    #[inline(never)]
    fn wake_some(&self, wakes: Wakes) {
        match wakes {
            Wakes::Nobody => {}
            Wakes::Lookouts => self.lookout.call_in_order(),
            Wakes::Helpers(count) => {
                self.lookout.call();
                for _ in 0..count {
                    self.moved.notify_one();
                }
            }
            Wakes::One(Rester::Lookout) => self.lookout.call_one(),
            Wakes::One(Rester::Sleeper) => self.moved.notify_one(),
            Wakes::One(Rester::Spare) => self.left.notify_one(),
            Wakes::All => {
                self.lookout.call();
                self.moved.notify_all();
                self.left.notify_all();
            }
        }
    }

    /// Puts the core behind the lock, with a driver, its pass and its share for each number.
    ///
    /// # Errors
    /// Where there is no memory; all comes back.
    pub fn start(
        alloc: Global,
        core: Session<C, K>,
        opened: Opened,
    ) -> Result<Started<C, K, N>, Refused<C, K>>
        requires name { opened ≡ N.table }
        requires start { core ≡ N.start }
        requires journal { core.journal ≡ [] }
        requires can_run { CanRun core.job }
        ensures shared { IfOk result (λ m. SharesIn C.mode (C.shared_of m.master.shared)) }
        ensures spare { IfOk result (λ m. C.is_spare m.master.shared m.aside.spare core.job.settings.drivers) }
        ensures rack { IfOk result (λ m. (m.aside.rack.items ≡ []) × (core.job.settings.drivers ≤ vec_capacity m.aside.rack)) }
        ensures fresh { IfOk result (λ m. (shares : List ShareOf) × AreUnused (C.shared_of m.master.shared) core.job.settings.drivers shares × (m.drivers.items ≡ fresh_drivers 0 shares)) }
        ensures rest { IfOk result (λ m. All (λ d. IsAtRest N.start.job d.pass) m.drivers.items) }
        ensures ours { IfOk result (λ m. All (λ d. IsOurs (C.shared_of m.master.shared) d.pass) m.drivers.items) }
        ensures back { IfErr result (λ r. (r.core ≡ core) × (r.opened ≡ opened)) }
    {
        let settings = core.settings();
        let drivers = settings.drivers;
        let Ok(mut all) = Vec::with_capacity(alloc, drivers as usize) else {
            return Err(Refused { core, opened });
        };
        let Ok((shared, mut shares, spare)) = C::open(alloc, drivers) else {
            return Err(Refused { core, opened });
        };
        let _entries = core.entries();
        let mut count = opened.named::<N>();
        seat_all::<C, N>(&mut all, &mut count, &mut shares, 0);
        let desk = Desk::new(core, count);
        let master = Master {
            desk: Mutex::new(desk),
            shared,
            lookout: Lookout::new(drivers.saturating_sub(settings.replicas)),
            moved: Condvar::new(),
            left: Condvar::new(),
        };
        Ok(Started {
            master,
            drivers: all,
            aside: Aside {
                spare,
                rack: shares,
            },
        })
    }

    /// Hands the core back, once every pass has come back. Of its history each take and each put bears the number of the driver
    /// that it names, and each pass's own places are those of its number. In a cooperative run all that was got stands in the
    /// rows of one lock page.
    pub fn close(self, drivers: Vec<Driver<Held<C, N>>>, aside: Aside<C>) -> Session<C, K>
        requires all { AreAll N.start.job (C.shared_of self.shared) 0 drivers.items }
        requires count { length drivers.items ≡ N.start.job.settings.drivers }
        requires shared { SharesIn C.mode (C.shared_of self.shared) }
        requires spare { C.is_spare self.shared aside.spare N.start.job.settings.drivers }
        requires rack { (aside.rack.items ≡ []) × (N.start.job.settings.drivers ≤ vec_capacity aside.rack) }
        ensures goes { Goes N.start result }
        ensures driven { IsDriven result }
        ensures last { KeepsLast result.job result.journal result.views }
        ensures seen { (count : CountOf) × (journal_of count.history ≡ result.journal) × (count.given ≡ result.job.settings.drivers) × AreWithin count.given count.history × Owned count.history × AllKnew count drivers.items }
        ensures home { IsHome result }
        ensures joined { IsJoined result.job result.journal }
    {
        let Master {
            desk,
            shared,
            lookout: _,
            moved: _,
            left: _,
        } = self;
        let Aside { spare, mut rack } = aside;
        let mut desk = desk.into_inner();
        let mut drivers = drivers;
        show_all(&mut desk, &mut drivers, &mut rack);
        C::close(shared, rack, spare);
        desk.into_core()
    }
}

impl<C: RunCore<Share: Drop>, K: Sink, N: Naming> Post for Master<C, K, N> {
    ghost use Rattle.ro_cores.specs.Loans.{Gives, lease_in};
    ghost use Rattle.ro_master.specs.Desks.{IsAtRest, IsHolding, IsReturning, IsOver, IsOurs};
    ghost use Rattle.ro_master.specs.Masters.{WantsMemory};

    type Pass = Held<C, N>;

    type Lease = Lent<C>;

    type Back = Back<C>;

    ghost place_of = { λ l. ((lease_in l).driver, (lease_in l).replica, (lease_in l).thread) };

    ghost is_ours = { λ m h. IsOurs (C.shared_of m.shared) h };

    ghost number = { λ h. h.pass.number };

    ghost at_rest = { IsAtRest N.start.job };

    ghost holds = { IsHolding N.start.job };

    ghost may_return = { IsReturning N.start.job };

    ghost is_over = { λ h. IsOver N.start.job h.pass };

    ghost wants = { λ h. WantsMemory N.start h.pass };

    fn place(lease: &Lent<C>) -> (u32, u32, u32) {
        lease.place()
    }

    // The pass learns nothing by it.
    fn run<G: Gate>(&self, held: &mut Held<C, N>, lease: Lent<C>, passed: &G::Passed) -> Back<C>
        requires pass { IsOurs (C.shared_of self.now.shared) held.old × IsHolding N.start.job held.old lease }
        requires gate { G.place_of passed.now ≡ ((lease_in lease).driver, (lease_in lease).replica, (lease_in lease).thread) }
        ensures same { IsOurs (C.shared_of self.now.shared) held.new × (held.new.pass.number ≡ held.old.pass.number) }
        ensures back { IsReturning N.start.job held.new result }
        ensures gives { Gives lease held.old.share result held.new.share }
        ensures stays { held.new.pass ≡ held.old.pass }
    {
        held.run(&self.shared, lease)
    }

    fn turn<R: Wait>(&self, rt: &R, held: &mut Held<C, N>) -> Result<Turn<Lent<C>>, AllocError>
        requires { IsOurs (C.shared_of self.now.shared) held.old × IsAtRest N.start.job held.old }
        ensures same { IsOurs (C.shared_of self.now.shared) held.new × (held.new.pass.number ≡ held.old.pass.number) }
        ensures lease { MatchResult result (λ t. MatchLeased t (IsHolding N.start.job held.new) (IsAtRest N.start.job held.new)) (λ _. IsAtRest N.start.job held.new) }
        ensures over { IfOk result (λ t. IfOver t (IsOver N.start.job held.new.pass)) }
        ensures wants { OnErr result (WantsMemory N.start held.new.pass) }
        ensures did { TurnDid N.start result held.old.pass held.new.pass }
    {
        self.take_turn(rt, held)
    }

    fn give_back<R: Wait>(&self, rt: &R, held: &mut Held<C, N>, back: Back<C>)
        requires { IsOurs (C.shared_of self.now.shared) held.old × IsReturning N.start.job held.old back }
        ensures same { IsOurs (C.shared_of self.now.shared) held.new × (held.new.pass.number ≡ held.old.pass.number) }
        ensures rest { IsAtRest N.start.job held.new }
        ensures did { PutDid N.start back held.old.pass held.new.pass }
    {
        self.take_back(rt, held, back);
    }

    fn next<R: Wait>(
        &self,
        rt: &R,
        held: &mut Held<C, N>,
        back: Option<Back<C>>,
    ) -> Result<Turn<Lent<C>>, AllocError>
        requires { IsOurs (C.shared_of self.now.shared) held.old × MatchOption back (IsAtRest N.start.job held.old) (IsReturning N.start.job held.old) }
        ensures same { IsOurs (C.shared_of self.now.shared) held.new × (held.new.pass.number ≡ held.old.pass.number) }
        ensures lease { MatchResult result (λ t. MatchLeased t (IsHolding N.start.job held.new) (IsAtRest N.start.job held.new)) (λ _. IsAtRest N.start.job held.new) }
        ensures over { IfOk result (λ t. IfOver t (IsOver N.start.job held.new.pass)) }
        ensures wants { OnErr result (WantsMemory N.start held.new.pass) }
        ensures did { NextDid N.start back result held.old.pass held.new.pass }
    {
        self.take_next(rt, held, back)
    }

    // It looks out for a while, and then sleeps until something can be done, or, where it is spare, until it is of use again or a
    // driver has left.
    fn rest<R: Wait>(&self, rt: &R) {
        if self.lookout.is_called() {
            return;
        }
        let mut desk = self.desk.lock(rt);
        if desk.waits() && desk.becomes_spare() {
            self.lookout.expect_spares(desk.surplus());
            let mut desk = self.left.wait_while(rt, desk, |desk| desk.stays_spare());
            desk.is_spare_no_more();
        } else {
            desk.fell_asleep();
            let mut desk = self.moved.wait_while(rt, desk, |desk| desk.waits());
            desk.woke_up();
        }
    }
}

// The driver goes back to the replica that it took with none to give back.
fn settle<C: RunCore, N: Naming>(pass: &Pass<N>, answer: &Result<Turn<Lent<C>>, AllocError>) {
    if let Ok(Turn::Leased(lent)) = answer {
        pass.settle(lent.lease().replica);
    }
}

// Puts back what became of the pass's lease, if it has one, and answers who is to be woken for that.
fn put_if_any<C: RunCore, K: Sink, N: Naming>(
    desk: &mut Desk<C, K, N>,
    pass: &mut Pass<N>,
    back: Option<Back<C>>,
) -> Wakes
    requires { MatchOption back (AtRest N.start.job pass.old) (MayGiveBack N.start.job pass.old) }
    ensures did { MatchOption back (pass.new ≡ pass.old) (λ b. PutDid N.start b pass.old pass.new) }
    ensures rest { AtRest N.start.job pass.new }
    ensures number { pass.new.number ≡ pass.old.number }
{
    let Some(back) = back else {
        return Wakes::Nobody;
    };
    desk.put(pass, back);
    desk.woken_by_put()
}

// A driver with a pass for each share, in their order.
fn seat_all<C: RunCore<Share: Drop>, N: Naming>(
    all: &mut Vec<Driver<Held<C, N>>>,
    count: &mut Counter<N>,
    shares: &mut Vec<C::Share>,
    number: u32,
)
    requires room { length all.old.items + length shares.old.items ≤ vec_capacity all.old }
    requires count { count.old ≡ empty_count number }
    requires few { number + length shares.old.items ≤ 8 }
    ensures all { all.new.items ≡ all.old.items ++ fresh_drivers number (map C.share_of shares.old.items) }
    ensures count { count.new ≡ empty_count (number + length shares.old.items) }
    ensures taken { (shares.new.items ≡ []) × (vec_capacity shares.new ≡ vec_capacity shares.old) }
{
    if shares.is_empty() {
        return;
    }
    let share = shares.remove(0);
    let pass = count.number(number);
    all.push_reserved(Driver {
        pass: Held::new(pass, share),
        outcome: None,
    });
    seat_all(all, count, shares, number + 1);
}

// Each pass sees the whole history; the drivers' shares are put on the rack, in their order.
fn show_all<C: RunCore<Share: Drop>, K: Sink, N: Naming>(
    desk: &mut Desk<C, K, N>,
    drivers: &mut Vec<Driver<Held<C, N>>>,
    rack: &mut Vec<C::Share>,
)
    requires room { length rack.old.items + length drivers.old.items ≤ vec_capacity rack.old }
    ensures desk { desk.new ≡ desk.old }
    ensures seen { AllKnew desk.old.count drivers.old.items }
    ensures shares { map C.share_of rack.new.items ≡ map C.share_of rack.old.items ++ map (λ d. d.pass.share) drivers.old.items }
{
    if drivers.is_empty() {
        return;
    }
    let Driver { pass, outcome: _ } = drivers.remove(0);
    let (mut pass, share) = pass.into_parts();
    desk.show(&mut pass);
    rack.push_reserved(share);
    show_all(desk, drivers, rack);
}
