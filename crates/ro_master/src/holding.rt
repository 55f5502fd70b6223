//! What drivers hold: a pass with a share, and what was lent to them and comes back.
ghost use Rattle.std.specs.Prelude.{◌≡◌};
ghost use Rattle.ro_cores.specs.Loans.{CanGo, Gives, IsShare, lease_in};

use crate::passes::Pass;
use crate::seats::Naming;
use ro_cores::RunCore;
use ro_journal::Lease;
use std::marker::Model;

/// What goes out to a driver with a lease.
#[derive(Drop)]
pub struct Lent<C: RunCore> {
    what: C::Lent,
}

impl<C: RunCore> Model for Lent<C> {
    ghost use Rattle.std.specs.Coded.{codes};
    ghost use Rattle.ro_pages.specs.Held.{coded_held};
    ghost use Rattle.ro_cores.specs.Loans.{LentOf, CanGo};

    ghost Value = { LentOf };

    ghost coded = { Prim.hlevel (codes, coded_held) };

    ghost view = { λ l. C.lent_of l.what };

    ghost invariant = { λ l. CanGo (C.lent_of l.what) };
}

impl<C: RunCore> Lent<C> {
    /// What a lease is for.
    pub fn new(what: C::Lent) -> Lent<C>
        requires { CanGo (C.lent_of what) }
        ensures { result ≡ C.lent_of what }
    {
        Lent { what }
    }

    /// The lease.
    pub fn lease(&self) -> Lease
        ensures { result ≡ lease_in self.now }
    {
        C::lease(&self.what)
    }

    /// The driver, the replica and the thread.
    pub fn place(&self) -> (u32, u32, u32)
        ensures { result ≡ ((lease_in self.now).driver, (lease_in self.now).replica, (lease_in self.now).thread) }
    {
        let lease = self.lease();
        (lease.driver, lease.replica, lease.thread)
    }
}

/// What became of it.
#[derive(Drop)]
pub struct Back<C: RunCore> {
    what: C::Back,
}

impl<C: RunCore> Model for Back<C> {
    ghost use Rattle.std.specs.Coded.{codes};
    ghost use Rattle.ro_pages.specs.Held.{coded_held};
    ghost use Rattle.ro_cores.specs.Loans.{BackOf};

    ghost Value = { BackOf };

    ghost coded = { Prim.hlevel (codes, coded_held) };

    ghost view = { λ b. C.back_of b.what };
}

impl<C: RunCore> Back<C> {
    /// What it is, for the core.
    pub fn into_inner(self) -> C::Back
        ensures { C.back_of result ≡ self }
    {
        let Back { what } = self;
        what
    }
}

/// A driver's pass, and its share in what drivers share.
#[derive(Drop)]
pub struct Held<C: RunCore, N: Naming> {
    pub(crate) pass: Pass<N>,
    /// It is there, but for when it runs a lease.
    share: Option<C::Share>,
}

impl<C: RunCore, N: Naming> Model for Held<C, N> {
    ghost use Rattle.std.specs.Prelude.{IsSome};
    ghost use Rattle.std.specs.Option.{option_and_then};
    ghost use Rattle.ro_master.specs.Desks.{HeldOf};

    ghost Value = { HeldOf };

    ghost view = { λ h. record { pass = h.pass; share = option_and_then C.share_of h.share } };

    ghost invariant = { λ h. IsSome h.share };
}

impl<C: RunCore<Share: Drop>, N: Naming> Held<C, N> {
    /// A pass with its share.
    pub fn new(pass: Pass<N>, share: C::Share) -> Held<C, N>
        ensures { result ≡ record { pass = pass; share = C.share_of share } }
    {
        Held {
            pass,
            share: Some(share),
        }
    }

    /// Its parts.
    pub fn into_parts(self) -> (Pass<N>, C::Share)
        ensures { self ≡ record { pass = result.0; share = C.share_of result.1 } }
    {
        let Held { pass, share } = self;
        let Some(share) = share else { unreachable!() };
        (pass, share)
    }

    /// Runs what was lent.
    pub fn run(&mut self, shared: &C::Shared, lent: Lent<C>) -> Back<C>
        requires share { IsShare (C.shared_of shared.now) self.old.pass.number self.old.share }
        ensures pass { self.new.pass ≡ self.old.pass }
        ensures gives { Gives lent self.old.share result self.new.share }
    {
        let Lent { what } = lent;
        let Some(share) = self.share.take() else {
            unreachable!()
        };
        let (what, share) = C::run(shared, what, share);
        self.share = Some(share);
        Back { what }
    }
}
