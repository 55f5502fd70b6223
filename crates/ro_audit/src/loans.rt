//! What is lent to drivers.
ghost use Rattle.std.specs.Prelude.{◌≡◌, ◌<◌, ◌↔◌, ℕ, IfOk, IsSome, IsTrue, None, Some, length, slice_index_or, slice_set};
ghost use Rattle.ro_cores.specs.Loans.{lease_in};

use crate::audit_cores::AuditCore;
use ro_journal::Lease;
use std::alloc::{AllocError, Global};
use std::marker::Model;

/// What is lent to a driver.
pub(crate) struct Loan<C: AuditCore> {
    what: C::Lent,
}

impl<C: AuditCore> Drop for Loan<C> {
    fn drop(self) {
        let Loan { what: _ } = self;
    }
}

impl<C: AuditCore> Model for Loan<C> {
    ghost use Rattle.std.specs.Coded.{codes};
    ghost use Rattle.ro_pages.specs.Held.{coded_held};
    ghost use Rattle.ro_cores.specs.Loans.{LentOf};

    ghost Value = { LentOf };

    ghost coded = { Prim.hlevel (codes, coded_held) };

    ghost view = { λ l. C.lent_of l.what };
}

impl<C: AuditCore> Loan<C> {
    /// What a core lent.
    pub fn new(what: C::Lent) -> Loan<C>
        ensures { result ≡ C.lent_of what }
    {
        Loan { what }
    }

    /// What it is, for the core.
    pub fn into_inner(self) -> C::Lent
        ensures { C.lent_of result ≡ self }
    {
        let Loan { what } = self;
        what
    }

    /// Whether it is of this lease.
    pub fn is_of(&self, lease: Lease) -> bool
        ensures { IsTrue result ↔ (lease_in self.now ≡ lease) }
    {
        C::lease(&self.what) == lease
    }
}

/// A slot for each driver, with nothing lent.
pub(crate) fn vacant<C: AuditCore>(
    alloc: Global,
    drivers: u32,
) -> Result<Vec<Option<Loan<C>>>, AllocError>
    ensures count { IfOk result (λ lent. length lent.items ≡ drivers) }
    ensures vacant { IfOk result (λ lent. (driver : ℕ) → slice_index_or lent.items driver None ≡ None) }
{
    let mut lent = Vec::with_capacity(alloc, drivers as usize)?;
    for _ in 0..drivers {
        lent.push(None)?;
    }
    Ok(lent)
}

/// Notes what is lent to a driver.
pub(crate) fn lend<C: AuditCore>(lent: &mut [Option<Loan<C>>], driver: u32, loan: Loan<C>)
    requires { driver < length lent.old }
    ensures { lent.new ≡ slice_set lent.old driver (Some loan) }
{
    lent[driver as usize] = Some(loan);
}

/// Takes what is lent to a driver out of its slot.
pub(crate) fn take_back<C: AuditCore>(lent: &mut [Option<Loan<C>>], driver: u32) -> Option<Loan<C>>
    ensures lent { result ≡ slice_index_or lent.old driver None }
    ensures vacant { IsSome result → (lent.new ≡ slice_set lent.old driver None) × (driver < length lent.old) }
{
    if driver as usize >= lent.len() {
        return None;
    }
    lent[driver as usize].take()
}
