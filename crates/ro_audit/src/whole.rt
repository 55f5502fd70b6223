//! What differs in two replicas that are compared whole.
ghost use Rattle.std.specs.Prelude.{◌≡◌, ◌*◌, ◌^◌, ◌<◌, ◌↔◌, IsTrue};
ghost use Rattle.ro_replica.specs.Seen.{replica_of};
ghost use Rattle.ro_audit.specs.Pages.{DiffersIn};

use crate::audit_cores::AuditCore;
use crate::copies::{Parts, parts_between};
use ro_limits::{PAGE_SIZE, PAGES};
use ro_replica::ReplicaBox;
use std::alloc::{AllocError, Global};

/// In what two replicas differ, compared whole.
#[derive(Drop)]
pub struct Whole {
    /// Of each live thread that differs, by number rising, the parts.
    pub threads: Vec<(u32, Parts)>,
    /// The first address of each page that differs, rising.
    pub pages: Vec<u32>,
}

impl Whole {
    /// What differs in two replicas of a core, in which each live thread stands still.
    pub(crate) fn between<C: AuditCore>(
        alloc: Global,
        core: &C,
        one: u32,
        other: u32,
    ) -> Result<Whole, AllocError> {
        let threads = unequal_threads(alloc, core, one, other)?;
        let mut pages = Vec::new(alloc);
        if let (Some(one), Some(other)) = (core.replica(one), core.replica(other)) {
            for page in 0..PAGES {
                if differs_in(one, other, page) {
                    pages.push(page * PAGE_SIZE)?;
                }
            }
        }
        Ok(Whole { threads, pages })
    }
}

// Of each live thread that differs in two replicas, the parts. What one would write is no part: it is in their memory.
fn unequal_threads<C: AuditCore>(
    alloc: Global,
    core: &C,
    one: u32,
    other: u32,
) -> Result<Vec<(u32, Parts)>, AllocError> {
    let mut threads = Vec::new(alloc);
    for thread in 0..core.kernel().made() {
        let mut parts = parts_between(core, thread, one, other);
        parts.payload = false;
        if core.kernel().lives_on(thread) && parts != Parts::default() {
            threads.push((thread, parts))?;
        }
    }
    Ok(threads)
}

/// The first address of each page, rising, in which not all replicas that are at home have the same bytes.
pub(crate) fn differing_pages<C: AuditCore>(
    alloc: Global,
    core: &C,
) -> Result<Vec<u32>, AllocError> {
    let mut pages = Vec::new(alloc);
    for page in 0..PAGES {
        if !are_alike_in(core, page) {
            pages.push(page * PAGE_SIZE)?;
        }
    }
    Ok(pages)
}

// Whether all replicas that are at home have the same bytes in a page.
fn are_alike_in<C: AuditCore>(core: &C, page: u32) -> bool
    requires { page < 2 ^ 20 }
{
    let mut first = None;
    for number in 0..core.settings().replicas {
        match (first, core.replica(number)) {
            (Some(one), Some(other)) => {
                if differs_in(one, other, page) {
                    return false;
                }
            }
            (None, here) => first = here,
            (Some(_), None) => {}
        }
    }
    true
}

// Whether a page has other bytes in the one replica than in the other, where it is backed.
fn differs_in(one: &ReplicaBox, other: &ReplicaBox, page: u32) -> bool
    requires { page < 2 ^ 20 }
    ensures { IsTrue result ↔ DiffersIn (replica_of one.now) (replica_of other.now) page }
{
    if !is_backed(one, page) && !is_backed(other, page) {
        return false;
    }
    for place in 0..PAGE_SIZE / 4 {
        let address = page * PAGE_SIZE + 4 * place;
        if one.word(address) != other.word(address) {
            return true;
        }
    }
    false
}

// Whether a page is backed.
fn is_backed(replica: &ReplicaBox, page: u32) -> bool
    requires { page < 2 ^ 20 }
    ensures { result ≡ (replica_of replica.now).backed page }
{
    replica.word(page * PAGE_SIZE).is_some()
}
