//! The audit of a journal.
ghost use Rattle.std.specs.Prelude.{◌≡◌, List, IfErr, IfOk, MatchResult};
ghost use Rattle.ro_journal.specs.declared.Entry.{Entry as EntrySeen};
ghost use Rattle.ro_settings.specs.Ranges.{InRange};
ghost use Rattle.ro_replica.specs.Seen.{AreFaults};
ghost use Rattle.ro_legal.specs.Core.{Job};
ghost use Rattle.ro_legal.specs.Jobs.{job_of};
ghost use Rattle.ro_legal.specs.Rules.{IsFit, output_of};
ghost use Rattle.ro_cores.specs.Loans.{IsJoined};
ghost use Rattle.ro_audit.specs.Audits.{NextUpTo, Tells, IsCause};
ghost use Rattle.ro_audit.specs.Following.{IsTrail};

use crate::audit_cores::AuditCore;
use crate::copies::{Difference, shown};
use crate::follower::{Follower, Walk, Why};
use crate::whole::differing_pages;
use ro_cores::Remains;
use ro_event::View;
use ro_faults::Fault;
use ro_image::Executable;
use ro_journal::{Entry, How};
use ro_settings::Settings;
use std::alloc::{AllocError, Global};
use std::marker::Model;

/// What a legal journal comes to.
#[derive(Drop)]
pub struct Audited {
    /// How the run ended, if it did.
    pub how: Option<How>,
    /// The length of its plan.
    pub steps: u64,
    /// What it wrote.
    pub output: Vec<u8>,
    /// The place of the first entry, from 0, that is not what the run does next; none where each is.
    pub odd: Option<usize>,
    /// Where it ended by a vote of views that had no majority, those views in the order of the replicas; none where it ended by a
    /// scrub.
    pub views: Vec<View>,
}

/// Why there is no audit.
#[derive(Clone, Copy, Debug, PartialEq, Eq)]
pub enum AuditError {
    /// The entry at this place, from 0, is the first that is not allowed, and why it is not.
    Illegal { place: usize, why: Why },
    NoMemory,
}

/// A journal that was followed, and where that ended.
pub struct Trail<C: AuditCore> {
    follower: Follower<C>,
    walk: Walk,
}

// Contracts see the core, what the entries wrote, and how far they were followed.
impl<C: AuditCore> Model for Trail<C> {
    ghost use Rattle.ro_audit.specs.Following.{TrailOf};

    ghost Value = { TrailOf };

    ghost view = { λ t. record { core = C.seen t.follower.core; output = t.follower.output.items; walk = t.walk } };

    ghost invariant = { λ t. C.holds t.follower.core };
}

/// Follows the journal of a run entry by entry, and tells what it comes to; the image comes back.
///
/// # Errors
/// `Illegal` exactly where the journal is not legal, with the place of the first entry that is not allowed in the core that
/// those before it leave; `NoMemory` where there is no memory.
pub fn audit<C: AuditCore>(
    alloc: Global,
    image: Executable,
    input: &[u8],
    faults: &[Fault],
    settings: Settings,
    journal: &[Entry],
) -> (Executable, Result<Audited, AuditError>)
    requires settings { InRange settings }
    requires faults { AreFaults faults.now }
    requires mode { settings.mode ≡ C.mode }
    requires fit { IsFit (job_of image input.now faults.now settings) }
    ensures back { result.0 ≡ image }
    ensures audited { MatchResult result.1 (Tells (job_of image input.now faults.now settings) journal.now) (IsCause (job_of image input.now faults.now settings) journal.now) }
{
    match trace::<C>(alloc, image, input, faults, settings, journal) {
        Ok(trail) => trail.tell(),
        Err(image) => (image, Err(AuditError::NoMemory)),
    }
}

/// Follows the journal of a run entry by entry, up to the first that is not allowed.
///
/// # Errors
/// Where there is no memory; the image comes back.
pub fn trace<C: AuditCore>(
    alloc: Global,
    image: Executable,
    input: &[u8],
    faults: &[Fault],
    settings: Settings,
    journal: &[Entry],
) -> Result<Trail<C>, Executable>
    requires settings { InRange settings }
    requires faults { AreFaults faults.now }
    requires mode { settings.mode ≡ C.mode }
    requires fit { IsFit (job_of image input.now faults.now settings) }
    ensures trail { IfOk result (IsTrail (job_of image input.now faults.now settings) journal.now) }
    ensures back { IfErr result (λ back. back ≡ image) }
{
    let mut follower = Follower::<C>::begin(alloc, image, input, faults, settings)?;
    match follower.walk(journal) {
        Ok(walk) => Ok(Trail { follower, walk }),
        Err(_) => Err(follower.discard()),
    }
}

impl<C: AuditCore> Trail<C> {
    /// The core that the entries leave up to where they were followed. Where an entry that is not allowed names a vote, a call
    /// that is served or a scrub, it has come to another entry by now.
    pub fn core(&self) -> &C
        ensures holds { C.holds result.now }
        ensures seen { C.seen result.now ≡ self.now.core }
    {
        &self.follower.core
    }

    /// A thread of a replica of that core, where the replica is at home and the thread stands still.
    pub fn view(&self, replica: u32, thread: u32) -> Option<View> {
        shown(&self.follower.core, replica, thread)
    }

    /// Of each copy that a vote or a scrub made, in their order, in what the loser differed from the winner. That they are
    /// those of the votes and scrubs is told without a clause.
    pub fn copies(&self) -> &[Difference] {
        self.follower.copies.as_slice()
    }

    /// The first address of each page, rising, in which not all replicas that are at home in that core have the same bytes.
    ///
    /// # Errors
    /// Where there is no memory.
    pub fn differing_pages(&self, alloc: Global) -> Result<Vec<u32>, AllocError> {
        differing_pages(alloc, &self.follower.core)
    }

    /// The image, and what the journal comes to or the first entry that is not allowed.
    pub fn tell(self) -> (Executable, Result<Audited, AuditError>)
        ensures image { (job : Job) (journal : List EntrySeen) → IsTrail job journal self → result.0 ≡ job.program.image }
        ensures told { (job : Job) (journal : List EntrySeen) → IsTrail job journal self → MatchResult result.1 (Tells job journal) (IsCause job journal) }
    {
        let Trail { follower, walk } = self;
        match walk {
            Walk::Whole { odd } => {
                let (image, audited) = whole(follower, odd);
                (image, Ok(audited))
            }
            Walk::Stopped { place, why } => {
                let image = follower.discard();
                (image, Err(AuditError::Illegal { place, why }))
            }
        }
    }
}

// The image, and what a journal that was followed to its end comes to, which has its first odd entry there.
fn whole<C: AuditCore>(follower: Follower<C>, odd: Option<usize>) -> (Executable, Audited)
    requires holds { C.holds follower.core }
    ensures image { result.0 ≡ (C.seen follower.core).job.program.image }
    ensures tells { let core = C.seen follower.core in follower.output.items ≡ output_of core.job core.journal → IsJoined core.job core.journal → NextUpTo core.job core.journal odd → Tells core.job core.journal result.1 }
{
    let Follower {
        core,
        lent: _,
        got: _,
        output,
        copies: _,
        alloc: _,
    } = follower;
    let _entries = core.entries();
    let steps = core.steps();
    let Remains {
        image,
        how,
        views,
        journal: _,
    } = core.finish();
    let audited = Audited {
        how,
        steps,
        output,
        odd,
        views,
    };
    (image, audited)
}
