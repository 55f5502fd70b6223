//! The copies that votes and scrubs made, and the strikes that each undid.
ghost use Rattle.std.specs.Prelude.{◌≡◌, ◌++◌, ◌∷◌, [], IfOk, None, OnOk, map};
ghost use Rattle.ro_journal.specs.Losers.{numbers};
ghost use Rattle.ro_tell.specs.Judging.{copied_of, copies_at, copies_from, copies_of, thread_of};

use ro_audit::{AuditCore, Difference, Parts, Trail, Whole};
use ro_faults::Fault;
use ro_findings::{CopyMade, Differed, Part, Strike, ThreadParts};
use ro_journal::{Entry, Lost};
use std::alloc::{AllocError, Global};
use std::collections::BTreeMap;

/// What differed in each copy of a trail, in their order, to be kept when the trail is given up.
pub(crate) fn differences<C: AuditCore>(
    alloc: Global,
    trail: &Trail<C>,
) -> Result<Vec<Difference>, AllocError> {
    let mut kept = Vec::with_capacity(alloc, trail.copies().len())?;
    for difference in trail.copies() {
        kept.push(kept_of(alloc, difference)?)?;
    }
    Ok(kept)
}

// The same of one copy.
fn kept_of(alloc: Global, difference: &Difference) -> Result<Difference, AllocError> {
    match difference {
        Difference::OfViews(parts) => Ok(Difference::OfViews(*parts)),
        Difference::OfReplicas(Whole { threads, pages }) => Ok(Difference::OfReplicas(Whole {
            threads: Vec::from_slice(alloc, threads.as_slice())?,
            pages: Vec::from_slice(alloc, pages.as_slice())?,
        })),
    }
}

/// The copies that the votes and scrubs of these entries made in a run with these faults. What differed in each is told in their
/// order.
pub(crate) fn copies_made(
    alloc: Global,
    entries: &[Entry],
    faults: &[Fault],
    differences: &[Difference],
) -> Result<Vec<CopyMade>, AllocError>
    ensures { IfOk result (λ copies. map copied_of copies.items ≡ copies_from 0 entries.now) }
{
    let mut copies = Copies {
        alloc,
        made: Vec::new(alloc),
        strikes: Strikes::new(alloc, faults)?,
        differences,
    };
    for (place, entry) in entries.iter().enumerate() {
        copies.pass(place, entry)?;
    }
    let Copies { made, .. } = copies;
    Ok(made)
}

// The copies that were made along a journal.
#[derive(Drop)]
struct Copies<'a> {
    alloc: Global,
    made: Vec<CopyMade>,
    strikes: Strikes,
    // What differed in each that is to be made.
    differences: &'a [Difference],
}

impl Copies<'_> {
    // The copies of one entry more.
    fn pass(&mut self, place: usize, entry: &Entry) -> Result<(), AllocError>
        ensures { OnOk result (map copied_of self.new.made.items ≡ map copied_of self.old.made.items ++ copies_at place entry.now) }
    {
        match *entry {
            Entry::Put { lease, count, .. } | Entry::Part { lease, count, .. } => {
                self.strikes.count(lease.replica, lease.thread, count)
            }
            Entry::Vote { thread, lost, .. } => self.push_all(place, Some(thread), lost),
            Entry::Scrub { lost, .. } => self.push_all(place, None, lost),
            _ => Ok(()),
        }
    }

    // Those of a vote on a thread, or of a scrub, that these lost.
    fn push_all(&mut self, place: usize, thread: Option<u32>, lost: Lost) -> Result<(), AllocError>
        ensures { OnOk result (map copied_of self.new.made.items ≡ map copied_of self.old.made.items ++ copies_of place thread (numbers lost)) }
    {
        match lost {
            Lost::Nobody => Ok(()),
            Lost::One(replica) => self.push(place, thread, replica),
            Lost::Two(lower, higher) => {
                self.push(place, thread, lower)?;
                self.push(place, thread, higher)
            }
        }
    }

    // One of them.
    fn push(&mut self, place: usize, thread: Option<u32>, replica: u32) -> Result<(), AllocError>
        ensures { OnOk result (map copied_of self.new.made.items ≡ map copied_of self.old.made.items ++ record { place = place; thread = thread; replica = replica } ∷ []) }
    {
        let difference = self.differences.get(self.made.len());
        let differed = differed(self.alloc, thread, difference)?;
        let undone = self.strikes.undo(self.alloc, replica)?;
        self.made.push(CopyMade {
            place,
            replica,
            differed,
            undone,
        })?;
        Ok(())
    }
}

// In what a replica differed at a vote on a thread, or at a scrub.
fn differed(
    alloc: Global,
    thread: Option<u32>,
    difference: Option<&Difference>,
) -> Result<Differed, AllocError>
    ensures { IfOk result (λ differed. thread_of differed ≡ thread) }
{
    match thread {
        Some(thread) => Ok(Differed::AtVote {
            thread,
            parts: parts_at_vote(alloc, difference)?,
        }),
        None => at_scrub(alloc, difference),
    }
}

// In which parts of its views it did at a vote.
fn parts_at_vote(alloc: Global, difference: Option<&Difference>) -> Result<Vec<Part>, AllocError> {
    match difference {
        Some(Difference::OfViews(parts)) => parts_of(alloc, *parts),
        _ => Ok(Vec::new(alloc)),
    }
}

// In what it did at a scrub.
fn at_scrub(alloc: Global, difference: Option<&Difference>) -> Result<Differed, AllocError>
    ensures { IfOk result (λ differed. thread_of differed ≡ None) }
{
    let Some(Difference::OfReplicas(whole)) = difference else {
        return Ok(Differed::AtScrub {
            threads: Vec::new(alloc),
            pages: Vec::new(alloc),
        });
    };
    let mut threads = Vec::with_capacity(alloc, whole.threads.len())?;
    for (thread, parts) in &whole.threads {
        let (thread, parts) = (*thread, parts_of(alloc, *parts)?);
        threads.push(ThreadParts { thread, parts })?;
    }
    let pages = Vec::from_slice(alloc, whole.pages.as_slice())?;
    Ok(Differed::AtScrub { threads, pages })
}

// The parts that differ, registers first.
fn parts_of(alloc: Global, parts: Parts) -> Result<Vec<Part>, AllocError> {
    let mut list = Vec::new(alloc);
    for number in 1..32 {
        if parts.has_register(number) {
            list.push(Part::Register(number))?;
        }
    }
    let others = [
        (parts.pc, Part::Pc),
        (parts.since, Part::Since),
        (parts.stop, Part::Stop),
        (parts.payload, Part::Payload),
    ];
    for (differs, part) in others {
        if differs {
            list.push(part)?;
        }
    }
    Ok(list)
}

/// The strikes that no copy has undone, along a journal.
#[derive(Drop)]
struct Strikes {
    /// The faults of which no strike was undone, in the list's order.
    faults: Vec<Fault>,
    /// By replica and thread how many instructions were retired; of those alone that ran.
    retired: BTreeMap<(u32, u32), u64>,
}

impl Strikes {
    // Nothing has run.
    fn new(alloc: Global, faults: &[Fault]) -> Result<Strikes, AllocError> {
        Ok(Strikes {
            faults: Vec::from_slice(alloc, faults)?,
            retired: BTreeMap::new(alloc),
        })
    }

    // Counts the instructions of a run that came back.
    fn count(&mut self, replica: u32, thread: u32, count: u32) -> Result<(), AllocError> {
        let retired = self.retired.entry((replica, thread))?.or_insert(0);
        *retired = retired.saturating_add(u64::from(count));
        Ok(())
    }

    // Undoes what struck a replica.
    fn undo(&mut self, alloc: Global, replica: u32) -> Result<Vec<Strike>, AllocError> {
        let mut undone = Vec::new(alloc);
        for fault in &self.faults {
            if fault.replica != replica {
                continue;
            }
            if let Some(before) = struck_before(&self.retired, fault) {
                undone.push(Strike {
                    fault: *fault,
                    before,
                })?;
            }
        }
        let retired = &self.retired;
        self.faults.retain(|fault| fault.replica != replica
            || struck_before(retired, fault).is_none());
        Ok(undone)
    }
}

// How many instructions of its thread before a fault struck, if it did: it strikes once its thread runs and has retired as many
// as it says.
fn struck_before(retired: &BTreeMap<(u32, u32), u64>, fault: &Fault) -> Option<u64> {
    let retired = *retired.get(&(fault.replica, fault.thread))?;
    retired.checked_sub(fault.at)
}
