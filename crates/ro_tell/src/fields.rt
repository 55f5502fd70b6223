//! In what replicas differ of which no more than half agree.
ghost use Rattle.std.specs.Prelude.{◌<◌, IfOk};
ghost use Rattle.ro_tell.specs.Judging.{IsSplitBy};

use crate::places::place_at;
use ro_audit::{AuditCore, Trail};
use ro_event::View;
use ro_findings::{Field, Split, ThreadFields};
use ro_journal::{Entry, How};
use std::alloc::{AllocError, Global};

/// In what replicas differ that are compared whole.
#[derive(Drop)]
pub(crate) struct Unlike {
    /// The threads that differ, and in which parts.
    pub threads: Vec<ThreadFields>,
    /// Where the pages begin that differ.
    pub pages: Vec<u32>,
}

impl Unlike {
    /// What differs where nothing is compared.
    pub(crate) fn nothing(alloc: Global) -> Unlike {
        Unlike {
            threads: Vec::new(alloc),
            pages: Vec::new(alloc),
        }
    }

    /// What differs in the replicas of a trail, which are so many.
    pub(crate) fn of<C: AuditCore>(
        alloc: Global,
        trail: &Trail<C>,
        executable: &[u8],
        replicas: u32,
    ) -> Result<Unlike, AllocError> {
        let mut threads = Vec::new(alloc);
        for thread in 0..trail.core().kernel().made() {
            let views = views_of(alloc, trail, replicas, thread)?;
            let fields = fields(alloc, executable, views.as_slice())?;
            if !fields.is_empty() {
                threads.push(ThreadFields { thread, fields })?;
            }
        }
        let pages = trail.differing_pages(alloc)?;
        Ok(Unlike { threads, pages })
    }
}

/// In what replicas differ of which no more than half agree: by their views where a vote showed some, and else whole.
pub(crate) fn split_of(
    alloc: Global,
    executable: &[u8],
    views: &[View],
    unlike: Unlike,
) -> Result<Split, AllocError>
    ensures { IfOk result (IsSplitBy views.now) }
{
    if views.is_empty() {
        let Unlike { threads, pages } = unlike;
        return Ok(Split::AtScrub { threads, pages });
    }
    Ok(Split::AtVote(all_fields(alloc, executable, views)?))
}

// Each part that is not the same in all views.
fn all_fields(alloc: Global, executable: &[u8], views: &[View]) -> Result<Vec<Field>, AllocError> {
    let mut fields = fields(alloc, executable, views)?;
    let differs = match views.first() {
        Some(first) => views.iter().any(|view| view.payload() != first.payload()),
        None => false,
    };
    if differs {
        let counts = views
            .iter()
            .map(|view| view.payload().len())
            .collect(alloc)?;
        fields.push(Field::Payload(counts))?;
    }
    Ok(fields)
}

/// Whether the last entry is an end by replicas that differ.
pub(crate) fn ends_split(entries: &[Entry]) -> bool {
    matches!(
        entries.last(),
        Some(Entry::End {
            how: How::Differ | How::NoMajority
        })
    )
}

// The views of a thread in the replicas where it stands still, in their order.
fn views_of<C: AuditCore>(
    alloc: Global,
    trail: &Trail<C>,
    replicas: u32,
    thread: u32,
) -> Result<Vec<View>, AllocError> {
    let mut views = Vec::new(alloc);
    for replica in 0..replicas {
        if let Some(view) = trail.view(replica, thread) {
            views.push(view)?;
        }
    }
    Ok(views)
}

// The same but for what is written; none where there are no views.
fn fields(alloc: Global, executable: &[u8], views: &[View]) -> Result<Vec<Field>, AllocError> {
    let mut fields = Vec::new(alloc);
    let Some(first) = views.first() else {
        return Ok(fields);
    };
    if views.iter().any(|view| view.pc() != first.pc()) {
        fields.push(pcs(alloc, executable, views)?)?;
    }
    if views.iter().any(|view| view.since() != first.since()) {
        let counts = views.iter().map(|view| view.since()).collect(alloc)?;
        fields.push(Field::Since(counts))?;
    }
    for number in 0..31 {
        push_register(alloc, &mut fields, number, views, first)?;
    }
    if views.iter().any(|view| view.stop() != first.stop()) {
        let stops = views.iter().map(|view| *view.stop()).collect(alloc)?;
        fields.push(Field::Stop(stops))?;
    }
    Ok(fields)
}

// The pc of each.
fn pcs(alloc: Global, executable: &[u8], views: &[View]) -> Result<Field, AllocError> {
    let mut places = Vec::with_capacity(alloc, views.len())?;
    for view in views {
        places.push(place_at(alloc, executable, view.pc())?)?;
    }
    Ok(Field::Pc(places))
}

// A register, where it differs.
fn push_register(
    alloc: Global,
    fields: &mut Vec<Field>,
    number: usize,
    views: &[View],
    first: &View,
) -> Result<(), AllocError>
    requires { number < 31 }
{
    let usual = first.registers()[number];
    if !views.iter().any(|view| view.registers()[number] != usual) {
        return Ok(());
    }
    let values = views
        .iter()
        .map(|view| view.registers()[number])
        .collect(alloc)?;
    fields.push(Field::Register(number as u32 + 1, values))?;
    Ok(())
}
