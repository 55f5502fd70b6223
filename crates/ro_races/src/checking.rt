//! Watching a run for races, step by step.
ghost use Rattle.std.specs.Prelude.{ℕ, List, ◌≡◌, ◌≤◌, ◌<◌, ◌+◌, ◌^◌, ◌++◌, OnOk, IfOk, IfErr, IfSome, Some, slice_get, length, if◌then◌else◌};
ghost use Rattle.ro_plain.specs.Machine.{Program};
ghost use Rattle.ro_machine.specs.Watched.{sync_of_relation};
ghost use Rattle.ro_races.specs.Clocks.{learns_from as learns, passes_to as passes};
ghost use Rattle.ro_machine.specs.Lanes.{IsOpen};
ghost use Rattle.ro_races.specs.Seen.{seen_by, known_in as all_known, IsPast, PassesOn, IsOwn};
ghost use Rattle.ro_races.specs.Shadows.{plainly as plain_part, reads_of, writes_of, IsTable, AreTables, IsFirstOf, AnyHit, AnyConflict, MarksAll};
ghost use Rattle.ro_races.specs.Follows.{Follows, Lacks, notes, put_back};

use crate::atomics::{Atomics, mark_word, plainly};
use crate::found::{Found, RacesError};
use crate::marks::Clock;
use crate::shadows::{Hit, Table, better, first_hit, is_quiet, mark};
use crate::sources::{Row, Source, Words, keep, known_in, learns_from, pass_to, passes_to};
use ro_machine::{Lane, Plain, Relation, StepError, Watched};
use std::alloc::{AllocError, Global};

/// A run that is watched: its machine, what is known of the order of its steps, and who accessed what.
#[derive(Drop)]
pub(crate) struct Checker {
    pub plain: Plain,
    pub rows: Vec<Row>,
    pub words: Words,
    /// How far each byte was read, but for the words of atomic instructions.
    pub reads: Table,
    /// How far each byte was written, but for these.
    pub writes: Table,
    /// How far these words were read and written; none as long as there are none.
    pub atomics: Option<Atomics>,
    /// How many steps were taken.
    pub steps: u32,
    pub found: Found,
}

/// Takes a step of a thread that is open, if it is a plain one of its stretch of code, and looks for its races; tells whether
/// there was one.
///
/// # Errors
/// Where there is no memory.
#[inline(always)]
pub(crate) fn check_quickly(
    alloc: Global,
    checker: &mut Checker,
    lane: &mut Lane,
    own: usize,
) -> Result<bool, AllocError>
    requires steps { checker.old.steps + 1 < 2 ^ 32 }
    requires reads { IsTable checker.old.reads.items }
    requires writes { IsTable checker.old.writes.items }
    requires atomics { AreTables checker.old.atomics }
    requires opened { IsOpen checker.old.plain lane.old }
    requires own { IsOwn checker.old.rows.items lane.old.thread own }
    ensures reads { IsTable checker.new.reads.items }
    ensures writes { IsTable checker.new.writes.items }
    ensures atomics { AreTables checker.new.atomics }
    ensures opened { OnOk result (IsOpen checker.new.plain lane.new) }
    ensures own { OnOk result (IsOwn checker.new.rows.items lane.new.thread own) }
    ensures thread { lane.new.thread ≡ lane.old.thread }
    ensures steps { IfOk result (λ taken. checker.new.steps ≡ checker.old.steps + (if taken then 1 else 0)) }
    ensures follows { OnOk result ((program : Program) (threads : List ℕ) → Follows program threads (put_back checker.old lane.old) → slice_get threads checker.old.steps ≡ Some lane.old.thread → Follows program threads (put_back checker.new lane.new)) }
{
    let Some(watched) = checker.plain.watch_quickly(lane) else {
        return Ok(false);
    };
    let thread = lane.thread;
    let place = checker.steps;
    let past = &checker.rows[own].clock;
    let hit = hit_of(
        &checker.reads,
        &checker.writes,
        &checker.atomics,
        &watched,
        past,
    );
    checker.rows[own].clock.advance(thread, place);
    mark_all(
        alloc,
        &mut checker.reads,
        &mut checker.writes,
        &watched,
        thread,
        place,
    )?;
    checker.found = noted(checker.found, hit, place);
    checker.steps += 1;
    Ok(true)
}

/// Takes a step of a thread, and looks for its races.
///
/// # Errors
/// `NoStep` where there is no such step, and `NoMemory`.
pub(crate) fn check_step(
    alloc: Global,
    checker: &mut Checker,
    thread: u32,
) -> Result<(), RacesError>
    requires steps { checker.old.steps + 1 < 2 ^ 32 }
    requires reads { IsTable checker.old.reads.items }
    requires writes { IsTable checker.old.writes.items }
    requires atomics { AreTables checker.old.atomics }
    ensures reads { IsTable checker.new.reads.items }
    ensures writes { IsTable checker.new.writes.items }
    ensures atomics { AreTables checker.new.atomics }
    ensures steps { OnOk result (checker.new.steps ≡ checker.old.steps + 1) }
    ensures follows { OnOk result ((program : Program) (threads : List ℕ) → Follows program threads checker.old → slice_get threads checker.old.steps ≡ Some thread → Follows program threads checker.new) }
    ensures lacks { IfErr result (λ error. (program : Program) (threads : List ℕ) → Follows program threads checker.old → slice_get threads checker.old.steps ≡ Some thread → Lacks program threads error) }
{
    let watched = match checker.plain.watch(thread) {
        Ok(watched) => watched,
        Err(StepError::NoStep) => {
            return Err(RacesError::NoStep {
                place: u64::from(checker.steps),
            });
        }
        Err(StepError::NoMemory) => return Err(RacesError::NoMemory),
    };
    let mut past = past_of(
        checker.rows.as_slice(),
        &checker.words,
        thread,
        watched.relation,
    );
    let hit = hit_of(
        &checker.reads,
        &checker.writes,
        &checker.atomics,
        &watched,
        &past,
    );
    past.advance(thread, checker.steps);
    mark_all(
        alloc,
        &mut checker.reads,
        &mut checker.writes,
        &plainly(&watched),
        thread,
        checker.steps,
    )?;
    mark_word(alloc, &mut checker.atomics, &watched, thread, checker.steps)?;
    pass_on(
        &mut checker.rows,
        &mut checker.words,
        thread,
        watched.relation,
        &past,
    )?;
    checker.found = noted(checker.found, hit, checker.steps);
    checker.steps += 1;
    Ok(())
}

/// What happens before the next step of a thread, by what it means for the order.
fn past_of(rows: &[Row], words: &Words, thread: u32, relation: Relation) -> Clock
    ensures { IsPast (all_known rows.now words.now.entries) thread (learns (sync_of_relation relation)) result }
{
    let mut past = known_in(rows, words, Source::Thread(thread));
    if let Some(source) = learns_from(relation) {
        past.join(&known_in(rows, words, source));
    }
    past
}

/// The first access of those that a step does not know of, and with which it conflicts. Where no atomic instruction was
/// executed yet, it costs no more than one test to leave their words out.
#[inline(always)]
fn hit_of(
    reads: &Table,
    writes: &Table,
    atomics: &Option<Atomics>,
    watched: &Watched,
    past: &Clock,
) -> Option<Hit>
    requires reads { IsTable reads.now.items }
    requires writes { IsTable writes.now.items }
    requires atomics { AreTables atomics.now }
    requires loaded { watched.now.loaded.count ≤ 4096 }
    requires code { watched.now.code.count ≤ 4096 }
    requires stored { watched.now.stored.place + watched.now.stored.count ≤ 2 ^ 32 + 4096 }
    ensures { IsFirstOf (AnyConflict reads.now.items writes.now.items atomics.now watched.now (seen_by past.now)) result }
{
    let hit = hit_in(reads, writes, watched, past);
    match atomics {
        None => hit,
        Some(tables) => better(hit, hit_beside(tables, watched, past)),
    }
}

/// The first access by an atomic instruction of those that a step does not know of, and with which it conflicts: it does not
/// by an atomic instruction of its own.
#[inline(never)]
fn hit_beside(atomics: &Atomics, watched: &Watched, past: &Clock) -> Option<Hit>
    requires reads { IsTable atomics.now.reads.items }
    requires writes { IsTable atomics.now.writes.items }
    requires loaded { watched.now.loaded.count ≤ 4096 }
    requires code { watched.now.code.count ≤ 4096 }
    requires stored { watched.now.stored.place + watched.now.stored.count ≤ 2 ^ 32 + 4096 }
    ensures { IsFirstOf (AnyHit atomics.now.reads.items atomics.now.writes.items (plain_part watched.now) (seen_by past.now)) result }
{
    hit_in(&atomics.reads, &atomics.writes, &plainly(watched), past)
}

/// The first access among these marks that a step does not know of, and with which it conflicts.
#[inline(always)]
fn hit_in(reads: &Table, writes: &Table, watched: &Watched, past: &Clock) -> Option<Hit>
    requires reads { IsTable reads.now.items }
    requires writes { IsTable writes.now.items }
    requires loaded { watched.now.loaded.count ≤ 4096 }
    requires code { watched.now.code.count ≤ 4096 }
    requires stored { watched.now.stored.place + watched.now.stored.count ≤ 2 ^ 32 + 4096 }
    ensures { IsFirstOf (AnyHit reads.now.items writes.now.items watched.now (seen_by past.now)) result }
{
    // Read so that the prover knows that they are addresses of 32 bits.
    let _loaded = watched.loaded.place;
    let _code = watched.code.place;
    if is_quiet(writes, watched.code, past)
        && is_quiet(writes, watched.loaded, past)
        && is_quiet(writes, watched.stored, past)
        && is_quiet(reads, watched.stored, past)
    {
        return None;
    }
    hit_among(reads, writes, watched, past)
}

/// The same, found byte by byte.
#[cold]
#[inline(never)]
fn hit_among(reads: &Table, writes: &Table, watched: &Watched, past: &Clock) -> Option<Hit>
    requires reads { IsTable reads.now.items }
    requires writes { IsTable writes.now.items }
    requires loaded { watched.now.loaded.count ≤ 4096 }
    requires code { watched.now.code.count ≤ 4096 }
    requires stored { watched.now.stored.place + watched.now.stored.count ≤ 2 ^ 32 + 4096 }
    ensures { IsFirstOf (AnyHit reads.now.items writes.now.items watched.now (seen_by past.now)) result }
{
    // Read so that the prover knows that they are addresses of 32 bits.
    let _loaded = watched.loaded.place;
    let _code = watched.code.place;
    let loaded = first_hit(writes, watched.loaded, past);
    let code = first_hit(writes, watched.code, past);
    let stored = first_hit(writes, watched.stored, past);
    let read = first_hit(reads, watched.stored, past);
    better(better(loaded, code), better(stored, read))
}

/// Marks all that the step of a thread at a place accessed.
///
/// # Errors
/// Where there is no memory.
#[inline(always)]
fn mark_all(
    alloc: Global,
    reads: &mut Table,
    writes: &mut Table,
    watched: &Watched,
    thread: u32,
    place: u32,
) -> Result<(), AllocError>
    requires reads { IsTable reads.old.items }
    requires writes { IsTable writes.old.items }
    requires loaded { watched.now.loaded.count ≤ 4096 }
    requires code { watched.now.code.count ≤ 4096 }
    requires stored { watched.now.stored.place + watched.now.stored.count ≤ 2 ^ 32 + 4096 }
    requires thread { thread < 16 }
    requires place { place + 1 < 2 ^ 32 }
    ensures reads { IsTable reads.new.items }
    ensures writes { IsTable writes.new.items }
    ensures marks { OnOk result (MarksAll reads.old.items writes.old.items watched.now thread place reads.new.items writes.new.items) }
{
    // Read so that the prover knows that they are addresses of 32 bits.
    let _loaded = watched.loaded.place;
    let _code = watched.code.place;
    mark(alloc, reads, watched.loaded, thread, place)?;
    mark(alloc, reads, watched.code, thread, place)?;
    mark(alloc, writes, watched.stored, thread, place)?;
    Ok(())
}

/// Keeps what a step knows for its thread's next step, and passes it on to what else it means.
fn pass_on(
    rows: &mut Vec<Row>,
    words: &mut Words,
    thread: u32,
    relation: Relation,
    past: &Clock,
) -> Result<(), AllocError>
    ensures { OnOk result (PassesOn (all_known rows.old.items words.old.entries) thread (passes thread (sync_of_relation relation)) past.now (all_known rows.new.items words.new.entries)) }
{
    keep(rows, Source::Thread(thread), past)?;
    if let Some(source) = passes_to(thread, relation) {
        pass_to(rows, words, source, past)?;
    }
    Ok(())
}

/// What was found, with the hit of the step at a place, if it has one.
fn noted(found: Found, hit: Option<Hit>, place: u32) -> Found
    requires { IfSome hit (λ hit. 0 < hit.mark) }
    ensures { result ≡ notes found hit place }
{
    match (found, hit) {
        (Found::NoRace, Some(hit)) => Found::Pair {
            i: u64::from(hit.mark - 1),
            j: u64::from(place),
            byte: hit.byte,
        },
        _ => found,
    }
}
