//! What a step of a thread learns from, and to what it passes on what it knows.
ghost use Rattle.std.specs.Prelude.{ℕ, List, ◌≡◌, ◌<◌, IfOk, IfSome, OnOk, length};
ghost use Rattle.ro_races.specs.Clocks.{learns_from as learns, passes_to as passes};
ghost use Rattle.ro_races.specs.declared.sources.Source.{Source as SourceSeen};
ghost use Rattle.ro_races.specs.declared.sources.Source.TheVariants.{Word};
ghost use Rattle.ro_races.specs.declared.sources.Row.{Row as RowSeen};
ghost use Rattle.ro_races.specs.Seen.{seen_by, is_source, known_by, known_in as all_known, IsPlace, IsOwn, Keeps, Passes};
ghost use Rattle.ro_machine.specs.Watched.{sync_of_relation};

use crate::marks::{Clock, NOTHING};
use ro_machine::Relation;
use std::alloc::AllocError;
use std::collections::HashMap;

/// What carries the order of steps from one to a later one.
#[derive(Clone, Copy, Debug, PartialEq, Eq)]
pub enum Source {
    /// The next step of a thread.
    Thread(u32),
    /// The next lock of a mutex, by its address.
    Mutex(u32),
    /// The join of a thread that has exited.
    Exit(u32),
    /// The next atomic instruction on a word, by its address.
    Word(u32),
}

impl Source {
    /// Whether two sources are one.
    fn is(self, other: Source) -> bool
        ensures { result ≡ is_source self other }
    {
        match (self, other) {
            (Source::Thread(one), Source::Thread(two)) => one == two,
            (Source::Mutex(one), Source::Mutex(two)) => one == two,
            (Source::Exit(one), Source::Exit(two)) => one == two,
            (Source::Word(one), Source::Word(two)) => one == two,
            _ => false,
        }
    }
}

/// From what, besides its thread's own past, a step learns.
pub(crate) fn learns_from(relation: Relation) -> Option<Source>
    ensures { result ≡ learns (sync_of_relation relation) }
{
    match relation {
        Relation::Locks(mutex) => Some(Source::Mutex(mutex)),
        Relation::Joins(thread) => Some(Source::Exit(thread)),
        Relation::Updates(word) | Relation::Observes(word) => Some(Source::Word(word)),
        _ => None,
    }
}

/// To what, besides its thread's own next step, a step passes on what it knows.
pub(crate) fn passes_to(thread: u32, relation: Relation) -> Option<Source>
    ensures { result ≡ passes thread (sync_of_relation relation) }
{
    match relation {
        Relation::Unlocks(mutex) => Some(Source::Mutex(mutex)),
        Relation::Makes(other) => Some(Source::Thread(other)),
        Relation::Exits => Some(Source::Exit(thread)),
        Relation::Updates(word) => Some(Source::Word(word)),
        _ => None,
    }
}

/// A source with what it knows.
#[derive(Clone, Copy, Debug, PartialEq, Eq)]
pub(crate) struct Row {
    pub source: Source,
    pub clock: Clock,
}

/// What each word that an atomic instruction updated passes on, by its address: they may be many.
pub(crate) type Words = HashMap<u32, Clock>;

/// What a source knows.
pub(crate) fn known_in(rows: &[Row], words: &Words, source: Source) -> Clock
    ensures { (thread : ℕ) → seen_by result thread ≡ all_known rows.now words.now.entries source thread }
{
    match source {
        Source::Word(word) => known_word(words, word),
        Source::Thread(_) | Source::Mutex(_) | Source::Exit(_) => known(rows, source),
    }
}

/// What a word knows.
fn known_word(words: &Words, word: u32) -> Clock
    ensures { (rows : List RowSeen) (thread : ℕ) → seen_by result thread ≡ all_known rows words.now.entries (Word word) thread }
{
    match words.get(&word) {
        Some(clock) => *clock,
        None => NOTHING,
    }
}

/// What a source that is no word knows.
fn known(rows: &[Row], source: Source) -> Clock
    ensures { (thread : ℕ) → seen_by result thread ≡ known_by rows.now source thread }
{
    match place_of(rows, source) {
        Some(place) => rows[place].clock,
        None => NOTHING,
    }
}

/// Lets a source know what a clock knows, and no more.
///
/// # Errors
/// Where there is no memory.
pub(crate) fn keep(rows: &mut Vec<Row>, source: Source, past: &Clock) -> Result<(), AllocError>
    ensures { OnOk result (Keeps (known_by rows.old.items) source past.now (known_by rows.new.items)) }
{
    match place_of(rows.as_slice(), source) {
        Some(place) => rows[place].clock = *past,
        None => rows
            .push(Row {
                source,
                clock: *past,
            })
            .map_err(AllocError::from)?,
    }
    Ok(())
}

/// The place of a thread's row, which is made where there is none.
///
/// # Errors
/// Where there is no memory.
pub(crate) fn own_place(rows: &mut Vec<Row>, thread: u32) -> Result<usize, AllocError>
    ensures own { IfOk result (IsOwn rows.new.items thread) }
    ensures same { (source : SourceSeen) (thread : ℕ) → known_by rows.new.items source thread ≡ known_by rows.old.items source thread }
{
    let place = place_of(rows.as_slice(), Source::Thread(thread));
    if let Some(place) = place {
        return Ok(place);
    }
    rows.push(Row {
        source: Source::Thread(thread),
        clock: NOTHING,
    })
    .map_err(AllocError::from)?;
    Ok(rows.len() - 1)
}

/// Passes on to a source what a clock knows.
///
/// # Errors
/// Where there is no memory.
pub(crate) fn pass_to(
    rows: &mut Vec<Row>,
    words: &mut Words,
    source: Source,
    past: &Clock,
) -> Result<(), AllocError>
    ensures { OnOk result (Passes (all_known rows.old.items words.old.entries) source past.now (all_known rows.new.items words.new.entries)) }
{
    match source {
        Source::Word(word) => pass_word(words, word, past),
        Source::Thread(_) | Source::Mutex(_) | Source::Exit(_) => pass(rows, source, past),
    }
}

/// Passes on to a word what a clock knows.
fn pass_word(words: &mut Words, word: u32, past: &Clock) -> Result<(), AllocError>
    ensures { OnOk result ((rows : List RowSeen) → Passes (all_known rows words.old.entries) (Word word) past.now (all_known rows words.new.entries)) }
{
    let mut clock = known_word(words, word);
    clock.join(past);
    words.insert(word, clock).map_err(AllocError::from)?;
    Ok(())
}

/// Passes on to a source that is no word what a clock knows.
fn pass(rows: &mut Vec<Row>, source: Source, past: &Clock) -> Result<(), AllocError>
    ensures { OnOk result (Passes (known_by rows.old.items) source past.now (known_by rows.new.items)) }
{
    match place_of(rows.as_slice(), source) {
        Some(place) => rows[place].clock.join(past),
        None => rows
            .push(Row {
                source,
                clock: *past,
            })
            .map_err(AllocError::from)?,
    }
    Ok(())
}

/// Where a source stands among others, if it does.
fn place_of(rows: &[Row], source: Source) -> Option<usize>
    ensures there { IfSome result (λ place. place < length rows.now) }
    ensures place { IsPlace rows.now source result }
{
    let mut place = 0;
    while place < rows.len() {
        if rows[place].source.is(source) {
            return Some(place);
        }
        place += 1;
    }
    None
}
