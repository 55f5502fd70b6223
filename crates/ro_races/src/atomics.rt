//! What atomic instructions accessed: bytes that they access as one race with plain accesses alone.
ghost use Rattle.std.specs.Prelude.{ℕ, ◌≡◌, ◌≤◌, ◌<◌, ◌+◌, ◌^◌, None, IfOk, OnOk};
ghost use Rattle.ro_races.specs.Shadows.{plainly as plain_part, as_one, reads_of, writes_of, marks_at, IsTable, AreTables, MarksAll};

use crate::shadows::{Table, mark, new_table};
use ro_machine::{NO_BYTES, Watched};
use std::alloc::{AllocError, Global};

/// How far each byte was read and written by atomic instructions.
#[derive(Drop)]
pub(crate) struct Atomics {
    pub reads: Table,
    pub writes: Table,
}

/// What a step accesses, but for the word of an atomic instruction.
#[inline(always)]
pub(crate) fn plainly(watched: &Watched) -> Watched
    ensures part { result ≡ plain_part watched.now }
    ensures loaded { result.loaded.count ≤ watched.now.loaded.count }
    ensures code { result.code.count ≤ watched.now.code.count }
    ensures stored { result.stored.place + result.stored.count ≤ watched.now.stored.place + watched.now.stored.count }
{
    if watched.atomic.count == 0 {
        return *watched;
    }
    Watched {
        loaded: NO_BYTES,
        stored: NO_BYTES,
        ..*watched
    }
}

/// Marks the word that the step of a thread at a place accessed by an atomic instruction, if it is one.
///
/// # Errors
/// Where there is no memory.
pub(crate) fn mark_word(
    alloc: Global,
    atomics: &mut Option<Atomics>,
    watched: &Watched,
    thread: u32,
    place: u32,
) -> Result<(), AllocError>
    requires tables { AreTables atomics.old }
    requires loaded { watched.now.loaded.count ≤ 4096 }
    requires stored { watched.now.stored.place + watched.now.stored.count ≤ 2 ^ 32 + 4096 }
    requires thread { thread < 16 }
    requires place { place + 1 < 2 ^ 32 }
    ensures tables { AreTables atomics.new }
    ensures marks { OnOk result (MarksAll (reads_of atomics.old) (writes_of atomics.old) (as_one watched.now) thread place (reads_of atomics.new) (writes_of atomics.new)) }
{
    if watched.atomic.count == 0 {
        return Ok(());
    }
    // Read so that the prover knows that it is an address of 32 bits.
    let _loaded = watched.loaded.place;
    let mut tables = taken(alloc, atomics)?;
    mark(alloc, &mut tables.reads, watched.loaded, thread, place)?;
    mark(alloc, &mut tables.writes, watched.stored, thread, place)?;
    *atomics = Some(tables);
    Ok(())
}

/// The tables, taken out; they are made at the first atomic instruction.
fn taken(alloc: Global, atomics: &mut Option<Atomics>) -> Result<Atomics, AllocError>
    requires tables { AreTables atomics.old }
    ensures left { atomics.new ≡ None }
    ensures reads { IfOk result (λ tables. IsTable tables.reads.items) }
    ensures writes { IfOk result (λ tables. IsTable tables.writes.items) }
    ensures read { IfOk result (λ tables. (byte thread : ℕ) → marks_at tables.reads.items byte thread ≡ marks_at (reads_of atomics.old) byte thread) }
    ensures written { IfOk result (λ tables. (byte thread : ℕ) → marks_at tables.writes.items byte thread ≡ marks_at (writes_of atomics.old) byte thread) }
{
    match atomics.take() {
        Some(tables) => Ok(tables),
        None => Ok(Atomics {
            reads: new_table(alloc)?,
            writes: new_table(alloc)?,
        }),
    }
}
