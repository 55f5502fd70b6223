//! Checking the plan of a journal.
ghost use Rattle.std.specs.Prelude.{ℕ, List, ◌≡◌, ◌<◌, ◌≤◌, ◌+◌, ◌++◌, OnOk, IfOk, IfErr, length, replicate};
ghost use Rattle.std.specs.Arc.{arc_value};
ghost use Rattle.ro_plans.specs.Plans.{plan_in};
ghost use Rattle.ro_plans.specs.Walks.{stretch_steps};
ghost use Rattle.ro_plain.specs.Machine.{Program};
ghost use Rattle.ro_races.specs.Shadows.{IsTable, AreTables};
ghost use Rattle.ro_machine.specs.Lanes.{IsOpen};
ghost use Rattle.ro_races.specs.Seen.{IsOwn};
ghost use Rattle.ro_races.specs.Follows.{Follows, Lacks, StandsAt, Checks, put_back};

use crate::checking::{Checker, check_quickly, check_step};
use crate::found::{Found, RacesError};
use crate::shadows::new_table;
use crate::sources::own_place;
use ro_image::Executable;
use ro_journal::Entry;
use ro_machine::{Lane, Plain};
use ro_plans::{Stretch, Walk};
use ro_settings::Mode;
use std::alloc::{AllocError, Global};
use std::collections::HashMap;
use std::sync::Arc;

/// Runs the plan of a journal on the unreplicated machine of a program and an input, and tells its first race: that whose
/// second step is the earliest, of these that at the lowest byte, and of these that whose first step is the latest. It says
/// nothing of other orders of the threads' steps. The plan is never spelled out; a table of marks is kept for each page that
/// is touched.
///
/// # Errors
/// `NoStep` at the plan's first step that does not exist, also where an earlier step has a race, and `NoMemory`.
pub fn check(
    alloc: Global,
    image: &Arc<Executable>,
    input: &[u8],
    mode: Mode,
    journal: &[Entry],
) -> Result<Found, RacesError>
    requires { length (plan_in mode journal.now) ≤ 1000000000 }
    ensures checks { IfOk result (Checks (record { image = arc_value image.now; input = input.now }) (plan_in mode journal.now)) }
    ensures lacks { IfErr result (Lacks (record { image = arc_value image.now; input = input.now }) (plan_in mode journal.now)) }
{
    let Ok(mut checker) = begin(alloc, image, input) else {
        return Err(RacesError::NoMemory);
    };
    check_all(alloc, &mut checker, mode, journal)?;
    Ok(checker.found)
}

/// A run of which no step was taken.
fn begin(alloc: Global, image: &Arc<Executable>, input: &[u8]) -> Result<Checker, AllocError>
    ensures reads { IfOk result (λ checker. IsTable checker.reads.items) }
    ensures writes { IfOk result (λ checker. IsTable checker.writes.items) }
    ensures atomics { IfOk result (λ checker. AreTables checker.atomics) }
    ensures steps { IfOk result (λ checker. checker.steps ≡ 0) }
    ensures follows { IfOk result (λ checker. (threads : List ℕ) → Follows (record { image = arc_value image.now; input = input.now }) threads checker) }
{
    let plain = Plain::begin(alloc, image, input)?;
    let reads = new_table(alloc)?;
    let writes = new_table(alloc)?;
    Ok(Checker {
        plain,
        rows: Vec::new(alloc),
        words: HashMap::new(alloc),
        reads,
        writes,
        atomics: None,
        steps: 0,
        found: Found::NoRace,
    })
}

/// Takes plain steps of an open thread in a row, so many at most; tells how many there were.
fn check_lane(
    alloc: Global,
    checker: &mut Checker,
    lane: &mut Lane,
    own: usize,
    most: u64,
) -> Result<u64, AllocError>
    requires steps { checker.old.steps + most ≤ 1000000000 }
    requires reads { IsTable checker.old.reads.items }
    requires writes { IsTable checker.old.writes.items }
    requires atomics { AreTables checker.old.atomics }
    requires opened { IsOpen checker.old.plain lane.old }
    requires own { IsOwn checker.old.rows.items lane.old.thread own }
    ensures reads { IsTable checker.new.reads.items }
    ensures writes { IsTable checker.new.writes.items }
    ensures atomics { AreTables checker.new.atomics }
    ensures opened { OnOk result (IsOpen checker.new.plain lane.new) }
    ensures most { IfOk result (λ taken. taken ≤ most) }
    ensures steps { IfOk result (λ taken. checker.new.steps ≡ checker.old.steps + taken) }
    ensures follows { OnOk result ((program : Program) (threads : List ℕ) → Follows program threads (put_back checker.old lane.old) → StandsAt threads checker.old.steps (replicate most lane.old.thread) → Follows program threads (put_back checker.new lane.new)) }
{
    for taken in 0..most {
        if !check_quickly(alloc, checker, lane, own)? {
            return Ok(taken);
        }
    }
    Ok(most)
}

/// Takes plain steps of a thread in a row, so many at most; tells how many there were.
fn check_row(
    alloc: Global,
    checker: &mut Checker,
    thread: u32,
    most: u64,
) -> Result<u64, AllocError>
    requires steps { checker.old.steps + most ≤ 1000000000 }
    requires reads { IsTable checker.old.reads.items }
    requires writes { IsTable checker.old.writes.items }
    requires atomics { AreTables checker.old.atomics }
    ensures reads { IsTable checker.new.reads.items }
    ensures writes { IsTable checker.new.writes.items }
    ensures atomics { AreTables checker.new.atomics }
    ensures most { IfOk result (λ taken. taken ≤ most) }
    ensures steps { IfOk result (λ taken. checker.new.steps ≡ checker.old.steps + taken) }
    ensures follows { OnOk result ((program : Program) (threads : List ℕ) → Follows program threads checker.old → StandsAt threads checker.old.steps (replicate most thread) → Follows program threads checker.new) }
{
    let Some(mut lane) = checker.plain.open(thread) else {
        return Ok(0);
    };
    let own = own_place(&mut checker.rows, thread)?;
    let taken = check_lane(alloc, checker, &mut lane, own, most)?;
    checker.plain.close(&lane);
    Ok(taken)
}

/// Takes steps of a thread, at least one and at most so many: the plain ones in a row, and the one behind them; tells how many
/// there were.
fn check_part(
    alloc: Global,
    checker: &mut Checker,
    thread: u32,
    most: u64,
) -> Result<u64, RacesError>
    requires some { 0 < most }
    requires steps { checker.old.steps + most ≤ 1000000000 }
    requires reads { IsTable checker.old.reads.items }
    requires writes { IsTable checker.old.writes.items }
    requires atomics { AreTables checker.old.atomics }
    ensures reads { IsTable checker.new.reads.items }
    ensures writes { IsTable checker.new.writes.items }
    ensures atomics { AreTables checker.new.atomics }
    ensures some { IfOk result (λ taken. 0 < taken) }
    ensures most { IfOk result (λ taken. taken ≤ most) }
    ensures steps { IfOk result (λ taken. checker.new.steps ≡ checker.old.steps + taken) }
    ensures follows { OnOk result ((program : Program) (threads : List ℕ) → Follows program threads checker.old → StandsAt threads checker.old.steps (replicate most thread) → Follows program threads checker.new) }
    ensures lacks { IfErr result (λ error. (program : Program) (threads : List ℕ) → Follows program threads checker.old → StandsAt threads checker.old.steps (replicate most thread) → Lacks program threads error) }
{
    let taken = check_row(alloc, checker, thread, most)?;
    if taken == most {
        return Ok(taken);
    }
    check_step(alloc, checker, thread)?;
    Ok(taken + 1)
}

/// Takes so many steps of a thread.
fn check_steps(
    alloc: Global,
    checker: &mut Checker,
    thread: u32,
    count: u64,
) -> Result<(), RacesError>
    requires steps { checker.old.steps + count ≤ 1000000000 }
    requires reads { IsTable checker.old.reads.items }
    requires writes { IsTable checker.old.writes.items }
    requires atomics { AreTables checker.old.atomics }
    ensures reads { IsTable checker.new.reads.items }
    ensures writes { IsTable checker.new.writes.items }
    ensures atomics { AreTables checker.new.atomics }
    ensures steps { OnOk result (checker.new.steps ≡ checker.old.steps + count) }
    ensures follows { OnOk result ((program : Program) (threads : List ℕ) → Follows program threads checker.old → StandsAt threads checker.old.steps (replicate count thread) → Follows program threads checker.new) }
    ensures lacks { IfErr result (λ error. (program : Program) (threads : List ℕ) → Follows program threads checker.old → StandsAt threads checker.old.steps (replicate count thread) → Lacks program threads error) }
{
    let mut done = 0;
    while done < count {
        done += check_part(alloc, checker, thread, count - done)?;
    }
    Ok(())
}

/// Takes the steps of a stretch, if there is one.
fn check_told(alloc: Global, checker: &mut Checker, told: Option<Stretch>) -> Result<(), RacesError>
    requires steps { checker.old.steps + length (stretch_steps told) ≤ 1000000000 }
    requires reads { IsTable checker.old.reads.items }
    requires writes { IsTable checker.old.writes.items }
    requires atomics { AreTables checker.old.atomics }
    ensures reads { IsTable checker.new.reads.items }
    ensures writes { IsTable checker.new.writes.items }
    ensures atomics { AreTables checker.new.atomics }
    ensures steps { OnOk result (checker.new.steps ≡ checker.old.steps + length (stretch_steps told)) }
    ensures follows { OnOk result ((program : Program) (threads : List ℕ) → Follows program threads checker.old → StandsAt threads checker.old.steps (stretch_steps told) → Follows program threads checker.new) }
    ensures lacks { IfErr result (λ error. (program : Program) (threads : List ℕ) → Follows program threads checker.old → StandsAt threads checker.old.steps (stretch_steps told) → Lacks program threads error) }
{
    match told {
        Some(stretch) => check_steps(alloc, checker, stretch.thread, stretch.count),
        None => Ok(()),
    }
}

/// Takes the steps that all entries add to the plan.
fn check_all(
    alloc: Global,
    checker: &mut Checker,
    mode: Mode,
    journal: &[Entry],
) -> Result<(), RacesError>
    requires start { checker.old.steps ≡ 0 }
    requires steps { length (plan_in mode journal.now) ≤ 1000000000 }
    requires reads { IsTable checker.old.reads.items }
    requires writes { IsTable checker.old.writes.items }
    requires atomics { AreTables checker.old.atomics }
    ensures steps { OnOk result (checker.new.steps ≡ length (plan_in mode journal.now)) }
    ensures follows { OnOk result ((program : Program) (threads : List ℕ) → Follows program threads checker.old → StandsAt threads 0 (plan_in mode journal.now) → Follows program threads checker.new) }
    ensures lacks { IfErr result (λ error. (program : Program) (threads : List ℕ) → Follows program threads checker.old → StandsAt threads 0 (plan_in mode journal.now) → Lacks program threads error) }
{
    let mut walk = Walk::new(mode);
    for place in 0..journal.len() {
        let told = walk.steps(journal, place);
        check_told(alloc, checker, told)?;
    }
    Ok(())
}
