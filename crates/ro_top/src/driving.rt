//! The run by as many drivers as are asked for.
ghost use Rattle.std.specs.Prelude.{◌≡◌, [], None, IsSome};
ghost use Rattle.ro_journal.specs.Plan.{outcome_of};
ghost use Rattle.ro_legal.specs.declared.actions.Action.TheVariants as act;
ghost use Rattle.ro_legal.specs.Action.{next_action};
ghost use Rattle.ro_legal.specs.Jobs.{CanRun};
ghost use Rattle.ro_legal.specs.Rules.{IsFit, output_of};
ghost use Rattle.ro_cores.specs.Cores.{state, sent};
ghost use Rattle.ro_cores.specs.Loans.{IsJoined};
ghost use Rattle.ro_master.specs.Driven.{IsDriven, IsHome, KeepsLast, Goes};

use ro_cores::RunCore;
use ro_drive::drive_all;
use ro_io::{Gate, Sink};
use ro_journal::How;
use ro_legal::Action;
use ro_master::{Master, Naming, Opened, Session, Started};
use std::alloc::Global;
use std::marker::Brand;
use std::sync::Wait;
use std::thread::Threads;

// Has the drivers take turns until all is over.
//
// Where there is no memory the journal stays as far as it has come.
pub(crate) fn drive<
    R: Threads + Wait + Sync,
    C: RunCore<Share: Drop + Send, Shared: Send + Sync> + Send,
    K: Sink + Send,
    G: Gate + Sync,
>(rt: &R, alloc: Global, core: Session<C, K>, gate: &G) -> Session<C, K>
    requires journal { core.journal ≡ [] }
    requires calm { core.failed ≡ None }
    requires can_run { CanRun core.job }
    requires fit { IsFit core.job }
    ensures goes { Goes core result }
    ensures driven { IsDriven result }
    ensures last { KeepsLast result.job result.journal result.views }
    ensures home { IsHome result }
    ensures all_sent { sent result ≡ output_of result.job result.journal }
    ensures ended { IsSome result.failed → IsSome (outcome_of result.journal) }
    ensures joined { IsJoined result.job result.journal }
{
    match Opened::new(alloc) {
        Ok(opened) => drive_named::<R, C, K, G, Brand>(rt, alloc, core, opened, gate),
        Err(_) => core,
    }
}

// The same with a table that `N` names.
fn drive_named<
    R: Threads + Wait + Sync,
    C: RunCore<Share: Drop + Send, Shared: Send + Sync> + Send,
    K: Sink + Send,
    G: Gate + Sync,
    N: Naming + Send + Sync,
>(rt: &R, alloc: Global, core: Session<C, K>, opened: Opened, gate: &G) -> Session<C, K>
    requires name { opened ≡ N.table }
    requires start { core ≡ N.start }
    requires journal { core.journal ≡ [] }
    requires calm { core.failed ≡ None }
    requires can_run { CanRun core.job }
    requires fit { IsFit core.job }
    ensures goes { Goes core result }
    ensures driven { IsDriven result }
    ensures last { KeepsLast result.job result.journal result.views }
    ensures home { IsHome result }
    ensures all_sent { sent result ≡ output_of result.job result.journal }
    ensures ended { IsSome result.failed → IsSome (outcome_of result.journal) }
    ensures joined { IsJoined result.job result.journal }
{
    let Started {
        master,
        mut drivers,
        aside,
    } = match Master::<C, K, N>::start(alloc, core, opened) {
        Ok(started) => started,
        Err(back) => {
            let (core, opened) = back.into_parts();
            opened.discard();
            return core;
        }
    };
    drive_all(rt, &master, drivers.as_mut_slice(), gate);
    settled(master.close(drivers, aside))
}

// Appends an end that is due, if one is.
fn settled<C: RunCore, K: Sink>(mut core: Session<C, K>) -> Session<C, K>
    requires driven { IsDriven core }
    requires last { KeepsLast core.job core.journal core.views }
    requires home { IsHome core }
    requires joined { IsJoined core.job core.journal }
    ensures goes { Goes core result }
    ensures driven { IsDriven result }
    ensures last { KeepsLast result.job result.journal result.views }
    ensures home { IsHome result }
    ensures all_sent { sent result ≡ output_of result.job result.journal }
    ensures ended { IsSome result.failed → IsSome (outcome_of result.journal) }
    ensures joined { IsJoined result.job result.journal }
{
    match core.next_action() {
        Action::End(how) => {
            end(&mut core, how);
            core
        }
        _ => core,
    }
}

// Ends the run so.
fn end<C: RunCore, K: Sink>(core: &mut Session<C, K>, how: How)
    requires driven { IsDriven core.old }
    requires home { IsHome core.old }
    requires joined { IsJoined core.old.job core.old.journal }
    requires next { next_action core.old.job (state core.old) ≡ act.End how }
    ensures goes { Goes core.old core.new }
    ensures driven { IsDriven core.new }
    ensures last { KeepsLast core.new.job core.new.journal core.new.views }
    ensures home { IsHome core.new }
    ensures all_sent { sent core.new ≡ output_of core.new.job core.new.journal }
    ensures calm { core.new.failed ≡ None }
    ensures joined { IsJoined core.new.job core.new.journal }
{
    core.end(how);
}
