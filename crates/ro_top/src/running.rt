//! The run of a job, without words and without a store.
ghost use Rattle.std.specs.Prelude.{◌≡◌, ◌≢◌, []};
ghost use Rattle.ro_journal.specs.Plan.{outcome_of};
ghost use Rattle.ro_report.specs.declared.answers.Answer.TheVariants as a;
ghost use Rattle.ro_legal.specs.Jobs.{job_of, CanRun};
ghost use Rattle.ro_legal.specs.Rules.{IsFit};
ghost use Rattle.ro_settings.specs.declared.Mode.TheVariants.{Voted, Cooperative};
ghost use Rattle.ro_top.specs.Driven.{AreCounts};
ghost use Rattle.ro_files.specs.Causes.{IsRefusal};
ghost use Rattle.ro_top.specs.Ends.{IsOutcome};
ghost use Rattle.ro_top.specs.Top.{IsRunOf};

use crate::driving::drive;
use ro_cores::RunCore;
use ro_event::View;
use ro_files::Job;
use ro_image::Executable;
use ro_io::{Gate, Sink};
use ro_journal::{Entry, How};
use ro_master::{Finished, Session};
use ro_report::Answer;
use ro_settings::Mode;
use std::alloc::Global;
use std::sync::Wait;
use std::thread::Threads;

/// What a job's run came to.
#[derive(Drop)]
pub struct JobRun<K> {
    /// How it ended.
    pub answer: Answer,
    /// All that happened; nothing, where there was no memory to begin.
    pub journal: Vec<Entry>,
    /// Where it ended by a vote of views that had no majority, those views in the order of the replicas; else none.
    pub views: Vec<View>,
    /// How many bytes were written.
    pub bytes: u64,
    /// The sink of the output.
    pub out: K,
}

// Nothing was run.
pub(crate) fn nothing<K>(alloc: Global, answer: Answer, out: K) -> JobRun<K>
    ensures answer { result.answer ≡ answer }
    ensures journal { result.journal.items ≡ [] }
    ensures views { result.views.items ≡ [] }
    ensures bytes { result.bytes ≡ 0 }
    ensures out { result.out ≡ out }
{
    JobRun {
        answer,
        journal: Vec::new(alloc),
        views: Vec::new(alloc),
        bytes: 0,
        out,
    }
}

/// Runs a program that is at hand as two, three or five replicas. What it writes goes to `out`, which has not failed yet, and
/// each lease passes the gate before it runs. The job comes back as it was.
///
/// Clause `run` speaks of this very job: its fields are those that clause `run` of `romain` has for a job that the store's files spell.
pub fn run_job<R: Threads + Wait + Sync, K: Sink + Send, G: Gate + Sync>(
    rt: &R,
    alloc: Global,
    job: Job,
    out: K,
    gate: &G,
) -> (Job, JobRun<K>)
    requires unfailed { K.failures out ≡ 0 }
    requires can_run { CanRun (job_of job.image job.input.items job.faults.items job.settings) }
    requires fit { IsFit (job_of job.image job.input.items job.faults.items job.settings) }
    ensures run { IsRunOf (record { journal = result.1.journal.items; answer = result.1.answer; views = result.1.views.items; bytes = result.1.bytes; held_before = K.held out; held_after = K.held result.1.out; failures_before = K.failures out; failures_after = K.failures result.1.out; sure = K.sure out }) (job_of job.image job.input.items job.faults.items job.settings) }
    ensures counts { AreCounts job.settings.mode result.1.journal.items }
    ensures answer { IsOutcome result.1.answer (outcome_of result.1.journal.items) }
    ensures program { IsRefusal result.1.answer → ⊥ }
    ensures no_views { result.1.answer ≢ a.Differ → result.1.answer ≢ a.NoMajority → result.1.views.items ≡ [] }
    ensures nothing_run { result.1.journal.items ≡ [] → (K.held result.1.out ≡ K.held out) × (K.failures result.1.out ≡ K.failures out) }
    ensures back { job_of result.0.image result.0.input.items result.0.faults.items result.0.settings ≡ job_of job.image job.input.items job.faults.items job.settings }
{
    match job.settings.mode {
        Mode::Voted => run_voted(rt, alloc, job, out, gate),
        Mode::Cooperative => run_together(rt, alloc, job, out, gate),
    }
}

// Runs a job by votes.
fn run_voted<R: Threads + Wait + Sync, K: Sink + Send, G: Gate + Sync>(
    rt: &R,
    alloc: Global,
    job: Job,
    out: K,
    gate: &G,
) -> (Job, JobRun<K>)
    requires mode { job.settings.mode ≡ Voted }
    requires unfailed { K.failures out ≡ 0 }
    requires can_run { CanRun (job_of job.image job.input.items job.faults.items job.settings) }
    requires fit { IsFit (job_of job.image job.input.items job.faults.items job.settings) }
    ensures run { IsRunOf (record { journal = result.1.journal.items; answer = result.1.answer; views = result.1.views.items; bytes = result.1.bytes; held_before = K.held out; held_after = K.held result.1.out; failures_before = K.failures out; failures_after = K.failures result.1.out; sure = K.sure out }) (job_of job.image job.input.items job.faults.items job.settings) }
    ensures counts { AreCounts job.settings.mode result.1.journal.items }
    ensures answer { IsOutcome result.1.answer (outcome_of result.1.journal.items) }
    ensures program { IsRefusal result.1.answer → ⊥ }
    ensures no_views { result.1.answer ≢ a.Differ → result.1.answer ≢ a.NoMajority → result.1.views.items ≡ [] }
    ensures nothing_run { result.1.journal.items ≡ [] → (K.held result.1.out ≡ K.held out) × (K.failures result.1.out ≡ K.failures out) }
    ensures back { job_of result.0.image result.0.input.items result.0.faults.items result.0.settings ≡ job_of job.image job.input.items job.faults.items job.settings }
{
    let Job {
        image,
        input,
        faults,
        settings,
    } = job;
    let begun = ro_core::Core::begin(alloc, image, input.as_slice(), faults.as_slice(), settings);
    let core = match begun {
        Ok(core) => core,
        Err(image) => {
            let job = Job {
                image,
                input,
                faults,
                settings,
            };
            return (job, nothing(alloc, Answer::NoMemory, out));
        }
    };
    let (image, run) = run_core(rt, alloc, core, out, gate);
    let job = Job {
        image,
        input,
        faults,
        settings,
    };
    (job, run)
}

// Runs a job whose replicas answer calls on cooperative mutexes by themselves. It has no faults.
fn run_together<R: Threads + Wait + Sync, K: Sink + Send, G: Gate + Sync>(
    rt: &R,
    alloc: Global,
    job: Job,
    out: K,
    gate: &G,
) -> (Job, JobRun<K>)
    requires mode { job.settings.mode ≡ Cooperative }
    requires unfailed { K.failures out ≡ 0 }
    requires can_run { CanRun (job_of job.image job.input.items job.faults.items job.settings) }
    requires fit { IsFit (job_of job.image job.input.items job.faults.items job.settings) }
    ensures run { IsRunOf (record { journal = result.1.journal.items; answer = result.1.answer; views = result.1.views.items; bytes = result.1.bytes; held_before = K.held out; held_after = K.held result.1.out; failures_before = K.failures out; failures_after = K.failures result.1.out; sure = K.sure out }) (job_of job.image job.input.items job.faults.items job.settings) }
    ensures counts { AreCounts job.settings.mode result.1.journal.items }
    ensures answer { IsOutcome result.1.answer (outcome_of result.1.journal.items) }
    ensures program { IsRefusal result.1.answer → ⊥ }
    ensures no_views { result.1.answer ≢ a.Differ → result.1.answer ≢ a.NoMajority → result.1.views.items ≡ [] }
    ensures nothing_run { result.1.journal.items ≡ [] → (K.held result.1.out ≡ K.held out) × (K.failures result.1.out ≡ K.failures out) }
    ensures back { job_of result.0.image result.0.input.items result.0.faults.items result.0.settings ≡ job_of job.image job.input.items job.faults.items job.settings }
{
    let Job {
        image,
        input,
        faults,
        settings,
    } = job;
    let begun = ro_coop_core::Core::begin(alloc, image, input.as_slice(), settings);
    let core = match begun {
        Ok(core) => core,
        Err(image) => {
            let job = Job {
                image,
                input,
                faults,
                settings,
            };
            return (job, nothing(alloc, Answer::NoMemory, out));
        }
    };
    let (image, run) = run_core(rt, alloc, core, out, gate);
    let job = Job {
        image,
        input,
        faults,
        settings,
    };
    (job, run)
}

// Runs a core that was just opened. Its image comes back.
fn run_core<
    R: Threads + Wait + Sync,
    C: RunCore<Share: Drop + Send, Shared: Send + Sync> + Send,
    K: Sink + Send,
    G: Gate + Sync,
>(rt: &R, alloc: Global, core: C, out: K, gate: &G) -> (Executable, JobRun<K>)
    requires holds { C.holds core }
    requires fresh { (C.seen core).journal ≡ [] }
    requires unfailed { K.failures out ≡ 0 }
    requires can_run { CanRun (C.seen core).job }
    requires fit { IsFit (C.seen core).job }
    ensures run { IsRunOf (record { journal = result.1.journal.items; answer = result.1.answer; views = result.1.views.items; bytes = result.1.bytes; held_before = K.held out; held_after = K.held result.1.out; failures_before = K.failures out; failures_after = K.failures result.1.out; sure = K.sure out }) (C.seen core).job }
    ensures counts { AreCounts (C.seen core).job.settings.mode result.1.journal.items }
    ensures answer { IsOutcome result.1.answer (outcome_of result.1.journal.items) }
    ensures program { IsRefusal result.1.answer → ⊥ }
    ensures no_views { result.1.answer ≢ a.Differ → result.1.answer ≢ a.NoMajority → result.1.views.items ≡ [] }
    ensures nothing_run { result.1.journal.items ≡ [] → (K.held result.1.out ≡ K.held out) × (K.failures result.1.out ≡ K.failures out) }
    ensures image { result.0 ≡ (C.seen core).job.program.image }
{
    // Where there was no memory the journal has no end, and that is the answer.
    let core = drive(rt, alloc, Session::new(core, out), gate);
    let Finished {
        how,
        image,
        views,
        journal,
        bytes,
        out,
    } = core.finish();
    let run = JobRun {
        answer: answer_of(how),
        journal,
        views,
        bytes,
        out,
    };
    (image, run)
}

// The answer of a run that ended so, or for which there was no memory.
pub(crate) fn answer_of(how: Option<How>) -> Answer
    ensures answer { IsOutcome result how }
    ensures program { IsRefusal result → ⊥ }
{
    match how {
        Some(How::Exit(status)) => Answer::Exit(status),
        Some(How::Deadlock) => Answer::Deadlock,
        Some(How::Trap(cause)) => Answer::Trap(cause),
        Some(How::Limit { steps, next }) => Answer::Limit { steps, next },
        Some(How::Differ) => Answer::Differ,
        Some(How::NoMajority) => Answer::NoMajority,
        Some(How::Sink(taken)) => Answer::SinkFailed { taken },
        None => Answer::NoMemory,
    }
}
