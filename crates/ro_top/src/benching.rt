//! The run of a made executable.
ghost use Rattle.std.specs.Prelude.{◌≡◌, ◌≢◌, ℕ, [], Option, IfOk, IfErr, Some};
ghost use Rattle.ro_make.specs.Bench.{bench_file};
ghost use Rattle.ro_legal.specs.Jobs.{CanRun, job_of};
ghost use Rattle.ro_legal.specs.Rules.{IsFit};
ghost use Rattle.ro_report.specs.declared.answers.Answer.TheVariants as a;
ghost use Rattle.ro_words.specs.Commands.{bench_by, to_bench};
ghost use Rattle.ro_files.specs.Causes.{IsRefusal, JobCause};
ghost use Rattle.ro_io.specs.Outside.{Files};
ghost use Rattle.ro_files.specs.Files.{bench_job as bench_job_of};
ghost use Rattle.ro_top.specs.Top.{EndsBench, IsBench, OfItsBench, bench_sink};
ghost use Rattle.ro_files.specs.Refusals.{RefusesExe};

use crate::running::{JobRun, run_job};
use crate::writing::write;
use ro_event::View;
use ro_files::{Job, image};
use ro_io::{Gate, MemSink, Sink};
use ro_journal::Entry;
use ro_make::bench_image;
use ro_report::{Answer, bench_line};
use ro_settings::Settings;
use ro_words::BenchCommand;
use std::alloc::Global;
use std::sync::Wait;
use std::thread::Threads;

// How many bytes the executable may write.
const ROOM: usize = 64;

// What came of it.
pub(crate) struct Benched {
    pub(crate) answer: Answer,
    pub(crate) journal: Vec<Entry>,
    pub(crate) views: Vec<View>,
}

// Runs a made executable in a sink of its own, and writes the line of its run where it exited.
pub(crate) fn bench<R: Threads + Wait + Sync, K: Sink, G: Gate + Sync>(
    rt: &R,
    alloc: Global,
    command: &BenchCommand,
    out: &mut K,
    gate: &G,
) -> Benched
    requires unfailed { K.failures out.old ≡ 0 }
    ensures bench { OfItsBench (bench_by command.now) result.journal.items result.views.items (K.held out.old) (K.held out.new) (K.failures out.old) (K.failures out.new) result.answer }
    ensures no_views { result.answer ≢ a.Differ → result.answer ≢ a.NoMajority → result.views.items ≡ [] }
    ensures refused { IsRefusal result.answer → result.journal.items ≡ [] }
    ensures untouched { IsRefusal result.answer → (K.held out.new ≡ K.held out.old) × (K.failures out.new ≡ K.failures out.old) }
    ensures refusal { (files : Option Files) (before after : ℕ) → IsRefusal result.answer → JobCause files (to_bench (bench_by command.now)) before after result.answer }
{
    match bench_job(alloc, command) {
        Ok((job, sink)) => bench_in(rt, alloc, command, job, sink, out, gate),
        Err(answer) => Benched {
            answer,
            journal: Vec::new(alloc),
            views: Vec::new(alloc),
        },
    }
}

// Runs the job, and writes the line of its run where it exited.
fn bench_in<R: Threads + Wait + Sync, K: Sink, G: Gate + Sync>(
    rt: &R,
    alloc: Global,
    command: &BenchCommand,
    job: Job,
    sink: MemSink,
    out: &mut K,
    gate: &G,
) -> Benched
    requires unfailed { K.failures out.old ≡ 0 }
    requires sink { sink ≡ bench_sink }
    requires job { job_of job.image job.input.items job.faults.items job.settings ≡ bench_job_of (bench_by command.now) }
    requires can_run { CanRun (job_of job.image job.input.items job.faults.items job.settings) }
    requires fit { IsFit (job_of job.image job.input.items job.faults.items job.settings) }
    ensures bench { IsBench (bench_by command.now) result.journal.items result.views.items (K.held out.old) (K.held out.new) (K.failures out.old) (K.failures out.new) result.answer }
    ensures no_views { result.answer ≢ a.Differ → result.answer ≢ a.NoMajority → result.views.items ≡ [] }
    ensures done { IsRefusal result.answer → ⊥ }
{
    let (_job, run) = run_job(rt, alloc, job, sink, gate);
    let JobRun {
        answer,
        journal,
        views,
        bytes: _bytes,
        out: sink,
    } = run;
    Benched {
        answer: written(command, answer, &sink, out),
        journal,
        views,
    }
}

// Writes the line of a run that exited, and answers how that ended; else its own answer.
fn written<K: Sink>(command: &BenchCommand, answer: Answer, sink: &MemSink, out: &mut K) -> Answer
    requires unfailed { K.failures out.old ≡ 0 }
    ensures { EndsBench (bench_by command.now) answer sink.now.bytes (K.held out.old) (K.held out.new) (K.failures out.old) (K.failures out.new) result }
{
    match answer {
        Answer::Exit(status) => {
            let line = bench_line(command.seed, command.size, status, sink.bytes());
            write(out, line.as_bytes())
        }
        other => other,
    }
}

// The job, and an empty sink with room for what it may write.
fn bench_job(alloc: Global, command: &BenchCommand) -> Result<(Job, MemSink), Answer>
    ensures job { IfOk result (λ r. job_of r.0.image r.0.input.items r.0.faults.items r.0.settings ≡ bench_job_of (bench_by command.now)) }
    ensures can_run { IfOk result (λ r. CanRun (job_of r.0.image r.0.input.items r.0.faults.items r.0.settings)) }
    ensures fit { IfOk result (λ r. IsFit (job_of r.0.image r.0.input.items r.0.faults.items r.0.settings)) }
    ensures sink { IfOk result (λ r. r.1 ≡ bench_sink) }
    ensures refused { IfErr result (RefusesExe (bench_file command.now.seed command.now.size)) }
{
    let Ok(file) = bench_image(alloc, command.seed, command.size) else {
        return Err(Answer::NoMemory);
    };
    let image = image(alloc, file.as_slice())?;
    let Ok(sink) = MemSink::new(alloc, ROOM, Vec::new(alloc)) else {
        return Err(Answer::NoMemory);
    };
    let job = Job {
        image,
        input: Vec::new(alloc),
        faults: Vec::new(alloc),
        settings: Settings::DEFAULT,
    };
    Ok((job, sink))
}
