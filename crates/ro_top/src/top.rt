//! The call that does it all.
ghost use Rattle.std.specs.Prelude.{◌≡◌, ◌≢◌, ◌⊎◌, ℕ, [], IfOk, None, Option, Some, option_map};
ghost use Rattle.ro_io.specs.Outside.{Files, Rose};
ghost use Rattle.ro_journal.specs.Plan.{outcome_of};
ghost use Rattle.ro_journal_text.specs.declared.records.Recorded.{Recorded};
ghost use Rattle.ro_legal.specs.Jobs.{CanRun, job_of};
ghost use Rattle.ro_legal.specs.Rules.{IsFit};
ghost use Rattle.ro_report.specs.Report.{answer_text, journal_part, report_of};
ghost use Rattle.ro_report.specs.declared.answers.Answer.TheVariants as a;
ghost use Rattle.ro_words.specs.Commands.{Asked, AskedBench, AskedInject, AskedPlan, AskedRun, Fits, bench_by, command_of, inject_by, plan_by, run_by, to_bench, to_inject, to_plain, to_races, to_run};
ghost use Rattle.ro_words.specs.Uses.{texts_of};
ghost use Rattle.ro_words.specs.declared.commands.WordsError.TheVariants as w;
ghost use Rattle.ro_top.specs.Driven.{AreCounts};
ghost use Rattle.ro_files.specs.Agreeing.{recorded_of};
ghost use Rattle.ro_files.specs.Causes.{AsksFor, IsRefusal, RefusalCause, JobCause};
ghost use Rattle.ro_top.specs.Ends.{IsOutcome};
ghost use Rattle.ro_top.specs.Top.{OfItsBench, OfItsDraw, OfItsJob, OfItsPlan, OfItsRaces, IsRunOf, IsTold, head_in, plain_report, text_in};
ghost use Rattle.ro_top.specs.declared.done.Told.TheVariants as t;

use crate::benching::{Benched, bench};
use crate::done::Done;
use crate::injecting::inject;
use crate::playing::{Played, play, unplayed};
use crate::racing::race;
use crate::reports::{tell, tell_answer, tell_plan};
use crate::running::{JobRun, nothing, run_job};
use ro_event::View;
use ro_files::{FetchedJob, fetch_job, image_from, replay_from};
use ro_io::{Gate, Sink, Store};
use ro_journal::Entry;
use ro_journal_text::head_text;
use ro_report::{Answer, header};
use ro_words::{
    BenchCommand, Command, InjectCommand, Kept, PlanCommand, RunCommand, WordsError, parse_words,
};
use std::alloc::{AllocError, Global};
use std::sync::Wait;
use std::thread::Threads;

/// Does what a command asks for, with sinks that have not failed: its words begin with the program's name, and then stand the command's name, its arguments and
/// its options.
///
/// The files that it names are fetched from `store`, the executable first, then the input, then the faults or the plan: each once, no
/// other, and none after one that is refused.
///
/// - `run`: the program runs as two, three or five replicas, and what it writes goes to `out`. The report goes to `report`: the
///   journal or its record, where that is asked for, a line that sums it up, where anything ran, and the answer's line. Each lease
///   passes the gate before it runs.
/// - `plain`: the plan of a journal runs on the unreplicated machine, where that is no record of another executable or input, and what it writes goes to `out`. The report has a line of
///   its steps and bytes, where it was run to its end, and the answer's line.
/// - `races`: the plan of a journal is checked on the unreplicated machine: whether all its steps exist, and which is its first
///   race. Nothing goes to `out`. The report has the answer's line alone.
/// - `inject`: faults are drawn for an executable, and their list goes to `out`. The report has the answer's line alone.
/// - `bench`: a made executable runs as three replicas, with the usual settings, in a sink of its own of 64 bytes. Where it
///   exits, a line of its status and output goes to `out`. The report has the answer's line alone.
pub fn romain<'a, R: Threads + Wait + Sync, S: Store, K: Sink + Send, E: Sink, G: Gate + Sync>(
    rt: &R,
    alloc: Global,
    words: &'a [&'a str],
    store: &mut S,
    out: K,
    report: &mut E,
    gate: &G,
) -> Done<K>
    requires unfailed { (K.failures out ≡ 0) × (E.failures report.old ≡ 0) }
    ensures run { (asked : AskedRun) → command_of (texts_of words.now) ≡ Some (to_run asked) → (bytes : ℕ) × (recorded : Recorded) × OfItsJob (S.told store.old) asked recorded result.journal.items result.answer (IsRunOf (record { journal = result.journal.items; answer = result.answer; views = result.views.items; bytes = bytes; held_before = K.held out; held_after = K.held result.out; failures_before = K.failures out; failures_after = K.failures result.out; sure = K.sure out })) × IsTold result.told (E.held report.old) (E.held report.new) (report_of asked.settings.mode (head_in asked.kept recorded) result.journal.items bytes result.answer) }
    ensures answer { (asked : AskedRun) → command_of (texts_of words.now) ≡ Some (to_run asked) → IsOutcome result.answer (outcome_of result.journal.items) }
    ensures nothing_run { (asked : AskedRun) → command_of (texts_of words.now) ≡ Some (to_run asked) → result.journal.items ≡ [] → (K.held result.out ≡ K.held out) × (K.failures result.out ≡ K.failures out) }
    ensures plain { (asked : AskedPlan) → command_of (texts_of words.now) ≡ Some (to_plain asked) → (steps : ℕ) × (bytes : ℕ) × OfItsPlan (S.told store.old) asked (record { answer = result.answer; steps = steps; bytes = bytes; held_before = K.held out; held_after = K.held result.out; failures_before = K.failures out; failures_after = K.failures result.out }) × IsTold result.told (E.held report.old) (E.held report.new) (plain_report steps bytes result.answer) }
    ensures plain_journal { (asked : AskedPlan) → command_of (texts_of words.now) ≡ Some (to_plain asked) → result.journal.items ≡ [] }
    ensures races { (asked : AskedPlan) → command_of (texts_of words.now) ≡ Some (to_races asked) → OfItsRaces (S.told store.old) asked result.answer }
    ensures races_told { (asked : AskedPlan) → command_of (texts_of words.now) ≡ Some (to_races asked) → (result.journal.items ≡ []) × IsTold result.told (E.held report.old) (E.held report.new) (answer_text result.answer) }
    ensures races_out { (asked : AskedPlan) → command_of (texts_of words.now) ≡ Some (to_races asked) → (K.held result.out ≡ K.held out) × (K.failures result.out ≡ K.failures out) }
    ensures inject { (asked : AskedInject) → command_of (texts_of words.now) ≡ Some (to_inject asked) → OfItsDraw (S.told store.old) asked (K.held out) (K.held result.out) (K.failures out) (K.failures result.out) result.answer }
    ensures inject_told { (asked : AskedInject) → command_of (texts_of words.now) ≡ Some (to_inject asked) → (result.journal.items ≡ []) × IsTold result.told (E.held report.old) (E.held report.new) (answer_text result.answer) }
    ensures bench { (asked : AskedBench) → command_of (texts_of words.now) ≡ Some (to_bench asked) → OfItsBench asked result.journal.items result.views.items (K.held out) (K.held result.out) (K.failures out) (K.failures result.out) result.answer }
    ensures bench_told { (asked : AskedBench) → command_of (texts_of words.now) ≡ Some (to_bench asked) → IsTold result.told (E.held report.old) (E.held report.new) (answer_text result.answer) }
    ensures words { command_of (texts_of words.now) ≡ None → (result.answer ≡ a.BadWords) ⊎ (result.answer ≡ a.NoMemory) }
    ensures words_told { command_of (texts_of words.now) ≡ None → (result.journal.items ≡ []) × IsTold result.told (E.held report.old) (E.held report.new) (answer_text result.answer) }
    ensures words_out { command_of (texts_of words.now) ≡ None → (K.held result.out ≡ K.held out) × (K.failures result.out ≡ K.failures out) }
    ensures no_views { result.answer ≢ a.Differ → result.answer ≢ a.NoMajority → result.views.items ≡ [] }
    ensures told { result.told ≡ t.Failed → Rose (E.failures report.old) (E.failures report.new) }
    ensures told_calm { result.told ≡ t.Whole → E.failures report.new ≡ E.failures report.old }
    ensures refused { IsRefusal result.answer → result.journal.items ≡ [] }
    ensures untouched { IsRefusal result.answer → (K.held result.out ≡ K.held out) × (K.failures result.out ≡ K.failures out) }
    ensures refusal { IsRefusal result.answer → RefusalCause (S.told store.old) (texts_of words.now) (S.failures store.old) (S.failures store.new) result.answer }
    ensures files { S.told store.new ≡ S.told store.old }
    ensures store_calm { result.answer ≢ a.StoreFailed → S.failures store.new ≡ S.failures store.old }
    ensures asks { (asked : Asked) → command_of (texts_of words.now) ≡ Some asked → AsksFor (S.told store.old) asked (S.calls store.old) (S.calls store.new) result.answer }
    ensures unasked { command_of (texts_of words.now) ≡ None → S.calls store.new ≡ S.calls store.old }
{
    match parse_words(alloc, words) {
        Ok(Command::Run(command)) => run_command(rt, alloc, &command, store, out, report, gate),
        Ok(Command::Plain(command)) => plain_command(alloc, &command, store, out, report),
        Ok(Command::Races(command)) => races_command(alloc, &command, store, out, report),
        Ok(Command::Inject(command)) => inject_command(alloc, &command, store, out, report),
        Ok(Command::Bench(command)) => bench_command(rt, alloc, &command, out, report, gate),
        Err(error) => refuse(alloc, error, out, report),
    }
}

// The words spell no command, or there was no memory to read them.
fn refuse<K, E: Sink>(alloc: Global, error: WordsError, out: K, report: &mut E) -> Done<K>
    requires unfailed { E.failures report.old ≡ 0 }
    ensures bad { error ≡ w.Bad → result.answer ≡ a.BadWords }
    ensures memory { error ≡ w.NoMemory → result.answer ≡ a.NoMemory }
    ensures journal { result.journal.items ≡ [] }
    ensures views { result.views.items ≡ [] }
    ensures text { IsTold result.told (E.held report.old) (E.held report.new) (answer_text result.answer) }
    ensures told { result.told ≡ t.Failed → Rose (E.failures report.old) (E.failures report.new) }
    ensures told_calm { result.told ≡ t.Whole → E.failures report.new ≡ E.failures report.old }
    ensures out { result.out ≡ out }
{
    let answer = match error {
        WordsError::Bad => Answer::BadWords,
        WordsError::NoMemory => Answer::NoMemory,
    };
    let told = tell_answer(report, &answer);
    Done {
        answer,
        told,
        journal: Vec::new(alloc),
        views: Vec::new(alloc),
        out,
    }
}

// Runs an executable as replicas, and tells what came of it.
fn run_command<R: Threads + Wait + Sync, S: Store, K: Sink + Send, E: Sink, G: Gate + Sync>(
    rt: &R,
    alloc: Global,
    command: &RunCommand<'_>,
    store: &mut S,
    out: K,
    report: &mut E,
    gate: &G,
) -> Done<K>
    requires unfailed { (K.failures out ≡ 0) × (E.failures report.old ≡ 0) }
    requires fits { Fits (to_run (run_by command.now)) }
    ensures run { (bytes : ℕ) × (recorded : Recorded) × OfItsJob (S.told store.old) (run_by command.now) recorded result.journal.items result.answer (IsRunOf (record { journal = result.journal.items; answer = result.answer; views = result.views.items; bytes = bytes; held_before = K.held out; held_after = K.held result.out; failures_before = K.failures out; failures_after = K.failures result.out; sure = K.sure out })) × IsTold result.told (E.held report.old) (E.held report.new) (report_of command.now.settings.mode (head_in command.now.kept recorded) result.journal.items bytes result.answer) }
    ensures answer { IsOutcome result.answer (outcome_of result.journal.items) }
    ensures nothing_run { result.journal.items ≡ [] → (K.held result.out ≡ K.held out) × (K.failures result.out ≡ K.failures out) }
    ensures no_views { result.answer ≢ a.Differ → result.answer ≢ a.NoMajority → result.views.items ≡ [] }
    ensures told { result.told ≡ t.Failed → Rose (E.failures report.old) (E.failures report.new) }
    ensures told_calm { result.told ≡ t.Whole → E.failures report.new ≡ E.failures report.old }
    ensures refused { IsRefusal result.answer → result.journal.items ≡ [] }
    ensures refusal { IsRefusal result.answer → JobCause (S.told store.old) (to_run (run_by command.now)) (S.failures store.old) (S.failures store.new) result.answer }
    ensures files { S.told store.new ≡ S.told store.old }
    ensures store_calm { result.answer ≢ a.StoreFailed → S.failures store.new ≡ S.failures store.old }
    ensures asks { AsksFor (S.told store.old) (to_run (run_by command.now)) (S.calls store.old) (S.calls store.new) result.answer }
{
    let CommandRun {
        head,
        answer,
        journal,
        views,
        bytes,
        out,
    } = ran(rt, alloc, command, store, out, gate);
    let told = tell(
        report,
        command.settings.mode,
        as_bytes(&head),
        journal.as_slice(),
        bytes,
        &answer,
    );
    Done {
        answer,
        told,
        journal,
        views,
        out,
    }
}

// What a command's run came to.
struct CommandRun<K> {
    // What stands before the entries of its journal in its report, where that is reported.
    head: Option<Vec<u8>>,
    answer: Answer,
    journal: Vec<Entry>,
    views: Vec<View>,
    bytes: u64,
    out: K,
}

// A head's bytes.
fn as_bytes(head: &Option<Vec<u8>>) -> Option<&[u8]>
    ensures { text_in result ≡ option_map (λ bytes. bytes.items) head.now }
{
    match head {
        Some(bytes) => Some(bytes.as_slice()),
        None => None,
    }
}

// Runs the job of a command.
fn ran<R: Threads + Wait + Sync, S: Store, K: Sink + Send, G: Gate + Sync>(
    rt: &R,
    alloc: Global,
    command: &RunCommand<'_>,
    store: &mut S,
    out: K,
    gate: &G,
) -> CommandRun<K>
    requires unfailed { K.failures out ≡ 0 }
    requires fits { Fits (to_run (run_by command.now)) }
    ensures run { (recorded : Recorded) × OfItsJob (S.told store.old) (run_by command.now) recorded result.journal.items result.answer (IsRunOf (record { journal = result.journal.items; answer = result.answer; views = result.views.items; bytes = result.bytes; held_before = K.held out; held_after = K.held result.out; failures_before = K.failures out; failures_after = K.failures result.out; sure = K.sure out })) × (journal_part result.journal.items (option_map (λ bytes. bytes.items) result.head) ≡ journal_part result.journal.items (head_in command.now.kept recorded)) }
    ensures counts { AreCounts command.now.settings.mode result.journal.items }
    ensures answer { IsOutcome result.answer (outcome_of result.journal.items) }
    ensures nothing_run { result.journal.items ≡ [] → (K.held result.out ≡ K.held out) × (K.failures result.out ≡ K.failures out) }
    ensures no_views { result.answer ≢ a.Differ → result.answer ≢ a.NoMajority → result.views.items ≡ [] }
    ensures refused { IsRefusal result.answer → result.journal.items ≡ [] }
    ensures refusal { IsRefusal result.answer → JobCause (S.told store.old) (to_run (run_by command.now)) (S.failures store.old) (S.failures store.new) result.answer }
    ensures files { S.told store.new ≡ S.told store.old }
    ensures store_calm { result.answer ≢ a.StoreFailed → S.failures store.new ≡ S.failures store.old }
    ensures asks { AsksFor (S.told store.old) (to_run (run_by command.now)) (S.calls store.old) (S.calls store.new) result.answer }
{
    match fetch_job(alloc, command, store) {
        Ok(fetched) => run_fetched(rt, alloc, command.kept, fetched, out, gate),
        Err(answer) => with_head(None, nothing(alloc, answer, out)),
    }
}

// The run of a job whose journal stands behind this head, where it is reported.
fn with_head<K>(head: Option<Vec<u8>>, run: JobRun<K>) -> CommandRun<K>
    ensures { result ≡ record { head = head; answer = run.answer; journal = run.journal; views = run.views; bytes = run.bytes; out = run.out } }
{
    let JobRun {
        answer,
        journal,
        views,
        bytes,
        out,
    } = run;
    CommandRun {
        head,
        answer,
        journal,
        views,
        bytes,
        out,
    }
}

// Runs a job that was fetched, where there is memory for what stands before its journal.
fn run_fetched<R: Threads + Wait + Sync, K: Sink + Send, G: Gate + Sync>(
    rt: &R,
    alloc: Global,
    kept: Kept,
    fetched: FetchedJob,
    out: K,
    gate: &G,
) -> CommandRun<K>
    requires unfailed { K.failures out ≡ 0 }
    requires can_run { CanRun (job_of fetched.job.image fetched.job.input.items fetched.job.faults.items fetched.job.settings) }
    requires fit { IsFit (job_of fetched.job.image fetched.job.input.items fetched.job.faults.items fetched.job.settings) }
    ensures run { ((result.answer ≡ a.NoMemory) × (result.journal.items ≡ [])) ⊎ (IsRunOf (record { journal = result.journal.items; answer = result.answer; views = result.views.items; bytes = result.bytes; held_before = K.held out; held_after = K.held result.out; failures_before = K.failures out; failures_after = K.failures result.out; sure = K.sure out }) (job_of fetched.job.image fetched.job.input.items fetched.job.faults.items fetched.job.settings) × (option_map (λ bytes. bytes.items) result.head ≡ head_in kept (recorded_of fetched.job.settings fetched.executable.items fetched.job.input.items fetched.list.items))) }
    ensures counts { AreCounts fetched.job.settings.mode result.journal.items }
    ensures answer { IsOutcome result.answer (outcome_of result.journal.items) }
    ensures program { IsRefusal result.answer → ⊥ }
    ensures nothing_run { result.journal.items ≡ [] → (K.held result.out ≡ K.held out) × (K.failures result.out ≡ K.failures out) }
    ensures no_views { result.answer ≢ a.Differ → result.answer ≢ a.NoMajority → result.views.items ≡ [] }
{
    let Ok(head) = head_of(alloc, kept, &fetched) else {
        return with_head(None, nothing(alloc, Answer::NoMemory, out));
    };
    let (_job, run) = run_job(rt, alloc, fetched.job, out, gate);
    with_head(head, run)
}

// What stands before the entries of the journal of such a job in its report.
fn head_of(alloc: Global, kept: Kept, fetched: &FetchedJob) -> Result<Option<Vec<u8>>, AllocError>
    ensures { IfOk result (λ head. option_map (λ bytes. bytes.items) head ≡ head_in kept (recorded_of fetched.now.job.settings fetched.now.executable.items fetched.now.job.input.items fetched.now.list.items)) }
{
    match kept {
        Kept::Nothing => Ok(None),
        Kept::Journal => Ok(Some(Vec::from_slice(alloc, header(fetched.job.settings.mode))?)),
        Kept::Record => Ok(Some(head_text(alloc, &fetched.recorded())?)),
    }
}

// Runs the plan of a journal, and tells what came of it.
fn plain_command<S: Store, K: Sink, E: Sink>(
    alloc: Global,
    command: &PlanCommand<'_>,
    store: &mut S,
    out: K,
    report: &mut E,
) -> Done<K>
    requires unfailed { (K.failures out ≡ 0) × (E.failures report.old ≡ 0) }
    ensures plain { (steps : ℕ) × (bytes : ℕ) × OfItsPlan (S.told store.old) (plan_by command.now) (record { answer = result.answer; steps = steps; bytes = bytes; held_before = K.held out; held_after = K.held result.out; failures_before = K.failures out; failures_after = K.failures result.out }) × IsTold result.told (E.held report.old) (E.held report.new) (plain_report steps bytes result.answer) }
    ensures journal { result.journal.items ≡ [] }
    ensures views { result.views.items ≡ [] }
    ensures told { result.told ≡ t.Failed → Rose (E.failures report.old) (E.failures report.new) }
    ensures told_calm { result.told ≡ t.Whole → E.failures report.new ≡ E.failures report.old }
    ensures untouched { IsRefusal result.answer → (K.held result.out ≡ K.held out) × (K.failures result.out ≡ K.failures out) }
    ensures refusal { IsRefusal result.answer → JobCause (S.told store.old) (to_plain (plan_by command.now)) (S.failures store.old) (S.failures store.new) result.answer }
    ensures files { S.told store.new ≡ S.told store.old }
    ensures store_calm { result.answer ≢ a.StoreFailed → S.failures store.new ≡ S.failures store.old }
    ensures asks { AsksFor (S.told store.old) (to_plain (plan_by command.now)) (S.calls store.old) (S.calls store.new) result.answer }
{
    let mut out = out;
    let Played {
        answer,
        steps,
        bytes,
    } = played(alloc, command, store, &mut out);
    let told = tell_plan(report, steps, bytes, &answer);
    Done {
        answer,
        told,
        journal: Vec::new(alloc),
        views: Vec::new(alloc),
        out,
    }
}

// Runs the plan of a command.
fn played<S: Store, K: Sink>(
    alloc: Global,
    command: &PlanCommand<'_>,
    store: &mut S,
    out: &mut K,
) -> Played
    requires unfailed { K.failures out.old ≡ 0 }
    ensures plain { OfItsPlan (S.told store.old) (plan_by command.now) (record { answer = result.answer; steps = result.steps; bytes = result.bytes; held_before = K.held out.old; held_after = K.held out.new; failures_before = K.failures out.old; failures_after = K.failures out.new }) }
    ensures untouched { IsRefusal result.answer → (K.held out.new ≡ K.held out.old) × (K.failures out.new ≡ K.failures out.old) }
    ensures refusal { IsRefusal result.answer → JobCause (S.told store.old) (to_plain (plan_by command.now)) (S.failures store.old) (S.failures store.new) result.answer }
    ensures files { S.told store.new ≡ S.told store.old }
    ensures store_calm { result.answer ≢ a.StoreFailed → S.failures store.new ≡ S.failures store.old }
    ensures asks { AsksFor (S.told store.old) (to_plain (plan_by command.now)) (S.calls store.old) (S.calls store.new) result.answer }
{
    match replay_from(alloc, command, store) {
        Ok(replay) => play(alloc, replay, out),
        Err(answer) => unplayed(answer),
    }
}

// Checks the plan of a journal, and tells what came of it.
fn races_command<S: Store, K, E: Sink>(
    alloc: Global,
    command: &PlanCommand<'_>,
    store: &mut S,
    out: K,
    report: &mut E,
) -> Done<K>
    requires unfailed { E.failures report.old ≡ 0 }
    ensures races { OfItsRaces (S.told store.old) (plan_by command.now) result.answer }
    ensures text { IsTold result.told (E.held report.old) (E.held report.new) (answer_text result.answer) }
    ensures journal { result.journal.items ≡ [] }
    ensures views { result.views.items ≡ [] }
    ensures told { result.told ≡ t.Failed → Rose (E.failures report.old) (E.failures report.new) }
    ensures told_calm { result.told ≡ t.Whole → E.failures report.new ≡ E.failures report.old }
    ensures out { result.out ≡ out }
    ensures refusal { IsRefusal result.answer → JobCause (S.told store.old) (to_races (plan_by command.now)) (S.failures store.old) (S.failures store.new) result.answer }
    ensures files { S.told store.new ≡ S.told store.old }
    ensures store_calm { result.answer ≢ a.StoreFailed → S.failures store.new ≡ S.failures store.old }
    ensures asks { AsksFor (S.told store.old) (to_races (plan_by command.now)) (S.calls store.old) (S.calls store.new) result.answer }
{
    let answer = raced(alloc, command, store);
    let told = tell_answer(report, &answer);
    Done {
        answer,
        told,
        journal: Vec::new(alloc),
        views: Vec::new(alloc),
        out,
    }
}

// Checks the plan of a command.
fn raced<S: Store>(alloc: Global, command: &PlanCommand<'_>, store: &mut S) -> Answer
    ensures races { OfItsRaces (S.told store.old) (plan_by command.now) result }
    ensures refusal { IsRefusal result → JobCause (S.told store.old) (to_races (plan_by command.now)) (S.failures store.old) (S.failures store.new) result }
    ensures files { S.told store.new ≡ S.told store.old }
    ensures store_calm { result ≢ a.StoreFailed → S.failures store.new ≡ S.failures store.old }
    ensures asks { AsksFor (S.told store.old) (to_races (plan_by command.now)) (S.calls store.old) (S.calls store.new) result }
{
    match replay_from(alloc, command, store) {
        Ok(replay) => race(alloc, replay),
        Err(answer) => answer,
    }
}

// Draws faults, writes their list, and tells what came of it.
fn inject_command<S: Store, K: Sink, E: Sink>(
    alloc: Global,
    command: &InjectCommand<'_>,
    store: &mut S,
    out: K,
    report: &mut E,
) -> Done<K>
    requires unfailed { (K.failures out ≡ 0) × (E.failures report.old ≡ 0) }
    ensures draw { OfItsDraw (S.told store.old) (inject_by command.now) (K.held out) (K.held result.out) (K.failures out) (K.failures result.out) result.answer }
    ensures text { IsTold result.told (E.held report.old) (E.held report.new) (answer_text result.answer) }
    ensures journal { result.journal.items ≡ [] }
    ensures views { result.views.items ≡ [] }
    ensures told { result.told ≡ t.Failed → Rose (E.failures report.old) (E.failures report.new) }
    ensures told_calm { result.told ≡ t.Whole → E.failures report.new ≡ E.failures report.old }
    ensures untouched { IsRefusal result.answer → (K.held result.out ≡ K.held out) × (K.failures result.out ≡ K.failures out) }
    ensures refusal { IsRefusal result.answer → JobCause (S.told store.old) (to_inject (inject_by command.now)) (S.failures store.old) (S.failures store.new) result.answer }
    ensures files { S.told store.new ≡ S.told store.old }
    ensures store_calm { result.answer ≢ a.StoreFailed → S.failures store.new ≡ S.failures store.old }
    ensures asks { AsksFor (S.told store.old) (to_inject (inject_by command.now)) (S.calls store.old) (S.calls store.new) result.answer }
{
    let mut out = out;
    let answer = injected(alloc, command, store, &mut out);
    let told = tell_answer(report, &answer);
    Done {
        answer,
        told,
        journal: Vec::new(alloc),
        views: Vec::new(alloc),
        out,
    }
}

// Draws the faults of a command, and writes their list.
fn injected<S: Store, K: Sink>(
    alloc: Global,
    command: &InjectCommand<'_>,
    store: &mut S,
    out: &mut K,
) -> Answer
    requires unfailed { K.failures out.old ≡ 0 }
    ensures draw { OfItsDraw (S.told store.old) (inject_by command.now) (K.held out.old) (K.held out.new) (K.failures out.old) (K.failures out.new) result }
    ensures untouched { IsRefusal result → (K.held out.new ≡ K.held out.old) × (K.failures out.new ≡ K.failures out.old) }
    ensures refusal { IsRefusal result → JobCause (S.told store.old) (to_inject (inject_by command.now)) (S.failures store.old) (S.failures store.new) result }
    ensures files { S.told store.new ≡ S.told store.old }
    ensures store_calm { result ≢ a.StoreFailed → S.failures store.new ≡ S.failures store.old }
    ensures asks { AsksFor (S.told store.old) (to_inject (inject_by command.now)) (S.calls store.old) (S.calls store.new) result }
{
    match image_from(alloc, command, store) {
        Ok(image) => inject(alloc, &image, command, out),
        Err(answer) => answer,
    }
}

// Runs a made executable, writes the line of its run, and tells what came of it.
fn bench_command<R: Threads + Wait + Sync, K: Sink, E: Sink, G: Gate + Sync>(
    rt: &R,
    alloc: Global,
    command: &BenchCommand,
    out: K,
    report: &mut E,
    gate: &G,
) -> Done<K>
    requires unfailed { (K.failures out ≡ 0) × (E.failures report.old ≡ 0) }
    ensures bench { OfItsBench (bench_by command.now) result.journal.items result.views.items (K.held out) (K.held result.out) (K.failures out) (K.failures result.out) result.answer }
    ensures text { IsTold result.told (E.held report.old) (E.held report.new) (answer_text result.answer) }
    ensures no_views { result.answer ≢ a.Differ → result.answer ≢ a.NoMajority → result.views.items ≡ [] }
    ensures told { result.told ≡ t.Failed → Rose (E.failures report.old) (E.failures report.new) }
    ensures told_calm { result.told ≡ t.Whole → E.failures report.new ≡ E.failures report.old }
    ensures refused { IsRefusal result.answer → result.journal.items ≡ [] }
    ensures untouched { IsRefusal result.answer → (K.held result.out ≡ K.held out) × (K.failures result.out ≡ K.failures out) }
    ensures refusal { (files : Option Files) (before after : ℕ) → IsRefusal result.answer → JobCause files (to_bench (bench_by command.now)) before after result.answer }
{
    let mut out = out;
    let Benched {
        answer,
        journal,
        views,
    } = bench(rt, alloc, command, &mut out, gate);
    let told = tell_answer(report, &answer);
    Done {
        answer,
        told,
        journal,
        views,
        out,
    }
}
