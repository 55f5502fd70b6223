//! The command, from its words to its answer.
ghost use Rattle.std.specs.Prelude.{◌≡◌, ◌<◌, ◌↔◌, ◌∷◌, [], Err, Ok, IfErr, IfOk, IfSome, IsTrue, None, Option, Some, option_map, length, false, true};
ghost use Rattle.std.specs.String.{string_bytes};
ghost use Rattle.ro_io.specs.Outside.{Asks, unfailed};
ghost use Rattle.ro_journal.specs.declared.How.{How as HowSeen};
ghost use Rattle.ro_settings.specs.Ranges.{InRange};
ghost use Rattle.ro_settings.specs.declared.Mode.TheVariants.{Voted, Cooperative};
ghost use Rattle.ro_legal.specs.Core.{Job as JobSeen};
ghost use Rattle.ro_legal.specs.Modes.{Suits};
ghost use Rattle.ro_legal.specs.Rules.{IsFit};
ghost use Rattle.ro_report.specs.declared.answers.Answer.TheVariants as a;
ghost use Rattle.ro_words.specs.Commands.{AskedAudit, AuditFits, audit_by, audit_of};
ghost use Rattle.ro_words.specs.Uses.{texts_of};
ghost use Rattle.ro_words.specs.declared.commands.WordsError.TheVariants as w;
ghost use Rattle.ro_legal.specs.Jobs.{job_of, CanRun};
ghost use Rattle.ro_audit.specs.Audits.{FirstIllegal, NextUpTo, Tells};
ghost use Rattle.ro_audit.specs.Following.{IsTrail};
ghost use Rattle.ro_findings.specs.Sentences.{TellsVerdict};
ghost use Rattle.ro_tell.specs.declared.commands.Form.TheVariants as f;
ghost use Rattle.ro_tell.specs.Causes.{AuditCause, WordsCause, audit_names};
ghost use Rattle.ro_tell.specs.Judging.{Finds, IsAuditOf, TellsNext, TellsSplit, how_of, job_in};

use crate::asking::{FetchedAudit, fetch_audit};
use crate::copies::{copies_made, differences};
use crate::fields::{Unlike, ends_split, split_of};
use crate::standing::Stood;
use ro_audit::{AuditCore, AuditError, Audited, Difference, Trail, Why, trace};
use ro_faults::Fault;
use ro_files::{FetchedJob, Job};
use ro_findings::{Ended, Findings, Odd, Split, Verdict};
use ro_io::Store;
use ro_journal::{Entry, How};
use ro_journal_text::AnyJournal;
use ro_report::Answer;
use ro_settings::{Mode, Settings};
use ro_words::{AuditCommand, WordsError, parse_audit};
use std::alloc::{AllocError, Global};

/// In which form an audit is told.
#[derive(Clone, Copy, Debug, PartialEq, Eq)]
pub enum Form {
    Sentences,
    Json,
}

/// What a journal was judged to be.
#[derive(Drop)]
pub struct Judged {
    /// What was found of it.
    pub findings: Findings,
    /// What is told of that.
    pub text: String,
}

/// Audits what the words ask for, of which the first is the program's name.
///
/// # Errors
/// The answer of a run whose words or files are bad. Words that spell no audit are answered before the store is asked for anything.
pub fn audit_words<S: Store>(alloc: Global, words: &[&str], store: &mut S) -> Result<Judged, Answer>
    ensures judged { IfOk result (λ judged. (asked : AskedAudit) × (audit_of (texts_of words.now) ≡ Some asked) × IsAuditOf (S.told store.old) asked judged.findings × Asks (S.calls store.old) (S.calls store.new) (unfailed (audit_names asked)) × (asked.json ≡ false → TellsVerdict judged.findings.verdict (string_bytes judged.text))) }
    ensures refused { IfErr result (WordsCause (S.told store.old) (texts_of words.now) (S.failures store.old) (S.failures store.new) (S.calls store.old) (S.calls store.new)) }
    ensures told { S.told store.new ≡ S.told store.old }
    ensures calm { (result ≡ Err a.StoreFailed → ⊥) → S.failures store.new ≡ S.failures store.old }
{
    match parse_audit(alloc, words) {
        Ok(audit) => audit_files(alloc, &audit, form_of(&audit), store),
        Err(error) => Err(answer_of(error)),
    }
}

// In which form the words ask for it.
fn form_of(audit: &AuditCommand<'_>) -> Form
    ensures sentences { audit.now.json ≡ false → result ≡ f.Sentences }
    ensures json { audit.now.json ≡ true → result ≡ f.Json }
{
    if audit.json {
        Form::Json
    } else {
        Form::Sentences
    }
}

// The answer to words that spell no audit, or for which there is no memory.
fn answer_of(error: WordsError) -> Answer
    ensures bad { error ≡ w.Bad → result ≡ a.BadWords }
    ensures memory { error ≡ w.NoMemory → result ≡ a.NoMemory }
{
    match error {
        WordsError::Bad => Answer::BadWords,
        WordsError::NoMemory => Answer::NoMemory,
    }
}

/// Audits a journal, and tells what is found in a form. Where it is a record it is judged by the settings of its head, and else by
/// those that are said, in the mode of its first line.
///
/// # Errors
/// The answer of a run whose files are bad.
pub fn audit_files<S: Store>(
    alloc: Global,
    audit: &AuditCommand<'_>,
    form: Form,
    store: &mut S,
) -> Result<Judged, Answer>
    requires { AuditFits (audit_by audit.now) }
    ensures judged { IfOk result (λ judged. IsAuditOf (S.told store.old) (audit_by audit.now) judged.findings) }
    ensures sentences { form ≡ f.Sentences → IfOk result (λ judged. TellsVerdict judged.findings.verdict (string_bytes judged.text)) }
    ensures asked { IfOk result (λ _. Asks (S.calls store.old) (S.calls store.new) (unfailed (audit_names (audit_by audit.now)))) }
    ensures refused { IfErr result (AuditCause (S.told store.old) (audit_by audit.now) (S.failures store.old) (S.failures store.new) (S.calls store.old) (S.calls store.new)) }
    ensures told { S.told store.new ≡ S.told store.old }
    ensures calm { (result ≡ Err a.StoreFailed → ⊥) → S.failures store.new ≡ S.failures store.old }
{
    let findings = find(alloc, audit, store)?;
    match told(alloc, &findings, form) {
        Ok(text) => Ok(Judged { findings, text }),
        Err(_) => Err(Answer::NoMemory),
    }
}

// What is told of findings.
fn told(alloc: Global, findings: &Findings, form: Form) -> Result<String, AllocError>
    ensures { form ≡ f.Sentences → IfOk result (λ text. TellsVerdict findings.now.verdict (string_bytes text)) }
{
    match form {
        Form::Sentences => findings.sentences(alloc),
        Form::Json => findings.json(alloc),
    }
}

/// Finds what is to be told of a journal. Its file is fetched first, and then the files of the run: each once, and none after one
/// that is refused, or after a record that says something else than the audit does.
///
/// # Errors
/// The answer of a run whose files are bad, or `Other`.
pub fn find<S: Store>(
    alloc: Global,
    audit: &AuditCommand<'_>,
    store: &mut S,
) -> Result<Findings, Answer>
    requires { AuditFits (audit_by audit.now) }
    ensures found { IfOk result (IsAuditOf (S.told store.old) (audit_by audit.now)) }
    ensures asked { IfOk result (λ _. Asks (S.calls store.old) (S.calls store.new) (unfailed (audit_names (audit_by audit.now)))) }
    ensures refused { IfErr result (AuditCause (S.told store.old) (audit_by audit.now) (S.failures store.old) (S.failures store.new) (S.calls store.old) (S.calls store.new)) }
    ensures told { S.told store.new ≡ S.told store.old }
    ensures calm { (result ≡ Err a.StoreFailed → ⊥) → S.failures store.new ≡ S.failures store.old }
{
    let FetchedAudit { journal, fetched } = fetch_audit(alloc, audit, store)?;
    let FetchedJob {
        job,
        executable,
        list: _,
    } = fetched;
    match judge(alloc, job, executable.as_slice(), &journal) {
        Ok(findings) => Ok(findings),
        Err(_) => Err(Answer::NoMemory),
    }
}

// Follows the journal of a job's run in the journal's mode, and finds what came of it.
fn judge(
    alloc: Global,
    job: Job,
    executable: &[u8],
    journal: &AnyJournal,
) -> Result<Findings, AllocError>
    requires can_run { CanRun (job_of job.image job.input.items job.faults.items job.settings) }
    requires suits { Suits journal.now.mode (job_of job.image job.input.items job.faults.items job.settings) }
    ensures { IfOk result (Finds (job_in journal.now.mode (job_of job.image job.input.items job.faults.items job.settings)) journal.now.entries.items) }
{
    match journal.mode {
        Mode::Voted => judge_voted(alloc, job, executable, journal.entries.as_slice()),
        Mode::Cooperative => judge_together(alloc, job, executable, journal.entries.as_slice()),
    }
}

// The same where votes decide.
fn judge_voted(
    alloc: Global,
    job: Job,
    executable: &[u8],
    entries: &[Entry],
) -> Result<Findings, AllocError>
    requires { CanRun (job_of job.image job.input.items job.faults.items job.settings) }
    ensures { IfOk result (Finds (job_in Voted (job_of job.image job.input.items job.faults.items job.settings)) entries.now) }
{
    judge_by::<ro_core::Core>(alloc, with_mode(job, Mode::Voted), executable, entries)
}

// The same where replicas answer calls on cooperative mutexes by themselves.
fn judge_together(
    alloc: Global,
    job: Job,
    executable: &[u8],
    entries: &[Entry],
) -> Result<Findings, AllocError>
    requires can_run { CanRun (job_of job.image job.input.items job.faults.items job.settings) }
    requires suits { Suits Cooperative (job_of job.image job.input.items job.faults.items job.settings) }
    ensures { IfOk result (Finds (job_in Cooperative (job_of job.image job.input.items job.faults.items job.settings)) entries.now) }
{
    let job = with_mode(job, Mode::Cooperative);
    judge_by::<ro_coop_core::Core>(alloc, job, executable, entries)
}

// The same job, to be run in the mode.
fn with_mode(job: Job, mode: Mode) -> Job
    ensures { job_of result.image result.input.items result.faults.items result.settings ≡ job_in mode (job_of job.image job.input.items job.faults.items job.settings) }
{
    let Job {
        image,
        input,
        faults,
        settings,
    } = job;
    Job {
        image,
        input,
        faults,
        settings: Settings { mode, ..settings },
    }
}

// Follows the journal of a job through a core that keeps the rules of its mode, and finds what came of it.
fn judge_by<C: AuditCore>(
    alloc: Global,
    job: Job,
    executable: &[u8],
    entries: &[Entry],
) -> Result<Findings, AllocError>
    requires can_run { CanRun (job_of job.image job.input.items job.faults.items job.settings) }
    requires mode { job.settings.mode ≡ C.mode }
    requires fit { IsFit (job_of job.image job.input.items job.faults.items job.settings) }
    ensures { IfOk result (Finds (job_of job.image job.input.items job.faults.items job.settings) entries.now) }
{
    let Job {
        image,
        input,
        faults,
        settings,
    } = job;
    let Ok(trail) = trace::<C>(
        alloc,
        image,
        input.as_slice(),
        faults.as_slice(),
        settings,
        entries,
    ) else {
        return Err(AllocError);
    };
    let case = Case {
        executable,
        entries,
        faults: faults.as_slice(),
        replicas: settings.replicas,
    };
    let seen = Seen::of(alloc, &trail, &case);
    conclude(alloc, trail, seen, &case)
}

// What a journal is of.
#[derive(Clone, Copy)]
struct Case<'a> {
    executable: &'a [u8],
    entries: &'a [Entry],
    faults: &'a [Fault],
    // How many replicas there are.
    replicas: u32,
}

// What a trail shows before it is given up.
#[derive(Drop)]
struct Seen {
    stood: Stood,
    // What differed in each copy.
    differences: Vec<Difference>,
    // In what its replicas differ, where the run ended by that.
    unlike: Unlike,
}

impl Seen {
    fn of<C: AuditCore>(
        alloc: Global,
        trail: &Trail<C>,
        case: &Case<'_>,
    ) -> Result<Seen, AllocError> {
        Ok(Seen {
            stood: Stood::behind(alloc, trail, case.entries, case.executable)?,
            differences: differences(alloc, trail)?,
            unlike: if ends_split(case.entries) {
                Unlike::of(alloc, trail, case.executable, case.replicas)?
            } else {
                Unlike::nothing(alloc)
            },
        })
    }
}

// What a trail comes to, with what was seen of it.
fn conclude<C: AuditCore>(
    alloc: Global,
    trail: Trail<C>,
    seen: Result<Seen, AllocError>,
    case: &Case<'_>,
) -> Result<Findings, AllocError>
    requires { (job : JobSeen) × IsTrail job case.now.entries.now trail }
    ensures { (job : JobSeen) → IsFit job → IsTrail job case.now.entries.now trail → IfOk result (Finds job case.now.entries.now) }
{
    let (_, audited) = trail.tell();
    let seen = seen?;
    match audited {
        Ok(audited) => legal(alloc, audited, seen, case),
        Err(AuditError::Illegal { place, why }) => {
            illegal(alloc, place, why, seen.differences.as_slice(), case)
        }
        Err(AuditError::NoMemory) => Err(AllocError),
    }
}

// What is found of a legal journal.
fn legal(
    alloc: Global,
    audited: Audited,
    seen: Seen,
    case: &Case<'_>,
) -> Result<Findings, AllocError>
    ensures { (job : JobSeen) → IsFit job → Tells job case.now.entries.now audited → IfOk result (Finds job case.now.entries.now) }
{
    let Seen {
        stood,
        differences,
        unlike,
    } = seen;
    let split = split_of(alloc, case.executable, audited.views.as_slice(), unlike)?;
    Ok(Findings {
        entries: case.entries.len(),
        verdict: Verdict::Legal {
            steps: audited.steps,
            end: ended(audited.how, split, stood),
            odd: odd_at(audited.odd, case.entries),
        },
        copies: copies_made(alloc, case.entries, case.faults, differences.as_slice())?,
    })
}

// The entry at a place, which is the first that is not what the run does next.
fn odd_at(place: Option<usize>, entries: &[Entry]) -> Option<Odd>
    ensures { (job : JobSeen) → NextUpTo job entries.now place → TellsNext job entries.now result }
{
    let place = place?;
    let entry = *entries.get(place)?;
    Some(Odd { place, entry })
}

// What is found of one that is not, of which this entry is the first that is not allowed.
fn illegal(
    alloc: Global,
    place: usize,
    why: Why,
    differences: &[Difference],
    case: &Case<'_>,
) -> Result<Findings, AllocError>
    requires { place < length case.now.entries.now }
    ensures { (job : JobSeen) → FirstIllegal job case.now.entries.now place why → IfOk result (Finds job case.now.entries.now) }
{
    Ok(Findings {
        entries: case.entries.len(),
        verdict: Verdict::Illegal {
            place,
            entry: case.entries[place],
            why,
        },
        copies: copies_made(alloc, &case.entries[..place], case.faults, differences)?,
    })
}

// How a run ended, with what it is told by.
fn ended(how: Option<How>, split: Split, stood: Stood) -> Option<Ended>
    ensures how { option_map how_of result ≡ how }
    ensures split { IfSome result (TellsSplit split) }
{
    let Stood {
        waiting,
        threads,
        trapped,
    } = stood;
    Some(match how? {
        How::Exit(status) => Ended::Exit(status),
        How::Deadlock => Ended::Deadlock(waiting),
        How::Trap(cause) => Ended::Trap { cause, at: trapped },
        How::Limit { steps, next } => Ended::Limit {
            steps,
            next,
            threads,
        },
        How::Differ => Ended::Differ(split),
        How::NoMajority => Ended::NoMajority(split),
        How::Sink(taken) => Ended::Sink(taken),
    })
}
