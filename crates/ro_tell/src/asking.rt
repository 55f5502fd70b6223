//! What an audit asks for, once its files are read.
ghost use Rattle.std.specs.Prelude.{◌≡◌, ◌↔◌, ◌∷◌, [], None, Err, IfErr, IfOk, IfSome, IsTrue};
ghost use Rattle.ro_files.specs.Agreeing.{recorded_of};
ghost use Rattle.ro_io.specs.Outside.{Asks, unfailed};
ghost use Rattle.ro_journal_text.specs.Records.{any_in};
ghost use Rattle.ro_journal_text.specs.declared.errors.JournalCode.TheVariants.{Form};
ghost use Rattle.ro_legal.specs.Jobs.{CanRun, job_of};
ghost use Rattle.ro_legal.specs.Modes.{Suits};
ghost use Rattle.ro_report.specs.declared.answers.Answer.TheVariants as a;
ghost use Rattle.ro_settings.specs.Ranges.{InRange};
ghost use Rattle.ro_settings.specs.declared.Mode.TheVariants.{Cooperative};
ghost use Rattle.ro_tell.specs.Agreeing.{IsAudited, IsJournalOf, other_files as other_files_of};
ghost use Rattle.ro_tell.specs.Causes.{AuditCause, RefusesFiles, RefusesJob, RefusesJournal, audit_names};
ghost use Rattle.ro_words.specs.Commands.{AuditFits, audit_by};

use crate::agreeing::{other_files, settings_for};
use ro_files::{FetchedJob, Job, fetch, fetch_job, journal};
use ro_io::Store;
use ro_journal_text::{AnyJournal, Recorded};
use ro_report::{Answer, FileKind, JournalCode};
use ro_settings::Mode;
use ro_words::AuditCommand;
use std::alloc::Global;

// A journal that is to be judged, and the job that it is of.
#[derive(Drop)]
pub(crate) struct FetchedAudit {
    pub(crate) journal: AnyJournal,
    pub(crate) fetched: FetchedJob,
}

// Fetches the journal of an audit, and then the job of the run that it is of.
pub(crate) fn fetch_audit<S: Store>(
    alloc: Global,
    audit: &AuditCommand<'_>,
    store: &mut S,
) -> Result<FetchedAudit, Answer>
    requires { AuditFits (audit_by audit.now) }
    ensures audited { IfOk result (λ r. IsAudited (S.told store.old) (audit_by audit.now) (any_in r.journal) (job_of r.fetched.job.image r.fetched.job.input.items r.fetched.job.faults.items r.fetched.job.settings)) }
    ensures can_run { IfOk result (λ r. CanRun (job_of r.fetched.job.image r.fetched.job.input.items r.fetched.job.faults.items r.fetched.job.settings)) }
    ensures asked { IfOk result (λ _. Asks (S.calls store.old) (S.calls store.new) (unfailed (audit_names (audit_by audit.now)))) }
    ensures refused { IfErr result (AuditCause (S.told store.old) (audit_by audit.now) (S.failures store.old) (S.failures store.new) (S.calls store.old) (S.calls store.new)) }
    ensures told { S.told store.new ≡ S.told store.old }
    ensures calm { (result ≡ Err a.StoreFailed → ⊥) → S.failures store.new ≡ S.failures store.old }
{
    let journal = fetch_journal(alloc, audit.journal, store)?;
    let settings = settings_for(&audit.said, journal.recorded)?;
    let fetched = fetch_job(alloc, &audit.run(settings), store)?;
    agree(&journal, &fetched)?;
    Ok(FetchedAudit { journal, fetched })
}

// The journal of a file.
fn fetch_journal<S: Store>(alloc: Global, name: &str, store: &mut S) -> Result<AnyJournal, Answer>
    ensures journal { IfOk result (λ journal. IsJournalOf (S.told store.old) name.now (any_in journal)) }
    ensures in_range { IfOk result (λ journal. IfSome journal.recorded (λ recorded. InRange recorded.settings)) }
    ensures asked { IfOk result (λ _. Asks (S.calls store.old) (S.calls store.new) (unfailed (name.now ∷ []))) }
    ensures refused { IfErr result (RefusesJournal (S.told store.old) name.now (S.failures store.old) (S.failures store.new) (S.calls store.old) (S.calls store.new)) }
    ensures told { S.told store.new ≡ S.told store.old }
    ensures calm { (result ≡ Err a.StoreFailed → ⊥) → S.failures store.new ≡ S.failures store.old }
{
    let file = fetch(store, alloc, FileKind::Plan, name)?;
    journal(alloc, file.as_slice())
}

// Whether a run of the job may have the journal.
fn agree(journal: &AnyJournal, fetched: &FetchedJob) -> Result<(), Answer>
    ensures same_files { IfOk result (λ _. other_files_of journal.now.recorded (recorded_of fetched.now.job.settings fetched.now.executable.items fetched.now.job.input.items fetched.now.list.items) ≡ None) }
    ensures suits { IfOk result (λ _. Suits journal.now.mode (job_of fetched.now.job.image fetched.now.job.input.items fetched.now.job.faults.items fetched.now.job.settings)) }
    ensures refused { IfErr result (RefusesJob (any_in journal.now) (recorded_of fetched.now.job.settings fetched.now.executable.items fetched.now.job.input.items fetched.now.list.items) (job_of fetched.now.job.image fetched.now.job.input.items fetched.now.job.faults.items fetched.now.job.settings)) }
{
    same_files(journal.recorded, fetched)?;
    suits(journal.mode, &fetched.job)
}

// Whether a journal has no head, or one that is of the job's files.
fn same_files(recorded: Option<Recorded>, fetched: &FetchedJob) -> Result<(), Answer>
    ensures same { IfOk result (λ _. other_files_of recorded (recorded_of fetched.now.job.settings fetched.now.executable.items fetched.now.job.input.items fetched.now.list.items) ≡ None) }
    ensures refused { IfErr result (λ answer. RefusesFiles recorded (recorded_of fetched.now.job.settings fetched.now.executable.items fetched.now.job.input.items fetched.now.list.items) answer) }
{
    let Some(recorded) = recorded else {
        return Ok(());
    };
    match other_files(&recorded, &fetched.recorded()) {
        Some(line) => Err(Answer::Other(line)),
        None => Ok(()),
    }
}

// Whether a run of the job may be in the mode of its journal: a cooperative one has neither faults nor scrubs.
fn suits(mode: Mode, job: &Job) -> Result<(), Answer>
    ensures suits { IfOk result (λ _. Suits mode (job_of job.now.image job.now.input.items job.now.faults.items job.now.settings)) }
    ensures refused { IfErr result (λ answer. (answer ≡ a.BadPlan 1 Form) × (Suits mode (job_of job.now.image job.now.input.items job.now.faults.items job.now.settings) → ⊥)) }
{
    match mode {
        Mode::Cooperative if !may_cooperate(job) => Err(Answer::BadPlan {
            line: 1,
            code: JournalCode::Form,
        }),
        _ => Ok(()),
    }
}

// Whether a job has neither faults nor scrubs.
fn may_cooperate(job: &Job) -> bool
    ensures { IsTrue result ↔ Suits Cooperative (job_of job.now.image job.now.input.items job.now.faults.items job.now.settings) }
{
    job.faults.is_empty() && job.settings.scrub == 0
}
