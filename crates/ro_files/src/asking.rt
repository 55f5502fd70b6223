//! What a command asks for, once its files are read.
ghost use Rattle.std.specs.Prelude.{◌≡◌, ℕ, List, Some, None, IfOk, IfErr, Err};
ghost use Rattle.ro_report.specs.declared.answers.Answer.TheVariants as a;
ghost use Rattle.ro_words.specs.Commands.{Fits, inject_by, plan_by, run_by, to_inject, to_plain, to_run};
ghost use Rattle.ro_legal.specs.Jobs.{job_of, CanRun};
ghost use Rattle.ro_legal.specs.Rules.{IsFit};
ghost use Rattle.ro_files.specs.Agreeing.{recorded_of};
ghost use Rattle.ro_files.specs.Files.{IsContent, IsJobOf, IsPlanOf, recorded_in};
ghost use Rattle.ro_files.specs.Causes.{AsksFor, AsksTo, JobCause};
ghost use Rattle.ro_image.specs.Executable.{bad_code, image_of};
ghost use Rattle.ro_report.specs.declared.answers.FileKind.TheVariants.{Exe, Faults, Plan};

use crate::agreeing::same_files;
use crate::files::{faults, fetch, fetch_named, image, journal};
use ro_faults::Fault;
use ro_image::Executable;
use ro_io::Store;
use ro_journal::Entry;
use ro_journal_text::Recorded;
use ro_report::{Answer, FileKind};
use ro_settings::{Mode, Settings};
use ro_words::{InjectCommand, PlanCommand, RunCommand};
use sha2::{Digest, Sha256};
use std::alloc::Global;

/// What is to be run: a program and its input, the faults that are to be struck, and how many replicas and drivers there are, in
/// which bounds.
#[derive(Drop)]
pub struct Job {
    pub image: Executable,
    pub input: Vec<u8>,
    pub faults: Vec<Fault>,
    pub settings: Settings,
}

/// The journal whose plan is to be followed, and on what.
#[derive(Drop)]
pub struct Replay {
    pub image: Executable,
    pub input: Vec<u8>,
    /// The mode of the journal's run.
    pub mode: Mode,
    pub journal: Vec<Entry>,
}

/// A job whose files were fetched.
#[derive(Drop)]
pub struct FetchedJob {
    pub job: Job,
    /// The bytes of its executable's file.
    pub executable: Vec<u8>,
    /// The bytes of its list of faults.
    pub list: Vec<u8>,
}

impl FetchedJob {
    /// Of what run a journal of the job is.
    pub fn recorded(&self) -> Recorded
        ensures { result ≡ recorded_of self.now.job.settings self.now.executable.items self.now.job.input.items self.now.list.items }
    {
        Recorded {
            settings: self.job.settings,
            exe: Sha256::digest(self.executable.as_slice()),
            input: Sha256::digest(self.job.input.as_slice()),
            faults: Sha256::digest(self.list.as_slice()),
        }
    }
}

/// Fetches the job of a run: its executable first, then its input, then its faults.
///
/// # Errors
/// The answer of a run whose files are bad.
pub fn fetch_job<S: Store>(
    alloc: Global,
    command: &RunCommand<'_>,
    store: &mut S,
) -> Result<FetchedJob, Answer>
    requires { Fits (to_run (run_by command.now)) }
    ensures job { IfOk result (λ fetched. (of : IsJobOf (S.told store.old) (run_by command.now) (job_of fetched.job.image fetched.job.input.items fetched.job.faults.items fetched.job.settings)) × (recorded_in of ≡ recorded_of fetched.job.settings fetched.executable.items fetched.job.input.items fetched.list.items)) }
    ensures settings { IfOk result (λ fetched. fetched.job.settings ≡ command.now.settings) }
    ensures can_run { IfOk result (λ fetched. CanRun (job_of fetched.job.image fetched.job.input.items fetched.job.faults.items fetched.job.settings)) }
    ensures fit { IfOk result (λ fetched. IsFit (job_of fetched.job.image fetched.job.input.items fetched.job.faults.items fetched.job.settings)) }
    ensures executable { IfOk result (λ fetched. IsContent (S.told store.old) Exe (Some command.now.executable.now) fetched.executable.items) }
    ensures image { IfOk result (λ fetched. fetched.job.image ≡ image_of fetched.executable.items) }
    ensures refused { IfErr result (JobCause (S.told store.old) (to_run (run_by command.now)) (S.failures store.old) (S.failures store.new)) }
    ensures told { S.told store.new ≡ S.told store.old }
    ensures calm { (result ≡ Err a.StoreFailed → ⊥) → S.failures store.new ≡ S.failures store.old }
    ensures asked { IfOk result (λ _. AsksTo (S.told store.old) (to_run (run_by command.now)) (S.calls store.old) (S.calls store.new) Faults) }
    ensures stops { IfErr result (AsksFor (S.told store.old) (to_run (run_by command.now)) (S.calls store.old) (S.calls store.new)) }
{
    let file = fetch(store, alloc, FileKind::Exe, command.executable)?;
    let image = image(alloc, file.as_slice())?;
    let input = fetch_named(store, alloc, FileKind::Input, command.input)?;
    let list = fetch_named(store, alloc, FileKind::Faults, command.faults)?;
    let faults = faults(alloc, list.as_slice(), command.settings.replicas)?;
    Ok(FetchedJob {
        job: Job {
            image,
            input,
            faults,
            settings: command.settings,
        },
        executable: file,
        list,
    })
}

/// Fetches the plan that is to be followed, and on what: its executable first, then its input, then its journal. The causes are
/// spelled for `plain`, and those of `races` are the same.
///
/// # Errors
/// The answer of a plan whose files are bad.
pub fn replay_from<S: Store>(
    alloc: Global,
    command: &PlanCommand<'_>,
    store: &mut S,
) -> Result<Replay, Answer>
    ensures plan { IfOk result (λ replay. IsPlanOf (S.told store.old) (plan_by command.now) (record { image = replay.image; input = replay.input.items }) replay.mode replay.journal.items) }
    ensures refused { IfErr result (JobCause (S.told store.old) (to_plain (plan_by command.now)) (S.failures store.old) (S.failures store.new)) }
    ensures told { S.told store.new ≡ S.told store.old }
    ensures calm { (result ≡ Err a.StoreFailed → ⊥) → S.failures store.new ≡ S.failures store.old }
    ensures asked { IfOk result (λ _. AsksTo (S.told store.old) (to_plain (plan_by command.now)) (S.calls store.old) (S.calls store.new) Plan) }
    ensures stops { IfErr result (AsksFor (S.told store.old) (to_plain (plan_by command.now)) (S.calls store.old) (S.calls store.new)) }
{
    let bytes = fetch(store, alloc, FileKind::Exe, command.executable)?;
    let image = image(alloc, bytes.as_slice())?;
    let input = fetch_named(store, alloc, FileKind::Input, command.input)?;
    let text = fetch(store, alloc, FileKind::Plan, command.plan)?;
    let journal = journal(alloc, text.as_slice())?;
    same_files(journal.recorded, bytes.as_slice(), input.as_slice())?;
    Ok(Replay {
        image,
        input,
        mode: journal.mode,
        journal: journal.entries,
    })
}

/// Fetches the executable for which faults are to be drawn.
///
/// # Errors
/// The answer of a draw whose file is bad.
pub fn image_from<S: Store>(
    alloc: Global,
    command: &InjectCommand<'_>,
    store: &mut S,
) -> Result<Executable, Answer>
    ensures image { IfOk result (λ image. (file : List ℕ) × IsContent (S.told store.old) Exe (Some command.now.executable.now) file × (bad_code file ≡ None) × (image ≡ image_of file)) }
    ensures refused { IfErr result (JobCause (S.told store.old) (to_inject (inject_by command.now)) (S.failures store.old) (S.failures store.new)) }
    ensures told { S.told store.new ≡ S.told store.old }
    ensures calm { (result ≡ Err a.StoreFailed → ⊥) → S.failures store.new ≡ S.failures store.old }
    ensures asked { IfOk result (λ _. AsksTo (S.told store.old) (to_inject (inject_by command.now)) (S.calls store.old) (S.calls store.new) Exe) }
    ensures stops { IfErr result (AsksFor (S.told store.old) (to_inject (inject_by command.now)) (S.calls store.old) (S.calls store.new)) }
{
    let bytes = fetch(store, alloc, FileKind::Exe, command.executable)?;
    image(alloc, bytes.as_slice())
}
