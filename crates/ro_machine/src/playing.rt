//! Running steps, with what they write going to a sink as it is written.
ghost use Rattle.std.specs.Prelude.{ℕ, ◌≡◌, ◌+◌, ◌-◌, ◌*◌, ◌<◌, ◌≤◌, ◌∷◌, ◌++◌, [], IfOk, IfErr, length, replicate};
ghost use Rattle.ro_plans.specs.Plans.{plan_in};
ghost use Rattle.ro_plans.specs.Walks.{stretch_steps};
ghost use Rattle.ro_machine.specs.Parts.{Played, Halts};

use crate::errors::{PlanError, StepError};
use crate::plain::Plain;
use ro_io::{Sink, send};
use ro_journal::Entry;
use ro_plans::{Stretch, Walk};
use ro_settings::Mode;

/// How far a plan has come.
#[derive(Clone, Copy, Debug, PartialEq, Eq)]
pub(crate) struct Progress {
    /// How many steps were taken.
    pub steps: u64,
    /// How many bytes they wrote.
    pub bytes: u64,
}

/// Takes a step of a thread, and sends what it writes.
pub(crate) fn play_one<K: Sink>(
    plain: &mut Plain,
    thread: u32,
    progress: Progress,
    out: &mut K,
) -> Result<Progress, PlanError>
    requires unfailed { K.failures out.old ≡ 0 }
    requires steps { progress.steps + 1 ≤ 1000000000 }
    requires bytes { progress.bytes ≤ 4096 * progress.steps }
    ensures bytes { IfOk result (λ p. p.bytes ≤ 4096 * p.steps) }
    ensures failures { K.failures out.old ≤ K.failures out.new }
    ensures calm { IfOk result (λ _. K.failures out.new ≡ K.failures out.old) }
    ensures played { IfOk result (λ p. Played plain.old (thread ∷ []) plain.new (K.held out.old) (K.held out.new) progress.steps p.steps progress.bytes p.bytes) }
    ensures halts { IfErr result (Halts plain.old (thread ∷ []) (K.held out.old) (K.held out.new) progress.steps (K.failures out.old) (K.failures out.new)) }
{
    match plain.step(thread) {
        Ok(()) => {}
        Err(StepError::NoStep) => {
            return Err(PlanError::NoStep {
                place: progress.steps,
            });
        }
        Err(StepError::NoMemory) => return Err(PlanError::NoMemory),
    }
    let written = plain.written();
    if let Some(taken) = send(out, written) {
        return Err(PlanError::SinkFailed { taken });
    }
    Ok(Progress {
        steps: progress.steps + 1,
        bytes: progress.bytes + written.len() as u64,
    })
}

/// Takes steps of a thread, at least one and at most so many: the plain instructions up to the next step that is none or
/// needs a page that is not backed, and that step.
fn play_part<K: Sink>(
    plain: &mut Plain,
    thread: u32,
    most: u32,
    progress: Progress,
    out: &mut K,
) -> Result<Progress, PlanError>
    requires unfailed { K.failures out.old ≡ 0 }
    requires some { 0 < most }
    requires steps { progress.steps + most ≤ 1000000000 }
    requires bytes { progress.bytes ≤ 4096 * progress.steps }
    ensures some { IfOk result (λ p. progress.steps < p.steps) }
    ensures most { IfOk result (λ p. p.steps ≤ progress.steps + most) }
    ensures bytes { IfOk result (λ p. p.bytes ≤ 4096 * p.steps) }
    ensures failures { K.failures out.old ≤ K.failures out.new }
    ensures calm { IfOk result (λ _. K.failures out.new ≡ K.failures out.old) }
    ensures played { IfOk result (λ p. Played plain.old (replicate (p.steps - progress.steps) thread) plain.new (K.held out.old) (K.held out.new) progress.steps p.steps progress.bytes p.bytes) }
    ensures halts { IfErr result (Halts plain.old (replicate most thread) (K.held out.old) (K.held out.new) progress.steps (K.failures out.old) (K.failures out.new)) }
{
    let ran = plain.run_on(thread, most);
    let now = Progress {
        steps: progress.steps + u64::from(ran),
        bytes: progress.bytes,
    };
    if ran == most {
        return Ok(now);
    }
    play_one(plain, thread, now, out)
}

/// Takes so many steps of a thread.
fn play<K: Sink>(
    plain: &mut Plain,
    thread: u32,
    count: u64,
    progress: Progress,
    out: &mut K,
) -> Result<Progress, PlanError>
    requires unfailed { K.failures out.old ≡ 0 }
    requires steps { progress.steps + count ≤ 1000000000 }
    requires bytes { progress.bytes ≤ 4096 * progress.steps }
    ensures bytes { IfOk result (λ p. p.bytes ≤ 4096 * p.steps) }
    ensures failures { K.failures out.old ≤ K.failures out.new }
    ensures calm { IfOk result (λ _. K.failures out.new ≡ K.failures out.old) }
    ensures played { IfOk result (λ p. Played plain.old (replicate count thread) plain.new (K.held out.old) (K.held out.new) progress.steps p.steps progress.bytes p.bytes) }
    ensures halts { IfErr result (Halts plain.old (replicate count thread) (K.held out.old) (K.held out.new) progress.steps (K.failures out.old) (K.failures out.new)) }
{
    let end = progress.steps + count;
    let mut now = progress;
    while now.steps < end {
        now = play_part(plain, thread, (end - now.steps) as u32, now, out)?;
    }
    Ok(now)
}

/// Takes the steps of a stretch, if there is one.
fn play_told<K: Sink>(
    plain: &mut Plain,
    told: Option<Stretch>,
    progress: Progress,
    out: &mut K,
) -> Result<Progress, PlanError>
    requires unfailed { K.failures out.old ≡ 0 }
    requires steps { progress.steps + length (stretch_steps told) ≤ 1000000000 }
    requires bytes { progress.bytes ≤ 4096 * progress.steps }
    ensures bytes { IfOk result (λ p. p.bytes ≤ 4096 * p.steps) }
    ensures failures { K.failures out.old ≤ K.failures out.new }
    ensures calm { IfOk result (λ _. K.failures out.new ≡ K.failures out.old) }
    ensures played { IfOk result (λ p. Played plain.old (stretch_steps told) plain.new (K.held out.old) (K.held out.new) progress.steps p.steps progress.bytes p.bytes) }
    ensures halts { IfErr result (Halts plain.old (stretch_steps told) (K.held out.old) (K.held out.new) progress.steps (K.failures out.old) (K.failures out.new)) }
{
    match told {
        Some(Stretch { thread, count }) => play(plain, thread, count, progress, out),
        None => Ok(progress),
    }
}

/// Takes the steps that all entries add to the plan.
pub(crate) fn play_all<K: Sink>(
    plain: &mut Plain,
    mode: Mode,
    journal: &[Entry],
    out: &mut K,
) -> Result<Progress, PlanError>
    requires unfailed { K.failures out.old ≡ 0 }
    requires length { length (plan_in mode journal.now) ≤ 1000000000 }
    ensures failures { K.failures out.old ≤ K.failures out.new }
    ensures calm { IfOk result (λ _. K.failures out.new ≡ K.failures out.old) }
    ensures played { IfOk result (λ p. Played plain.old (plan_in mode journal.now) plain.new (K.held out.old) (K.held out.new) 0 p.steps 0 p.bytes) }
    ensures halts { IfErr result (Halts plain.old (plan_in mode journal.now) (K.held out.old) (K.held out.new) 0 (K.failures out.old) (K.failures out.new)) }
{
    let mut walk = Walk::new(mode);
    let mut now = Progress { steps: 0, bytes: 0 };
    for place in 0..journal.len() {
        let told = walk.steps(journal, place);
        now = play_told(plain, told, now, out)?;
    }
    Ok(now)
}
