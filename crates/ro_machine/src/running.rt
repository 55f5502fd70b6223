//! Running the plan of a journal.
ghost use Rattle.std.specs.Prelude.{◌≡◌, ℕ, List, ◌≤◌, IfOk, IfErr, length};
ghost use Rattle.std.specs.Arc.{arc_value};
ghost use Rattle.ro_plans.specs.Plans.{plan_in};
ghost use Rattle.ro_machine.specs.Seen.{machine_of};
ghost use Rattle.ro_machine.specs.Plans.{RunsPlan, Fails, EndsAs};

use crate::errors::{PlainEnd, PlanError, StepError};
use crate::plain::Plain;
use crate::playing::play_all;
use ro_image::Executable;
use ro_io::Sink;
use ro_journal::{Entry, How};
use ro_settings::Mode;
use std::alloc::{AllocError, Global};
use std::sync::Arc;

/// Runs the plan of a journal on the unreplicated machine of a program and an input. What its steps write goes to a sink that
/// has not failed. The plan is never spelled out: it takes no memory.
///
/// # Errors
/// `NoStep` at the plan's first step that does not exist, `SinkFailed` where the sink failed, and `NoMemory`. The steps
/// before it were taken, and the sink has what they wrote. Its count of failures rose with `SinkFailed` alone.
pub fn run_plan<K: Sink>(
    alloc: Global,
    image: &Arc<Executable>,
    input: &[u8],
    mode: Mode,
    journal: &[Entry],
    out: &mut K,
) -> Result<PlainEnd, PlanError>
    requires length { length (plan_in mode journal.now) ≤ 1000000000 }
    requires unfailed { K.failures out.old ≡ 0 }
    ensures runs { IfOk result (λ end. RunsPlan (record { image = arc_value image.now; input = input.now }) (plan_in mode journal.now) (K.held out.old) (K.held out.new) end.how end.bytes) }
    ensures fails { IfErr result (Fails (record { image = arc_value image.now; input = input.now }) (plan_in mode journal.now) (K.held out.old) (K.held out.new) (K.failures out.old) (K.failures out.new)) }
    ensures calm { IfOk result (λ _. K.failures out.new ≡ K.failures out.old) }
    ensures failures { K.failures out.old ≤ K.failures out.new }
{
    let Ok(mut plain) = Plain::begin(alloc, image, input) else {
        return Err(PlanError::NoMemory);
    };
    let progress = play_all(&mut plain, mode, journal, out)?;
    match end_of(plain) {
        Ok(how) => Ok(PlainEnd {
            how,
            bytes: progress.bytes,
        }),
        Err(AllocError) => Err(PlanError::NoMemory),
    }
}

/// How a machine has ended, or how it is left: by a deadlock where no thread has a step.
fn end_of(mut plain: Plain) -> Result<Option<How>, AllocError>
    ensures { IfOk result (λ how. (output : List ℕ) → EndsAs plain.program (machine_of plain output) plain.ended how) }
{
    if let Some(how) = plain.ended() {
        return Ok(Some(how));
    }
    for thread in 0..plain.made() {
        match plain.step(thread) {
            Ok(()) => return Ok(None),
            Err(StepError::NoStep) => {}
            Err(StepError::NoMemory) => return Err(AllocError),
        }
    }
    Ok(Some(How::Deadlock))
}
