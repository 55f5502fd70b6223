//! How long a journal's plan is.
ghost use Rattle.std.specs.Prelude.{IfOk, IfErr};
ghost use Rattle.ro_machine.specs.Lengths.{IsLength, IsTooLong};

use crate::errors::TooLong;
use ro_journal::Entry;
use ro_plans::Walk;
use ro_settings::Mode;

/// How many steps a plan has at most that is run.
pub const MOST_STEPS: u64 = 1_000_000_000;

/// How many steps the plan of a journal has, where these are at most `MOST_STEPS`.
///
/// # Errors
/// `TooLong` at the first entry that takes the plan past that.
pub fn plan_steps(mode: Mode, journal: &[Entry]) -> Result<u64, TooLong>
    ensures steps { IfOk result (λ steps. IsLength mode journal.now steps) }
    ensures long { IfErr result (IsTooLong mode journal.now) }
{
    let mut walk = Walk::new(mode);
    let mut steps = 0;
    for place in 0..journal.len() {
        let next = walk.count(journal, place);
        if next > MOST_STEPS - steps {
            return Err(TooLong { steps, next });
        }
        steps += next;
    }
    Ok(steps)
}
