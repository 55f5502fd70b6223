//! What a step came to.

use ro_event::Stop;

/// What a thread did in a step.
#[derive(Clone, Copy, PartialEq, Eq, Debug)]
pub enum Step {
    /// It executed an instruction.
    Did,
    /// It stands at this stop, and nothing changed.
    Stopped(Stop),
}
