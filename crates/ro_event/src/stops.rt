//! Stops: why a thread stands still.

use crate::calls::Call;
use crate::traps::TrapCause;

/// Why a thread stands still until a vote.
#[derive(Clone, Copy, PartialEq, Eq, Debug)]
pub enum Stop {
    /// It makes a call.
    Calls(Call),
    /// It can't go on, for this cause.
    Trap(TrapCause),
    /// It needs the page of this number, which is not backed.
    PageFault(u32),
    /// It has run for as long as the watchdog lets it.
    Watchdog,
}
