//! What comes of a call.

use ro_event::Effect;
use ro_journal::How;

/// What comes of a thread's call.
#[derive(Drop, Debug)]
pub enum Served {
    /// It is served, with this effect on the thread and its memory.
    Done(Effect),
    /// It did its first step, and blocks before its second.
    Parked,
    /// It can't be served now, and changes nothing.
    Blocked,
    /// The program ends.
    Ends(How),
}
