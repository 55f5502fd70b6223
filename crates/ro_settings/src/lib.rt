//! What a run is asked for, beside its program: how many replicas and drivers, and its bounds.
#![tactic(auto)]

mod options;

ghost use Rattle.ro_settings.specs.Ranges.{InRange, IsReplicas, default_settings};
ghost use Rattle.std.specs.Prelude.{IsTrue, ◌≡◌, ◌↔◌};

pub use options::{DRIVERS, LIMIT, NumberOption, OPTIONS, QUANTUM, REPLICAS, SCRUB, WATCHDOG};

/// How the replicas of a run agree on what they do.
#[derive(Clone, Copy, PartialEq, Eq, Debug)]
pub enum Mode {
    /// By votes alone.
    Voted,
    /// Threads agree on the order in which they get mutexes without a vote, through a lock page; all else is voted on.
    Cooperative,
}

/// The settings of a run; `OPTIONS` has the ranges of its numbers.
#[derive(Clone, Copy, PartialEq, Eq, Debug)]
pub struct Settings {
    /// How the replicas agree.
    pub mode: Mode,
    /// How many replicas there are, 2, 3 or 5.
    pub replicas: u32,
    /// How many drivers.
    pub drivers: u32,
    /// After how many instructions without a vote a thread is stopped.
    pub watchdog: u32,
    /// How many instructions a lease is for.
    pub quantum: u32,
    /// How many steps the run may have.
    pub limit: u64,
    /// After how many steps since the last scrub one is due; with 0 none ever is.
    pub scrub: u64,
}

impl Settings {
    /// Three replicas that vote, three drivers, and the usual bounds.
    pub const DEFAULT: Settings = Settings {
        mode: Mode::Voted,
        replicas: REPLICAS.usual as u32,
        drivers: DRIVERS.usual as u32,
        watchdog: WATCHDOG.usual as u32,
        quantum: QUANTUM.usual as u32,
        limit: LIMIT.usual,
        scrub: SCRUB.usual,
    };

    /// Whether each number lies in its range.
    pub fn is_in_range(&self) -> bool
        ensures { IsTrue result ↔ InRange self.now }
    {
        may_run(self.replicas)
            && DRIVERS.has(u64::from(self.drivers))
            && WATCHDOG.has(u64::from(self.watchdog))
            && QUANTUM.has(u64::from(self.quantum))
            && LIMIT.has(self.limit)
            && SCRUB.has(self.scrub)
    }
}

/// Whether so many replicas may run.
pub fn may_run(replicas: u32) -> bool
    ensures { IsTrue result ↔ IsReplicas replicas }
{
    matches!(replicas, 2 | 3 | 5)
}

impl Default for Settings {
    fn default() -> Settings
        ensures usual { result ≡ default_settings }
        ensures in_range { InRange result }
    {
        Settings::DEFAULT
    }
}
