//! The options of a run whose values are numbers, each said once.
ghost use Rattle.ro_settings.specs.Ranges.{IsIn, range_of};
ghost use Rattle.std.specs.Prelude.{IsTrue, ◌↔◌};

/// An option of a run whose value is a number.
#[derive(Clone, Copy, PartialEq, Eq, Debug)]
pub struct NumberOption {
    /// Its name, which stands behind two dashes.
    pub name: &'static str,
    /// The least number that it may be.
    pub least: u64,
    /// The largest.
    pub most: u64,
    /// The number that it is where it is not given.
    pub usual: u64,
}

/// How many replicas there are; of the numbers between, 4 may not be.
pub const REPLICAS: NumberOption = NumberOption {
    name: "replicas",
    least: 2,
    most: 5,
    usual: 3,
};

/// How many drivers there are.
pub const DRIVERS: NumberOption = NumberOption {
    name: "drivers",
    least: 1,
    most: 8,
    usual: 3,
};

/// After how many instructions without a vote a thread is stopped.
pub const WATCHDOG: NumberOption = NumberOption {
    name: "watchdog",
    least: 100,
    most: 1_000_000,
    usual: 10_000,
};

/// How many instructions a lease is for.
pub const QUANTUM: NumberOption = NumberOption {
    name: "quantum",
    least: 1,
    most: 65_536,
    usual: 4_096,
};

/// How many steps the run may have.
pub const LIMIT: NumberOption = NumberOption {
    name: "limit",
    least: 1,
    most: 1_000_000_000_000,
    usual: 1_000_000_000,
};

/// After how many steps since the last scrub one is due; with 0 none ever is.
pub const SCRUB: NumberOption = NumberOption {
    name: "scrub",
    least: 0,
    most: 1_000_000_000_000,
    usual: 0,
};

/// All of them.
pub const OPTIONS: &[NumberOption] = &[REPLICAS, DRIVERS, WATCHDOG, QUANTUM, LIMIT, SCRUB];

impl NumberOption {
    /// Whether the number lies in the option's range.
    pub fn has(&self, number: u64) -> bool
        ensures { IsTrue result ↔ IsIn (range_of self.now) number }
    {
        self.least <= number && number <= self.most
    }
}
