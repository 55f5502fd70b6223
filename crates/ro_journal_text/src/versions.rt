//! The versions of the lines of entries.
ghost use Rattle.std.specs.Prelude.{◌≡◌};
ghost use Rattle.ro_journal_text.specs.Reading.{most_replica};

/// What a text's lines may say; its first line tells which. `Second` is written, both are read.
#[derive(Clone, Copy, PartialEq, Eq, Debug)]
pub enum Version {
    /// `romain 1`: replicas 0 to 2, of which one loses a vote at most; no scrub, no part, and no call of two steps.
    First,
    /// `romain 2`: replicas 0 to 4, of which two lose a vote at most; scrubs, parts, and calls that did their first step.
    Second,
}

impl Version {
    /// The highest number of a replica.
    pub fn most_replica(self) -> u64
        ensures { result ≡ most_replica self }
    {
        match self {
            Version::First => 2,
            Version::Second => 4,
        }
    }
}
