//! What holds of cores.
ghost use Rattle.ro_core.specs.Seen.{CoreOf};
ghost use Rattle.ro_master.specs.Driven.{Goes};

/// A core that goes on twice goes on.
pub fn going_on()
    ensures none { (core : CoreOf) → Goes core core }
    ensures twice { (first next last : CoreOf) → Goes first next → Goes next last → Goes first last }
{}
