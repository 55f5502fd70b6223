//! How long a journal's plan is.
ghost use Rattle.std.specs.Prelude.{◌≡◌, ◌^◌, ◌<◌, length};
ghost use Rattle.ro_plans.specs.Plans.{plan_in};

use crate::walk::Walk;
use ro_journal::Entry;
use ro_settings::Mode;

/// How many steps a journal's plan has.
pub fn plan_length(mode: Mode, journal: &[Entry]) -> u64
    requires { length (plan_in mode journal.now) < 2 ^ 64 }
    ensures { result ≡ length (plan_in mode journal.now) }
{
    let mut walk = Walk::new(mode);
    let mut length = 0;
    for place in 0..journal.len() {
        length += walk.count(journal, place);
    }
    length
}
