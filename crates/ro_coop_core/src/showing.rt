//! What holds of a core at any time.
ghost use Rattle.std.specs.Prelude.{◌≡◌, ◌<◌, ◌^◌, length};
ghost use Rattle.ro_legal.specs.Cooperative.{Legal};
ghost use Rattle.ro_coop_core.specs.Fields.{Holds, IsCalm};
ghost use Rattle.ro_coop_core.specs.Runs.{fields_of, job_of};

use crate::cores::Core;
use ro_settings::Settings;

impl Core {
    /// How many entries there are, of which a journal can have but so many. It shows what holds of a core at any time: the
    /// journal is legal, the settings are in their ranges, and there are no faults and no scrubs.
    pub fn entries(&self) -> u64
        requires holds { Holds (fields_of self.now) }
        ensures entries { result ≡ length (fields_of self.now).journal }
        ensures few { length (fields_of self.now).journal < 2 ^ 63 }
        ensures legal { Legal (job_of self.now) (fields_of self.now).journal }
        ensures calm { IsCalm (job_of self.now) }
    {
        let _places = self.journal.capacity();
        self.journal.len() as u64
    }

    /// What it was asked for.
    pub fn settings(&self) -> Settings
        ensures { result ≡ (job_of self.now).settings }
    {
        self.settings
    }
}
