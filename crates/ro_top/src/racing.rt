//! The first race of a plan.
ghost use Rattle.std.specs.Prelude.{◌≤◌, length};
ghost use Rattle.ro_plans.specs.Plans.{plan_in};
ghost use Rattle.ro_top.specs.Ends.{RacesCause};

use ro_files::Replay;
use ro_image::Executable;
use ro_journal::Entry;
use ro_machine::{TooLong, plan_steps};
use ro_races::{Found, RacesError, check};
use ro_report::Answer;
use ro_settings::Mode;
use std::alloc::Global;
use std::sync::Arc;

// Checks the plan of a journal, unless it is too long.
pub(crate) fn race(alloc: Global, replay: Replay) -> Answer
    ensures { RacesCause (record { image = replay.image; input = replay.input.items }) replay.mode replay.journal.items result }
{
    let Replay {
        image,
        input,
        mode,
        journal,
    } = replay;
    match plan_steps(mode, journal.as_slice()) {
        Ok(_) => first_race(alloc, image, input.as_slice(), mode, journal.as_slice()),
        Err(TooLong { steps, next }) => Answer::Limit { steps, next },
    }
}

// What the check of a plan comes to.
fn first_race(
    alloc: Global,
    image: Executable,
    input: &[u8],
    mode: Mode,
    journal: &[Entry],
) -> Answer
    requires { length (plan_in mode journal.now) ≤ 1000000000 }
    ensures { RacesCause (record { image = image; input = input.now }) mode journal.now result }
{
    let Ok(image) = Arc::new(alloc, image) else {
        return Answer::NoMemory;
    };
    match check(alloc, &image, input, mode, journal) {
        Ok(Found::NoRace) => Answer::NoRace,
        Ok(Found::Pair { i, j, byte }) => Answer::Race { i, j, byte },
        Err(RacesError::NoStep { place }) => Answer::NoStep { place },
        Err(RacesError::NoMemory) => Answer::NoMemory,
    }
}
