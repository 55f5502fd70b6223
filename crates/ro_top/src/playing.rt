//! The run of a plan on the unreplicated machine.
ghost use Rattle.std.specs.Prelude.{◌≡◌};
ghost use Rattle.ro_top.specs.Ends.{AnswersEnd, PlanCause};

use crate::running::answer_of;
use ro_files::Replay;
use ro_io::Sink;
use ro_journal::How;
use ro_machine::{PlainEnd, PlanError, TooLong, plan_steps, run_plan};
use ro_report::Answer;
use std::alloc::Global;
use std::sync::Arc;

// What a plan's run came to, before it is told.
pub(crate) struct Played {
    pub(crate) answer: Answer,
    // Where the plan was run to its end, how many steps it has, and how many bytes they wrote.
    pub(crate) steps: u64,
    pub(crate) bytes: u64,
}

// The plan was not run to its end.
pub(crate) fn unplayed(answer: Answer) -> Played
    ensures { result ≡ record { answer = answer; steps = 0; bytes = 0 } }
{
    Played {
        answer,
        steps: 0,
        bytes: 0,
    }
}

// Runs the plan of a journal, unless it is too long.
pub(crate) fn play<K: Sink>(alloc: Global, replay: Replay, out: &mut K) -> Played
    requires unfailed { K.failures out.old ≡ 0 }
    ensures cause { PlanCause (record { answer = result.answer; steps = result.steps; bytes = result.bytes; held_before = K.held out.old; held_after = K.held out.new; failures_before = K.failures out.old; failures_after = K.failures out.new }) (record { image = replay.image; input = replay.input.items }) replay.mode replay.journal.items result.answer }
{
    let Replay {
        image,
        input,
        mode,
        journal,
    } = replay;
    let steps = match plan_steps(mode, journal.as_slice()) {
        Ok(steps) => steps,
        Err(TooLong { steps, next }) => return unplayed(Answer::Limit { steps, next }),
    };
    let Ok(image) = Arc::new(alloc, image) else {
        return unplayed(Answer::NoMemory);
    };
    match run_plan(
        alloc,
        &image,
        input.as_slice(),
        mode,
        journal.as_slice(),
        out,
    ) {
        Ok(PlainEnd { how, bytes }) => Played {
            answer: answer_behind(how),
            steps,
            bytes,
        },
        Err(PlanError::NoStep { place }) => unplayed(Answer::NoStep { place }),
        Err(PlanError::SinkFailed { taken }) => unplayed(Answer::SinkFailed { taken }),
        Err(PlanError::NoMemory) => unplayed(Answer::NoMemory),
    }
}

// The answer behind a plan that was run to its end, where the program stands so.
fn answer_behind(how: Option<How>) -> Answer
    ensures { AnswersEnd result how }
{
    match how {
        Some(how) => answer_of(Some(how)),
        None => Answer::Unended,
    }
}
