//! What a command came to.
ghost use Rattle.std.specs.Prelude.{◌≡◌};
ghost use Rattle.ro_io.specs.Outside.{Rose};
ghost use Rattle.ro_report.specs.Report.{answer_text};
ghost use Rattle.ro_report.specs.declared.answers.Answer.TheVariants as a;
ghost use Rattle.ro_top.specs.Top.{status_of, IsTold};
ghost use Rattle.ro_top.specs.declared.done.Told.{Told};
ghost use Rattle.ro_top.specs.declared.done.Told.TheVariants as t;

use crate::reports::tell_answer;
use ro_event::View;
use ro_io::Sink;
use ro_journal::Entry;
use ro_report::Answer;

/// The status of a process that could not tell what was to be told.
pub const UNTOLD: u8 = 251;

/// Whether the whole report was taken.
#[derive(Clone, Copy, Debug, PartialEq, Eq)]
pub enum Told {
    Whole,
    Failed,
}

/// What a command came to.
#[derive(Drop)]
pub struct Done<K> {
    /// How it ended.
    pub answer: Answer,
    /// Whether that was reported.
    pub told: Told,
    /// The journal of the run, or nothing where there was none.
    pub journal: Vec<Entry>,
    /// Where it ended by a vote of views that had no majority, those views in the order of the replicas; else none.
    pub views: Vec<View>,
    /// The sink of the output.
    pub out: K,
}

impl<K> Done<K> {
    /// The status with which a process ends: that of the program where it ended by an exit, 0 where a plan has no race, else one
    /// from 237 on.
    pub fn status(&self) -> u8
        ensures { result ≡ status_of self.now.told self.now.answer }
    {
        status_of(self.told, &self.answer)
    }
}

/// Tells that there is no memory for the words of a command, which is then the whole report, and answers the status with which a
/// process ends.
pub fn without_words<E: Sink>(report: &mut E) -> u8
    requires unfailed { E.failures report.old ≡ 0 }
    ensures { (told : Told) × (result ≡ status_of told a.NoMemory) × IsTold told (E.held report.old) (E.held report.new) (answer_text a.NoMemory) × (told ≡ t.Failed → Rose (E.failures report.old) (E.failures report.new)) × (told ≡ t.Whole → E.failures report.new ≡ E.failures report.old) }
{
    answered(report, &Answer::NoMemory)
}

/// Tells an answer, which is then the whole report, and answers the status with which a process ends.
pub fn answered<E: Sink>(report: &mut E, answer: &Answer) -> u8
    requires unfailed { E.failures report.old ≡ 0 }
    ensures { (told : Told) × (result ≡ status_of told answer.now) × IsTold told (E.held report.old) (E.held report.new) (answer_text answer.now) × (told ≡ t.Failed → Rose (E.failures report.old) (E.failures report.new)) × (told ≡ t.Whole → E.failures report.new ≡ E.failures report.old) }
{
    let told = tell_answer(report, answer);
    status_of(told, answer)
}

// The status of a process that came to this answer, where it was reported or could not be.
fn status_of(told: Told, answer: &Answer) -> u8
    ensures { result ≡ status_of told answer.now }
{
    if let Told::Failed = told {
        return UNTOLD;
    }
    match *answer {
        Answer::Exit(status) => status,
        Answer::Race { .. } => 237,
        Answer::Unended => 239,
        Answer::Deadlock => 240,
        Answer::Trap(_) => 241,
        Answer::Differ => 242,
        Answer::NoMajority => 243,
        Answer::Limit { .. } => 244,
        Answer::SinkFailed { .. } => 245,
        Answer::StoreFailed => 246,
        Answer::BadExe(_) => 247,
        Answer::BadFaults { .. } => 248,
        Answer::BadWords => 249,
        Answer::NoMemory => 250,
        Answer::TooLong(_) => 252,
        Answer::BadPlan { .. } => 253,
        Answer::NoStep { .. } => 254,
        Answer::NoRace => 0,
        Answer::Other(_) => 238,
    }
}
