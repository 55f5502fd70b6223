//! Whether an audit says of a run what the record of it does.
ghost use Rattle.std.specs.Prelude.{◌≡◌, Some, None, IfErr, IfOk, IfSome};
ghost use Rattle.ro_settings.specs.Ranges.{InRange};
ghost use Rattle.ro_settings.specs.declared.Mode.TheVariants.{Voted};
ghost use Rattle.ro_tell.specs.Agreeing.{other_files as other_files_of, other_number as other_number_of, other_said, other_setting as other_setting_of, settings_for as settings_for_of, unless_same as unless_same_of};
ghost use Rattle.ro_tell.specs.Causes.{RefusesSaid};
ghost use Rattle.ro_words.specs.Commands.{SaidInRange};

use ro_journal_text::{DIGEST_BYTES, Recorded};
use ro_report::{Answer, HeadLine};
use ro_settings::{Mode, Settings};
use ro_words::Said;

// The settings that a journal is judged by, but for its mode: those of its record, where nothing else is said, or those that are said.
pub(crate) fn settings_for(said: &Said, recorded: Option<Recorded>) -> Result<Settings, Answer>
    requires said { SaidInRange said.now }
    requires recorded { IfSome recorded (λ r. InRange r.settings) }
    ensures settings { IfOk result (λ settings. settings ≡ settings_for_of said.now recorded) }
    ensures same { IfOk result (λ _. other_said said.now recorded ≡ None) }
    ensures refused { IfErr result (RefusesSaid said.now recorded) }
    ensures in_range { IfOk result InRange }
    ensures voted { IfOk result (λ settings. settings.mode ≡ Voted) }
{
    let Some(recorded) = recorded else {
        return Ok(said.settings(Mode::Voted));
    };
    match other_setting(said, &recorded.settings) {
        Some(line) => Err(Answer::Other(line)),
        None => Ok(Settings {
            mode: Mode::Voted,
            ..recorded.settings
        }),
    }
}

// The first line of a head that has another number than is said.
fn other_setting(said: &Said, settings: &Settings) -> Option<HeadLine>
    ensures { result ≡ other_setting_of said.now settings.now }
{
    other_small(HeadLine::Replicas, said.replicas, settings.replicas).or(other_small(
        HeadLine::Drivers,
        said.drivers,
        settings.drivers,
    ).or(other_small(HeadLine::Watchdog, said.watchdog, settings.watchdog).or(other_small(
        HeadLine::Quantum,
        said.quantum,
        settings.quantum,
    ).or(other_number(HeadLine::Limit, said.limit, settings.limit).or(other_number(
        HeadLine::Scrub,
        said.scrub,
        settings.scrub,
    ))))))
}

// The line, where another number is said than its own.
fn other_number(line: HeadLine, said: Option<u64>, number: u64) -> Option<HeadLine>
    ensures { result ≡ other_number_of line said number }
{
    match said {
        Some(said) if said != number => Some(line),
        _ => None,
    }
}

// The same of a number of 32 bits.
fn other_small(line: HeadLine, said: Option<u32>, number: u32) -> Option<HeadLine>
    ensures { result ≡ other_number_of line said number }
{
    match said {
        Some(said) if said != number => Some(line),
        _ => None,
    }
}

// The first line of a head that has another digest than the files of a job.
pub(crate) fn other_files(recorded: &Recorded, job: &Recorded) -> Option<HeadLine>
    ensures { result ≡ other_files_of (Some recorded.now) job.now }
{
    unless_same(HeadLine::Exe, &recorded.exe, &job.exe).or(unless_same(
        HeadLine::Input,
        &recorded.input,
        &job.input,
    ).or(unless_same(HeadLine::Faults, &recorded.faults, &job.faults)))
}

// The line, unless the digests are the same.
fn unless_same(
    line: HeadLine,
    one: &[u8; DIGEST_BYTES],
    other: &[u8; DIGEST_BYTES],
) -> Option<HeadLine>
    ensures { result ≡ unless_same_of line one.now other.now }
{
    if *one == *other { None } else { Some(line) }
}
