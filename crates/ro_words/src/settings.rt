//! The settings that options give, and the other numbers of commands.
ghost use Rattle.clap.specs.Matches.{first_value, found_of};
ghost use Rattle.ro_words.specs.Commands.{SaidInRange, maybe_for as maybe_for_of, maybe_replicas as maybe_replicas_of, said_given, settings_said, mode_for as mode_in, mode_of_text, number_in as number_of, number_for as number_of_option, maybe_number, replicas_only, settings_of as settings_in};
ghost use Rattle.ro_settings.specs.Ranges.{InRange, IsFrom, IsIn, IsReplicas, range_of, replicas_range};
ghost use Rattle.std.specs.Prelude.{◌≡◌, ◌<◌, ◌^◌, IfSome, option_map};

use clap::ArgMatches;
use ro_settings::{
    DRIVERS, LIMIT, Mode, NumberOption, QUANTUM, REPLICAS, SCRUB, Settings, WATCHDOG, may_run,
};

/// The numbers that are said of a run's settings.
#[derive(Clone, Copy, PartialEq, Eq, Debug)]
pub struct Said {
    pub replicas: Option<u32>,
    pub drivers: Option<u32>,
    pub watchdog: Option<u32>,
    pub quantum: Option<u32>,
    pub limit: Option<u64>,
    pub scrub: Option<u64>,
}

impl Said {
    /// The settings of a run in the mode, where what is not said is as usual.
    pub fn settings(&self, mode: Mode) -> Settings
        ensures settings { result ≡ settings_said mode self.now }
        ensures in_range { SaidInRange self.now → InRange result }
    {
        let usual = Settings::DEFAULT;
        Settings {
            mode,
            replicas: self.replicas.unwrap_or(usual.replicas),
            drivers: self.drivers.unwrap_or(usual.drivers),
            watchdog: self.watchdog.unwrap_or(usual.watchdog),
            quantum: self.quantum.unwrap_or(usual.quantum),
            limit: self.limit.unwrap_or(usual.limit),
            scrub: self.scrub.unwrap_or(usual.scrub),
        }
    }
}

// The numbers that are said, where each is one and lies in its range.
pub(crate) fn said_in(matches: &ArgMatches<'_>) -> Option<Said>
    ensures given { result ≡ said_given (first_value (found_of matches.now)) }
    ensures in_range { IfSome result SaidInRange }
{
    Some(Said {
        replicas: maybe_replicas(matches)?,
        drivers: maybe_small_for(matches, &DRIVERS)?,
        watchdog: maybe_small_for(matches, &WATCHDOG)?,
        quantum: maybe_small_for(matches, &QUANTUM)?,
        limit: maybe_for(matches, &LIMIT)?,
        scrub: maybe_for(matches, &SCRUB)?,
    })
}

// How many replicas are said.
fn maybe_replicas(matches: &ArgMatches<'_>) -> Option<Option<u32>>
    ensures given { result ≡ maybe_replicas_of (maybe_for_of replicas_range (first_value (found_of matches.now))) }
    ensures in_range { IfSome result (λ said. IfSome said IsReplicas) }
{
    match maybe_small_for(matches, &REPLICAS)? {
        Some(replicas) if !may_run(replicas) => None,
        said => Some(said),
    }
}

// The number that is said for the option.
fn maybe_for(matches: &ArgMatches<'_>, option: &NumberOption) -> Option<Option<u64>>
    ensures given { result ≡ maybe_for_of (range_of option.now) (first_value (found_of matches.now)) }
    ensures in_range { IfSome result (λ said. IfSome said (IsIn (range_of option.now))) }
{
    match matches.get_str(option.name) {
        Some(text) => Some(Some(number_within(text, option.least, option.most)?)),
        None => Some(None),
    }
}

// The same of an option whose numbers have 32 bits.
fn maybe_small_for(matches: &ArgMatches<'_>, option: &NumberOption) -> Option<Option<u32>>
    requires { option.now.most < 2 ^ 32 }
    ensures given { result ≡ maybe_for_of (range_of option.now) (first_value (found_of matches.now)) }
    ensures in_range { IfSome result (λ said. IfSome said (IsIn (range_of option.now))) }
{
    match maybe_for(matches, option)? {
        Some(number) => Some(Some(number as u32)),
        None => Some(None),
    }
}

// The mode that is asked for, or the usual one.
pub(crate) fn mode_for(matches: &ArgMatches<'_>) -> Option<Mode>
    ensures { result ≡ mode_in (first_value (found_of matches.now)) }
{
    match matches.get_str("mode") {
        Some(text) => mode_named(text),
        None => Some(Mode::Voted),
    }
}

// The mode that has the name.
fn mode_named(name: &str) -> Option<Mode>
    ensures { result ≡ mode_of_text name.now }
{
    if name == "vote" {
        Some(Mode::Voted)
    } else if name == "coop" {
        Some(Mode::Cooperative)
    } else {
        None
    }
}

// The settings of a run in the mode, where each number is one and lies in its range.
pub(crate) fn settings_of(matches: &ArgMatches<'_>, mode: Mode) -> Option<Settings>
    ensures given { result ≡ settings_in (Some mode) (first_value (found_of matches.now)) }
    ensures in_range { IfSome result InRange }
    ensures in_mode { IfSome result (λ settings. settings.mode ≡ mode) }
{
    Some(Settings {
        mode,
        replicas: replicas_of(matches)?,
        drivers: small_number_for(matches, &DRIVERS)?,
        watchdog: small_number_for(matches, &WATCHDOG)?,
        quantum: small_number_for(matches, &QUANTUM)?,
        limit: number_for(matches, &LIMIT)?,
        scrub: number_for(matches, &SCRUB)?,
    })
}

// How many replicas are asked for.
fn replicas_of(matches: &ArgMatches<'_>) -> Option<u32>
    ensures given { result ≡ replicas_only (number_of_option replicas_range (first_value (found_of matches.now))) }
    ensures in_range { IfSome result IsReplicas }
{
    let replicas = small_number_for(matches, &REPLICAS)?;
    if may_run(replicas) {
        Some(replicas)
    } else {
        None
    }
}

// The number that is given for the option, or its usual one.
fn number_for(matches: &ArgMatches<'_>, option: &NumberOption) -> Option<u64>
    requires { IsIn (range_of option.now) option.now.usual }
    ensures given { result ≡ number_of_option (range_of option.now) (first_value (found_of matches.now)) }
    ensures in_range { IfSome result (IsIn (range_of option.now)) }
{
    match matches.get_str(option.name) {
        Some(text) => number_within(text, option.least, option.most),
        None => Some(option.usual),
    }
}

// The same of an option whose numbers have 32 bits.
fn small_number_for(matches: &ArgMatches<'_>, option: &NumberOption) -> Option<u32>
    requires usual { IsIn (range_of option.now) option.now.usual }
    requires most { option.now.most < 2 ^ 32 }
    ensures given { result ≡ number_of_option (range_of option.now) (first_value (found_of matches.now)) }
    ensures in_range { IfSome result (IsIn (range_of option.now)) }
{
    let number = number_for(matches, option)?;
    Some(number as u32)
}

// The number that the text writes.
pub(crate) fn number_in(text: &str) -> Option<u64>
    ensures { result ≡ number_of 0 u64.MAX text.now }
{
    text.parse::<u64>().ok()
}

// The number that the text writes, where it lies between the two.
fn number_within(text: &str, least: u64, most: u64) -> Option<u64>
    ensures read { result ≡ number_of least most text.now }
    ensures in_range { IfSome result (IsFrom least most) }
{
    let number = number_in(text)?;
    if number < least || most < number {
        return None;
    }
    Some(number)
}

// The same of a number of 32 bits.
pub(crate) fn small_number_within(text: &str, least: u32, most: u32) -> Option<u32>
    ensures { result ≡ number_of least most text.now }
{
    let number = number_within(text, u64::from(least), u64::from(most))?;
    Some(number as u32)
}

// The same of a text that need not be given.
pub(crate) fn maybe_within(text: Option<&str>, least: u32, most: u32) -> Option<Option<u32>>
    ensures { result ≡ maybe_number least most (option_map (λ t. t.now) text.entry) }
{
    match text {
        Some(text) => Some(Some(small_number_within(text, least, most)?)),
        None => Some(None),
    }
}
