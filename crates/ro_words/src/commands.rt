//! Commands, and the words that spell them.
ghost use Rattle.clap.specs.Faults.{fault_of, is_simple_and_free};
ghost use Rattle.clap.specs.Matches.{first_value, found_of, one_text};
ghost use Rattle.clap.specs.Simple.{app_of, subcommand_of, subcommand_rows_of};
ghost use Rattle.clap.specs.Values.{bool_text, kind_of};
ghost use Rattle.clap.specs.Walk.{Row, first_of, one_of};
ghost use Rattle.ro_settings.specs.Ranges.{InRange};
ghost use Rattle.ro_words.specs.Commands.{AuditFits, Fits, asked_by, asked_run, audit_by, audit_given, audit_of, audited_run, bench_given, command_of, inject_given, kept_of, plain_given, plan_by, plan_given, races_given, refusal_of, run_by, run_given, suits_mode};
ghost use Rattle.ro_words.specs.Uses.{Text, is_word, no_flags, texts_of};
ghost use Rattle.std.specs.List.{list_all};
ghost use Rattle.std.specs.Prelude.{◌≡◌, ◌≢◌, ◌⊎◌, Bool, List, IfErr, IfOk, IfSome, None, Some, [], codes, drop, false, option_map, true};

use crate::grammar::{audit_line, grammar};
use crate::settings::{
    Said, maybe_within, mode_for, number_in, said_in, settings_of, small_number_within,
};
use crate::shapes::are_words;
use clap::ArgMatches;
use clap::error::ErrorKind;
use ro_settings::{Mode, Settings};
use std::alloc::{AllocError, Global};

/// How many steps a cooperative run may have at most. Each time that a mutex is got takes one, and is counted in 32 bits.
const MOST_TOGETHER: u64 = 4_000_000_000;

/// What a command line asks for.
#[derive(Clone, Copy, PartialEq, Eq, Debug)]
pub enum Command<'a> {
    /// To run an executable as replicas.
    Run(RunCommand<'a>),
    /// To run the plan of a journal on the unreplicated machine.
    Plain(PlanCommand<'a>),
    /// To look for the first race of the plan of a journal.
    Races(PlanCommand<'a>),
    /// To draw faults.
    Inject(InjectCommand<'a>),
    /// To run a made executable as replicas.
    Bench(BenchCommand),
}

/// A run that is asked for.
#[derive(Clone, Copy, PartialEq, Eq, Debug)]
pub struct RunCommand<'a> {
    /// The name of the executable.
    pub executable: &'a str,
    /// The name of the file with the input, if there is any.
    pub input: Option<&'a str>,
    /// The name of the file with the faults, if there are any.
    pub faults: Option<&'a str>,
    pub settings: Settings,
    /// What is to be reported of the journal.
    pub kept: Kept,
}

/// What is to be reported of a run's journal.
#[derive(Clone, Copy, PartialEq, Eq, Debug)]
pub enum Kept {
    Nothing,
    /// The journal.
    Journal,
    /// The journal, with a head that says of what run it is.
    Record,
}

/// A journal that is to be audited.
#[derive(Clone, Copy, PartialEq, Eq, Debug)]
pub struct AuditCommand<'a> {
    /// The name of the executable.
    pub executable: &'a str,
    /// The name of the file with the input, if there is any.
    pub input: Option<&'a str>,
    /// The name of the file with the faults, if there are any.
    pub faults: Option<&'a str>,
    /// What is said of the run's settings.
    pub said: Said,
    /// The name of the file with the journal.
    pub journal: &'a str,
    /// Whether JSON is asked for.
    pub json: bool,
}

impl<'a> AuditCommand<'a> {
    /// The run of the audit's files with these settings.
    pub fn run(&self, settings: Settings) -> RunCommand<'a>
        ensures { run_by result ≡ audited_run (audit_by self.now) settings }
    {
        RunCommand {
            executable: self.executable,
            input: self.input,
            faults: self.faults,
            settings,
            kept: Kept::Nothing,
        }
    }
}

/// The plan of a journal that is to be followed on the unreplicated machine.
#[derive(Clone, Copy, PartialEq, Eq, Debug)]
pub struct PlanCommand<'a> {
    /// The name of the executable.
    pub executable: &'a str,
    /// The name of the file with the journal.
    pub plan: &'a str,
    /// The name of the file with the input, if there is any.
    pub input: Option<&'a str>,
}

/// Faults that are to be drawn.
#[derive(Clone, Copy, PartialEq, Eq, Debug)]
pub struct InjectCommand<'a> {
    /// The number that the draws hang on.
    pub seed: u64,
    /// How many are to be drawn.
    pub count: u32,
    /// The name of the executable in whose bytes they may strike.
    pub executable: &'a str,
    /// The replica in which all are to strike, if it is named.
    pub replica: Option<u32>,
}

/// A made executable that is to be run.
#[derive(Clone, Copy, PartialEq, Eq, Debug)]
pub struct BenchCommand {
    /// The number by which it is made.
    pub seed: u64,
    /// How many rounds each of its threads does.
    pub size: u32,
}

/// Why words give no command.
#[derive(Clone, Copy, PartialEq, Eq, Debug, Drop)]
pub enum WordsError {
    /// They spell none.
    Bad,
    /// There is no memory to read them.
    NoMemory,
}

impl From<AllocError> for WordsError {
    ghost use Rattle.ro_words.specs.declared.commands.WordsError.TheVariants.{NoMemory};

    ghost from_gives = { λ _ refusal. refusal ≡ NoMemory };

    fn from(_error: AllocError) -> WordsError {
        WordsError::NoMemory
    }
}

impl From<clap::Error> for WordsError {
    ghost from_gives = { λ error refusal. refusal ≡ refusal_of (kind_of error) };

    fn from(error: clap::Error) -> WordsError {
        match error.kind() {
            ErrorKind::OutOfMemory => WordsError::NoMemory,
            _ => WordsError::Bad,
        }
    }
}

/// The command that the words spell, of which the first is the program's name.
pub fn parse_words<'a>(alloc: Global, words: &'a [&'a str]) -> Result<Command<'a>, WordsError>
    ensures spelled { IfOk result (λ command. command_of (texts_of words.entry.now) ≡ Some (asked_by command)) }
    ensures refused { IfErr result (λ error. (error ≡ WordsError.NoMemory) ⊎ (command_of (texts_of words.entry.now) ≡ None)) }
    ensures in_range { IfOk result (λ command. Fits (asked_by command)) }
{
    let matches = matches_of(grammar(alloc)?, words)?;
    command_in(&matches).ok_or(WordsError::Bad)
}

/// The audit that the words spell, of which the first is the program's name.
pub fn parse_audit<'a>(alloc: Global, words: &'a [&'a str]) -> Result<AuditCommand<'a>, WordsError>
    ensures spelled { IfOk result (λ audit. audit_of (texts_of words.entry.now) ≡ Some (audit_by audit)) }
    ensures refused { IfErr result (λ error. (error ≡ WordsError.NoMemory) ⊎ (audit_of (texts_of words.entry.now) ≡ None)) }
    ensures in_range { IfOk result (λ audit. AuditFits (audit_by audit)) }
{
    let matches = matches_of(audit_line(alloc)?, words)?;
    audit_in(&matches).ok_or(WordsError::Bad)
}

// What `clap` finds in the words, where each of them may stand in a command.
fn matches_of<'a>(
    grammar: clap::Command<'a>,
    words: &'a [&'a str],
) -> Result<ArgMatches<'a>, WordsError>
    requires { is_simple_and_free (app_of grammar) ≡ true }
    ensures words { IfOk result (λ matches. list_all is_word (drop 1 (texts_of words.entry.now)) ≡ true) }
    ensures parsed { IfOk result (λ matches. fault_of (app_of grammar.entry) (texts_of words.entry.now) ≡ []) }
    ensures rows { IfOk result (λ matches.
        subcommand_rows_of matches ≡ subcommand_of (app_of grammar.entry) (texts_of words.entry.now)) }
    ensures refused { IfErr result (λ error.
        (error ≡ WordsError.NoMemory)
        ⊎ ((list_all is_word (drop 1 (texts_of words.entry.now)) ≡ true) → (fault_of (app_of grammar.entry) (texts_of words.entry.now) ≢ []))) }
{
    if !are_words(words) {
        return Err(WordsError::Bad);
    }
    Ok(grammar.try_get_matches_from(words)?)
}

// The command that the matches ask for.
fn command_in<'a>(matches: &ArgMatches<'a>) -> Option<Command<'a>>
    ensures run { (rows : List Row) (flags : Text → Bool) → subcommand_rows_of matches.now ≡ Some (codes "run", rows)
        → one_of (codes "journal") rows ≡ Some (bool_text (flags (codes "journal"))) → one_of (codes "record") rows ≡ Some (bool_text (flags (codes "record")))
        → option_map asked_by result ≡ run_given (λ name. first_of name rows) flags }
    ensures plain { (rows : List Row) → subcommand_rows_of matches.now ≡ Some (codes "plain", rows)
        → option_map asked_by result ≡ plain_given (λ name. first_of name rows) no_flags }
    ensures races { (rows : List Row) → subcommand_rows_of matches.now ≡ Some (codes "races", rows)
        → option_map asked_by result ≡ races_given (λ name. first_of name rows) no_flags }
    ensures inject { (rows : List Row) → subcommand_rows_of matches.now ≡ Some (codes "inject", rows)
        → option_map asked_by result ≡ inject_given (λ name. first_of name rows) no_flags }
    ensures bench { (rows : List Row) → subcommand_rows_of matches.now ≡ Some (codes "bench", rows)
        → option_map asked_by result ≡ bench_given (λ name. first_of name rows) no_flags }
    ensures in_range { IfSome result (λ command. Fits (asked_by command)) }
{
    if let Some(run) = matches.subcommand_matches("run") {
        run_command(run)
    } else if let Some(plain) = matches.subcommand_matches("plain") {
        plain_command(plain)
    } else if let Some(races) = matches.subcommand_matches("races") {
        races_command(races)
    } else if let Some(inject) = matches.subcommand_matches("inject") {
        inject_command(inject)
    } else {
        bench_command(matches.subcommand_matches("bench")?)
    }
}

// The run that the matches ask for.
fn run_command<'a>(matches: &ArgMatches<'a>) -> Option<Command<'a>>
    ensures asked { (flags : Text → Bool) → one_text (found_of matches.now) (codes "journal") ≡ Some (bool_text (flags (codes "journal")))
        → one_text (found_of matches.now) (codes "record") ≡ Some (bool_text (flags (codes "record")))
        → option_map asked_by result ≡ run_given (first_value (found_of matches.now)) flags }
    ensures in_range { IfSome result (λ command. Fits (asked_by command)) }
{
    let run = run_in(matches, mode_for(matches)?, kept_in(matches)?)?;
    if suits_mode(&run) {
        Some(Command::Run(run))
    } else {
        None
    }
}

// What is to be reported of the journal, where no more than one of the flags is given.
fn kept_in(matches: &ArgMatches<'_>) -> Option<Kept>
    ensures { (journal recorded : Bool) → one_text (found_of matches.now) (codes "journal") ≡ Some (bool_text journal)
        → one_text (found_of matches.now) (codes "record") ≡ Some (bool_text recorded) → result ≡ kept_of journal recorded }
{
    match (matches.get_flag("journal"), matches.get_flag("record")) {
        (false, false) => Some(Kept::Nothing),
        (true, false) => Some(Kept::Journal),
        (false, true) => Some(Kept::Record),
        (true, true) => None,
    }
}

// Whether a run of its mode may have the faults, the scrubs and the steps that are asked for.
fn suits_mode(run: &RunCommand<'_>) -> bool
    ensures { result ≡ suits_mode (run_by run.now) }
{
    match run.settings.mode {
        Mode::Voted => true,
        Mode::Cooperative => {
            run.faults.is_none() && run.settings.scrub == 0 && run.settings.limit <= MOST_TOGETHER
        }
    }
}

// The audit that the matches ask for.
fn audit_in<'a>(matches: &ArgMatches<'a>) -> Option<AuditCommand<'a>>
    ensures audit { (rows : List Row) (flags : Text → Bool) → subcommand_rows_of matches.now ≡ Some (codes "audit", rows)
        → one_of (codes "json") rows ≡ Some (bool_text (flags (codes "json")))
        → option_map audit_by result ≡ audit_given (λ name. first_of name rows) flags }
    ensures in_range { IfSome result (λ audit. AuditFits (audit_by audit)) }
{
    audit_command(matches.subcommand_matches("audit")?)
}

// The same, of the words behind the command's name.
fn audit_command<'a>(matches: &ArgMatches<'a>) -> Option<AuditCommand<'a>>
    ensures asked { (flags : Text → Bool) → one_text (found_of matches.now) (codes "json") ≡ Some (bool_text (flags (codes "json")))
        → option_map audit_by result ≡ audit_given (first_value (found_of matches.now)) flags }
    ensures in_range { IfSome result (λ audit. AuditFits (audit_by audit)) }
{
    Some(AuditCommand {
        executable: matches.get_str("exe")?,
        input: matches.get_str("input"),
        faults: matches.get_str("faults"),
        said: said_in(matches)?,
        journal: matches.get_str("journal")?,
        json: matches.get_flag("json"),
    })
}

// The run in the mode of an executable that the matches name, of which so much is to be reported.
fn run_in<'a>(matches: &ArgMatches<'a>, mode: Mode, kept: Kept) -> Option<RunCommand<'a>>
    ensures asked { option_map run_by result ≡ asked_run (Some mode) (Some kept) (first_value (found_of matches.now)) }
    ensures in_range { IfSome result (λ run. InRange run.settings) }
    ensures in_mode { IfSome result (λ run. run.settings.mode ≡ mode) }
{
    Some(RunCommand {
        executable: matches.get_str("exe")?,
        input: matches.get_str("input"),
        faults: matches.get_str("faults"),
        settings: settings_of(matches, mode)?,
        kept,
    })
}

// The run of a plan that the matches ask for.
fn plain_command<'a>(matches: &ArgMatches<'a>) -> Option<Command<'a>>
    ensures asked { option_map asked_by result ≡ plain_given (first_value (found_of matches.now)) no_flags }
    ensures in_range { IfSome result (λ command. Fits (asked_by command)) }
{
    Some(Command::Plain(plan_command(matches)?))
}

// The search for a race that the matches ask for.
fn races_command<'a>(matches: &ArgMatches<'a>) -> Option<Command<'a>>
    ensures asked { option_map asked_by result ≡ races_given (first_value (found_of matches.now)) no_flags }
    ensures in_range { IfSome result (λ command. Fits (asked_by command)) }
{
    Some(Command::Races(plan_command(matches)?))
}

// The plan that the matches name, and what it is to be followed on.
fn plan_command<'a>(matches: &ArgMatches<'a>) -> Option<PlanCommand<'a>>
    ensures { option_map plan_by result ≡ plan_given (first_value (found_of matches.now)) }
{
    Some(PlanCommand {
        executable: matches.get_str("exe")?,
        plan: matches.get_str("plan")?,
        input: matches.get_str("input"),
    })
}

// The draw that the matches ask for.
fn inject_command<'a>(matches: &ArgMatches<'a>) -> Option<Command<'a>>
    ensures asked { option_map asked_by result ≡ inject_given (first_value (found_of matches.now)) no_flags }
    ensures in_range { IfSome result (λ command. Fits (asked_by command)) }
{
    Some(Command::Inject(InjectCommand {
        seed: number_in(matches.get_str("seed")?)?,
        count: small_number_within(matches.get_str("count")?, 1, 256)?,
        executable: matches.get_str("exe")?,
        replica: maybe_within(matches.get_str("replica"), 0, 4)?,
    }))
}

// The run of a made executable that the matches ask for.
fn bench_command<'a>(matches: &ArgMatches<'a>) -> Option<Command<'a>>
    ensures asked { option_map asked_by result ≡ bench_given (first_value (found_of matches.now)) no_flags }
    ensures in_range { IfSome result (λ command. Fits (asked_by command)) }
{
    Some(Command::Bench(BenchCommand {
        seed: number_in(matches.get_str("seed")?)?,
        size: small_number_within(matches.get_str("size")?, 1, 2_000)?,
    }))
}
