//! The answer of a command.
ghost use Rattle.std.specs.Prelude.{◌≡◌, ◌≤◌, ◌++◌, length, codes, decimal};
ghost use Rattle.ro_report.specs.Report.{answer_text, head_word};

use ro_elf::ExeError;
use ro_event::TrapCause;
use ro_faults::FaultsCode;
use ro_journal_text::JournalCode;
use ro_text::{Line, Text};

/// A file that a command names.
#[derive(Clone, Copy, Debug, PartialEq, Eq)]
pub enum FileKind {
    /// The executable.
    Exe,
    /// The input.
    Input,
    /// The list of faults.
    Faults,
    /// The journal whose plan is to be followed.
    Plan,
}

/// A line of a record's head that says a number or a digest.
#[derive(Clone, Copy, Debug, PartialEq, Eq)]
pub enum HeadLine {
    Replicas,
    Drivers,
    Watchdog,
    Quantum,
    Limit,
    Scrub,
    Exe,
    Input,
    Faults,
}

/// How a command ended.
#[derive(Clone, Copy, Debug, PartialEq, Eq)]
pub enum Answer {
    /// The program ended with this status.
    Exit(u8),
    /// No thread of the program could go on.
    Deadlock,
    /// The program could not go on, for the cause of this number.
    Trap(TrapCause),
    /// The plan was run, and the program has not ended and could go on.
    Unended,
    /// Two replicas differed.
    Differ,
    /// No more than half of the replicas agreed, at a vote or at a scrub.
    NoMajority,
    /// The run had so many steps, and those that would have come next would have passed the limit; or a plan has too many,
    /// so many before an entry, and so many more by that entry.
    Limit { steps: u64, next: u64 },
    /// The output's sink failed, and took so many bytes of the last write.
    SinkFailed { taken: u32 },
    /// A file could not be fetched.
    StoreFailed,
    /// The file is not an executable that is accepted.
    BadExe(ExeError),
    /// The list of faults is bad in this line.
    BadFaults { line: u32, code: FaultsCode },
    /// The journal of a plan is bad in this line.
    BadPlan { line: u64, code: JournalCode },
    /// The record that the command names is of another run: what the command says is not what this line of its head says.
    Other(HeadLine),
    /// The plan's step at this place, counted from 0, does not exist.
    NoStep { place: u64 },
    /// No step of the plan has a race.
    NoRace,
    /// The first race of the plan: the steps at the places `i` and `j`, counted from 0, access the byte at an address.
    Race { i: u64, j: u64, byte: u64 },
    /// The words are of no command.
    BadWords,
    /// A file has more bytes than are read.
    TooLong(FileKind),
    /// There was no memory.
    NoMemory,
}

/// The line that says how a command ended.
pub fn answer_line(answer: &Answer) -> Line
    ensures { result ≡ answer_text answer.now }
{
    match *answer {
        Answer::Exit(status) => numbered("answer exit ", u64::from(status)),
        Answer::Deadlock => fixed("answer deadlock"),
        Answer::Trap(cause) => numbered("answer trap ", u64::from(cause.number())),
        Answer::Unended => fixed("answer unended"),
        Answer::Differ => fixed("answer differ"),
        Answer::NoMajority => fixed("answer no-majority"),
        Answer::Limit { steps, next } => twice_numbered("answer limit ", steps, next),
        Answer::SinkFailed { taken } => numbered("answer sink ", u64::from(taken)),
        Answer::StoreFailed => fixed("answer store"),
        Answer::BadExe(error) => numbered("answer exe ", u64::from(error.number())),
        Answer::BadFaults { line, code } => {
            twice_numbered("answer faults ", u64::from(line), u64::from(code.code()))
        }
        Answer::BadPlan { line, code } => {
            twice_numbered("answer plan ", line, u64::from(code.code()))
        }
        Answer::Other(line) => other(line),
        Answer::NoStep { place } => numbered("answer no-step ", place),
        Answer::NoRace => fixed("answer no-race"),
        Answer::Race { i, j, byte } => thrice_numbered("answer race ", i, j, byte),
        Answer::BadWords => fixed("answer words"),
        Answer::TooLong(_) => fixed("answer too-long"),
        Answer::NoMemory => fixed("answer no-memory"),
    }
}

// The line of an answer that names a line of a record's head.
fn other(line: HeadLine) -> Line
    ensures { result ≡ codes "answer other " ++ head_word line ++ codes "\n" }
{
    let mut text = Text::new();
    text.push("answer other ");
    text.push(head_word(line));
    text.end()
}

// The name of a line of a record's head.
fn head_word(line: HeadLine) -> &'static str
    ensures word { result.now ≡ head_word line }
    ensures short { length result.now ≤ 8 }
{
    match line {
        HeadLine::Replicas => "replicas",
        HeadLine::Drivers => "drivers",
        HeadLine::Watchdog => "watchdog",
        HeadLine::Quantum => "quantum",
        HeadLine::Limit => "limit",
        HeadLine::Scrub => "scrub",
        HeadLine::Exe => "exe",
        HeadLine::Input => "input",
        HeadLine::Faults => "faults",
    }
}

// The line of these words.
fn fixed(words: &str) -> Line
    requires { length words.now ≤ 100 }
    ensures { result ≡ words.now ++ codes "\n" }
{
    let mut text = Text::new();
    text.push(words);
    text.end()
}

// The line of these words and a number.
fn numbered(words: &str, number: u64) -> Line
    requires { length words.now ≤ 100 }
    ensures { result ≡ words.now ++ decimal number ++ codes "\n" }
{
    let mut text = Text::new();
    text.push(words);
    text.push_number(number);
    text.end()
}

// The line of these words and two numbers.
fn twice_numbered(words: &str, one: u64, other: u64) -> Line
    requires { length words.now ≤ 100 }
    ensures { result ≡ words.now ++ decimal one ++ codes " " ++ decimal other ++ codes "\n" }
{
    let mut text = Text::new();
    text.push(words);
    text.push_number(one);
    text.add_number(other);
    text.end()
}

// The line of these words and three numbers.
fn thrice_numbered(words: &str, one: u64, second: u64, third: u64) -> Line
    requires { length words.now ≤ 90 }
    ensures { result ≡ words.now ++ decimal one ++ codes " " ++ decimal second ++ codes " " ++ decimal third ++ codes "\n" }
{
    let mut text = Text::new();
    text.push(words);
    text.push_number(one);
    text.add_number(second);
    text.add_number(third);
    text.end()
}
