//! What an audit finds, as data.
use ro_audit::Why;
use ro_event::{Stop, TrapCause};
use ro_faults::Fault;
use ro_journal::Entry;
use serde::Serialize;
use std::fmt;

/// All that is told of a journal.
#[derive(Drop, Serialize)]
pub struct Findings {
    /// How many entries it has.
    pub entries: usize,
    #[serde(flatten)]
    pub verdict: Verdict,
    /// The copies that its votes and scrubs made; of an illegal one those before the first entry that is not allowed.
    pub copies: Vec<CopyMade>,
}

/// Whether a journal is legal.
#[derive(Drop, Serialize)]
#[serde(tag = "verdict", rename_all = "lowercase")]
pub enum Verdict {
    /// The length of its plan, how the run ended, if it did, and the first entry that is not what the run does next, if one is not.
    Legal {
        steps: u64,
        end: Option<Ended>,
        odd: Option<Odd>,
    },
    /// The first entry that is not allowed, and why it is not.
    Illegal {
        place: usize,
        #[serde(serialize_with = "crate::json::write_entry")]
        entry: Entry,
        #[serde(serialize_with = "crate::json::write_why")]
        why: Why,
    },
}

/// An entry that is allowed, and is not what the run does next.
#[derive(Clone, Copy, Debug, PartialEq, Eq, Serialize)]
pub struct Odd {
    /// Its place, from 0.
    pub place: usize,
    #[serde(serialize_with = "crate::json::write_entry")]
    pub entry: Entry,
}

/// How a run ended.
#[derive(Drop)]
pub enum Ended {
    /// The program exited with this status.
    Exit(u8),
    /// No thread can go on: for what each waits.
    Deadlock(Vec<Waiting>),
    /// The program trapped by this cause, there.
    Trap {
        cause: TrapCause,
        at: Option<Trapped>,
    },
    /// The plan's steps, how many more would pass the limit, and where each thread stands.
    Limit {
        steps: u64,
        next: u64,
        threads: Vec<Standing>,
    },
    /// The replicas differ: two of a run by votes, or those of a cooperative run.
    Differ(Split),
    /// No more than half of the replicas agree.
    NoMajority(Split),
    /// The output failed, and took so many bytes of the last write.
    Sink(u32),
}

/// In what replicas differ of which no more than half agree.
#[derive(Drop)]
pub enum Split {
    /// At a vote: in these parts of their views.
    AtVote(Vec<Field>),
    /// At a scrub: in these parts of threads, and in the pages that begin at these addresses.
    AtScrub {
        threads: Vec<ThreadFields>,
        pages: Vec<u32>,
    },
}

/// A thread, and the parts of it that are not the same in all replicas.
#[derive(Drop, Serialize)]
pub struct ThreadFields {
    pub thread: u32,
    pub fields: Vec<Field>,
}

/// For what a thread waits.
#[derive(Debug, PartialEq, Eq, Drop, Serialize)]
pub struct Waiting {
    pub thread: u32,
    #[serde(flatten)]
    pub state: State,
}

/// What holds a thread up where no thread can go on.
#[derive(Debug, PartialEq, Eq, Drop)]
pub enum State {
    /// It has exited.
    Exited,
    /// It waits for this mutex, and which thread holds that.
    Locks {
        mutex: Variable,
        owner: Option<u32>,
    },
    /// It waits for this condition variable, whether that was signalled to it, and then for this mutex, and which thread holds
    /// that.
    Waits {
        condition: Variable,
        signalled: bool,
        mutex: Variable,
        owner: Option<u32>,
    },
    /// It waits until this thread has exited.
    Joins(u32),
    /// It is blocked on another call.
    Blocked,
    /// It is not blocked.
    Unblocked,
}

/// A place in a program.
#[derive(Debug, PartialEq, Eq, Drop, Serialize)]
pub struct Place {
    pub pc: u32,
    /// The function that holds it, if one is known.
    pub function: Option<Symbol>,
}

/// A mutex or a condition variable of a program.
#[derive(Debug, PartialEq, Eq, Drop)]
pub struct Variable {
    pub address: u32,
    /// The data object that holds it, if one is known.
    pub object: Option<Symbol>,
}

/// A symbol's name, and how far behind its start an address is, in bytes.
#[derive(Debug, PartialEq, Eq, Drop, Serialize)]
pub struct Symbol {
    pub name: String,
    pub offset: u32,
}

impl fmt::Display for Place {
    fn fmt<W: fmt::Write>(&self, f: &mut fmt::Formatter<W>) -> fmt::Result {
        write_address(f, self.pc, &self.function)
    }
}

impl fmt::Display for Variable {
    fn fmt<W: fmt::Write>(&self, f: &mut fmt::Formatter<W>) -> fmt::Result {
        write_address(f, self.address, &self.object)
    }
}

// An address, and behind it the symbol that holds it, if one is known.
fn write_address<W: fmt::Write>(
    f: &mut fmt::Formatter<W>,
    address: u32,
    symbol: &Option<Symbol>,
) -> fmt::Result {
    write!(f, "{address:08x}")?;
    match symbol {
        Some(symbol) => write!(f, " ({symbol})"),
        None => Ok(()),
    }
}

impl fmt::Display for Symbol {
    fn fmt<W: fmt::Write>(&self, f: &mut fmt::Formatter<W>) -> fmt::Result {
        let name = self.name.as_str();
        let offset = self.offset;
        match offset {
            0 => write!(f, "{name}"),
            _ => write!(f, "{name}+{offset:x}"),
        }
    }
}

/// A thread, and where and at what it stands still, if it does and has not exited.
#[derive(Drop)]
pub struct Standing {
    pub thread: u32,
    pub at: Option<(Place, Stop)>,
}

/// A thread that trapped.
#[derive(Drop)]
pub struct Trapped {
    pub thread: u32,
    pub place: Place,
    /// The registers x1 to x31.
    pub registers: [u32; 31],
    /// The instruction there, if its word can be read.
    pub instruction: Option<Instruction>,
}

/// The instruction at a place.
#[derive(Drop, Serialize)]
pub struct Instruction {
    pub word: u32,
    pub text: String,
    /// The address that it loads from or stores to.
    pub touched: Option<u32>,
    /// The memory that was given on demand in which that address lies, or behind which.
    pub mapped: Option<Mapped>,
}

/// An address among those of memory that is given on demand: a range that was given, in which it lies, or the last one of them.
#[derive(Clone, Copy, Debug, PartialEq, Eq, Serialize)]
pub struct Mapped {
    pub start: u32,
    /// The address behind the range's last byte.
    pub end: u32,
    /// How far behind the range the address lies, where it lies in none.
    pub behind: Option<u32>,
}

/// A part of the views that is not the same in all replicas: what it is in each, in their order.
#[derive(Drop)]
pub enum Field {
    Pc(Vec<Place>),
    /// How many instructions the thread has retired since the last vote.
    Since(Vec<u32>),
    /// The register of this number.
    Register(u32, Vec<u32>),
    /// What the thread stands at.
    Stop(Vec<Stop>),
    /// What the thread writes: of how many bytes that is.
    Payload(Vec<usize>),
}

/// A part of a view.
#[derive(Clone, Copy, Debug, PartialEq, Eq)]
pub enum Part {
    /// The register of this number.
    Register(u32),
    Pc,
    /// How many instructions the thread has retired since the last vote.
    Since,
    /// What it stands at.
    Stop,
    /// What it writes.
    Payload,
}

/// A copy that a vote or a scrub made: a replica that lost became as the winner.
#[derive(Drop, Serialize)]
pub struct CopyMade {
    /// The place of the entry, from 0.
    pub place: usize,
    /// The replica that lost.
    pub replica: u32,
    /// In what it differed from the winner.
    #[serde(flatten)]
    pub differed: Differed,
    /// The faults that had struck the replica since it was last made a copy, or since the begin.
    pub undone: Vec<Strike>,
}

/// In what a replica differed from the winner.
#[derive(Drop)]
pub enum Differed {
    /// At a vote on this thread: in these parts of its views.
    AtVote {
        thread: u32,
        parts: Vec<Part>,
    },
    /// At a scrub: in these parts of threads, and in the pages that begin at these addresses.
    AtScrub {
        threads: Vec<ThreadParts>,
        pages: Vec<u32>,
    },
}

/// A thread, and parts of it.
#[derive(Drop)]
pub struct ThreadParts {
    pub thread: u32,
    pub parts: Vec<Part>,
}

/// A fault that struck.
#[derive(Clone, Copy, Debug, PartialEq, Eq, Serialize)]
pub struct Strike {
    #[serde(serialize_with = "crate::json::write_fault")]
    pub fault: Fault,
    /// How many instructions of its thread before.
    pub before: u64,
}
