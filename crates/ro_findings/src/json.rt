//! What an audit finds, as JSON.
use crate::findings::{
    Differed, Ended, Field, Findings, Instruction, Part, Place, Split, Standing, State, Symbol,
    ThreadFields, ThreadParts, Trapped,
};
use crate::lines::WithoutEnd;
use crate::registers::{Numbered, abi_name};
use ro_audit::Why;
use ro_event::{Call, Stop, Which};
use ro_faults::{Fault, fault_text};
use ro_journal::Entry;
use ro_journal_text::entry_text;
use serde::{Described, Serialize, Serializer};
use serde_json::to_value;
use std::alloc::{AllocError, Global};

impl Findings {
    /// What is told of a journal, as one object of JSON with a line end behind it. The keys of each object are in the order of
    /// the alphabet.
    ///
    /// # Errors
    /// Where there is no memory.
    pub fn json(&self, alloc: Global) -> Result<String, AllocError> {
        // What is written is texts, whole numbers and lists, all of which JSON has: only memory can be wanting.
        let Ok(value) = to_value(alloc, self) else {
            return Err(AllocError);
        };
        let mut text = value.to_string(alloc)?;
        text.push('\n')?;
        Ok(text)
    }
}

/// Writes an entry as its line.
pub(crate) fn write_entry<S: Serializer>(entry: &Entry, out: &mut S) -> Result<(), S::Error> {
    WithoutEnd(entry_text(entry)).serialize(out)
}

/// Writes a fault as its line.
pub(crate) fn write_fault<S: Serializer>(fault: &Fault, out: &mut S) -> Result<(), S::Error> {
    WithoutEnd(fault_text(fault)).serialize(out)
}

impl Described for WithoutEnd {}

impl Serialize for WithoutEnd {
    fn serialize<S: Serializer>(&self, out: &mut S) -> Result<(), S::Error> {
        out.collect_str(self)
    }
}

// Writes an object whose first key has a name, and with it the keys of what more is told.
fn write_named<T: Serialize, S: Serializer>(
    key: &str,
    name: &str,
    more: &T,
    out: &mut S,
) -> Result<(), S::Error> {
    out.begin_map(None)?;
    out.key(key)?;
    out.str(name)?;
    out.flatten_next()?;
    more.serialize(out)?;
    out.end_map()
}

// A key and its value, as an object.
#[derive(Clone, Copy)]
struct Member<'a, T>(&'a str, &'a T);

impl<T> Described for Member<'_, T> {}

impl<T: Serialize> Serialize for Member<'_, T> {
    fn serialize<S: Serializer>(&self, out: &mut S) -> Result<(), S::Error> {
        out.begin_map(Some(1))?;
        out.key(self.0)?;
        self.1.serialize(out)?;
        out.end_map()
    }
}

/// Writes why an entry is not allowed.
pub(crate) fn write_why<S: Serializer>(why: &Why, out: &mut S) -> Result<(), S::Error> {
    match why {
        Why::NotLendable => write_named("reason", "not_lendable", &(), out),
        Why::NotOut => write_named("reason", "not_out", &(), out),
        Why::Ran { count, hit } => {
            let (count, hit) = (*count, *hit);
            write_named("reason", "ran", &Ran { count, hit }, out)
        }
        Why::NoPut => write_named("reason", "no_put", &(), out),
        Why::NoPart => write_named("reason", "no_part", &(), out),
        Why::OtherGot => write_named("reason", "other_got", &(), out),
        Why::NoVote => write_named("reason", "no_vote", &(), out),
        Why::NoFree => write_named("reason", "no_free", &(), out),
        Why::NoScrub => write_named("reason", "no_scrub", &(), out),
        Why::Comes(entry) => {
            let line = WithoutEnd(entry_text(entry));
            write_named("reason", "comes", &Member("entry", &line), out)
        }
        Why::NoEnd => write_named("reason", "no_end", &(), out),
        Why::Behind => write_named("reason", "behind", &(), out),
    }
}

// What the run of a lease comes to.
#[derive(Clone, Copy, Serialize)]
struct Ran {
    count: u32,
    hit: u32,
}

impl Described for Ended {}

impl Serialize for Ended {
    fn serialize<S: Serializer>(&self, out: &mut S) -> Result<(), S::Error> {
        match self {
            Ended::Exit(status) => write_named("how", "exit", &Member("status", status), out),
            Ended::Deadlock(threads) => {
                write_named("how", "deadlock", &Member("threads", threads), out)
            }
            Ended::Trap { cause, at } => {
                let cause = cause.number();
                write_named("how", "trap", &Trap { cause, at }, out)
            }
            Ended::Limit {
                steps,
                next,
                threads,
            } => {
                let (steps, next) = (*steps, *next);
                let limit = Limit {
                    steps,
                    next,
                    threads,
                };
                write_named("how", "limit", &limit, out)
            }
            Ended::Differ(split) => write_named("how", "differ", split, out),
            Ended::NoMajority(split) => write_named("how", "no-majority", split, out),
            Ended::Sink(taken) => write_named("how", "sink", &Member("taken", taken), out),
        }
    }
}

// A trap, and where it was.
#[derive(Clone, Copy, Serialize)]
struct Trap<'a> {
    cause: u8,
    at: &'a Option<Trapped>,
}

impl Described for Trapped {}

impl Serialize for Trapped {
    fn serialize<S: Serializer>(&self, out: &mut S) -> Result<(), S::Error> {
        TrappedAt {
            thread: self.thread,
            place: &self.place,
            registers: &self.registers,
            abi_names: RegisterNames,
            instruction: &self.instruction,
        }
        .serialize(out)
    }
}

// A thread that trapped, as it is written.
#[derive(Clone, Copy, Serialize)]
struct TrappedAt<'a> {
    thread: u32,
    #[serde(flatten)]
    place: &'a Place,
    registers: &'a [u32; 31],
    abi_names: RegisterNames,
    instruction: &'a Option<Instruction>,
}

// The names of the registers x1 to x31.
#[derive(Clone, Copy)]
struct RegisterNames;

impl Described for RegisterNames {}

impl Serialize for RegisterNames {
    fn serialize<S: Serializer>(&self, out: &mut S) -> Result<(), S::Error> {
        out.begin_seq(Some(31))?;
        for number in 1..32 {
            abi_name(number).serialize(out)?;
        }
        out.end_seq()
    }
}

// The limit, and where each thread stands.
#[derive(Clone, Copy, Serialize)]
struct Limit<'a> {
    steps: u64,
    next: u64,
    threads: &'a Vec<Standing>,
}

impl Described for Split {}

impl Serialize for Split {
    fn serialize<S: Serializer>(&self, out: &mut S) -> Result<(), S::Error> {
        match self {
            Split::AtVote(fields) => Member("fields", fields).serialize(out),
            Split::AtScrub { threads, pages } => WholeFields { threads, pages }.serialize(out),
        }
    }
}

// In what replicas differ that were compared whole.
#[derive(Clone, Copy, Serialize)]
struct WholeFields<'a> {
    threads: &'a Vec<ThreadFields>,
    pages: &'a Vec<u32>,
}

impl Described for Differed {}

impl Serialize for Differed {
    fn serialize<S: Serializer>(&self, out: &mut S) -> Result<(), S::Error> {
        match self {
            Differed::AtVote { thread, parts } => VotedParts {
                thread: Some(*thread),
                differed: parts,
                abi_names: PartNames(parts.as_slice()),
            }
            .serialize(out),
            Differed::AtScrub { threads, pages } => ScrubbedParts {
                thread: None,
                differed: WholeParts { threads, pages },
            }
            .serialize(out),
        }
    }
}

// In what a replica differed at a vote on a thread, as it is written.
#[derive(Clone, Copy, Serialize)]
struct VotedParts<'a> {
    thread: Option<u32>,
    differed: &'a Vec<Part>,
    abi_names: PartNames<'a>,
}

// The same at a scrub, which is on no thread.
#[derive(Clone, Copy, Serialize)]
struct ScrubbedParts<'a> {
    thread: Option<u32>,
    differed: WholeParts<'a>,
}

// In what a replica differed that was compared whole.
#[derive(Clone, Copy, Serialize)]
struct WholeParts<'a> {
    threads: &'a Vec<ThreadParts>,
    pages: &'a Vec<u32>,
}

impl Described for ThreadParts {}

impl Serialize for ThreadParts {
    fn serialize<S: Serializer>(&self, out: &mut S) -> Result<(), S::Error> {
        NamedParts {
            thread: self.thread,
            parts: &self.parts,
            abi_names: PartNames(self.parts.as_slice()),
        }
        .serialize(out)
    }
}

// A thread and parts of it, as they are written.
#[derive(Clone, Copy, Serialize)]
struct NamedParts<'a> {
    thread: u32,
    parts: &'a Vec<Part>,
    abi_names: PartNames<'a>,
}

// The name of each part in the calling convention, if it is a register.
#[derive(Clone, Copy)]
struct PartNames<'a>(&'a [Part]);

impl Described for PartNames<'_> {}

impl Serialize for PartNames<'_> {
    fn serialize<S: Serializer>(&self, out: &mut S) -> Result<(), S::Error> {
        out.begin_seq(Some(self.0.len()))?;
        for part in self.0 {
            part.abi_name().serialize(out)?;
        }
        out.end_seq()
    }
}

impl Described for State {}

impl Serialize for State {
    fn serialize<S: Serializer>(&self, out: &mut S) -> Result<(), S::Error> {
        match self {
            State::Exited => write_named("state", "exited", &(), out),
            State::Locks { mutex, owner } => {
                let locks = Locks {
                    mutex: mutex.address,
                    mutex_object: mutex.object.as_ref(),
                    owner: *owner,
                };
                write_named("state", "locks", &locks, out)
            }
            State::Waits {
                condition,
                signalled,
                mutex,
                owner,
            } => {
                let waits = Waits {
                    condition: condition.address,
                    condition_object: condition.object.as_ref(),
                    signalled: *signalled,
                    mutex: mutex.address,
                    mutex_object: mutex.object.as_ref(),
                    owner: *owner,
                };
                write_named("state", "waits", &waits, out)
            }
            State::Joins(other) => write_named("state", "joins", &Member("other", other), out),
            State::Blocked => write_named("state", "blocked", &(), out),
            State::Unblocked => write_named("state", "unblocked", &(), out),
        }
    }
}

// A mutex, its name, and who holds it.
#[derive(Clone, Copy, Serialize)]
struct Locks<'a> {
    mutex: u32,
    mutex_object: Option<&'a Symbol>,
    owner: Option<u32>,
}

// A condition variable, whether it was signalled to the thread, and the mutex, both with their names, and who holds that.
#[derive(Clone, Copy, Serialize)]
struct Waits<'a> {
    condition: u32,
    condition_object: Option<&'a Symbol>,
    signalled: bool,
    mutex: u32,
    mutex_object: Option<&'a Symbol>,
    owner: Option<u32>,
}

// Where a thread stands, as it is written.
#[derive(Clone, Copy, Serialize)]
struct Stands<'a> {
    thread: u32,
    pc: Option<u32>,
    function: Option<&'a Symbol>,
    stop: Option<StopName<'a>>,
}

impl Described for Standing {}

impl Serialize for Standing {
    fn serialize<S: Serializer>(&self, out: &mut S) -> Result<(), S::Error> {
        let thread = self.thread;
        match &self.at {
            Some((place, stop)) => Stands {
                thread,
                pc: Some(place.pc),
                function: place.function.as_ref(),
                stop: Some(StopName(stop)),
            }
            .serialize(out),
            None => Stands {
                thread,
                pc: None,
                function: None,
                stop: None,
            }
            .serialize(out),
        }
    }
}

// What a thread stands at, as it is written.
#[derive(Clone, Copy)]
struct StopName<'a>(&'a Stop);

impl Described for StopName<'_> {}

impl Serialize for StopName<'_> {
    fn serialize<S: Serializer>(&self, out: &mut S) -> Result<(), S::Error> {
        match self.0 {
            Stop::Calls(
                Call {
                    which: Which::Atomic(_),
                    ..
                },
            ) => out.str("atomic"),
            Stop::Calls(_) => out.str("call"),
            Stop::Trap(_) => out.str("trap"),
            Stop::PageFault(_) => out.str("page_fault"),
            Stop::Watchdog => out.str("watchdog"),
        }
    }
}

// What threads stand at, as it is written.
#[derive(Clone, Copy)]
struct StopNames<'a>(&'a [Stop]);

impl Described for StopNames<'_> {}

impl Serialize for StopNames<'_> {
    fn serialize<S: Serializer>(&self, out: &mut S) -> Result<(), S::Error> {
        out.begin_seq(Some(self.0.len()))?;
        for stop in self.0 {
            StopName(stop).serialize(out)?;
        }
        out.end_seq()
    }
}

impl Described for Field {}

impl Serialize for Field {
    fn serialize<S: Serializer>(&self, out: &mut S) -> Result<(), S::Error> {
        match self {
            Field::Pc(places) => write_values(Part::Pc, places, out),
            Field::Since(counts) => write_values(Part::Since, counts, out),
            Field::Register(number, values) => write_values(Part::Register(*number), values, out),
            Field::Stop(stops) => write_values(Part::Stop, &StopNames(stops.as_slice()), out),
            Field::Payload(counts) => write_values(Part::Payload, counts, out),
        }
    }
}

// Writes a part of the views, and what it is in each replica.
fn write_values<T: Serialize, S: Serializer>(
    part: Part,
    values: &T,
    out: &mut S,
) -> Result<(), S::Error> {
    out.begin_map(Some(3))?;
    out.key("part")?;
    part.serialize(out)?;
    out.key("abi_name")?;
    part.abi_name().serialize(out)?;
    out.key("values")?;
    values.serialize(out)?;
    out.end_map()
}

impl Part {
    // Its name in the calling convention, if it is a register.
    fn abi_name(self) -> Option<&'static str> {
        match self {
            Part::Register(number) => abi_name(number),
            _ => None,
        }
    }
}

impl Described for Part {}

impl Serialize for Part {
    fn serialize<S: Serializer>(&self, out: &mut S) -> Result<(), S::Error> {
        match self {
            Part::Register(number) => out.collect_str(&Numbered(*number)),
            Part::Pc => out.str("pc"),
            Part::Since => out.str("since"),
            Part::Stop => out.str("stop"),
            Part::Payload => out.str("payload"),
        }
    }
}
