//! What an audit finds, in sentences: the first line is `legal` or `illegal PLACE`.
ghost use Rattle.std.specs.Prelude.{◌≡◌, IfOk};
ghost use Rattle.std.specs.String.{string_bytes};
ghost use Rattle.ro_findings.specs.Sentences.{TellsVerdict, first_line};

use crate::findings::{
    CopyMade, Differed, Ended, Field, Findings, Instruction, Mapped, Odd, Part, Split, Standing,
    State, Strike, ThreadFields, ThreadParts, Trapped, Variable, Verdict, Waiting,
};
use crate::lines::WithoutEnd;
use crate::registers::Named;
use ro_audit::Why;
use ro_event::{Call, Stop, TrapCause, Which};
use ro_faults::fault_text;
use ro_journal::Entry;
use ro_journal_text::entry_text;
use std::alloc::{AllocError, Global};
use std::fmt;

impl Findings {
    /// What is told of a journal, in sentences.
    ///
    /// # Errors
    /// Where there is no memory.
    pub fn sentences(&self, alloc: Global) -> Result<String, AllocError>
        ensures { IfOk result (λ text. TellsVerdict self.now.verdict (string_bytes text)) }
    {
        let details = self.details(alloc)?;
        let mut text = first_line(alloc, &self.verdict)?;
        text.push_str(details.as_str())?;
        Ok(text)
    }

    // What stands behind the first line.
    fn details(&self, alloc: Global) -> Result<String, AllocError> {
        let mut text = String::new(alloc);
        match &self.verdict {
            Verdict::Legal { steps, end, odd } => {
                let count = self.entries;
                writeln!(
                    text,
                    "The journal has {count} entries, and its plan {steps} steps."
                )?;
                tell_odd(&mut text, *odd)?;
                tell_end(&mut text, end)?;
            }
            Verdict::Illegal { entry, why, .. } => tell_illegal(&mut text, entry, *why)?,
        }
        for copy in &self.copies {
            tell_copy(&mut text, copy)?;
        }
        Ok(text)
    }
}

// The line that says whether the journal is legal.
fn first_line(alloc: Global, verdict: &Verdict) -> Result<String, AllocError>
    ensures { IfOk result (λ text. string_bytes text ≡ first_line verdict.now) }
{
    match verdict {
        Verdict::Legal { .. } => String::from_str(alloc, "legal\n"),
        Verdict::Illegal { place, .. } => format!(in alloc; "illegal {place}\n"),
    }
}

// Which entry is the first that is not what the run does next.
fn tell_odd(text: &mut String, odd: Option<Odd>) -> Result<(), AllocError> {
    let Some(Odd { place, entry }) = odd else {
        return writeln!(text, "Each entry is what the run does next.");
    };
    let line = WithoutEnd(entry_text(&entry));
    writeln!(
        text,
        "Entry {place} is the first that is not what the run does next: {line}"
    )
}

// How the run ended.
fn tell_end(text: &mut String, end: &Option<Ended>) -> Result<(), AllocError> {
    let Some(end) = end else {
        return writeln!(text, "The run has not ended.");
    };
    match end {
        Ended::Exit(status) => writeln!(text, "The program exited with status {status}."),
        Ended::Deadlock(threads) => tell_deadlock(text, threads.as_slice()),
        Ended::Trap { cause, at } => tell_trap(text, *cause, at),
        Ended::Limit {
            steps,
            next,
            threads,
        } => tell_limit(text, *steps, *next, threads.as_slice()),
        Ended::Differ(split) => {
            writeln!(text, "The replicas differ.")?;
            tell_split(text, split)
        }
        Ended::NoMajority(split) => {
            writeln!(text, "No more than half of the replicas agree.")?;
            tell_split(text, split)
        }
        Ended::Sink(taken) => writeln!(
            text,
            "The output failed, and took {taken} bytes of the last write."
        ),
    }
}

// Why no thread can go on.
fn tell_deadlock(text: &mut String, threads: &[Waiting]) -> Result<(), AllocError> {
    writeln!(text, "No thread can go on.")?;
    for waiting in threads {
        tell_waiting(text, waiting)?;
    }
    Ok(())
}

// For what a thread waits.
fn tell_waiting(text: &mut String, waiting: &Waiting) -> Result<(), AllocError> {
    let thread = waiting.thread;
    write!(text, "Thread {thread} ")?;
    match &waiting.state {
        State::Exited => text.push_str("has exited.\n"),
        State::Locks { mutex, owner } => tell_lock(text, mutex, *owner),
        State::Waits {
            condition,
            signalled,
            mutex,
            owner,
        } => tell_wait(text, condition, *signalled, mutex, *owner),
        State::Joins(other) => writeln!(text, "waits until thread {other} has exited."),
        State::Blocked => text.push_str("is blocked.\n"),
        State::Unblocked => text.push_str("is not blocked.\n"),
    }
}

// For which mutex it waits, and who holds that.
fn tell_lock(text: &mut String, mutex: &Variable, owner: Option<u32>) -> Result<(), AllocError> {
    write!(text, "waits for the mutex at {mutex}")?;
    tell_owner(text, owner)
}

// For which condition variable it waits, whether it was signalled, and which mutex it will hold then.
fn tell_wait(
    text: &mut String,
    condition: &Variable,
    signalled: bool,
    mutex: &Variable,
    owner: Option<u32>,
) -> Result<(), AllocError> {
    let heard = if signalled {
        "signalled"
    } else {
        "not signalled"
    };
    write!(text, "waits for the condition at {condition}, {heard}")?;
    write!(text, ", to hold the mutex at {mutex}")?;
    tell_owner(text, owner)
}

// Who holds a mutex, at the end of a sentence.
fn tell_owner(text: &mut String, owner: Option<u32>) -> Result<(), AllocError> {
    match owner {
        Some(owner) => writeln!(text, ", which thread {owner} holds."),
        None => text.push_str(".\n"),
    }
}

// The limit, and where each thread stands.
fn tell_limit(
    text: &mut String,
    steps: u64,
    next: u64,
    threads: &[Standing],
) -> Result<(), AllocError> {
    writeln!(
        text,
        "The plan has {steps} steps, and {next} more would pass the limit."
    )?;
    for standing in threads {
        let thread = standing.thread;
        match &standing.at {
            Some((place, stop)) => {
                let at = stop_name(stop);
                writeln!(text, "Thread {thread} stands at pc {place}, at {at}.")?;
            }
            None => writeln!(text, "Thread {thread} does not stand still, or has exited.")?,
        }
    }
    Ok(())
}

// Where the program trapped, and the registers there.
fn tell_trap(text: &mut String, cause: TrapCause, at: &Option<Trapped>) -> Result<(), AllocError> {
    let (number, name) = (cause.number(), trap_name(cause));
    writeln!(text, "The program trapped by cause {number}: {name}.")?;
    let Some(trapped) = at else {
        return Ok(());
    };
    let thread = trapped.thread;
    let place = &trapped.place;
    writeln!(
        text,
        "Thread {thread} stands at pc {place}, with these registers:"
    )?;
    tell_registers(text, &trapped.registers)?;
    match &trapped.instruction {
        Some(instruction) => tell_instruction(text, instruction),
        None => Ok(()),
    }
}

// Four registers a line.
fn tell_registers(text: &mut String, registers: &[u32; 31]) -> Result<(), AllocError> {
    let mut number = 1u32;
    for value in registers {
        let register = Named(number);
        write!(text, "{register} {value:08x}")?;
        if number % 4 == 0 || number == 31 {
            writeln!(text)?;
        } else {
            write!(text, " ")?;
        }
        number = number.wrapping_add(1);
    }
    Ok(())
}

// The instruction that trapped.
fn tell_instruction(text: &mut String, instruction: &Instruction) -> Result<(), AllocError> {
    let word = instruction.word;
    let spelled = instruction.text.as_str();
    writeln!(text, "The instruction there is {word:08x}, {spelled}.")?;
    let Some(address) = instruction.touched else {
        return Ok(());
    };
    write!(text, "It touches the address {address:08x}")?;
    if let Some(mapped) = &instruction.mapped {
        tell_mapped(text, mapped)?;
    }
    writeln!(text, ".")
}

// Where an address lies in memory that was given on demand, or behind that.
fn tell_mapped(text: &mut String, mapped: &Mapped) -> Result<(), AllocError> {
    let Mapped { start, end, behind } = *mapped;
    match behind {
        None => write!(text, ", in")?,
        Some(0) => write!(text, ", just behind")?,
        Some(1) => write!(text, ", 1 byte behind")?,
        Some(count) => write!(text, ", {count} bytes behind")?,
    }
    write!(text, " mapped memory {start:08x}..{end:08x}")
}

// What a thread stands at.
fn stop_name(stop: &Stop) -> &'static str {
    match stop {
        Stop::Calls(
            Call {
                which: Which::Atomic(_),
                ..
            },
        ) => "an atomic instruction",
        Stop::Calls(_) => "a call",
        Stop::Trap(_) => "a trap",
        Stop::PageFault(_) => "a page fault",
        Stop::Watchdog => "a turn of the watchdog",
    }
}

fn trap_name(cause: TrapCause) -> &'static str {
    match cause {
        TrapCause::MisalignedPc => "the pc is no multiple of 4",
        TrapCause::ForbiddenFetch => "an instruction is fetched where nothing may be executed",
        TrapCause::NoInstruction => "the word is no instruction",
        TrapCause::MisalignedTarget => "a jump to no multiple of 4",
        TrapCause::MisalignedLoad => "a load at an address that is no multiple of its size",
        TrapCause::ForbiddenLoad => "a load where it is not permitted",
        TrapCause::MisalignedStore => "a store at an address that is no multiple of its size",
        TrapCause::ForbiddenStore => "a store where it is not permitted",
        TrapCause::Breakpoint => "EBREAK",
    }
}

// In what replicas differ of which no more than half agree.
fn tell_split(text: &mut String, split: &Split) -> Result<(), AllocError> {
    match split {
        Split::AtVote(fields) => tell_fields(text, fields.as_slice()),
        Split::AtScrub { threads, pages } => {
            writeln!(text, "They were compared whole, at a scrub.")?;
            for differing in threads {
                tell_thread_fields(text, differing)?;
            }
            tell_pages(text, pages.as_slice())
        }
    }
}

// In which parts of a thread replicas differ.
fn tell_thread_fields(text: &mut String, differing: &ThreadFields) -> Result<(), AllocError> {
    let thread = differing.thread;
    writeln!(text, "Of thread {thread}:")?;
    tell_fields(text, differing.fields.as_slice())
}

// In which pages they do, one a line.
fn tell_pages(text: &mut String, pages: &[u32]) -> Result<(), AllocError> {
    for page in pages {
        writeln!(text, "the bytes of the page {page:08x} differ")?;
    }
    Ok(())
}

// Each part in which views differ, replica by replica.
fn tell_fields(text: &mut String, fields: &[Field]) -> Result<(), AllocError> {
    for field in fields {
        tell_field(text, field)?;
    }
    Ok(())
}

fn tell_field(text: &mut String, field: &Field) -> Result<(), AllocError> {
    match field {
        Field::Pc(places) => tell_values(text, "pc:", places.as_slice())?,
        Field::Since(counts) => {
            tell_values(text, "instructions since the last vote:", counts.as_slice())?
        }
        Field::Register(number, values) => tell_register(text, *number, values.as_slice())?,
        Field::Stop(stops) => tell_stops(text, stops.as_slice())?,
        Field::Payload(counts) => tell_values(
            text,
            "what is written or found differs, of so many bytes:",
            counts.as_slice(),
        )?,
    }
    text.push('\n')
}

// A part, and what it is in each replica.
fn tell_values<T: fmt::Display>(
    text: &mut String,
    part: &str,
    values: &[T],
) -> Result<(), AllocError> {
    text.push_str(part)?;
    for value in values {
        write!(text, " {value}")?;
    }
    Ok(())
}

// A register, and what it is in each replica.
fn tell_register(text: &mut String, number: u32, values: &[u32]) -> Result<(), AllocError> {
    let register = Named(number);
    write!(text, "{register}:")?;
    for value in values {
        write!(text, " {value:08x}")?;
    }
    Ok(())
}

// What the thread stands at in each replica.
fn tell_stops(text: &mut String, stops: &[Stop]) -> Result<(), AllocError> {
    text.push_str("at:")?;
    for stop in stops {
        let at = stop_name(stop);
        write!(text, " {at};")?;
    }
    Ok(())
}

// The first entry that is not allowed, and why it is not.
fn tell_illegal(text: &mut String, entry: &Entry, why: Why) -> Result<(), AllocError> {
    let line = WithoutEnd(entry_text(entry));
    writeln!(text, "The first entry that is not allowed is: {line}")?;
    match why {
        Why::NotLendable => writeln!(
            text,
            "The driver holds a lease or is none, or the thread can't be lent in that replica."
        ),
        Why::NotOut => writeln!(text, "No such lease is out."),
        Why::Ran { count, hit } => writeln!(
            text,
            "The run of the lease comes back after {count} instructions and {hit} faults."
        ),
        Why::NoPut => writeln!(
            text,
            "That is no put: the thread lacks a page of its replica, or waits at a lock, or goes on; or faults are told of a cooperative run."
        ),
        Why::NoPart => writeln!(
            text,
            "That is no part: the quantum is over, or the thread lacks no page of its replica and waits at no lock; or faults are told of a cooperative run."
        ),
        Why::OtherGot => writeln!(text, "The lease gets a mutex in another thread's turn."),
        Why::NoVote => writeln!(text, "The thread can't be voted on."),
        Why::NoFree => writeln!(text, "The thread has no call that can be served."),
        Why::NoScrub => writeln!(text, "No scrub may be made here."),
        Why::Comes(entry) => {
            let line = WithoutEnd(entry_text(&entry));
            writeln!(text, "What is allowed in its place is: {line}")
        }
        Why::NoEnd => writeln!(text, "The run does not end so here."),
        Why::Behind => writeln!(text, "The run has ended before."),
    }
}

// A copy, and what it undid.
fn tell_copy(text: &mut String, copy: &CopyMade) -> Result<(), AllocError> {
    let place = copy.place;
    let replica = copy.replica;
    write!(
        text,
        "At entry {place} replica {replica} was overwritten at "
    )?;
    match &copy.differed {
        Differed::AtVote { thread, parts } => {
            write!(text, "a vote on thread {thread}: ")?;
            tell_parts(text, parts.as_slice())?;
        }
        Differed::AtScrub { threads, pages } => {
            write!(text, "a scrub: ")?;
            tell_whole(text, threads.as_slice(), pages.as_slice())?;
        }
    }
    write!(text, " differed.")?;
    tell_undone(text, copy.undone.as_slice())
}

// What differed in a replica that was compared whole.
fn tell_whole(text: &mut String, threads: &[ThreadParts], pages: &[u32]) -> Result<(), AllocError> {
    let mut between = "";
    for differed in threads {
        let thread = differed.thread;
        text.push_str(between)?;
        tell_parts(text, differed.parts.as_slice())?;
        write!(text, " of thread {thread}")?;
        between = ", ";
    }
    for page in pages {
        write!(text, "{between}the page {page:08x}")?;
        between = ", ";
    }
    Ok(())
}

// What differed.
fn tell_parts(text: &mut String, parts: &[Part]) -> Result<(), AllocError> {
    let last = parts.len().saturating_sub(1);
    for (number, part) in parts.iter().enumerate() {
        let between = match number {
            0 => "",
            _ if number == last => " and ",
            _ => ", ",
        };
        text.push_str(between)?;
        tell_part(text, *part)?;
    }
    Ok(())
}

fn tell_part(text: &mut String, part: Part) -> Result<(), AllocError> {
    match part {
        Part::Register(number) => {
            let register = Named(number);
            write!(text, "{register}")
        }
        Part::Pc => text.push_str("the pc"),
        Part::Since => text.push_str("the instructions since the last vote"),
        Part::Stop => text.push_str("what it stands at"),
        Part::Payload => text.push_str("what is written or found"),
    }
}

// The strikes that a copy undid.
fn tell_undone(text: &mut String, undone: &[Strike]) -> Result<(), AllocError> {
    if undone.is_empty() {
        return writeln!(text, " No fault of the list in that replica explains it.");
    }
    let mut before = " Undone: ";
    for strike in undone {
        let line = WithoutEnd(fault_text(&strike.fault));
        write!(text, "{before}{line}")?;
        match strike.before {
            1 => write!(text, ", struck 1 instruction before")?,
            count => write!(text, ", struck {count} instructions before")?,
        }
        before = "; ";
    }
    writeln!(text, ".")
}
