//! What is told of findings, in sentences and as JSON; and what is found of some journals.
use ro_audit::Why;
use ro_event::{Call, Function, Stop, TrapCause, Which};
use ro_findings::{
    Ended, Field, Findings, Instruction, Place, Split, Standing, State, Symbol, Trapped, Variable,
    Verdict, Waiting,
};
use ro_io::MemStore;
use ro_journal::{Did, Entry, Lost};
use ro_make::image_bytes;
use ro_report::{Answer, JournalCode};
use ro_tell::find;
use ro_words::parse_audit;
use std::alloc::{AllocError, Global};
use std::process::Abort;
use std::test::Fail;

// What is told in both forms.
fn assert_told(
    rt: &impl Abort,
    alloc: Global,
    findings: &Findings,
    sentences: &[&str],
    json: &str,
) -> Result<(), Fail> {
    let told = findings.sentences(alloc)?;
    for (line, want) in told.lines().zip(sentences) {
        assert_eq!(rt; line, *want);
    }
    assert_eq!(rt; told.lines().count(), sentences.len(), "{told}");
    let told = findings.json(alloc)?;
    assert_eq!(rt; told.strip_suffix("\n"), Some(json));
    Ok(())
}

// Of a legal journal without copies.
fn legal(alloc: Global, end: Option<Ended>) -> Findings {
    Findings {
        entries: 8,
        verdict: Verdict::Legal {
            steps: 3,
            end,
            odd: None,
        },
        copies: Vec::new(alloc),
    }
}

fn place(alloc: Global, pc: u32, function: &str, offset: u32) -> Result<Place, AllocError> {
    Ok(Place {
        pc,
        function: Some(symbol(alloc, function, offset)?),
    })
}

fn symbol(alloc: Global, name: &str, offset: u32) -> Result<Symbol, AllocError> {
    Ok(Symbol {
        name: String::from_str(alloc, name)?,
        offset,
    })
}

/// An address, and the object that holds it with the place in it, if one is known.
type Named = (u32, Option<(&'static str, u32)>);

fn variable(alloc: Global, named: Named) -> Result<Variable, AllocError> {
    let (address, object) = named;
    let object = match object {
        Some((name, offset)) => Some(symbol(alloc, name, offset)?),
        None => None,
    };
    Ok(Variable { address, object })
}

#[test]
fn plain_ends(rt: HostRuntime) -> Result<(), Fail> {
    let alloc = rt.alloc();
    assert_end(
        &rt,
        alloc,
        None,
        "The run has not ended.",
        r#"{"copies":[],"end":null,"entries":8,"odd":null,"steps":3,"verdict":"legal"}"#,
    )?;
    assert_end(
        &rt,
        alloc,
        Some(Ended::Exit(7)),
        "The program exited with status 7.",
        r#"{"copies":[],"end":{"how":"exit","status":7},"entries":8,"odd":null,"steps":3,"verdict":"legal"}"#,
    )?;
    assert_end(
        &rt,
        alloc,
        Some(Ended::Sink(4)),
        "The output failed, and took 4 bytes of the last write.",
        r#"{"copies":[],"end":{"how":"sink","taken":4},"entries":8,"odd":null,"steps":3,"verdict":"legal"}"#,
    )?;
    assert_end(
        &rt,
        alloc,
        Some(Ended::Trap {
            cause: TrapCause::ForbiddenFetch,
            at: None,
        }),
        "The program trapped by cause 2: an instruction is fetched where nothing may be executed.",
        r#"{"copies":[],"end":{"at":null,"cause":2,"how":"trap"},"entries":8,"odd":null,"steps":3,"verdict":"legal"}"#,
    )
}

// What is told of a legal journal with this end, of which one sentence tells.
fn assert_end(
    rt: &impl Abort,
    alloc: Global,
    end: Option<Ended>,
    sentence: &str,
    json: &str,
) -> Result<(), Fail> {
    let sentences = [
        "legal",
        "The journal has 8 entries, and its plan 3 steps.",
        "Each entry is what the run does next.",
        sentence,
    ];
    assert_told(rt, alloc, &legal(alloc, end), sentences.as_slice(), json)
}

// Registers that hold their own numbers.
const REGISTERS: [u32; 31] = [
    1, 2, 3, 4, 5, 6, 7, 8, 9, 10, 11, 12, 13, 14, 15, 16, 17, 18, 19, 20, 21, 22, 23, 24, 25, 26,
    27, 28, 29, 30, 31,
];

// A thread that trapped.
fn trapped(alloc: Global) -> Result<Trapped, AllocError> {
    let place = place(alloc, 0x10074, "main", 0x20)?;
    let instruction = Some(instruction(alloc)?);
    Ok(Trapped {
        thread: 1,
        place,
        registers: REGISTERS,
        instruction,
    })
}

fn instruction(alloc: Global) -> Result<Instruction, AllocError> {
    Ok(Instruction {
        word: 0x0C04_2C23,
        text: String::from_str(alloc, "sw zero, 216(s0)")?,
        touched: Some(0x100D8),
        mapped: None,
    })
}

#[test]
fn a_trap(rt: HostRuntime) -> Result<(), Fail> {
    let alloc = rt.alloc();
    let sentences = [
        "legal",
        "The journal has 8 entries, and its plan 3 steps.",
        "Each entry is what the run does next.",
        "The program trapped by cause 8: a store where it is not permitted.",
        "Thread 1 stands at pc 00010074 (main+20), with these registers:",
        "ra (x1) 00000001 sp (x2) 00000002 gp (x3) 00000003 tp (x4) 00000004",
        "t0 (x5) 00000005 t1 (x6) 00000006 t2 (x7) 00000007 s0 (x8) 00000008",
        "s1 (x9) 00000009 a0 (x10) 0000000a a1 (x11) 0000000b a2 (x12) 0000000c",
        "a3 (x13) 0000000d a4 (x14) 0000000e a5 (x15) 0000000f a6 (x16) 00000010",
        "a7 (x17) 00000011 s2 (x18) 00000012 s3 (x19) 00000013 s4 (x20) 00000014",
        "s5 (x21) 00000015 s6 (x22) 00000016 s7 (x23) 00000017 s8 (x24) 00000018",
        "s9 (x25) 00000019 s10 (x26) 0000001a s11 (x27) 0000001b t3 (x28) 0000001c",
        "t4 (x29) 0000001d t5 (x30) 0000001e t6 (x31) 0000001f",
        "The instruction there is 0c042c23, sw zero, 216(s0).",
        "It touches the address 000100d8.",
    ];
    let json =
        r#"{"copies":[],"end":{"at":{"abi_names":["ra","sp","gp","tp","t0","t1","t2","s0","s1","a0","a1","a2","a3","a4","a5","a6","a7","s2","s3","s4","s5","s6","s7","s8","s9","s10","s11","t3","t4","t5","t6"],"function":{"name":"main","offset":32},"instruction":{"mapped":null,"text":"sw zero, 216(s0)","touched":65752,"word":201600035},"pc":65652,"registers":[1,2,3,4,5,6,7,8,9,10,11,12,13,14,15,16,17,18,19,20,21,22,23,24,25,26,27,28,29,30,31],"thread":1},"cause":8,"how":"trap"},"entries":8,"odd":null,"steps":3,"verdict":"legal"}"#;
    let at = Some(trapped(alloc)?);
    let end = Ended::Trap {
        cause: TrapCause::ForbiddenStore,
        at,
    };
    assert_told(
        &rt,
        alloc,
        &legal(alloc, Some(end)),
        sentences.as_slice(),
        json,
    )
}

const NAMELESS_MUTEX: Named = (0x10100, None);

const NAMELESS_CONDITION: Named = (0x10104, None);

const GUARD: Named = (0x10100, Some(("guard", 0)));

const READY: Named = (0x10104, Some(("ready", 0)));

const IN_QUEUE: Named = (0x10114, Some(("queue", 12)));

// A thread of each state; of those that wait for variables one whose names are known, and one whose names are not.
fn waiting(alloc: Global) -> Result<Vec<Waiting>, AllocError> {
    let mut threads = Vec::new(alloc);
    for thread in 0..8 {
        threads.push(Waiting {
            thread,
            state: state_of(alloc, thread)?,
        })?;
    }
    Ok(threads)
}

// The state of one of them.
fn state_of(alloc: Global, thread: u32) -> Result<State, AllocError> {
    match thread {
        0 => Ok(State::Exited),
        1 => locks(alloc, GUARD, Some(4)),
        2 => locks(alloc, NAMELESS_MUTEX, None),
        3 => waits(alloc, READY, false, IN_QUEUE, None),
        4 => waits(alloc, NAMELESS_CONDITION, true, NAMELESS_MUTEX, Some(4)),
        5 => Ok(State::Joins(1)),
        6 => Ok(State::Blocked),
        _ => Ok(State::Unblocked),
    }
}

fn locks(alloc: Global, mutex: Named, owner: Option<u32>) -> Result<State, AllocError> {
    let mutex = variable(alloc, mutex)?;
    Ok(State::Locks { mutex, owner })
}

fn waits(
    alloc: Global,
    condition: Named,
    signalled: bool,
    mutex: Named,
    owner: Option<u32>,
) -> Result<State, AllocError> {
    let condition = variable(alloc, condition)?;
    let mutex = variable(alloc, mutex)?;
    Ok(State::Waits {
        condition,
        signalled,
        mutex,
        owner,
    })
}

#[test]
fn waiting_threads(rt: HostRuntime) -> Result<(), Fail> {
    let alloc = rt.alloc();
    let sentences = [
        "legal",
        "The journal has 8 entries, and its plan 3 steps.",
        "Each entry is what the run does next.",
        "No thread can go on.",
        "Thread 0 has exited.",
        "Thread 1 waits for the mutex at 00010100 (guard), which thread 4 holds.",
        "Thread 2 waits for the mutex at 00010100.",
        "Thread 3 waits for the condition at 00010104 (ready), not signalled, to hold the mutex at 00010114 (queue+c).",
        "Thread 4 waits for the condition at 00010104, signalled, to hold the mutex at 00010100, which thread 4 holds.",
        "Thread 5 waits until thread 1 has exited.",
        "Thread 6 is blocked.",
        "Thread 7 is not blocked.",
    ];
    let json =
        r#"{"copies":[],"end":{"how":"deadlock","threads":[{"state":"exited","thread":0},{"mutex":65792,"mutex_object":{"name":"guard","offset":0},"owner":4,"state":"locks","thread":1},{"mutex":65792,"mutex_object":null,"owner":null,"state":"locks","thread":2},{"condition":65796,"condition_object":{"name":"ready","offset":0},"mutex":65812,"mutex_object":{"name":"queue","offset":12},"owner":null,"signalled":false,"state":"waits","thread":3},{"condition":65796,"condition_object":null,"mutex":65792,"mutex_object":null,"owner":4,"signalled":true,"state":"waits","thread":4},{"other":1,"state":"joins","thread":5},{"state":"blocked","thread":6},{"state":"unblocked","thread":7}]},"entries":8,"odd":null,"steps":3,"verdict":"legal"}"#;
    let end = Ended::Deadlock(waiting(alloc)?);
    assert_told(
        &rt,
        alloc,
        &legal(alloc, Some(end)),
        sentences.as_slice(),
        json,
    )
}

// The call of a lock.
const LOCK: Call = Call {
    which: Which::Function(Function::Lock),
    a0: 0x10100,
    a1: 0,
    a2: 0,
    a3: 0,
};

// A stop of each kind, and none.
const STOPS: [Option<Stop>; 5] = [
    Some(Stop::Calls(LOCK)),
    Some(Stop::Trap(TrapCause::NoInstruction)),
    Some(Stop::PageFault(16)),
    Some(Stop::Watchdog),
    None,
];

// A thread at each stop, and one that does not stand still.
fn standing(alloc: Global) -> Result<Vec<Standing>, AllocError> {
    let mut threads = Vec::new(alloc);
    for (thread, stop) in (0..5).zip(STOPS) {
        threads.push(standing_at(alloc, thread, stop)?)?;
    }
    Ok(threads)
}

fn standing_at(alloc: Global, thread: u32, stop: Option<Stop>) -> Result<Standing, AllocError> {
    let at = match stop {
        Some(stop) => Some((place(alloc, 0x10054, "main", 0)?, stop)),
        None => None,
    };
    Ok(Standing { thread, at })
}

#[test]
fn standing_threads(rt: HostRuntime) -> Result<(), Fail> {
    let alloc = rt.alloc();
    let sentences = [
        "legal",
        "The journal has 8 entries, and its plan 3 steps.",
        "Each entry is what the run does next.",
        "The plan has 3 steps, and 6 more would pass the limit.",
        "Thread 0 stands at pc 00010054 (main), at a call.",
        "Thread 1 stands at pc 00010054 (main), at a trap.",
        "Thread 2 stands at pc 00010054 (main), at a page fault.",
        "Thread 3 stands at pc 00010054 (main), at a turn of the watchdog.",
        "Thread 4 does not stand still, or has exited.",
    ];
    let json =
        r#"{"copies":[],"end":{"how":"limit","next":6,"steps":3,"threads":[{"function":{"name":"main","offset":0},"pc":65620,"stop":"call","thread":0},{"function":{"name":"main","offset":0},"pc":65620,"stop":"trap","thread":1},{"function":{"name":"main","offset":0},"pc":65620,"stop":"page_fault","thread":2},{"function":{"name":"main","offset":0},"pc":65620,"stop":"watchdog","thread":3},{"function":null,"pc":null,"stop":null,"thread":4}]},"entries":8,"odd":null,"steps":3,"verdict":"legal"}"#;
    let end = Ended::Limit {
        steps: 3,
        next: 6,
        threads: standing(alloc)?,
    };
    assert_told(
        &rt,
        alloc,
        &legal(alloc, Some(end)),
        sentences.as_slice(),
        json,
    )
}

// Parts of views that differ.
fn fields(alloc: Global) -> Result<Vec<Field>, AllocError> {
    let mut fields = Vec::new(alloc);
    fields.push(pcs(alloc)?)?;
    fields.push(Field::Since(Vec::from_slice(alloc, &[2, 3])?))?;
    fields.push(Field::Register(10, Vec::from_slice(alloc, &[7, 255])?))?;
    fields.push(Field::Stop(Vec::from_slice(alloc, &[Stop::Calls(LOCK), Stop::Watchdog])?))?;
    fields.push(Field::Payload(Vec::from_slice(alloc, &[5, 0])?))?;
    Ok(fields)
}

// Two places, of which one has no function.
fn pcs(alloc: Global) -> Result<Field, AllocError> {
    let mut places = Vec::new(alloc);
    places.push(place(alloc, 0x10054, "main", 0)?)?;
    places.push(Place {
        pc: 0x10058,
        function: None,
    })?;
    Ok(Field::Pc(places))
}

#[test]
fn differing_views(rt: HostRuntime) -> Result<(), Fail> {
    let alloc = rt.alloc();
    let sentences = [
        "legal",
        "The journal has 8 entries, and its plan 3 steps.",
        "Each entry is what the run does next.",
        "The replicas differ.",
        "pc: 00010054 (main) 00010058",
        "instructions since the last vote: 2 3",
        "a0 (x10): 00000007 000000ff",
        "at: a call; a turn of the watchdog;",
        "what is written or found differs, of so many bytes: 5 0",
    ];
    let json =
        r#"{"copies":[],"end":{"fields":[{"abi_name":null,"part":"pc","values":[{"function":{"name":"main","offset":0},"pc":65620},{"function":null,"pc":65624}]},{"abi_name":null,"part":"since","values":[2,3]},{"abi_name":"a0","part":"x10","values":[7,255]},{"abi_name":null,"part":"stop","values":["call","watchdog"]},{"abi_name":null,"part":"payload","values":[5,0]}],"how":"differ"},"entries":8,"odd":null,"steps":3,"verdict":"legal"}"#;
    let end = Ended::Differ(Split::AtVote(fields(alloc)?));
    assert_told(
        &rt,
        alloc,
        &legal(alloc, Some(end)),
        sentences.as_slice(),
        json,
    )
}

// Of an illegal journal without copies.
fn illegal(alloc: Global, why: Why) -> Findings {
    Findings {
        entries: 8,
        verdict: Verdict::Illegal {
            place: 2,
            entry: Entry::Free { thread: 1 },
            why,
        },
        copies: Vec::new(alloc),
    }
}

/// A vote that two replicas lose.
const VOTE: Entry = Entry::Vote {
    thread: 0,
    count: 2,
    won: 0,
    lost: Lost::Two(1, 2),
    did: Did::Served,
};

/// Why an entry is not allowed, and how that is told in both forms.
const WHYS: &[(Why, &str, &str)] = &[
    (
        Why::NotLendable,
        "The driver holds a lease or is none, or the thread can't be lent in that replica.",
        r#"{"reason":"not_lendable"}"#,
    ),
    (
        Why::NotOut,
        "No such lease is out.",
        r#"{"reason":"not_out"}"#,
    ),
    (
        Why::Ran { count: 5, hit: 1 },
        "The run of the lease comes back after 5 instructions and 1 faults.",
        r#"{"count":5,"hit":1,"reason":"ran"}"#,
    ),
    (
        Why::NoPut,
        "That is no put: the thread lacks a page of its replica, or waits at a lock, or goes on; or faults are told of a cooperative run.",
        r#"{"reason":"no_put"}"#,
    ),
    (
        Why::NoPart,
        "That is no part: the quantum is over, or the thread lacks no page of its replica and waits at no lock; or faults are told of a cooperative run.",
        r#"{"reason":"no_part"}"#,
    ),
    (
        Why::OtherGot,
        "The lease gets a mutex in another thread's turn.",
        r#"{"reason":"other_got"}"#,
    ),
    (
        Why::NoVote,
        "The thread can't be voted on.",
        r#"{"reason":"no_vote"}"#,
    ),
    (
        Why::NoFree,
        "The thread has no call that can be served.",
        r#"{"reason":"no_free"}"#,
    ),
    (
        Why::NoScrub,
        "No scrub may be made here.",
        r#"{"reason":"no_scrub"}"#,
    ),
    (
        Why::Comes(VOTE),
        "What is allowed in its place is: vote 0 2 0 1,2 served",
        r#"{"entry":"vote 0 2 0 1,2 served","reason":"comes"}"#,
    ),
    (
        Why::NoEnd,
        "The run does not end so here.",
        r#"{"reason":"no_end"}"#,
    ),
    (
        Why::Behind,
        "The run has ended before.",
        r#"{"reason":"behind"}"#,
    ),
];

#[test]
fn illegal_entries(rt: HostRuntime) -> Result<(), Fail> {
    for (why, sentence, reason) in WHYS {
        assert_illegal(&rt, rt.alloc(), *why, sentence, reason)?;
    }
    Ok(())
}

fn assert_illegal(
    rt: &impl Abort,
    alloc: Global,
    why: Why,
    sentence: &str,
    reason: &str,
) -> Result<(), Fail> {
    let sentences = [
        "illegal 2",
        "The first entry that is not allowed is: free 1",
        sentence,
    ];
    let json = format!(in alloc;
        r#"{{"copies":[],"entries":8,"entry":"free 1","place":2,"verdict":"illegal","why":{reason}}}"#
    )?;
    assert_told(
        rt,
        alloc,
        &illegal(alloc, why),
        sentences.as_slice(),
        json.as_str(),
    )
}

// A guest that writes `hello` and ends with the status 0.
const HELLO: &[u32] = &[
    0x0010_0513,
    0x0001_05B7,
    0x0785_8593,
    0x0050_0613,
    0x0400_0893,
    0x0000_0073,
    0x0000_0513,
    0x05D0_0893,
    0x0000_0073,
    0x6C6C_6568,
    0x0000_006F,
];

// Its journal where a vote makes a copy in replica 1, and the next in replica 2.
const TWO_COPIES: &str = "romain 2
take 0 0 0
put 0 0 0 5 0
take 0 1 0
put 0 1 0 5 2
take 0 2 0
put 0 2 0 5 0
vote 0 5 0 1 served
take 0 0 0
put 0 0 0 2 0
take 0 1 0
put 0 1 0 2 0
take 0 2 0
put 0 2 0 2 1
vote 0 2 0 2 served
end exit 0
";

// A guest that ends with the status 7, and its journal where the replicas 0 and 1 are struck alike.
const SHORT: &[u32] = &[0x0070_0513, 0x05D0_0893, 0x0000_0073];

const ALIKE: &str = "romain 2
take 0 0 0
put 0 0 0 2 1
take 0 1 0
put 0 1 0 2 1
take 0 2 0
put 0 2 0 2 0
vote 0 2 0 2 served
end exit 6
";

#[test]
fn copies(rt: HostRuntime) -> Result<(), Fail> {
    let alloc = rt.alloc();
    let faults = "1 0 5 reg 10 1\n2 0 6 reg 10 0\n1 0 1 reg 5 0\n1 0 8 reg 6 0\n";
    let sentences = [
        "legal",
        "The journal has 15 entries, and its plan 9 steps.",
        "Each entry is what the run does next.",
        "The program exited with status 0.",
        "At entry 6 replica 1 was overwritten at a vote on thread 0: t0 (x5), a0 (x10), what it stands at and what is written or found differed. Undone: 1 0 5 reg 10 1, struck 0 instructions before; 1 0 1 reg 5 0, struck 4 instructions before.",
        "At entry 13 replica 2 was overwritten at a vote on thread 0: a0 (x10) and what it stands at differed. Undone: 2 0 6 reg 10 0, struck 1 instruction before.",
    ];
    let json =
        r#"{"copies":[{"abi_names":["t0","a0",null,null],"differed":["x5","x10","stop","payload"],"place":6,"replica":1,"thread":0,"undone":[{"before":0,"fault":"1 0 5 reg 10 1"},{"before":4,"fault":"1 0 1 reg 5 0"}]},{"abi_names":["a0",null],"differed":["x10","stop"],"place":13,"replica":2,"thread":0,"undone":[{"before":1,"fault":"2 0 6 reg 10 0"}]}],"end":{"how":"exit","status":0},"entries":15,"odd":null,"steps":9,"verdict":"legal"}"#;
    assert_found(
        &rt,
        alloc,
        HELLO,
        faults,
        TWO_COPIES,
        sentences.as_slice(),
        json,
    )?;
    let faults = "0 0 1 reg 10 0\n1 0 1 reg 10 0\n";
    let sentences = [
        "legal",
        "The journal has 8 entries, and its plan 3 steps.",
        "Each entry is what the run does next.",
        "The program exited with status 6.",
        "At entry 6 replica 2 was overwritten at a vote on thread 0: a0 (x10) and what it stands at differed. No fault of the list in that replica explains it.",
    ];
    let json =
        r#"{"copies":[{"abi_names":["a0",null],"differed":["x10","stop"],"place":6,"replica":2,"thread":0,"undone":[]}],"end":{"how":"exit","status":6},"entries":8,"odd":null,"steps":3,"verdict":"legal"}"#;
    assert_found(&rt, alloc, SHORT, faults, ALIKE, sentences.as_slice(), json)
}

// A journal of the first guest where a scrub makes a copy in replica 1, and one that ends in a scrub's place.
const ONE_SCRUB: &str = "romain 2
take 0 0 0
put 0 0 0 5 0
take 0 1 0
put 0 1 0 5 3
take 0 2 0
put 0 2 0 5 0
scrub 0 1
vote 0 5 0 - served
take 0 0 0
put 0 0 0 2 0
take 0 1 0
put 0 1 0 2 0
take 0 2 0
put 0 2 0 2 0
vote 0 2 0 - served
end exit 0
";

const SPLIT: &str = "romain 2
take 0 0 0
put 0 0 0 5 0
take 0 1 0
put 0 1 0 5 3
take 0 2 0
put 0 2 0 5 1
end no-majority
";

#[test]
fn a_copy_by_a_scrub(rt: HostRuntime) -> Result<(), Fail> {
    let faults = "1 0 1 reg 5 0\n1 0 2 reg 6 4\n1 0 3 mem 65661 0\n";
    let sentences = [
        "legal",
        "The journal has 16 entries, and its plan 9 steps.",
        "Entry 6 is the first that is not what the run does next: scrub 0 1",
        "The program exited with status 0.",
        "At entry 6 replica 1 was overwritten at a scrub: t0 (x5) and t1 (x6) of thread 0, the page 00010000 differed. Undone: 1 0 1 reg 5 0, struck 4 instructions before; 1 0 2 reg 6 4, struck 3 instructions before; 1 0 3 mem 65661 0, struck 2 instructions before.",
    ];
    let json =
        r#"{"copies":[{"differed":{"pages":[65536],"threads":[{"abi_names":["t0","t1"],"parts":["x5","x6"],"thread":0}]},"place":6,"replica":1,"thread":null,"undone":[{"before":4,"fault":"1 0 1 reg 5 0"},{"before":3,"fault":"1 0 2 reg 6 4"},{"before":2,"fault":"1 0 3 mem 65661 0"}]}],"end":{"how":"exit","status":0},"entries":16,"odd":{"entry":"scrub 0 1","place":6},"steps":9,"verdict":"legal"}"#;
    assert_found(
        &rt,
        rt.alloc(),
        HELLO,
        faults,
        ONE_SCRUB,
        sentences.as_slice(),
        json,
    )
}

#[test]
fn an_end_in_a_scrubs_place(rt: HostRuntime) -> Result<(), Fail> {
    let faults = "1 0 1 reg 5 0\n1 0 2 reg 6 4\n1 0 3 mem 65661 0\n2 0 3 mem 65661 1\n";
    let sentences = [
        "legal",
        "The journal has 7 entries, and its plan 0 steps.",
        "Entry 6 is the first that is not what the run does next: end no-majority",
        "No more than half of the replicas agree.",
        "They were compared whole, at a scrub.",
        "Of thread 0:",
        "t0 (x5): 00000000 00000001 00000000",
        "t1 (x6): 00000000 00000010 00000000",
        "the bytes of the page 00010000 differ",
    ];
    let json =
        r#"{"copies":[],"end":{"how":"no-majority","pages":[65536],"threads":[{"fields":[{"abi_name":"t0","part":"x5","values":[0,1,0]},{"abi_name":"t1","part":"x6","values":[0,16,0]}],"thread":0}]},"entries":7,"odd":{"entry":"end no-majority","place":6},"steps":0,"verdict":"legal"}"#;
    assert_found(
        &rt,
        rt.alloc(),
        HELLO,
        faults,
        SPLIT,
        sentences.as_slice(),
        json,
    )
}

// A guest whose first instruction loads where nothing may be read, and its journal.
const LOADS_NOTHING: &[u32] = &[0x0000_2503];

const TRAPPED: &str = "romain 2
take 0 0 0
put 0 0 0 0 0
take 0 1 0
put 0 1 0 0 0
take 0 2 0
put 0 2 0 0 0
vote 0 0 0 - trapped
end trap 6
";

#[test]
fn the_instruction_that_trapped(rt: HostRuntime) -> Result<(), Fail> {
    let sentences = [
        "legal",
        "The journal has 8 entries, and its plan 1 steps.",
        "Each entry is what the run does next.",
        "The program trapped by cause 6: a load where it is not permitted.",
        "Thread 0 stands at pc 00010054, with these registers:",
        "ra (x1) 00000000 sp (x2) 7000fff0 gp (x3) 00000000 tp (x4) 00000000",
        "t0 (x5) 00000000 t1 (x6) 00000000 t2 (x7) 00000000 s0 (x8) 00000000",
        "s1 (x9) 00000000 a0 (x10) 00000000 a1 (x11) 00000000 a2 (x12) 00000000",
        "a3 (x13) 00000000 a4 (x14) 00000000 a5 (x15) 00000000 a6 (x16) 00000000",
        "a7 (x17) 00000000 s2 (x18) 00000000 s3 (x19) 00000000 s4 (x20) 00000000",
        "s5 (x21) 00000000 s6 (x22) 00000000 s7 (x23) 00000000 s8 (x24) 00000000",
        "s9 (x25) 00000000 s10 (x26) 00000000 s11 (x27) 00000000 t3 (x28) 00000000",
        "t4 (x29) 00000000 t5 (x30) 00000000 t6 (x31) 00000000",
        "The instruction there is 00002503, lw a0, 0(zero).",
        "It touches the address 00000000.",
    ];
    let json =
        r#"{"copies":[],"end":{"at":{"abi_names":["ra","sp","gp","tp","t0","t1","t2","s0","s1","a0","a1","a2","a3","a4","a5","a6","a7","s2","s3","s4","s5","s6","s7","s8","s9","s10","s11","t3","t4","t5","t6"],"function":null,"instruction":{"mapped":null,"text":"lw a0, 0(zero)","touched":0,"word":9475},"pc":65620,"registers":[0,1879113712,0,0,0,0,0,0,0,0,0,0,0,0,0,0,0,0,0,0,0,0,0,0,0,0,0,0,0,0,0],"thread":0},"cause":6,"how":"trap"},"entries":8,"odd":null,"steps":1,"verdict":"legal"}"#;
    assert_found(
        &rt,
        rt.alloc(),
        LOADS_NOTHING,
        "",
        TRAPPED,
        sentences.as_slice(),
        json,
    )
}

// A guest that locks a mutex, signals a condition variable and then waits for it, and its journal.
const SIGNALS_THEN_WAITS: [u32; 11] = [
    0x0001_1437,
    0x0004_0513,
    0x0180_00EF,
    0x0044_0513,
    0x0140_00EF,
    0x0044_0513,
    0x0004_0593,
    0x00C0_00EF,
    0x0000_8067,
    0x0000_8067,
    0x0000_8067,
];

const WAITS_FOR_EVER: &str = "romain 2
take 0 0 0
put 0 0 0 3 0
take 0 1 0
put 0 1 0 3 0
take 0 2 0
put 0 2 0 3 0
vote 0 3 0 - served
take 0 0 0
put 0 0 0 2 0
take 0 1 0
put 0 1 0 2 0
take 0 2 0
put 0 2 0 2 0
vote 0 2 0 - served
take 0 0 0
put 0 0 0 3 0
take 0 1 0
put 0 1 0 3 0
take 0 2 0
put 0 2 0 3 0
vote 0 3 0 - parked
end deadlock
";

// Its names: `queue` is made an object of eight bytes, which has the mutex and the condition variable.
const NAMES: [(&str, u32); 4] = [
    ("queue", 0x1_1000),
    ("pthread_mutex_lock", 0x1_0074),
    ("pthread_cond_signal", 0x1_0078),
    ("pthread_cond_wait", 0x1_007C),
];

// Where the size and the type of its first symbol stand.
const SIZE: usize = 84 + 4 * SIGNALS_THEN_WAITS.len() + 16 + 8;

const TYPE: usize = SIZE + 4;

#[test]
fn a_thread_that_waits_for_ever(rt: HostRuntime) -> Result<(), Fail> {
    let sentences = [
        "legal",
        "The journal has 22 entries, and its plan 11 steps.",
        "Each entry is what the run does next.",
        "No thread can go on.",
        "Thread 0 waits for the condition at 00011004 (queue+4), not signalled, to hold the mutex at 00011000 (queue).",
    ];
    let json =
        r#"{"copies":[],"end":{"how":"deadlock","threads":[{"condition":69636,"condition_object":{"name":"queue","offset":4},"mutex":69632,"mutex_object":{"name":"queue","offset":0},"owner":null,"signalled":false,"state":"waits","thread":0}]},"entries":22,"odd":null,"steps":11,"verdict":"legal"}"#;
    let mut file = image_bytes(rt.alloc(), &SIGNALS_THEN_WAITS, 5, &NAMES)?;
    assert!(rt; TYPE < file.len());
    file[SIZE] = 8;
    file[TYPE] = 0x11;
    assert_found_in(
        &rt,
        rt.alloc(),
        file.as_slice(),
        "",
        WAITS_FOR_EVER,
        sentences.as_slice(),
        json,
    )
}

// A guest whose thread 0 ends with a mutex that thread 1 waits for, and its journal of a cooperative run.
const LOCKS_AND_ENDS: [u32; 17] = [
    0x0001_1437,
    0x0004_0513,
    0x0300_00EF,
    0x0084_0513,
    0x0000_0593,
    0x0001_0637,
    0x0806_0613,
    0x0000_0693,
    0x01C0_00EF,
    0x0000_0513,
    0x0180_00EF,
    0x0001_1437,
    0x0004_0513,
    0x0040_00EF,
    0x0000_8067,
    0x0000_8067,
    0x0000_8067,
];

const LOCKED_NAMES: [(&str, u32); 3] = [
    ("pthread_mutex_lock", 0x1_008C),
    ("pthread_create", 0x1_0090),
    ("pthread_exit", 0x1_0094),
];

const WAITS_AT_ITS_LOCK: &str = "romain 2 coop
take 0 0 0
put 0 0 0 3 0
take 0 1 0
put 0 1 0 3 0
take 0 2 0
put 0 2 0 3 0
vote 0 3 0 - served
take 0 0 0
put 0 0 0 6 0
take 0 1 0
put 0 1 0 6 0
take 0 2 0
put 0 2 0 6 0
vote 0 6 0 - served
take 0 0 0
put 0 0 0 2 0
take 0 0 1
part 0 0 1 3 0
take 0 1 0
put 0 1 0 2 0
take 0 1 1
part 0 1 1 3 0
take 0 2 0
put 0 2 0 2 0
vote 0 2 0 - served
take 0 2 1
part 0 2 1 3 0
end deadlock
";

// In a cooperative run a thread waits for a mutex where it stands at its lock, without a vote.
#[test]
fn a_thread_that_waits_at_its_lock(rt: HostRuntime) -> Result<(), Fail> {
    let sentences = [
        "legal",
        "The journal has 28 entries, and its plan 17 steps.",
        "Each entry is what the run does next.",
        "No thread can go on.",
        "Thread 0 has exited.",
        "Thread 1 waits for the mutex at 00011000, which thread 0 holds.",
    ];
    let json =
        r#"{"copies":[],"end":{"how":"deadlock","threads":[{"state":"exited","thread":0},{"mutex":69632,"mutex_object":null,"owner":0,"state":"locks","thread":1}]},"entries":28,"odd":null,"steps":17,"verdict":"legal"}"#;
    let file = image_bytes(rt.alloc(), &LOCKS_AND_ENDS, 5, &LOCKED_NAMES)?;
    assert_found_in(
        &rt,
        rt.alloc(),
        file.as_slice(),
        "",
        WAITS_AT_ITS_LOCK,
        sentences.as_slice(),
        json,
    )
}

// The same journal, but for a lease that is taken before a vote that comes next.
const TAKEN_BEFORE_THE_VOTE: &str = "romain 2 coop
take 0 0 0
put 0 0 0 3 0
take 0 1 0
put 0 1 0 3 0
take 0 2 0
put 0 2 0 3 0
vote 0 3 0 - served
take 0 0 0
put 0 0 0 6 0
take 0 1 0
put 0 1 0 6 0
take 0 2 0
put 0 2 0 6 0
vote 0 6 0 - served
take 0 0 0
put 0 0 0 2 0
take 0 0 1
part 0 0 1 3 0
take 0 1 0
put 0 1 0 2 0
take 0 1 1
part 0 1 1 3 0
take 0 2 0
put 0 2 0 2 0
take 0 2 1
part 0 2 1 3 0
vote 0 2 0 - served
end deadlock
";

#[test]
fn a_lease_that_is_taken_before_a_vote(rt: HostRuntime) -> Result<(), Fail> {
    let sentences = [
        "legal",
        "The journal has 28 entries, and its plan 17 steps.",
        "Entry 24 is the first that is not what the run does next: take 0 2 1",
        "No thread can go on.",
        "Thread 0 has exited.",
        "Thread 1 waits for the mutex at 00011000, which thread 0 holds.",
    ];
    let json =
        r#"{"copies":[],"end":{"how":"deadlock","threads":[{"state":"exited","thread":0},{"mutex":69632,"mutex_object":null,"owner":0,"state":"locks","thread":1}]},"entries":28,"odd":{"entry":"take 0 2 1","place":24},"steps":17,"verdict":"legal"}"#;
    let file = image_bytes(rt.alloc(), &LOCKS_AND_ENDS, 5, &LOCKED_NAMES)?;
    assert_found_in(
        &rt,
        rt.alloc(),
        file.as_slice(),
        "",
        TAKEN_BEFORE_THE_VOTE,
        sentences.as_slice(),
        json,
    )
}

// The first line of a cooperative run's journal is bad where there are faults or scrubs, and no line behind it is bad.
#[test]
fn cooperative_journals_have_no_faults_and_no_scrubs(rt: HostRuntime) -> Result<(), Fail> {
    for (line, journal) in [
        (1, "romain 2 coop\n"),
        (1, WAITS_AT_ITS_LOCK),
        (2, "romain 2 coop\nfree\n"),
    ] {
        assert_unsuited(&rt, rt.alloc(), "1 0 1 reg 10 0\n", "0", line, journal)?;
        assert_unsuited(&rt, rt.alloc(), "", "1", line, journal)?;
    }
    Ok(())
}

// The journal is refused at this line beside these faults and scrubs.
fn assert_unsuited(
    rt: &impl Abort,
    alloc: Global,
    faults: &str,
    scrub: &str,
    line: u64,
    journal: &str,
) -> Result<(), Fail> {
    let mut store = MemStore::new(alloc);
    let file = image_bytes(alloc, &LOCKS_AND_ENDS, 5, &LOCKED_NAMES)?;
    store.put("guest", file.as_slice())?;
    store.put("faults", faults.as_bytes())?;
    store.put("journal", journal.as_bytes())?;
    let words = [
        "romain",
        "audit",
        "guest",
        "--faults",
        "faults",
        "--journal",
        "journal",
        "--scrub",
        scrub,
    ];
    let Ok(audit) = parse_audit(alloc, &words) else {
        panic!(rt; "the words spell an audit");
    };
    let Err(answer) = find(alloc, &audit, &mut store) else {
        panic!(rt; "{journal} is audited");
    };
    let bad = Answer::BadPlan {
        line,
        code: JournalCode::Form,
    };
    assert_eq!(rt; answer, bad, "of {journal}");
    Ok(())
}

// What is told of the journal of a guest that runs as three replicas with one driver and these faults.
fn assert_found(
    rt: &impl Abort,
    alloc: Global,
    guest: &[u32],
    faults: &str,
    journal: &str,
    sentences: &[&str],
    json: &str,
) -> Result<(), Fail> {
    assert!(rt; guest.len() <= 65_536);
    let file = image_bytes(alloc, guest, 5, &[])?;
    assert_found_in(rt, alloc, file.as_slice(), faults, journal, sentences, json)
}

// The same of the guest of a file.
fn assert_found_in(
    rt: &impl Abort,
    alloc: Global,
    file: &[u8],
    faults: &str,
    journal: &str,
    sentences: &[&str],
    json: &str,
) -> Result<(), Fail> {
    let mut store = MemStore::new(alloc);
    store.put("guest", file)?;
    store.put("faults", faults.as_bytes())?;
    store.put("journal", journal.as_bytes())?;
    let words = [
        "romain",
        "audit",
        "guest",
        "--faults",
        "faults",
        "--journal",
        "journal",
        "--drivers",
        "1",
    ];
    let Ok(audit) = parse_audit(alloc, &words) else {
        panic!(rt; "the words spell an audit");
    };
    match find(alloc, &audit, &mut store) {
        Ok(findings) => assert_told(rt, alloc, &findings, sentences, json),
        Err(answer) => panic!(rt; "{answer:?}"),
    }
}
