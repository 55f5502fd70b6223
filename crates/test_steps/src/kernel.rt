//! What each call comes to, row by row.

use ro_event::{Call, Effect, Function, Goes, Made, Which};
use ro_journal::How;
use ro_kernel::{Kernel, Place, Served, asked, payload_place, written};
use ro_region::{Range, Regions};
use std::alloc::{AllocError, Global};
use std::process::Abort;
use std::test::Fail;

/// May be read and executed, and not written.
pub(crate) const CODE: u32 = 0x1_0000;

/// May be read and written, one page.
pub(crate) const DATA: u32 = 0x1_1000;

const NOWHERE: u32 = 0x5000_0000;

const HEAP: u32 = 0x2_0000;

const READ: Which = Which::System(63);

const WRITE: Which = Which::System(64);

const EXIT: Which = Which::System(93);

const EXIT_GROUP: Which = Which::System(94);

const BRK: Which = Which::System(214);

const MMAP: Which = Which::System(222);

const MUNMAP: Which = Which::System(215);

const CREATE: Which = Which::Function(Function::Create);

const JOIN: Which = Which::Function(Function::Join);

const THREAD_EXIT: Which = Which::Function(Function::Exit);

pub(crate) const THREAD_SELF: Which = Which::Function(Function::ThreadSelf);

const MUTEX_INIT: Which = Which::Function(Function::MutexInit);

const MUTEX_DESTROY: Which = Which::Function(Function::MutexDestroy);

pub(crate) const LOCK: Which = Which::Function(Function::Lock);

const TRYLOCK: Which = Which::Function(Function::TryLock);

const UNLOCK: Which = Which::Function(Function::Unlock);

const CONDITION_INIT: Which = Which::Function(Function::ConditionInit);

const CONDITION_DESTROY: Which = Which::Function(Function::ConditionDestroy);

const WAIT: Which = Which::Function(Function::Wait);

const SIGNAL: Which = Which::Function(Function::Signal);

const BROADCAST: Which = Which::Function(Function::Broadcast);

const MUTEX: u32 = DATA;

const CONDITION: u32 = DATA + 4;

const OTHER_CONDITION: u32 = DATA + 8;

#[derive(Clone, Copy, Debug)]
enum Want {
    Answers(u32),
    /// The address of a range of so many bytes, and whether they may be written.
    Gives(u32, u32, bool),
    Fails(u32),
    Stores(u32, &'static [u8]),
    Exits,
    Parks,
    Blocks,
    Ends(u8),
}

/// A call of a thread with its arguments, and what is to come of it.
type Row = (u32, Which, [u32; 4], Want);

const SYSTEM_CALLS: &[Row] = &[
    // read: the file, then the length, then the permission
    (0, READ, [1, DATA, 4, 0], Want::Fails(9)),
    (0, READ, [1, CODE, 0, 0], Want::Fails(9)),
    (0, READ, [0, CODE, 0, 0], Want::Answers(0)),
    (0, READ, [0, CODE, 4, 0], Want::Fails(14)),
    (0, READ, [0, DATA + 0xFFE, 4, 0], Want::Fails(14)),
    (0, READ, [0, 0xFFFF_FFFF, 2, 0], Want::Fails(14)),
    (0, READ, [0, DATA, 3, 0], Want::Stores(3, b"abc")),
    (0, READ, [0, DATA, 5000, 0], Want::Stores(5, b"defgh")),
    (0, READ, [0, DATA, 4, 0], Want::Stores(0, b"")),
    // write
    (0, WRITE, [0, DATA, 4, 0], Want::Fails(9)),
    (0, WRITE, [3, DATA, 0, 0], Want::Fails(9)),
    (0, WRITE, [1, NOWHERE, 0, 0], Want::Answers(0)),
    (0, WRITE, [1, NOWHERE, 1, 0], Want::Fails(14)),
    (0, WRITE, [1, CODE, 4, 0], Want::Answers(4)),
    (0, WRITE, [2, DATA, 5000, 0], Want::Answers(4096)),
    // brk
    (0, BRK, [0, 0, 0, 0], Want::Answers(HEAP)),
    (0, BRK, [HEAP + 16, 0, 0, 0], Want::Answers(HEAP + 16)),
    (0, BRK, [HEAP - 1, 0, 0, 0], Want::Answers(HEAP + 16)),
    (
        0,
        BRK,
        [HEAP + 0x10_0001, 0, 0, 0],
        Want::Answers(HEAP + 16),
    ),
    (
        0,
        BRK,
        [HEAP + 0x10_0000, 0, 0, 0],
        Want::Answers(HEAP + 0x10_0000),
    ),
    (0, BRK, [HEAP, 0, 0, 0], Want::Answers(HEAP)),
    // no such call, and the end
    (0, Which::System(0), [0, 0, 0, 0], Want::Fails(38)),
    (0, Which::System(215), [0, 0, 0, 0], Want::Fails(38)),
    (0, EXIT, [0x1FE, 0, 0, 0], Want::Ends(254)),
    (0, EXIT_GROUP, [3, 0, 0, 0], Want::Ends(3)),
];

/// Private and anonymous.
const OWN: u32 = 0x22;

const MAPPED_MEMORY: &[Row] = &[
    // the flags, then the protection, then the length
    (0, MMAP, [0, 0x1000, 3, 0x02], Want::Fails(22)),
    (0, MMAP, [0, 0x1000, 3, 0x23], Want::Fails(22)),
    (0, MMAP, [0, 0x1000, 0, OWN], Want::Fails(22)),
    (0, MMAP, [0, 0x1000, 2, OWN], Want::Fails(22)),
    (0, MMAP, [0, 0x1000, 7, OWN], Want::Fails(22)),
    (0, MMAP, [0, 0, 3, OWN], Want::Fails(22)),
    (0, MMAP, [0, 0, 3, 0], Want::Fails(22)),
    (0, MMAP, [0, 0x100_0001, 3, OWN], Want::Fails(12)),
    (0, MMAP, [0, 0xFFFF_F001, 3, OWN], Want::Fails(12)),
    (0, MMAP, [0, 0xFFFF_FFFF, 1, OWN], Want::Fails(12)),
    // whole pages, one range behind the other, wherever they are asked for
    (0, WRITE, [1, NOWHERE, 1, 0], Want::Fails(14)),
    (
        0,
        MMAP,
        [CODE, 1, 1, OWN],
        Want::Gives(NOWHERE, 0x1000, false),
    ),
    (
        0,
        MMAP,
        [0, 5000, 3, OWN],
        Want::Gives(NOWHERE + 0x1000, 0x2000, true),
    ),
    // what they permit
    (0, READ, [0, NOWHERE, 1, 0], Want::Fails(14)),
    (0, READ, [0, NOWHERE + 0xFFF, 2, 0], Want::Fails(14)),
    (
        0,
        READ,
        [0, NOWHERE + 0x1000, 3, 0],
        Want::Stores(3, b"abc"),
    ),
    (0, WRITE, [1, NOWHERE + 0xFFF, 2, 0], Want::Answers(2)),
    (0, WRITE, [1, NOWHERE + 0x2FFF, 1, 0], Want::Answers(1)),
    (0, WRITE, [1, NOWHERE + 0x2FFF, 2, 0], Want::Fails(14)),
    (0, LOCK, [NOWHERE, 0, 0, 0], Want::Answers(14)),
    (0, LOCK, [NOWHERE + 0x2FFC, 0, 0, 0], Want::Answers(0)),
    // the rest, and then no more
    (0, MMAP, [0, 0xFF_D001, 3, OWN], Want::Fails(12)),
    (
        0,
        MMAP,
        [0, 0xFF_CFFF, 3, OWN],
        Want::Gives(NOWHERE + 0x3000, 0xFF_D000, true),
    ),
    (0, MMAP, [0, 1, 3, OWN], Want::Fails(12)),
    (0, WRITE, [1, NOWHERE + 0xFF_FFFF, 1, 0], Want::Answers(1)),
    (0, WRITE, [1, NOWHERE + 0xFF_FFFF, 2, 0], Want::Fails(14)),
    (0, MUNMAP, [NOWHERE, 0x1000, 0, 0], Want::Fails(38)),
];

const ALL_AT_ONCE: &[Row] = &[
    (
        0,
        MMAP,
        [0, 0x100_0000, 3, OWN],
        Want::Gives(NOWHERE, 0x100_0000, true),
    ),
    (0, MMAP, [0, 1, 3, OWN], Want::Fails(12)),
    (0, LOCK, [NOWHERE + 0xFF_FFFC, 0, 0, 0], Want::Answers(0)),
    (0, LOCK, [NOWHERE + 0x100_0000, 0, 0, 0], Want::Answers(14)),
];

const THREADS_AND_MUTEXES: &[Row] = &[
    (0, THREAD_SELF, [9, 0, 0, 0], Want::Answers(0)),
    // create: attr, then start, then p
    (0, CREATE, [DATA, 1, CODE, 7], Want::Answers(22)),
    (0, CREATE, [DATA, 0, CODE + 2, 7], Want::Answers(22)),
    (0, CREATE, [0, 0, CODE + 2, 7], Want::Answers(22)),
    (0, CREATE, [0, 0, CODE, 7], Want::Answers(14)),
    (0, CREATE, [DATA + 2, 0, CODE, 7], Want::Answers(14)),
    (
        0,
        CREATE,
        [DATA, 0, CODE, 7],
        Want::Stores(0, &[1, 0, 0, 0]),
    ),
    (1, THREAD_SELF, [0, 0, 0, 0], Want::Answers(1)),
    // join: never made, then oneself, then joined, then p
    (0, JOIN, [2, 2, 0, 0], Want::Answers(3)),
    (0, JOIN, [0, 2, 0, 0], Want::Answers(35)),
    (0, JOIN, [1, 2, 0, 0], Want::Answers(14)),
    (0, JOIN, [1, CODE, 0, 0], Want::Answers(14)),
    (0, JOIN, [1, DATA, 0, 0], Want::Blocks),
    (0, JOIN, [1, 0, 0, 0], Want::Blocks),
    // mutexes: the address, then the owner
    (0, MUTEX_INIT, [DATA + 2, 9, 0, 0], Want::Answers(14)),
    (0, MUTEX_INIT, [DATA, 9, 0, 0], Want::Answers(0)),
    (0, MUTEX_DESTROY, [CODE, 0, 0, 0], Want::Answers(14)),
    (0, MUTEX_DESTROY, [DATA, 0, 0, 0], Want::Answers(0)),
    (0, UNLOCK, [CODE, 0, 0, 0], Want::Answers(14)),
    (0, UNLOCK, [DATA, 0, 0, 0], Want::Answers(1)),
    (0, LOCK, [CODE, 0, 0, 0], Want::Answers(14)),
    (0, LOCK, [DATA, 0, 0, 0], Want::Answers(0)),
    (0, LOCK, [DATA, 0, 0, 0], Want::Answers(35)),
    (0, TRYLOCK, [DATA + 1, 0, 0, 0], Want::Answers(14)),
    (0, TRYLOCK, [DATA, 0, 0, 0], Want::Answers(16)),
    (1, LOCK, [DATA, 0, 0, 0], Want::Blocks),
    (1, TRYLOCK, [DATA, 0, 0, 0], Want::Answers(16)),
    (1, UNLOCK, [DATA, 0, 0, 0], Want::Answers(1)),
    (0, UNLOCK, [DATA, 0, 0, 0], Want::Answers(0)),
    (0, UNLOCK, [DATA, 0, 0, 0], Want::Answers(1)),
    (1, TRYLOCK, [DATA, 0, 0, 0], Want::Answers(0)),
    // a thread that exits keeps its mutexes, and is joined once
    (1, THREAD_EXIT, [0x0403_0201, 0, 0, 0], Want::Exits),
    (0, LOCK, [DATA, 0, 0, 0], Want::Blocks),
    (0, JOIN, [1, 2, 0, 0], Want::Answers(14)),
    (0, JOIN, [1, DATA + 8, 0, 0], Want::Stores(0, &[1, 2, 3, 4])),
    (0, JOIN, [1, 2, 0, 0], Want::Answers(3)),
    (
        0,
        CREATE,
        [DATA, 0, CODE, 7],
        Want::Stores(0, &[2, 0, 0, 0]),
    ),
    (2, THREAD_EXIT, [5, 0, 0, 0], Want::Exits),
    (0, JOIN, [2, 0, 0, 0], Want::Stores(0, b"")),
    // the last thread
    (0, THREAD_EXIT, [5, 0, 0, 0], Want::Ends(0)),
];

const INITS: &[Row] = &[
    // the address first
    (0, MUTEX_INIT, [MUTEX + 2, 0, 0, 0], Want::Answers(14)),
    (0, MUTEX_INIT, [CODE, 0, 0, 0], Want::Answers(14)),
    // a mutex that comes to the table so is free
    (0, MUTEX_INIT, [MUTEX, 0, 0, 0], Want::Answers(0)),
    (0, UNLOCK, [MUTEX, 0, 0, 0], Want::Answers(1)),
    (0, LOCK, [MUTEX, 0, 0, 0], Want::Answers(0)),
    // one that is held stays so
    (0, MUTEX_INIT, [MUTEX, 0, 0, 0], Want::Answers(0)),
    (1, MUTEX_INIT, [MUTEX, 0, 0, 0], Want::Answers(0)),
    (0, TRYLOCK, [MUTEX, 0, 0, 0], Want::Answers(16)),
    (1, LOCK, [MUTEX, 0, 0, 0], Want::Blocks),
    (1, UNLOCK, [MUTEX, 0, 0, 0], Want::Answers(1)),
    (0, UNLOCK, [MUTEX, 0, 0, 0], Want::Answers(0)),
    // and one that is free
    (1, MUTEX_INIT, [MUTEX, 0, 0, 0], Want::Answers(0)),
    (1, LOCK, [MUTEX, 0, 0, 0], Want::Answers(0)),
    // so does one that was locked without it
    (2, LOCK, [MUTEX + 12, 0, 0, 0], Want::Answers(0)),
    (3, MUTEX_INIT, [MUTEX + 12, 0, 0, 0], Want::Answers(0)),
    (3, LOCK, [MUTEX + 12, 0, 0, 0], Want::Blocks),
];

const CONDITIONS: &[Row] = &[
    (
        0,
        CONDITION_INIT,
        [CONDITION + 2, 9, 0, 0],
        Want::Answers(14),
    ),
    (0, CONDITION_INIT, [CODE, 9, 0, 0], Want::Answers(14)),
    (0, CONDITION_INIT, [CONDITION, 9, 0, 0], Want::Answers(0)),
    (0, CONDITION_DESTROY, [CODE, 0, 0, 0], Want::Answers(14)),
    (0, CONDITION_DESTROY, [CONDITION, 0, 0, 0], Want::Answers(0)),
    (0, SIGNAL, [CODE, 0, 0, 0], Want::Answers(14)),
    (0, SIGNAL, [CONDITION, 0, 0, 0], Want::Answers(0)),
    (0, BROADCAST, [CONDITION + 1, 0, 0, 0], Want::Answers(14)),
    (0, BROADCAST, [CONDITION, 0, 0, 0], Want::Answers(0)),
    // wait: the condition variable, then the mutex, then its owner: it is not in the table, is another's, or is free
    (0, WAIT, [CODE, MUTEX, 0, 0], Want::Answers(14)),
    (0, WAIT, [CONDITION, CODE, 0, 0], Want::Answers(14)),
    (0, WAIT, [CONDITION, MUTEX, 0, 0], Want::Answers(1)),
    (
        0,
        CREATE,
        [DATA, 0, CODE, 7],
        Want::Stores(0, &[1, 0, 0, 0]),
    ),
    (0, LOCK, [MUTEX, 0, 0, 0], Want::Answers(0)),
    (0, WAIT, [CODE, MUTEX, 0, 0], Want::Answers(14)),
    (0, WAIT, [CONDITION, MUTEX + 2, 0, 0], Want::Answers(14)),
    (1, WAIT, [CONDITION, MUTEX, 0, 0], Want::Answers(1)),
    (0, UNLOCK, [MUTEX, 0, 0, 0], Want::Answers(0)),
    (0, WAIT, [CONDITION, MUTEX, 0, 0], Want::Answers(1)),
];

const SIGNALS: &[Row] = &[
    // nobody waits for it, so a wait behind it waits
    (0, SIGNAL, [CONDITION, 0, 0, 0], Want::Answers(0)),
    (1, LOCK, [MUTEX, 0, 0, 0], Want::Answers(0)),
    (1, WAIT, [CONDITION, MUTEX, 0, 0], Want::Parks),
    (1, WAIT, [CONDITION, MUTEX, 0, 0], Want::Blocks),
    // its mutex is free
    (2, LOCK, [MUTEX, 0, 0, 0], Want::Answers(0)),
    (2, WAIT, [CONDITION, MUTEX, 0, 0], Want::Parks),
    (0, LOCK, [MUTEX, 0, 0, 0], Want::Answers(0)),
    // the first is ready but for the mutex
    (0, SIGNAL, [CONDITION, 0, 0, 0], Want::Answers(0)),
    (1, WAIT, [CONDITION, MUTEX, 0, 0], Want::Blocks),
    (0, UNLOCK, [MUTEX, 0, 0, 0], Want::Answers(0)),
    (2, WAIT, [CONDITION, MUTEX, 0, 0], Want::Blocks),
    (1, WAIT, [CONDITION, MUTEX, 0, 0], Want::Answers(0)),
    (1, LOCK, [MUTEX, 0, 0, 0], Want::Answers(35)),
    (1, UNLOCK, [MUTEX, 0, 0, 0], Want::Answers(0)),
    (2, WAIT, [CONDITION, MUTEX, 0, 0], Want::Blocks),
    (0, SIGNAL, [OTHER_CONDITION, 0, 0, 0], Want::Answers(0)),
    (2, WAIT, [CONDITION, MUTEX, 0, 0], Want::Blocks),
    // who was signalled is not signalled again
    (3, LOCK, [MUTEX, 0, 0, 0], Want::Answers(0)),
    (3, WAIT, [CONDITION, MUTEX, 0, 0], Want::Parks),
    (0, SIGNAL, [CONDITION, 0, 0, 0], Want::Answers(0)),
    (0, SIGNAL, [CONDITION, 0, 0, 0], Want::Answers(0)),
    (3, WAIT, [CONDITION, MUTEX, 0, 0], Want::Answers(0)),
    (3, UNLOCK, [MUTEX, 0, 0, 0], Want::Answers(0)),
    (2, WAIT, [CONDITION, MUTEX, 0, 0], Want::Answers(0)),
    (2, UNLOCK, [MUTEX, 0, 0, 0], Want::Answers(0)),
];

const BROADCASTS: &[Row] = &[
    (0, BROADCAST, [CONDITION, 0, 0, 0], Want::Answers(0)),
    (1, LOCK, [MUTEX, 0, 0, 0], Want::Answers(0)),
    (1, WAIT, [CONDITION, MUTEX, 0, 0], Want::Parks),
    (2, LOCK, [MUTEX, 0, 0, 0], Want::Answers(0)),
    (2, WAIT, [CONDITION, MUTEX, 0, 0], Want::Parks),
    (3, LOCK, [MUTEX, 0, 0, 0], Want::Answers(0)),
    (3, WAIT, [CONDITION, MUTEX, 0, 0], Want::Parks),
    (1, WAIT, [CONDITION, MUTEX, 0, 0], Want::Blocks),
    // all three are ready, and one has the mutex
    (0, BROADCAST, [CONDITION, 0, 0, 0], Want::Answers(0)),
    (3, WAIT, [CONDITION, MUTEX, 0, 0], Want::Answers(0)),
    (1, WAIT, [CONDITION, MUTEX, 0, 0], Want::Blocks),
    (2, WAIT, [CONDITION, MUTEX, 0, 0], Want::Blocks),
    (3, UNLOCK, [MUTEX, 0, 0, 0], Want::Answers(0)),
    (1, WAIT, [CONDITION, MUTEX, 0, 0], Want::Answers(0)),
    // who waits once more waits for the next
    (1, WAIT, [CONDITION, MUTEX, 0, 0], Want::Parks),
    (2, WAIT, [CONDITION, MUTEX, 0, 0], Want::Answers(0)),
    (2, UNLOCK, [MUTEX, 0, 0, 0], Want::Answers(0)),
    (1, WAIT, [CONDITION, MUTEX, 0, 0], Want::Blocks),
];

const TWO_CONDITIONS: &[Row] = &[
    (1, LOCK, [MUTEX, 0, 0, 0], Want::Answers(0)),
    (1, WAIT, [CONDITION, MUTEX, 0, 0], Want::Parks),
    (2, LOCK, [MUTEX, 0, 0, 0], Want::Answers(0)),
    (2, WAIT, [OTHER_CONDITION, MUTEX, 0, 0], Want::Parks),
    (0, SIGNAL, [OTHER_CONDITION, 0, 0, 0], Want::Answers(0)),
    (1, WAIT, [CONDITION, MUTEX, 0, 0], Want::Blocks),
    (2, WAIT, [OTHER_CONDITION, MUTEX, 0, 0], Want::Answers(0)),
    (0, BROADCAST, [CONDITION, 0, 0, 0], Want::Answers(0)),
    (1, WAIT, [CONDITION, MUTEX, 0, 0], Want::Blocks),
    (2, UNLOCK, [MUTEX, 0, 0, 0], Want::Answers(0)),
    (1, WAIT, [CONDITION, MUTEX, 0, 0], Want::Answers(0)),
];

const BESIDE_16_THREADS: &[Row] = &[
    (0, CREATE, [DATA, 0, CODE, 7], Want::Answers(11)),
    (0, CREATE, [0, 0, CODE, 7], Want::Answers(14)),
    (0, CREATE, [DATA, 1, CODE, 7], Want::Answers(22)),
];

const BESIDE_256_INITS: &[Row] = &[
    (0, MUTEX_INIT, [DATA + 0x800, 0, 0, 0], Want::Answers(11)),
    (0, LOCK, [DATA + 0x800, 0, 0, 0], Want::Answers(11)),
    (0, TRYLOCK, [DATA + 0x800, 0, 0, 0], Want::Answers(11)),
    (0, MUTEX_INIT, [CODE, 0, 0, 0], Want::Answers(14)),
    (0, MUTEX_INIT, [DATA, 0, 0, 0], Want::Answers(0)),
    (0, LOCK, [DATA + 4 * 255, 0, 0, 0], Want::Answers(0)),
];

const BESIDE_256_LOCKS: &[Row] = &[
    (0, LOCK, [DATA + 0x800, 0, 0, 0], Want::Answers(11)),
    (0, TRYLOCK, [DATA + 0x800, 0, 0, 0], Want::Answers(11)),
    (0, LOCK, [CODE, 0, 0, 0], Want::Answers(14)),
    (0, LOCK, [DATA, 0, 0, 0], Want::Answers(35)),
];

fn ranges() -> [Range; 2] {
    let range = |start, write| Range {
        start,
        length: 0x1000,
        read: true,
        write,
        execute: !write,
    };
    [range(CODE, false), range(DATA, true)]
}

pub(crate) fn kernel(alloc: Global, input: &[u8]) -> Result<Kernel, AllocError> {
    Ok(Kernel::new(alloc, HEAP, &ranges(), input)?)
}

pub(crate) fn call(which: Which, arguments: [u32; 4]) -> Call {
    let [a0, a1, a2, a3] = arguments;
    Call {
        which,
        a0,
        a1,
        a2,
        a3,
    }
}

pub(crate) fn goes(which: Which) -> Goes {
    match which {
        Which::System(_) | Which::Atomic(_) => Goes::Next,
        Which::Function(_) => Goes::Returns,
    }
}

fn is_answer(effect: &Effect, thread: u32, goes: Goes, value: u32, bytes: &[u8]) -> bool {
    is_done(effect, thread, goes, value, bytes) && effect.range.is_none()
}

fn is_done(effect: &Effect, thread: u32, goes: Goes, value: u32, bytes: &[u8]) -> bool {
    effect.thread == thread
        && effect.answer == Some(value)
        && effect.goes == goes
        && effect.bytes.as_slice() == bytes
        && effect.page.is_none()
        && effect.releases
}

fn is_wanted(served: &Served, thread: u32, goes: Goes, want: Want) -> bool {
    match (served, want) {
        (Served::Done(effect), Want::Answers(value)) => {
            is_answer(effect, thread, goes, value, &[]) && effect.made.is_none()
        }
        (Served::Done(effect), Want::Gives(start, length, write)) => {
            let range = Range {
                start,
                length,
                read: true,
                write,
                execute: false,
            };
            is_done(effect, thread, goes, start, &[]) && effect.range == Some(range)
        }
        (Served::Done(effect), Want::Fails(error)) => {
            is_answer(effect, thread, goes, error.wrapping_neg(), &[]) && effect.made.is_none()
        }
        (Served::Done(effect), Want::Stores(value, bytes)) => {
            is_answer(effect, thread, goes, value, bytes)
        }
        (Served::Done(effect), Want::Exits) => {
            effect.answer.is_none() && effect.goes == Goes::Stays
        }
        (Served::Parked, Want::Parks) | (Served::Blocked, Want::Blocks) => true,
        (Served::Ends(How::Exit(status)), Want::Ends(wanted)) => *status == wanted,
        _ => false,
    }
}

pub(crate) fn serve(
    rt: &impl Abort,
    kernel: &mut Kernel,
    thread: u32,
    call: Call,
) -> Result<Served, AllocError> {
    assert!(rt; kernel.lives_on(thread));
    kernel.serve(thread, call)
}

fn check(rt: &impl Abort, kernel: &mut Kernel, rows: &[Row]) -> Result<(), AllocError> {
    for (thread, which, arguments, want) in rows {
        let call = call(*which, *arguments);
        let blocks = kernel.blocks(*thread, call);
        assert_eq!(rt; blocks, matches!(want, Want::Blocks), "{thread} {call:?}");
        let parks = kernel.parks(*thread, call);
        assert_eq!(rt; parks, matches!(want, Want::Parks), "{thread} {call:?}");
        assert_eq!(rt; kernel.ready(*thread, call), !blocks && !parks);
        let served = serve(rt, kernel, *thread, call)?;
        assert!(rt;
            is_wanted(&served, *thread, goes(*which), *want),
            "{thread} {call:?} {served:?}"
        );
    }
    Ok(())
}

/// Makes threads 1 to 3.
pub(crate) fn make_three(rt: &impl Abort, kernel: &mut Kernel) -> Result<(), AllocError> {
    for made in [&[1, 0, 0, 0], &[2, 0, 0, 0], &[3, 0, 0, 0]] {
        let create = (0, CREATE, [DATA, 0, CODE, 7], Want::Stores(0, made));
        check(rt, kernel, &[create])?;
    }
    Ok(())
}

#[test]
fn serves_system_calls(rt: HostRuntime) -> Result<(), Fail> {
    let mut kernel = kernel(rt.alloc(), b"abcdefgh")?;
    check(&rt, &mut kernel, SYSTEM_CALLS)?;
    Ok(())
}

#[test]
fn gives_memory(rt: HostRuntime) -> Result<(), Fail> {
    for rows in [MAPPED_MEMORY, ALL_AT_ONCE] {
        let mut kernel = kernel(rt.alloc(), b"abc")?;
        check(&rt, &mut kernel, rows)?;
    }
    Ok(())
}

#[test]
fn serves_threads_and_mutexes(rt: HostRuntime) -> Result<(), Fail> {
    let mut kernel = kernel(rt.alloc(), b"")?;
    check(&rt, &mut kernel, THREADS_AND_MUTEXES)?;
    Ok(())
}

#[test]
fn initialises_mutexes(rt: HostRuntime) -> Result<(), Fail> {
    let mut kernel = kernel(rt.alloc(), b"")?;
    make_three(&rt, &mut kernel)?;
    check(&rt, &mut kernel, INITS)?;
    Ok(())
}

#[test]
fn answers_errors_of_conditions(rt: HostRuntime) -> Result<(), Fail> {
    let mut kernel = kernel(rt.alloc(), b"")?;
    check(&rt, &mut kernel, CONDITIONS)?;
    Ok(())
}

#[test]
fn waits_for_signals(rt: HostRuntime) -> Result<(), Fail> {
    for rows in [SIGNALS, BROADCASTS, TWO_CONDITIONS] {
        let mut kernel = kernel(rt.alloc(), b"")?;
        make_three(&rt, &mut kernel)?;
        check(&rt, &mut kernel, rows)?;
    }
    Ok(())
}

/// Whether a thread is made as it was asked for, with its number put at `DATA`.
fn is_made(served: &Served) -> bool {
    let wanted = Made {
        start: CODE,
        argument: 7,
        creator: 0,
    };
    match served {
        Served::Done(effect) => effect.made == Some(wanted) && effect.place == DATA,
        _ => false,
    }
}

/// Makes threads 1 to 15.
fn make_15(rt: &impl Abort, kernel: &mut Kernel) -> Result<(), AllocError> {
    for number in 1..16u32 {
        let create = call(CREATE, [DATA, 0, CODE, 7]);
        let served = serve(rt, kernel, 0, create)?;
        assert!(rt; is_made(&served), "{number} {served:?}");
        assert_eq!(rt; kernel.made(), number + 1);
    }
    Ok(())
}

#[test]
fn makes_16_threads(rt: HostRuntime) -> Result<(), Fail> {
    let mut kernel = kernel(rt.alloc(), b"")?;
    make_15(&rt, &mut kernel)?;
    check(&rt, &mut kernel, BESIDE_16_THREADS)?;
    Ok(())
}

/// Calls of thread 0 that answer 0, one for each of the first 256 words of `DATA`.
fn answers_256_words(rt: &impl Abort, kernel: &mut Kernel, which: Which) -> Result<(), AllocError> {
    for place in 0..256u32 {
        let row = (0, which, [DATA + 4 * place, 0, 0, 0], Want::Answers(0));
        check(rt, kernel, &[row])?;
    }
    Ok(())
}

#[test]
fn initialises_256_mutexes(rt: HostRuntime) -> Result<(), Fail> {
    let mut kernel = kernel(rt.alloc(), b"")?;
    answers_256_words(&rt, &mut kernel, MUTEX_INIT)?;
    check(&rt, &mut kernel, BESIDE_256_INITS)?;
    Ok(())
}

#[test]
fn holds_256_mutexes(rt: HostRuntime) -> Result<(), Fail> {
    let mut kernel = kernel(rt.alloc(), b"")?;
    answers_256_words(&rt, &mut kernel, LOCK)?;
    check(&rt, &mut kernel, BESIDE_256_LOCKS)?;
    Ok(())
}

/// LR, whatever its registers are.
const ATOMIC: Which = Which::Atomic(0x1003_22AF);

/// A call with its arguments; where its payload stands, and how long it is.
const COMPARED: &[(Which, [u32; 4], u32, u32)] = &[
    (WRITE, [1, CODE, 4, 0], CODE, 4),
    (WRITE, [2, DATA, 5000, 0], DATA, 4096),
    (WRITE, [0, DATA, 4, 0], 0, 0),
    (WRITE, [1, DATA, 0, 0], 0, 0),
    (WRITE, [1, NOWHERE, 1, 0], 0, 0),
    (READ, [1, DATA, 4, 0], 0, 0),
    (LOCK, [1, DATA, 4, 0], 0, 0),
    (ATOMIC, [DATA + 8, 1, 0, 0], DATA + 8, 4),
    (ATOMIC, [DATA + 2, 1, 0, 0], 0, 0),
];

#[test]
fn compares_what_may_be_read(rt: HostRuntime) -> Result<(), Fail> {
    let regions = Regions::new(rt.alloc(), &ranges())?;
    for row in COMPARED {
        let (which, arguments, address, len) = *row;
        assert_eq!(rt;
            payload_place(&regions, call(which, arguments)),
            Place { address, len },
            "{which:?} {arguments:?}"
        );
    }
    Ok(())
}

// the word that an atomic instruction found is an argument, and none of it is put out
#[test]
fn asks_with_the_word(rt: HostRuntime) {
    let bytes = [1, 2, 3, 0x84];
    let atomic = call(ATOMIC, [DATA, 5, 0, 0]);
    assert_eq!(rt;
        asked(atomic, &bytes),
        call(ATOMIC, [DATA, 5, 0x8403_0201, 0])
    );
    assert_eq!(rt; asked(atomic, &[]), atomic);
    assert!(rt; written(atomic, &bytes).is_empty());
    let write = call(WRITE, [1, DATA, 4, 0]);
    assert_eq!(rt; asked(write, &bytes), write);
    assert!(rt; written(write, &bytes) == bytes.as_slice());
}
