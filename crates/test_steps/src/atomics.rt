//! Atomic instructions as the kernel serves them, row by row.

use crate::kernel::{CODE, DATA, LOCK, THREAD_SELF, call, goes, kernel, make_three, serve};
use ro_event::{Effect, Which};
use ro_kernel::{Kernel, Served};
use std::alloc::AllocError;
use std::process::Abort;
use std::test::Fail;

const OTHER: u32 = DATA + 4;

/// lr.w x5, (x6)
const LR: Which = Which::Atomic(0x1003_22AF);

/// sc.w x7, x5, (x6)
const SC: Which = Which::Atomic(0x1853_23AF);

/// amoadd.w x10, x5, (x6)
const ADD: Which = Which::Atomic(0x0053_252F);

/// amominu.w x0, x5, (x6)
const LEAST: Which = Which::Atomic(0xC053_202F);

/// A thread's call, with the address, the operand and the word that was found; then the register, what it gets, and what is stored.
type Row = (u32, Which, [u32; 3], u8, u32, Option<u32>);

const OF_ONE_THREAD: &[Row] = &[
    // no reservation
    (0, SC, [DATA, 5, 7], 7, 1, None),
    // the first SC has it, the second hasn't
    (0, LR, [DATA, 0, 7], 5, 7, None),
    (0, SC, [DATA, 9, 7], 7, 0, Some(9)),
    (0, SC, [DATA, 9, 9], 7, 1, None),
    // of another word, which ends it too
    (0, LR, [DATA, 0, 9], 5, 9, None),
    (0, SC, [OTHER, 1, 9], 7, 1, None),
    (0, SC, [DATA, 1, 9], 7, 1, None),
    // the word has changed
    (0, LR, [DATA, 0, 9], 5, 9, None),
    (0, SC, [DATA, 1, 8], 7, 1, None),
    // a second LR is the one that counts
    (0, LR, [DATA, 0, 9], 5, 9, None),
    (0, LR, [OTHER, 0, 3], 5, 3, None),
    (0, SC, [OTHER, 4, 3], 7, 0, Some(4)),
    (0, LR, [OTHER, 0, 4], 5, 4, None),
    (0, LR, [DATA, 0, 9], 5, 9, None),
    (0, SC, [OTHER, 4, 4], 7, 1, None),
    // the thread's own AMO, call, and call that answers an error
    (0, LR, [DATA, 0, 9], 5, 9, None),
    (0, ADD, [OTHER, 0xFFFF_FFFF, 4], 10, 4, Some(3)),
    (0, SC, [DATA, 1, 9], 7, 1, None),
    (0, LR, [DATA, 0, 9], 5, 9, None),
    (0, THREAD_SELF, [0, 0, 0], 10, 0, None),
    (0, SC, [DATA, 1, 9], 7, 1, None),
    (0, LR, [DATA, 0, 9], 5, 9, None),
    (0, LOCK, [CODE, 0, 0], 10, 14, None),
    (0, SC, [DATA, 1, 9], 7, 1, None),
    // the old word goes to rd, also where that is x0
    (0, LEAST, [DATA, 0x8000_0000, 9], 0, 9, Some(9)),
    (0, ADD, [DATA, 1, 0xFFFF_FFFF], 10, 0xFFFF_FFFF, Some(0)),
    // LR of what may only be read
    (0, LR, [CODE, 0, 6], 5, 6, None),
];

const OF_MORE_THREADS: &[Row] = &[
    // another thread's AMO of the word ends it, one of another word doesn't
    (0, LR, [DATA, 0, 1], 5, 1, None),
    (1, ADD, [DATA, 0, 1], 10, 1, Some(1)),
    (0, SC, [DATA, 2, 1], 7, 1, None),
    (0, LR, [DATA, 0, 1], 5, 1, None),
    (1, ADD, [OTHER, 4, 3], 10, 3, Some(7)),
    (0, SC, [DATA, 2, 1], 7, 0, Some(2)),
    // another thread's call and LR don't, and of two SC the first one has it
    (0, LR, [DATA, 0, 2], 5, 2, None),
    (1, THREAD_SELF, [0, 0, 0], 10, 1, None),
    (2, LR, [DATA, 0, 2], 5, 2, None),
    (0, SC, [DATA, 2, 2], 7, 0, Some(2)),
    (2, SC, [DATA, 3, 2], 7, 1, None),
    // another thread's SC that fails doesn't
    (0, LR, [DATA, 0, 2], 5, 2, None),
    (1, SC, [DATA, 5, 2], 7, 1, None),
    (0, SC, [DATA, 3, 2], 7, 0, Some(3)),
    // one thread's AMO ends those of all others
    (1, LR, [DATA, 0, 3], 5, 3, None),
    (2, LR, [DATA, 0, 3], 5, 3, None),
    (3, LR, [OTHER, 0, 7], 5, 7, None),
    (0, LEAST, [DATA, 8, 3], 0, 3, Some(3)),
    (1, SC, [DATA, 4, 3], 7, 1, None),
    (2, SC, [DATA, 4, 3], 7, 1, None),
    (3, SC, [OTHER, 4, 7], 7, 0, Some(4)),
];

fn is_stored(effect: &Effect, address: u32, stored: Option<u32>) -> bool {
    match stored {
        Some(word) => effect.place == address
            && effect.bytes.as_slice() == word.to_le_bytes().as_slice(),
        None => effect.bytes.is_empty(),
    }
}

fn page(which: Which, address: u32) -> Option<u32> {
    match which {
        Which::Atomic(_) => Some(address / 4096),
        _ => None,
    }
}

fn is_wanted(effect: &Effect, row: Row) -> bool {
    let (thread, which, [address, _, _], register, answer, stored) = row;
    effect.thread == thread
        && effect.register == register
        && effect.answer == Some(answer)
        && effect.goes == goes(which)
        && effect.page == page(which, address)
        && is_stored(effect, address, stored)
        && effect.made.is_none()
        && effect.range.is_none()
        && effect.releases
}

fn check(rt: &impl Abort, kernel: &mut Kernel, rows: &[Row]) -> Result<(), AllocError> {
    for row in rows {
        let (thread, which, [address, operand, found], ..) = *row;
        let call = call(which, [address, operand, found, 0]);
        assert!(rt; kernel.ready(thread, call), "{thread} {call:?}");
        match serve(rt, kernel, thread, call)? {
            Served::Done(effect) => {
                assert!(rt; is_wanted(&effect, *row), "{thread} {call:?} {effect:?}");
            }
            _ => assert!(rt; false, "{thread} {call:?}"),
        }
    }
    Ok(())
}

#[test]
fn reserves(rt: HostRuntime) -> Result<(), Fail> {
    for rows in [OF_ONE_THREAD, OF_MORE_THREADS] {
        let mut kernel = kernel(rt.alloc(), b"")?;
        make_three(&rt, &mut kernel)?;
        check(&rt, &mut kernel, rows)?;
    }
    Ok(())
}
