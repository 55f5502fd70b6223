//! Where threads stand behind a journal, and for what they wait.
use crate::places::{instruction_at, place_at, variable_at};
use ro_audit::{AuditCore, Trail};
use ro_event::{Call, Function, Which};
use ro_findings::{Standing, State, Trapped, Waiting};
use ro_journal::{Did, Entry};
use ro_kernel::Kernel;
use std::alloc::{AllocError, Global};

/// What the threads of a run came to.
#[derive(Drop)]
pub(crate) struct Stood {
    /// For what each waits.
    pub waiting: Vec<Waiting>,
    /// Where each stands.
    pub threads: Vec<Standing>,
    /// Where the last trap was.
    pub trapped: Option<Trapped>,
}

impl Stood {
    /// What the threads came to in the core of a trail, which followed these entries of the program of an executable.
    pub(crate) fn behind<C: AuditCore>(
        alloc: Global,
        trail: &Trail<C>,
        entries: &[Entry],
        executable: &[u8],
    ) -> Result<Stood, AllocError> {
        let mut waiting = Vec::new(alloc);
        let mut threads = Vec::new(alloc);
        for thread in 0..trail.core().kernel().made() {
            let state = state_of(alloc, trail.core(), executable, thread)?;
            waiting.push(Waiting { thread, state })?;
            threads.push(standing(alloc, trail, executable, thread)?)?;
        }
        let trapped = match trapped_in(entries) {
            Some(thread) => trapped(alloc, trail, executable, thread)?,
            None => None,
        };
        Ok(Stood {
            waiting,
            threads,
            trapped,
        })
    }
}

// What holds a thread up in a core of the program of an executable.
fn state_of<C: AuditCore>(
    alloc: Global,
    core: &C,
    executable: &[u8],
    thread: u32,
) -> Result<State, AllocError> {
    if !core.kernel().lives_on(thread) {
        return Ok(State::Exited);
    }
    if let Some(call) = core.blocked_call(thread) {
        return blocked_state(alloc, core, executable, thread, call);
    }
    match core.waits_at(thread) {
        Some(mutex) => locks(alloc, core, executable, thread, mutex),
        None => Ok(State::Unblocked),
    }
}

// What holds a thread up that is blocked on a call.
fn blocked_state<C: AuditCore>(
    alloc: Global,
    core: &C,
    executable: &[u8],
    thread: u32,
    call: Call,
) -> Result<State, AllocError> {
    match call.which {
        Which::Function(Function::Lock) => locks(alloc, core, executable, thread, call.a0),
        Which::Function(Function::Wait) => Ok(State::Waits {
            condition: variable_at(alloc, executable, call.a0)?,
            signalled: is_signalled(core.kernel(), thread),
            mutex: variable_at(alloc, executable, call.a1)?,
            owner: owner(core, thread, call.a1),
        }),
        Which::Function(Function::Join) => Ok(State::Joins(call.a0)),
        _ => Ok(State::Blocked),
    }
}

// That a thread waits for a mutex.
fn locks<C: AuditCore>(
    alloc: Global,
    core: &C,
    executable: &[u8],
    thread: u32,
    mutex: u32,
) -> Result<State, AllocError> {
    Ok(State::Locks {
        mutex: variable_at(alloc, executable, mutex)?,
        owner: owner(core, thread, mutex),
    })
}

// The thread that holds a mutex, where one does that is not this thread.
fn owner<C: AuditCore>(core: &C, thread: u32, mutex: u32) -> Option<u32> {
    match core.owner(mutex) {
        Some(owner) if owner != thread => Some(owner),
        _ => None,
    }
}

// Whether a thread that waits on a condition variable was signalled.
fn is_signalled(kernel: &Kernel, thread: u32) -> bool {
    match kernel.waiter(thread) {
        Some(waiter) => waiter.signalled,
        None => false,
    }
}

// Where a thread stands.
fn standing<C: AuditCore>(
    alloc: Global,
    trail: &Trail<C>,
    executable: &[u8],
    thread: u32,
) -> Result<Standing, AllocError> {
    let at = match trail.view(0, thread) {
        Some(view) => Some((place_at(alloc, executable, view.pc())?, *view.stop())),
        None => None,
    };
    Ok(Standing { thread, at })
}

// The thread of the last trap.
fn trapped_in(entries: &[Entry]) -> Option<u32> {
    for entry in entries.iter().rev() {
        if let Entry::Vote {
            thread,
            did: Did::Trapped,
            ..
        } = entry
        {
            return Some(*thread);
        }
    }
    None
}

// Where a thread trapped.
fn trapped<C: AuditCore>(
    alloc: Global,
    trail: &Trail<C>,
    executable: &[u8],
    thread: u32,
) -> Result<Option<Trapped>, AllocError> {
    let Some(view) = trail.view(0, thread) else {
        return Ok(None);
    };
    Ok(Some(Trapped {
        thread,
        place: place_at(alloc, executable, view.pc())?,
        registers: *view.registers(),
        instruction: instruction_at(alloc, trail, &view)?,
    }))
}
