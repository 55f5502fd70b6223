//! What a served call changes.
ghost use Rattle.std.specs.Prelude.{◌≡◌};
ghost use Rattle.ro_event.specs.Effects.{storing, quiet};

use ro_region::Range;
use std::alloc::Global;
use std::marker::Model;

/// The number of the register a0, in which calls are answered.
const A0: u8 = 10;

/// Where a thread goes on after an effect.
#[derive(Clone, Copy, PartialEq, Eq, Debug)]
pub enum Goes {
    /// It stays at its pc.
    Stays,
    /// To pc + 4.
    Next,
    /// To ra.
    Returns,
}

/// A thread that a call makes.
#[derive(Clone, Copy, PartialEq, Eq, Debug)]
pub struct Made {
    /// The address of its first instruction.
    pub start: u32,
    /// Its a0.
    pub argument: u32,
    /// The number of the thread whose gp it takes.
    pub creator: u32,
}

/// Everything that a served call, or a page that is backed, changes: the same in every replica.
#[derive(Drop, Debug)]
pub struct Effect {
    /// The thread whose call it is.
    pub thread: u32,
    /// What it answers; `None` where no register changes.
    pub answer: Option<u32>,
    /// The number of the register that has the answer: 10, a0, but of an atomic instruction.
    pub register: u8,
    pub goes: Goes,
    /// The address at which the bytes are stored; their pages are backed.
    pub place: u32,
    pub bytes: Vec<u8>,
    /// The number of a page to back.
    pub page: Option<u32>,
    /// A thread that is made.
    pub made: Option<Made>,
    /// A range of addresses that is permitted from now on.
    pub range: Option<Range>,
    /// Whether the thread's stop goes.
    pub releases: bool,
}

impl Model for Effect {
    ghost use Rattle.ro_event.specs.Effects.{Effect as EffectOf};

    ghost Value = { EffectOf };

    ghost view = { λ e. record { thread = e.thread; answer = e.answer; register = e.register; goes = e.goes; place = e.place; bytes = e.bytes.items; page = e.page; made = e.made; range = e.range; releases = e.releases } };
}

impl Effect {
    /// Bytes are stored at an address, the thread's stop goes, and all else stays.
    pub fn storing(thread: u32, place: u32, bytes: Vec<u8>) -> Effect
        ensures { result ≡ storing thread place bytes.items }
    {
        Effect {
            thread,
            answer: None,
            register: A0,
            goes: Goes::Stays,
            place,
            bytes,
            page: None,
            made: None,
            range: None,
            releases: true,
        }
    }

    /// The thread's stop goes, and all else stays.
    pub fn quiet(alloc: Global, thread: u32) -> Effect
        ensures { result ≡ quiet thread }
    {
        Effect::storing(thread, 0, Vec::new(alloc))
    }
}
