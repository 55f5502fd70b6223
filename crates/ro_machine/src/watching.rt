//! What a step did: which bytes it accessed, and what it means for the order of the threads' steps.
ghost use Rattle.std.specs.Prelude.{ℕ, List, ◌≡◌, ◌≤◌, nat_lt, if◌then◌else◌, Some, length};
ghost use Rattle.ro_decode.specs.Table.{atomic_in};
ghost use Rattle.ro_exec.specs.declared.Cpu.{Cpu as CpuSeen};
ghost use Rattle.ro_kernel.specs.Serve.{Served};
ghost use Rattle.ro_plain.specs.Accesses.{are_apart as apart, atomic_span, touches};
ghost use Rattle.ro_plain.specs.Order.{Nothing, word_sync, sync_served};
ghost use Rattle.ro_plain.specs.Machine.{Program, Machine, layout_in, next_of, steppable};
ghost use Rattle.ro_pages.specs.Bytes.{within};
ghost use Rattle.ro_machine.specs.Watched.{span_of, sync_of_relation, Tells, LooksAt, TellsNext, Sees};

use crate::calls::Came;
use crate::looking::Look;
use ro_decode::{AtomicOp, atomic_operation};
use ro_event::{Call, Function, Which};

/// A stretch of bytes; none where `count` is 0.
#[derive(Clone, Copy, Debug, PartialEq, Eq)]
pub struct Stretch {
    /// The address of the first.
    pub place: u32,
    /// How many they are.
    pub count: u32,
}

/// No bytes.
pub const NO_BYTES: Stretch = Stretch { place: 0, count: 0 };

/// What a step means for the order of the threads' steps.
#[derive(Clone, Copy, Debug, PartialEq, Eq)]
pub enum Relation {
    /// It unlocks the mutex at this address, by the first step of a wait too.
    Unlocks(u32),
    /// It locks the mutex at this address, by a trylock or the second step of a wait too.
    Locks(u32),
    /// It makes the thread of this number.
    Makes(u32),
    /// It joins the thread of this number.
    Joins(u32),
    /// It ends its thread.
    Exits,
    /// It stores the word at this address by an atomic instruction, which may have looked at it too.
    Updates(u32),
    /// It looks at the word at this address by an LR.
    Observes(u32),
    /// It means nothing for the order.
    Nothing,
}

/// What a step did besides changing the machine.
#[derive(Clone, Copy, Debug, PartialEq, Eq)]
pub struct Watched {
    /// The bytes that it loaded or put out, or the word that an atomic instruction found.
    pub loaded: Stretch,
    /// The bytes of its instruction, where it was read.
    pub code: Stretch,
    /// The bytes that it stored, or those of the range that its call gave, which are zeros from then on.
    pub stored: Stretch,
    /// The word that an atomic instruction accessed as one: none where it is its own, which was read before.
    pub atomic: Stretch,
    pub relation: Relation,
}

/// What a step was.
#[derive(Clone, Copy, Debug, PartialEq, Eq)]
pub(crate) enum Went {
    /// One plain instruction.
    Executed,
    /// A trap.
    Trapped,
    /// A call.
    Called(Came),
}

/// What a step did, by what was known of it before and what it was.
pub(crate) fn told_of(look: Look, went: Went, made: u32) -> Watched
    requires made { made ≤ 16 }
    ensures sees { (program : Program) (machine : Machine) (thread : ℕ) (cpu : CpuSeen) → length machine.kernel.lives ≡ made → steppable machine thread ≡ Some cpu → LooksAt (layout_in program machine.kernel) machine.memory cpu look → TellsNext program machine thread (next_of program machine cpu) went → Sees program machine thread result }
{
    match went {
        Went::Executed => Watched {
            loaded: look.loads,
            code: look.code,
            stored: look.stores,
            atomic: NO_BYTES,
            relation: Relation::Nothing,
        },
        Went::Trapped => Watched {
            loaded: NO_BYTES,
            code: look.code,
            stored: NO_BYTES,
            atomic: NO_BYTES,
            relation: Relation::Nothing,
        },
        Went::Called(came) => Watched {
            loaded: came.loaded,
            code: look.code,
            stored: came.stored,
            atomic: atomic_of(came.call, look.pc),
            relation: relation_of(came, look.pc, made),
        },
    }
}

/// The word that a call accesses as one, where it is an atomic instruction at this pc.
fn atomic_of(call: Call, pc: u32) -> Stretch
    ensures { (cpu : CpuSeen) → pc ≡ cpu.pc → (a : ℕ) → touches (atomic_span cpu call) a ≡ within (span_of result) a }
{
    match call.which {
        Which::Atomic(_) if are_apart(call.a0, pc) => Stretch {
            place: call.a0,
            count: 4,
        },
        _ => NO_BYTES,
    }
}

/// Whether two words have no byte in common.
fn are_apart(word: u32, other: u32) -> bool
    ensures { result ≡ apart word other }
{
    u64::from(word) + 3 < u64::from(other) || u64::from(other) + 3 < u64::from(word)
}

/// What a call that was served at this pc, or did its first step, means for the order, where so many threads were made before
/// it.
fn relation_of(came: Came, pc: u32, made: u32) -> Relation
    ensures { (machine : Machine) (cpu : CpuSeen) (served : Served) → length machine.kernel.lives ≡ made → pc ≡ cpu.pc → Tells served came.call came → sync_of_relation result ≡ sync_served machine cpu came.call served }
{
    if came.parked {
        return Relation::Unlocks(came.call.a1);
    }
    if came.call.which == Which::Function(Function::Exit) {
        return Relation::Exits;
    }
    if came.how.is_some() {
        return Relation::Nothing;
    }
    if let Which::Atomic(word) = came.call.which {
        return atomic_relation(came, pc, word);
    }
    if came.answer != Some(0) {
        return Relation::Nothing;
    }
    match came.call.which {
        Which::Function(Function::Unlock) => Relation::Unlocks(came.call.a0),
        Which::Function(Function::Lock | Function::TryLock) => Relation::Locks(came.call.a0),
        Which::Function(Function::Wait) => Relation::Locks(came.call.a1),
        Which::Function(Function::Create) => Relation::Makes(made),
        Which::Function(Function::Join) => Relation::Joins(came.call.a0),
        _ => Relation::Nothing,
    }
}

/// The same of the atomic instruction that a word spells: one on its own word orders nothing.
fn atomic_relation(came: Came, pc: u32, word: u32) -> Relation
    ensures { (bytes : List ℕ) → came.stores ≡ nat_lt 0 (length bytes) → sync_of_relation result ≡ (if apart came.call.a0 pc then word_sync came.call.a0 bytes (atomic_in word) else Nothing) }
{
    if !are_apart(came.call.a0, pc) {
        return Relation::Nothing;
    }
    match atomic_operation(word) {
        Some(AtomicOp::LoadReserved) => Relation::Observes(came.call.a0),
        _ if came.stores => Relation::Updates(came.call.a0),
        _ => Relation::Nothing,
    }
}
