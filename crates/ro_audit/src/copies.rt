//! What differs in a copy that a vote or a scrub makes.
ghost use Rattle.std.specs.Prelude.{◌≡◌, ◌≢◌, ◌⊎◌, ◌<◌, ◌↔◌, ℕ, IsTrue};
ghost use Rattle.ro_audit.specs.Registers.{IsMarked, AreUnequal};

use crate::audit_cores::AuditCore;
use crate::whole::Whole;
use ro_event::View;
use std::alloc::{AllocError, Global};

/// What differed in a copy.
#[derive(Drop)]
pub enum Difference {
    /// In the views of the thread that a vote was on.
    OfViews(Parts),
    /// In all that a scrub compares.
    OfReplicas(Whole),
}

/// What is compared before a copy is made.
#[derive(Clone, Copy)]
pub(crate) enum Compared {
    /// The views of this thread, by a vote.
    Views(u32),
    /// The replicas whole, by a scrub.
    Replicas,
}

impl Compared {
    /// What of it differs in two replicas.
    pub fn between<C: AuditCore>(
        self,
        alloc: Global,
        core: &C,
        one: u32,
        other: u32,
    ) -> Result<Difference, AllocError> {
        match self {
            Compared::Views(thread) => {
                let parts = parts_between(core, thread, one, other);
                Ok(Difference::OfViews(parts))
            }
            Compared::Replicas => {
                let whole = Whole::between(alloc, core, one, other)?;
                Ok(Difference::OfReplicas(whole))
            }
        }
    }
}

/// The parts in which two views differ; none by default.
#[derive(Clone, Copy, Debug, Default, PartialEq, Eq)]
pub struct Parts {
    /// Bit n is set where register xn differs.
    registers: u32,
    /// Where the thread stands.
    pub pc: bool,
    /// How many instructions it has retired since the last vote.
    pub since: bool,
    /// What it stands at.
    pub stop: bool,
    /// What it writes.
    pub payload: bool,
}

impl Parts {
    /// The parts in which two views differ.
    pub fn between(one: &View, other: &View) -> Parts
        ensures registers { AreUnequal result.registers one.now.registers other.now.registers }
        ensures pc { IsTrue result.pc ↔ (one.now.pc ≢ other.now.pc) }
        ensures since { IsTrue result.since ↔ (one.now.since ≢ other.now.since) }
        ensures stop { IsTrue result.stop ↔ (one.now.stop ≢ other.now.stop) }
        ensures payload { IsTrue result.payload ↔ (one.now.payload ≢ other.now.payload) }
    {
        Parts {
            registers: unequal(one.registers(), other.registers()),
            pc: one.pc() != other.pc(),
            since: one.since() != other.since(),
            stop: one.stop() != other.stop(),
            payload: one.payload() != other.payload(),
        }
    }

    /// Whether register xN differs, N from 1 to 31.
    pub fn has_register(self, number: u32) -> bool
        ensures { IsTrue result ↔ ((number < 32) × IsMarked self.registers number) }
    {
        number < 32 && (self.registers >> number) % 2 == 1
    }
}

// Of which registers x1 to x31 the values are not the same: bit n for xn.
fn unequal(one: &[u32; 31], other: &[u32; 31]) -> u32
    ensures { AreUnequal result one.now other.now }
{
    let mut registers = 0;
    for place in 0..31u32 {
        if one[place as usize] != other[place as usize] {
            registers = with_register(registers, place + 1);
        }
    }
    registers
}

// These registers and this one.
fn with_register(registers: u32, number: u32) -> u32
    requires { number < 32 }
    ensures { (other : ℕ) → IsMarked result other ↔ ((other ≡ number) ⊎ IsMarked registers other) }
{
    registers | 1u32 << number
}

/// A thread of a replica that is at home, where it stands still.
pub(crate) fn shown<C: AuditCore>(core: &C, replica: u32, thread: u32) -> Option<View> {
    let replica = core.replica(replica)?;
    let stop = replica.stop(thread)?;
    let mut view = View::new([0; 31], 0, 0, stop);
    replica.view(thread, &mut view);
    Some(view)
}

/// What of a thread that stands still differs in two replicas.
pub(crate) fn parts_between<C: AuditCore>(core: &C, thread: u32, one: u32, other: u32) -> Parts {
    match (shown(core, one, thread), shown(core, other, thread)) {
        (Some(one), Some(other)) => Parts::between(&one, &other),
        _ => Parts::default(),
    }
}
