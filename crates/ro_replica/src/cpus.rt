//! Registers and pc of threads as they begin, and after an effect.
ghost use Rattle.std.specs.Prelude.{ℕ, ◌≡◌, ◌<◌};
ghost use Rattle.ro_kernel.specs.Serve.{answer_effect, goes_after};
ghost use Rattle.ro_exec.specs.Registers.{register};
ghost use Rattle.ro_exec.specs.Threads.{with_stack, first_cpu as first, made_cpu as made_of, goes_on, cpu_after};

use ro_event::{Call, Effect, Goes, Made, Which};
use ro_exec::{Cpu, EXIT_PLACE};
use ro_limits::{FIRST_STACK, STACK_SIZE, STACK_STEP};

/// The number of the register a0, in which calls are answered.
const A0: u8 = 10;

/// Where the first stack ends.
const FIRST_STACK_END: u32 = FIRST_STACK + STACK_SIZE;

/// A thread's registers with its stack alone.
fn with_stack(thread: u32, pc: u32) -> Cpu
    requires { thread < 16 }
    ensures registers { result.registers ≡ with_stack thread }
    ensures pc { result.pc ≡ pc }
{
    let mut cpu = Cpu {
        registers: [0; 31],
        pc,
    };
    cpu.set(2, FIRST_STACK_END + thread * STACK_STEP - 16);
    cpu
}

/// The first thread at the opening.
#[tactic(auto, unfolding(ro_exec::specs::Threads::first_cpu))]
pub fn first_cpu(entry: u32) -> Cpu
    ensures { result ≡ first entry }
{
    with_stack(0, entry)
}

/// A thread of this number that another one makes.
#[tactic(auto, unfolding(ro_exec::specs::Threads::made_cpu))]
pub fn made_cpu(made: &Made, creator: &Cpu, thread: u32) -> Cpu
    requires { thread < 16 }
    ensures { result ≡ made_of made.now creator.now thread }
{
    let mut cpu = with_stack(thread, made.start);
    cpu.set(3, creator.get(3));
    cpu.set(4, thread);
    cpu.set(10, made.argument);
    cpu.set(1, EXIT_PLACE);
    cpu
}

/// Where a thread goes on.
fn next_pc(goes: Goes, cpu: &Cpu) -> u32
    ensures { result ≡ goes_on goes cpu.now }
{
    match goes {
        Goes::Stays => cpu.pc,
        Goes::Next => cpu.pc.wrapping_add(4),
        Goes::Returns => cpu.get(1),
    }
}

/// Does what an effect does to a thread's registers and pc.
pub fn change(cpu: &mut Cpu, effect: &Effect)
    ensures { cpu.new ≡ cpu_after effect.now cpu.old }
{
    let pc = next_pc(effect.goes, cpu);
    if let Some(answer) = effect.answer {
        cpu.put(effect.register, answer);
    }
    cpu.pc = pc;
}

// Where a thread goes on behind a call.
fn goes_after(which: Which) -> Goes
    ensures { result ≡ goes_after which }
{
    match which {
        Which::System(_) | Which::Atomic(_) => Goes::Next,
        Which::Function(_) => Goes::Returns,
    }
}

/// Does to a thread's registers and pc what the answer of a call does that does nothing else.
pub(crate) fn answer(cpu: &mut Cpu, call: Call, value: u32)
    ensures { (number : ℕ) → cpu.new ≡ cpu_after (answer_effect number call value) cpu.old }
{
    let pc = next_pc(goes_after(call.which), cpu);
    cpu.put(A0, value);
    cpu.pc = pc;
}
