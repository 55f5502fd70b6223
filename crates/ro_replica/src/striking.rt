//! Striking the faults that are due.
ghost use Rattle.std.specs.Prelude.{◌≡◌, ◌+◌, ◌<◌, ◌≤◌, true, Some, length, filter, fold, option_map, slice_get};
ghost use Rattle.ro_faults.specs.Texts.{is_target};
ghost use Rattle.ro_faults.specs.Flips.{flipped};
ghost use Rattle.ro_exec.specs.Registers.{register, with_register};
ghost use Rattle.ro_replica.specs.Runs.{struck_by, is_due, struck};
ghost use Rattle.ro_replica.specs.Seen.{replica_of, SameProgram};

use crate::replicas::Replica;
use crate::waiting::is_due;
use ro_exec::Cpu;
use ro_faults::Target;
use ro_limits::PAGE_SIZE;
use ro_pages::Memory;

impl Replica {
    /// Strikes the faults of a thread that are due, in the list's order, and counts them. They wait no longer then.
    pub(crate) fn strike(&mut self, thread: u32) -> u32
        requires { thread < length self.old.threads }
        ensures program { SameProgram self.new self.old }
        ensures struck { struck self.old.layout.ranges (replica_of self.old) thread ≡ record { replica = replica_of self.new; hit = result } }
        ensures fewer { result + length self.new.waiting ≡ length self.old.waiting }
        ensures few { result + length self.new.waiting ≤ 256 }
        ensures threads { length self.new.threads ≡ length self.old.threads }
    {
        let done = self.threads[thread as usize].done;
        if self.waiting.is_known_free(thread, done) {
            return 0;
        }
        self.strike_due(thread, done)
    }

    // The same, where a fault may be due. It stands apart, since in a run without faults none is.
    #[cold]
    #[inline(never)]
    fn strike_due(&mut self, thread: u32, done: u128) -> u32
        requires thread { thread < length self.old.threads }
        requires done { option_map (λ x. x.done) (slice_get self.old.threads thread) ≡ Some done }
        ensures program { SameProgram self.new self.old }
        ensures struck { struck self.old.layout.ranges (replica_of self.old) thread ≡ record { replica = replica_of self.new; hit = result } }
        ensures fewer { result + length self.new.waiting ≡ length self.old.waiting }
        ensures few { result + length self.new.waiting ≤ 256 }
        ensures threads { length self.new.threads ≡ length self.old.threads }
    {
        let hit = self.strike_all(thread, done);
        self.waiting.forget(thread, done);
        hit
    }

    // Strikes all faults of a thread that are due at a count, and counts them.
    fn strike_all(&mut self, thread: u32, done: u128) -> u32
        requires { thread < length self.old.threads }
        ensures program { SameProgram self.new self.old }
        ensures waiting { self.new.waiting ≡ self.old.waiting }
        ensures struck { replica_of self.new ≡ fold (λ r fault. struck_by self.old.layout.ranges thread r fault.target) (replica_of self.old) (filter (is_due thread done) self.old.waiting) }
        ensures hit { result ≡ length (filter (is_due thread done) self.old.waiting) }
        ensures threads { length self.new.threads ≡ length self.old.threads }
    {
        let mut hit = 0;
        for i in 0..self.waiting.len() {
            let fault = self.waiting.at(i);
            if is_due(&fault, thread, done) {
                self.strike_at(thread, fault.target);
                hit += 1;
            }
        }
        hit
    }

    // Strikes one target. A byte of an unbacked page or of no permitted range stays as it is.
    fn strike_at(&mut self, thread: u32, target: Target)
        requires thread { thread < length self.old.threads }
        requires target { is_target target ≡ true }
        ensures program { SameProgram self.new self.old }
        ensures struck { replica_of self.new ≡ struck_by self.old.layout.ranges thread (replica_of self.old) target }
        ensures threads { length self.new.threads ≡ length self.old.threads }
    {
        match target {
            Target::Register { number, bit } => {
                flip_register(&mut self.threads[thread as usize].cpu, number, bit)
            }
            Target::Pc { bit } => flip_pc(&mut self.threads[thread as usize].cpu, bit),
            Target::Byte { address, bit } => {
                if self.pages.backed(address / PAGE_SIZE) && self.regions.contains(address) {
                    let byte = self.pages.load(address, 1);
                    self.pages.store(address, 1, flip(byte, bit));
                }
            }
        }
    }
}

fn flip(number: u32, bit: u8) -> u32
    requires { bit < 32 }
    ensures { result ≡ flipped number bit }
{
    number ^ (1 << bit)
}

fn flip_register(cpu: &mut Cpu, number: u8, bit: u8)
    requires number { number < 32 }
    requires bit { bit < 32 }
    ensures { cpu.new ≡ record cpu.old { registers = with_register cpu.old.registers number (flipped (register cpu.old number) bit) } }
{
    cpu.set(number, flip(cpu.get(number), bit));
}

fn flip_pc(cpu: &mut Cpu, bit: u8)
    requires { bit < 32 }
    ensures { cpu.new ≡ record cpu.old { pc = flipped cpu.old.pc bit } }
{
    cpu.pc = flip(cpu.pc, bit);
}
