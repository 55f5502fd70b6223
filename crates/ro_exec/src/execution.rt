//! What each instruction does.
ghost use Rattle.std.specs.Prelude.{◌≡◌, ◌+◌, ◌*◌, ◌/◌, ◌%◌, ◌^◌, ◌<◌, ◌≤◌, true, Some};
ghost use Rattle.ro_decode.specs.Table.{InRange};
ghost use Rattle.ro_alu.specs.Results.{low_word};
ghost use Rattle.ro_pages.specs.Bytes.{IsSize, number_at, bytes_of, stored};
ghost use Rattle.ro_exec.specs.Meaning.{with_value, jumps, goes_to, load_size as load_size_of, store_size as store_size_of, loaded_as};
ghost use Rattle.ro_exec.specs.Registers.{register};
ghost use Rattle.ro_exec.specs.Next.{Executes, permits_atomic, misaligned_by, forbidden_by, atomic_stop, atomic_call, instruction_stop, unless_stop};
ghost use Rattle.ro_exec.specs.Steps.{IsStep, IsJump};
ghost use Rattle.ro_region.specs.Permission.{ranges_of};

use crate::Cpu;
use crate::access::check_access;
use crate::fetching::call;
use crate::outcome::Step;
use ro_alu::{alu, muldiv, taken};
use ro_decode::{AtomicOp, Instr, LoadOp, StoreOp, encode};
use ro_event::{Call, Stop, TrapCause, Which};
use ro_pages::Memory;
use ro_region::{Kind, Regions};

/// How many bytes a load reads.
#[inline(always)]
pub fn load_size(op: LoadOp) -> u32
    ensures value { result ≡ load_size_of op }
    ensures size { IsSize result }
    ensures positive { 0 < result }
    ensures few { result ≤ 4 }
{
    match op {
        LoadOp::Lb | LoadOp::Lbu => 1,
        LoadOp::Lh | LoadOp::Lhu => 2,
        LoadOp::Lw => 4,
    }
}

/// How many bytes a store writes.
#[inline(always)]
pub fn store_size(op: StoreOp) -> u32
    ensures value { result ≡ store_size_of op }
    ensures size { IsSize result }
    ensures positive { 0 < result }
    ensures few { result ≤ 4 }
{
    match op {
        StoreOp::Sb => 1,
        StoreOp::Sh => 2,
        StoreOp::Sw => 4,
    }
}

/// What a load puts into its register; LB and LH spread the sign of what they find.
#[inline(always)]
pub fn load<M: Memory>(memory: &M, op: LoadOp, address: u32) -> u32
    requires aligned { address % load_size_of op ≡ 0 }
    requires backed { M.backing memory.now (address / 4096) ≡ true }
    ensures { result ≡ loaded_as op (number_at (M.memory memory.now) address (load_size_of op)) }
{
    spread(op, memory.load(address, load_size(op)))
}

/// What a load puts into its register of what it found.
#[inline(always)]
pub fn spread(op: LoadOp, found: u32) -> u32
    requires { found < 2 ^ (8 * load_size_of op) }
    ensures { result ≡ loaded_as op found }
{
    match op {
        LoadOp::Lb => found + (found >> 7) * 0xFFFF_FF00,
        LoadOp::Lh => found + (found >> 15) * 0xFFFF_0000,
        LoadOp::Lw | LoadOp::Lbu | LoadOp::Lhu => found,
    }
}

/// Stores as many bytes of a value as the store writes.
#[inline(always)]
pub fn store<M: Memory>(memory: &mut M, op: StoreOp, address: u32, value: u32)
    requires aligned { address % store_size_of op ≡ 0 }
    requires backed { M.backing memory.old (address / 4096) ≡ true }
    ensures bytes { M.memory memory.new ≡ stored (M.memory memory.old) address (bytes_of (store_size_of op) value) }
    ensures pages { M.backing memory.new ≡ M.backing memory.old }
    ensures kept { M.kept memory.new ≡ M.kept memory.old }
{
    match op {
        StoreOp::Sb => memory.store(address, 1, value),
        StoreOp::Sh => memory.store(address, 2, value),
        StoreOp::Sw => memory.store(address, 4, value),
    }
}

/// Goes on at the next instruction.
#[inline(always)]
fn go_on(cpu: &mut Cpu) -> Step
    ensures did { result ≡ Step.Did }
    ensures cpu { cpu.new ≡ (goes_to cpu.old (low_word (cpu.old.pc + 4))).cpu }
{
    cpu.pc = cpu.pc.wrapping_add(4);
    Step::Did
}

/// Goes on at the next instruction with a value in rd.
#[inline(always)]
fn give(cpu: &mut Cpu, rd: u8, value: u32) -> Step
    requires { rd < 32 }
    ensures did { result ≡ Step.Did }
    ensures cpu { cpu.new ≡ (with_value cpu.old rd value).cpu }
{
    cpu.set(rd, value);
    go_on(cpu)
}

/// Jumps, with the place after the jump in rd.
#[inline(always)]
fn jump(cpu: &mut Cpu, rd: u8, target: u32) -> Step
    requires { rd < 32 }
    ensures { IsJump target result cpu.old cpu.new (jumps cpu.old rd target).cpu }
{
    if target % 4 != 0 {
        return Step::Stopped(Stop::Trap(TrapCause::MisalignedTarget));
    }
    cpu.set(rd, cpu.pc.wrapping_add(4));
    cpu.pc = target;
    Step::Did
}

/// Goes on at the place that a branch comes to.
#[inline(always)]
fn branch(cpu: &mut Cpu, target: u32) -> Step
    ensures { IsJump target result cpu.old cpu.new (goes_to cpu.old target).cpu }
{
    if target % 4 != 0 {
        return Step::Stopped(Stop::Trap(TrapCause::MisalignedTarget));
    }
    cpu.pc = target;
    Step::Did
}

/// Executes a load, or says at which stop the thread stands at it.
#[tactic(auto, unfolding(crate::specs::Next::instruction_stop, crate::specs::Meaning::meaning))]
#[inline(always)]
fn execute_load<M: Memory>(
    cpu: &mut Cpu,
    memory: &M,
    regions: &Regions,
    op: LoadOp,
    rd: u8,
    rs1: u8,
    imm: u32,
) -> Step
    requires rd { rd < 32 }
    requires rs1 { rs1 < 32 }
    ensures { let instr = Instr.Load op rd rs1 imm in IsStep (unless_stop (instruction_stop (ranges_of regions.now) (M.backing memory.now) cpu.old instr) (Executes instr)) result cpu.old cpu.new (M.memory memory.now) (M.memory memory.now) }
{
    let address = cpu.get(rs1).wrapping_add(imm);
    match check_access(
        memory,
        regions,
        Kind::Read,
        address,
        load_size(op),
        TrapCause::MisalignedLoad,
        TrapCause::ForbiddenLoad,
    ) {
        Ok(()) => give(cpu, rd, load(memory, op, address)),
        Err(stop) => Step::Stopped(stop),
    }
}

/// Executes a store, or says at which stop the thread stands at it.
#[tactic(auto, unfolding(crate::specs::Next::instruction_stop, crate::specs::Meaning::meaning))]
#[inline(always)]
fn execute_store<M: Memory>(
    cpu: &mut Cpu,
    memory: &mut M,
    regions: &Regions,
    op: StoreOp,
    rs1: u8,
    rs2: u8,
    imm: u32,
) -> Step
    requires rs1 { rs1 < 32 }
    requires rs2 { rs2 < 32 }
    ensures step { let instr = Instr.Store op rs1 rs2 imm in IsStep (unless_stop (instruction_stop (ranges_of regions.now) (M.backing memory.old) cpu.old instr) (Executes instr)) result cpu.old cpu.new (M.memory memory.old) (M.memory memory.new) }
    ensures pages { M.backing memory.new ≡ M.backing memory.old }
    ensures kept { M.kept memory.new ≡ M.kept memory.old }
{
    let address = cpu.get(rs1).wrapping_add(imm);
    match check_access(
        memory,
        regions,
        Kind::Write,
        address,
        store_size(op),
        TrapCause::MisalignedStore,
        TrapCause::ForbiddenStore,
    ) {
        Ok(()) => {
            store(memory, op, address, cpu.get(rs2));
            go_on(cpu)
        }
        Err(stop) => Step::Stopped(stop),
    }
}

/// Whether an atomic instruction may access its word: LR loads, SC stores, and all others do both.
fn permits_atomic(regions: &Regions, op: AtomicOp, address: u32) -> bool
    ensures { result ≡ permits_atomic (ranges_of regions.now) op address }
{
    match op {
        AtomicOp::LoadReserved => regions.permits(address, 4, Kind::Read),
        AtomicOp::StoreConditional => regions.permits(address, 4, Kind::Write),
        _ => regions.permits(address, 4, Kind::Read) && regions.permits(address, 4, Kind::Write),
    }
}

/// The trap of an atomic instruction whose word is misaligned.
fn misaligned_by(op: AtomicOp) -> TrapCause
    ensures { result ≡ misaligned_by op }
{
    match op {
        AtomicOp::LoadReserved => TrapCause::MisalignedLoad,
        _ => TrapCause::MisalignedStore,
    }
}

/// The trap of an atomic instruction whose word is forbidden.
fn forbidden_by(op: AtomicOp) -> TrapCause
    ensures { result ≡ forbidden_by op }
{
    match op {
        AtomicOp::LoadReserved => TrapCause::ForbiddenLoad,
        _ => TrapCause::ForbiddenStore,
    }
}

/// The question of an atomic instruction to the kernel, which does it: its word, the address and the operand.
fn atomic_call(instr: Instr, cpu: &Cpu, rs1: u8, rs2: u8) -> Stop
    requires in_range { InRange instr }
    requires rs1 { rs1 < 32 }
    requires rs2 { rs2 < 32 }
    ensures { result ≡ atomic_call cpu.now instr rs1 rs2 }
{
    Stop::Calls(Call {
        which: Which::Atomic(encode(instr)),
        a0: cpu.get(rs1),
        a1: cpu.get(rs2),
        a2: 0,
        a3: 0,
    })
}

/// Says at which stop the thread stands at an atomic instruction: a trap, or its question. It changes nothing.
fn execute_atomic(
    instr: Instr,
    cpu: &Cpu,
    regions: &Regions,
    op: AtomicOp,
    rs1: u8,
    rs2: u8,
) -> Stop
    requires in_range { InRange instr }
    requires rs1 { rs1 < 32 }
    requires rs2 { rs2 < 32 }
    ensures { atomic_stop (ranges_of regions.now) op (register cpu.now rs1) (atomic_call cpu.now instr rs1 rs2) ≡ Some result }
{
    let address = cpu.get(rs1);
    if address % 4 != 0 {
        return Stop::Trap(misaligned_by(op));
    }
    if !permits_atomic(regions, op, address) {
        return Stop::Trap(forbidden_by(op));
    }
    atomic_call(instr, cpu, rs1, rs2)
}

/// Executes an instruction, or says at which stop the thread stands at it.
///
/// RISC-V Unprivileged ISA 20191213, sections 2.4 to 2.8 and chapters 7 and 8. Where the standard lets an implementation
/// choose: a misaligned load, store, jump or atomic instruction stops the thread, and FENCE does nothing.
#[tactic(auto, using(crate::proofs::Atomics::operand_below), unfolding(crate::specs::Next::instruction_stop, crate::specs::Meaning::meaning))]
#[inline(always)]
pub fn execute<M: Memory>(instr: Instr, cpu: &mut Cpu, memory: &mut M, regions: &Regions) -> Step
    requires { InRange instr }
    ensures step { IsStep (unless_stop (instruction_stop (ranges_of regions.now) (M.backing memory.old) cpu.old instr) (Executes instr)) result cpu.old cpu.new (M.memory memory.old) (M.memory memory.new) }
    ensures pages { M.backing memory.new ≡ M.backing memory.old }
    ensures kept { M.kept memory.new ≡ M.kept memory.old }
{
    let pc = cpu.pc;
    match instr {
        Instr::Lui { rd, imm } => give(cpu, rd, imm),
        Instr::Auipc { rd, imm } => give(cpu, rd, pc.wrapping_add(imm)),
        Instr::Jal { rd, imm } => jump(cpu, rd, pc.wrapping_add(imm)),
        Instr::Jalr { rd, rs1, imm } => {
            let target = cpu.get(rs1).wrapping_add(imm) / 2 * 2;
            jump(cpu, rd, target)
        }
        Instr::Branch { op, rs1, rs2, imm } => {
            if taken(op, cpu.get(rs1), cpu.get(rs2)) {
                branch(cpu, pc.wrapping_add(imm))
            } else {
                branch(cpu, pc.wrapping_add(4))
            }
        }
        Instr::Load { op, rd, rs1, imm } => execute_load(cpu, memory, regions, op, rd, rs1, imm),
        Instr::Store { op, rs1, rs2, imm } => {
            execute_store(cpu, memory, regions, op, rs1, rs2, imm)
        }
        Instr::AluImm { op, rd, rs1, imm } => give(cpu, rd, alu(op, cpu.get(rs1), imm)),
        Instr::Alu { op, rd, rs1, rs2 } => give(cpu, rd, alu(op, cpu.get(rs1), cpu.get(rs2))),
        Instr::MulDiv { op, rd, rs1, rs2 } => {
            give(cpu, rd, muldiv(op, cpu.get(rs1), cpu.get(rs2)))
        }
        Instr::Fence { .. } => go_on(cpu),
        Instr::Atomic { op, rs1, rs2, .. } => {
            Step::Stopped(execute_atomic(instr, cpu, regions, op, rs1, rs2))
        }
        Instr::Ecall => Step::Stopped(call(cpu, Which::System(cpu.get(17)))),
        Instr::Ebreak => Step::Stopped(Stop::Trap(TrapCause::Breakpoint)),
    }
}
