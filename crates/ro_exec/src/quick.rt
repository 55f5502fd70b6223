//! Most steps, done by one jump; what is not done here is left to `step`.
ghost use Rattle.std.specs.Prelude.{◌≡◌, ◌+◌, ◌*◌, ◌/◌, ◌%◌, ◌^◌, ◌<◌, ◌≤◌, true, false, Some, None};
ghost use Rattle.ro_decode.specs.Table.{InRange, instruction_of};
ghost use Rattle.ro_alu.specs.Results.{low_word};
ghost use Rattle.ro_exec.specs.Registers.{with_register};
ghost use Rattle.ro_exec.specs.Next.{Executes, instruction_stop, unless_stop, next_at, next, jump_stop};
ghost use Rattle.ro_exec.specs.Steps.{IsQuick};
ghost use Rattle.ro_exec.specs.Stretches.{IsOn, IsAlong, IsClear, IsKept, AreOpenTo};
ghost use Rattle.ro_region.specs.Permission.{ranges_of};

use crate::bank::Bank;
use crate::data::Open;
use crate::execution::{load_size, spread, store_size};
use crate::left::{left_even, left_odd};
use crate::stretch::Stretch;
use ro_alu::{alu, muldiv, taken};
use ro_decode::{AluOp, BranchOp, Instr, LoadOp, MulDivOp, StoreOp, funct7, rows};
use ro_event::CallTable;
use ro_pages::Memory;
use ro_region::{Kind, Regions};

/// Goes on at the next instruction with a value in rd.
#[inline(always)]
fn give(registers: &mut Bank, pc: &mut u32, next: u32, rd: u8, value: u32)
    requires { rd < 32 }
    ensures registers { registers.new ≡ with_register registers.old rd value }
    ensures pc { pc.new ≡ next }
{
    registers.set(rd, value);
    *pc = next;
}

/// Jumps, with the next instruction's place in rd, if the target is a multiple of 4.
#[inline(always)]
fn jump(
    registers: &mut Bank,
    pc: &mut u32,
    next: u32,
    rd: u8,
    target: u32,
    stretch: &Stretch,
    until: &mut u32,
) -> bool
    requires rd { rd < 32 }
    requires on { IsOn stretch.now until.old pc.old next }
    ensures registers { result ≡ true → registers.new ≡ with_register registers.old rd next }
    ensures pc { result ≡ true → (pc.new ≡ target) × (jump_stop target ≡ None) }
    ensures left { result ≡ false → (registers.new ≡ registers.old) × (pc.new ≡ pc.old) }
    ensures along { IsAlong stretch.now until.new pc.new }
{
    if !stretch.leads(until, target) {
        return false;
    }
    registers.set(rd, next);
    *pc = target;
    true
}

/// Goes on at the place that a branch comes to, if it is a multiple of 4.
#[inline(always)]
fn branch(pc: &mut u32, next: u32, target: u32, stretch: &Stretch, until: &mut u32) -> bool
    requires on { IsOn stretch.now until.old pc.old next }
    ensures did { result ≡ true → (pc.new ≡ target) × (jump_stop target ≡ None) }
    ensures left { result ≡ false → pc.new ≡ pc.old }
    ensures along { IsAlong stretch.now until.new pc.new }
{
    if !stretch.leads(until, target) {
        return false;
    }
    *pc = target;
    true
}

/// Executes an instruction, or changes nothing. `next` is the next instruction's place; it is computed once, before the word is
/// read, so that all instructions but jumps go on with one value.
#[tactic(auto, unfolding(crate::specs::Next::instruction_stop, crate::specs::Meaning::meaning))]
#[inline(always)]
fn execute<M: Memory>(
    instr: Instr,
    registers: &mut Bank,
    pc: &mut u32,
    next: u32,
    memory: &mut M,
    reads: &mut Open,
    writes: &mut Open,
    regions: &Regions,
    stretch: &Stretch,
    until: &mut u32,
) -> bool
    requires in_range { InRange instr }
    requires on { IsOn stretch.now until.old pc.old next }
    requires reads { AreOpenTo (ranges_of regions.now) (M.backing memory.old) (M.kept memory.old) Kind.Read reads.old.stretches }
    requires writes { AreOpenTo (ranges_of regions.now) (M.backing memory.old) (M.kept memory.old) Kind.Write writes.old.stretches }
    ensures step { IsQuick result (unless_stop (instruction_stop (ranges_of regions.now) (M.backing memory.old) (record { registers = registers.old; pc = pc.old }) instr) (Executes instr)) (record { registers = registers.old; pc = pc.old }) (record { registers = registers.new; pc = pc.new }) (M.memory memory.old) (M.memory memory.new) }
    ensures pages { M.backing memory.new ≡ M.backing memory.old }
    ensures kept { M.kept memory.new ≡ M.kept memory.old }
    ensures reads { AreOpenTo (ranges_of regions.now) (M.backing memory.old) (M.kept memory.old) Kind.Read reads.new.stretches }
    ensures writes { AreOpenTo (ranges_of regions.now) (M.backing memory.old) (M.kept memory.old) Kind.Write writes.new.stretches }
    ensures along { IsAlong stretch.now until.new pc.new }
{
    let place = *pc;
    match instr {
        Instr::Lui { rd, imm } => {
            give(registers, pc, next, rd, imm);
            true
        }
        Instr::Auipc { rd, imm } => {
            give(registers, pc, next, rd, place.wrapping_add(imm));
            true
        }
        Instr::Jal { rd, imm } => {
            let target = place.wrapping_add(imm);
            jump(registers, pc, next, rd, target, stretch, until)
        }
        Instr::Jalr { rd, rs1, imm } => {
            let target = registers.get(rs1).wrapping_add(imm) / 2 * 2;
            jump(registers, pc, next, rd, target, stretch, until)
        }
        Instr::Branch { op, rs1, rs2, imm } => {
            if taken(op, registers.get(rs1), registers.get(rs2)) {
                branch(pc, next, place.wrapping_add(imm), stretch, until)
            } else {
                *pc = next;
                true
            }
        }
        Instr::Load { op, rd, rs1, imm } => {
            let address = registers.get(rs1).wrapping_add(imm);
            if !reads.shows(address, load_size(op), memory, regions, Kind::Read) {
                return false;
            }
            let kept = reads.at(address).place;
            let found = memory.load_kept(kept, address, load_size(op));
            give(registers, pc, next, rd, spread(op, found));
            true
        }
        Instr::Store { op, rs1, rs2, imm } => {
            let address = registers.get(rs1).wrapping_add(imm);
            if !writes.shows(address, store_size(op), memory, regions, Kind::Write) {
                return false;
            }
            let kept = writes.at(address).place;
            memory.store_kept(kept, address, store_size(op), registers.get(rs2));
            *pc = next;
            true
        }
        Instr::AluImm { op, rd, rs1, imm } => {
            give(registers, pc, next, rd, alu(op, registers.get(rs1), imm));
            true
        }
        Instr::Alu { op, rd, rs1, rs2 } => {
            let value = alu(op, registers.get(rs1), registers.get(rs2));
            give(registers, pc, next, rd, value);
            true
        }
        Instr::MulDiv { op, rd, rs1, rs2 } => {
            let value = muldiv(op, registers.get(rs1), registers.get(rs2));
            give(registers, pc, next, rd, value);
            true
        }
        Instr::Fence { .. } | Instr::Atomic { .. } | Instr::Ecall | Instr::Ebreak => false,
    }
}

/// Executes what a word spells, by one jump, or changes nothing.
#[inline(always)]
fn read_and_execute<M: Memory, User>(
    word: u32,
    registers: &mut Bank,
    pc: &mut u32,
    next: u32,
    memory: &mut M,
    reads: &mut Open,
    writes: &mut Open,
    regions: &Regions,
    stretch: &Stretch,
    until: &mut u32,
) -> bool
    requires on { IsOn stretch.now until.old pc.old next }
    requires reads { AreOpenTo (ranges_of regions.now) (M.backing memory.old) (M.kept memory.old) Kind.Read reads.old.stretches }
    requires writes { AreOpenTo (ranges_of regions.now) (M.backing memory.old) (M.kept memory.old) Kind.Write writes.old.stretches }
    ensures step { IsQuick result (next_at (ranges_of regions.now) (M.backing memory.old) (record { registers = registers.old; pc = pc.old }) (instruction_of word)) (record { registers = registers.old; pc = pc.old }) (record { registers = registers.new; pc = pc.new }) (M.memory memory.old) (M.memory memory.new) }
    ensures pages { M.backing memory.new ≡ M.backing memory.old }
    ensures kept { M.kept memory.new ≡ M.kept memory.old }
    ensures reads { AreOpenTo (ranges_of regions.now) (M.backing memory.old) (M.kept memory.old) Kind.Read reads.new.stretches }
    ensures writes { AreOpenTo (ranges_of regions.now) (M.backing memory.old) (M.kept memory.old) Kind.Write writes.new.stretches }
    ensures along { IsAlong stretch.now until.new pc.new }
{
    // executes this instruction
    macro_rules! does {
        ($instr:expr) => {
            execute($instr, registers, pc, next, memory, reads, writes, regions, stretch, until)
        };
    }
    // Executes that of these instructions which the word's funct7 names. Most words have a funct7 of 0, which is one comparison
    // of the word.
    macro_rules! by_funct7 {
        (0 => $first:expr $(, $funct7:literal => $other:expr)* $(,)?) => {
            if word < 0x0200_0000 {
                does!($first)
            } else {
                match funct7(word) {
                    $($funct7 => does!($other),)*
                    _ => false,
                }
            }
        };
    }
    // by 8 * opcode + funct3; LUI, AUIPC and JAL have no funct3, so each has eight rows, the even and the odd ones
    match rows::row(word) {
        0x1B8 | 0x1BA | 0x1BC | 0x1BE => does!(rows::lui(word)),
        0x1B9 | 0x1BB | 0x1BD | 0x1BF => does!(rows::lui(word)),
        0x0B8 | 0x0BA | 0x0BC | 0x0BE => does!(rows::auipc(word)),
        0x0B9 | 0x0BB | 0x0BD | 0x0BF => does!(rows::auipc(word)),
        0x378 | 0x37A | 0x37C | 0x37E => does!(rows::jal(word)),
        0x379 | 0x37B | 0x37D | 0x37F => does!(rows::jal(word)),
        0x338 => does!(rows::jalr(word)),
        0x318 => does!(rows::branch(word, BranchOp::Beq)),
        0x319 => does!(rows::branch(word, BranchOp::Bne)),
        0x31C => does!(rows::branch(word, BranchOp::Blt)),
        0x31D => does!(rows::branch(word, BranchOp::Bge)),
        0x31E => does!(rows::branch(word, BranchOp::Bltu)),
        0x31F => does!(rows::branch(word, BranchOp::Bgeu)),
        0x018 => does!(rows::load(word, LoadOp::Lb)),
        0x019 => does!(rows::load(word, LoadOp::Lh)),
        0x01A => does!(rows::load(word, LoadOp::Lw)),
        0x01C => does!(rows::load(word, LoadOp::Lbu)),
        0x01D => does!(rows::load(word, LoadOp::Lhu)),
        0x118 => does!(rows::store(word, StoreOp::Sb)),
        0x119 => does!(rows::store(word, StoreOp::Sh)),
        0x11A => does!(rows::store(word, StoreOp::Sw)),
        0x098 => does!(rows::alu_imm(word, AluOp::Add)),
        0x09A => does!(rows::alu_imm(word, AluOp::Slt)),
        0x09B => does!(rows::alu_imm(word, AluOp::Sltu)),
        0x09C => does!(rows::alu_imm(word, AluOp::Xor)),
        0x09E => does!(rows::alu_imm(word, AluOp::Or)),
        0x09F => does!(rows::alu_imm(word, AluOp::And)),
        0x099 => by_funct7!(0 => rows::sll_imm(word)),
        0x09D => by_funct7!(
            0 => rows::srl_imm(word),
            32 => rows::sra_imm(word),
        ),
        0x198 => by_funct7!(
            0 => rows::alu(word, AluOp::Add),
            1 => rows::muldiv(word, MulDivOp::Mul),
            32 => rows::other_alu(word, AluOp::Sub),
        ),
        0x199 => by_funct7!(
            0 => rows::alu(word, AluOp::Sll),
            1 => rows::muldiv(word, MulDivOp::Mulh),
        ),
        0x19A => by_funct7!(
            0 => rows::alu(word, AluOp::Slt),
            1 => rows::muldiv(word, MulDivOp::Mulhsu),
        ),
        0x19B => by_funct7!(
            0 => rows::alu(word, AluOp::Sltu),
            1 => rows::muldiv(word, MulDivOp::Mulhu),
        ),
        0x19C => by_funct7!(
            0 => rows::alu(word, AluOp::Xor),
            1 => rows::muldiv(word, MulDivOp::Div),
        ),
        0x19D => by_funct7!(
            0 => rows::alu(word, AluOp::Srl),
            1 => rows::muldiv(word, MulDivOp::Divu),
            32 => rows::other_alu(word, AluOp::Sra),
        ),
        0x19E => by_funct7!(
            0 => rows::alu(word, AluOp::Or),
            1 => rows::muldiv(word, MulDivOp::Rem),
        ),
        0x19F => by_funct7!(
            0 => rows::alu(word, AluOp::And),
            1 => rows::muldiv(word, MulDivOp::Remu),
        ),
        left_even!() => false,
        left_odd!() => false,
        _ => false,
    }
}

/// Does the next instruction of a thread, or changes nothing of the thread and the memory. The stretch is of code that was
/// found last, and `until` is the place at which code is looked up again; it may be the pc. The other two stretches are of
/// data. `User` names whoever calls it: each has an instance of its own then, and so large
/// a function becomes a part of a loop only where it is called from one place.
#[tactic(auto, unfolding(crate::specs::Next::next))]
#[inline(always)]
pub fn quick_step<M: Memory, User>(
    registers: &mut Bank,
    pc: &mut u32,
    memory: &mut M,
    reads: &mut Open,
    writes: &mut Open,
    regions: &Regions,
    calls: &CallTable,
    stretch: &mut Stretch,
    until: &mut u32,
) -> bool
    requires aligned { stretch.old.from % 4 ≡ 0 }
    requires bounded { stretch.old.from + 4 * stretch.old.words ≤ 2 ^ 32 }
    requires clear { IsClear (record { ranges = ranges_of regions.now; calls = calls.now }) (M.backing memory.old) stretch.old }
    requires page { IsKept (M.kept memory.old) stretch.old }
    requires along { IsAlong stretch.old until.old pc.old }
    requires reads { AreOpenTo (ranges_of regions.now) (M.backing memory.old) (M.kept memory.old) Kind.Read reads.old.stretches }
    requires writes { AreOpenTo (ranges_of regions.now) (M.backing memory.old) (M.kept memory.old) Kind.Write writes.old.stretches }
    ensures step { IsQuick result (next (record { ranges = ranges_of regions.now; calls = calls.now }) (M.backing memory.old) (M.memory memory.old) (record { registers = registers.old; pc = pc.old })) (record { registers = registers.old; pc = pc.old }) (record { registers = registers.new; pc = pc.new }) (M.memory memory.old) (M.memory memory.new) }
    ensures pages { M.backing memory.new ≡ M.backing memory.old }
    ensures kept { M.kept memory.new ≡ M.kept memory.old }
    ensures reads { AreOpenTo (ranges_of regions.now) (M.backing memory.old) (M.kept memory.old) Kind.Read reads.new.stretches }
    ensures writes { AreOpenTo (ranges_of regions.now) (M.backing memory.old) (M.kept memory.old) Kind.Write writes.new.stretches }
    ensures aligned { stretch.new.from % 4 ≡ 0 }
    ensures bounded { stretch.new.from + 4 * stretch.new.words ≤ 2 ^ 32 }
    ensures clear { IsClear (record { ranges = ranges_of regions.now; calls = calls.now }) (M.backing memory.old) stretch.new }
    ensures page { IsKept (M.kept memory.old) stretch.new }
    ensures along { IsAlong stretch.new until.new pc.new }
{
    let place = *pc;
    if !stretch.goes_along(until, place, memory, regions, calls) {
        return false;
    }
    let next = stretch.after(*until, place);
    let word = memory.load_at(stretch.place, place);
    read_and_execute::<M, User>(
        word, registers, pc, next, memory, reads, writes, regions, stretch, until,
    )
}
