//! The 32 registers, of which x0 is always 0.
use ro_exec::{Bank, Cpu};

#[test]
fn keeps_registers(rt: HostRuntime) {
    let mut registers = [0; 31];
    registers[0] = 11;
    registers[30] = 41;
    let mut bank = Bank::new(&registers);
    for (number, want) in [(0u8, 0u32), (1, 11), (2, 0), (31, 41)] {
        assert_eq!(rt; bank.get(number), want, "x{number}");
    }
    bank.set(0, 5);
    bank.set(2, 7);
    bank.set(31, 8);
    registers[1] = 7;
    registers[30] = 8;
    assert_eq!(rt; bank.get(0), 0);
    assert_eq!(rt; bank.get(31), 8);
    assert_eq!(rt; bank.registers(), registers);
}

#[test]
fn puts_by_any_number(rt: HostRuntime) {
    let mut cpu = Cpu {
        registers: [0; 31],
        pc: 4,
    };
    for number in [0u8, 1, 31, 32, 255] {
        cpu.put(number, 5);
    }
    let mut registers = [0; 31];
    registers[0] = 5;
    registers[30] = 5;
    assert_eq!(rt; cpu, Cpu { registers, pc: 4 });
}
