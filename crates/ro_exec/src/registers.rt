//! Reading and writing registers by their numbers.
ghost use Rattle.std.specs.Prelude.{◌≡◌, ◌<◌};
ghost use Rattle.ro_exec.specs.Registers.{register, with_register};

use crate::Cpu;

impl Cpu {
    /// The register of this number; x0 reads 0.
    ///
    /// RISC-V Unprivileged ISA 20191213, section 2.1, "Programmers' Model for Base Integer ISA".
    #[inline(always)]
    pub fn get(&self, number: u8) -> u32
        requires { number < 32 }
        ensures { result ≡ register self.now number }
    {
        if number == 0 {
            0
        } else {
            self.registers[number as usize - 1]
        }
    }

    /// Writes the register of this number; what is written to x0 is lost.
    #[inline(always)]
    pub fn set(&mut self, number: u8, value: u32)
        requires { number < 32 }
        ensures registers { self.new.registers ≡ with_register self.old.registers number value }
        ensures pc { self.new.pc ≡ self.old.pc }
    {
        if number != 0 {
            self.registers[number as usize - 1] = value;
        }
    }

    /// Writes the register of this number, where there is one.
    #[tactic(auto, using(std::proofs::lemmas::List::set_past))]
    pub fn put(&mut self, number: u8, value: u32)
        ensures registers { self.new.registers ≡ with_register self.old.registers number value }
        ensures pc { self.new.pc ≡ self.old.pc }
    {
        if number < 32 {
            self.set(number, value);
        }
    }
}
