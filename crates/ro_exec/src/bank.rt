//! The registers of a thread while it runs, x0 among them.
ghost use Rattle.std.specs.Prelude.{◌≡◌, ◌-◌, ◌<◌, ◌==◌, if◌then◌else◌, slice_index};
ghost use Rattle.ro_exec.specs.Registers.{with_register};

use std::marker::Model;

/// Registers x0 to x31, of which x0 is 0, so that no access asks which one it is. They are seen as x1 to x31.
#[derive(Drop)]
pub struct Bank {
    values: [u32; 32],
}

impl Model for Bank {
    ghost use Rattle.std.specs.Prelude.{ℕ, ◌≡◌, List, drop, slice_index};

    ghost Value = { List ℕ };

    ghost view = { λ s. drop 1 s.values };

    ghost invariant = { λ s. slice_index s.values 0 ≡ 0 };
}

impl Bank {
    /// The register of this number.
    #[tactic(auto, using(crate::proofs::Banks::read))]
    #[inline(always)]
    pub fn get(&self, number: u8) -> u32
        requires { number < 32 }
        ensures { result ≡ (if number == 0 then 0 else slice_index self.now (number - 1)) }
    {
        self.values[number as usize]
    }

    /// Writes the register of this number; what is written to x0 is lost, since x0 is then written again.
    #[tactic(auto, using(crate::proofs::Banks::written, crate::proofs::Banks::zeroed))]
    #[inline(always)]
    pub fn set(&mut self, number: u8, value: u32)
        requires { number < 32 }
        ensures { self.new ≡ with_register self.old number value }
    {
        self.values[number as usize] = value;
        self.values[0] = 0;
    }

    /// The registers x1 to x31, copied one by one, which is compiled to a few wide moves.
    #[inline(always)]
    pub fn registers(&self) -> [u32; 31]
        ensures { result ≡ self.now }
    {
        let mut registers = [0; 31];
        for i in 0..registers.len() {
            registers[i] = self.values[i + 1];
        }
        registers
    }

    /// The registers with these as x1 to x31.
    #[inline(always)]
    pub fn new(registers: &[u32; 31]) -> Bank
        ensures { result ≡ registers.now }
    {
        let mut values = [0; 32];
        for i in 0..registers.len() {
            values[i + 1] = registers[i];
        }
        Bank { values }
    }
}
