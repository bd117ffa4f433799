//! The registers of a hart.
ghost use Rattle.std.specs.Prelude.{◌≡◌, ℕ, ◌<◌, List, length, replicate, slice_index};
ghost use Rattle.mx_model.specs.Effect.{reg, written};

use std::marker::Model;

/// The 32 registers, of which x0 is always 0 (RISC-V unprivileged manual 20191213, 2.1).
#[derive(Drop)]
pub struct Regs {
    values: [u32; 32],
}

impl Model for Regs {
    ghost Value = { List ℕ };

    ghost view = { λ regs. regs.values };

    ghost invariant = { λ regs. slice_index regs.values 0 ≡ 0 };
}

impl Regs {
    /// All registers zero.
    pub fn new() -> Regs
        ensures { result ≡ replicate 32 0 }
    {
        Regs { values: [0; 32] }
    }

    /// The value of register r, 0 to 31.
    #[inline(always)]
    pub fn get(&self, r: u32) -> u32
        requires { r < 32 }
        ensures value { result ≡ reg self.now r }
        ensures zero { reg self.now 0 ≡ 0 }
        ensures size { length self.now ≡ 32 }
    {
        self.values[r as usize]
    }

    /// The values of all registers, x0 first.
    #[inline(always)]
    pub fn values(&self) -> &[u32; 32]
        ensures { result.now ≡ self.now }
    {
        &self.values
    }

    /// Sets register r, 0 to 31; x0 stays 0.
    #[inline(always)]
    pub fn set(&mut self, r: u32, value: u32)
        requires { r < 32 }
        ensures values { self.new ≡ written self.old r value }
        ensures zero { reg self.new 0 ≡ 0 }
        ensures size { length self.new ≡ 32 }
    {
        if r != 0 {
            self.values[r as usize] = value;
        }
    }
}
