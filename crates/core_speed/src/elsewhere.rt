//! The plain bus under another name: `exec` over it is a function of its own.
ghost use Rattle.std.specs.Prelude.{◌≡◌, ⊤};
ghost use Rattle.mx_words.specs.Rights.{perm};

use mx_core::{Bus, Denied};
use mx_plain::PlainBus;

/// A plain bus that only `run_at_three` uses.
#[derive(Drop)]
pub struct Elsewhere {
    pub bus: PlainBus,
}

impl Bus for Elsewhere {
    ghost bytes = { λ elsewhere. elsewhere.bus.0 };

    ghost perm = { λ elsewhere. perm elsewhere.bus.1 };

    ghost usable = { λ _. ⊤ };

    ghost touches = { λ elsewhere place address kind after. after.bus.1 ≡ elsewhere.bus.1 };

    fn fetch(&mut self, addr: u32) -> Result<u32, Denied> {
        self.bus.fetch(addr)
    }

    fn load(&mut self, place: u32, addr: u32, size: u32) -> Result<u32, Denied> {
        self.bus.load(place, addr, size)
    }

    fn store(&mut self, place: u32, addr: u32, size: u32, value: u32) -> Result<(), Denied> {
        self.bus.store(place, addr, size, value)
    }
}
