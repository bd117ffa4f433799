//! A bus over bytes and a plain list of permissions.
ghost use Rattle.std.specs.Prelude.{◌≡◌, ℕ, ◌+◌, ◌-◌, ◌*◌, ◌%◌, ◌^◌, ◌<◌, ◌≤◌, ◌⊎◌, List, ◌++◌, length, replicate};
ghost use Rattle.std.specs.Prelude.{take, drop, IfOk, ⊤};
ghost use Rattle.mx_words.specs.declared.perm.Perm.{Perm};
ghost use Rattle.mx_words.specs.Rights.{perm};
ghost use Rattle.mx_words.specs.Ranges.{ram_base};
ghost use Rattle.mx_words.specs.Bytes.{put_at};

use mx_core::{Bus, Denied};
use mx_memory::Ram;
use mx_words::{Access, NoMemory, Perm, RAM_BASE};
use std::alloc::Global;
use std::marker::Model;

/// RAM and one permission per word, looked up by index at each access.
#[derive(Drop)]
pub struct PlainBus {
    ram: Ram,
    perms: Vec<Perm>,
}

impl Model for PlainBus {
    ghost Value = { List ℕ × List Perm };

    ghost view = { λ bus. (bus.ram, bus.perms.items) };

    ghost invariant = { λ bus.
        (length bus.ram ≡ 4 * length bus.perms.items) × (length bus.perms.items ≤ 2 ^ 24) };
}

impl PlainBus {
    /// So many zero words, at most 2^24, without a permission.
    pub fn new(alloc: Global, words: u32) -> Result<PlainBus, NoMemory>
        requires { words ≤ 2 ^ 24 }
        ensures { IfOk result
            (λ bus. (bus.0 ≡ replicate (4 * words) 0) × (bus.1 ≡ replicate words Perm.None)) }
    {
        let ram = Ram::new(alloc, words)?;
        let perms = vec![in alloc; Perm::None; words as usize]?;
        Ok(PlainBus { ram, perms })
    }

    /// Gives a permission to words `first` to `first + count - 1`.
    pub fn permit(&mut self, first: u32, count: u32, perm: Perm)
        requires { first + count ≤ length self.old.1 }
        ensures bytes { self.new.0 ≡ self.old.0 }
        ensures map { self.new.1
            ≡ take first self.old.1 ++ replicate count perm ++ drop (first + count) self.old.1 }
        ensures size { length self.new.1 ≡ length self.old.1 }
    {
        let at = first as usize;
        let part = &mut self.perms[at..at + count as usize];
        part.fill(perm);
    }

    /// Puts a word at an address, a multiple of 4 in RAM, whatever the permissions.
    pub fn put(&mut self, addr: u32, word: u32)
        requires aligned { addr % 4 ≡ 0 }
        requires inside { (ram_base ≤ addr) × (addr - ram_base < 4 * length self.old.1) }
        ensures bytes { self.new.0 ≡ put_at self.old.0 (addr - ram_base) 4 word }
        ensures map { self.new.1 ≡ self.old.1 }
    {
        self.ram.store(addr, 4, word);
    }
}

#[tactic(auto, unfolding(mx_core::specs::Bus::denied, mx_core::specs::Bus::load_at, mx_core::specs::Bus::store_at))]
impl Bus for PlainBus {
    ghost bytes = { λ bus. bus.0 };

    ghost perm = { λ bus. perm bus.1 };

    ghost usable = { λ _. ⊤ };

    ghost touches = { λ bus place address kind after. after.1 ≡ bus.1 };

    fn fetch(&mut self, addr: u32) -> Result<u32, Denied> {
        let perm = perm_at(self.perms.as_slice(), addr);
        if !perm.allows(Access::Execute) {
            return Err(Denied);
        }
        Ok(self.ram.load(addr, 4))
    }

    fn load(&mut self, _place: u32, addr: u32, size: u32) -> Result<u32, Denied> {
        let perm = perm_at(self.perms.as_slice(), addr);
        if !perm.allows(Access::Read) {
            return Err(Denied);
        }
        Ok(self.ram.load(addr, size))
    }

    fn store(&mut self, _place: u32, addr: u32, size: u32, value: u32) -> Result<(), Denied> {
        let perm = perm_at(self.perms.as_slice(), addr);
        if !perm.allows(Access::Write) {
            return Err(Denied);
        }
        self.ram.store(addr, size, value);
        Ok(())
    }
}

// The permission at an address, none outside RAM.
fn perm_at(perms: &[Perm], addr: u32) -> Perm
    requires { length perms.now ≤ 2 ^ 24 }
    ensures value { result ≡ perm perms.now addr }
    ensures inside { (result ≡ Perm.None)
        ⊎ ((ram_base ≤ addr) × (addr - ram_base < 4 * length perms.now)) }
{
    let word = (addr.wrapping_sub(RAM_BASE) / 4) as usize;
    if word < perms.len() {
        perms[word]
    } else {
        Perm::None
    }
}
