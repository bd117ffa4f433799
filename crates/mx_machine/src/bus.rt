//! The bus of a hart's turn: RAM that the checker guards.
ghost use Rattle.std.specs.Prelude.{◌≡◌, ◌<◌, ◌%◌, ◌^◌, not, false, true};
ghost use Rattle.mx_words.specs.Bytes.{IsSize, number_at};
ghost use Rattle.mx_words.specs.declared.perm.Access.TheVariants.{Execute};
ghost use Rattle.mx_check.specs.Conditions.{IsAtHand};
ghost use Rattle.mx_check.specs.Harts.{kept_at};
ghost use Rattle.mx_core.specs.Bus.{denied};
ghost use Rattle.mx_memory.specs.Places.{place_of, IsInside};
ghost use Rattle.mx_machine.specs.Bus.{perm_from, IsInRam, IsUsable, IsTouch};

use mx_core::{Bus, Denied};
use mx_memory::Ram;
use mx_supervisor::Supervisor;
use mx_table::PermTables;
use mx_words::Access;

/// A supervisor, with the number of the hart whose turn it is and the hart's domain.
#[derive(Drop)]
pub struct HartBus<T: PermTables, const N: usize> {
    pub supervisor: Supervisor<T, N>,
    pub hart: u32,
    pub domain: u32,
}

impl<T: PermTables, const N: usize> HartBus<T, N> {
    /// Whether the hart may access the word at an address, by its place.
    #[inline(always)]
    fn may(&mut self, place: u32, addr: u32, access: Access) -> bool
        requires usable { IsUsable T.maps T.size self.old }
        requires place { place < 32 }
        ensures answer { not result
            ≡ denied (perm_from (T.size self.old.supervisor.checker.tables)
            (T.maps self.old.supervisor.checker.tables) self.old.domain) addr access }
        ensures inside { result ≡ true → IsInRam (T.size self.old.supervisor.checker.tables) addr }
        ensures ram { self.new.supervisor.ram ≡ self.old.supervisor.ram }
        ensures usable { IsUsable T.maps T.size self.new }
        ensures touch { IsTouch T.kind T.maps T.size T.limits T.lookups N
            self.old place addr self.new }
    {
        self.supervisor
            .checker
            .may(self.hart, place, self.domain, addr, access)
    }
}

impl<T: PermTables, const N: usize> HartBus<T, N> {
    /// A law: a fetch at hand is allowed.
    #[inline(always)]
    pub fn known(&self, addr: u32)
        requires usable { IsUsable T.maps T.size self.now }
        requires at_hand { IsAtHand (T.size self.now.supervisor.checker.tables)
            (kept_at self.now.supervisor.checker.harts self.now.hart).cache addr }
        ensures { denied (perm_from (T.size self.now.supervisor.checker.tables)
            (T.maps self.now.supervisor.checker.tables) self.now.domain) addr Execute ≡ false }
    {
        self.supervisor
            .checker
            .allows_fetch(self.hart, self.domain, addr);
    }
}

impl<T: PermTables, const N: usize> Bus for HartBus<T, N> {
    ghost bytes = { λ b. b.supervisor.ram };

    ghost perm = { λ b. perm_from (T.size b.supervisor.checker.tables)
        (T.maps b.supervisor.checker.tables) b.domain };

    ghost usable = { λ b. IsUsable T.maps T.size b };

    ghost touches = { λ old place address access new.
        IsTouch T.kind T.maps T.size T.limits T.lookups N old place address new };

    #[inline(always)]
    fn fetch(&mut self, addr: u32) -> Result<u32, Denied> {
        if !self.may(0, addr, Access::Execute) {
            return Err(Denied);
        }
        Ok(self.supervisor.ram.load(addr, 4))
    }

    #[inline(always)]
    fn load(&mut self, place: u32, addr: u32, size: u32) -> Result<u32, Denied> {
        if !self.may(place, addr, Access::Read) {
            return Err(Denied);
        }
        Ok(number_in(&self.supervisor.ram, addr, size))
    }

    #[inline(always)]
    fn store(&mut self, place: u32, addr: u32, size: u32, value: u32) -> Result<(), Denied> {
        if !self.may(place, addr, Access::Write) {
            return Err(Denied);
        }
        self.supervisor.ram.store(addr, size, value);
        Ok(())
    }
}

/// As `Ram::load`.
// A call for each size, so that each is laid out in the row of turns for itself: one call for all stays a call.
#[inline(always)]
fn number_in(ram: &Ram, addr: u32, size: u32) -> u32
    requires size { IsSize size }
    requires aligned { addr % size ≡ 0 }
    requires inside { IsInside ram.now addr size }
    ensures number { result ≡ number_at ram.now (place_of addr) size }
    ensures below { result < 256 ^ size }
{
    match size {
        1 => ram.load(addr, 1),
        2 => ram.load(addr, 2),
        _ => ram.load(addr, 4),
    }
}
