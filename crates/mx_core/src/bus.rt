//! The bus: what an instruction sees of RAM and of its protection.
ghost use Rattle.std.specs.Prelude.{◌≡◌, ℕ, ◌%◌, ◌^◌, ◌<◌, List, IfOk, is_err, if◌then◌else◌};
ghost use Rattle.mx_words.specs.declared.perm.Perm.{Perm};
ghost use Rattle.mx_words.specs.declared.perm.Access.{Access};
ghost use Rattle.mx_words.specs.declared.perm.Access.TheVariants.{Read, Write, Execute};
ghost use Rattle.mx_words.specs.Bytes.{IsSize};
ghost use Rattle.mx_core.specs.Bus.{denied, load_at, store_at};

/// The map allows no such access here.
#[derive(Clone, Copy, PartialEq, Eq)]
pub struct Denied;

/// RAM that a map of permissions guards. Each call is denied exactly where the map denies it, and
/// touches the bus once; a denied call changes no byte. Addresses are those of the machine, whose
/// RAM begins at 0x80000000; sizes are 1, 2 or 4 bytes; a place, 0 to 31, says which register the
/// address came from, 0 for pc.
pub trait Bus {
    // RAM's bytes.
    ghost bytes: { Self → List ℕ };

    // The map: the permission at each address, none outside RAM.
    ghost perm: { Self → ℕ → Perm };

    // Whether the bus may be used.
    ghost usable: { Self → Type 0 };

    // What one call with a place, an address and a kind makes of a bus. It says nothing of RAM's bytes.
    ghost touches: { Self → ℕ → ℕ → Access → Self → Type 0 };

    /// The instruction word at an address, a multiple of 4.
    fn fetch(&mut self, addr: u32) -> Result<u32, Denied>
        requires usable { usable self.old }
        requires aligned { addr % 4 ≡ 0 }
        ensures denied { is_err result ≡ denied (perm self.old) addr Execute }
        ensures word { IfOk result (λ word. word ≡ load_at (bytes self.old) addr 4) }
        ensures bytes { bytes self.new ≡ bytes self.old }
        ensures map { perm self.new ≡ perm self.old }
        ensures usable { usable self.new }
        ensures touch { touches self.old 0 addr Execute self.new };

    /// The little-endian number of the bytes at an address, a multiple of the size.
    fn load(&mut self, place: u32, addr: u32, size: u32) -> Result<u32, Denied>
        requires usable { usable self.old }
        requires place { place < 32 }
        requires size { IsSize size }
        requires aligned { addr % size ≡ 0 }
        ensures denied { is_err result ≡ denied (perm self.old) addr Read }
        ensures number { IfOk result (λ n. n ≡ load_at (bytes self.old) addr size) }
        ensures below { IfOk result (λ n. n < 256 ^ size) }
        ensures bytes { bytes self.new ≡ bytes self.old }
        ensures map { perm self.new ≡ perm self.old }
        ensures usable { usable self.new }
        ensures touch { touches self.old place addr Read self.new };

    /// Puts the low bytes of a value at an address, a multiple of the size.
    fn store(&mut self, place: u32, addr: u32, size: u32, value: u32) -> Result<(), Denied>
        requires usable { usable self.old }
        requires place { place < 32 }
        requires size { IsSize size }
        requires aligned { addr % size ≡ 0 }
        ensures denied { is_err result ≡ denied (perm self.old) addr Write }
        ensures bytes { bytes self.new ≡ (if denied (perm self.old) addr Write
            then bytes self.old
            else store_at (bytes self.old) addr size value) }
        ensures map { perm self.new ≡ perm self.old }
        ensures usable { usable self.new }
        ensures touch { touches self.old place addr Write self.new };
}
