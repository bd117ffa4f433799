//! Bytes of RAM.
ghost use Rattle.std.specs.Prelude.{◌≡◌, length};

use crate::checks::same;
use mx_memory::Ram;
use mx_words::NoMemory;
use std::alloc::Global;
use std::test::Fail;

/// The bytes of three words.
fn all_bytes(ram: &Ram) -> [u8; 12]
    requires { length ram.now ≡ 12 }
{
    let mut bytes = [0; 12];
    for i in 0..12u32 {
        bytes[i as usize] = ram.byte(i);
    }
    bytes
}

/// What is read of RAM after stores, and of its words before and after the middle one is cleared.
#[derive(Clone, Copy)]
struct Stored {
    bytes: [u8; 12],
    loads: [u32; 3],
    first: u32,
    cleared: [u32; 3],
}

/// Stores a word, then half a word at the end of the word before, and then the first byte of the word behind.
fn store_and_clear(alloc: Global) -> Result<Stored, NoMemory> {
    let mut ram = Ram::new(alloc, 3)?;
    ram.store(0x8000_0004, 4, 0x8899_AABB);
    ram.store(0x8000_0002, 2, 0xFFFF_1234);
    ram.store(0x8000_0008, 1, 0xFFFF_FF56);
    let bytes = all_bytes(&ram);
    let loads = [
        ram.load(0x8000_0004, 4),
        ram.load(0x8000_0006, 2),
        ram.load(0x8000_0007, 1),
    ];
    let first = ram.word(0);
    ram.clear_words(1, 1);
    Ok(Stored {
        bytes,
        loads,
        first,
        cleared: [ram.word(0), ram.word(1), ram.word(2)],
    })
}

// Bytes of three words as they lie in RAM after each store, by hand from the little-endian order.
#[test]
fn stores_lie_little_endian(rt: HostRuntime) -> Result<(), Fail> {
    let stored = store_and_clear(rt.alloc())?;
    let want = [0, 0, 0x34, 0x12, 0xBB, 0xAA, 0x99, 0x88, 0x56, 0, 0, 0];
    same(&rt, "bytes", stored.bytes, want);
    same(
        &rt,
        "loads",
        stored.loads,
        [0x8899_AABB, 0x0000_8899, 0x0000_0088],
    );
    same(&rt, "first", stored.first, 0x1234_0000);
    same(
        &rt,
        "cleared",
        stored.cleared,
        [0x1234_0000, 0, 0x0000_0056],
    );
    Ok(())
}

/// The bytes of RAM of given bytes, and its middle word before and after 0 is stored there.
fn stored_in_copy(alloc: Global, bytes: &[u8; 12]) -> Result<([u8; 12], [u32; 2]), NoMemory> {
    let mut ram = Ram::of(alloc, bytes)?;
    let all = all_bytes(&ram);
    let before = ram.word(1);
    ram.store(0x8000_0004, 4, 0);
    Ok((all, [before, ram.word(1)]))
}

// RAM of given bytes holds just these, and a store changes the copy alone.
#[test]
fn ram_of_bytes(rt: HostRuntime) -> Result<(), Fail> {
    let bytes = [0x13, 0, 0, 0, 0xEF, 0xBE, 0xAD, 0xDE, 0, 0, 0, 0x80];
    let (all, words) = stored_in_copy(rt.alloc(), &bytes)?;
    assert_eq!(rt; all, bytes);
    assert_eq!(rt; words, [0xDEAD_BEEF, 0]);
    assert_eq!(rt; bytes[4], 0xEF);
    Ok(())
}
