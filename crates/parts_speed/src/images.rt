//! Symbols of hostile images.

use mx_elf::symbol;
use std::alloc::Global;

/// The size of an image's headers here: the file header and two section headers.
const HEADERS: u32 = 132;

/// The size of a symbol.
const SYMBOL: u32 = 16;

/// The worst layout for a look-up of a name of so many letters: each symbol is defined and has a name that differs from
/// it in
/// the last letter alone. `None` where there is no memory.
pub fn image(alloc: Global, symbols: u16, letters: u16) -> Option<Vec<u8>> {
    let symbol_bytes = SYMBOL * symbols as u32;
    let string_bytes = letters as u32 + 1;
    let mut bytes = Vec::new(alloc);
    // The file header: no program headers, two section headers after it.
    put_words(&mut bytes, &[0; 8])?;
    put_words(&mut bytes, &[52, 0, 0, 0x0028_0000, 2])?;
    // The symbols' section, whose names are in section 1, and the names' section.
    put_words(&mut bytes, &[0, 2, 0, 0, HEADERS, symbol_bytes, 1, 0, 0, 0])?;
    let names = HEADERS + symbol_bytes;
    put_words(&mut bytes, &[0, 3, 0, 0, names, string_bytes, 0, 0, 0, 0])?;
    for _ in 0..symbols {
        put_words(&mut bytes, &[0, 0, 0, 0x0001_0000])?;
    }
    for i in 0..letters {
        let letter = if i + 1 < letters { b'a' } else { b'b' };
        bytes.push(letter).ok()?;
    }
    bytes.push(0).ok()?;
    Some(bytes)
}

/// The name of so many letters. `None` where there is no memory.
pub fn name(alloc: Global, letters: u16) -> Option<String> {
    let mut name = String::new(alloc);
    for _ in 0..letters {
        name.push('a').ok()?;
    }
    Some(name)
}

/// How often a name has a value, in so many look-ups.
pub fn symbols_found(bytes: &[u8], name: &str, rounds: u32) -> u32 {
    let mut found = 0u32;
    for _ in 0..rounds {
        if symbol(bytes, name).is_some() {
            found = found.wrapping_add(1);
        }
    }
    found
}

/// Appends numbers, the lowest byte of each first.
fn put_words(bytes: &mut Vec<u8>, words: &[u32]) -> Option<()> {
    for word in words {
        bytes.extend_from_slice(&word.to_le_bytes()).ok()?;
    }
    Some(())
}
