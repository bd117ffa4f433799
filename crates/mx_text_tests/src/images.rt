//! Images that are read: that of a linker, the first fault of each, and their symbols.
ghost use Rattle.mx_elf.specs.Known.{HoldsIn};

use crate::checks::same;
use mx_elf::{Seg, Symbols, read_image, symbol};
use std::alloc::Global;

mod sums;

use sums::SUMS;

/// The entry of an image and its two segments; none of another file.
pub(crate) fn entry_and_segments(file: &[u8]) -> Option<(u32, [Seg; 2])> {
    match read_image(file) {
        Ok(image) => {
            if image.segments.len() == 2 {
                Some((image.entry, [image.segments.get(0), image.segments.get(1)]))
            } else {
                None
            }
        }
        Err(_) => None,
    }
}

/// The symbols of the linker's image, and names that are none.
const NAMES: [&str; 9] = [
    "start", "sum", "values", "greeting", "total", "scratch", "sums", "su", "sum\0",
];

/// Their values.
const VALUES: [Option<u32>; 9] = [
    Some(0x8000_0000),
    Some(0x8000_0024),
    Some(0x8000_0100),
    Some(0x8000_0110),
    Some(0x8000_0118),
    Some(0x8000_011C),
    None,
    None,
    None,
];

/// The values that are found one by one.
fn found_alone() -> [Option<u32>; 9] {
    let mut values = [None; 9];
    for i in 0..9 {
        values[i] = symbol(SUMS, NAMES[i]);
    }
    values
}

/// Those that symbols of a file tell.
fn told(file: &[u8], symbols: &Symbols<'_>) -> [Option<u32>; 9]
    requires { HoldsIn file.now symbols.now }
{
    let mut values = [None; 9];
    for i in 0..9 {
        values[i] = symbols.value(file, NAMES[i]);
    }
    values
}

/// Those that symbols tell of which none was asked.
fn found_unasked(alloc: Global) -> [Option<u32>; 9] {
    told(SUMS, &Symbols::none(alloc))
}

/// Those that symbols tell of which some were asked.
fn found_together(alloc: Global) -> Option<[Option<u32>; 9]> {
    let asked = ["sum", "su", "sum\0", "greeting", "sum", "start", "sums"];
    match Symbols::find(alloc, SUMS, &asked) {
        Ok(together) => Some(told(SUMS, &together)),
        Err(_) => None,
    }
}

// What `readelf -lhs` prints of the image stands in `examples/elf/sums.readelf`.
#[test]
fn reads_the_image_of_a_linker(rt: HostRuntime) {
    let text = Seg {
        offset: 0x94,
        file: 0x44,
        address: 0x8000_0000,
        memory: 0x44,
        flags: 5,
    };
    let data = Seg {
        offset: 0xD8,
        file: 0x15,
        address: 0x8000_0100,
        memory: 0x44,
        flags: 6,
    };
    let image = entry_and_segments(SUMS);
    same(&rt, "the image", image, Some((0x8000_0000, [text, data])));
    same(&rt, "one by one", found_alone(), VALUES);
    same(&rt, "unasked", found_unasked(rt.alloc()), VALUES);
    same(&rt, "together", found_together(rt.alloc()), Some(VALUES));
}

/// A change of a file: a number at a place.
#[derive(Clone, Copy)]
enum Put {
    Byte(usize, u8),
    Half(usize, u16),
    Word(usize, u32),
}

use Put::{Byte, Half, Word};

fn write(file: &mut [u8], at: usize, bytes: &[u8]) {
    for (i, b) in bytes.iter().enumerate() {
        if let Some(place) = file.get_mut(at.saturating_add(i)) {
            *place = *b;
        }
    }
}

fn change(file: &mut [u8], puts: &[Put]) {
    for put in puts {
        match *put {
            Byte(at, n) => write(file, at, &[n]),
            Half(at, n) => write(file, at, &n.to_le_bytes()),
            Word(at, n) => write(file, at, &n.to_le_bytes()),
        }
    }
}

const FILE_SIZE: usize = 640;

const FIRST: usize = 52;

const SECOND: usize = 84;

const SEVENTEENTH: usize = 564;

/// What stands in the header of the file of segments, but its first bytes.
const HEADER: &[Put] = &[
    Half(16, 2),
    Half(18, 243),
    Word(24, 0x8000_0000),
    Word(28, 52),
    Half(42, 32),
    Half(44, 2),
];

/// Two segments, and headers for 15 more after them.
fn file_of_segments() -> [u8; FILE_SIZE] {
    let mut file = [0u8; FILE_SIZE];
    write(&mut file, 0, b"\x7FELF\x01\x01\x01");
    change(&mut file, HEADER);
    for k in 0..17 {
        let at = FIRST + 32 * k;
        change(
            &mut file,
            &[
                Word(at, 1),
                Word(at + 4, 600),
                Word(at + 8, 0x8000_0000),
                Word(at + 16, 4),
                Word(at + 20, 8),
                Word(at + 24, 5),
            ],
        );
    }
    file
}

/// The number of the file's fault, or 0 where it is an image.
fn fault_of(file: &[u8]) -> u32 {
    match read_image(file) {
        Ok(_) => 0,
        Err(fault) => fault.number,
    }
}

/// What is changed in the file of segments, how many of its bytes there are, and its first fault.
const FAULTS: &[(&[Put], usize, u32)] = &[
    (&[], FILE_SIZE, 0),
    (&[], 0, 1),
    (&[], 51, 1),
    (&[Half(44, 0)], 52, 0),
    (&[Byte(0, 0x7E)], FILE_SIZE, 2),
    (&[Byte(1, 0x65)], FILE_SIZE, 2),
    (&[Byte(2, 0x6C)], FILE_SIZE, 2),
    (&[Byte(3, 0x66)], FILE_SIZE, 2),
    (&[Byte(4, 2)], FILE_SIZE, 3),
    (&[Byte(5, 2)], FILE_SIZE, 3),
    (&[Byte(6, 9)], FILE_SIZE, 0),
    (&[Half(16, 1)], FILE_SIZE, 4),
    (&[Half(16, 0x102)], FILE_SIZE, 4),
    (&[Half(18, 62)], FILE_SIZE, 5),
    (&[Half(42, 56)], FILE_SIZE, 6),
    (&[Word(28, 577)], FILE_SIZE, 6),
    (&[Word(28, 576)], FILE_SIZE, 0),
    (&[Half(44, 1), Word(28, 0xFFFF_FFE0)], FILE_SIZE, 6),
    (
        &[Half(44, 0), Half(42, 56), Word(28, 0xFFFF_FFFF)],
        FILE_SIZE,
        0,
    ),
    (&[Half(44, 16)], FILE_SIZE, 0),
    (&[Half(44, 17)], FILE_SIZE, 7),
    (&[Half(44, 17), Word(FIRST, 4)], FILE_SIZE, 0),
    (&[Half(44, 17), Word(SEVENTEENTH + 20, 0)], FILE_SIZE, 0),
    (&[Word(FIRST + 4, 636)], FILE_SIZE, 0),
    (&[Word(FIRST + 4, 637)], FILE_SIZE, 8),
    (&[Word(FIRST + 4, 0xFFFF_FFFE)], FILE_SIZE, 8),
    (
        &[
            Word(FIRST + 4, 0xFFFF_FF00),
            Word(FIRST + 16, 0x200),
            Word(FIRST + 20, 0x200),
        ],
        FILE_SIZE,
        8,
    ),
    (
        &[Word(FIRST + 4, 0xFFFF_FFFF), Word(FIRST + 16, 0)],
        FILE_SIZE,
        0,
    ),
    (&[Word(FIRST + 16, 8)], FILE_SIZE, 0),
    (&[Word(FIRST + 16, 9)], FILE_SIZE, 9),
    (&[Word(FIRST + 8, 0x8000_0002)], FILE_SIZE, 10),
    (&[Word(SECOND + 8, 0x8000_0001)], FILE_SIZE, 10),
    // Of two neighbouring faults the first.
    (&[Byte(0, 0)], 51, 1),
    (&[Byte(0, 0), Byte(4, 2)], FILE_SIZE, 2),
    (&[Byte(5, 2), Half(16, 3)], FILE_SIZE, 3),
    (&[Half(16, 3), Half(18, 3)], FILE_SIZE, 4),
    (&[Half(18, 3), Half(42, 31)], FILE_SIZE, 5),
    (&[Half(42, 31), Half(44, 17)], FILE_SIZE, 6),
    (&[Half(44, 17), Word(SEVENTEENTH + 4, 637)], FILE_SIZE, 7),
    (&[Word(FIRST + 4, 637), Word(FIRST + 20, 3)], FILE_SIZE, 8),
    (&[Word(FIRST + 16, 9), Word(FIRST + 8, 1)], FILE_SIZE, 9),
    // A fault of the first segment comes before each of the second.
    (&[Word(FIRST + 8, 1), Word(SECOND + 4, 637)], FILE_SIZE, 10),
];

/// The first fault of so many bytes of the file of segments with these changes.
fn fault_with(puts: &[Put], len: usize) -> u32 {
    let mut file = file_of_segments();
    change(&mut file, puts);
    fault_of(&file[..len.min(FILE_SIZE)])
}

#[test]
fn finds_the_first_fault(rt: HostRuntime) {
    for (row, (puts, len, want)) in FAULTS.iter().enumerate() {
        same(
            &rt,
            "row and fault",
            (row, fault_with(puts, *len)),
            (row, *want),
        );
    }
}

const TEXT: usize = 92;

const TABLE: usize = 132;

const STRINGS: usize = 172;

const SYMBOL: usize = 212;

/// What stands in the headers of the file of symbols.
const SECTIONS: &[Put] = &[
    Word(32, 52),
    Half(46, 40),
    Half(48, 4),
    Word(TEXT + 4, 1),
    Word(TABLE + 4, 2),
    Word(TABLE + 16, SYMBOL as u32),
    Word(TABLE + 20, 112),
    Word(TABLE + 24, 3),
    Word(STRINGS + 4, 3),
    Word(STRINGS + 16, 400),
    Word(STRINGS + 20, 14),
];

/// Its symbols: the place of the name, the value and the section of each.
static PUT_SYMBOLS: [(u32, u32, u16); 7] = [
    (0, 0, 0),
    (1, 1, 0),
    (1, 2, 1),
    (1, 3, 1),
    (6, 4, 0xFFF1),
    (0, 5, 2),
    (10, 6, 1),
];

/// Four sections: none, text, seven symbols, and their names. The last name has no zero byte in its section.
fn file_of_symbols() -> [u8; FILE_SIZE] {
    let mut file = [0u8; FILE_SIZE];
    write(&mut file, 400, b"\0here\0her\0open");
    change(&mut file, SECTIONS);
    for (k, (name, value, section)) in PUT_SYMBOLS.iter().enumerate() {
        let at = SYMBOL + 16 * k;
        let puts = [
            Word(at, *name),
            Word(at + 4, *value),
            Half(at + 14, *section),
        ];
        change(&mut file, &puts);
    }
    file
}

/// What is changed in the file of symbols, how many of its bytes there are, a name, and the value of that symbol.
const SYMBOLS: &[(&[Put], usize, &str, Option<u32>)] = &[
    // Symbol 1 is undefined, and symbol 3 comes after symbol 2. Each has the size 0.
    (&[], FILE_SIZE, "here", Some(2)),
    (&[Half(SYMBOL + 46, 0)], FILE_SIZE, "here", Some(3)),
    (
        &[Half(SYMBOL + 46, 0), Half(SYMBOL + 62, 0)],
        FILE_SIZE,
        "here",
        None,
    ),
    (&[Half(SYMBOL + 30, 2)], FILE_SIZE, "here", Some(1)),
    (&[], FILE_SIZE, "her", Some(4)),
    (&[], FILE_SIZE, "he", None),
    (&[], FILE_SIZE, "heres", None),
    (&[], FILE_SIZE, "ere", None),
    (&[], FILE_SIZE, "here\0her", None),
    (&[Word(SYMBOL + 32, 2)], FILE_SIZE, "ere", Some(2)),
    (&[], FILE_SIZE, "", Some(5)),
    (&[], FILE_SIZE, "open", None),
    (&[Word(STRINGS + 20, 15)], FILE_SIZE, "open", Some(6)),
    (&[Word(SYMBOL + 32, 14)], FILE_SIZE, "here", Some(3)),
    (
        &[Word(SYMBOL + 32, 0xFFFF_FFFF)],
        FILE_SIZE,
        "here",
        Some(3),
    ),
    // The file.
    (&[], 51, "here", None),
    (&[Half(48, 0)], FILE_SIZE, "here", None),
    (&[Half(46, 41)], FILE_SIZE, "here", None),
    (&[Word(32, 0xFFFF_FFFF)], FILE_SIZE, "here", None),
    (&[], 413, "here", None),
    (&[], 414, "here", Some(2)),
    // The symbol table.
    (&[Word(TABLE + 4, 11)], FILE_SIZE, "here", None),
    (&[Word(TEXT + 4, 2)], FILE_SIZE, "here", None),
    (&[Word(TABLE + 20, 47)], FILE_SIZE, "here", None),
    (&[Word(TABLE + 20, 63)], FILE_SIZE, "here", Some(2)),
    (&[Word(TABLE + 16, 529)], FILE_SIZE, "here", None),
    (&[Word(TABLE + 16, 0xFFFF_FFF0)], FILE_SIZE, "here", None),
    // The strings.
    (&[Word(TABLE + 24, 4)], FILE_SIZE, "here", None),
    (&[Word(TABLE + 24, 0xFFFF_FFFF)], FILE_SIZE, "here", None),
    (&[Word(STRINGS + 4, 0)], FILE_SIZE, "here", Some(2)),
    (&[Word(STRINGS + 20, 240)], FILE_SIZE, "here", Some(2)),
    (&[Word(STRINGS + 20, 241)], FILE_SIZE, "here", None),
    (&[Word(STRINGS + 20, 0xFFFF_FE80)], FILE_SIZE, "here", None),
];

/// The value of a symbol in so many bytes of the file of symbols with these changes.
fn symbol_with(puts: &[Put], len: usize, name: &str) -> Option<u32> {
    let mut file = file_of_symbols();
    change(&mut file, puts);
    symbol(&file[..len.min(FILE_SIZE)], name)
}

#[test]
fn finds_the_first_symbol(rt: HostRuntime) {
    for (row, (puts, len, name, want)) in SYMBOLS.iter().enumerate() {
        same(
            &rt,
            name,
            (row, symbol_with(puts, *len, name)),
            (row, *want),
        );
    }
}
