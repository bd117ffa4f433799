//! Three modules on four harts beside their audit: what it finds at boot is so after 100000 turns.
//!
//! The images hold what clang and ld.lld 14 make of the sources in examples/packets, each as a file header, two program
//! headers, its
//! code and its data, without symbols: so the manifest names addresses.

use super::{booted_over, owner, perm, perm_end};
use mx_any::any_machine_is_valid;
use mx_audit::{audit, write_audit};
use mx_boot::{AnyMachine, BootRefused};
use mx_io::Bytes;
use mx_model::{Events, Note};
use mx_words::{Blob, NoMemory};
use std::alloc::Global;
use std::test::Fail;

/// Sends 350 packets of four words to the second module, and leaves with 0.
const DRIVER: [u32; 65] = [
    0x464C457F, 0x00010101, 0x00000000, 0x00000000, 0x00F30002, 0x00000001, 0x80000000, 0x00000034,
    0x00000000, 0x00000000, 0x00200034, 0x00000002, 0x00000000, 0x00000001, 0x00000074, 0x80000000,
    0x80000000, 0x00000078, 0x00000078, 0x00000005, 0x00000004, 0x00000001, 0x000000EC, 0x80001000,
    0x80001000, 0x00000018, 0x00001234, 0x00000006, 0x00000004, 0x00000437, 0x15E40413, 0x00400513,
    0x00600893, 0x00000073, 0x00050493, 0x0084A023, 0x00141293, 0x0054A223, 0xFFF44293, 0x0054A423,
    0x00700293, 0x0054A623, 0x01000593, 0x00200613, 0x00100693, 0x00300893, 0x00000073, 0x00048513,
    0x800102B7, 0x000280E7, 0x00048513, 0x00700893, 0x00000073, 0xFFF40413, 0xFA0412E3, 0x00000513,
    0x00100893, 0x00000073, 0x0000006F, 0x00000001, 0x00000002, 0x00000004, 0x00000008, 0x80000000,
    0x80000008,
];

/// Sums a packet and calls the third module.
const PROTO: [u32; 47] = [
    0x464C457F, 0x00010101, 0x00000000, 0x00000000, 0x00F30002, 0x00000001, 0x80010000, 0x00000034,
    0x00000000, 0x00000000, 0x00200034, 0x00000002, 0x00000000, 0x00000001, 0x00000074, 0x80010000,
    0x80010000, 0x00000048, 0x00000048, 0x00000005, 0x00000004, 0x00000001, 0x000000BC, 0x80011000,
    0x80011000, 0x00000000, 0x0000125C, 0x00000006, 0x00000004, 0xFF010113, 0x00112023, 0x00052283,
    0x00452303, 0x006282B3, 0x00852303, 0x006282B3, 0x00C52303, 0x006282B3, 0x80011337, 0x00030313,
    0x00532023, 0x800202B7, 0x000280E7, 0x00012083, 0x01010113, 0x00008067, 0x0000006F,
];

/// Writes a line.
const CONSOLE: [u32; 39] = [
    0x464C457F, 0x00010101, 0x00000000, 0x00000000, 0x00F30002, 0x00000001, 0x80020000, 0x00000034,
    0x00000000, 0x00000000, 0x00200034, 0x00000002, 0x00000000, 0x00000001, 0x00000074, 0x80020000,
    0x80020000, 0x0000001C, 0x0000001C, 0x00000005, 0x00000004, 0x00000001, 0x00000090, 0x80021000,
    0x80021000, 0x0000000C, 0x0000128C, 0x00000006, 0x00000004, 0x80021537, 0x00050513, 0x00C00593,
    0x00200893, 0x00000073, 0x00008067, 0x0000006F, 0x6B636170, 0x64207465, 0x0A656E6F,
];

const MANIFEST: &str = "version = 1
ram_kib = 1024
[[module]]
name = \"driver\"
image = \"driver.elf\"
heap = 0x80040000
heap_words = 4096
stack = 0x80050000
stack_words = 256
[[module]]
name = \"proto\"
image = \"proto.elf\"
stack = 0x80052000
stack_words = 256
gates = [{ entry = 0x80010000, from = [\"driver\"] }]
returns = [0x80010040]
[[module]]
name = \"console\"
image = \"console.elf\"
heap = 0x80060000
heap_words = 1024
stack = 0x80054000
stack_words = 256
gates = [{ entry = 0x80020000, from = [\"proto\"] }]
returns = [0x80020014]
[[hart]]
module = \"driver\"
[[hart]]
module = \"driver\"
entry = 0x80000074
[[hart]]
module = \"proto\"
entry = 0x80010044
[[hart]]
module = \"console\"
entry = 0x80020018
";

/// What the audit reports: all words that no module owns.
const AUDIT: &str = "live 1 driver
live 2 proto
live 3 console
sealed 0x80000078 0x80001000
sealed 0x80002234 0x80010000
sealed 0x80010048 0x80011000
sealed 0x8001225c 0x80020000
sealed 0x8002001c 0x80021000
sealed 0x8002228c 0x80040000
sealed 0x80044000 0x80050000
sealed 0x80051000 0x80052000
sealed 0x80053000 0x80054000
sealed 0x80055000 0x80060000
sealed 0x80061000 0x80100000
sealed words=250370
";

/// The same runs of words: the first, and the one behind the last.
const SEALED: [(u32, u32); 11] = [
    (30, 1024),
    (2189, 16384),
    (16402, 17408),
    (18583, 32768),
    (32775, 33792),
    (34979, 65536),
    (69632, 81920),
    (82944, 83968),
    (84992, 86016),
    (87040, 98304),
    (99328, 262144),
];

/// The bytes of an image.
fn image(alloc: Global, words: &[u32]) -> Result<Blob, NoMemory> {
    let mut blob = Blob::new(alloc);
    for word in words {
        if blob.len() < 4096 {
            blob.extend_from_slice(&word.to_le_bytes())?;
        }
    }
    Ok(blob)
}

/// The three images, in the order of the modules.
fn images(alloc: Global) -> Result<Vec<Blob>, NoMemory> {
    let mut images = Vec::new(alloc);
    for words in [DRIVER.as_slice(), PROTO.as_slice(), CONSOLE.as_slice()] {
        let image = image(alloc, words)?;
        images.push(image)?;
    }
    Ok(images)
}

/// The machine at boot.
fn packets(alloc: Global) -> Result<AnyMachine, BootRefused> {
    match images(alloc) {
        Ok(images) => booted_over(alloc, MANIFEST, images.as_slice()),
        Err(NoMemory) => Err(BootRefused::NoMemory),
    }
}

/// Whether the audit of a machine reports AUDIT.
fn is_audited(alloc: Global, machine: &AnyMachine) -> bool {
    let Ok(found) = audit(alloc, machine) else {
        return false;
    };
    let Ok(mut sink) = Bytes::new(alloc, 4096) else {
        return false;
    };
    match write_audit(&mut sink, &found, &["driver", "proto", "console"]) {
        Ok(()) => sink.as_slice() == AUDIT.as_bytes(),
        Err(_) => false,
    }
}

/// Whether the words of a run have one owner, the same in both.
fn same_owner(before: &AnyMachine, after: &AnyMachine, first: u32, behind: u32) -> bool {
    match (owner(before, first), owner(after, first)) {
        (Some((old, old_end)), Some((new, new_end))) => {
            old == new && old_end >= behind && new_end >= behind
        }
        _ => false,
    }
}

/// Whether a domain has one permission on the words of a run, the same in both.
fn same_right(
    before: &AnyMachine,
    after: &AnyMachine,
    domain: u32,
    first: u32,
    behind: u32,
) -> bool {
    match (
        perm_end(before, domain, first),
        perm_end(after, domain, first),
    ) {
        (Some(old_end), Some(new_end)) => {
            perm(before, domain, first) == perm(after, domain, first)
                && old_end >= behind
                && new_end >= behind
        }
        _ => false,
    }
}

/// Whether the words of a run have the same bytes in both.
fn same_bytes(before: &AnyMachine, after: &AnyMachine, first: u32, behind: u32) -> bool {
    any_machine_is_valid(before);
    any_machine_is_valid(after);
    if first > behind || behind > before.words() || behind > after.words() {
        return false;
    }
    let count = behind - first;
    before.bytes(4 * first, 4 * count) == after.bytes(4 * first, 4 * count)
}

/// How many words of SEALED are the same in both.
fn kept(before: &AnyMachine, after: &AnyMachine) -> u32 {
    let mut words: u32 = 0;
    for (first, behind) in SEALED {
        let same = same_owner(before, after, first, behind)
            && same_right(before, after, 1, first, behind)
            && same_right(before, after, 2, first, behind)
            && same_right(before, after, 3, first, behind)
            && same_bytes(before, after, first, behind);
        if same {
            words = words.wrapping_add(behind.wrapping_sub(first));
        }
    }
    words
}

/// What turns told: the number of console bytes and of notes, and the last note.
#[derive(Clone, Copy, PartialEq, Eq, Debug)]
struct Told {
    console: u32,
    notes: u32,
    last: Option<Note>,
}

/// Makes 10000 turns, each of the next hart of four.
fn play(machine: &mut AnyMachine, told: &mut Told) {
    let mut out = Events::new();
    for turn in 0..10000u32 {
        if machine.steps() < 1000000 {
            machine.step(turn % 4, &mut out);
            told.console = told.console.wrapping_add(out.len());
            if let Some(note) = out.note() {
                told.notes = told.notes.wrapping_add(1);
                told.last = Some(note);
            }
        }
    }
}

/// The least number of words of SEALED that were the same as before after each ten thousand turns, and what these told.
fn compared(before: &AnyMachine, after: &mut AnyMachine) -> (u32, Told) {
    let mut told = Told {
        console: 0,
        notes: 0,
        last: None,
    };
    let mut least = u32::MAX;
    for _ in 0..10 {
        play(after, &mut told);
        least = least.min(kept(before, after));
    }
    (least, told)
}

/// The same of packets, and whether its audit reports AUDIT at boot and after the turns.
fn shown(alloc: Global) -> Result<(bool, u32, Told, bool), BootRefused> {
    let before = packets(alloc)?;
    match packets(alloc) {
        Ok(mut after) => {
            let first = is_audited(alloc, &before);
            let (least, told) = compared(&before, &mut after);
            let last = is_audited(alloc, &after);
            before.end();
            after.end();
            Ok((first, least, told, last))
        }
        Err(refused) => {
            before.end();
            Err(refused)
        }
    }
}

/// 350 lines of 12 bytes, and one exit.
#[test]
fn sealed_words_of_packets_stay(rt: HostRuntime) -> Result<(), Fail> {
    let told = Told {
        console: 4200,
        notes: 1,
        last: Some(Note::Exit {
            step: 72817,
            hart: 0,
            domain: 1,
            code: 0,
        }),
    };
    assert_eq!(rt; shown(rt.alloc()), Ok((true, 250370, told, true)));
    Ok(())
}
