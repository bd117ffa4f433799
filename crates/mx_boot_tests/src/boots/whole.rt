//! One plan with all that a manifest may say, as a machine at boot over each kind of tables with each size of lookaside
//! buffers.

use super::{booted, byte, module, owner, perm, perm_end, start};
use crate::layouts::accepted::{HARTS, MODULES};
use crate::layouts::{File, manifest};
use mx_boot::{AnyMachine, BootRefused};
use mx_heap::Block;
use mx_machine::StackArea;
use mx_model::Gate;
use mx_words::{Need, Perm};
use std::alloc::Global;
use std::test::Fail;

/// The permissions of the words at which the areas of MODULES begin or end, by domain and word.
static PERMS: [(u32, u32, Perm); 20] = [
    (1, 0, Perm::ExecuteRead),
    (1, 3, Perm::ExecuteRead),
    (1, 4, Perm::None),
    (1, 1023, Perm::None),
    (1, 1024, Perm::ExecuteRead),
    (1, 1030, Perm::ExecuteRead),
    (1, 1031, Perm::None),
    (1, 2048, Perm::Read),
    (1, 2049, Perm::Read),
    (1, 2050, Perm::None),
    (1, 3071, Perm::None),
    (1, 3072, Perm::ReadWrite),
    (1, 3083, Perm::ReadWrite),
    (1, 3084, Perm::None),
    (1, 4096, Perm::None),
    (2, 0, Perm::None),
    (2, 1030, Perm::None),
    (2, 1031, Perm::Read),
    (2, 1032, Perm::Read),
    (2, 1033, Perm::None),
];

/// The runs of permission, from a first word, a last one or one between: domain, word, and the word after the run.
static ENDS: [(u32, u32, u32); 14] = [
    (1, 0, 4),
    (1, 3, 4),
    (1, 4, 1024),
    (1, 700, 1024),
    (1, 1024, 1031),
    (1, 1031, 2048),
    (1, 2048, 2050),
    (1, 2049, 2050),
    (1, 2050, 3072),
    (1, 3072, 3084),
    (1, 3084, 16384),
    (2, 0, 1031),
    (2, 1032, 1033),
    (2, 1033, 16384),
];

/// The runs of owners: first word, owner, and the word after.
static OWNERS: [(u32, u32, u32); 11] = [
    (0, 1, 4),
    (4, 0, 1024),
    (1024, 1, 1031),
    (1031, 2, 1033),
    (1033, 0, 2048),
    (2048, 1, 2050),
    (2050, 0, 3072),
    (3072, 1, 3084),
    (3084, 0, 4096),
    (4096, 1, 4104),
    (4104, 0, 16384),
];

/// Bytes of RAM: code, .data with zeros after the file's five bytes, the inline words, .rodata, and what nothing gives.
static BYTES: [(u32, u8); 17] = [
    (0, 55),
    (1, 17),
    (3, 128),
    (15, 0),
    (16, 0),
    (4096, 7),
    (4100, 1),
    (4101, 0),
    (4120, 0),
    (4124, 19),
    (4128, 19),
    (4132, 0),
    (8192, 68),
    (8195, 17),
    (8196, 5),
    (12288, 0),
    (65535, 0),
];

/// Where the harts start: domain, pc, x2, other registers that aren't zero. The second module has no stack.
static STARTS: [(u32, u32, u32, u32); 4] = [
    (1, 0x8000_0000, 0x8000_300C, 0),
    (1, 0x8000_0004, 0x8000_3018, 0),
    (2, 0x8000_101C, 0, 0),
    (1, 0x8000_4000, 0x8000_3030, 0),
];

static GATES: [(u32, u32, u32); 5] = [
    (2, 2, 1),
    (2, 1024, 1),
    (1, 3, 1),
    (1, 1032, 2),
    (2, 1032, 2),
];

fn has_rights(machine: &AnyMachine) -> bool {
    for (domain, word, right) in &PERMS {
        if perm(machine, *domain, *word) != Some(*right) {
            return false;
        }
    }
    true
}

fn has_ends(machine: &AnyMachine) -> bool {
    for (domain, word, end) in &ENDS {
        if perm_end(machine, *domain, *word) != Some(*end) {
            return false;
        }
    }
    true
}

fn has_owners(machine: &AnyMachine) -> bool {
    for (word, domain, end) in &OWNERS {
        if owner(machine, *word) != Some((*domain, *end)) {
            return false;
        }
    }
    true
}

fn has_bytes(machine: &AnyMachine) -> bool {
    for (at, value) in &BYTES {
        if byte(machine, *at) != Some(*value) {
            return false;
        }
    }
    true
}

fn has_harts(machine: &AnyMachine) -> bool {
    for (number, place) in STARTS.iter().enumerate() {
        if start(machine, number as u32) != Some(*place) {
            return false;
        }
    }
    machine.harts() == 4 && machine.steps() == 0 && !machine.all_halted()
}

fn has_gates(machine: &AnyMachine) -> bool {
    for (i, (domain, word, target)) in GATES.iter().enumerate() {
        let gate = Gate {
            domain: *domain,
            word: *word,
            target: *target,
        };
        if machine.gate(i as u32) != Some(gate) {
            return false;
        }
    }
    machine.gate(5).is_none()
}

fn has_modules(machine: &AnyMachine) -> bool {
    let none = Block { first: 0, count: 0 };
    let heap = Block {
        first: 4096,
        count: 8,
    };
    let stack = StackArea {
        first: 3072,
        words: 3,
        kills: false,
    };
    let no_stack = StackArea {
        first: 0,
        words: 0,
        kills: false,
    };
    machine.modules() == 2
        && module(machine, 1) == Some((heap, stack, false, false))
        && module(machine, 2) == Some((none, no_stack, false, false))
}

/// Which of the nine machines it is.
fn variant(machine: &AnyMachine) -> (&'static str, u32) {
    match machine {
        AnyMachine::Segments8(_) => ("segments", 8),
        AnyMachine::Segments32(_) => ("segments", 32),
        AnyMachine::Segments64(_) => ("segments", 64),
        AnyMachine::Multilevel8(_) => ("multilevel", 8),
        AnyMachine::Multilevel32(_) => ("multilevel", 32),
        AnyMachine::Multilevel64(_) => ("multilevel", 64),
        AnyMachine::Packed8(_) => ("packed", 8),
        AnyMachine::Packed32(_) => ("packed", 32),
        AnyMachine::Packed64(_) => ("packed", 64),
    }
}

/// The kinds of tables, and what the maps of MODULES need of each. Segments: each domain's runs fill one frame.
/// Multilevel: one
/// region is broken in each domain, and pages 1 to 3 and 0 of the first, page 1 of the second.
const KINDS: [(&str, u32, u32); 3] = [("segments", 0, 2), ("multilevel", 4, 5), ("packed", 4, 5)];

/// What of a machine isn't what MODULES and HARTS say, over tables of this kind, with buffers of this size and this
/// need.
fn wrong_in(machine: &AnyMachine, kind: &str, size: u32, need: Need) -> Option<&'static str> {
    let (its, spans) = variant(machine);
    if its != kind || spans != size {
        return Some("variant");
    }
    if machine.words() != 16384 || !has_bytes(machine) {
        return Some("RAM");
    }
    if !has_rights(machine) || !has_ends(machine) {
        return Some("rights");
    }
    if !has_owners(machine) {
        return Some("owners");
    }
    if !has_harts(machine) || !has_gates(machine) || !has_modules(machine) {
        return Some("harts, gates or modules");
    }
    if machine.used() != need {
        return Some("need");
    }
    None
}

/// The same of the machine that a text boots, or why it boots none.
fn wrong(
    alloc: Global,
    text: &str,
    kind: &str,
    size: u32,
    need: Need,
) -> Result<Option<&'static str>, BootRefused> {
    match booted(alloc, text, &[File::Changed(108, 7), File::None]) {
        Ok(machine) => {
            let wrong = wrong_in(&machine, kind, size, need);
            machine.end();
            Ok(wrong)
        }
        Err(refused) => Err(refused),
    }
}

#[test]
fn a_plan_boots_as_the_rules_say(rt: HostRuntime) -> Result<(), Fail> {
    for (kind, upper, leaf) in KINDS {
        for size in [8, 32, 64] {
            let tables = format!(in rt.alloc();
                "tables = \"{kind}\"\nlookaside = {size}\n{MODULES}"
            )?;
            let text = manifest(rt.alloc(), tables.as_str(), HARTS)?;
            let need = Need {
                upper,
                leaf,
                spill: 0,
            };
            let wrong = wrong(rt.alloc(), text.as_str(), kind, size, need);
            assert_eq!(rt; wrong, Ok(None), "{kind} {size}");
        }
    }
    Ok(())
}
