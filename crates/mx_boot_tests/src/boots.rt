//! Boots of plans, and what is read of the machines. Expected values are written by hand from the rules.

use crate::layouts::{File, blobs_of};
use mx_boot::{AnyMachine, BootRefused, boot, empty_inputs_fit};
use mx_heap::Block;
use mx_machine::{HartStatus, HartView, StackArea};
use mx_manifest::read_manifest;
use mx_model::{Events, TurnKind};
use mx_words::{Blob, Perm};
use std::alloc::Global;

mod audits;
mod lines;
mod packets;
mod refusals;
mod standing;
mod whole;
mod words;

/// A module of three words that exit with 5.
pub(crate) const THREE: &str = "[[module]]
name = \"m\"
at = 0x80000000
perm = \"rx\"
words = [0x00100893, 0x00500513, 0x00000073]
";

/// A hart in its module.
pub(crate) const IN_M: &str = "[[hart]]\nmodule = \"m\"\n";

/// The boot of a manifest's text with these images; `NoMemory` also where it has no plan.
pub(crate) fn booted_over(
    alloc: Global,
    text: &str,
    images: &[Blob],
) -> Result<AnyMachine, BootRefused> {
    let Ok(table) = toml::table_from_str(alloc, text) else {
        return Err(BootRefused::NoMemory);
    };
    let Ok(plan) = read_manifest(alloc, &table) else {
        return Err(BootRefused::NoMemory);
    };
    empty_inputs_fit(&plan);
    boot(alloc, &plan, images, &[])
}

/// The same with these files.
pub(crate) fn booted(
    alloc: Global,
    text: &str,
    images: &[File],
) -> Result<AnyMachine, BootRefused> {
    match blobs_of(alloc, images) {
        Ok(blobs) => booted_over(alloc, text, blobs.as_slice()),
        Err(_) => Err(BootRefused::NoMemory),
    }
}

/// The permission of a word in a domain's map, where there are such.
pub(crate) fn perm(machine: &AnyMachine, domain: u32, word: u32) -> Option<Perm> {
    if domain == 0 || domain > machine.modules() || word >= machine.words() {
        return None;
    }
    Some(machine.perm(domain, word))
}

/// The first word after the run of a word's permission in a domain's map, where there are such.
pub(crate) fn perm_end(machine: &AnyMachine, domain: u32, word: u32) -> Option<u32> {
    if domain == 0 || domain > machine.modules() || word >= machine.words() {
        return None;
    }
    Some(machine.perm_end(domain, word))
}

/// The owner of a word and the first word after its run, where there is such a word.
pub(crate) fn owner(machine: &AnyMachine, word: u32) -> Option<(u32, u32)> {
    if word >= machine.words() {
        return None;
    }
    Some((machine.owner(word), machine.owner_end(word)))
}

/// A byte of RAM, where there is such.
pub(crate) fn byte(machine: &AnyMachine, at: u32) -> Option<u8> {
    let words = machine.words();
    if at / 4 >= words {
        return None;
    }
    Some(machine.byte(at))
}

/// A hart, where there is such.
pub(crate) fn hart(machine: &AnyMachine, number: u32) -> Option<HartView> {
    if number >= machine.harts() {
        return None;
    }
    Some(machine.hart(number))
}

/// The domain, the pc, x2 and the number of other registers that aren't zero, of a hart that runs.
pub(crate) fn start(machine: &AnyMachine, number: u32) -> Option<(u32, u32, u32, u32)> {
    let Some(view) = hart(machine, number) else {
        return None;
    };
    if view.status != HartStatus::Running || view.frames != 0 {
        return None;
    }
    let mut others = 0;
    for r in 0..32 {
        if r != 2 && view.regs[r] != 0 && others < 32 {
            others += 1;
        }
    }
    Some((view.domain, view.pc, view.regs[2], others))
}

/// The heap area, the stack area, and whether it is killing or dead, of a module.
pub(crate) fn module(machine: &AnyMachine, domain: u32) -> Option<(Block, StackArea, bool, bool)> {
    if domain == 0 || domain > machine.modules() {
        return None;
    }
    let heap = machine.heap_area(domain);
    let stack = machine.stack_area(domain);
    Some((heap, stack, machine.kills(domain), machine.dead(domain)))
}

/// One turn of a hart.
pub(crate) fn turn(machine: &mut AnyMachine, number: u32, out: &mut Events) -> Option<TurnKind> {
    if machine.steps() > 1000 {
        return None;
    }
    Some(machine.step(number, out))
}
