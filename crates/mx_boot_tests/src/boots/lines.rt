//! The lines of a report, each put by the call of its own. Expected lines are written by hand from the rules.

use super::{IN_M, THREE, booted, turn};
use crate::layouts::{File, manifest};
use mx_boot::{AnyMachine, BootRefused};
use mx_io::{Bytes, Failed};
use mx_machine::Machine;
use mx_model::{Events, Fault};
use mx_packed::Packed;
use mx_report::{
    EndState, counts_lines, domain_lines, end_line, exit_line, fault_line, hart_lines, owner_lines,
    table_lines,
};
use mx_trie::Trie;
use mx_words::{Kind, Need};
use std::alloc::Global;
use std::test::Fail;

/// Lines that need no machine.
const NOTED: &str = "fault step=2 hart=0 domain=1 pc=0x80000004 cause=7 value=0x80000000\n\
exit step=7 hart=3 domain=2 code=4294967295\n\
end steps=3 state=halted\n\
end steps=0 state=steps\n\
end steps=5 state=schedule\n";

/// The lines of the machine of three words after its exit, over packed tables with 8 spans.
const SHOWN: &str = "hart 0 status=halted domain=1 pc=0x80000008 frames=0\n\
regs 0 00000000 00000000 00000000 00000000 00000000 00000000 00000000 00000000 00000000 00000000 00000005 00000000 00000000 00000000 00000000 00000000 00000000 00000001 00000000 00000000 00000000 00000000 00000000 00000000 00000000 00000000 00000000 00000000 00000000 00000000 00000000 00000000\n\
domain 1 m\n\
map 1 0x80000000 0x8000000c rx\n\
owner 0x80000000 0x8000000c 1\n\
tables kind=packed upper=2/128 leaf=1/4096 spill=0/4096\n\
shown 1 leaf 0x80000000 0x07c00c0e\n\
counts 0 sidecar=2 lookaside=0 walks=1\n";

/// Puts lines that need no machine.
fn put_noted(sink: &mut Bytes) -> Result<(), Failed> {
    let fault = Fault {
        cause: 7,
        value: 0x8000_0000,
    };
    fault_line(sink, 2, 0, 1, 0x8000_0004, &fault)?;
    exit_line(sink, 7, 3, 2, 4294967295)?;
    end_line(sink, 3, EndState::Halted)?;
    end_line(sink, 0, EndState::Steps)?;
    end_line(sink, 5, EndState::Schedule)
}

/// Puts the lines of a machine's first hart and first domain, of its owners, its tables and its counts.
fn put_shown(sink: &mut Bytes, machine: &Machine<Trie<Packed>, 8>) -> Result<(), Failed> {
    if machine.harts() > 0 {
        hart_lines(sink, 0, &machine.hart(0))?;
    }
    if machine.modules() > 0 {
        domain_lines(sink, machine, 1, "m")?;
    }
    let limit = Need {
        upper: 128,
        leaf: 4096,
        spill: 4096,
    };
    owner_lines(sink, machine)?;
    table_lines(sink, machine, Kind::Packed, limit)?;
    counts_lines(sink, machine)
}

/// The lines of a machine after three turns of hart 0.
fn shown(alloc: Global, machine: &mut AnyMachine) -> Option<Bytes> {
    let mut out = Events::new();
    for _ in 0..3 {
        turn(machine, 0, &mut out);
    }
    let mut sink = Bytes::new(alloc, 4096).ok()?;
    match machine {
        AnyMachine::Packed8(machine) => put_shown(&mut sink, machine).ok()?,
        _ => return None,
    }
    Some(sink)
}

/// The same of the machine of a text, or why it boots none.
fn shown_of(alloc: Global, text: &str) -> Result<Option<Bytes>, BootRefused> {
    let mut machine = booted(alloc, text, &[File::None])?;
    let told = shown(alloc, &mut machine);
    machine.end();
    Ok(told)
}

#[test]
fn notes_and_ends_have_lines(rt: HostRuntime) -> Result<(), Fail> {
    let mut sink = Bytes::new(rt.alloc(), 4096)?;
    assert!(rt; put_noted(&mut sink).is_ok());
    assert_eq!(rt; sink.as_slice(), NOTED.as_bytes());
    Ok(())
}

#[test]
fn each_part_of_a_machine_has_lines(rt: HostRuntime) -> Result<(), Fail> {
    let modules = format!(in rt.alloc(); "lookaside = 8\n{THREE}")?;
    let text = manifest(rt.alloc(), modules.as_str(), IN_M)?;
    match shown_of(rt.alloc(), text.as_str()) {
        Ok(Some(sink)) => assert_eq!(rt; sink.as_slice(), SHOWN.as_bytes()),
        _ => assert!(rt; false),
    }
    Ok(())
}
