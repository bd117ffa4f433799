//! The instruction at a hart's pc: in a machine of inline words, after so many turns.

use super::{IN_M, booted, turn};
use crate::layouts::{File, manifest};
use mx_boot::{AnyMachine, BootRefused};
use mx_isa::{ImmOp, Inst};
use mx_model::Events;
use std::alloc::Global;
use std::test::Fail;

/// `addi x17, x0, 1`, `addi x10, x0, 5` and `addi x0, x0, 0`.
const NUMBER: Inst = Inst::OpImm {
    op: ImmOp::Addi,
    rd: 17,
    rs1: 0,
    imm: 1,
};

const CODE: Inst = Inst::OpImm {
    op: ImmOp::Addi,
    rd: 10,
    rs1: 0,
    imm: 5,
};

const NOP: Inst = Inst::OpImm {
    op: ImmOp::Addi,
    rd: 0,
    rs1: 0,
    imm: 0,
};

/// The permission and the words of a module at RAM's start, the turns of its hart, and the instruction at its pc then.
static CASES: [(&str, &str, u32, Option<Inst>); 9] = [
    // Before each turn of an exit with 5, and when the hart is halted by it: its pc is still at the ECALL.
    ("rx", "0x00100893, 0x00500513, 0x00000073", 0, Some(NUMBER)),
    ("rx", "0x00100893, 0x00500513, 0x00000073", 1, Some(CODE)),
    (
        "rx",
        "0x00100893, 0x00500513, 0x00000073",
        2,
        Some(Inst::Ecall),
    ),
    ("rx", "0x00100893, 0x00500513, 0x00000073", 3, None),
    // An instruction that the domain may not fetch.
    ("rw", "0x00100893", 0, None),
    // A jump to the word behind the module's: 19 would be an instruction, but nothing gives it.
    (
        "rx",
        "0x0080006F, 0x00000013",
        0,
        Some(Inst::Jal { rd: 0, imm: 8 }),
    ),
    ("rx", "0x0080006F, 0x00000013", 1, None),
    // A word that is no instruction, behind one.
    ("rx", "0x00000013, 0xFFFFFFFF", 0, Some(NOP)),
    ("rx", "0x00000013, 0xFFFFFFFF", 1, None),
];

/// The instruction at the pc of hart 0 after so many turns.
fn instruction(machine: &mut AnyMachine, turns: u32) -> Option<Inst> {
    let mut out = Events::new();
    for _ in 0..turns {
        turn(machine, 0, &mut out);
    }
    if machine.harts() == 0 {
        return None;
    }
    machine.instruction(0)
}

/// The same in the machine of a text, or why it boots none.
fn standing(alloc: Global, text: &str, turns: u32) -> Result<Option<Inst>, BootRefused> {
    match booted(alloc, text, &[File::None]) {
        Ok(mut machine) => {
            let inst = instruction(&mut machine, turns);
            machine.end();
            Ok(inst)
        }
        Err(refused) => Err(refused),
    }
}

#[test]
fn a_machine_tells_the_instruction_at_a_pc(rt: HostRuntime) -> Result<(), Fail> {
    for (perm, words, turns, want) in &CASES {
        let module = format!(in rt.alloc();
            "[[module]]\nname = \"m\"\nat = 0x80000000\nperm = \"{perm}\"\nwords = [{words}]\n"
        )?;
        let text = manifest(rt.alloc(), module.as_str(), IN_M)?;
        let told = standing(rt.alloc(), text.as_str(), *turns);
        assert!(rt; told == Ok(*want), "{words} {turns}");
    }
    Ok(())
}
