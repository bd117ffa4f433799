//! Machines of inline words, before their first turns and after them.

use super::{IN_M, THREE, booted, hart, module, owner, perm, turn};
use crate::layouts::{File, manifest};
use mx_boot::{AnyMachine, BootRefused};
use mx_model::{Events, TurnKind};
use mx_words::Perm;
use std::alloc::Global;
use std::test::Fail;

/// What the words' machine shows before and after three turns: the owner of the words with its run, the right to the
/// last word, whether
/// the module is killing, the turns' kinds, whether all halted, and a0.
#[derive(Clone, Copy, PartialEq, Eq, Debug)]
struct Three {
    owner: Option<(u32, u32)>,
    perm: Option<Perm>,
    kills: Option<bool>,
    turns: [Option<TurnKind>; 3],
    halted: bool,
    code: Option<u32>,
}

fn run_three(machine: &mut AnyMachine) -> Three {
    let owner = owner(machine, 0);
    let perm = perm(machine, 1, 2);
    let kills = match module(machine, 1) {
        Some((_, _, kills, _)) => Some(kills),
        None => None,
    };
    let mut out = Events::new();
    let turns = [
        turn(machine, 0, &mut out),
        turn(machine, 0, &mut out),
        turn(machine, 0, &mut out),
    ];
    let code = match hart(machine, 0) {
        Some(view) => Some(view.regs[10]),
        None => None,
    };
    Three {
        owner,
        perm,
        kills,
        turns,
        halted: machine.all_halted(),
        code,
    }
}

/// What the machine of a text shows, or why it boots none.
fn shown_three(alloc: Global, text: &str) -> Result<Three, BootRefused> {
    match booted(alloc, text, &[File::None]) {
        Ok(mut machine) => {
            let three = run_three(&mut machine);
            machine.end();
            Ok(three)
        }
        Err(refused) => Err(refused),
    }
}

#[test]
fn sealed_words_run_and_are_the_supervisors(rt: HostRuntime) -> Result<(), Fail> {
    for (more, owned, kills) in [
        ("", (1, 3), false),
        ("seal = true\n", (0, 16384), false),
        ("on_fault = \"kill\"\n", (1, 3), true),
        ("seal = true\non_fault = \"kill\"\n", (0, 16384), true),
        ("on_fault = \"return\"\nseal = false\n", (1, 3), false),
    ] {
        let modules = format!(in rt.alloc(); "{THREE}{more}")?;
        let text = manifest(rt.alloc(), modules.as_str(), IN_M)?;
        let want = Three {
            owner: Some(owned),
            perm: Some(Perm::ExecuteRead),
            kills: Some(kills),
            turns: [
                Some(TurnKind::Ran),
                Some(TurnKind::Ran),
                Some(TurnKind::Called),
            ],
            halted: true,
            code: Some(5),
        };
        assert_eq!(rt; shown_three(rt.alloc(), text.as_str()), Ok(want), "{more}");
    }
    Ok(())
}

const TWO: &str = "[[module]]
name = \"a\"
at = 0x80000000
perm = \"rx\"
words = [0x00100073]
[[module]]
name = \"b\"
at = 0x80000004
perm = \"rw\"
words = [0, 0]
";

/// The rights of domain 1 to the words 0 and 1 and of domain 2 to the words 0 to 3, the owners at words 0, 1 and 3, the
/// first turn's kind, and whether
/// all halted.
#[derive(Clone, Copy, PartialEq, Eq, Debug)]
struct Two {
    perms: [Option<Perm>; 6],
    owners: [Option<(u32, u32)>; 3],
    turn: Option<TurnKind>,
    halted: bool,
}

fn run_two(machine: &mut AnyMachine) -> Two {
    let perms = [
        perm(machine, 1, 0),
        perm(machine, 1, 1),
        perm(machine, 2, 0),
        perm(machine, 2, 1),
        perm(machine, 2, 2),
        perm(machine, 2, 3),
    ];
    let owners = [owner(machine, 0), owner(machine, 1), owner(machine, 3)];
    let mut out = Events::new();
    let turn = turn(machine, 0, &mut out);
    Two {
        perms,
        owners,
        turn,
        halted: machine.all_halted(),
    }
}

/// What the machine of a text shows, or why it boots none.
fn shown_two(alloc: Global, text: &str) -> Result<Two, BootRefused> {
    match booted(alloc, text, &[File::None, File::None]) {
        Ok(mut machine) => {
            let two = run_two(&mut machine);
            machine.end();
            Ok(two)
        }
        Err(refused) => Err(refused),
    }
}

#[test]
fn two_plain_modules_have_their_words(rt: HostRuntime) -> Result<(), Fail> {
    let text = manifest(rt.alloc(), TWO, "[[hart]]\nmodule = \"a\"\n")?;
    let want = Two {
        perms: [
            Some(Perm::ExecuteRead),
            Some(Perm::None),
            Some(Perm::None),
            Some(Perm::ReadWrite),
            Some(Perm::ReadWrite),
            Some(Perm::None),
        ],
        owners: [Some((1, 1)), Some((2, 3)), Some((0, 16384))],
        turn: Some(TurnKind::Trapped),
        halted: true,
    };
    assert_eq!(rt; shown_two(rt.alloc(), text.as_str()), Ok(want));
    Ok(())
}
