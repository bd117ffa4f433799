//! Machines made by hand after so many turns, with what their turns told; and what tests read of them, which answers
//! nothing where a
//! number is out of range.

use crate::small::{Module, NO_HEAP, Small, machine};
use mx_machine::{HartStart, HartView, StackArea};
use mx_model::{Events, Fault, Gate, Note, TurnKind};
use mx_words::Perm;
use std::alloc::Global;
use std::test::Fail;

/// A machine with what its turns told.
#[derive(Drop)]
pub struct Played {
    pub machine: Small,
    pub notes: Vec<Note>,
    pub console: Vec<u8>,
}

/// One turn of a hart, while there is a number for it.
pub fn turn(machine: &mut Small, hart: u32, out: &mut Events) -> TurnKind {
    if machine.steps() == u64::MAX {
        return TurnKind::Idle;
    }
    machine.step(hart, out)
}

impl Played {
    /// Lets the machine go. A value that goes out of scope does the same; this keeps the drop out of the caller's
    /// proof.
    pub fn end(self) {}

    /// The machine, where all went well; else it is let go.
    pub fn after(self, done: Result<(), Fail>) -> Result<Played, Fail> {
        match done {
            Ok(()) => Ok(self),
            Err(fail) => {
                self.end();
                Err(fail)
            }
        }
    }

    /// Makes a turn of each of these harts.
    pub fn turns_of(&mut self, harts: &[u32]) -> Result<(), Fail> {
        let mut out = Events::new();
        for hart in harts {
            self.turn(*hart, &mut out)?;
        }
        Ok(())
    }

    /// Makes a turn, and keeps what it tells.
    pub fn turn(&mut self, hart: u32, out: &mut Events) -> Result<(), Fail> {
        turn(&mut self.machine, hart, out);
        if let Some(note) = out.note() {
            self.notes.push(note)?;
        }
        for i in 0..out.len() {
            self.console.push(out.byte(i))?;
        }
        Ok(())
    }

    /// Makes so many turns, of the harts one after another.
    fn turns(&mut self, count: u32) -> Result<(), Fail> {
        let mut out = Events::new();
        let harts = self.machine.harts();
        if harts == 0 {
            return Err("no hart")?;
        }
        for i in 0..count {
            self.turn(i % harts, &mut out)?;
        }
        Ok(())
    }
}

/// A machine of these modules, gates and starts after so many turns.
pub fn play(
    alloc: Global,
    modules: &[Module],
    gates: &[Gate],
    starts: &[HartStart],
    turns: u32,
) -> Result<Played, Fail> {
    let Some(machine) = machine(alloc, modules, gates, starts) else {
        return Err("no machine")?;
    };
    let mut played = Played {
        machine,
        notes: Vec::new(alloc),
        console: Vec::new(alloc),
    };
    let done = played.turns(turns);
    played.after(done)
}

/// Lets a machine go, out of the caller's proof as well.
pub fn let_go(_machine: Small) {}

/// The owner of a word, and the word after those round it that have its owner, where there is the word.
pub fn run_from(machine: &Small, word: u32) -> Option<(u32, u32)> {
    if word < machine.words() {
        Some((machine.owner(word), machine.owner_end(word)))
    } else {
        None
    }
}

/// A module with execute and read on its words, and no stack area.
pub fn code(first: u32, words: &[u32]) -> Module {
    Module {
        first,
        words,
        perm: Perm::ExecuteRead,
        stack: StackArea::default(),
        heap: NO_HEAP,
    }
}

/// A start in a domain.
pub fn start(domain: u32, pc: u32) -> HartStart {
    HartStart { domain, pc }
}

/// A note of a fault.
pub fn fault(step: u64, hart: u32, domain: u32, pc: u32, cause: u32, value: u32) -> Note {
    Note::Fault {
        step,
        hart,
        domain,
        pc,
        fault: Fault { cause, value },
    }
}

/// Registers of which these aren't zero.
pub fn regs(values: &[(usize, u32)]) -> [u32; 32] {
    let mut regs = [0; 32];
    for (r, value) in values {
        if *r < 32 {
            regs[*r] = *value;
        }
    }
    regs
}

/// A hart as it stands, where there is one.
pub fn hart(machine: &Small, hart: u32) -> Option<HartView> {
    if hart < machine.harts() {
        Some(machine.hart(hart))
    } else {
        None
    }
}

/// Whether a domain is dead, where it is there.
pub fn is_dead(machine: &Small, domain: u32) -> Option<bool> {
    if 0 < domain && domain <= machine.modules() {
        Some(machine.dead(domain))
    } else {
        None
    }
}

/// The permission of a domain on a word, where there are both.
pub fn perm(machine: &Small, domain: u32, word: u32) -> Option<Perm> {
    if 0 < domain && domain <= machine.modules() && word < machine.words() {
        Some(machine.perm(domain, word))
    } else {
        None
    }
}

/// The word after the run of a word's permission in a domain's map, where there are both.
pub fn perm_end(machine: &Small, domain: u32, word: u32) -> Option<u32> {
    if 0 < domain && domain <= machine.modules() && word < machine.words() {
        Some(machine.perm_end(domain, word))
    } else {
        None
    }
}

/// Whether a hart waits and another has heard its call, where there are both.
pub fn heard(machine: &Small, hart: u32, by: u32) -> Option<bool> {
    if hart < machine.harts() && by < machine.harts() {
        Some(machine.heard(hart, by))
    } else {
        None
    }
}
