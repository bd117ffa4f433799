//! Two machines that boot from manifests' texts, and calls of them, which answer nothing where the machines or the
//! numbers aren't
//! what they want.
ghost use Rattle.std.specs.Prelude.{◌≡◌, true};
ghost use Rattle.mx_any.specs.Machines.{meaning};
ghost use Rattle.mx_twin.specs.Turns.{AreAlike};

use mx_boot::{AnyMachine, boot, empty_inputs_fit};
use mx_manifest::read_manifest;
use mx_model::{Events, TurnKind};
use mx_twin::{TwinEnd, run_twin, step_pair};
use mx_words::Blob;
use std::alloc::Global;

/// The first lines of a manifest: 64 KiB of RAM, and small tables of each kind.
pub(crate) const SEGMENTS: &str = "version = 2
ram_kib = 64
upper = 8
leaf = 16
spill = 16
tables = \"segments\"
lookaside = 8
";

pub(crate) const MULTILEVEL: &str = "version = 2
ram_kib = 64
upper = 8
leaf = 16
spill = 16
tables = \"multilevel\"
lookaside = 64
";

pub(crate) const PACKED: &str = "version = 2
ram_kib = 64
upper = 8
leaf = 16
spill = 16
tables = \"packed\"
lookaside = 32
";

/// Tables of two kinds side by side.
pub(crate) static KINDS: [(&str, &str); 3] = [
    (SEGMENTS, PACKED),
    (PACKED, MULTILEVEL),
    (MULTILEVEL, SEGMENTS),
];

/// What ends a twin run at its start.
pub(crate) const AT_THE_START: TwinEnd = TwinEnd::Ended {
    step: 0,
    hart: 0,
    kind: TurnKind::Idle,
};

/// A twin run that is asked.
#[derive(Clone, Copy)]
pub(crate) struct Asked {
    pub(crate) domain: u32,
    pub(crate) quantum: u32,
    pub(crate) steps: u64,
}

/// Turns that a machine may have made, and that it may be asked to make.
const MOST: u64 = 10_000_000_000;

/// The empty images of modules that are all inline.
fn no_images(alloc: Global, modules: u32) -> Option<Vec<Blob>> {
    let mut images = Vec::new(alloc);
    for _ in 0..modules {
        if images.push(Blob::new(alloc)).is_err() {
            return None;
        }
    }
    Some(images)
}

/// The machine of a manifest's text. `None` where it has a fault, or memory is refused.
fn booted(alloc: Global, text: &str) -> Option<AnyMachine> {
    let Ok(table) = toml::table_from_str(alloc, text) else {
        return None;
    };
    let Ok(plan) = read_manifest(alloc, &table) else {
        return None;
    };
    let images = no_images(alloc, plan.modules())?;
    empty_inputs_fit(&plan);
    match boot(alloc, &plan, images.as_slice(), &[]) {
        Ok(machine) => Some(machine),
        Err(_) => None,
    }
}

/// The machines of two texts.
pub(crate) fn pair(alloc: Global, first: &str, second: &str) -> Option<(AnyMachine, AnyMachine)> {
    let a = booted(alloc, first)?;
    match booted(alloc, second) {
        Some(b) => Some((a, b)),
        None => {
            a.end();
            None
        }
    }
}

/// Whether two machines have as many harts, modules and words.
fn are_alike(a: &AnyMachine, b: &AnyMachine) -> bool
    ensures { result ≡ true → AreAlike (meaning a.now) (meaning b.now) }
{
    a.harts() == b.harts() && a.modules() == b.modules() && a.words() == b.words()
}

/// One turn of a hart in both.
pub(crate) fn step(
    a: &mut AnyMachine,
    b: &mut AnyMachine,
    hart: u32,
    left: &mut Events,
    right: &mut Events,
) -> Option<(TurnKind, TurnKind)> {
    if !are_alike(a, b) || a.steps() > MOST || b.steps() > MOST {
        return None;
    }
    Some(step_pair(a, b, hart, left, right))
}

/// What a twin run of both comes to.
pub(crate) fn watch(a: &mut AnyMachine, b: &mut AnyMachine, asked: Asked) -> Option<TwinEnd> {
    if !are_alike(a, b) || a.steps() > MOST || b.steps() > MOST || asked.steps > MOST {
        return None;
    }
    if asked.domain == 0 || asked.domain > a.modules() || asked.quantum == 0 {
        return None;
    }
    Some(run_twin(a, b, asked.domain, asked.quantum, asked.steps))
}

/// The hart that makes the turn after so many others, each making `quantum` in a row.
pub(crate) fn next_hart(machine: &AnyMachine, quantum: u32, made: u64) -> Option<u32> {
    let harts = machine.harts();
    if quantum == 0 || harts == 0 {
        return None;
    }
    Some((made / quantum as u64 % harts as u64) as u32)
}

/// Makes so many turns in both.
pub(crate) fn go_on(
    a: &mut AnyMachine,
    b: &mut AnyMachine,
    quantum: u32,
    turns: u64,
) -> Option<()> {
    let mut left = Events::new();
    let mut right = Events::new();
    for made in 0..turns {
        let hart = next_hart(a, quantum, made)?;
        step(a, b, hart, &mut left, &mut right)?;
    }
    Some(())
}

/// What a twin run of the machines of two texts comes to, after so many turns of both.
pub(crate) fn twin_after(
    alloc: Global,
    first: &str,
    second: &str,
    turns: u64,
    asked: Asked,
) -> Option<TwinEnd> {
    let (mut a, mut b) = pair(alloc, first, second)?;
    let end = match go_on(&mut a, &mut b, asked.quantum, turns) {
        Some(()) => watch(&mut a, &mut b, asked),
        None => None,
    };
    a.end();
    b.end();
    end
}
