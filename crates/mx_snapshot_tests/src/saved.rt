//! A machine that booted from a manifest and made turns, and its snapshot.
ghost use Rattle.std.specs.Prelude.{IfSome};
ghost use Rattle.mx_any.specs.Machines.{meaning};
ghost use Rattle.mx_snapshot.specs.Kept.{IsOfPlan};

use mx_boot::{AnyMachine, boot, empty_inputs_fit};
use mx_commands::machines_are_of_their_plan;
use mx_io::Bytes;
use mx_manifest::{Plan, read_manifest};
use mx_model::Events;
use mx_snapshot::{Kept, write_snapshot};
use mx_words::Blob;
use std::alloc::Global;

/// A machine, and what is kept of its plan.
struct Booted {
    machine: AnyMachine,
    kept: Kept,
}

/// The empty images of modules that are all inline.
fn no_images(alloc: Global, modules: u32) -> Option<Vec<Blob>> {
    let mut images = Vec::new(alloc);
    for _ in 0..modules {
        if images.push(Blob::new(alloc)).is_err() {
            return None;
        }
    }
    Some(images)
}

/// The machine of a plan at boot, and what is kept of the plan.
fn boot_plan(alloc: Global, plan: &Plan) -> Option<Booted>
    ensures { IfSome result (λ b. IsOfPlan b.kept (meaning b.machine)) }
{
    machines_are_of_their_plan();
    let images = no_images(alloc, plan.modules())?;
    let Ok(kept) = Kept::of(alloc, plan) else {
        return None;
    };
    empty_inputs_fit(plan);
    match boot(alloc, plan, images.as_slice(), &[]) {
        Ok(machine) => Some(Booted { machine, kept }),
        Err(_) => None,
    }
}

/// The same of a manifest's text.
fn boot_text(alloc: Global, text: &str) -> Option<Booted>
    ensures { IfSome result (λ b. IsOfPlan b.kept (meaning b.machine)) }
{
    let Ok(table) = toml::table_from_str(alloc, text) else {
        return None;
    };
    match read_manifest(alloc, &table) {
        Ok(plan) => boot_plan(alloc, &plan),
        Err(_) => None,
    }
}

/// Makes so many turns, of these harts one after another and again.
fn play(kept: &Kept, machine: &mut AnyMachine, harts: &[u32], turns: u32)
    requires { IsOfPlan kept.now (meaning machine.old) }
    ensures { IsOfPlan kept.now (meaning machine.new) }
{
    machines_are_of_their_plan();
    let count = harts.len();
    let mut out = Events::new();
    'turns: for i in 0..turns {
        if count == 0 || machine.steps() > 100000 {
            return;
        }
        machine.step(harts[i as usize % count], &mut out);
    }
}

/// What a sink got of a snapshot, and whether that is the whole.
#[derive(Drop)]
pub struct Saved {
    pub sink: Bytes,
    pub whole: bool,
}

/// Writes a snapshot of a machine to a sink with room for so many bytes, whose call of that number fails, if it isn't
/// 0.
fn save(alloc: Global, kept: &Kept, machine: &AnyMachine, room: u32, failing: u64) -> Option<Saved>
    requires { IsOfPlan kept.now (meaning machine.now) }
{
    let Ok(mut sink) = Bytes::new(alloc, room as u64) else {
        return None;
    };
    sink.fail_at(failing);
    let whole = write_snapshot(&mut sink, machine, kept).is_ok();
    Some(Saved { sink, whole })
}

/// Writes a snapshot of the machine of a manifest after so many turns, of these harts one after another and again, to
/// such a sink.
/// `None` where the manifest has a fault, or memory is refused.
pub fn save_after(
    alloc: Global,
    text: &str,
    harts: &[u32],
    turns: u32,
    room: u32,
    failing: u64,
) -> Option<Saved> {
    match boot_text(alloc, text) {
        Some(booted) => {
            let Booted { mut machine, kept } = booted;
            play(&kept, &mut machine, harts, turns);
            let saved = save(alloc, &kept, &machine, room, failing);
            machine.end();
            saved
        }
        None => None,
    }
}
