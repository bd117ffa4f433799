//! The machines.

ghost use Rattle.std.specs.Prelude.{◌≤◌, ◌^◌, length};

use mx_asm::assemble;
use mx_boot::{AnyMachine, boot, empty_inputs_fit};
use mx_manifest::{Plan, read_manifest};
use mx_model::Events;
use mx_words::Blob;
use std::alloc::Global;

/// The address of RAM's first byte.
const RAM: u32 = 0x8000_0000;

/// The bytes for each of the 63 modules.
const ROOM: u32 = 0x10_0000;

const HEAD: &str = "tables = \"packed\"\nupper = 4096\nleaf = 262144\nspill = 1048576\n";

/// Makes grants of read-write on each second word of its heap area, removes its gate and returns.
const GRANTER: &str = "next:
    addi a0, s0, 0
    addi a1, zero, 4
    addi a2, zero, 2
    addi a3, zero, 2
    addi a7, zero, 3
    ecall                   # grant
    addi s0, s0, 8
    bne s0, s1, next
    lui a0, 0x80000
    addi a1, zero, 2
    addi a7, zero, 9
    ecall                   # ungate
back:
    jalr zero, 0(ra)
";

/// Calls it, and then loops.
const CALLER: &str = ".text 0x80008000
    lui t0, 0x80000
    jalr ra, 0(t0)
idle:
    jal zero, idle
";

/// The machine of a manifest with these images.
fn machine_of(alloc: Global, text: &str, images: &[Blob]) -> Option<AnyMachine> {
    let plan = plan_of(alloc, text)?;
    empty_inputs_fit(&plan);
    boot(alloc, &plan, images, &[]).ok()
}

fn plan_of(alloc: Global, text: &str) -> Option<Plan> {
    let table = toml::table_from_str(alloc, text).ok()?;
    read_manifest(alloc, &table).ok()
}

/// A machine of 63 modules with a word, a heap area and a stack area each, and gates for the four modules after it.
pub fn wide(alloc: Global) -> Option<AnyMachine> {
    let mut text = format!(in alloc; "version = 2\nram_kib = 65536\n{HEAD}").ok()?;
    let mut images = Vec::new(alloc);
    for i in 0..63 {
        let module = module(alloc, i)?;
        text.push_str(module.as_str()).ok()?;
        images.push(Blob::new(alloc)).ok()?;
    }
    for i in 0..4 {
        let hart = format!(in alloc; "[[hart]]\nmodule = \"m{i}\"\n").ok()?;
        text.push_str(hart.as_str()).ok()?;
    }
    machine_of(alloc, text.as_str(), images.as_slice())
}

/// The table of a module.
fn module(alloc: Global, i: u32) -> Option<String> {
    let first = RAM.wrapping_add(ROOM.wrapping_mul(i));
    format!(in alloc;
        "[[module]]\nname = \"m{i}\"\nat = {first}\nperm = \"rx\"\nwords = [0]\nheap = {}\nheap_words = 16384\nstack = {}\nstack_words = 1024\ngates = [{{ entry = {first}, from = [\"m{}\", \"m{}\", \"m{}\", \"m{}\"] }}]\n",
        first.wrapping_add(0x8_0000),
        first.wrapping_add(0xC_0000),
        next(i, 1),
        next(i, 2),
        next(i, 3),
        next(i, 4)
    )
    .ok()
}

/// The module so many places after another one.
fn next(i: u32, places: u32) -> u32 {
    i.wrapping_add(places) % 63
}

/// A machine whose module `a` has let module `b` write each second word of its heap area, which is all of RAM behind
/// the first 64 KiB,
/// and isn't live any more.
pub fn worst(alloc: Global, kib: u32) -> Option<AnyMachine> {
    if kib < 128 || kib > 65536 {
        return None;
    }
    let words = (kib - 64) * 256;
    let text = worst_text(alloc, kib, words)?;
    let images = worst_images(alloc, kib)?;
    let mut machine = machine_of(alloc, text.as_str(), images.as_slice())?;
    make_turns(&mut machine, 4 * words + 64);
    Some(machine)
}

/// Makes so many turns of the first hart.
fn make_turns(machine: &mut AnyMachine, turns: u32) {
    let mut out = Events::new();
    for _ in 0..turns {
        if machine.steps() < u64::MAX {
            machine.step(0, &mut out);
        }
    }
}

fn worst_text(alloc: Global, kib: u32, words: u32) -> Option<String> {
    format!(in alloc;
        "version = 2\nram_kib = {kib}\n{HEAD}[[module]]\nname = \"a\"\nimage = \"a\"\nheap = 0x80010000\nheap_words = {words}\ngates = [{{ entry = 0x80000000, from = [\"b\"] }}]\nreturns = [\"back\"]\n[[module]]\nname = \"b\"\nimage = \"b\"\n[[hart]]\nmodule = \"b\"\n"
    ).ok()
}

fn worst_images(alloc: Global, kib: u32) -> Option<Vec<Blob>> {
    let granter = format!(in alloc;
        ".text 0x80000000\n    lui s0, 0x80010\n    lui s1, {}\n{GRANTER}",
        0x80000u32.wrapping_add(kib / 4)
    )
    .ok()?;
    let mut images = Vec::new(alloc);
    images.push(image(alloc, granter.as_str())?).ok()?;
    images.push(image(alloc, CALLER)?).ok()?;
    Some(images)
}

fn image(alloc: Global, source: &str) -> Option<Blob> {
    if source.len() > 0x10_0000 {
        return None;
    }
    assemble(alloc, source).ok()
}
