//! RAM at boot.

ghost use Rattle.std.specs.Prelude.{◌≡◌, ◌%◌, ◌≤◌, ℕ, Some, None, [], length, map, take, drop, fold, slice_get};
ghost use Rattle.std.specs.Prelude.{slice_index_or, IfOk, IfSome};
ghost use Rattle.std.specs.List.{AllByRecursion};
ghost use Rattle.mx_elf.specs.Image.{IsSound};
ghost use Rattle.mx_manifest.specs.declared.parts.ModulePlan.{ModulePlan};
ghost use Rattle.mx_boot.specs.Areas.{all_inputs, contents, inline_address, inline_content, input_content};
ghost use Rattle.mx_boot.specs.Areas.{input_contents, segment_content};
ghost use Rattle.mx_boot.specs.Boot.{boot_ram, with_content};
ghost use Rattle.mx_boot.specs.Faults.{first_fault};
ghost use Rattle.mx_boot.specs.Inputs.{AreInputs};
ghost use Rattle.mx_boot.specs.Placed.{HasRoom, words_content};
ghost use Rattle.mx_boot.specs.Seen.{seen};

use crate::home::{Home, home_at};
use crate::images::Images;
use crate::layout::ram_words;
use mx_elf::{Seg, Segs};
use mx_manifest::{InputPlan, ModulePlan, Numbers, Plan, plan_is_in_range};
use mx_memory::Ram;
use mx_words::{Blob, NoMemory};
use std::alloc::Global;

/// Puts bytes from an address on.
fn put_bytes(ram: &mut Ram, address: u32, bytes: &[u8])
    requires room { HasRoom (length ram.old) (record { address = address; bytes = bytes.now }) }
    requires small { length ram.old ≤ 67108864 }
    ensures bytes { ram.new
        ≡ with_content ram.old (record { address = address; bytes = bytes.now }) }
    ensures size { length ram.new ≡ length ram.old }
{
    'bytes: for k in 0..bytes.len() {
        ram.store(address + k as u32, 1, u32::from(bytes[k]));
    }
}

/// Puts words from an aligned address on.
fn put_words(ram: &mut Ram, address: u32, words: &Numbers)
    requires room { HasRoom (length ram.old) (words_content address words.now) }
    requires aligned { address % 4 ≡ 0 }
    requires small { length ram.old ≤ 67108864 }
    ensures bytes { ram.new ≡ with_content ram.old (words_content address words.now) }
    ensures size { length ram.new ≡ length ram.old }
{
    'words: for k in 0..words.len() {
        ram.store(address + 4 * k, 4, words.get(k));
    }
}

/// The bytes of a segment that its file has.
fn held(bytes: &[u8], segment: Seg) -> &[u8]
    requires { IsSound (length bytes.now) segment }
    ensures { result.now ≡ take segment.file (drop segment.offset bytes.now) }
{
    if segment.file == 0 {
        return &[];
    }
    let first = segment.offset as usize;
    &bytes[first..first + segment.file as usize]
}

/// Puts what the files of loaded segments have.
fn put_segments(ram: &mut Ram, bytes: &[u8], segments: &Segs)
    requires sound { AllByRecursion (IsSound (length bytes.now)) segments.now }
    requires room { AllByRecursion (HasRoom (length ram.old))
        (map (segment_content bytes.now) segments.now) }
    requires small { length ram.old ≤ 67108864 }
    ensures bytes { ram.new
        ≡ fold with_content ram.old (map (segment_content bytes.now) segments.now) }
    ensures size { length ram.new ≡ length ram.old }
{
    'segments: for k in 0..segments.len() {
        let segment = segments.get(k);
        put_bytes(ram, segment.address, held(bytes, segment));
    }
}

/// Puts inline words.
fn put_inline(ram: &mut Ram, home: Home)
    requires room { HasRoom (length ram.old) (inline_content (seen home).plan) }
    requires aligned { inline_address (seen home).plan % 4 ≡ 0 }
    requires small { length ram.old ≤ 67108864 }
    ensures bytes { ram.new ≡ with_content ram.old (inline_content (seen home.entry).plan) }
    ensures size { length ram.new ≡ length ram.old }
{
    let address = home.plan.at.unwrap_or(0);
    if let Some(words) = &home.plan.words {
        put_words(ram, address, words);
    }
}

/// Puts what a module puts there.
fn put_home(ram: &mut Ram, home: Home)
    requires room { AllByRecursion (HasRoom (length ram.old)) (contents (seen home)) }
    requires aligned { inline_address (seen home).plan % 4 ≡ 0 }
    requires small { length ram.old ≤ 67108864 }
    ensures bytes { ram.new ≡ fold with_content ram.old (contents (seen home.entry)) }
    ensures size { length ram.new ≡ length ram.old }
{
    if home.plan.image.is_none() {
        put_inline(ram, home);
        return;
    }
    if let Ok(image) = home.file.image() {
        put_segments(ram, home.file.bytes(), &image.segments);
    }
}

/// Puts an input: the number of its bytes as a word, and then these bytes.
fn put_input(ram: &mut Ram, input: &InputPlan, bytes: &[u8])
    requires room { HasRoom (length ram.old) (input_content bytes.now input.now) }
    requires aligned { input.now.address % 4 ≡ 0 }
    requires small { length ram.old ≤ 67108864 }
    ensures bytes { ram.new ≡ with_content ram.old (input_content bytes.now input.now) }
    ensures size { length ram.new ≡ length ram.old }
{
    ram.store(input.address, 4, bytes.len() as u32);
    put_bytes(ram, input.address + 4, bytes);
}

/// Puts a module's input, if it has one.
fn put_input_of(ram: &mut Ram, plan: &ModulePlan, bytes: &[u8])
    requires room { IfSome plan.now.input
        (λ input. HasRoom (length ram.old) (input_content bytes.now input)) }
    requires aligned { IfSome plan.now.input (λ input. input.address % 4 ≡ 0) }
    requires small { length ram.old ≤ 67108864 }
    ensures bytes { ram.new ≡ fold with_content ram.old (input_contents bytes.now plan.now) }
    ensures size { length ram.new ≡ length ram.old }
{
    if let Some(input) = &plan.input {
        put_input(ram, input, bytes);
    }
}

/// The input of the module at a place, which counts from 0; one of no bytes where there is none.
fn input_at(inputs: &[Blob], i: u32) -> &[u8]
    ensures { result.now ≡ slice_index_or inputs.now i [] }
{
    match inputs.get(i as usize) {
        Some(input) => input.as_slice(),
        None => &[],
    }
}

/// Puts the inputs of all modules.
fn put_inputs(ram: &mut Ram, plan: &Plan, inputs: &[Blob])
    requires room { (i : ℕ) (m : ModulePlan) → slice_get plan.now.modules i ≡ Some m →
        IfSome m.input
        (λ input. HasRoom (length ram.old) (input_content (slice_index_or inputs.now i []) input)) }
    requires small { length ram.old ≤ 67108864 }
    ensures bytes { ram.new ≡ fold with_content ram.old (all_inputs plan.now inputs.now) }
    ensures size { length ram.new ≡ length ram.old }
{
    'modules: for i in 0..plan.modules() {
        put_input_of(ram, plan.module(i), input_at(inputs, i));
    }
}

/// RAM at boot, of a plan without a fault.
pub(crate) fn ram(
    alloc: Global,
    plan: &Plan,
    images: &Images,
    inputs: &[Blob],
) -> Result<Ram, NoMemory>
    requires clear { first_fault plan.now images.now ≡ None }
    requires inputs { AreInputs plan.now inputs.now }
    ensures { IfOk result (λ ram. ram ≡ boot_ram plan.now images.now inputs.now) }
{
    plan_is_in_range(plan);
    let mut ram = Ram::new(alloc, ram_words(plan))?;
    'modules: for i in 0..plan.modules() {
        put_home(&mut ram, home_at(plan, images, i));
    }
    put_inputs(&mut ram, plan, inputs);
    Ok(ram)
}
