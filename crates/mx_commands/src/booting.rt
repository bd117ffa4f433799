//! A boot as a step of a command: from the name of a manifest to its machine.

ghost use Rattle.std.specs.Prelude.{◌≡◌, ℕ, ◌-◌, ◌*◌, ◌≤◌, List, [], length, Ok, IfOk, IfSome};
ghost use Rattle.mx_boot.specs.Boot.{boot_of};
ghost use Rattle.mx_boot.specs.Booted.{IsBooted};
ghost use Rattle.mx_boot.specs.Faults.{ram_words};
ghost use Rattle.mx_boot.specs.Inputs.{AreInputs, FitsArea};
ghost use Rattle.mx_manifest.specs.InRange.{IsInput};
ghost use Rattle.mx_plan.specs.Manifest.{judged};
ghost use Rattle.mx_commands.specs.Boots.{Load, after_boot, after_inputs, after_load, booted, loaded, image_named};
ghost use Rattle.mx_commands.specs.Boots.{image_wanted, input_named, input_wanted, total};
ghost use Rattle.mx_commands.specs.Booting.{TakesBoot, TakesFile, TakesFiles, TakesLoaded, files_of};

use crate::refusal::refuse;
use crate::side::{Side, refused, tables_full};
use crate::status::Status;
use crate::wanted::{image_file, input_file, manifest_file, take_file};
use mx_any::AnyMachine;
use mx_boot::{BootRefused, boot};
use mx_io::{Sink, Store};
use mx_manifest::{ManifestFault, ModulePlan, Plan};
use mx_plan::read_plan;
use mx_words::Blob;
use std::alloc::Global;

/// A manifest's plan, and its machine at boot.
pub struct Booted {
    /// What the manifest says.
    pub plan: Plan,
    /// The machine, which has made no turn.
    pub machine: AnyMachine,
}

/// What booted, and of what: the plan boots with these images and these inputs to the same machine again.
pub struct Loaded {
    /// What the manifest says.
    pub plan: Plan,
    /// The images of its modules, in order; that of a module without one is empty.
    pub images: Vec<Blob>,
    /// Their inputs, in order; that of a module without one is empty.
    pub inputs: Vec<Blob>,
    /// The machine, which has made no turn.
    pub machine: AnyMachine,
}

/// Boots a side's manifest of this name with its images and its inputs, which it drops then, so that a run doesn't hold
/// them; or ends the call: the line of the refusal is the whole report.
pub fn take_boot<S: Store, R: Sink>(
    alloc: Global,
    side: Side,
    name: &str,
    store: &mut S,
    report: &mut R,
) -> Result<Booted, Status>
    ensures { TakesBoot S.gives (after_boot side name.now) store.old store.new
        (R.state report.old) (R.state report.new) result }
{
    match take_loaded(alloc, side, name, store, report) {
        Ok(loaded) => {
            let Loaded {
                plan,
                images: _images,
                inputs: _inputs,
                machine,
            } = loaded;
            Ok(Booted { plan, machine })
        }
        Err(status) => Err(status),
    }
}

/// The same, and the images and the inputs are handed on with plan and machine. Nothing is copied.
pub fn take_loaded<S: Store, R: Sink>(
    alloc: Global,
    side: Side,
    name: &str,
    store: &mut S,
    report: &mut R,
) -> Result<Loaded, Status>
    ensures { TakesLoaded S.gives (after_load side name.now) store.old store.new
        (R.state report.old) (R.state report.new) result }
{
    match take_file(alloc, &manifest_file(side, name), store, report) {
        Ok(bytes) => boot_manifest(alloc, side, name, bytes.as_slice(), store, report),
        Err(status) => Err(status),
    }
}

// Boots the manifest with these bytes, or refuses it by its first fault.
fn boot_manifest<S: Store, R: Sink>(
    alloc: Global,
    side: Side,
    name: &str,
    bytes: &[u8],
    store: &mut S,
    report: &mut R,
) -> Result<Loaded, Status>
    ensures { TakesLoaded S.gives (λ (rest : Load). loaded side name.now rest (judged bytes.now))
        store.old store.new (R.state report.old) (R.state report.new) result }
{
    match read_plan(alloc, bytes) {
        Ok(plan) => boot_plan(alloc, side, name, plan, store, report),
        Err(ManifestFault::Fault(fault)) => Err(refuse(report, name, refused(side, fault))),
        Err(ManifestFault::NoMemory) => Err(Status::WantOfMemory),
    }
}

// Boots a plan: takes the images and the inputs of its modules, and then boots it with them.
fn boot_plan<S: Store, R: Sink>(
    alloc: Global,
    side: Side,
    name: &str,
    plan: Plan,
    store: &mut S,
    report: &mut R,
) -> Result<Loaded, Status>
    ensures { TakesLoaded S.gives (λ (rest : Load). loaded side name.now rest (Ok plan))
        store.old store.new (R.state report.old) (R.state report.new) result }
{
    match take_images(alloc, side, &plan, store, report) {
        Ok(images) => boot_images(alloc, side, name, plan, images, store, report),
        Err(status) => Err(status),
    }
}

// The images of a plan's modules, in order.
fn take_images<S: Store, R: Sink>(
    alloc: Global,
    side: Side,
    plan: &Plan,
    store: &mut S,
    report: &mut R,
) -> Result<Vec<Blob>, Status>
    ensures { TakesFiles S.gives image_named (image_wanted side) plan.now.modules
        store.old store.new (R.state report.old) (R.state report.new) (files_of result) }
{
    let mut images = Vec::new(alloc);
    'modules: for i in 0..plan.modules() {
        match take_image(alloc, side, i + 1, plan.module(i), store, report) {
            Ok(image) => match images.push(image) {
                Ok(()) => {}
                Err(_) => return Err(Status::WantOfMemory),
            },
            Err(status) => return Err(status),
        }
    }
    Ok(images)
}

// The image of the module with a number from 1: the bytes of its file, or none for inline words.
fn take_image<S: Store, R: Sink>(
    alloc: Global,
    side: Side,
    number: u32,
    home: &ModulePlan,
    store: &mut S,
    report: &mut R,
) -> Result<Blob, Status>
    ensures { (taken : List (List ℕ)) →
        TakesFile S.gives image_named (image_wanted side) number taken home.now
        store.old store.new (R.state report.old) (R.state report.new) result }
{
    match &home.image {
        Some(name) => {
            match take_file(
                alloc,
                &image_file(side, number, name.as_str()),
                store,
                report,
            ) {
                Ok(bytes) => Ok(Blob::from_vec(bytes)),
                Err(status) => Err(status),
            }
        }
        None => Ok(Blob::new(alloc)),
    }
}

// Boots a plan with its images: takes the inputs of its modules.
fn boot_images<S: Store, R: Sink>(
    alloc: Global,
    side: Side,
    name: &str,
    plan: Plan,
    images: Vec<Blob>,
    store: &mut S,
    report: &mut R,
) -> Result<Loaded, Status>
    ensures { TakesLoaded S.gives (λ (rest : Load).
        after_inputs side (4 * ram_words plan) 1 plan.modules []
        (λ inputs. booted side name.now (rest images.items inputs) plan (boot_of plan images.items inputs)))
        store.old store.new (R.state report.old) (R.state report.new) result }
{
    match take_inputs(alloc, side, &plan, store, report) {
        Ok(inputs) => {
            let came = boot(alloc, &plan, images.as_slice(), inputs.as_slice());
            settle_boot(side, name, plan, images, inputs, came, store, report)
        }
        Err(status) => Err(status),
    }
}

// The inputs of a plan's modules, in order. Each fits its area, and together they have at most as many bytes as RAM.
fn take_inputs<S: Store, R: Sink>(
    alloc: Global,
    side: Side,
    plan: &Plan,
    store: &mut S,
    report: &mut R,
) -> Result<Vec<Blob>, Status>
    ensures takes { TakesFiles S.gives input_named
        (input_wanted side (4 * ram_words plan.now)) plan.now.modules
        store.old store.new (R.state report.old) (R.state report.new) (files_of result) }
    ensures fit { IfOk result (λ inputs. AreInputs plan.now inputs.items) }
{
    let mut left = 1024 * u64::from(plan.ram_kib());
    let mut inputs = Vec::new(alloc);
    'modules: for i in 0..plan.modules() {
        match take_input(alloc, side, i + 1, left, plan.module(i), store, report) {
            Ok(input) => {
                left -= u64::from(input.len());
                match inputs.push(input) {
                    Ok(()) => {}
                    Err(_) => return Err(Status::WantOfMemory),
                }
            }
            Err(status) => return Err(status),
        }
    }
    Ok(inputs)
}

// The input of the module with a number from 1: the bytes of its file, of which RAM has so many left, or none.
fn take_input<S: Store, R: Sink>(
    alloc: Global,
    side: Side,
    number: u32,
    left: u64,
    home: &ModulePlan,
    store: &mut S,
    report: &mut R,
) -> Result<Blob, Status>
    requires input { IfSome home.now.input IsInput }
    requires few { left ≤ 67108864 }
    ensures takes { (size : ℕ) (taken : List (List ℕ)) → left ≡ size - total taken →
        TakesFile S.gives input_named (input_wanted side size) number taken home.now
        store.old store.new (R.state report.old) (R.state report.new) result }
    ensures fit { IfOk result (λ bytes. (length bytes ≤ left)
        × IfSome home.now.input (λ input. FitsArea input bytes)) }
{
    match &home.input {
        Some(input) => {
            match take_file(alloc, &input_file(side, number, left, input), store, report) {
                Ok(bytes) => Ok(Blob::from_vec(bytes)),
                Err(status) => Err(status),
            }
        }
        None => Ok(Blob::new(alloc)),
    }
}

// What the boot of a plan came to: its machine, or the line of its refusal as the whole report.
fn settle_boot<S: Store, R: Sink>(
    side: Side,
    name: &str,
    plan: Plan,
    images: Vec<Blob>,
    inputs: Vec<Blob>,
    boot: Result<AnyMachine, BootRefused>,
    store: &mut S,
    report: &mut R,
) -> Result<Loaded, Status>
    requires boots { IsBooted plan images.items inputs.items boot }
    requires fits { AreInputs plan inputs.items }
    ensures { TakesLoaded S.gives (λ (rest : Load).
        booted side name.now (rest images.items inputs.items) plan (boot_of plan images.items inputs.items))
        store.old store.new (R.state report.old) (R.state report.new) result }
{
    match boot {
        Ok(machine) => Ok(Loaded {
            plan,
            images,
            inputs,
            machine,
        }),
        Err(BootRefused::Fault(fault)) => Err(refuse(report, name, refused(side, fault))),
        Err(BootRefused::TablesFull { need, limit }) => {
            Err(refuse(report, name, tables_full(side, need, limit)))
        }
        Err(BootRefused::NoMemory) => Err(Status::WantOfMemory),
    }
}
