//! The boot.

ghost use Rattle.std.specs.Prelude.{◌≡◌};
ghost use Rattle.mx_boot.specs.Laid.{IsLayout};
ghost use Rattle.mx_boot.specs.Booted.{IsBooted};
ghost use Rattle.mx_boot.specs.Inputs.{AreInputs};

use crate::images::Images;
use crate::joined::join;
use crate::layout::{Layout, lay_out_files};
use crate::machine::machine_of;
use crate::refused::{BootRefused, LayoutRefused};
use mx_any::AnyMachine;
use mx_manifest::Plan;
use mx_packed::Packed;
use mx_segments::Segments;
use mx_trie::{Trie, Vector};
use mx_words::{Blob, Kind};
use std::alloc::Global;

macro_rules! made {
    ($variant:ident, $plan:ident, $images:ident, $inputs:ident, $layout:ident, $parts:expr) => {
        match $parts {
            Ok(parts) => Ok(AnyMachine::$variant(machine_of(
                $plan, $images, $inputs, $layout, parts,
            ))),
            Err(refused) => Err(refused),
        }
    };
}

/// The machine over segments of a plan that is laid out.
fn with_segments(
    alloc: Global,
    plan: &Plan,
    images: &Images,
    inputs: &[Blob],
    layout: &Layout,
) -> Result<AnyMachine, BootRefused>
    requires layout { IsLayout plan.now images.now layout.now }
    requires inputs { AreInputs plan.now inputs.now }
    requires kind { plan.now.tables ≡ Kind.Segments }
    ensures { IsBooted plan.now images.now inputs.now result }
{
    match plan.lookaside() {
        8 => made!(
            Segments8,
            plan,
            images,
            inputs,
            layout,
            join::<Segments, 8>(alloc, plan, images, inputs, layout)
        ),
        32 => made!(
            Segments32,
            plan,
            images,
            inputs,
            layout,
            join::<Segments, 32>(alloc, plan, images, inputs, layout)
        ),
        _ => made!(
            Segments64,
            plan,
            images,
            inputs,
            layout,
            join::<Segments, 64>(alloc, plan, images, inputs, layout)
        ),
    }
}

/// The machine over multilevel tables of a plan that is laid out.
fn with_multilevel(
    alloc: Global,
    plan: &Plan,
    images: &Images,
    inputs: &[Blob],
    layout: &Layout,
) -> Result<AnyMachine, BootRefused>
    requires layout { IsLayout plan.now images.now layout.now }
    requires inputs { AreInputs plan.now inputs.now }
    requires kind { plan.now.tables ≡ Kind.Multilevel }
    ensures { IsBooted plan.now images.now inputs.now result }
{
    match plan.lookaside() {
        8 => made!(
            Multilevel8,
            plan,
            images,
            inputs,
            layout,
            join::<Trie<Vector>, 8>(alloc, plan, images, inputs, layout)
        ),
        32 => made!(
            Multilevel32,
            plan,
            images,
            inputs,
            layout,
            join::<Trie<Vector>, 32>(alloc, plan, images, inputs, layout)
        ),
        _ => made!(
            Multilevel64,
            plan,
            images,
            inputs,
            layout,
            join::<Trie<Vector>, 64>(alloc, plan, images, inputs, layout)
        ),
    }
}

/// The machine over packed tables of a plan that is laid out.
fn with_packed(
    alloc: Global,
    plan: &Plan,
    images: &Images,
    inputs: &[Blob],
    layout: &Layout,
) -> Result<AnyMachine, BootRefused>
    requires layout { IsLayout plan.now images.now layout.now }
    requires inputs { AreInputs plan.now inputs.now }
    requires kind { plan.now.tables ≡ Kind.Packed }
    ensures { IsBooted plan.now images.now inputs.now result }
{
    match plan.lookaside() {
        8 => made!(
            Packed8,
            plan,
            images,
            inputs,
            layout,
            join::<Trie<Packed>, 8>(alloc, plan, images, inputs, layout)
        ),
        32 => made!(
            Packed32,
            plan,
            images,
            inputs,
            layout,
            join::<Trie<Packed>, 32>(alloc, plan, images, inputs, layout)
        ),
        _ => made!(
            Packed64,
            plan,
            images,
            inputs,
            layout,
            join::<Trie<Packed>, 64>(alloc, plan, images, inputs, layout)
        ),
    }
}

/// The machine of a plan that is laid out.
fn start(
    alloc: Global,
    plan: &Plan,
    images: &Images,
    inputs: &[Blob],
    layout: &Layout,
) -> Result<AnyMachine, BootRefused>
    requires layout { IsLayout plan.now images.now layout.now }
    requires inputs { AreInputs plan.now inputs.now }
    ensures { IsBooted plan.now images.now inputs.now result }
{
    match plan.tables() {
        Kind::Segments => with_segments(alloc, plan, images, inputs, layout),
        Kind::Multilevel => with_multilevel(alloc, plan, images, inputs, layout),
        Kind::Packed => with_packed(alloc, plan, images, inputs, layout),
    }
}

/// Boots a plan with the files of its modules, as `boot` does.
fn boot_files(
    alloc: Global,
    plan: &Plan,
    images: &Images,
    inputs: &[Blob],
) -> Result<AnyMachine, BootRefused>
    requires { AreInputs plan.now inputs.now }
    ensures { IsBooted plan.now images.now inputs.now result }
{
    match lay_out_files(alloc, plan, images) {
        Ok(layout) => start(alloc, plan, images, inputs, &layout),
        Err(LayoutRefused::Fault(fault)) => Err(BootRefused::Fault(fault)),
        Err(LayoutRefused::NoMemory) => Err(BootRefused::NoMemory),
    }
}

/// Boots a plan with its images and its inputs, one of each for each module; that of an inline module is empty, and so
/// is
/// that of a module without an input. An input fits its area behind the word that tells its size. The machine is the
/// state
/// at boot exactly where the plan has none of the faults 10 to 17 and its maps fit the limit of its tables. A fault is
/// the
/// first one in the order of the tests, and faults come before tables; only `NoMemory` has no cause in them.
pub fn boot(
    alloc: Global,
    plan: &Plan,
    images: &[Blob],
    inputs: &[Blob],
) -> Result<AnyMachine, BootRefused>
    requires { AreInputs plan.now inputs.now }
    ensures { IsBooted plan.now images.now inputs.now result }
{
    let Ok(files) = Images::read(alloc, images) else {
        return Err(BootRefused::NoMemory);
    };
    boot_files(alloc, plan, &files, inputs)
}
