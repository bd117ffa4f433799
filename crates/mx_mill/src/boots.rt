//! The machine at boot.

ghost use Rattle.std.specs.Prelude.{◌≡◌, [], IfOk};
ghost use Rattle.mx_model.specs.State.{flat};
ghost use Rattle.mx_boot.specs.Boot.{boot_state};
ghost use Rattle.mx_any.specs.Machines.{meaning};
ghost use Rattle.mx_mill.specs.Plan.{mill_plan, no_images};

use crate::laws::mills_boot;
use crate::plan::plan_of_mill;
use crate::words::MODULES;
use mx_any::AnyMachine;
use mx_boot::{BootRefused, boot, empty_inputs_fit};
use mx_words::{Blob, NoMemory};
use std::alloc::Global;

// The images: an empty one for each module.
fn no_images(alloc: Global) -> Result<Vec<Blob>, NoMemory>
    ensures { IfOk result (λ images. images.items ≡ no_images) }
{
    let mut images = Vec::new(alloc);
    'modules: for _ in 0..MODULES {
        images.push(Blob::new(alloc))?;
    }
    Ok(images)
}

/// The machine of the manifest for a number. It boots for every one.
pub(crate) fn boot_mill(alloc: Global, k: u32) -> Result<AnyMachine, NoMemory>
    ensures { IfOk result
        (λ machine. meaning machine ≡ flat (boot_state (mill_plan k) no_images [])) }
{
    mills_boot();
    let plan = plan_of_mill(alloc, k)?;
    let images = no_images(alloc)?;
    empty_inputs_fit(&plan);
    match boot(alloc, &plan, images.as_slice(), &[]) {
        Ok(machine) => Ok(machine),
        Err(BootRefused::NoMemory) => Err(NoMemory),
        Err(BootRefused::Fault(_)) => unreachable!(),
        Err(BootRefused::TablesFull { .. }) => unreachable!(),
    }
}
