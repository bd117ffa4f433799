//! What a plan and its images lay out in RAM.

ghost use Rattle.std.specs.Prelude.{◌≡◌};
ghost use Rattle.mx_boot.specs.Faults.{ram_words};
ghost use Rattle.mx_boot.specs.Laid.{IsLaid};

use crate::area::Area;
use crate::areas::{areas, areas_fault};
use crate::files::images_fault;
use crate::gates::ask_gates;
use crate::images::Images;
use crate::refused::LayoutRefused;
use crate::starts::add_starts;
use mx_manifest::Plan;
use mx_model::Gate;
use mx_words::Blob;
use std::alloc::Global;

/// What a plan without a fault lays out.
#[derive(Drop)]
pub struct Layout {
    /// The areas of all modules, which lie in RAM and share no word.
    pub areas: Vec<Area>,
    /// The gates in the order in which they are judged, at most 256.
    pub gates: Vec<Gate>,
    /// The address at which each hart begins.
    pub starts: Vec<u32>,
}

/// The number of words of RAM.
pub(crate) fn ram_words(plan: &Plan) -> u32
    ensures { result ≡ ram_words plan.now }
{
    256 * plan.ram_kib()
}

/// Lays out a plan with the files of its modules, as `lay_out` does.
pub(crate) fn lay_out_files(
    alloc: Global,
    plan: &Plan,
    images: &Images,
) -> Result<Layout, LayoutRefused>
    ensures { IsLaid plan.now images.now result }
{
    if let Some(fault) = images_fault(plan, images) {
        return Err(LayoutRefused::Fault(fault));
    }
    let Ok(areas) = areas(alloc, plan, images) else {
        return Err(LayoutRefused::NoMemory);
    };
    if let Some(fault) = areas_fault(ram_words(plan), areas.as_slice()) {
        return Err(LayoutRefused::Fault(fault));
    }
    let mut gates = Vec::new(alloc);
    if let Err(refused) = ask_gates(alloc, areas.as_slice(), &mut gates, plan, images) {
        return Err(refused);
    }
    let mut starts = Vec::new(alloc);
    match add_starts(areas.as_slice(), &mut starts, plan, images) {
        Ok(()) => Ok(Layout {
            areas,
            gates,
            starts,
        }),
        Err(refused) => Err(refused),
    }
}

/// Lays out a plan with its images, one for each module; that of an inline module is empty. The layout comes exactly
/// where
/// the plan has none of the faults 10 to 17, and a fault is the first one in the order of the tests; only `NoMemory`
/// has no
/// cause in them.
pub fn lay_out(alloc: Global, plan: &Plan, images: &[Blob]) -> Result<Layout, LayoutRefused>
    ensures { IsLaid plan.now images.now result }
{
    let Ok(files) = Images::read(alloc, images) else {
        return Err(LayoutRefused::NoMemory);
    };
    lay_out_files(alloc, plan, &files)
}
