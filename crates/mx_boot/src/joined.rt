//! The parts of the machine at boot, joined.

ghost use Rattle.std.specs.Prelude.{◌≡◌, ◌≤◌, None, Ok, length, IfOk, IfErr};
ghost use Rattle.mx_words.specs.Limits.{most_gates};
ghost use Rattle.mx_model.specs.Gates.{AreSingle};
ghost use Rattle.mx_supervisor.specs.Parts.{parts_of};
ghost use Rattle.mx_boot.specs.Boot.{boot_of, boot_state};
ghost use Rattle.mx_boot.specs.Booted.{IsRefusedBy};
ghost use Rattle.mx_boot.specs.Inputs.{AreInputs};
ghost use Rattle.mx_boot.specs.Joined.{boot_parts};
ghost use Rattle.mx_boot.specs.Laid.{IsLayout};

use crate::heaps::heaps;
use crate::images::Images;
use crate::layout::Layout;
use crate::owners::owners;
use crate::ram::ram;
use crate::refused::BootRefused;
use crate::tables::tables;
use mx_check::Checker;
use mx_gates::Gates;
use mx_manifest::{Plan, plan_is_in_range};
use mx_model::Gate;
use mx_supervisor::Supervisor;
use mx_table::PermTables;
use mx_words::Blob;
use std::alloc::Global;

/// Gates of which no two have one domain and word.
fn gates(all: &[Gate]) -> Gates
    requires single { AreSingle all.now }
    requires few { length all.now ≤ most_gates }
    ensures { result ≡ all.now }
{
    let mut gates = Gates::new();
    'gates: for gate in all {
        match gates.add(*gate) {
            Ok(()) => {}
            Err(_) => unreachable!(),
        }
    }
    gates
}

/// The parts of the machine of a plan without a fault; or what its tables need, where that exceeds the limit.
pub(crate) fn join<T: PermTables, const N: usize>(
    alloc: Global,
    plan: &Plan,
    images: &Images,
    inputs: &[Blob],
    layout: &Layout,
) -> Result<Supervisor<T, N>, BootRefused>
    requires layout { IsLayout plan.now images.now layout.now }
    requires kind { T.kind ≡ plan.now.tables }
    requires buffer { N ≡ plan.now.lookaside }
    requires inputs { AreInputs plan.now inputs.now }
    ensures boot { IfOk result (λ s. boot_of plan.now images.now inputs.now
        ≡ Ok (boot_state plan.now images.now inputs.now)) }
    ensures parts { IfOk result
        (λ s. parts_of T.PermTables s ≡ boot_parts plan.now images.now inputs.now) }
    ensures refused { IfErr result (IsRefusedBy (boot_of plan.now images.now inputs.now)) }
{
    plan_is_in_range(plan);
    let Ok(ram) = ram(alloc, plan, images, inputs) else {
        return Err(BootRefused::NoMemory);
    };
    let Ok(owners) = owners(alloc, plan, images) else {
        return Err(BootRefused::NoMemory);
    };
    let Ok(heaps) = heaps(alloc, plan, images) else {
        return Err(BootRefused::NoMemory);
    };
    let gates = gates(layout.gates.as_slice());
    match tables(alloc, plan, images) {
        Ok(tables) => {
            let checker = Checker::new(tables, plan.harts());
            Ok(Supervisor::new(checker, ram, owners, gates, heaps))
        }
        Err(refused) => Err(refused),
    }
}
