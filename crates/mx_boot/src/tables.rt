//! The permission tables at boot.

ghost use Rattle.std.specs.Prelude.{◌≡◌, ℕ, List, None, Ok, IfOk, IfErr};
ghost use Rattle.mx_table.specs.Tables.{IsLimit};
ghost use Rattle.mx_boot.specs.Boot.{boot_of, boot_state, limit_of};
ghost use Rattle.mx_boot.specs.Booted.{IsRefusedBy};
ghost use Rattle.mx_boot.specs.Faults.{first_fault, ram_words};
ghost use Rattle.mx_boot.specs.Joined.{boot_maps};

use crate::granted::rows;
use crate::images::Images;
use crate::layout::ram_words;
use crate::refused::BootRefused;
use mx_manifest::{Plan, plan_is_in_range};
use mx_table::{BuildRefused, PermTables};
use mx_words::Need;
use std::alloc::Global;

/// The limit of a plan's tables.
fn limit(plan: &Plan) -> Need
    ensures limit { result ≡ limit_of plan.now }
    ensures most { IsLimit result }
{
    Need {
        upper: plan.upper(),
        leaf: plan.leaf(),
        spill: plan.spill(),
    }
}

/// The tables of a plan without a fault; or what they need, where that exceeds the plan's limit. Inputs decide nothing
/// here.
pub(crate) fn tables<T: PermTables>(
    alloc: Global,
    plan: &Plan,
    images: &Images,
) -> Result<T, BootRefused>
    requires clear { first_fault plan.now images.now ≡ None }
    requires kind { T.kind ≡ plan.now.tables }
    ensures boot { (inputs : List (List ℕ)) → IfOk result
        (λ t. boot_of plan.now images.now inputs ≡ Ok (boot_state plan.now images.now inputs)) }
    ensures maps { IfOk result (λ t. T.maps t ≡ boot_maps plan.now images.now) }
    ensures size { IfOk result (λ t. T.size t ≡ ram_words plan.now) }
    ensures limit { IfOk result (λ t. T.limits t ≡ limit_of plan.now) }
    ensures refused { (inputs : List (List ℕ)) →
        IfErr result (IsRefusedBy (boot_of plan.now images.now inputs)) }
{
    plan_is_in_range(plan);
    let Ok(rows) = rows(alloc, plan, images) else {
        return Err(BootRefused::NoMemory);
    };
    let limit = limit(plan);
    match T::build(alloc, ram_words(plan), rows.as_slice(), limit) {
        Ok(tables) => Ok(tables),
        Err(BuildRefused::TablesFull { need }) => Err(BootRefused::TablesFull { need, limit }),
        Err(BuildRefused::NoMemory) => Err(BootRefused::NoMemory),
    }
}
