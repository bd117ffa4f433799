//! Reads a manifest's table: its plan, or its first fault.

ghost use Rattle.std.specs.Prelude.{◌≡◌, IfOk};
ghost use Rattle.mx_manifest.specs.InRange.{IsInRange};
ghost use Rattle.toml.specs.View.{table_view};
ghost use Rattle.mx_manifest.specs.Judged.{IsJudged};
ghost use Rattle.mx_manifest.specs.Faults.{version_of};
ghost use Rattle.mx_manifest.specs.Section.{section_view};

use crate::build::plan_of;
use crate::names::resolve_names;
use crate::row::Version;
use crate::section::Section;
use crate::tables::tables_fault;
use crate::{BootFault, Key, Plan};
use std::alloc::Global;
use thiserror::Error;
use toml::Table;

/// Why a manifest gives no plan.
#[derive(Clone, Copy, PartialEq, Eq, Debug, Drop, Error)]
pub enum ManifestFault {
    /// It has this first fault, of number 2 to 8.
    #[error("fault {} of the manifest", .0.number)]
    Fault(BootFault),
    /// An allocation was refused.
    #[error("no memory for the manifest's plan")]
    NoMemory,
}

/// The version by which a manifest is read: 2 where it says so, else 1.
fn version_of(top: Section) -> Version
    ensures { result ≡ version_of (section_view top.entry) }
{
    match top.number_at(Key::Version) {
        Some(2) => Version::Two,
        _ => Version::One,
    }
}

/// Reads the table of a manifest. The plan comes exactly where the table has none of the faults 2 to 8, and a fault
/// is the first one in the order of the tests; only `NoMemory` has no cause in the table.
pub fn read_manifest(alloc: Global, table: &Table) -> Result<Plan, ManifestFault>
    ensures judged { IsJudged (table_view table.now) result }
    ensures in_range { IfOk result IsInRange }
{
    let top = Section::Top(table);
    let version = version_of(top);
    if let Some(fault) = tables_fault(version, top) {
        return Err(ManifestFault::Fault(fault));
    }
    let names = resolve_names(alloc, top)?;
    match plan_of(alloc, version, &names, top) {
        Ok(plan) => Ok(plan),
        Err(_) => Err(ManifestFault::NoMemory),
    }
}
