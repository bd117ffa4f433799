//! Where harts begin, and step 8 of the tests: faults 14 and 15 of harts.

ghost use Rattle.std.specs.Prelude.{◌≡◌};
ghost use Rattle.mx_boot.specs.Areas.{areas};
ghost use Rattle.mx_boot.specs.Entries.{default_entry, start_address};
ghost use Rattle.mx_boot.specs.Laid.{AreStarted, IsStarted};
ghost use Rattle.mx_boot.specs.Seen.{seen};

use crate::area::Area;
use crate::entries::{entry_address, entry_fault};
use crate::home::{Home, home_at};
use crate::images::Images;
use crate::refused::{LayoutRefused, at_hart};
use mx_manifest::{EntryPlan, HartPlan, Plan};

/// Where a hart begins in a module if the manifest doesn't say it.
fn default_entry(home: Home) -> u32
    ensures { result ≡ default_entry (seen home.entry) }
{
    if home.plan.image.is_none() {
        return home.plan.at.unwrap_or(0);
    }
    match home.file.image() {
        Ok(image) => image.entry,
        Err(_) => 0,
    }
}

/// The address at which a hart begins in a module; None where the image has no such symbol.
fn start_address(home: Home, entry: &Option<EntryPlan>) -> Option<u32>
    ensures { result ≡ start_address (seen home.entry) entry.now }
{
    match entry {
        Some(entry) => entry_address(home.file, entry),
        None => Some(default_entry(home)),
    }
}

/// Adds the first pc of a hart, whose number counts from 1.
fn add_start(
    all: &[Area],
    starts: &mut Vec<u32>,
    home: Home,
    number: u32,
    hart: &HartPlan,
) -> Result<(), LayoutRefused>
    ensures { let address = start_address (seen home.entry) hart.now.entry in
        IsStarted all.now number hart.now.module address starts.old.items starts.new.items result }
{
    let address = start_address(home, &hart.entry);
    if let Some(fault) = entry_fault(all, at_hart(number), hart.module, address) {
        return Err(LayoutRefused::Fault(fault));
    }
    match starts.push(address.unwrap_or(0)) {
        Ok(()) => Ok(()),
        Err(_) => Err(LayoutRefused::NoMemory),
    }
}

/// Adds the first pc of each hart, or tells the first of the harts' faults.
pub(crate) fn add_starts(
    all: &[Area],
    starts: &mut Vec<u32>,
    plan: &Plan,
    images: &Images,
) -> Result<(), LayoutRefused>
    requires { all.now ≡ areas plan.now images.now }
    ensures { AreStarted plan.now images.now starts.old.items starts.new.items result }
{
    'harts: for h in 0..plan.harts() {
        let hart = plan.hart(h);
        let home = home_at(plan, images, hart.module - 1);
        match add_start(all, starts, home, h + 1, hart) {
            Ok(()) => {}
            Err(refused) => return Err(refused),
        }
    }
    Ok(())
}
