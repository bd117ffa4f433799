//! Entries: symbols and addresses, and their faults 14 and 15.

ghost use Rattle.std.specs.Prelude.{◌≡◌};
ghost use Rattle.std.specs.List.{list_any};
ghost use Rattle.mx_words.specs.FirstRow.{first_row};
ghost use Rattle.mx_elf.specs.Known.{HoldsIn};
ghost use Rattle.mx_boot.specs.Entries.{entry_address, word_at};
ghost use Rattle.mx_boot.specs.Faults.{entry_rows, holds_entry, is_entry};

use crate::area::Area;
use crate::images::ModuleFile;
use crate::refused::fault;
use mx_elf::{Symbols, symbol};
use mx_manifest::{BootFault, EntryPlan, Place};
use mx_words::RAM_BASE;

/// The address that an entry means in a module with this file; None where the image has no such symbol.
pub(crate) fn entry_address(file: &ModuleFile, entry: &EntryPlan) -> Option<u32>
    ensures { result ≡ entry_address file.now entry.now }
{
    match entry {
        EntryPlan::Symbol(name) => symbol(file.bytes(), name.as_str()),
        EntryPlan::Address(address) => Some(*address),
    }
}

/// The same, by symbols of the image that may be known already.
pub(crate) fn known_address(file: &ModuleFile, symbols: &Symbols, entry: &EntryPlan) -> Option<u32>
    requires { HoldsIn file.now symbols.now }
    ensures { result ≡ entry_address file.now entry.now }
{
    match entry {
        EntryPlan::Symbol(name) => symbols.value(file.bytes(), name.as_str()),
        EntryPlan::Address(address) => Some(*address),
    }
}

/// The word of RAM that holds an address.
pub(crate) fn word_at(address: u32) -> u32
    ensures { result ≡ word_at address }
{
    address.saturating_sub(RAM_BASE) / 4
}

/// Whether an address is in an area, and that is the module's.
fn holds_entry(domain: u32, address: u32, area: Area) -> bool
    ensures { result ≡ holds_entry domain address area }
{
    let first = area.address / 4;
    let word = address / 4;
    area.domain == domain && first <= word && word - first < area.count
}

/// Whether an address is in an area of the module.
fn is_held(areas: &[Area], domain: u32, address: u32) -> bool
    ensures { result ≡ list_any (holds_entry domain address) areas.now }
{
    areas.iter().any(|area| holds_entry(domain, address, *area))
}

/// Whether an address is aligned and in an area of the module.
fn is_entry(areas: &[Area], domain: u32, address: u32) -> bool
    ensures { result ≡ is_entry areas.now domain address }
{
    address % 4 == 0 && is_held(areas, domain, address)
}

/// Fault 14 or 15 of an entry.
pub(crate) fn entry_fault(
    areas: &[Area],
    place: Place,
    domain: u32,
    address: Option<u32>,
) -> Option<BootFault>
    ensures { result ≡ first_row (entry_rows areas.now place domain address) }
{
    let Some(address) = address else {
        return Some(fault(14, place, 0));
    };
    if !is_entry(areas, domain, address) {
        return Some(fault(15, place, 0));
    }
    None
}
