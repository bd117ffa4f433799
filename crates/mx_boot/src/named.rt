//! The symbols by which a module's gates are named, looked up together.

ghost use Rattle.std.specs.Prelude.{IfOk};
ghost use Rattle.mx_elf.specs.Known.{HoldsIn};
ghost use Rattle.mx_boot.specs.Seen.{seen};

use crate::home::Home;
use mx_elf::Symbols;
use mx_manifest::{EntryPlan, ModulePlan};
use mx_words::NoMemory;
use std::alloc::Global;

/// How many names are searched for one by one: a walk over the symbols for all names together costs up to that many
/// searches.
const FEW_NAMES: usize = 16;

/// Adds the name of an entry that is a symbol. Which names are looked up together decides nothing but the time.
fn add_name<'a>(names: &mut Vec<&'a str>, entry: &'a EntryPlan) -> Result<(), NoMemory> {
    if let EntryPlan::Symbol(name) = entry {
        names.push(name.as_str())?;
    }
    Ok(())
}

/// Adds the names of a module's call gates.
fn add_calls<'a>(names: &mut Vec<&'a str>, plan: &'a ModulePlan) -> Result<(), NoMemory> {
    for k in 0..plan.gates.len() {
        add_name(names, &plan.gates.get(k).entry)?;
    }
    Ok(())
}

/// Adds the names of a module's return gates.
fn add_returns<'a>(names: &mut Vec<&'a str>, plan: &'a ModulePlan) -> Result<(), NoMemory> {
    for k in 0..plan.returns.len() {
        add_name(names, plan.returns.get(k))?;
    }
    Ok(())
}

/// The symbols by which a module's gates are named: of its image, in one walk over that, where there are more than a
/// few.
pub(crate) fn gate_symbols<'a>(
    alloc: Global,
    home: Home<'a, '_, '_>,
) -> Result<Symbols<'a>, NoMemory>
    ensures { IfOk result (HoldsIn (seen home.entry).bytes) }
{
    let mut names = Vec::new(alloc);
    add_calls(&mut names, home.plan)?;
    add_returns(&mut names, home.plan)?;
    if names.len() <= FEW_NAMES {
        return Ok(Symbols::none(alloc));
    }
    Symbols::find(alloc, home.file.bytes(), names.as_slice())
}
