//! The plan: the manifest is printed, and its text is read as a run reads the text of a file.

ghost use Rattle.std.specs.Prelude.{◌≡◌, string_bytes, IfOk, Some};
ghost use Rattle.toml.specs.Parse.{parse_document};
ghost use Rattle.mx_mill.specs.Plan.{mill_plan};
ghost use Rattle.mx_mill.specs.Table.{mill_table};

use crate::table::mill_table;
use mx_manifest::{ManifestFault, Plan};
use mx_plan::read_plan;
use mx_words::NoMemory;
use std::alloc::Global;
use toml::ser::Error;

/// The text of the manifest for a number: a document that says just the manifest's table.
pub fn mill_manifest(alloc: Global, k: u32) -> Result<String, NoMemory>
    ensures { IfOk result (λ text. parse_document (string_bytes text) ≡ Some (mill_table k)) }
{
    let table = mill_table(alloc, k)?;
    match toml::table_to_string(alloc, &table) {
        Ok(text) => Ok(text),
        Err(Error::OutOfMemory) => Err(NoMemory),
        // None of its values is a date that no text can write.
        Err(Error::DateInvalid) => unreachable!(),
    }
}

/// The plan of the manifest for a number, which has no fault.
pub(crate) fn plan_of_mill(alloc: Global, k: u32) -> Result<Plan, NoMemory>
    ensures { IfOk result (λ plan. plan ≡ mill_plan k) }
{
    let text = mill_manifest(alloc, k)?;
    match read_plan(alloc, text.as_str().as_bytes()) {
        Ok(plan) => Ok(plan),
        Err(ManifestFault::NoMemory) => Err(NoMemory),
        Err(ManifestFault::Fault(_)) => unreachable!(),
    }
}
