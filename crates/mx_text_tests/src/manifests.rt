//! What the reader answers, over texts of manifests.

use mx_manifest::{ManifestFault, Plan, read_manifest};
use std::alloc::Global;

mod faults;
mod kept;
mod ranges;
mod told;

/// The first lines of a manifest, and one module and one hart that are accepted.
pub(crate) const ONE: &str = "version = 1\nram_kib = 64\n";

pub(crate) const TWO: &str = "version = 2\nram_kib = 64\n";

pub(crate) const MODULE: &str =
    "[[module]]\nname = \"m\"\nat = 0x80000000\nperm = \"rx\"\nwords = [19]\n";

pub(crate) const HART: &str = "[[hart]]\nmodule = \"m\"\n";

/// What the text of a manifest gives; `NoMemory` also where it is no TOML.
fn judge_text(alloc: Global, text: &str) -> Result<Plan, ManifestFault> {
    match toml::table_from_str(alloc, text) {
        Ok(table) => read_manifest(alloc, &table),
        Err(_) => Err(ManifestFault::NoMemory),
    }
}

/// What a manifest of these parts gives.
pub(crate) fn judge(alloc: Global, parts: &[&str]) -> Result<Plan, ManifestFault> {
    match parts.concat(alloc) {
        Ok(text) => judge_text(alloc, text.as_str()),
        Err(_) => Err(ManifestFault::NoMemory),
    }
}

/// Why a manifest of these parts is refused.
pub(crate) fn refusal_of(alloc: Global, parts: &[&str]) -> Option<ManifestFault> {
    judge(alloc, parts).err()
}
