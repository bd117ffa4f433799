//! From the bytes of a manifest file to its plan.

ghost use Rattle.std.specs.Prelude.{◌≡◌, option_map, IfOk};
ghost use Rattle.toml.specs.View.{table_view};
ghost use Rattle.mx_plan.specs.Manifest.{file_fault, document, judged};
ghost use Rattle.mx_plan.specs.Judged.{IsJudged};

use mx_manifest::{BootFault, Key, ManifestFault, Part, Place, Plan, read_manifest};
use mx_words::NoMemory;
use std::alloc::Global;
use std::str::from_utf8;
use toml::Table;

/// A fault of the manifest file as a whole.
fn file_fault(number: u32) -> BootFault
    ensures { result ≡ file_fault number }
{
    BootFault {
        number,
        place: Place {
            part: Part::Manifest,
            index: 0,
            key: Key::NoKey,
        },
        detail: 0,
    }
}

/// What the bytes of a manifest file say, or their first fault: fault 1 exactly where they are no TOML document.
pub fn read_plan(alloc: Global, bytes: &[u8]) -> Result<Plan, ManifestFault>
    ensures { IsJudged (judged bytes.now) result }
{
    match read_document(alloc, bytes) {
        Ok(Some(top)) => read_manifest(alloc, &top),
        Ok(None) => Err(ManifestFault::Fault(file_fault(1))),
        Err(NoMemory) => Err(ManifestFault::NoMemory),
    }
}

/// The document that bytes spell, or nothing exactly where they spell none.
#[tactic(auto, using(crate::proofs::Documents::document_text, crate::proofs::Documents::document_none))]
fn read_document(alloc: Global, bytes: &[u8]) -> Result<Option<Table>, NoMemory>
    ensures { IfOk result (λ top. option_map table_view top ≡ document bytes.now) }
{
    let Ok(text) = from_utf8(bytes) else {
        return Ok(None);
    };
    match toml::table_from_str(alloc, text) {
        Ok(top) => Ok(Some(top)),
        Err(error) => {
            if error.is_memory() {
                Err(NoMemory)
            } else {
                Ok(None)
            }
        }
    }
}
