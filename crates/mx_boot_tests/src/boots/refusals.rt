//! Why plans boot no machine.

use super::{IN_M, THREE, booted};
use crate::layouts::{File, manifest};
use mx_boot::BootRefused;
use mx_manifest::{BootFault, Key, Part, Place};
use mx_words::Need;
use std::alloc::Global;
use std::test::Fail;

/// Why a text boots no machine; None where it boots one.
fn refusal(alloc: Global, text: &str, images: &[File]) -> Option<BootRefused> {
    match booted(alloc, text, images) {
        Ok(machine) => {
            machine.end();
            None
        }
        Err(refused) => Some(refused),
    }
}

#[test]
fn tables_of_one_leaf_frame_too_few_are_full(rt: HostRuntime) -> Result<(), Fail> {
    for tables in ["", "tables = \"packed\"\n", "tables = \"multilevel\"\n"] {
        let modules = format!(in rt.alloc(); "leaf = 0\n{tables}{THREE}")?;
        let text = manifest(rt.alloc(), modules.as_str(), IN_M)?;
        let need = Need {
            upper: 2,
            leaf: 1,
            spill: 0,
        };
        let limit = Need {
            upper: 128,
            leaf: 0,
            spill: 4096,
        };
        let answer = refusal(rt.alloc(), text.as_str(), &[File::None]);
        assert_eq!(rt;
            answer,
            Some(BootRefused::TablesFull { need, limit }),
            "{tables}"
        );
    }
    Ok(())
}

/// A file that is none, one with a segment that may be written and executed, and two modules at one address; and full
/// tables with a
/// fault besides, which comes first.
const REFUSED: [(&str, File, File, u32, u32, Key, u32); 4] = [
    (
        "[[module]]\nname = \"a\"\nimage = \"a.elf\"\n",
        File::Headers,
        File::None,
        10,
        1,
        Key::Image,
        6,
    ),
    (
        "[[module]]\nname = \"a\"\nimage = \"a.elf\"\n",
        File::Changed(76, 7),
        File::None,
        11,
        1,
        Key::Image,
        0,
    ),
    (
        "[[module]]\nname = \"a\"\nat = 0x80000000\nperm = \"rx\"\nwords = [19]\n[[module]]\nname = \"b\"\nat = 0x80000000\nperm = \"rx\"\nwords = [19]\n",
        File::None,
        File::None,
        13,
        2,
        Key::At,
        1,
    ),
    (
        "leaf = 0\n[[module]]\nname = \"a\"\nat = 0x80000000\nperm = \"rx\"\nwords = [19]\nreturns = [0x80000004]\n",
        File::None,
        File::None,
        15,
        1,
        Key::Returns,
        0,
    ),
];

#[test]
fn refused_boots_tell_their_first_fault(rt: HostRuntime) -> Result<(), Fail> {
    for (modules, first, second, number, index, key, detail) in REFUSED {
        let text = manifest(rt.alloc(), modules, "[[hart]]\nmodule = \"a\"\n")?;
        let answer = refusal(rt.alloc(), text.as_str(), &[first, second]);
        let fault = BootFault {
            number,
            place: Place {
                part: Part::Module,
                index,
                key,
            },
            detail,
        };
        assert_eq!(rt; answer, Some(BootRefused::Fault(fault)));
    }
    Ok(())
}
