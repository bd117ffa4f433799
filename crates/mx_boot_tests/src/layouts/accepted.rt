//! Layouts of plans without a fault, and the limit of gates.

use super::{File, judge, manifest, refused};
use mx_boot::{Area, Layout};
use mx_manifest::{Key, Part};
use mx_model::Gate;
use mx_words::Perm;
use std::alloc::Global;
use std::test::Fail;

/// A module with an image, whose .data is writable and executable by one byte of the file, with a heap area, and a
/// stack area of three
/// words for each hart; and one with inline words right after the last word of .bss.
pub(crate) const MODULES: &str = "[[module]]
name = \"a\"
image = \"a.elf\"
wx = \"rx\"
heap = 0x80004000
heap_words = 8
stack = 0x80003000
stack_words = 3
gates = [{ entry = \"enter\", from = [\"b\"] }, { entry = \"limit\", from = [\"b\"] }]
returns = [\"leave\"]
[[module]]
name = \"b\"
at = 0x8000101C
perm = \"r\"
words = [19, 19]
gates = [{ entry = 0x80001020, from = [\"a\"] }]
returns = [0x80001020]
";

/// Four harts, of which two begin where the manifest says it.
pub(crate) const HARTS: &str = "[[hart]]
module = \"a\"
[[hart]]
module = \"a\"
entry = \"spin\"
[[hart]]
module = \"b\"
[[hart]]
module = \"a\"
entry = 0x80004000
";

/// An area of domain 1 or 2.
fn area(domain: u32, key: Key, address: u32, count: u32, perm: Perm) -> Area {
    Area {
        domain,
        key,
        address,
        count,
        perm,
    }
}

fn gate(domain: u32, word: u32, target: u32) -> Gate {
    Gate {
        domain,
        word,
        target,
    }
}

const STARTS: [u32; 4] = [0x8000_0000, 0x8000_0004, 0x8000_101C, 0x8000_4000];

/// Whether a layout has the expected areas.
fn has_areas(layout: &Layout) -> bool {
    layout.areas.as_slice()
        == [
            area(1, Key::Image, 0x8000_0000, 4, Perm::ExecuteRead),
            area(1, Key::Image, 0x8000_1000, 7, Perm::ExecuteRead),
            area(1, Key::Image, 0x8000_2000, 2, Perm::Read),
            area(1, Key::Heap, 0x8000_4000, 8, Perm::None),
            area(1, Key::Stack, 0x8000_3000, 12, Perm::ReadWrite),
            area(2, Key::At, 0x8000_101C, 2, Perm::Read),
        ]
        .as_slice()
}

/// Whether a layout has the expected gates.
fn has_gates(layout: &Layout) -> bool {
    layout.gates.as_slice()
        == [
            gate(2, 2, 1),
            gate(2, 1024, 1),
            gate(1, 3, 1),
            gate(1, 1032, 2),
            gate(2, 1032, 2),
        ]
        .as_slice()
}

#[test]
fn a_plan_without_a_fault_is_laid_out(rt: HostRuntime) -> Result<(), Fail> {
    let text = manifest(rt.alloc(), MODULES, HARTS)?;
    match judge(
        rt.alloc(),
        text.as_str(),
        &[File::Changed(108, 7), File::None],
    ) {
        Ok(layout) => {
            assert!(rt; has_areas(&layout));
            assert!(rt; has_gates(&layout));
            assert_eq!(rt; layout.starts.as_slice(), STARTS.as_slice());
        }
        Err(refused) => assert_eq!(rt; Some(refused), None),
    }
    Ok(())
}

/// A module of 256 words with return gates at the first so many of them.
fn returning(alloc: Global, name: &str, at: u32, count: u32) -> Result<String, Fail> {
    let mut text = format!(in alloc;
        "[[module]]\nname = \"{name}\"\nat = {at}\nperm = \"rx\"\nwords = [19"
    )?;
    for _ in 1..256 {
        text.push_str(", 19")?;
    }
    text.push_str("]\nreturns = [")?;
    for i in 0..count {
        let entry = format!(in alloc; "{}, ", u64::from(at) + 4 * u64::from(i))?;
        text.push_str(entry.as_str())?;
    }
    text.push_str("]\n")?;
    Ok(text)
}

#[test]
fn at_most_256_gates_stand(rt: HostRuntime) -> Result<(), Fail> {
    for (first, second, answer) in [
        (256, 0, None),
        (200, 56, None),
        (200, 57, refused(17, Part::Module, 2, Key::Returns, 0)),
    ] {
        let a = returning(rt.alloc(), "a", 0x8000_0000, first)?;
        let b = returning(rt.alloc(), "b", 0x8000_4000, second)?;
        let modules = format!(in rt.alloc(); "{}{}", a.as_str(), b.as_str())?;
        let text = manifest(rt.alloc(), modules.as_str(), "[[hart]]\nmodule = \"a\"\n")?;
        assert_eq!(rt;
            judge(rt.alloc(), text.as_str(), &[File::None, File::None]).err(),
            answer
        );
    }
    let a = returning(rt.alloc(), "a", 0x8000_0000, 256)?;
    let modules = format!(in rt.alloc();
        "{}[[module]]\nname = \"b\"\nat = 0x80004000\nperm = \"rx\"\nwords = [19]\ngates = [{{ entry = 0x80004000, from = [\"a\"] }}]\n",
        a.as_str()
    )?;
    let text = manifest(rt.alloc(), modules.as_str(), "[[hart]]\nmodule = \"a\"\n")?;
    let answer = judge(rt.alloc(), text.as_str(), &[File::None, File::None]).err();
    assert_eq!(rt; answer, refused(17, Part::Module, 2, Key::Gates, 0));
    Ok(())
}
