//! Both ends of each range, and the defaults.

use super::{HART, MODULE, ONE, TWO, judge, refusal_of};
use crate::checks::same;
use mx_manifest::{BootFault, Key, ManifestFault, Part, Place, Plan};
use mx_words::Kind;
use std::alloc::{AllocError, Global};

/// First lines of manifests that are accepted, and the number that a key then has.
static TOPS: [(&str, Key, u32); 27] = [
    ("version = 1\nram_kib = 64\n", Key::Version, 1),
    ("version = 2\nram_kib = 64\n", Key::Version, 2),
    ("version = 1\nram_kib = 64\n", Key::RamKib, 64),
    ("version = 1\nram_kib = 16384\n", Key::RamKib, 16384),
    ("version = 2\nram_kib = 65536\n", Key::RamKib, 65536),
    ("version = 1\nram_kib = 64\n", Key::Upper, 128),
    ("version = 1\nram_kib = 64\nupper = 0\n", Key::Upper, 0),
    (
        "version = 1\nram_kib = 64\nupper = 1024\n",
        Key::Upper,
        1024,
    ),
    (
        "version = 2\nram_kib = 64\nupper = 4096\n",
        Key::Upper,
        4096,
    ),
    ("version = 1\nram_kib = 64\n", Key::Leaf, 4096),
    ("version = 1\nram_kib = 64\nleaf = 0\n", Key::Leaf, 0),
    (
        "version = 1\nram_kib = 64\nleaf = 65536\n",
        Key::Leaf,
        65536,
    ),
    (
        "version = 2\nram_kib = 64\nleaf = 262144\n",
        Key::Leaf,
        262144,
    ),
    ("version = 1\nram_kib = 64\n", Key::Spill, 4096),
    ("version = 1\nram_kib = 64\nspill = 0\n", Key::Spill, 0),
    (
        "version = 1\nram_kib = 64\nspill = 262144\n",
        Key::Spill,
        262144,
    ),
    (
        "version = 2\nram_kib = 64\nspill = 1048576\n",
        Key::Spill,
        1048576,
    ),
    ("version = 1\nram_kib = 64\n", Key::Lookaside, 32),
    (
        "version = 1\nram_kib = 64\nlookaside = 8\n",
        Key::Lookaside,
        8,
    ),
    (
        "version = 1\nram_kib = 64\nlookaside = 32\n",
        Key::Lookaside,
        32,
    ),
    (
        "version = 1\nram_kib = 64\nlookaside = 64\n",
        Key::Lookaside,
        64,
    ),
    ("version = 1\nram_kib = 64\n", Key::Quantum, 1),
    ("version = 1\nram_kib = 64\nquantum = 1\n", Key::Quantum, 1),
    (
        "version = 1\nram_kib = 64\nquantum = 1000000\n",
        Key::Quantum,
        1000000,
    ),
    ("version = 1\nram_kib = 64\n", Key::Module, 1),
    ("version = 1\nram_kib = 64\n", Key::Hart, 1),
    ("version = 1\nram_kib = 68\n", Key::RamKib, 68),
];

/// The number that a plan has for a key of the top table.
fn number(plan: &Plan, key: Key) -> u32 {
    match key {
        Key::Version => plan.version(),
        Key::RamKib => plan.ram_kib(),
        Key::Upper => plan.upper(),
        Key::Leaf => plan.leaf(),
        Key::Spill => plan.spill(),
        Key::Lookaside => plan.lookaside(),
        Key::Quantum => plan.quantum(),
        Key::Module => plan.modules(),
        Key::Hart => plan.harts(),
        _ => 0,
    }
}

/// Kinds of tables by their names.
static KINDS: [(&str, Kind); 4] = [
    ("", Kind::Packed),
    ("tables = \"segments\"\n", Kind::Segments),
    ("tables = \"multilevel\"\n", Kind::Multilevel),
    ("tables = \"packed\"\n", Kind::Packed),
];

/// Lines of a module that is accepted after `[[module]]`.
static MODULES: [(&str, &str); 28] = [
    (ONE, "name = \"a\"\nimage = \"m\"\n"),
    (
        ONE,
        "name = \"abcdefghijklmnopqrstuvwxyz_01234\"\nimage = \"m-\"\n",
    ),
    (
        ONE,
        "name = \"56789\"\nat = 0\nperm = \"r\"\nwords = [0, 4294967295]\n",
    ),
    (
        ONE,
        "name = \"a\"\nat = 4294967292\nperm = \"rw\"\nwords = [1]\n",
    ),
    (ONE, "name = \"a\"\nimage = \"m\"\nwx = \"rw\"\n"),
    (ONE, "name = \"a\"\nimage = \"m\"\nwx = \"rx\"\n"),
    (
        ONE,
        "name = \"a\"\nimage = \"m\"\nheap = 0\nheap_words = 1\n",
    ),
    (
        ONE,
        "name = \"a\"\nimage = \"m\"\nheap = 4294967292\nheap_words = 4194304\n",
    ),
    (
        TWO,
        "name = \"a\"\nimage = \"m\"\nheap = 4\nheap_words = 16777216\n",
    ),
    (
        ONE,
        "name = \"a\"\nimage = \"m\"\nstack = 0\nstack_words = 1\n",
    ),
    (
        ONE,
        "name = \"a\"\nimage = \"m\"\nstack = 4294967292\nstack_words = 1048576\n",
    ),
    (
        TWO,
        "name = \"a\"\nimage = \"m\"\nstack = 8\nstack_words = 1048576\n",
    ),
    (ONE, "name = \"a\"\nimage = \"m\"\ngates = []\n"),
    (
        ONE,
        "name = \"a\"\nimage = \"m\"\ngates = [{ entry = 0, from = [\"m\"] }]\n",
    ),
    (
        ONE,
        "name = \"a\"\nimage = \"m\"\ngates = [{ entry = 4294967295, from = [\"m\", \"m\"] }]\n",
    ),
    (
        ONE,
        "name = \"a\"\nimage = \"m\"\ngates = [{ entry = \"e\", from = [\"m\"] }]\n",
    ),
    (ONE, "name = \"a\"\nimage = \"m\"\nreturns = []\n"),
    (
        ONE,
        "name = \"a\"\nimage = \"m\"\nreturns = [0, 4294967295, \"e\"]\n",
    ),
    (TWO, "name = \"a\"\nimage = \"m\"\non_fault = \"return\"\n"),
    (TWO, "name = \"a\"\nimage = \"m\"\non_fault = \"kill\"\n"),
    (TWO, "name = \"a\"\nimage = \"m\"\nseal = true\n"),
    (TWO, "name = \"a\"\nimage = \"m\"\nseal = false\n"),
    (TWO, "name = \"a\"\nimage = \"m\"\n"),
    (
        TWO,
        "name = \"_\"\nimage = \"m\"\nseal = false\non_fault = \"kill\"\n",
    ),
    (
        TWO,
        "name = \"a\"\nimage = \"m\"\ninput = \"i\"\ninput_at = 0\ninput_words = 1\n",
    ),
    (
        TWO,
        "name = \"a\"\nimage = \"m\"\ninput = \"i\"\ninput_at = 4294967292\ninput_words = 16777216\n",
    ),
    (
        TWO,
        "name = \"a\"\nimage = \"m\"\ninput = \"i\"\ninput_at = 4\ninput_words = 2\ninput_perm = \"r\"\n",
    ),
    (
        TWO,
        "name = \"a\"\nimage = \"m\"\ninput = \"i\"\ninput_at = 4\ninput_words = 2\ninput_perm = \"rw\"\n",
    ),
];

/// The number that a key has in a manifest of these first lines.
fn number_of(alloc: Global, top: &str, key: Key) -> Option<u32> {
    match judge(alloc, &[top, MODULE, HART]) {
        Ok(plan) => Some(number(&plan, key)),
        Err(_) => None,
    }
}

#[test]
fn accepts_both_ends_of_each_range(rt: HostRuntime) {
    for (top, key, value) in &TOPS {
        let number = number_of(rt.alloc(), top, *key);
        same(&rt, top, number, Some(*value));
    }
}

/// The kind of tables in a manifest with this first line besides.
fn kind_of(alloc: Global, line: &str) -> Option<Kind> {
    match judge(alloc, &[ONE, line, MODULE, HART]) {
        Ok(plan) => Some(plan.tables()),
        Err(_) => None,
    }
}

#[test]
fn accepts_each_kind_of_tables(rt: HostRuntime) {
    for (line, kind) in &KINDS {
        let tables = kind_of(rt.alloc(), line);
        same(&rt, line, tables, Some(*kind));
    }
}

#[test]
fn accepts_both_ends_of_each_range_of_a_module(rt: HostRuntime) {
    for (top, lines) in &MODULES {
        let refusal = refusal_of(rt.alloc(), &[top, MODULE, "[[module]]\n", lines, HART]);
        same(&rt, lines, refusal, None);
    }
}

/// The fault of a number beyond its range, or of more than there can be.
fn beyond(part: Part, index: u32, key: Key) -> ManifestFault {
    ManifestFault::Fault(BootFault {
        number: 5,
        place: Place { part, index, key },
        detail: 0,
    })
}

/// So many modules.
fn many_modules(alloc: Global, count: u32) -> Result<String, AllocError> {
    let mut text = String::new(alloc);
    for i in 0..count {
        write!(text, "[[module]]\nname = \"m{i}\"\nimage = \"m\"\n")?;
    }
    Ok(text)
}

/// How many modules a manifest has with so many beside the first, or why it is refused.
fn modules_with(alloc: Global, top: &str, count: u32) -> Result<u32, ManifestFault> {
    let Ok(modules) = many_modules(alloc, count) else {
        return Err(ManifestFault::NoMemory);
    };
    match judge(alloc, &[top, MODULE, modules.as_str(), HART]) {
        Ok(plan) => Ok(plan.modules()),
        Err(fault) => Err(fault),
    }
}

/// Modules in which an item stands so often as is asked for: two texts before it, the item, and what stands after.
type Modules = [&'static str; 4];

/// Why a manifest of such modules is refused.
fn refusal_of_many(
    alloc: Global,
    top: &'static str,
    modules: &Modules,
    count: usize,
) -> Option<ManifestFault> {
    let [first, before, item, after] = *modules;
    match item.repeat(alloc, count) {
        Ok(items) => refusal_of(alloc, &[top, first, before, items.as_str(), after, HART]),
        Err(_) => Some(ManifestFault::NoMemory),
    }
}

/// First lines, modules, how often the item can stand in them, and the module and the key that are told where there is
/// one more.
type Limit = (&'static str, Modules, usize, u32, Key);

/// The modules from which a gate is called.
const FROM: Modules = [
    MODULE,
    "[[module]]\nname = \"z\"\nimage = \"z\"\n[[module.gates]]\nentry = 0\nfrom = [",
    "\"m\", ",
    "]\n",
];

const GATES: Modules = [
    MODULE,
    "[[module]]\nname = \"z\"\nimage = \"z\"\ngates = [",
    "{ entry = 0, from = [\"m\"] }, ",
    "]\n",
];

const RETURNS: Modules = [
    MODULE,
    "[[module]]\nname = \"z\"\nimage = \"z\"\nreturns = [",
    "0, ",
    "]\n",
];

/// The words of an inline module.
const WORDS: Modules = [
    "",
    "[[module]]\nname = \"m\"\nat = 0\nperm = \"r\"\nwords = [",
    "1, ",
    "]\n",
];

static LISTS: [Limit; 5] = [
    (ONE, FROM, 15, 2, Key::Gates),
    (TWO, FROM, 63, 2, Key::Gates),
    (ONE, GATES, 256, 2, Key::Gates),
    (ONE, RETURNS, 256, 2, Key::Returns),
    (ONE, WORDS, 65536, 1, Key::Words),
];

/// The letters of a file's name.
const FILE: Modules = ["", "[[module]]\nname = \"m\"\nimage = \"", "a", "\"\n"];

/// The letters of a symbol's name.
const SYMBOL: Modules = [
    MODULE,
    "[[module]]\nname = \"z\"\nimage = \"z\"\nreturns = [\"",
    "a",
    "\"]\n",
];

static NAMES: [Limit; 2] = [
    (ONE, FILE, 255, 1, Key::Image),
    (ONE, SYMBOL, 255, 2, Key::Returns),
];

/// Why a manifest is refused with as many as there can be, and with one more; and what the latter has to be.
fn ends(alloc: Global, limit: &Limit) -> ([Option<ManifestFault>; 2], ManifestFault) {
    let (top, modules, most, index, key) = *limit;
    let refusals = [
        refusal_of_many(alloc, top, &modules, most),
        refusal_of_many(alloc, top, &modules, most.saturating_add(1)),
    ];
    (refusals, beyond(Part::Module, index, key))
}

#[test]
fn counts_up_to_each_limit(rt: HostRuntime) {
    let alloc = rt.alloc();
    for (top, most) in [(ONE, 15), (TWO, 63)] {
        let counts = [
            modules_with(alloc, top, most - 1),
            modules_with(alloc, top, most),
        ];
        let more = beyond(Part::Manifest, 0, Key::Module);
        same(&rt, top, counts, [Ok(most), Err(more)]);
    }
    for limit in &LISTS {
        let (refusals, more) = ends(alloc, limit);
        same(&rt, "as many, and one more", refusals, [None, Some(more)]);
    }
}

#[test]
fn measures_names_of_files_and_symbols(rt: HostRuntime) {
    for limit in &NAMES {
        let (refusals, more) = ends(rt.alloc(), limit);
        same(&rt, "as many, and one more", refusals, [None, Some(more)]);
    }
}
