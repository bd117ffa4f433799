//! Each fault, at each place where it can stand. A case is a line: the number of the fault, its place and its key,
//! and then lines of a manifest with semicolons between.

use super::{HART, MODULE, ONE, TWO, refusal_of};
use crate::checks::same;
use mx_manifest::{ManifestFault, Part, Place};
use mx_plan::read_plan;
use std::alloc::Global;
use std::fmt;
use std::fmt::InlineText;
use std::process::Abort;

/// First lines of a manifest.
const TOPS: &str = r#"2 manifest - | version = 1; ram_kib = 64; color = 1
3 manifest version | ram_kib = 64
4 manifest version | version = "1"; ram_kib = 64
5 manifest version | version = 0; ram_kib = 64
5 manifest version | version = 3; ram_kib = 64
3 manifest ram_kib | version = 1
4 manifest ram_kib | version = 1; ram_kib = true
5 manifest ram_kib | version = 1; ram_kib = 60
5 manifest ram_kib | version = 1; ram_kib = 66
5 manifest ram_kib | version = 1; ram_kib = 16388
5 manifest ram_kib | version = 2; ram_kib = 65540
5 manifest ram_kib | version = 1; ram_kib = -64
4 manifest tables | version = 1; ram_kib = 64; tables = 1
5 manifest tables | version = 1; ram_kib = 64; tables = "plain"
4 manifest upper | version = 1; ram_kib = 64; upper = "0"
5 manifest upper | version = 1; ram_kib = 64; upper = -1
5 manifest upper | version = 1; ram_kib = 64; upper = 1025
5 manifest upper | version = 2; ram_kib = 64; upper = 4097
4 manifest leaf | version = 1; ram_kib = 64; leaf = "0"
5 manifest leaf | version = 1; ram_kib = 64; leaf = -1
5 manifest leaf | version = 1; ram_kib = 64; leaf = 65537
5 manifest leaf | version = 2; ram_kib = 64; leaf = 262145
4 manifest spill | version = 1; ram_kib = 64; spill = "0"
5 manifest spill | version = 1; ram_kib = 64; spill = -1
5 manifest spill | version = 1; ram_kib = 64; spill = 262145
5 manifest spill | version = 2; ram_kib = 64; spill = 1048577
4 manifest lookaside | version = 1; ram_kib = 64; lookaside = "8"
5 manifest lookaside | version = 1; ram_kib = 64; lookaside = 16
5 manifest lookaside | version = 1; ram_kib = 64; lookaside = -8
4 manifest quantum | version = 1; ram_kib = 64; quantum = 1.0
5 manifest quantum | version = 1; ram_kib = 64; quantum = 0
5 manifest quantum | version = 1; ram_kib = 64; quantum = 1000001
"#;

/// Manifests without a module, without a hart, or with too many harts.
const BARE: &str = r#"3 manifest module | version = 1; ram_kib = 64; [[hart]]; module = "m"
4 manifest module | version = 1; ram_kib = 64; module = 1; [[hart]]; module = "m"
4 manifest module | version = 1; ram_kib = 64; module = [1]; [[hart]]; module = "m"
5 manifest module | version = 1; ram_kib = 64; module = []; [[hart]]; module = "m"
3 manifest hart | version = 1; ram_kib = 64; [[module]]; name = "m"; at = 0x80000000; perm = "rx"; words = [19]
4 manifest hart | version = 1; ram_kib = 64; hart = "m"; [[module]]; name = "m"; at = 0x80000000; perm = "rx"; words = [19]
4 manifest hart | version = 1; ram_kib = 64; hart = [[]]; [[module]]; name = "m"; at = 0x80000000; perm = "rx"; words = [19]
5 manifest hart | version = 1; ram_kib = 64; hart = []; [[module]]; name = "m"; at = 0x80000000; perm = "rx"; words = [19]
5 manifest hart | version = 1; ram_kib = 64; [[module]]; name = "m"; at = 0x80000000; perm = "rx"; words = [19]; [[hart]]; module = "m"; [[hart]]; module = "m"; [[hart]]; module = "m"; [[hart]]; module = "m"; [[hart]]; module = "m"
"#;

/// Lines of the one module in version 1.
const MODULES: &str =
    r#"2 module.1 - | name = "m"; at = 0x80000000; perm = "rx"; words = [19]; color = 1
2 module.1 - | name = "m"; at = 0x80000000; perm = "rx"; words = [19]; on_fault = "kill"
2 module.1 - | name = "m"; at = 0x80000000; perm = "rx"; words = [19]; seal = false
2 module.1 - | name = "m"; at = 0x80000000; perm = "rx"; words = [19]; input = "i"; input_at = 0; input_words = 1
2 module.1 - | name = "m"; at = 0x80000000; perm = "rx"; words = [19]; input_perm = "r"
3 module.1 name | at = 0x80000000; perm = "rx"; words = [19]
4 module.1 name | name = 1; at = 0x80000000; perm = "rx"; words = [19]
5 module.1 name | name = ""; at = 0x80000000; perm = "rx"; words = [19]
5 module.1 name | name = "aaaaaaaaaaaaaaaaaaaaaaaaaaaaaaaaa"; at = 0x80000000; perm = "rx"; words = [19]
5 module.1 name | name = "A"; at = 0x80000000; perm = "rx"; words = [19]
5 module.1 name | name = "a-b"; at = 0x80000000; perm = "rx"; words = [19]
3 module.1 image | name = "m"
4 module.1 image | name = "m"; image = 1
5 module.1 image | name = "m"; image = ""
5 module.1 image | name = "m"; image = "-x"
3 module.1 at | name = "m"; perm = "rx"; words = [19]
4 module.1 at | name = "m"; at = "a"; perm = "rx"; words = [19]
5 module.1 at | name = "m"; at = 2; perm = "rx"; words = [19]
5 module.1 at | name = "m"; at = 4294967296; perm = "rx"; words = [19]
5 module.1 at | name = "m"; at = -4; perm = "rx"; words = [19]
3 module.1 perm | name = "m"; at = 0x80000000; words = [19]
4 module.1 perm | name = "m"; at = 0x80000000; perm = 3; words = [19]
5 module.1 perm | name = "m"; at = 0x80000000; perm = "w"; words = [19]
5 module.1 perm | name = "m"; at = 0x80000000; perm = "x"; words = [19]
5 module.1 perm | name = "m"; at = 0x80000000; perm = ""; words = [19]
3 module.1 words | name = "m"; at = 0x80000000; perm = "rx"
4 module.1 words | name = "m"; at = 0x80000000; perm = "rx"; words = 19
4 module.1 words | name = "m"; at = 0x80000000; perm = "rx"; words = [-1, "a"]
5 module.1 words | name = "m"; at = 0x80000000; perm = "rx"; words = []
5 module.1 words | name = "m"; at = 0x80000000; perm = "rx"; words = [4294967296]
5 module.1 words | name = "m"; at = 0x80000000; perm = "rx"; words = [-1]
4 module.1 wx | name = "m"; image = "m.elf"; wx = 1
5 module.1 wx | name = "m"; image = "m.elf"; wx = "r"
3 module.1 heap | name = "m"; at = 0x80000000; perm = "rx"; words = [19]; heap_words = 1
4 module.1 heap | name = "m"; at = 0x80000000; perm = "rx"; words = [19]; heap = "a"; heap_words = 1
5 module.1 heap | name = "m"; at = 0x80000000; perm = "rx"; words = [19]; heap = 6; heap_words = 1
5 module.1 heap | name = "m"; at = 0x80000000; perm = "rx"; words = [19]; heap = 4294967296; heap_words = 1
3 module.1 heap_words | name = "m"; at = 0x80000000; perm = "rx"; words = [19]; heap = 0
4 module.1 heap_words | name = "m"; at = 0x80000000; perm = "rx"; words = [19]; heap = 0; heap_words = true
5 module.1 heap_words | name = "m"; at = 0x80000000; perm = "rx"; words = [19]; heap = 0; heap_words = 0
5 module.1 heap_words | name = "m"; at = 0x80000000; perm = "rx"; words = [19]; heap = 0; heap_words = 4194305
3 module.1 stack | name = "m"; at = 0x80000000; perm = "rx"; words = [19]; stack_words = 1
4 module.1 stack | name = "m"; at = 0x80000000; perm = "rx"; words = [19]; stack = "a"; stack_words = 1
5 module.1 stack | name = "m"; at = 0x80000000; perm = "rx"; words = [19]; stack = 6; stack_words = 1
5 module.1 stack | name = "m"; at = 0x80000000; perm = "rx"; words = [19]; stack = 4294967296; stack_words = 1
3 module.1 stack_words | name = "m"; at = 0x80000000; perm = "rx"; words = [19]; stack = 0
4 module.1 stack_words | name = "m"; at = 0x80000000; perm = "rx"; words = [19]; stack = 0; stack_words = true
5 module.1 stack_words | name = "m"; at = 0x80000000; perm = "rx"; words = [19]; stack = 0; stack_words = 0
5 module.1 stack_words | name = "m"; at = 0x80000000; perm = "rx"; words = [19]; stack = 0; stack_words = 1048577
4 module.1 gates | name = "m"; at = 0x80000000; perm = "rx"; words = [19]; gates = 1
4 module.1 gates | name = "m"; at = 0x80000000; perm = "rx"; words = [19]; gates = [1]
2 module.1 gates | name = "m"; at = 0x80000000; perm = "rx"; words = [19]; gates = [{ entry = 0, from = ["a"], x = 1 }]
3 module.1 gates | name = "m"; at = 0x80000000; perm = "rx"; words = [19]; gates = [{ from = ["a"] }]
4 module.1 gates | name = "m"; at = 0x80000000; perm = "rx"; words = [19]; gates = [{ entry = true, from = ["a"] }]
5 module.1 gates | name = "m"; at = 0x80000000; perm = "rx"; words = [19]; gates = [{ entry = "", from = ["a"] }]
5 module.1 gates | name = "m"; at = 0x80000000; perm = "rx"; words = [19]; gates = [{ entry = -1, from = ["a"] }]
5 module.1 gates | name = "m"; at = 0x80000000; perm = "rx"; words = [19]; gates = [{ entry = 4294967296, from = ["a"] }]
3 module.1 gates | name = "m"; at = 0x80000000; perm = "rx"; words = [19]; gates = [{ entry = 0 }]
4 module.1 gates | name = "m"; at = 0x80000000; perm = "rx"; words = [19]; gates = [{ entry = 0, from = "a" }]
4 module.1 gates | name = "m"; at = 0x80000000; perm = "rx"; words = [19]; gates = [{ entry = 0, from = [1] }]
5 module.1 gates | name = "m"; at = 0x80000000; perm = "rx"; words = [19]; gates = [{ entry = 0, from = [] }]
4 module.1 gates | name = "m"; at = 0x80000000; perm = "rx"; words = [19]; gates = [{ entry = true, from = ["m"] }, {}]
4 module.1 returns | name = "m"; at = 0x80000000; perm = "rx"; words = [19]; returns = 1
4 module.1 returns | name = "m"; at = 0x80000000; perm = "rx"; words = [19]; returns = [true]
5 module.1 returns | name = "m"; at = 0x80000000; perm = "rx"; words = [19]; returns = [""]
5 module.1 returns | name = "m"; at = 0x80000000; perm = "rx"; words = [19]; returns = [-1]
5 module.1 returns | name = "m"; at = 0x80000000; perm = "rx"; words = [19]; returns = [4294967296]
6 module.1 image | name = "m"; image = "m.elf"; at = 0x80000000
6 module.1 image | name = "m"; image = "m.elf"; perm = "rx"
6 module.1 image | name = "m"; image = "m.elf"; words = [19]
6 module.1 wx | name = "m"; at = 0x80000000; perm = "rx"; words = [19]; wx = "rw"
8 module.1 gates | name = "m"; at = 0x80000000; perm = "rx"; words = [19]; gates = [{ entry = 0, from = ["x"] }]
8 module.1 gates | name = "m"; at = 0x80000000; perm = "rx"; words = [19]; gates = [{ entry = 0, from = ["m"] }]
"#;

/// Lines of the one module in version 2.
const MODULES_OF_TWO: &str =
    r#"5 module.1 heap_words | name = "m"; at = 0x80000000; perm = "rx"; words = [19]; heap = 0; heap_words = 16777217
5 module.1 stack_words | name = "m"; at = 0x80000000; perm = "rx"; words = [19]; stack = 0; stack_words = 1048577
4 module.1 on_fault | name = "m"; at = 0x80000000; perm = "rx"; words = [19]; on_fault = 1
5 module.1 on_fault | name = "m"; at = 0x80000000; perm = "rx"; words = [19]; on_fault = "stop"
4 module.1 seal | name = "m"; at = 0x80000000; perm = "rx"; words = [19]; seal = 1
3 module.1 input | name = "m"; at = 0x80000000; perm = "rx"; words = [19]; input_at = 0; input_words = 1
3 module.1 input | name = "m"; at = 0x80000000; perm = "rx"; words = [19]; input_perm = "rw"
3 module.1 input | name = "m"; at = 0x80000000; perm = "rx"; words = [19]; input_words = 0
3 module.1 input_at | name = "m"; at = 0x80000000; perm = "rx"; words = [19]; input = "i"; input_words = 1
3 module.1 input_words | name = "m"; at = 0x80000000; perm = "rx"; words = [19]; input = "i"; input_at = 0
4 module.1 input | name = "m"; at = 0x80000000; perm = "rx"; words = [19]; input = 1; input_at = 0; input_words = 1
5 module.1 input | name = "m"; at = 0x80000000; perm = "rx"; words = [19]; input = ""; input_at = 0; input_words = 1
5 module.1 input | name = "m"; at = 0x80000000; perm = "rx"; words = [19]; input = "-i"; input_at = 2; input_words = 1
4 module.1 input_at | name = "m"; at = 0x80000000; perm = "rx"; words = [19]; input = "i"; input_at = "0"; input_words = 1
5 module.1 input_at | name = "m"; at = 0x80000000; perm = "rx"; words = [19]; input = "i"; input_at = 2; input_words = 0
5 module.1 input_at | name = "m"; at = 0x80000000; perm = "rx"; words = [19]; input = "i"; input_at = 4294967296; input_words = 1
4 module.1 input_words | name = "m"; at = 0x80000000; perm = "rx"; words = [19]; input = "i"; input_at = 0; input_words = true
5 module.1 input_words | name = "m"; at = 0x80000000; perm = "rx"; words = [19]; input = "i"; input_at = 0; input_words = 0
5 module.1 input_words | name = "m"; at = 0x80000000; perm = "rx"; words = [19]; input = "i"; input_at = 0; input_words = 16777217
4 module.1 input_perm | name = "m"; at = 0x80000000; perm = "rx"; words = [19]; input = "i"; input_at = 0; input_words = 1; input_perm = 1
5 module.1 input_perm | name = "m"; at = 0x80000000; perm = "rx"; words = [19]; input = "i"; input_at = 0; input_words = 1; input_perm = "rx"
5 module.1 input_perm | name = "m"; at = 0x80000000; perm = "rx"; words = [19]; input = "i"; input_at = 0; input_words = 1; input_perm = ""
6 module.1 image | name = "m"; image = "m"; at = 0x80000000; input = "i"; input_at = 0; input_words = 1
"#;

/// Lines of the one hart.
const HARTS: &str = r#"2 hart.1 - | module = "m"; color = 1
3 hart.1 module | 
4 hart.1 module | module = 1
4 hart.1 entry | module = "m"; entry = true
5 hart.1 entry | module = "m"; entry = ""
5 hart.1 entry | module = "m"; entry = -1
5 hart.1 entry | module = "m"; entry = 4294967296
8 hart.1 module | module = ""
8 hart.1 module | module = "n"
"#;

/// Manifests with two faults: the one that comes first.
const ORDERS: &str =
    r#"2 manifest - | color = 1; [[module]]; name = "m"; at = 0x80000000; perm = "rx"; words = [19]; [[hart]]; module = "m"
5 manifest version | version = 3; [[module]]; name = "m"; at = 0x80000000; perm = "rx"; words = [19]; [[hart]]; module = "m"
5 manifest ram_kib | version = 1; ram_kib = 2; tables = 1; [[module]]; name = "m"; at = 0x80000000; perm = "rx"; words = [19]; [[hart]]; module = "m"
3 manifest hart | version = 1; ram_kib = 64; [[module]]; color = 1
2 module.1 - | version = 1; ram_kib = 64; [[module]]; color = 1; [[hart]]; module = "m"
5 module.1 name | version = 1; ram_kib = 64; [[module]]; name = "A"; image = 1; [[hart]]; module = "m"
3 module.1 gates | version = 1; ram_kib = 64; [[module]]; name = "m"; at = 0x80000000; perm = "rx"; words = [19]; gates = [{}]; returns = 1; [[hart]]; module = "m"
3 module.1 gates | version = 1; ram_kib = 64; [[module]]; name = "m"; at = 0x80000000; perm = "rx"; words = [19]; gates = [{ entry = 0, from = ["m"] }, { entry = 0 }]; [[hart]]; module = "m"
4 module.1 returns | version = 1; ram_kib = 64; [[module]]; name = "m"; at = 0x80000000; perm = "rx"; words = [19]; image = "m.elf"; returns = 1; [[hart]]; module = "m"
6 module.1 image | version = 1; ram_kib = 64; [[module]]; name = "m"; at = 0x80000000; perm = "rx"; words = [19]; image = "m.elf"; wx = "rw"; [[hart]]; module = "m"
6 module.1 image | version = 1; ram_kib = 64; [[module]]; name = "m"; at = 0x80000000; perm = "rx"; words = [19]; image = "m.elf"; [[module]]; color = 1; [[hart]]; module = "m"
2 module.2 - | version = 1; ram_kib = 64; [[module]]; name = "m"; at = 0x80000000; perm = "rx"; words = [19]; [[module]]; color = 1; [[hart]]; color = 1
3 hart.2 module | version = 1; ram_kib = 64; [[module]]; name = "m"; at = 0x80000000; perm = "rx"; words = [19]; [[module]]; name = "m"; at = 0x80000000; perm = "rx"; words = [19]; [[hart]]; module = "m"; [[hart]]; entry = 1
7 module.3 name | version = 1; ram_kib = 64; [[module]]; name = "m"; at = 0x80000000; perm = "rx"; words = [19]; gates = [{ entry = 0, from = ["x"] }]; [[module]]; name = "k"; at = 0x80000100; perm = "r"; words = [1]; [[module]]; name = "k"; at = 0x80000100; perm = "r"; words = [1]; [[hart]]; module = "m"
7 module.2 name | version = 1; ram_kib = 64; [[module]]; name = "m"; at = 0x80000000; perm = "rx"; words = [19]; [[module]]; name = "m"; at = 0x80000000; perm = "rx"; words = [19]; [[hart]]; module = "x"
8 module.2 gates | version = 1; ram_kib = 64; [[module]]; name = "m"; at = 0x80000000; perm = "rx"; words = [19]; [[module]]; name = "k"; at = 0x80000100; perm = "r"; words = [1]; gates = [{ entry = 0, from = ["m", "k"] }]; [[hart]]; module = "x"
8 hart.3 module | version = 1; ram_kib = 64; [[module]]; name = "m"; at = 0x80000000; perm = "rx"; words = [19]; [[module]]; name = "k"; at = 0x80000100; perm = "r"; words = [1]; [[hart]]; module = "m"; [[hart]]; module = "k"; [[hart]]; module = "x"
"#;

/// What a manifest gives: why it is refused. It is shown as the cases write it.
#[derive(Clone, Copy)]
struct Answer(Option<ManifestFault>);

impl fmt::Display for Answer {
    fn fmt<W: fmt::Write>(&self, f: &mut fmt::Formatter<W>) -> fmt::Result {
        match self.0 {
            None => f.write_str("accepted"),
            Some(ManifestFault::NoMemory) => f.write_str("no table"),
            Some(ManifestFault::Fault(fault)) => show_fault(f, fault.number, fault.place),
        }
    }
}

fn show_part<W: fmt::Write>(f: &mut fmt::Formatter<W>, part: Part, index: u32) -> fmt::Result {
    match part {
        Part::Manifest => f.write_str("manifest"),
        Part::Module => write!(f, "module.{index}"),
        Part::Hart => write!(f, "hart.{index}"),
        Part::Schedule => f.write_str("schedule"),
    }
}

fn show_fault<W: fmt::Write>(f: &mut fmt::Formatter<W>, number: u32, place: Place) -> fmt::Result {
    write!(f, "{number} ")?;
    show_part(f, place.part, place.index)?;
    f.write_str(" ")?;
    f.write_str(place.key.name())
}

/// What cases have in common: the parts of a manifest before their lines, and those after them.
type Frame = ([&'static str; 3], [&'static str; 2]);

/// What the lines of a case give, one below the other, in a frame.
fn answer_to(alloc: Global, frame: &Frame, lines: &str) -> Answer {
    let ([first, second, third], [fourth, fifth]) = *frame;
    match lines.replace(alloc, ';', "\n") {
        Ok(text) => {
            let parts = [first, second, third, text.as_str(), "\n", fourth, fifth];
            Answer(refusal_of(alloc, &parts))
        }
        Err(_) => Answer(Some(ManifestFault::NoMemory)),
    }
}

/// Judges each case in a frame. No line without a mark between its two halves holds.
fn judge_cases(rt: &impl Abort, alloc: Global, frame: &Frame, cases: &str) {
    for case in cases.lines() {
        let (want, lines) = case.split_once('|').unwrap_or(("a mark", case));
        let got = InlineText::<64>::of(answer_to(alloc, frame, lines));
        same(rt, case, got.as_str(), want.trim());
    }
}

fn judge_groups(rt: &impl Abort, alloc: Global, groups: &[(Frame, &str)]) {
    for (frame, cases) in groups {
        judge_cases(rt, alloc, frame, cases);
    }
}

static GROUPS: [(Frame, &str); 6] = [
    ((["", "", ""], [MODULE, HART]), TOPS),
    ((["", "", ""], ["", ""]), BARE),
    (([ONE, "[[module]]\n", ""], [HART, ""]), MODULES),
    (([TWO, "[[module]]\n", ""], [HART, ""]), MODULES_OF_TWO),
    (([ONE, MODULE, "[[hart]]\n"], ["", ""]), HARTS),
    ((["", "", ""], ["", ""]), ORDERS),
];

#[test]
fn tells_each_fault_at_its_place(rt: HostRuntime) {
    judge_groups(&rt, rt.alloc(), &GROUPS);
}

/// Files that are no text, no TOML document, and empty, and what each gives.
static FILES: [(&[u8], &str); 3] = [
    (b"# \xFF\n", "1 manifest -"),
    (b"version =\n", "1 manifest -"),
    (b"", "3 manifest version"),
];

/// What the bytes of a file give.
fn answer_to_file(alloc: Global, bytes: &[u8]) -> Answer {
    Answer(read_plan(alloc, bytes).err())
}

#[test]
fn tells_a_file_that_is_no_document(rt: HostRuntime) {
    for (bytes, want) in &FILES {
        let got = InlineText::<64>::of(answer_to_file(rt.alloc(), bytes));
        same(&rt, want, got.as_str(), want);
    }
}
