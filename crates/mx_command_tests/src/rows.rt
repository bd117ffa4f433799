//! The rows of the tests: command lines, and what comes of each where no call fails. The texts follow from the rules;
//! those of runs
//! and the image were worked out by a second simulator and another writer, which were made from the rules alone.

use crate::snapshots::{Dump, length_of_snapshot};

/// A command line, and what comes of it where no call fails.
#[derive(Clone, Copy)]
pub struct Row {
    /// Its words, with a blank between two of them.
    pub words: &'static str,
    /// The number of the status.
    pub status: u32,
    /// The files that are asked for, in order.
    pub files: &'static [&'static str],
    /// What the console gets.
    pub console: &'static [u8],
    /// What the report gets before the closing lines: the notes of a run, or the lines of a trace.
    pub early: &'static str,
    /// What the report gets then: the closing lines, or all of another command.
    pub closing: &'static str,
    /// What the dump gets.
    pub dump: Dump,
}

const SOURCE: &[u8] = b".text 0x80000000
start: lui a0, 0x80000
addi a0, a0, 28
addi a1, zero, 3
addi a7, zero, 2
ecall
addi a7, zero, 1
ecall
.ascii \"hi\\n\\0\"
";

/// The file header, a program header, the segment of 32 bytes, two symbols, their names, and three section headers.
const IMAGE: &[u8] = b"\x7f\x45\x4c\x46\x01\x01\x01\0\0\0\0\0\0\0\0\0\
\x02\0\xf3\0\x01\0\0\0\0\0\0\x80\x34\0\0\0\
\x9c\0\0\0\0\0\0\0\x34\0\x20\0\x01\0\x28\0\x03\0\x02\0\
\x01\0\0\0\x54\0\0\0\0\0\0\x80\0\0\0\x80\x20\0\0\0\x20\0\0\0\x05\0\0\0\x04\0\0\0\
\x37\x05\0\x80\x13\x05\xc5\x01\x93\x05\x30\0\x93\x08\x20\0\x73\0\0\0\x93\x08\x10\0\x73\0\0\0\x68\x69\x0a\0\
\0\0\0\0\0\0\0\0\0\0\0\0\0\0\0\0\
\x01\0\0\0\0\0\0\x80\0\0\0\0\0\0\xf1\xff\
\0\x73\x74\x61\x72\x74\0\0\
\0\0\0\0\0\0\0\0\0\0\0\0\0\0\0\0\0\0\0\0\0\0\0\0\0\0\0\0\0\0\0\0\0\0\0\0\0\0\0\0\
\0\0\0\0\x02\0\0\0\0\0\0\0\0\0\0\0\x74\0\0\0\x20\0\0\0\x02\0\0\0\x02\0\0\0\0\0\0\0\x10\0\0\0\
\0\0\0\0\x03\0\0\0\0\0\0\0\0\0\0\0\x94\0\0\0\x07\0\0\0\0\0\0\0\0\0\0\0\0\0\0\0\0\0\0\0";

pub const MANIFEST: &[u8] = b"version = 1
ram_kib = 64
[[module]]
name = \"m\"
image = \"hi.elf\"
[[hart]]
module = \"m\"
";

/// The same with no frame for leaf tables.
const FULL: &[u8] = b"version = 1
ram_kib = 64
leaf = 0
[[module]]
name = \"m\"
image = \"hi.elf\"
[[hart]]
module = \"m\"
";

/// The same with another RAM.
const WIDE: &[u8] = b"version = 1
ram_kib = 128
[[module]]
name = \"m\"
image = \"hi.elf\"
[[hart]]
module = \"m\"
";

/// A module that reads an input, and one whose input is over its area.
const READER: &[u8] = b"version = 2
ram_kib = 64
[[module]]
name = \"m\"
image = \"hi.elf\"
input = \"in\"
input_at = 0x80001000
input_words = 3
[[hart]]
module = \"m\"
";

const NARROW: &[u8] = b"version = 2
ram_kib = 64
[[module]]
name = \"m\"
image = \"hi.elf\"
input = \"in\"
input_at = 0x80001000
input_words = 2
[[hart]]
module = \"m\"
";

/// The files of each call. The first schedule names hart 0, a hart that isn't there, and hart 0 four times; the second
/// one hart 0 once, and
/// the third none.
pub static FILES: [(&str, &[u8]); 11] = [
    ("hi.s", SOURCE),
    ("hi.elf", IMAGE),
    ("hi.toml", MANIFEST),
    ("full.toml", FULL),
    ("wide.toml", WIDE),
    ("reader.toml", READER),
    ("narrow.toml", NARROW),
    ("in", b"hello"),
    ("order", b"\0\x01\0\0\0\0"),
    ("short", b"\0"),
    ("nothing", b""),
];

pub const EXIT: &str = "exit step=7 hart=0 domain=1 code=3\n";

pub const CLOSING: &str = "end steps=7 state=halted\n\
hart 0 status=halted domain=1 pc=0x80000018 frames=0\n\
regs 0 00000000 00000000 00000000 00000000 00000000 00000000 00000000 00000000 00000000 00000000 00000003 00000003 00000000 00000000 00000000 00000000 00000000 00000001 00000000 00000000 00000000 00000000 00000000 00000000 00000000 00000000 00000000 00000000 00000000 00000000 00000000 00000000\n\
domain 1 m\n\
map 1 0x80000000 0x80000020 rx\n\
owner 0x80000000 0x80000020 1\n";

const CLOSING_BY_ORDER: &str = "end steps=6 state=schedule\n\
hart 0 status=running domain=1 pc=0x80000014 frames=0\n\
regs 0 00000000 00000000 00000000 00000000 00000000 00000000 00000000 00000000 00000000 00000000 00000003 00000003 00000000 00000000 00000000 00000000 00000000 00000002 00000000 00000000 00000000 00000000 00000000 00000000 00000000 00000000 00000000 00000000 00000000 00000000 00000000 00000000\n\
domain 1 m\n\
map 1 0x80000000 0x80000020 rx\n\
owner 0x80000000 0x80000020 1\n\
tables kind=packed upper=2/128 leaf=1/4096 spill=0/4096\n\
shown 1 leaf 0x80000000 0x07c0200e\n\
counts 0 sidecar=4 lookaside=1 walks=1\n";

const TURNS: &str = "turn 1 0 1 0x80000000 ran lui x10, 524288\n\
turn 2 0 1 0x80000004 ran addi x10, x10, 28\n\
turn 3 0 1 0x80000008 ran addi x11, x0, 3\n\
turn 4 0 1 0x8000000c ran addi x17, x0, 2\n\
turn 5 0 1 0x80000010 called ecall\n\
turn 6 0 1 0x80000014 ran addi x17, x0, 1\n\
turn 7 0 1 0x80000018 called ecall\n";

const TURNS_BY_ORDER: &str = "turn 2 1 - - idle -\n\
turn 3 0 1 0x80000004 ran addi x10, x10, 28\n\
turn 4 0 1 0x80000008 ran addi x11, x0, 3\n\
turn 5 0 1 0x8000000c ran addi x17, x0, 2\n\
turn 6 0 1 0x80000010 called ecall\n";

const TURNS_AND_DEEDS: &str = "turn 4 0 1 0x8000000c ran addi x17, x0, 2\n\
did x17=0x00000002\n\
turn 5 0 1 0x80000010 called ecall\n\
did call=2 x10=0x00000003\n\
turn 6 0 1 0x80000014 ran addi x17, x0, 1\n\
did x17=0x00000001\n\
turn 7 0 1 0x80000018 called ecall\n\
did exit=3 call=1\n";

/// Runs and traces.
pub static RUNS: [Row; 6] = [
    Row {
        words: "run hi.toml 9 --dump",
        status: 0,
        files: &["hi.toml", "hi.elf"],
        console: b"hi\n",
        early: EXIT,
        closing: CLOSING,
        dump: Dump::Ram,
    },
    Row {
        words: "run hi.toml 9 --save",
        status: 0,
        files: &["hi.toml", "hi.elf"],
        console: b"hi\n",
        early: EXIT,
        closing: CLOSING,
        dump: Dump::Snapshot("halted.bin"),
    },
    Row {
        words: "run hi.toml 9 --schedule order --tables --counts",
        status: 0,
        files: &["hi.toml", "hi.elf", "order"],
        console: b"hi\n",
        early: "",
        closing: CLOSING_BY_ORDER,
        dump: Dump::Nothing,
    },
    Row {
        words: "trace hi.toml 9",
        status: 0,
        files: &["hi.toml", "hi.elf"],
        console: b"hi\n",
        early: TURNS,
        closing: "end steps=7 state=halted\n",
        dump: Dump::Nothing,
    },
    Row {
        words: "trace hi.toml 9 --from 2 --schedule order",
        status: 0,
        files: &["hi.toml", "hi.elf", "order"],
        console: b"hi\n",
        early: TURNS_BY_ORDER,
        closing: "end steps=6 state=schedule\n",
        dump: Dump::Nothing,
    },
    Row {
        words: "trace hi.toml 9 --effects --from 4",
        status: 0,
        files: &["hi.toml", "hi.elf"],
        console: b"hi\n",
        early: TURNS_AND_DEEDS,
        closing: "end steps=7 state=halted\n",
        dump: Dump::Nothing,
    },
];

/// The other commands, but for `resume` and for `mill`, which reads no file.
pub static OTHERS: [Row; 5] = [
    Row {
        words: "audit hi.toml",
        status: 0,
        files: &["hi.toml", "hi.elf"],
        console: b"",
        early: "",
        closing: "live 1 m\nsealed 0x80000020 0x80010000\nsealed words=16376\n",
        dump: Dump::Nothing,
    },
    Row {
        words: "twin hi.toml hi.toml 1 9",
        status: 0,
        files: &["hi.toml", "hi.elf", "hi.toml", "hi.elf"],
        console: b"",
        early: "",
        closing: "twin agreed steps=9\n",
        dump: Dump::Nothing,
    },
    Row {
        words: "audit reader.toml",
        status: 0,
        files: &["reader.toml", "hi.elf", "in"],
        console: b"",
        early: "",
        closing: "live 1 m\nsealed 0x80000020 0x80001000\nsealed 0x8000100c 0x80010000\nsealed words=16373\n",
        dump: Dump::Nothing,
    },
    Row {
        words: "twin reader.toml hi.toml 1 9",
        status: 0,
        files: &["reader.toml", "hi.elf", "in", "hi.toml", "hi.elf"],
        console: b"",
        early: "",
        closing: "twin ended step=0 hart=0 kind=idle\n",
        dump: Dump::Nothing,
    },
    Row {
        words: "asm hi.s",
        status: 0,
        files: &["hi.s"],
        console: IMAGE,
        early: "",
        closing: "",
        dump: Dump::Nothing,
    },
];

/// Words, the number of the status, the files that are asked for, and the line.
pub type Refusal = (&'static str, u32, &'static [&'static str], &'static str);

/// Commands that end with a refusal: one of each line but that of a snapshot and that of a short file, which no store
/// that tells has.
pub static REFUSALS: [Refusal; 12] = [
    (
        "run hi.toml",
        2,
        &[],
        "mondrix: these words have no meaning\n",
    ),
    ("run absent 9", 6, &["absent"], "no file absent\n"),
    (
        "run hi.toml 9 --dump --schedule absent",
        6,
        &["hi.toml", "hi.elf", "absent"],
        "no file absent\n",
    ),
    (
        "trace hi.s 9",
        3,
        &["hi.s"],
        "refused fault=1 at=manifest key=- detail=0\n",
    ),
    (
        "audit full.toml",
        4,
        &["full.toml", "hi.elf"],
        "tables full upper=2/128 leaf=1/0 spill=0/4096\n",
    ),
    (
        "run narrow.toml 9",
        3,
        &["narrow.toml", "hi.elf", "in"],
        "refused fault=9 at=module.1 key=input detail=0\n",
    ),
    (
        "twin reader.toml narrow.toml 1 9",
        3,
        &["reader.toml", "hi.elf", "in", "narrow.toml", "hi.elf", "in"],
        "refused fault=9 at=module.1 key=input detail=0\n",
    ),
    (
        "twin hi.toml hi.s 1 9",
        3,
        &["hi.toml", "hi.elf", "hi.s"],
        "refused fault=1 at=manifest key=- detail=0\n",
    ),
    (
        "twin hi.toml full.toml 1 9",
        4,
        &["hi.toml", "hi.elf", "full.toml", "hi.elf"],
        "tables full upper=2/128 leaf=1/0 spill=0/4096\n",
    ),
    (
        "twin hi.toml wide.toml 1 9",
        12,
        &["hi.toml", "hi.elf", "wide.toml", "hi.elf"],
        "twin unlike key=ram_kib\n",
    ),
    (
        "twin hi.toml hi.toml 2 9",
        13,
        &["hi.toml", "hi.elf", "hi.toml", "hi.elf"],
        "twin no domain\n",
    ),
    ("asm hi.toml", 11, &["hi.toml"], "asm line=1 fault=1\n"),
];

/// A row that ends with a line alone.
pub fn refusal(
    words: &'static str,
    status: u32,
    files: &'static [&'static str],
    line: &'static str,
) -> Row {
    Row {
        words,
        status,
        files,
        console: b"",
        early: "",
        closing: line,
        dump: Dump::Nothing,
    }
}

/// The number of a file's bytes; none of one that isn't there.
pub fn length_of(name: &str) -> Option<usize> {
    for (file, bytes) in &FILES {
        if *file == name {
            return Some(bytes.len());
        }
    }
    length_of_snapshot(name)
}
