//! The rows of the command `resume`. A snapshot after one turn goes on to the end that the whole run has.

use crate::rows::{CLOSING, EXIT, Refusal, Row};
use crate::snapshots::Dump;

/// By the schedule `order`, whose bytes from the second on are those of the turns made.
const CLOSING_BY_ORDER: &str = "end steps=6 state=schedule\n\
hart 0 status=running domain=1 pc=0x80000014 frames=0\n\
regs 0 00000000 00000000 00000000 00000000 00000000 00000000 00000000 00000000 00000000 00000000 00000003 00000003 00000000 00000000 00000000 00000000 00000000 00000002 00000000 00000000 00000000 00000000 00000000 00000000 00000000 00000000 00000000 00000000 00000000 00000000 00000000 00000000\n\
domain 1 m\n\
map 1 0x80000000 0x80000020 rx\n\
owner 0x80000000 0x80000020 1\n\
tables kind=packed upper=2/128 leaf=1/4096 spill=0/4096\n\
shown 1 leaf 0x80000000 0x07c0200e\n";

/// Where no turn is made after the first one: no more were asked.
pub const BEGUN: &str = "end steps=1 state=steps\n\
hart 0 status=running domain=1 pc=0x80000004 frames=0\n\
regs 0 00000000 00000000 00000000 00000000 00000000 00000000 00000000 00000000 00000000 00000000 80000000 00000000 00000000 00000000 00000000 00000000 00000000 00000000 00000000 00000000 00000000 00000000 00000000 00000000 00000000 00000000 00000000 00000000 00000000 00000000 00000000 00000000\n\
domain 1 m\n\
map 1 0x80000000 0x80000020 rx\n\
owner 0x80000000 0x80000020 1\n";

/// Where more were asked, and the schedule is no longer than the turns made before.
const BEGUN_BY_SCHEDULE: &str = "end steps=1 state=schedule\n\
hart 0 status=running domain=1 pc=0x80000004 frames=0\n\
regs 0 00000000 00000000 00000000 00000000 00000000 00000000 00000000 00000000 00000000 00000000 80000000 00000000 00000000 00000000 00000000 00000000 00000000 00000000 00000000 00000000 00000000 00000000 00000000 00000000 00000000 00000000 00000000 00000000 00000000 00000000 00000000 00000000\n\
domain 1 m\n\
map 1 0x80000000 0x80000020 rx\n\
owner 0x80000000 0x80000020 1\n";

/// Runs that go on.
pub static RESUMES: [Row; 8] = [
    Row {
        words: "resume begun.bin 9 --dump",
        status: 0,
        files: &["begun.bin"],
        console: b"hi\n",
        early: EXIT,
        closing: CLOSING,
        dump: Dump::Ram,
    },
    Row {
        words: "resume begun.bin 6 --save",
        status: 0,
        files: &["begun.bin"],
        console: b"hi\n",
        early: EXIT,
        closing: CLOSING,
        dump: Dump::Snapshot("halted.bin"),
    },
    Row {
        words: "resume begun.bin 9 --tables --schedule order",
        status: 0,
        files: &["begun.bin", "order"],
        console: b"hi\n",
        early: "",
        closing: CLOSING_BY_ORDER,
        dump: Dump::Nothing,
    },
    Row {
        words: "resume begun.bin 0 --save",
        status: 0,
        files: &["begun.bin"],
        console: b"",
        early: "",
        closing: BEGUN,
        dump: Dump::Snapshot("begun.bin"),
    },
    Row {
        words: "resume begun.bin 9 --schedule short",
        status: 0,
        files: &["begun.bin", "short"],
        console: b"",
        early: "",
        closing: BEGUN_BY_SCHEDULE,
        dump: Dump::Nothing,
    },
    Row {
        words: "resume begun.bin 9 --save --schedule nothing",
        status: 0,
        files: &["begun.bin", "nothing"],
        console: b"",
        early: "",
        closing: BEGUN_BY_SCHEDULE,
        dump: Dump::Snapshot("begun.bin"),
    },
    Row {
        words: "resume begun.bin 0 --schedule nothing",
        status: 0,
        files: &["begun.bin", "nothing"],
        console: b"",
        early: "",
        closing: BEGUN,
        dump: Dump::Nothing,
    },
    Row {
        words: "resume halted.bin 9 --schedule short --save",
        status: 0,
        files: &["halted.bin", "short"],
        console: b"",
        early: "",
        closing: CLOSING,
        dump: Dump::Snapshot("halted.bin"),
    },
];

/// Snapshots, and schedules, that are refused, in the order in which they are judged.
pub static UNRESUMED: [Refusal; 11] = [
    ("resume absent 9", 6, &["absent"], "no file absent\n"),
    (
        "resume cut.bin 9 --save --schedule absent",
        14,
        &["cut.bin"],
        "snapshot fault=2 at=8\n",
    ),
    (
        "resume foreign.bin 9",
        14,
        &["foreign.bin"],
        "snapshot fault=3 at=0\n",
    ),
    (
        "resume quick.bin 9",
        14,
        &["quick.bin"],
        "snapshot fault=4 at=32\n",
    ),
    (
        "resume zero.bin 9 --dump",
        14,
        &["zero.bin"],
        "snapshot fault=4 at=133\n",
    ),
    (
        "resume long.bin 9",
        14,
        &["long.bin"],
        "snapshot fault=5 at=65805\n",
    ),
    (
        "resume fuller.bin 9",
        14,
        &["fuller.bin"],
        "snapshot fault=5 at=65805\n",
    ),
    (
        "resume full.bin 9 --tables",
        4,
        &["full.bin"],
        "tables full upper=2/128 leaf=1/0 spill=0/4096\n",
    ),
    (
        "resume full.bin 9 --schedule absent",
        4,
        &["full.bin"],
        "tables full upper=2/128 leaf=1/0 spill=0/4096\n",
    ),
    (
        "resume begun.bin 9 --schedule absent --save",
        6,
        &["begun.bin", "absent"],
        "no file absent\n",
    ),
    (
        "resume hi.toml 9",
        14,
        &["hi.toml"],
        "snapshot fault=3 at=0\n",
    ),
];
