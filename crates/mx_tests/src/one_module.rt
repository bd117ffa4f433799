//! Runs of one module on one hart: whole reports.

use crate::examples::{Example, show};
use mx_boot_tests::manifests;
use std::test::Fail;

/// The program that leaves with 5 after three steps.
pub const THREE_WORDS: Example = Example {
    name: "three words",
    manifest: manifests::THREE_WORDS,
    words: &["10"],
    order: b"",
    console: "",
    report: "exit step=3 hart=0 domain=1 code=5\n\
end steps=3 state=halted\n\
hart 0 status=halted domain=1 pc=0x80000008 frames=0\n\
regs 0 00000000 00000000 00000000 00000000 00000000 00000000 00000000 00000000 00000000 00000000 00000005 00000000 00000000 00000000 00000000 00000000 00000000 00000001 00000000 00000000 00000000 00000000 00000000 00000000 00000000 00000000 00000000 00000000 00000000 00000000 00000000 00000000\n\
domain 1 m\n\
map 1 0x80000000 0x8000000c rx\n\
owner 0x80000000 0x8000000c 1\n",
};

const THREE_WORDS_NO_STEP: Example = Example {
    name: "three words, no step",
    manifest: manifests::THREE_WORDS,
    words: &["0"],
    order: b"",
    console: "",
    report: "end steps=0 state=steps\n\
hart 0 status=running domain=1 pc=0x80000000 frames=0\n\
regs 0 00000000 00000000 00000000 00000000 00000000 00000000 00000000 00000000 00000000 00000000 00000000 00000000 00000000 00000000 00000000 00000000 00000000 00000000 00000000 00000000 00000000 00000000 00000000 00000000 00000000 00000000 00000000 00000000 00000000 00000000 00000000 00000000\n\
domain 1 m\n\
map 1 0x80000000 0x8000000c rx\n\
owner 0x80000000 0x8000000c 1\n",
};

pub const STORE_INTO_CODE: Example = Example {
    name: "store into code",
    manifest: "version = 1\n\
ram_kib = 64\n\
[[module]]\n\
name = \"m\"\n\
at = 0x80000000\n\
perm = \"rx\"\n\
words = [0x00000097, 0x0000A023]\n\
[[hart]]\n\
module = \"m\"\n",
    words: &["5"],
    order: b"",
    console: "",
    report: "fault step=2 hart=0 domain=1 pc=0x80000004 cause=7 value=0x80000000\n\
end steps=2 state=halted\n\
hart 0 status=halted domain=1 pc=0x80000004 frames=0\n\
regs 0 00000000 80000000 00000000 00000000 00000000 00000000 00000000 00000000 00000000 00000000 00000000 00000000 00000000 00000000 00000000 00000000 00000000 00000000 00000000 00000000 00000000 00000000 00000000 00000000 00000000 00000000 00000000 00000000 00000000 00000000 00000000 00000000\n\
domain 1 m\n\
map 1 0x80000000 0x80000008 rx\n\
owner 0x80000000 0x80000008 1\n",
};

const DIVISION_CORNERS: Example = Example {
    name: "division corners",
    manifest: "version = 1\n\
ram_kib = 64\n\
[[module]]\n\
name = \"m\"\n\
at = 0x80000000\n\
perm = \"rx\"\n\
words = [0x800002B7, 0xFFF00313, 0x0262C3B3, 0x0202CE33, 0x0202EEB3]\n\
[[hart]]\n\
module = \"m\"\n",
    words: &["5"],
    order: b"",
    console: "",
    report: "end steps=5 state=steps\n\
hart 0 status=running domain=1 pc=0x80000014 frames=0\n\
regs 0 00000000 00000000 00000000 00000000 00000000 80000000 ffffffff 80000000 00000000 00000000 00000000 00000000 00000000 00000000 00000000 00000000 00000000 00000000 00000000 00000000 00000000 00000000 00000000 00000000 00000000 00000000 00000000 00000000 ffffffff 80000000 00000000 00000000\n\
domain 1 m\n\
map 1 0x80000000 0x80000014 rx\n\
owner 0x80000000 0x80000014 1\n",
};

const REMAINDER: Example = Example {
    name: "remainder",
    manifest: "version = 1\n\
ram_kib = 64\n\
[[module]]\n\
name = \"m\"\n\
at = 0x80000000\n\
perm = \"rx\"\n\
words = [0x00700293, 0x00300313, 0x0262E3B3, 0x00100073]\n\
[[hart]]\n\
module = \"m\"\n",
    words: &["9"],
    order: b"",
    console: "",
    report: "fault step=4 hart=0 domain=1 pc=0x8000000c cause=3 value=0x8000000c\n\
end steps=4 state=halted\n\
hart 0 status=halted domain=1 pc=0x8000000c frames=0\n\
regs 0 00000000 00000000 00000000 00000000 00000000 00000007 00000003 00000001 00000000 00000000 00000000 00000000 00000000 00000000 00000000 00000000 00000000 00000000 00000000 00000000 00000000 00000000 00000000 00000000 00000000 00000000 00000000 00000000 00000000 00000000 00000000 00000000\n\
domain 1 m\n\
map 1 0x80000000 0x80000010 rx\n\
owner 0x80000000 0x80000010 1\n",
};

const MISALIGNED_BRANCH_TARGET: Example = Example {
    name: "misaligned branch target",
    manifest: "version = 1\n\
ram_kib = 64\n\
[[module]]\n\
name = \"m\"\n\
at = 0x80000000\n\
perm = \"rx\"\n\
words = [0x00029363, 0x00128293, 0xFF9FF06F]\n\
[[hart]]\n\
module = \"m\"\n",
    words: &["10"],
    order: b"",
    console: "",
    report: "fault step=4 hart=0 domain=1 pc=0x80000000 cause=0 value=0x80000006\n\
end steps=4 state=halted\n\
hart 0 status=halted domain=1 pc=0x80000000 frames=0\n\
regs 0 00000000 00000000 00000000 00000000 00000000 00000001 00000000 00000000 00000000 00000000 00000000 00000000 00000000 00000000 00000000 00000000 00000000 00000000 00000000 00000000 00000000 00000000 00000000 00000000 00000000 00000000 00000000 00000000 00000000 00000000 00000000 00000000\n\
domain 1 m\n\
map 1 0x80000000 0x8000000c rx\n\
owner 0x80000000 0x8000000c 1\n",
};

const MISALIGNED_LOAD: Example = Example {
    name: "misaligned load",
    manifest: "version = 1\n\
ram_kib = 64\n\
[[module]]\n\
name = \"m\"\n\
at = 0x80000000\n\
perm = \"rx\"\n\
words = [0x00101303]\n\
[[hart]]\n\
module = \"m\"\n",
    words: &["5"],
    order: b"",
    console: "",
    report: "fault step=1 hart=0 domain=1 pc=0x80000000 cause=4 value=0x00000001\n\
end steps=1 state=halted\n\
hart 0 status=halted domain=1 pc=0x80000000 frames=0\n\
regs 0 00000000 00000000 00000000 00000000 00000000 00000000 00000000 00000000 00000000 00000000 00000000 00000000 00000000 00000000 00000000 00000000 00000000 00000000 00000000 00000000 00000000 00000000 00000000 00000000 00000000 00000000 00000000 00000000 00000000 00000000 00000000 00000000\n\
domain 1 m\n\
map 1 0x80000000 0x80000004 rx\n\
owner 0x80000000 0x80000004 1\n",
};

const A_CALL_THAT_IS_NONE: Example = Example {
    name: "a call that is none",
    manifest: "version = 1\n\
ram_kib = 64\n\
[[module]]\n\
name = \"m\"\n\
at = 0x80000000\n\
perm = \"rx\"\n\
words = [0x06300893, 0x00000073, 0x00150013]\n\
[[hart]]\n\
module = \"m\"\n",
    words: &["10"],
    order: b"",
    console: "",
    report: "fault step=4 hart=0 domain=1 pc=0x8000000c cause=1 value=0x8000000c\n\
end steps=4 state=halted\n\
hart 0 status=halted domain=1 pc=0x8000000c frames=0\n\
regs 0 00000000 00000000 00000000 00000000 00000000 00000000 00000000 00000000 00000000 00000000 fffffff3 00000000 00000000 00000000 00000000 00000000 00000000 00000063 00000000 00000000 00000000 00000000 00000000 00000000 00000000 00000000 00000000 00000000 00000000 00000000 00000000 00000000\n\
domain 1 m\n\
map 1 0x80000000 0x8000000c rx\n\
owner 0x80000000 0x8000000c 1\n",
};

const A_FETCH_OF_A_WORD_TO_READ: Example = Example {
    name: "a fetch of a word to read",
    manifest: "version = 1\n\
ram_kib = 64\n\
[[module]]\n\
name = \"m\"\n\
at = 0x80000000\n\
perm = \"r\"\n\
words = [0x06300893, 0x00000073, 0x00150013]\n\
[[hart]]\n\
module = \"m\"\n",
    words: &["10"],
    order: b"",
    console: "",
    report: "fault step=1 hart=0 domain=1 pc=0x80000000 cause=1 value=0x80000000\n\
end steps=1 state=halted\n\
hart 0 status=halted domain=1 pc=0x80000000 frames=0\n\
regs 0 00000000 00000000 00000000 00000000 00000000 00000000 00000000 00000000 00000000 00000000 00000000 00000000 00000000 00000000 00000000 00000000 00000000 00000000 00000000 00000000 00000000 00000000 00000000 00000000 00000000 00000000 00000000 00000000 00000000 00000000 00000000 00000000\n\
domain 1 m\n\
map 1 0x80000000 0x8000000c r\n\
owner 0x80000000 0x8000000c 1\n",
};

const AN_ILLEGAL_WORD: Example = Example {
    name: "an illegal word",
    manifest: "version = 1\n\
ram_kib = 64\n\
[[module]]\n\
name = \"m\"\n\
at = 0x80000ff0\n\
perm = \"rx\"\n\
words = [0x00500513, 0]\n\
[[hart]]\n\
module = \"m\"\n",
    words: &["10"],
    order: b"",
    console: "",
    report: "fault step=2 hart=0 domain=1 pc=0x80000ff4 cause=2 value=0x00000000\n\
end steps=2 state=halted\n\
hart 0 status=halted domain=1 pc=0x80000ff4 frames=0\n\
regs 0 00000000 00000000 00000000 00000000 00000000 00000000 00000000 00000000 00000000 00000000 00000005 00000000 00000000 00000000 00000000 00000000 00000000 00000000 00000000 00000000 00000000 00000000 00000000 00000000 00000000 00000000 00000000 00000000 00000000 00000000 00000000 00000000\n\
domain 1 m\n\
map 1 0x80000ff0 0x80000ff8 rx\n\
owner 0x80000ff0 0x80000ff8 1\n",
};

#[test]
fn programs_of_one_module(rt: HostRuntime) -> Result<(), Fail> {
    let examples = [
        THREE_WORDS,
        THREE_WORDS_NO_STEP,
        STORE_INTO_CODE,
        DIVISION_CORNERS,
        REMAINDER,
        MISALIGNED_BRANCH_TARGET,
        MISALIGNED_LOAD,
        A_CALL_THAT_IS_NONE,
        A_FETCH_OF_A_WORD_TO_READ,
        AN_ILLEGAL_WORD,
    ];
    for example in examples {
        show(&rt, rt.alloc(), &example)?;
    }
    Ok(())
}

const HI_ON_THE_CONSOLE: Example = Example {
    name: "hi on the console",
    manifest: "version = 1\n\
ram_kib = 64\n\
[[module]]\n\
name = \"m\"\n\
at = 0x80000000\n\
perm = \"rx\"\n\
words = [0x80000537, 0x01C50513, 0x00300593, 0x00200893, 0x00000073, 0x00100893, 0x00000073, 0x000A6968]\n\
[[hart]]\n\
module = \"m\"\n",
    words: &["9", "--counts"],
    order: b"",
    console: "hi\n",
    report: "exit step=7 hart=0 domain=1 code=3\n\
end steps=7 state=halted\n\
hart 0 status=halted domain=1 pc=0x80000018 frames=0\n\
regs 0 00000000 00000000 00000000 00000000 00000000 00000000 00000000 00000000 00000000 00000000 00000003 00000003 00000000 00000000 00000000 00000000 00000000 00000001 00000000 00000000 00000000 00000000 00000000 00000000 00000000 00000000 00000000 00000000 00000000 00000000 00000000 00000000\n\
domain 1 m\n\
map 1 0x80000000 0x80000020 rx\n\
owner 0x80000000 0x80000020 1\n\
counts 0 sidecar=6 lookaside=1 walks=1\n",
};

/// A block that is taken, written and given back.
pub const ALLOC_STORE_FREE: Example = Example {
    name: "alloc, store, free",
    manifest: "version = 1\n\
ram_kib = 64\n\
[[module]]\n\
name = \"m\"\n\
at = 0x80000000\n\
perm = \"rx\"\n\
words = [0x00200513, 0x00600893, 0x00000073, 0x00050293, 0x0112A023, 0x00700893, 0x00000073, 0x0112A023]\n\
heap = 0x80001000\n\
heap_words = 8\n\
[[hart]]\n\
module = \"m\"\n",
    words: &["10", "--dump"],
    order: b"",
    console: "",
    report: "fault step=8 hart=0 domain=1 pc=0x8000001c cause=7 value=0x80001000\n\
end steps=8 state=halted\n\
hart 0 status=halted domain=1 pc=0x8000001c frames=0\n\
regs 0 00000000 00000000 00000000 00000000 00000000 80001000 00000000 00000000 00000000 00000000 00000000 00000000 00000000 00000000 00000000 00000000 00000000 00000007 00000000 00000000 00000000 00000000 00000000 00000000 00000000 00000000 00000000 00000000 00000000 00000000 00000000 00000000\n\
domain 1 m\n\
map 1 0x80000000 0x80000020 rx\n\
owner 0x80000000 0x80000020 1\n\
owner 0x80001000 0x80001020 1\n",
};

const SEALED_THREE_WORDS: Example = Example {
    name: "sealed three words",
    manifest: "version = 2\n\
ram_kib = 64\n\
[[module]]\n\
name = \"m\"\n\
at = 0x80000000\n\
perm = \"rx\"\n\
words = [0x00100893, 0x00500513, 0x00000073]\n\
seal = true\n\
[[hart]]\n\
module = \"m\"\n",
    words: &["10"],
    order: b"",
    console: "",
    report: "exit step=3 hart=0 domain=1 code=5\n\
end steps=3 state=halted\n\
hart 0 status=halted domain=1 pc=0x80000008 frames=0\n\
regs 0 00000000 00000000 00000000 00000000 00000000 00000000 00000000 00000000 00000000 00000000 00000005 00000000 00000000 00000000 00000000 00000000 00000000 00000001 00000000 00000000 00000000 00000000 00000000 00000000 00000000 00000000 00000000 00000000 00000000 00000000 00000000 00000000\n\
domain 1 m\n\
map 1 0x80000000 0x8000000c rx\n",
};

#[test]
fn calls_of_one_module(rt: HostRuntime) -> Result<(), Fail> {
    let examples = [HI_ON_THE_CONSOLE, ALLOC_STORE_FREE, SEALED_THREE_WORDS];
    for example in examples {
        show(&rt, rt.alloc(), &example)?;
    }
    Ok(())
}

const SCHEDULE_OF_THREE_BYTES: Example = Example {
    name: "schedule of three bytes",
    manifest: manifests::THREE_WORDS,
    words: &["10", "--schedule", "order"],
    order: b"\x01\x00\x00",
    console: "",
    report: "end steps=3 state=schedule\n\
hart 0 status=running domain=1 pc=0x80000008 frames=0\n\
regs 0 00000000 00000000 00000000 00000000 00000000 00000000 00000000 00000000 00000000 00000000 00000005 00000000 00000000 00000000 00000000 00000000 00000000 00000001 00000000 00000000 00000000 00000000 00000000 00000000 00000000 00000000 00000000 00000000 00000000 00000000 00000000 00000000\n\
domain 1 m\n\
map 1 0x80000000 0x8000000c rx\n\
owner 0x80000000 0x8000000c 1\n",
};

const EMPTY_SCHEDULE: Example = Example {
    name: "empty schedule",
    manifest: manifests::THREE_WORDS,
    words: &["10", "--schedule", "order"],
    order: b"",
    console: "",
    report: "end steps=0 state=schedule\n\
hart 0 status=running domain=1 pc=0x80000000 frames=0\n\
regs 0 00000000 00000000 00000000 00000000 00000000 00000000 00000000 00000000 00000000 00000000 00000000 00000000 00000000 00000000 00000000 00000000 00000000 00000000 00000000 00000000 00000000 00000000 00000000 00000000 00000000 00000000 00000000 00000000 00000000 00000000 00000000 00000000\n\
domain 1 m\n\
map 1 0x80000000 0x8000000c rx\n\
owner 0x80000000 0x8000000c 1\n",
};

#[test]
fn runs_by_a_schedule(rt: HostRuntime) -> Result<(), Fail> {
    let examples = [SCHEDULE_OF_THREE_BYTES, EMPTY_SCHEDULE];
    for example in examples {
        show(&rt, rt.alloc(), &example)?;
    }
    Ok(())
}
