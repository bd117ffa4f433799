//! Runs of two modules, and of two harts: whole reports.

use crate::examples::{Example, show};
use std::test::Fail;

const GATES_IN_A_CIRCLE: Example = Example {
    name: "gates in a circle",
    manifest: "version = 1\n\
ram_kib = 64\n\
[[module]]\n\
name = \"a\"\n\
at = 0x80000000\n\
perm = \"rx\"\n\
words = [0x800012B7, 0x000280E7, 0x00100073]\n\
gates = [{ entry = 0x80000000, from = [\"b\"] }]\n\
[[module]]\n\
name = \"b\"\n\
at = 0x80001000\n\
perm = \"rx\"\n\
words = [0x800002B7, 0x000280E7, 0x00100073]\n\
gates = [{ entry = 0x80001000, from = [\"a\"] }]\n\
[[hart]]\n\
module = \"a\"\n",
    words: &["195"],
    order: b"",
    console: "",
    report: "fault step=195 hart=0 domain=1 pc=0x80001000 cause=16 value=0x80001000\n\
end steps=195 state=steps\n\
hart 0 status=running domain=2 pc=0x80001008 frames=63\n\
regs 0 00000000 80000008 00000000 00000000 00000000 80001000 00000000 00000000 00000000 00000000 ffffff10 00000000 00000000 00000000 00000000 00000000 00000000 00000000 00000000 00000000 00000000 00000000 00000000 00000000 00000000 00000000 00000000 00000000 00000000 00000000 00000000 00000000\n\
domain 1 a\n\
map 1 0x80000000 0x8000000c rx\n\
domain 2 b\n\
map 2 0x80001000 0x8000100c rx\n\
owner 0x80000000 0x8000000c 1\n\
owner 0x80001000 0x8000100c 2\n",
};

const RETURN_TO_ANOTHER_ADDRESS: Example = Example {
    name: "return to another address",
    manifest: "version = 1\n\
ram_kib = 64\n\
[[module]]\n\
name = \"a\"\n\
at = 0x80000000\n\
perm = \"rx\"\n\
words = [0x800012B7, 0x000280E7, 0x00100073, 0x00100073]\n\
[[module]]\n\
name = \"b\"\n\
at = 0x80001000\n\
perm = \"rx\"\n\
words = [0x00700113, 0x00900413, 0x00408067]\n\
gates = [{ entry = 0x80001000, from = [\"a\"] }]\n\
returns = [0x80001008]\n\
[[hart]]\n\
module = \"a\"\n",
    words: &["10"],
    order: b"",
    console: "",
    report: "fault step=6 hart=0 domain=2 pc=0x80001008 cause=17 value=0x8000000c\n\
fault step=7 hart=0 domain=1 pc=0x80000008 cause=3 value=0x80000008\n\
end steps=7 state=halted\n\
hart 0 status=halted domain=1 pc=0x80000008 frames=0\n\
regs 0 00000000 80000008 00000000 00000000 00000000 80001000 00000000 00000000 00000000 00000000 ffffff11 00000000 00000000 00000000 00000000 00000000 00000000 00000000 00000000 00000000 00000000 00000000 00000000 00000000 00000000 00000000 00000000 00000000 00000000 00000000 00000000 00000000\n\
domain 1 a\n\
map 1 0x80000000 0x80000010 rx\n\
domain 2 b\n\
map 2 0x80001000 0x8000100c rx\n\
owner 0x80000000 0x80000010 1\n\
owner 0x80001000 0x8000100c 2\n",
};

pub const RETURN_TO_THE_SAVED_ADDRESS: Example = Example {
    name: "return to the saved address",
    manifest: "version = 1\n\
ram_kib = 64\n\
[[module]]\n\
name = \"a\"\n\
at = 0x80000000\n\
perm = \"rx\"\n\
words = [0x800012B7, 0x000280E7, 0x00100073, 0x00100073]\n\
[[module]]\n\
name = \"b\"\n\
at = 0x80001000\n\
perm = \"rx\"\n\
words = [0x00700113, 0x00900413, 0x00008067]\n\
gates = [{ entry = 0x80001000, from = [\"a\"] }]\n\
returns = [0x80001008]\n\
[[hart]]\n\
module = \"a\"\n",
    words: &["10"],
    order: b"",
    console: "",
    report: "fault step=7 hart=0 domain=1 pc=0x80000008 cause=3 value=0x80000008\n\
end steps=7 state=halted\n\
hart 0 status=halted domain=1 pc=0x80000008 frames=0\n\
regs 0 00000000 80000008 00000000 00000000 00000000 80001000 00000000 00000000 00000000 00000000 00000000 00000000 00000000 00000000 00000000 00000000 00000000 00000000 00000000 00000000 00000000 00000000 00000000 00000000 00000000 00000000 00000000 00000000 00000000 00000000 00000000 00000000\n\
domain 1 a\n\
map 1 0x80000000 0x80000010 rx\n\
domain 2 b\n\
map 2 0x80001000 0x8000100c rx\n\
owner 0x80000000 0x80000010 1\n\
owner 0x80001000 0x8000100c 2\n",
};

const EXIT_INSIDE_A_CALL: Example = Example {
    name: "exit inside a call",
    manifest: "version = 1\n\
ram_kib = 64\n\
[[module]]\n\
name = \"a\"\n\
at = 0x80000000\n\
perm = \"rx\"\n\
words = [0x80000537, 0x00400593, 0x00200613, 0x00100893, 0x00000073, 0x00100073]\n\
gates = [{ entry = 0x80000000, from = [\"b\"] }]\n\
[[module]]\n\
name = \"b\"\n\
at = 0x80001000\n\
perm = \"rx\"\n\
words = [0x800002B7, 0x000280E7, 0x00100073]\n\
[[hart]]\n\
module = \"b\"\n",
    words: &["9"],
    order: b"",
    console: "",
    report: "fault step=9 hart=0 domain=1 pc=0x80000014 cause=3 value=0x80000014\n\
end steps=9 state=steps\n\
hart 0 status=running domain=2 pc=0x80001008 frames=0\n\
regs 0 00000000 80001008 00000000 00000000 00000000 80000000 00000000 00000000 00000000 00000000 ffffff03 00000004 00000002 00000000 00000000 00000000 00000000 00000001 00000000 00000000 00000000 00000000 00000000 00000000 00000000 00000000 00000000 00000000 00000000 00000000 00000000 00000000\n\
domain 1 a\n\
map 1 0x80000000 0x80000018 rx\n\
domain 2 b\n\
map 2 0x80001000 0x8000100c rx\n\
owner 0x80000000 0x80000018 1\n\
owner 0x80001000 0x8000100c 2\n",
};

pub const CALL_INTO_A_DEAD_MODULE: Example = Example {
    name: "call into a dead module",
    manifest: "version = 2\n\
ram_kib = 64\n\
[[module]]\n\
name = \"a\"\n\
at = 0x80000000\n\
perm = \"rx\"\n\
words = [0x800012B7, 0x000280E7, 0x000280E7, 0x00100073]\n\
[[module]]\n\
name = \"b\"\n\
at = 0x80001000\n\
perm = \"rx\"\n\
words = [0x00100073]\n\
gates = [{ entry = 0x80001000, from = [\"a\"] }]\n\
on_fault = \"kill\"\n\
[[hart]]\n\
module = \"a\"\n",
    words: &["20"],
    order: b"",
    console: "",
    report: "fault step=4 hart=0 domain=2 pc=0x80001000 cause=3 value=0x80001000\n\
fault step=7 hart=0 domain=1 pc=0x8000000c cause=3 value=0x8000000c\n\
end steps=7 state=halted\n\
hart 0 status=halted domain=1 pc=0x8000000c frames=0\n\
regs 0 00000000 8000000c 00000000 00000000 00000000 80001000 00000000 00000000 00000000 00000000 ffffff14 00000000 00000000 00000000 00000000 00000000 00000000 00000000 00000000 00000000 00000000 00000000 00000000 00000000 00000000 00000000 00000000 00000000 00000000 00000000 00000000 00000000\n\
domain 1 a\n\
map 1 0x80000000 0x80000010 rx\n\
domain 2 b dead\n\
map 2 0x80001000 0x80001004 rx\n\
owner 0x80000000 0x80000010 1\n\
owner 0x80001000 0x80001004 2\n",
};

#[test]
fn gates_between_two_modules(rt: HostRuntime) -> Result<(), Fail> {
    let examples = [
        GATES_IN_A_CIRCLE,
        RETURN_TO_ANOTHER_ADDRESS,
        RETURN_TO_THE_SAVED_ADDRESS,
        EXIT_INSIDE_A_CALL,
        CALL_INTO_A_DEAD_MODULE,
    ];
    for example in examples {
        show(&rt, rt.alloc(), &example)?;
    }
    Ok(())
}

const TWO_PLAIN_MODULES: Example = Example {
    name: "two plain modules",
    manifest: "version = 1\n\
ram_kib = 64\n\
[[module]]\n\
name = \"a\"\n\
at = 0x80000000\n\
perm = \"rx\"\n\
words = [0x00100073]\n\
[[module]]\n\
name = \"b\"\n\
at = 0x80000004\n\
perm = \"rw\"\n\
words = [0, 0]\n\
[[hart]]\n\
module = \"a\"\n",
    words: &["5"],
    order: b"",
    console: "",
    report: "fault step=1 hart=0 domain=1 pc=0x80000000 cause=3 value=0x80000000\n\
end steps=1 state=halted\n\
hart 0 status=halted domain=1 pc=0x80000000 frames=0\n\
regs 0 00000000 00000000 00000000 00000000 00000000 00000000 00000000 00000000 00000000 00000000 00000000 00000000 00000000 00000000 00000000 00000000 00000000 00000000 00000000 00000000 00000000 00000000 00000000 00000000 00000000 00000000 00000000 00000000 00000000 00000000 00000000 00000000\n\
domain 1 a\n\
map 1 0x80000000 0x80000004 rx\n\
domain 2 b\n\
map 2 0x80000004 0x8000000c rw\n\
owner 0x80000000 0x80000004 1\n\
owner 0x80000004 0x8000000c 2\n",
};

const GRANT_WITH_ONE_HART: Example = Example {
    name: "grant with one hart",
    manifest: "version = 1\n\
ram_kib = 64\n\
[[module]]\n\
name = \"a\"\n\
at = 0x80000000\n\
perm = \"rx\"\n\
words = [0x80000537, 0x00400593, 0x00200613, 0x00100693, 0x00300893, 0x00000073, 0x00100073]\n\
[[module]]\n\
name = \"b\"\n\
at = 0x80002000\n\
perm = \"r\"\n\
words = [0]\n\
[[hart]]\n\
module = \"a\"\n",
    words: &["10"],
    order: b"",
    console: "",
    report: "fault step=7 hart=0 domain=1 pc=0x80000018 cause=3 value=0x80000018\n\
end steps=7 state=halted\n\
hart 0 status=halted domain=1 pc=0x80000018 frames=0\n\
regs 0 00000000 00000000 00000000 00000000 00000000 00000000 00000000 00000000 00000000 00000000 00000000 00000004 00000002 00000001 00000000 00000000 00000000 00000003 00000000 00000000 00000000 00000000 00000000 00000000 00000000 00000000 00000000 00000000 00000000 00000000 00000000 00000000\n\
domain 1 a\n\
map 1 0x80000000 0x8000001c rx\n\
domain 2 b\n\
map 2 0x80000000 0x80000004 r\n\
map 2 0x80002000 0x80002004 r\n\
owner 0x80000000 0x8000001c 1\n\
owner 0x80002000 0x80002004 2\n",
};

pub const TWO_HARTS_TRANSFER_UNDER_A_WAITING_GRANT: Example = Example {
    name: "two harts, transfer under a waiting grant",
    manifest: "version = 1\n\
ram_kib = 64\n\
[[module]]\n\
name = \"a\"\n\
at = 0x80000000\n\
perm = \"rx\"\n\
words = [0x80001537, 0x00400593, 0x00200613, 0x00100693, 0x00300893, 0x00000073, 0x00100073, 0x80001537, 0x00400593, 0x00200613, 0x00500893, 0x00000013, 0x00000073, 0x00100073]\n\
stack = 0x80001000\n\
stack_words = 4\n\
[[module]]\n\
name = \"b\"\n\
at = 0x80002000\n\
perm = \"r\"\n\
words = [0]\n\
[[hart]]\n\
module = \"a\"\n\
[[hart]]\n\
module = \"a\"\n\
entry = 0x8000001C\n",
    words: &["20"],
    order: b"",
    console: "",
    report: "fault step=14 hart=1 domain=1 pc=0x80000034 cause=3 value=0x80000034\n\
fault step=15 hart=0 domain=1 pc=0x80000018 cause=3 value=0x80000018\n\
end steps=15 state=halted\n\
hart 0 status=halted domain=1 pc=0x80000018 frames=0\n\
regs 0 00000000 00000000 80001010 00000000 00000000 00000000 00000000 00000000 00000000 00000000 fffffffe 00000004 00000002 00000001 00000000 00000000 00000000 00000003 00000000 00000000 00000000 00000000 00000000 00000000 00000000 00000000 00000000 00000000 00000000 00000000 00000000 00000000\n\
hart 1 status=halted domain=1 pc=0x80000034 frames=0\n\
regs 1 00000000 00000000 80001020 00000000 00000000 00000000 00000000 00000000 00000000 00000000 00000000 00000004 00000002 00000000 00000000 00000000 00000000 00000005 00000000 00000000 00000000 00000000 00000000 00000000 00000000 00000000 00000000 00000000 00000000 00000000 00000000 00000000\n\
domain 1 a\n\
map 1 0x80000000 0x80000038 rx\n\
map 1 0x80001000 0x80001020 rw\n\
domain 2 b\n\
map 2 0x80002000 0x80002004 r\n\
owner 0x80000000 0x80000038 1\n\
owner 0x80001000 0x80001004 2\n\
owner 0x80001004 0x80001020 1\n\
owner 0x80002000 0x80002004 2\n",
};

pub const DEAD_DOMAIN_TWO_HARTS: Example = Example {
    name: "dead domain, two harts",
    manifest: "version = 2\n\
ram_kib = 64\n\
[[module]]\n\
name = \"m\"\n\
at = 0x80000000\n\
perm = \"rx\"\n\
words = [0x00100073]\n\
on_fault = \"kill\"\n\
[[hart]]\n\
module = \"m\"\n\
[[hart]]\n\
module = \"m\"\n",
    words: &["10"],
    order: b"",
    console: "",
    report: "fault step=1 hart=0 domain=1 pc=0x80000000 cause=3 value=0x80000000\n\
fault step=2 hart=1 domain=1 pc=0x80000000 cause=20 value=0x80000000\n\
end steps=2 state=halted\n\
hart 0 status=halted domain=1 pc=0x80000000 frames=0\n\
regs 0 00000000 00000000 00000000 00000000 00000000 00000000 00000000 00000000 00000000 00000000 00000000 00000000 00000000 00000000 00000000 00000000 00000000 00000000 00000000 00000000 00000000 00000000 00000000 00000000 00000000 00000000 00000000 00000000 00000000 00000000 00000000 00000000\n\
hart 1 status=halted domain=1 pc=0x80000000 frames=0\n\
regs 1 00000000 00000000 00000000 00000000 00000000 00000000 00000000 00000000 00000000 00000000 00000000 00000000 00000000 00000000 00000000 00000000 00000000 00000000 00000000 00000000 00000000 00000000 00000000 00000000 00000000 00000000 00000000 00000000 00000000 00000000 00000000 00000000\n\
domain 1 m dead\n\
map 1 0x80000000 0x80000004 rx\n\
owner 0x80000000 0x80000004 1\n",
};

#[test]
fn rights_of_two_modules(rt: HostRuntime) -> Result<(), Fail> {
    let examples = [
        TWO_PLAIN_MODULES,
        GRANT_WITH_ONE_HART,
        TWO_HARTS_TRANSFER_UNDER_A_WAITING_GRANT,
        DEAD_DOMAIN_TWO_HARTS,
    ];
    for example in examples {
        show(&rt, rt.alloc(), &example)?;
    }
    Ok(())
}
