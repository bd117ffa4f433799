//! Runs that are stopped after each of their turns, and the whole texts of each.

/// The texts of a whole run.
#[derive(Clone, Copy)]
pub struct Texts {
    /// What the console gets.
    pub console: &'static str,
    /// What the report gets.
    pub report: &'static str,
}

/// A run whose harts halt.
#[derive(Clone, Copy)]
pub struct Run {
    /// What it shows.
    pub name: &'static str,
    /// What its manifest has behind the kind of tables.
    pub rest: &'static str,
    /// How many turns it makes.
    pub turns: u32,
    /// Its texts.
    pub texts: Texts,
}

/// The kinds of tables.
pub const KINDS: [&str; 3] = ["segments", "multilevel", "packed"];

/// The reports were worked out by hand from the rules.
pub const STOPS: [Run; 4] = [
    Run {
        name: "a call that writes to the console",
        rest: "[[module]]
name = \"m\"
image = \"hi.elf\"
[[hart]]
module = \"m\"
",
        turns: 7,
        texts: Texts {
            console: "hi\n",
            report: "exit step=7 hart=0 domain=1 code=3\n\
end steps=7 state=halted\n\
hart 0 status=halted domain=1 pc=0x80000018 frames=0\n\
regs 0 00000000 00000000 00000000 00000000 00000000 00000000 00000000 00000000 00000000 00000000 00000003 00000003 00000000 00000000 00000000 00000000 00000000 00000001 00000000 00000000 00000000 00000000 00000000 00000000 00000000 00000000 00000000 00000000 00000000 00000000 00000000 00000000\n\
domain 1 m\n\
map 1 0x80000000 0x80000020 rx\n\
owner 0x80000000 0x80000020 1\n",
        },
    },
    Run {
        name: "a grant that waits while its word is given away",
        rest: "[[module]]
name = \"a\"
at = 0x80000000
perm = \"rx\"
words = [0x80001537, 0x00400593, 0x00200613, 0x00100693, 0x00300893, 0x00000073, 0x00100073, 0x80001537, 0x00400593, 0x00200613, 0x00500893, 0x00000013, 0x00000073, 0x00100073]
stack = 0x80001000
stack_words = 4
[[module]]
name = \"b\"
at = 0x80002000
perm = \"r\"
words = [0]
[[hart]]
module = \"a\"
[[hart]]
module = \"a\"
entry = 0x8000001C
",
        turns: 15,
        texts: Texts {
            console: "",
            report: "fault step=14 hart=1 domain=1 pc=0x80000034 cause=3 value=0x80000034\n\
fault step=15 hart=0 domain=1 pc=0x80000018 cause=3 value=0x80000018\n\
end steps=15 state=halted\n\
hart 0 status=halted domain=1 pc=0x80000018 frames=0\n\
regs 0 00000000 00000000 80001010 00000000 00000000 00000000 00000000 00000000 00000000 00000000 fffffffe 00000004 00000002 00000001 00000000 00000000 00000000 00000003 00000000 00000000 00000000 00000000 00000000 00000000 00000000 00000000 00000000 00000000 00000000 00000000 00000000 00000000\n\
hart 1 status=halted domain=1 pc=0x80000034 frames=0\n\
regs 1 00000000 00000000 80001020 00000000 00000000 00000000 00000000 00000000 00000000 00000000 00000000 00000004 00000002 00000000 00000000 00000000 00000000 00000005 00000000 00000000 00000000 00000000 00000000 00000000 00000000 00000000 00000000 00000000 00000000 00000000 00000000 00000000\n\
domain 1 a\n\
map 1 0x80000000 0x80000038 rx\n\
map 1 0x80001000 0x80001020 rw\n\
domain 2 b\n\
map 2 0x80002000 0x80002004 r\n\
owner 0x80000000 0x80000038 1\n\
owner 0x80001000 0x80001004 2\n\
owner 0x80001004 0x80001020 1\n\
owner 0x80002000 0x80002004 2\n",
        },
    },
    Run {
        name: "a module that dies inside a call",
        rest: "[[module]]
name = \"a\"
at = 0x80000000
perm = \"rx\"
words = [0x800012B7, 0x000280E7, 0x000280E7, 0x00100073]
[[module]]
name = \"b\"
at = 0x80001000
perm = \"rx\"
words = [0x00100073]
gates = [{ entry = 0x80001000, from = [\"a\"] }]
on_fault = \"kill\"
[[hart]]
module = \"a\"
",
        turns: 7,
        texts: Texts {
            console: "",
            report: "fault step=4 hart=0 domain=2 pc=0x80001000 cause=3 value=0x80001000\n\
fault step=7 hart=0 domain=1 pc=0x8000000c cause=3 value=0x8000000c\n\
end steps=7 state=halted\n\
hart 0 status=halted domain=1 pc=0x8000000c frames=0\n\
regs 0 00000000 8000000c 00000000 00000000 00000000 80001000 00000000 00000000 00000000 00000000 ffffff14 00000000 00000000 00000000 00000000 00000000 00000000 00000000 00000000 00000000 00000000 00000000 00000000 00000000 00000000 00000000 00000000 00000000 00000000 00000000 00000000 00000000\n\
domain 1 a\n\
map 1 0x80000000 0x80000010 rx\n\
domain 2 b dead\n\
map 2 0x80001000 0x80001004 rx\n\
owner 0x80000000 0x80000010 1\n\
owner 0x80001000 0x80001004 2\n",
        },
    },
    Run {
        name: "a return to another address",
        rest: "[[module]]
name = \"a\"
at = 0x80000000
perm = \"rx\"
words = [0x800012B7, 0x000280E7, 0x00100073, 0x00100073]
[[module]]
name = \"b\"
at = 0x80001000
perm = \"rx\"
words = [0x00700113, 0x00900413, 0x00408067]
gates = [{ entry = 0x80001000, from = [\"a\"] }]
returns = [0x80001008]
[[hart]]
module = \"a\"
",
        turns: 7,
        texts: Texts {
            console: "",
            report: "fault step=6 hart=0 domain=2 pc=0x80001008 cause=17 value=0x8000000c\n\
fault step=7 hart=0 domain=1 pc=0x80000008 cause=3 value=0x80000008\n\
end steps=7 state=halted\n\
hart 0 status=halted domain=1 pc=0x80000008 frames=0\n\
regs 0 00000000 80000008 00000000 00000000 00000000 80001000 00000000 00000000 00000000 00000000 ffffff11 00000000 00000000 00000000 00000000 00000000 00000000 00000000 00000000 00000000 00000000 00000000 00000000 00000000 00000000 00000000 00000000 00000000 00000000 00000000 00000000 00000000\n\
domain 1 a\n\
map 1 0x80000000 0x80000010 rx\n\
domain 2 b\n\
map 2 0x80001000 0x8000100c rx\n\
owner 0x80000000 0x80000010 1\n\
owner 0x80001000 0x8000100c 2\n",
        },
    },
];

/// The run of `hi.toml` by the schedule `order`, with the lines of its tables.
pub const TABLES_BY_ORDER: Texts = Texts {
    console: "hi\n",
    report: "end steps=6 state=schedule\n\
hart 0 status=running domain=1 pc=0x80000014 frames=0\n\
regs 0 00000000 00000000 00000000 00000000 00000000 00000000 00000000 00000000 00000000 00000000 00000003 00000003 00000000 00000000 00000000 00000000 00000000 00000002 00000000 00000000 00000000 00000000 00000000 00000000 00000000 00000000 00000000 00000000 00000000 00000000 00000000 00000000\n\
domain 1 m\n\
map 1 0x80000000 0x80000020 rx\n\
owner 0x80000000 0x80000020 1\n\
tables kind=packed upper=2/128 leaf=1/4096 spill=0/4096\n\
shown 1 leaf 0x80000000 0x07c0200e\n",
};
