//! Manifests whose machines come to the limits of what a snapshot holds.

use std::alloc::Global;
use std::string::String;
use std::test::Fail;

/// Two harts that allocate a word, one that faults in a killing module, and one that jumps to itself.
pub const WAITING: &str = "version = 2
ram_kib = 64
tables = \"multilevel\"
upper = 130
leaf = 4097
spill = 4098
lookaside = 8
quantum = 7
[[module]]
name = \"a\"
at = 0x80000000
perm = \"rx\"
words = [0x00100513, 0x00600893, 0x00000073]
heap = 0x80004000
heap_words = 64
stack = 0x80008000
stack_words = 4
gates = [{ entry = 0x80000004, from = [\"b_2\"] }]
[[module]]
name = \"b_2\"
at = 0x80001000
perm = \"rx\"
words = [0x0000006F, 0x0000006F]
returns = [0x80001004]
[[module]]
name = \"c\"
at = 0x80002000
perm = \"rx\"
words = [0x00100073]
on_fault = \"kill\"
[[hart]]
module = \"a\"
[[hart]]
module = \"a\"
[[hart]]
module = \"c\"
[[hart]]
module = \"b_2\"
";

/// Two modules that call each other and never return.
pub const CIRCLE: &str = "version = 1
ram_kib = 64
[[module]]
name = \"a\"
at = 0x80000000
perm = \"rx\"
words = [0x800012B7, 0x000280E7, 0x00100073]
gates = [{ entry = 0x80000000, from = [\"b\"] }]
[[module]]
name = \"b\"
at = 0x80001000
perm = \"rx\"
words = [0x800002B7, 0x000280E7, 0x00100073]
gates = [{ entry = 0x80001000, from = [\"a\"] }]
[[hart]]
module = \"a\"
";

/// A module that allocates a word again and again.
pub const BLOCKS: &str = "version = 1
ram_kib = 64
[[module]]
name = \"m\"
at = 0x80000000
perm = \"rx\"
words = [0x00100513, 0x00600893, 0x00000073, 0xFF5FF06F]
heap = 0x80004000
heap_words = 2048
[[hart]]
module = \"m\"
";

/// A module that gives every second word of its stack area, which ends where RAM ends, to another.
pub const OWNERS: &str = "version = 1
ram_kib = 64
[[module]]
name = \"a\"
at = 0x80000000
perm = \"rx\"
words = [0x8000C437, 0x01040413, 0x800104B7, 0x00400593, 0x00200613, 0x00500893, 0x00040513, 0x00000073, 0x00840413, 0xFE941AE3, 0x0000006F]
stack = 0x8000C00C
stack_words = 4093
[[module]]
name = \"b\"
at = 0x8000002C
perm = \"rx\"
words = [0x0000006F]
[[hart]]
module = \"a\"
";

/// The first lines of a manifest whose first module has a gate at each word of its heap area.
const GATED: &str = "version = 1
ram_kib = 64
[[module]]
name = \"a\"
at = 0x80000000
perm = \"rx\"
words = [0x0000006F]
heap = 0x80004000
heap_words = 256
gates = [";

/// Its last lines.
const GATING: &str = "]
[[module]]
name = \"b\"
at = 0x80001000
perm = \"rx\"
words = [0x0000006F]
[[hart]]
module = \"a\"
";

/// A manifest with 256 gates.
pub fn gates(alloc: Global) -> Result<String, Fail> {
    let mut text = String::new(alloc);
    text.push_str(GATED)?;
    for i in 0..256_u32 {
        let entry = 0x8000_4000 + 4 * i;
        let gate = format!(in alloc; "{{ entry = {entry}, from = [\"b\"] }},")?;
        text.push_str(gate.as_str())?;
    }
    text.push_str(GATING)?;
    Ok(text)
}
