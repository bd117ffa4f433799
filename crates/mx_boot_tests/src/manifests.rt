//! The manifest that tests of several crates boot.

/// A module of three words that exit with 5, on one hart, in 64 KiB of RAM.
pub const THREE_WORDS: &str = "version = 1
ram_kib = 64
[[module]]
name = \"m\"
at = 0x80000000
perm = \"rx\"
words = [0x00100893, 0x00500513, 0x00000073]
[[hart]]
module = \"m\"
";
