//! The limits of a machine, and of what it is made from. They are the definitions' (specs/Limits), by proofs/Constants.

/// The greatest number of words of a RAM, which has 64 MiB.
pub const MOST_WORDS: u32 = 0x100_0000;

/// The greatest number of modules, which are the protection domains 1 to 63.
pub const MOST_MODULES: usize = 63;

/// The greatest number of protection domains: the supervisor's, which is 0, and one for each module.
pub const MOST_DOMAINS: usize = MOST_MODULES + 1;

/// The greatest number of harts.
pub const MOST_HARTS: usize = 4;

/// The greatest number of gates that stand at once.
pub const MOST_GATES: usize = 256;

/// The greatest number of frames on the cross stack of one hart.
pub const MOST_FRAMES: usize = 64;

/// The greatest number of spans that the lookaside buffer of one hart keeps.
pub const MOST_KEPT: usize = 64;

/// The greatest number of blocks that live in one heap.
pub const MOST_BLOCKS: usize = 1024;

/// The greatest number of maximal runs of words with one owner, over all words of RAM.
pub const MOST_OWNER_RUNS: usize = 4096;

/// The greatest number of bytes that one call writes to the console.
pub const MOST_WRITTEN: usize = 4096;

/// The least size of a RAM in KiB.
pub const LEAST_RAM_KIB: u32 = 64;

/// The greatest size of a RAM in KiB.
pub const MOST_RAM_KIB: u32 = 65_536;

/// The greatest limit of upper tables.
pub const MOST_UPPER: u32 = 4096;

/// The greatest limit of leaf frames.
pub const MOST_LEAF: u32 = 262_144;

/// The greatest limit of spill words.
pub const MOST_SPILL: u32 = 1_048_576;

/// The greatest number of turns that a hart has in a row.
pub const MOST_QUANTUM: u32 = 1_000_000;

/// The greatest number of words that a manifest gives a module.
pub const MOST_INLINE_WORDS: u32 = 65_536;

/// The greatest number of words of a hart's stack in a module.
pub const MOST_STACK_WORDS: u32 = 1_048_576;

/// The greatest number of segments of an image.
pub const MOST_SEGMENTS: usize = 16;

/// The greatest number of bytes that a source gives its segments.
pub const MOST_SEGMENT_BYTES: u64 = 0x40_0000;

/// The greatest number of bytes of a manifest or of a source.
pub const MOST_TEXT_BYTES: u64 = 1_048_576;

/// The greatest number of bytes of an image or of a schedule.
pub const MOST_FILE_BYTES: u64 = 16_777_216;

/// The greatest number of bytes of a snapshot.
pub const MOST_SNAPSHOT_BYTES: u64 = 1_073_741_824;
