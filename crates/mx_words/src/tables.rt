//! Kinds of permission tables, what they need, and what they store.

/// The form in which the permissions of all domains are stored.
#[derive(Clone, Copy, PartialEq, Eq, Debug)]
pub enum Kind {
    /// Sorted runs per domain.
    Segments,
    /// A trie of root, mid and leaf tables with plain leaf entries.
    Multilevel,
    /// The same trie with leaf entries that reach over their line's edges.
    Packed,
}

/// What tables take of their three stores.
#[derive(Clone, Copy, PartialEq, Eq, Debug)]
pub struct Need {
    /// Frames of 1024 words.
    pub upper: u32,
    /// Frames of 64 words.
    pub leaf: u32,
    /// Spill words.
    pub spill: u32,
}

/// Where a stored item stands in its tables.
#[derive(Clone, Copy, PartialEq, Eq, Debug)]
pub enum Level {
    /// An entry of a sorted list of runs.
    Segment,
    /// The vector of a region of 2^20 words.
    Root,
    /// The vector of a page of 1024 words.
    Mid,
    /// The entry of a line of 16 words.
    Leaf,
    /// The spill word of a line.
    Spill,
}

/// A stored item and the RAM words that it stands for: `first` to `first + count - 1`.
#[derive(Clone, Copy, PartialEq, Eq, Debug)]
pub struct Shown {
    /// Where the item stands.
    pub level: Level,
    /// The number of its first RAM word.
    pub first: u32,
    /// How many RAM words it stands for.
    pub count: u32,
    /// Its 32 bits.
    pub stored: u32,
}
