//! Live blocks and heap areas, and the refusals of a heap.

/// Why a heap has no place for a block.
#[derive(Clone, Copy, PartialEq, Eq, Debug)]
pub enum HeapError {
    /// No free words in a row are enough.
    NoRoom,
    /// There is room, and 1024 blocks live already.
    BlocksFull,
}

/// A run of RAM words, `first` to `first + count - 1`: a live block, which has at least one word, or a heap area, (0,
/// 0) for none.
#[derive(Clone, Copy, PartialEq, Eq, Debug)]
pub struct Block {
    /// The number of its first word, 0 to 2^24 - 1.
    pub first: u32,
    /// The number of words, 0 only for no heap area.
    pub count: u32,
}
