//! A segment of an image.

/// A part of memory that a file asks to load: its program header of type PT_LOAD (System V gABI, "Program Header").
#[derive(Clone, Copy, PartialEq, Eq, Debug, Default)]
pub struct Seg {
    /// Where its bytes stand in the file, in bytes from the file's start.
    pub offset: u32,
    /// How many bytes the file has of it.
    pub file: u32,
    /// The address of its first byte in memory.
    pub address: u32,
    /// How many bytes it has in memory; those that the file doesn't have are zero.
    pub memory: u32,
    /// Its flags: bit 0 executable, bit 1 writable, bit 2 readable.
    pub flags: u32,
}
