//! A segment of a program.

use mx_words::Blob;

/// A part of memory with its bytes. One without bytes has no place in an image.
#[derive(Drop)]
pub struct Segment {
    /// The address of its first byte; a multiple of 4.
    pub address: u32,
    /// Its flags: bit 0 executable, bit 1 writable, bit 2 readable.
    pub flags: u32,
    /// Its bytes, in order.
    pub bytes: Blob,
}
