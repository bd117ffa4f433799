//! A list of bytes.
ghost use Rattle.std.specs.Prelude.{◌≡◌, ◌+◌, ◌<◌, ◌≤◌, ◌^◌, ◌++◌, [], ◌∷◌, List, length, IfOk, OnOk, OnErr};
ghost use Rattle.std.specs.Prelude.{slice_index, ℕ};

use crate::NoMemory;
use std::alloc::Global;
use std::marker::Model;

/// A list of bytes, as a file's content or an image.
#[derive(Drop)]
pub struct Blob {
    items: Vec<u8>,
}

impl Model for Blob {
    ghost Value = { List ℕ };

    ghost view = { λ s. s.items.items };

    ghost invariant = { λ s. length s.items.items ≤ 2 ^ 31 };
}

impl Blob {
    /// An empty list.
    pub fn new(alloc: Global) -> Blob
        ensures { result ≡ [] }
    {
        Blob {
            items: Vec::new(alloc),
        }
    }

    /// The bytes of a vector, at most 2^31, which are not copied.
    pub fn from_vec(items: Vec<u8>) -> Blob
        requires { length items.items ≤ 2 ^ 31 }
        ensures { result ≡ items.items }
    {
        Blob { items }
    }

    /// An empty list with memory for `count` bytes.
    pub fn with_capacity(alloc: Global, count: u32) -> Result<Blob, NoMemory>
        ensures { IfOk result (λ blob. blob ≡ []) }
    {
        let items = Vec::with_capacity(alloc, count as usize)?;
        Ok(Blob { items })
    }

    /// Appends a byte. The list holds fewer than 2^31 bytes. Where memory is refused, it stays as it was.
    pub fn push(&mut self, item: u8) -> Result<(), NoMemory>
        requires { length self.old < 2 ^ 31 }
        ensures ok { OnOk result (self.new ≡ self.old ++ item ∷ []) }
        ensures err { OnErr result (self.new ≡ self.old) }
    {
        self.items.push(item)?;
        Ok(())
    }

    /// Appends bytes in one piece. The list then holds at most 2^31 bytes. Where memory is refused, it stays as it was.
    pub fn extend_from_slice(&mut self, items: &[u8]) -> Result<(), NoMemory>
        requires { length self.old + length items.now ≤ 2 ^ 31 }
        ensures ok { OnOk result (self.new ≡ self.old ++ items.now) }
        ensures err { OnErr result (self.new ≡ self.old) }
    {
        self.items.extend_from_slice(items)?;
        Ok(())
    }

    /// The number of bytes.
    pub fn len(&self) -> u32
        ensures { result ≡ length self.now }
    {
        self.items.len() as u32
    }

    /// The byte at place `i`, counted from 0 and below `len`.
    pub fn get(&self, i: u32) -> u8
        requires { i < length self.now }
        ensures { result ≡ slice_index self.now i }
    {
        self.items[i as usize]
    }

    /// All bytes, in order.
    pub fn as_slice(&self) -> &[u8]
        ensures { result.now ≡ self.now }
    {
        self.items.as_slice()
    }
}
