//! RAM as a list of bytes.
ghost use Rattle.std.specs.Prelude.{◌≡◌, ℕ, ◌+◌, ◌*◌, ◌%◌, ◌^◌, ◌<◌, ◌≤◌, List, length, replicate, slice_index};
ghost use Rattle.std.specs.Prelude.{slice_range, IfOk};
ghost use Rattle.mx_words.specs.Bytes.{IsSize, number_at, put_at, cleared_at};
ghost use Rattle.mx_words.specs.Ranges.{most_words};
ghost use Rattle.mx_memory.specs.Places.{place_of, IsInside};

use mx_words::{NoMemory, RAM_BASE};
use std::alloc::Global;
use std::marker::Model;

/// RAM: a list of bytes, of which the first has the address 0x80000000. Numbers lie in it
/// little-endian (RISC-V unprivileged manual 20191213, 1.4).
#[derive(Drop)]
pub struct Ram {
    bytes: Vec<u8>,
}

impl Model for Ram {
    ghost Value = { List ℕ };

    ghost view = { λ ram. ram.bytes.items };
}

impl Ram {
    /// RAM of so many words, at most 2^24, all of them zero.
    pub fn new(alloc: Global, words: u32) -> Result<Ram, NoMemory>
        requires { words ≤ most_words }
        ensures { IfOk result (λ ram. ram ≡ replicate (4 * words) 0) }
    {
        let bytes = vec![in alloc; 0u8; 4 * words as usize]?;
        Ok(Ram { bytes })
    }

    /// RAM that holds these bytes, at most 2^26: a copy.
    pub fn of(alloc: Global, bytes: &[u8]) -> Result<Ram, NoMemory>
        requires { length bytes.now ≤ 2 ^ 26 }
        ensures { IfOk result (λ ram. ram ≡ bytes.now) }
    {
        let bytes = Vec::from_slice(alloc, bytes)?;
        Ok(Ram { bytes })
    }

    /// The number that the 1, 2 or 4 bytes at an address hold. The address is a multiple of the
    /// size, and the bytes lie in RAM.
    #[tactic(auto, unfolding(mx_words::specs::Bytes::number_at))]
    pub fn load(&self, addr: u32, size: u32) -> u32
        requires size { IsSize size }
        requires aligned { addr % size ≡ 0 }
        requires inside { IsInside self.now addr size }
        ensures number { result ≡ number_at self.now (place_of addr) size }
        ensures below { result < 256 ^ size }
    {
        let at = (addr - RAM_BASE) as usize;
        let bytes = self.bytes.as_slice();
        match size {
            1 => u32::from(bytes[at]),
            2 => u32::from(u16::from_le_bytes([bytes[at], bytes[at + 1]])),
            _ => u32::from_le_bytes([bytes[at], bytes[at + 1], bytes[at + 2], bytes[at + 3]]),
        }
    }

    /// Puts the low 1, 2 or 4 bytes of a number at an address. The address is a multiple of the
    /// size, and the bytes lie in RAM.
    #[tactic(auto, unfolding(mx_words::specs::Bytes::put_at))]
    pub fn store(&mut self, addr: u32, size: u32, value: u32)
        requires size { IsSize size }
        requires aligned { addr % size ≡ 0 }
        requires inside { IsInside self.old addr size }
        ensures bytes { self.new ≡ put_at self.old (place_of addr) size value }
        ensures size { length self.new ≡ length self.old }
    {
        let at = (addr - RAM_BASE) as usize;
        let bytes = self.bytes.as_mut_slice();
        match size {
            1 => put_byte(bytes, at, value),
            2 => put_half(bytes, at, value),
            _ => put_word(bytes, at, value),
        }
    }

    /// The number that word i holds. The word lies in RAM.
    #[tactic(auto, unfolding(mx_words::specs::Bytes::number_at))]
    pub fn word(&self, i: u32) -> u32
        requires { 4 * i + 4 ≤ length self.now }
        ensures { result ≡ number_at self.now (4 * i) 4 }
    {
        let at = 4 * i as usize;
        let bytes = self.bytes.as_slice();
        u32::from_le_bytes([bytes[at], bytes[at + 1], bytes[at + 2], bytes[at + 3]])
    }

    /// The byte at a place, counted from 0. The place lies in RAM.
    pub fn byte(&self, at: u32) -> u8
        requires { at < length self.now }
        ensures { result ≡ slice_index self.now at }
    {
        self.bytes[at as usize]
    }

    /// The `count` bytes from place `first` on. They end in RAM.
    pub fn bytes(&self, first: u32, count: u32) -> &[u8]
        requires { first + count ≤ length self.now }
        ensures { result.now ≡ slice_range self.now first (first + count) }
    {
        let first = first as usize;
        &self.bytes[first..first + count as usize]
    }

    /// Makes so many words zero, from word `first` on. They lie in RAM.
    #[tactic(auto, unfolding(mx_words::specs::Bytes::cleared_at))]
    pub fn clear_words(&mut self, first: u32, count: u32)
        requires { 4 * first + 4 * count ≤ length self.old }
        ensures bytes { self.new ≡ cleared_at self.old (4 * first) (4 * count) }
        ensures size { length self.new ≡ length self.old }
    {
        let at = 4 * first as usize;
        let part = &mut self.bytes[at..at + 4 * count as usize];
        part.fill(0);
    }
}

/// A law: RAM holds numbers of bytes, each below 256. A machine's state is valid only with such a RAM.
pub fn bytes_of(ram: &Ram)
    ensures { (i : ℕ) → slice_index ram.now i < 256 }
{
    are_small(ram.bytes.as_slice());
}

/// What the type of bytes says of them.
fn are_small(bytes: &[u8])
    ensures { (i : ℕ) → slice_index bytes.now i < 256 }
{}

#[tactic(auto, unfolding(mx_words::specs::Bytes::put_at))]
fn put_byte(bytes: &mut [u8], at: usize, value: u32)
    requires { at + 1 ≤ length bytes.old }
    ensures { bytes.new ≡ put_at bytes.old at 1 value }
{
    bytes[at] = (value & 0xFF) as u8;
}

#[tactic(auto, unfolding(mx_words::specs::Bytes::put_at))]
fn put_half(bytes: &mut [u8], at: usize, value: u32)
    requires { at + 2 ≤ length bytes.old }
    ensures { bytes.new ≡ put_at bytes.old at 2 value }
{
    let half = (value & 0xFFFF) as u16;
    let part = &mut bytes[at..at + 2];
    part.copy_from_slice(&half.to_le_bytes());
}

#[tactic(auto, unfolding(mx_words::specs::Bytes::put_at))]
fn put_word(bytes: &mut [u8], at: usize, value: u32)
    requires { at + 4 ≤ length bytes.old }
    ensures { bytes.new ≡ put_at bytes.old at 4 value }
{
    let part = &mut bytes[at..at + 4];
    part.copy_from_slice(&value.to_le_bytes());
}
