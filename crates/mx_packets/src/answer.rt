//! An answer, and its packet.
ghost use Rattle.std.specs.Prelude.{◌≡◌, ◌≤◌, ◌<◌, ◌+◌, ◌%◌, [], ◌∷◌, ◌++◌, length, sum};
ghost use Rattle.mx_io.specs.Piece.{hex_digit};
ghost use Rattle.mx_packets.specs.Frames.{cut, pair};
ghost use Rattle.mx_packets.specs.Packets.{most_packet};
ghost use Rattle.mx_packets.specs.Streams.{escaped, is_special, sent};

use crate::receiver::{MOST_PACKET, flipped};
use arrayvec::ArrayVec;
use std::marker::Model;

/// The packet of an answer.
pub type Packet = ArrayVec<u8, 8200>;

/// The text of an answer: its first 4096 bytes.
#[derive(Drop)]
pub struct Answer {
    bytes: ArrayVec<u8, MOST_PACKET>,
}

impl Model for Answer {
    ghost use Rattle.std.specs.Prelude.{ℕ, List, length, ◌≤◌};
    ghost use Rattle.mx_packets.specs.Packets.{most_packet};

    ghost Value = { List ℕ };

    ghost view = { λ a. a.bytes.items };

    ghost invariant = { λ a. length a.bytes.items ≤ most_packet };
}

impl Answer {
    /// Nothing yet.
    pub fn new() -> Answer
        ensures { result ≡ [] }
    {
        Answer {
            bytes: ArrayVec::new(),
        }
    }

    /// Nothing any more.
    pub fn clear(&mut self)
        ensures { self.new ≡ [] }
    {
        self.bytes.clear();
    }

    /// Adds a byte.
    pub fn push(&mut self, byte: u8)
        ensures { self.new ≡ cut (self.old ++ byte ∷ []) }
    {
        if self.bytes.len() < MOST_PACKET {
            self.bytes.push(byte);
        }
    }

    /// Adds bytes.
    pub fn put(&mut self, bytes: &[u8])
        ensures { self.new ≡ cut (self.old ++ bytes.now) }
    {
        let _held = &self.bytes;
        for byte in bytes {
            self.push(*byte);
        }
    }

    /// Adds a byte as two digits.
    pub fn put_pair(&mut self, byte: u8)
        ensures { self.new ≡ cut (self.old ++ pair byte) }
    {
        self.put(&digits(byte));
    }

    /// The text.
    pub fn text(&self) -> &[u8]
        ensures text { result.now ≡ self.now }
        ensures few { length self.now ≤ most_packet }
    {
        self.bytes.as_slice()
    }
}

// A byte as two digits.
fn digits(byte: u8) -> [u8; 2]
    ensures { result ≡ pair byte }
{
    [digit(byte / 16), digit(byte % 16)]
}

fn digit(digit: u8) -> u8
    requires { digit < 16 }
    ensures { result ≡ hex_digit digit }
{
    if digit < 10 {
        b'0' + digit
    } else {
        b'a' - 10 + digit
    }
}

/// The packet of an answer: the bytes that would change its meaning are escaped.
pub fn framed(body: &[u8]) -> Packet
    requires { length body.now ≤ most_packet }
    ensures { result.items ≡ sent body.now }
{
    let mut packet = ArrayVec::new();
    let mut total: u8 = 0;
    packet.push(b'$');
    for byte in body {
        total = put_escaped(&mut packet, *byte, total);
    }
    packet.push(b'#');
    let [first, second] = digits(total);
    packet.push(first);
    packet.push(second);
    packet
}

// Adds a byte of a packet, escaped where it has to be, and tells the sum of the packet's bytes.
fn put_escaped(packet: &mut Packet, byte: u8, total: u8) -> u8
    requires { length packet.old.items + 2 ≤ 8200 }
    ensures items { packet.new.items ≡ packet.old.items ++ escaped byte }
    ensures checksum { result ≡ (total + sum (escaped byte)) % 256 }
{
    if is_special(byte) {
        packet.push(b'}');
        packet.push(flipped(byte));
        total.wrapping_add(b'}').wrapping_add(flipped(byte))
    } else {
        packet.push(byte);
        total.wrapping_add(byte)
    }
}

// Whether a byte has a meaning of its own in a packet.
fn is_special(byte: u8) -> bool
    ensures { result ≡ is_special byte }
{
    byte == b'#' || byte == b'$' || byte == b'*' || byte == b'}'
}
