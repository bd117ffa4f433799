//! Bytes that were heard, as packets.
ghost use Rattle.std.specs.Prelude.{◌≡◌, ◌==◌};
ghost use Rattle.mx_packets.specs.declared.receiver.Place.TheVariants as P;
ghost use Rattle.mx_packets.specs.Packets.{after, begins, begun, by_digits, by_first, digit_of, first_digit, flipped};
ghost use Rattle.mx_packets.specs.Packets.{heard, none_gathered, summed, with_byte, within};

use crate::digit::hex_value;
use arrayvec::ArrayVec;
use std::marker::Model;

/// The most bytes of a packet or of an answer, without its frame.
pub(crate) const MOST_PACKET: usize = 4096;

/// Where in a packet one stands.
#[derive(Clone, Copy)]
pub enum Place {
    /// Outside of packets.
    Outside,
    /// Within a packet.
    Within,
    /// Within a packet, behind the byte that changes the next one.
    Escaped,
    /// Behind the byte that ends a packet.
    Ended,
    /// Behind the first digit of a packet's sum.
    Half(u8),
}

/// What a byte completed.
#[derive(Clone, Copy, PartialEq, Eq)]
pub enum Heard {
    /// Nothing.
    Nothing,
    /// A packet, which is kept.
    Packet,
    /// A packet of more than 4096 bytes.
    Long,
    /// A packet whose sum is wrong.
    Wrong,
}

/// A packet as far as it was heard.
#[derive(Drop)]
pub struct Receiver {
    place: Place,
    bytes: ArrayVec<u8, MOST_PACKET>,
    total: u8,
    over: bool,
}

impl Model for Receiver {
    ghost use Rattle.std.specs.Prelude.{length, ◌≤◌};
    ghost use Rattle.mx_packets.specs.Packets.{Gathered, most_packet};

    ghost Value = { Gathered };

    ghost view = { λ r. record { place = r.place; body = r.bytes.items; checksum = r.total; long = r.over } };

    ghost invariant = { λ r. length r.bytes.items ≤ most_packet };
}

impl Receiver {
    /// Nothing was heard.
    pub fn new() -> Receiver
        ensures { result ≡ none_gathered }
    {
        Receiver {
            place: Place::Outside,
            bytes: ArrayVec::new(),
            total: 0,
            over: false,
        }
    }

    /// Hears a byte.
    pub fn take(&mut self, byte: u8) -> Heard
        ensures after { self.new ≡ after self.old byte }
        ensures heard { result ≡ heard self.old byte }
    {
        match self.place {
            Place::Outside => {
                self.begin_at(byte);
                Heard::Nothing
            }
            Place::Within => {
                self.gather(byte);
                Heard::Nothing
            }
            Place::Escaped => {
                self.total = self.total.wrapping_add(byte);
                self.place = Place::Within;
                self.keep(flipped(byte));
                Heard::Nothing
            }
            Place::Ended => self.first_digit(byte),
            Place::Half(first) => self.second_digit(first, byte),
        }
    }

    // Outside of packets.
    fn begin_at(&mut self, byte: u8)
        requires { self.old.place ≡ P.Outside }
        ensures { self.new ≡ begins self.old byte }
    {
        if byte == b'$' {
            self.begin();
        }
    }

    // A packet begins.
    fn begin(&mut self)
        ensures { self.new ≡ begun }
    {
        self.place = Place::Within;
        self.bytes.clear();
        self.total = 0;
        self.over = false;
    }

    // Within a packet.
    fn gather(&mut self, byte: u8)
        requires { self.old.place ≡ P.Within }
        ensures { self.new ≡ within self.old byte }
    {
        match byte {
            b'$' => self.begin(),
            b'#' => self.place = Place::Ended,
            b'}' => {
                self.total = self.total.wrapping_add(byte);
                self.place = Place::Escaped;
            }
            _ => {
                self.total = self.total.wrapping_add(byte);
                self.keep(byte);
            }
        }
    }

    // One more byte is meant.
    fn keep(&mut self, byte: u8)
        ensures { self.new ≡ with_byte self.old byte }
    {
        if self.bytes.len() < MOST_PACKET {
            self.bytes.push(byte);
        } else {
            self.over = true;
        }
    }

    // Behind the end of a packet.
    fn first_digit(&mut self, byte: u8) -> Heard
        ensures after { self.new ≡ first_digit self.old (digit_of byte) }
        ensures heard { result ≡ by_first (digit_of byte) }
    {
        match hex_value(byte) {
            Some(digit) => {
                self.place = Place::Half(digit);
                Heard::Nothing
            }
            None => {
                self.place = Place::Outside;
                Heard::Wrong
            }
        }
    }

    // Behind the first digit of a packet's sum.
    fn second_digit(&mut self, first: u8, byte: u8) -> Heard
        ensures after { self.new ≡ record self.old { place = P.Outside } }
        ensures heard { result ≡ by_digits self.old first (digit_of byte) }
    {
        self.place = Place::Outside;
        match hex_value(byte) {
            Some(second) => self.by_sum(16 * u16::from(first) + u16::from(second)),
            None => Heard::Wrong,
        }
    }

    // By the sum that came.
    fn by_sum(&self, came: u16) -> Heard
        ensures { result ≡ summed self.now (came == self.now.checksum) }
    {
        if came != u16::from(self.total) {
            Heard::Wrong
        } else if self.over {
            Heard::Long
        } else {
            Heard::Packet
        }
    }

    /// The bytes of the packet that was heard last, as they were meant.
    pub fn packet(&self) -> &[u8]
        ensures { result.now ≡ self.now.body }
    {
        self.bytes.as_slice()
    }
}

// A byte with its bit 5 changed.
pub(crate) fn flipped(byte: u8) -> u8
    ensures { result ≡ flipped byte }
{
    if byte / 32 % 2 == 0 {
        byte + 32
    } else {
        byte - 32
    }
}
