//! A part of a text, gathered while the text is put together, so that no text is ever held whole.

ghost use Rattle.std.specs.Prelude.{◌≡◌, ◌≤◌, drop, length};
ghost use Rattle.mx_debug_texts.specs.Pieces.{piece_text, pieces_text, short_digits, xml_byte, xml_text, zeros};
ghost use Rattle.mx_debug_texts.specs.Window.{further, part_from, with_held};

use arrayvec::ArrayVec;
use itoa::Buffer;
use mx_io::{hex_digits, hex_number};
use std::marker::Model;

/// The most bytes of a part.
const MOST: usize = 4096;

/// A piece of a text.
#[derive(Clone, Copy)]
pub enum Piece<'a> {
    /// The text as it stands.
    Text(&'a str),
    /// The bytes as they stand.
    Bytes(&'a [u8]),
    /// The number in decimal.
    Number(u64),
    /// `0x` and eight hexadecimal digits.
    Hex(u32),
    /// The hexadecimal digits without leading zeros.
    Short(u32),
    /// A text as XML has it between quotation marks.
    Xml(&'a str),
}

/// A part of a text that is put piece by piece: at most so many bytes from a place on.
#[derive(Drop)]
pub struct Window {
    skip: u32,
    most: u32,
    bytes: ArrayVec<u8, MOST>,
    over: bool,
}

impl Model for Window {
    ghost use Rattle.std.specs.Prelude.{length, ◌≤◌};
    ghost use Rattle.mx_debug_texts.specs.Window.{Part};

    ghost Value = { Part };

    ghost view = { λ w. record { skip = w.skip; most = w.most; held = w.bytes.items; over = w.over } };

    ghost invariant = { λ w. record {
      held : length w.bytes.items ≤ w.most;
      most : w.most ≤ 4096;
    } };
}

impl Window {
    /// The part of at most so many bytes from a place on, before the text is put.
    pub fn new(at: u32, most: u32) -> Window
        requires { most ≤ 4096 }
        ensures { result ≡ part_from at most }
    {
        Window {
            skip: at,
            most,
            bytes: ArrayVec::new(),
            over: false,
        }
    }

    /// The bytes of the part.
    pub fn bytes(&self) -> &[u8]
        ensures { result.now ≡ self.now.held }
    {
        self.bytes.as_slice()
    }

    /// Whether more of the text follows the part.
    pub fn is_over(&self) -> bool
        ensures { result ≡ self.now.over }
    {
        self.over
    }

    /// Puts bytes.
    #[tactic(auto, unfolding(crate::specs::Window::further))]
    pub fn put(&mut self, bytes: &[u8])
        ensures { self.new ≡ further self.old bytes.now }
    {
        let passed = (self.skip as usize).min(bytes.len());
        self.skip -= passed as u32;
        self.hold(&bytes[passed..]);
    }

    // Holds those bytes that there is room for.
    #[tactic(auto, unfolding(crate::specs::Window::with_held))]
    fn hold(&mut self, bytes: &[u8])
        ensures { self.new ≡ with_held self.old bytes.now }
    {
        let room = self.most as usize - self.bytes.len();
        let count = room.min(bytes.len());
        if count < bytes.len() {
            self.over = true;
        }
        let _ = self.bytes.try_extend_from_slice(&bytes[..count]);
    }

    /// Puts pieces, one after another.
    pub fn put_pieces(&mut self, pieces: &[Piece<'_>])
        ensures { self.new ≡ further self.old (pieces_text pieces.now) }
    {
        for piece in pieces {
            self.put_piece(piece);
        }
    }

    fn put_piece(&mut self, piece: &Piece<'_>)
        ensures { self.new ≡ further self.old (piece_text piece.now) }
    {
        match *piece {
            Piece::Text(text) => self.put(text.as_bytes()),
            Piece::Bytes(bytes) => self.put(bytes),
            Piece::Number(number) => self.put(Buffer::new().format(number).as_bytes()),
            Piece::Hex(number) => self.put(&hex_number(number)),
            Piece::Short(number) => self.put_short(number),
            Piece::Xml(text) => self.put_xml(text.as_bytes()),
        }
    }

    // Puts hexadecimal digits without leading zeros.
    #[tactic(auto, unfolding(crate::specs::Pieces::short_digits))]
    fn put_short(&mut self, number: u32)
        ensures { self.new ≡ further self.old (short_digits number) }
    {
        let digits = hex_digits(number);
        let first = zeros(&digits).min(7);
        self.put(&digits[first..]);
    }

    // Puts bytes as XML has them.
    fn put_xml(&mut self, bytes: &[u8])
        ensures { self.new ≡ further self.old (xml_text bytes.now) }
    {
        for byte in bytes {
            self.put_xml_byte(*byte);
        }
    }

    fn put_xml_byte(&mut self, byte: u8)
        ensures { self.new ≡ further self.old (xml_byte byte) }
    {
        match byte {
            b'"' => self.put(b"&quot;"),
            b'&' => self.put(b"&amp;"),
            b'<' => self.put(b"&lt;"),
            b'>' => self.put(b"&gt;"),
            _ => self.put(&[byte]),
        }
    }
}

// How many zeros a text begins with.
fn zeros(text: &[u8]) -> usize
    ensures count { result ≡ zeros text.now }
    ensures within { result ≤ length text.now }
{
    match text.split_first() {
        Some((byte, rest)) => { if *byte == b'0' { 1 + zeros(rest) } else { 0 } }
        None => 0,
    }
}
