//! A text of few bytes, put together before it is put anywhere.
ghost use Rattle.std.specs.Prelude.{◌≡◌, ◌+◌, ◌≤◌, [], ◌++◌, length, decimal};
ghost use Rattle.std.specs.Fmt.{signed_decimal};
ghost use Rattle.mx_io.specs.Piece.{hex_number};

use itoa::write_digits;
use mx_io::hex_number;
use std::marker::Model;

/// A text of at most N bytes, put together from its end to its start: what is put stands before what is there. So the
/// digits of a
/// number are written where they stay, and a line leaves at once.
#[derive(Drop)]
pub(crate) struct Line<const N: usize> {
    bytes: [u8; N],
    start: usize,
}

impl<const N: usize> Model for Line<N> {
    ghost use Rattle.std.specs.Prelude.{ℕ, List, ◌≤◌, drop};

    ghost Value = { List ℕ };

    ghost view = { λ l. drop l.start l.bytes };

    ghost invariant = { λ l. l.start ≤ N };
}

impl<const N: usize> Line<N> {
    /// Nothing is there.
    #[inline(always)]
    pub fn new() -> Self
        ensures { result ≡ [] }
    {
        Line {
            bytes: [0; N],
            start: N,
        }
    }

    /// What is there.
    #[inline(always)]
    pub fn as_slice(&self) -> &[u8]
        ensures { result.now ≡ self.now }
    {
        let whole = &self.bytes[..];
        &whole[self.start..]
    }

    /// How many bytes are there.
    #[inline(always)]
    pub fn len(&self) -> usize
        ensures { result ≡ length self.now }
    {
        N - self.start
    }

    /// Puts a text before what is there.
    #[inline(always)]
    pub fn put_text(&mut self, text: &str)
        requires { length text.now + length self.old ≤ N }
        ensures { self.new ≡ text.now ++ self.old }
    {
        self.put_bytes(text.as_bytes());
    }

    /// Puts a number before what is there, in decimal.
    #[inline]
    pub fn put_long(&mut self, number: u64)
        requires { 20 + length self.old ≤ N }
        ensures text { self.new ≡ decimal number ++ self.old }
        ensures few { length self.new ≤ 20 + length self.old }
    {
        self.start = write_digits(number, &mut self.bytes, self.start);
    }

    /// Puts a number of 32 bits before what is there, in decimal.
    #[inline]
    pub fn put_number(&mut self, number: u32)
        requires { 10 + length self.old ≤ N }
        ensures text { self.new ≡ decimal number ++ self.old }
        ensures few { length self.new ≤ 10 + length self.old }
    {
        self.start = write_digits(number as u64, &mut self.bytes, self.start);
    }

    /// Puts a signed number before what is there, in decimal after a minus sign where it is below 0.
    #[inline]
    pub fn put_signed(&mut self, number: i32)
        requires { 11 + length self.old ≤ N }
        ensures text { self.new ≡ signed_decimal number ++ self.old }
        ensures few { length self.new ≤ 11 + length self.old }
    {
        self.put_number(number.unsigned_abs());
        if number < 0 {
            self.put_bytes(b"-");
        }
    }

    /// Puts `0x` and eight lower-case hexadecimal digits before what is there.
    #[inline]
    pub fn put_hex(&mut self, number: u32)
        requires { 10 + length self.old ≤ N }
        ensures text { self.new ≡ hex_number number ++ self.old }
        ensures few { length self.new ≤ 10 + length self.old }
    {
        self.put_bytes(&hex_number(number));
    }

    #[inline(always)]
    fn put_bytes(&mut self, bytes: &[u8])
        requires { length bytes.now + length self.old ≤ N }
        ensures { self.new ≡ bytes.now ++ self.old }
    {
        let end = self.start;
        let start = end - bytes.len();
        let whole = &mut self.bytes[..];
        whole[start..end].copy_from_slice(bytes);
        self.start = start;
    }
}
