//! Pieces of text, of which lines are put together.
ghost use Rattle.std.specs.Prelude.{◌≡◌, ◌<◌};
ghost use Rattle.mx_io.specs.Piece.{shown_character, hex_digit, hex_digits, hex_number};

/// A part of a line.
#[derive(Clone, Copy)]
pub enum Piece<'a> {
    /// The text as it stands.
    Text(&'a str),
    /// A name, with `?` in place of each control character: U+0000 to U+001F and U+007F to U+009F.
    Name(&'a str),
    /// The number in decimal, without leading zeros.
    Number(u64),
    /// The number in decimal, without leading zeros, after a minus sign where it is below 0.
    Signed(i32),
    /// `0x` and eight lower-case hexadecimal digits.
    Hex(u32),
    /// Eight lower-case hexadecimal digits.
    Digits(u32),
}

/// A character as a name shows it: `?` in place of a control character.
pub fn shown_character(character: char) -> char
    ensures { result ≡ shown_character character }
{
    if character.is_control() {
        '?'
    } else {
        character
    }
}

fn hex_digit(digit: u32) -> u8
    requires { digit < 16 }
    ensures { result ≡ hex_digit digit }
{
    let digit = digit as u8;
    if digit < 10 {
        b'0' + digit
    } else {
        b'a' - 10 + digit
    }
}

/// The eight lower-case hexadecimal digits of a number, as ASCII.
pub fn hex_digits(number: u32) -> [u8; 8]
    ensures { result ≡ hex_digits number }
{
    [
        hex_digit(number / 0x1000_0000 % 16),
        hex_digit(number / 0x100_0000 % 16),
        hex_digit(number / 0x10_0000 % 16),
        hex_digit(number / 0x1_0000 % 16),
        hex_digit(number / 0x1000 % 16),
        hex_digit(number / 0x100 % 16),
        hex_digit(number / 0x10 % 16),
        hex_digit(number % 16),
    ]
}

/// The same after `0x`.
pub fn hex_number(number: u32) -> [u8; 10]
    ensures { result ≡ hex_number number }
{
    let [a, b, c, d, e, f, g, h] = hex_digits(number);
    [b'0', b'x', a, b, c, d, e, f, g, h]
}
