//! Numbers as a source writes them.
ghost use Rattle.std.specs.Prelude.{◌≡◌, ◌≤◌, ◌<◌, ◌^◌, ◌+◌, ◌-◌, ◌%◌, length, fold, IfSome, nat_lt, if◌then◌else◌};
ghost use Rattle.std.specs.Char.{is_ascii_digit, is_ascii_hexdigit};
ghost use Rattle.std.specs.List.{list_all};
ghost use Rattle.mx_source.specs.Numbers.{decimal_step, hexadecimal_step, decimal_of, hexadecimal_of, plain_number};
ghost use Rattle.mx_source.specs.Numbers.{negative_number, number_of, fits, number_bits, difference, number_range};
ghost use Rattle.mx_source.specs.Numbers.{even_range};

/// A number: whether it stands after a `-`, and its digits' value. No statement takes a number of 2^33 or more; all of
/// them
/// count as 2^33.
#[derive(Clone, Copy)]
pub struct Number {
    /// Whether it stands after a `-`, which `-0` does too.
    pub negative: bool,
    /// The value of the digits, up to 2^33.
    pub magnitude: u64,
}

/// The numbers from `-low` to `high`, or the even ones of them.
#[derive(Clone, Copy)]
pub struct Range {
    /// The greatest magnitude after a `-`.
    pub low: u64,
    /// The greatest one without.
    pub high: u64,
    /// Whether only even numbers belong to the range.
    pub even: bool,
}

/// The number as which all greater ones count.
const GREATEST: u64 = 0x2_0000_0000;

/// The value of decimal digits.
#[tactic(auto, unfolding(crate::specs::Numbers::decimal_of))]
fn decimal(digits: &[u8]) -> Option<u64>
    ensures value { result ≡ decimal_of digits.now }
    ensures bound { IfSome result (λ n. n ≤ 2 ^ 33) }
{
    if digits.is_empty() || !are_decimal(digits) {
        return None;
    }
    Some(decimal_value(digits))
}

fn decimal_value(digits: &[u8]) -> u64
    ensures value { result ≡ fold decimal_step 0 digits.now }
    ensures bound { result ≤ 2 ^ 33 }
{
    let mut value = 0;
    'digits: for digit in digits {
        value = (10 * value + digit.saturating_sub(b'0') as u64).min(GREATEST);
    }
    value
}

/// Whether all characters are decimal digits.
fn are_decimal(digits: &[u8]) -> bool
    ensures { result ≡ list_all is_ascii_digit digits.now }
{
    digits.iter().all(|c| c.is_ascii_digit())
}

/// The value of 1 to 8 hexadecimal digits.
#[tactic(auto, unfolding(crate::specs::Numbers::hexadecimal_of))]
fn hexadecimal(digits: &[u8]) -> Option<u64>
    ensures value { result ≡ hexadecimal_of digits.now }
    ensures bound { IfSome result (λ n. n ≤ 2 ^ 33) }
{
    if digits.is_empty() || digits.len() > 8 || !are_hexadecimal(digits) {
        return None;
    }
    Some(hexadecimal_value(digits))
}

fn hexadecimal_value(digits: &[u8]) -> u64
    ensures value { result ≡ fold hexadecimal_step 0 digits.now }
    ensures bound { result ≤ 2 ^ 33 }
{
    let mut value = 0;
    'digits: for digit in digits {
        value = (16 * value + hexadecimal_digit(*digit)).min(GREATEST);
    }
    value
}

/// The value of a hexadecimal digit of either case.
fn hexadecimal_digit(digit: u8) -> u64
    ensures value { result ≡ (if nat_lt digit 58 then digit - 48 else digit % 32 + 9) }
    ensures bound { result < 256 }
{
    if digit < 58 {
        digit.saturating_sub(b'0') as u64
    } else {
        (digit % 32 + 9) as u64
    }
}

/// Whether all characters are hexadecimal digits.
fn are_hexadecimal(digits: &[u8]) -> bool
    ensures { result ≡ list_all is_ascii_hexdigit digits.now }
{
    digits.iter().all(|c| c.is_ascii_hexdigit())
}

/// A number at or above 0.
fn plain_number(magnitude: u64) -> Number
    ensures { result ≡ plain_number magnitude }
{
    Number {
        negative: false,
        magnitude,
    }
}

/// The number that a text is: `-` and decimal digits, `0x` and 1 to 8 hexadecimal ones, or decimal ones, of which there
/// is
/// at least one. `None` exactly where it is none of these.
#[tactic(auto, unfolding(crate::specs::Numbers::number_of))]
pub fn read_number(text: &[u8]) -> Option<Number>
    ensures value { result ≡ number_of text.now }
    ensures bound { IfSome result (λ n. n.magnitude ≤ 2 ^ 33) }
{
    if text.starts_with(b"-") {
        let magnitude = decimal(&text[1..])?;
        return Some(Number {
            negative: true,
            magnitude,
        });
    }
    if text.starts_with(b"0x") {
        return Some(plain_number(hexadecimal(&text[2..])?));
    }
    Some(plain_number(decimal(text)?))
}

/// Whether a number lies in a range.
pub fn fits(range: Range, number: Number) -> bool
    ensures { result ≡ fits range number }
{
    let most = if number.negative {
        range.low
    } else {
        range.high
    };
    number.magnitude <= most && (!range.even || number.magnitude % 2 == 0)
}

/// The 32 bits of a number.
pub fn number_bits(number: Number) -> u32
    ensures { result ≡ number_bits number }
{
    if number.negative {
        ((0x1_0000_0000u64.saturating_sub(number.magnitude)) % 0x1_0000_0000) as u32
    } else {
        (number.magnitude % 0x1_0000_0000) as u32
    }
}

/// The number that leads from an address to another.
pub fn difference(to: u64, from: u64) -> Number
    ensures { result ≡ difference to from }
{
    if from <= to {
        plain_number(to - from)
    } else {
        Number {
            negative: true,
            magnitude: from - to,
        }
    }
}

/// The numbers from `-low` to `high`.
pub fn number_range(low: u64, high: u64) -> Range
    ensures { result ≡ number_range low high }
{
    Range {
        low,
        high,
        even: false,
    }
}

/// The even ones of them.
pub fn even_range(low: u64, high: u64) -> Range
    ensures { result ≡ even_range low high }
{
    Range {
        low,
        high,
        even: true,
    }
}
