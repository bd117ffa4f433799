//! The numbers that are drawn for each module.

ghost use Rattle.std.specs.Prelude.{◌≡◌, ◌+◌, ◌<◌, ◌≤◌};
ghost use Rattle.mx_mill.specs.Draws.{drawn, next};
ghost use Rattle.mx_mill.specs.Words.{module_count};

use crate::words::MODULES;

/// The three draws of a module.
#[derive(Clone, Copy, PartialEq, Eq)]
pub struct Draws {
    /// How many words its block has, 1 to 16.
    pub words: u32,
    /// The domain that gets a right on the block, 1 to 15.
    pub domain: u32,
    /// The number of that right, 1 to 3.
    pub right: u32,
}

// The number after one more draw.
fn next(number: u32) -> u32
    ensures { result ≡ next number }
{
    ((1_103_515_245 * u64::from(number) + 12_345) % 0x8000_0000) as u32
}

// What a draw below a bound answers by the number after it.
fn drawn(number: u32, bound: u32) -> u32
    requires { 1 ≤ bound }
    ensures answer { result ≡ drawn number bound }
    ensures below { result < bound }
{
    number / 65_536 % bound
}

/// The draws of the next module, and the number after them.
pub(crate) fn draw(number: u32) -> (Draws, u32)
    ensures words { result.0.words ≡ 1 + drawn (next number) 16 }
    ensures domain { result.0.domain ≡ 1 + drawn (next (next number)) module_count }
    ensures right { result.0.right ≡ 1 + drawn (next (next (next number))) 3 }
    ensures number { result.1 ≡ next (next (next number)) }
    ensures few_words { result.0.words ≤ 16 }
    ensures few_domains { result.0.domain ≤ module_count }
    ensures few_rights { result.0.right ≤ 3 }
{
    let first = next(number);
    let second = next(first);
    let third = next(second);
    let draws = Draws {
        words: 1 + drawn(first, 16),
        domain: 1 + drawn(second, MODULES),
        right: 1 + drawn(third, 3),
    };
    (draws, third)
}
