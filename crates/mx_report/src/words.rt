//! The addresses of words.
ghost use Rattle.std.specs.Prelude.{◌≡◌, ◌≤◌};
ghost use Rattle.mx_words.specs.Ranges.{address_of, most_words};

use mx_words::RAM_BASE;

/// The address of a word.
pub(crate) fn address(word: u32) -> u32
    requires { word ≤ most_words }
    ensures { result ≡ address_of word }
{
    RAM_BASE + 4 * word
}
