//! Addresses and RAM words: word `i` has the address `0x80000000 + 4 * i`.
ghost use Rattle.std.specs.Prelude.{◌≡◌, ◌≤◌};
ghost use Rattle.mx_words.specs.Ranges.{most_words, word_of, word_range};

/// The address of RAM's first byte.
pub const RAM_BASE: u32 = 0x8000_0000;

/// The number of the word that holds an address, in a RAM of `words` words, at most `MOST_WORDS`. `None` exactly
/// outside RAM.
pub fn word_of(addr: u32, words: u32) -> Option<u32>
    requires { words ≤ most_words }
    ensures { result ≡ word_of addr words }
{
    // Below RAM the difference wraps to 2^31 and more.
    let word = addr.wrapping_sub(RAM_BASE) / 4;
    if word < words { Some(word) } else { None }
}

/// The words that the `len` bytes from `addr` on touch, as the first word and their number, in a RAM of `words` words,
/// at most
/// `MOST_WORDS`. `None` exactly where there are no bytes, `addr` is no multiple of 4, or a byte lies outside RAM or
/// past 2^32.
pub fn word_range(addr: u32, len: u32, words: u32) -> Option<(u32, u32)>
    requires { words ≤ most_words }
    ensures { result ≡ word_range addr len words }
{
    if len == 0 || addr % 4 != 0 || addr < RAM_BASE {
        return None;
    }
    let offset = addr - RAM_BASE;
    if offset <= 4 * words && len <= 4 * words - offset {
        Some((offset / 4, (len + 3) / 4))
    } else {
        None
    }
}
