//! The timed calls.
ghost use Rattle.std.specs.Prelude.{◌≡◌, ℕ, ◌+◌, ◌<◌, ◌≤◌, ◌^◌, length};
ghost use Rattle.mx_table.specs.Change.{IsLawful};

use crate::sample::SPANS;
use mx_plain::{grant, try_change};
use mx_table::{Change, PermTables};
use mx_words::Perm;

/// A range of words.
#[derive(Clone, Copy)]
pub struct Range {
    /// Its first word.
    pub first: u32,
    /// How many words it has, at least 1.
    pub count: u32,
}

/// The word that round `i` looks at: each of the first 32 words from the beginning of a span on, one span after
/// another.
fn word_of_round(words: u32, i: u64) -> u32
    requires few { 16384 ≤ words }
    requires most { words ≤ 2 ^ 24 }
    ensures { result < words }
{
    (i % 256) as u32 * (words / SPANS) + (i / 256 % 32) as u32
}

/// How many of so many words domain 1 may access, as `perm` tells.
pub fn perms<T: PermTables>(tables: &T, words: u32, rounds: u64) -> u64
    requires few { 16384 ≤ words }
    requires most { words ≤ 2 ^ 24 }
    requires one { length (T.maps tables.now) ≡ 1 }
    requires size { T.size tables.now ≡ words }
    ensures { result ≤ rounds }
{
    let mut allowed = 0;
    for i in 0..rounds {
        if tables.perm(1, word_of_round(words, i)) != Perm::None {
            allowed += 1;
        }
    }
    allowed
}

/// How many of so many words domain 1 may access, as `lookup` finds.
pub fn lookups<T: PermTables>(tables: &mut T, words: u32, rounds: u64) -> u64
    requires few { 16384 ≤ words }
    requires most { words ≤ 2 ^ 24 }
    requires one { length (T.maps tables.old) ≡ 1 }
    requires size { T.size tables.old ≡ words }
    ensures most { result ≤ rounds }
    ensures one { length (T.maps tables.new) ≡ 1 }
    ensures size { T.size tables.new ≡ words }
{
    let mut allowed = 0;
    for i in 0..rounds {
        if tables.lookup(1, word_of_round(words, i)).perm != Perm::None {
            allowed += 1;
        }
    }
    allowed
}

/// Read-write on a range in rounds 0, 2, 4 and so on, and read in the others.
fn toggle(range: Range, i: u64) -> Change
    requires { 0 < range.count }
    ensures { (words modules : ℕ) → range.first + range.count ≤ words → 1 ≤ modules → IsLawful result words modules }
{
    let perm = if i % 2 == 0 {
        Perm::ReadWrite
    } else {
        Perm::Read
    };
    grant(range.first, range.count, perm)
}

/// How many of so many changes of a range would fit. None is made.
pub fn count_fits<T: PermTables>(tables: &T, range: Range, rounds: u64) -> u64
    requires some { 0 < range.count }
    requires inside { range.first + range.count ≤ T.size tables.now }
    requires one { length (T.maps tables.now) ≡ 1 }
    ensures { result ≤ rounds }
{
    let mut fit = 0;
    for i in 0..rounds {
        if tables.fits(&toggle(range, i)) {
            fit += 1;
        }
    }
    fit
}

/// How many of so many changes of a range fitted and were made.
pub fn count_made<T: PermTables>(tables: &mut T, range: Range, rounds: u64) -> u64
    requires some { 0 < range.count }
    requires inside { range.first + range.count ≤ T.size tables.old }
    requires one { length (T.maps tables.old) ≡ 1 }
    ensures most { result ≤ rounds }
    ensures one { length (T.maps tables.new) ≡ 1 }
    ensures same_size { T.size tables.new ≡ T.size tables.old }
{
    let mut made = 0;
    for i in 0..rounds {
        if try_change(tables, &toggle(range, i)) {
            made += 1;
        }
    }
    made
}
