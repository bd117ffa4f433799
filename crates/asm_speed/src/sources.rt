//! Sources of about a size in bytes.

use std::alloc::{AllocError, Global};
use std::hash::{BuildHasher, BuildHasherDefault, FoldHasher};

/// What a source is made of.
#[derive(Clone, Copy)]
pub(crate) enum Kind {
    /// Lines with a label and an `la` of a random one.
    Usual,
    /// Labels alone.
    Labels,
    /// Half of it labels, and half one line of random ones of them.
    References,
    /// Lines with a label of 64 bytes, all of which begin alike, and a `.word` of a random one.
    Alike,
    /// Labels that would stand in one chain of a table whose hash has a fixed seed, and one line of the last of them.
    Chosen,
    /// One line of numbers.
    Numbers,
    /// One number.
    Digits,
    /// One text in quotes.
    Text,
    /// Two lines: zero bytes up to the most that a program can have.
    Zeros,
}

/// All kinds.
pub(crate) const KINDS: [Kind; 9] = [
    Kind::Usual,
    Kind::Labels,
    Kind::References,
    Kind::Alike,
    Kind::Chosen,
    Kind::Numbers,
    Kind::Digits,
    Kind::Text,
    Kind::Zeros,
];

/// The name of a kind.
pub(crate) fn name(kind: Kind) -> &'static str {
    match kind {
        Kind::Usual => "usual lines",
        Kind::Labels => "labels alone",
        Kind::References => "labels and references",
        Kind::Alike => "labels that begin alike",
        Kind::Chosen => "labels chosen to collide under a fixed seed",
        Kind::Numbers => "one line of numbers",
        Kind::Digits => "one number",
        Kind::Text => "one text",
        Kind::Zeros => "zero bytes",
    }
}

/// A source of a kind, of at most so many bytes where these are 64 or more.
pub(crate) fn source(alloc: Global, kind: Kind, bytes: usize) -> Result<String, AllocError> {
    match kind {
        Kind::Usual => usual(alloc, bytes),
        Kind::Labels => labels(alloc, bytes),
        Kind::References => references(alloc, bytes),
        Kind::Alike => alike(alloc, bytes),
        Kind::Chosen => chosen(alloc, bytes),
        Kind::Numbers => repeated(alloc, ".data 0\n.byte 1", ",1", "\n", bytes),
        Kind::Digits => repeated(alloc, ".data 0\n.word ", "0", "1\n", bytes),
        Kind::Text => repeated(alloc, ".data 0\n.ascii \"", "\\n", "\"\n", bytes),
        Kind::Zeros => repeated(alloc, ".data 0\n.at 4194304\n", "", "", bytes),
    }
}

/// Whether a source has room for so many bytes more.
fn has_room(source: &String, more: usize, bytes: usize) -> bool {
    source.len().saturating_add(more) <= bytes
}

/// The next of a row of numbers without an order that a processor could guess.
fn drawn(seed: u64) -> u64 {
    seed.wrapping_mul(6_364_136_223_846_793_005)
        .wrapping_add(1_442_695_040_888_963_407)
}

/// A number below another, or 0, of the high bits of a drawn one.
fn below(seed: u64, end: u64) -> u64 {
    (seed >> 33) % end.max(1)
}

/// Appends the name of a number: each number has a name of its own, of one to eleven letters.
fn push_name(source: &mut String, number: u64) -> Result<(), AllocError> {
    let mut left = number;
    for _place in 0..11 {
        let letter = (left % 52) as u8;
        source.push(
            (if letter < 26 {
                b'a' + letter
            } else {
                b'A' + (letter - 26)
            }) as char,
        )?;
        left /= 52;
        if left == 0 {
            break;
        }
    }
    Ok(())
}

/// Lines with a label and an `la` of a random one.
fn usual(alloc: Global, bytes: usize) -> Result<String, AllocError> {
    let mut source = String::from_str(alloc, ".text 0\n")?;
    let lines = (bytes / 17) as u64;
    let mut seed = 1;
    for line in 0..lines {
        if !has_room(&source, 40, bytes) {
            break;
        }
        seed = drawn(seed);
        push_name(&mut source, line)?;
        source.push_str(": la a0, ")?;
        push_name(&mut source, below(seed, line + 1))?;
        source.push_str("\n")?;
    }
    Ok(source)
}

/// Labels alone, as many as there is room for.
fn labels(alloc: Global, bytes: usize) -> Result<String, AllocError> {
    let mut source = String::from_str(alloc, ".text 0\n")?;
    for line in 0..bytes as u64 {
        if !has_room(&source, 13, bytes) {
            break;
        }
        push_name(&mut source, line)?;
        source.push_str(":\n")?;
    }
    Ok(source)
}

/// Labels in half of the bytes, and one line of random ones of them in the other half.
fn references(alloc: Global, bytes: usize) -> Result<String, AllocError> {
    let mut source = labels(alloc, bytes / 2)?;
    let count = (bytes / 12) as u64;
    let mut seed = 1;
    source.push_str(".word a")?;
    for _place in 0..bytes {
        if !has_room(&source, 13, bytes) {
            break;
        }
        seed = drawn(seed);
        source.push_str(",")?;
        push_name(&mut source, below(seed, count))?;
    }
    source.push_str("\n")?;
    Ok(source)
}

/// What labels of 64 bytes begin with.
const ALIKE: &str = "abcdefghijklmnopqrstuvwxyzabcdefghijklmnopqrstuvwxyzabcdefgh";

/// Lines with a label of up to 64 bytes, all of which begin alike, and a `.word` of a random one before it.
fn alike(alloc: Global, bytes: usize) -> Result<String, AllocError> {
    let mut source = String::from_str(alloc, ".text 0\n")?;
    let lines = (bytes / 136) as u64;
    let mut seed = 1;
    for line in 0..lines {
        if !has_room(&source, 136, bytes) {
            break;
        }
        seed = drawn(seed);
        source.push_str(ALIKE)?;
        push_name(&mut source, line)?;
        source.push_str(":.word ")?;
        source.push_str(ALIKE)?;
        push_name(&mut source, below(seed, line + 1))?;
        source.push_str("\n")?;
    }
    Ok(source)
}

/// The name of a number: eight letters.
fn letters(number: u64) -> [u8; 8] {
    let mut name = [b'a'; 8];
    let mut left = number;
    for place in 0..8 {
        name[place] = b'a' + (left % 26) as u8;
        left /= 26;
    }
    name
}

/// Appends the name of a number.
fn push_letters(source: &mut String, number: u64) -> Result<(), AllocError> {
    for letter in letters(number) {
        source.push(letter as char)?;
    }
    Ok(())
}

/// The numbers of so many names whose hashes with a fixed seed have equal low bits.
fn colliding(alloc: Global, count: usize) -> Result<Vec<u64>, AllocError> {
    let hashing: BuildHasherDefault<FoldHasher> = BuildHasherDefault::new();
    let mut numbers = Vec::with_capacity(alloc, count)?;
    for number in 0..(count as u64).saturating_mul(0x8000) {
        if numbers.len() >= count {
            break;
        }
        let name = letters(number);
        let hash = hashing.hash_one(name.as_slice());
        if (hash ^ (hash >> 32)) % 4096 == 0 {
            numbers.push(number)?;
        }
    }
    Ok(numbers)
}

/// Labels that would stand in one chain of a table whose hash has a fixed seed, and one line of the last of them.
fn chosen(alloc: Global, bytes: usize) -> Result<String, AllocError> {
    let numbers = colliding(alloc, bytes / 42)?;
    let mut source = String::from_str(alloc, ".text 0\n")?;
    for number in &numbers {
        push_letters(&mut source, *number)?;
        source.push_str(":\n")?;
    }
    source.push_str(".word ")?;
    let first = numbers.len().saturating_sub(500);
    let last = &numbers.as_slice()[first..];
    for place in 0..bytes {
        if last.is_empty() || !has_room(&source, 18, bytes) {
            break;
        }
        push_letters(&mut source, last[place % last.len()])?;
        source.push_str(",")?;
    }
    source.push_str("0\n")?;
    Ok(source)
}

/// A text between others, as often as there is room for.
fn repeated(
    alloc: Global,
    before: &str,
    text: &str,
    after: &str,
    bytes: usize,
) -> Result<String, AllocError> {
    let mut source = String::from_str(alloc, before)?;
    for _place in 0..bytes {
        if text.is_empty() || !has_room(&source, text.len().saturating_add(after.len()), bytes) {
            break;
        }
        source.push_str(text)?;
    }
    source.push_str(after)?;
    Ok(source)
}
