//! Aligned blocks of a map: regions, pages and lines.
ghost use Rattle.std.specs.Prelude.{◌≡◌, ◌+◌, ◌*◌, ◌%◌, ◌^◌, ◌<◌, ◌≤◌, ◌↔◌, IsTrue, length, take, drop};
ghost use Rattle.mx_words.specs.Blocks.{block_of, IsUniform, IsEven};
ghost use Rattle.mx_words.specs.Runs.{is_eighth_uniform, is_crowded, broken_blocks, crowded_lines, line_words};
ghost use Rattle.mx_words.specs.Runs.{region_words, whole_line};
ghost use Rattle.mx_table.specs.Tables.{most_words};

use crate::maps::WordMap;
use crate::runs::runs;
use mx_words::Perm;

/// The words of a line, of a page and of a region.
pub(crate) const LINE: u32 = 16;

pub(crate) const PAGE: u32 = 1024;

pub(crate) const REGION: u32 = 1_048_576;

impl WordMap for [Perm; 16] {
    ghost list = { λ m. m };

    fn words(&self) -> u32 {
        16
    }

    fn at(&self, word: u32) -> Perm {
        if word < 16 {
            self[word as usize]
        } else {
            Perm::None
        }
    }
}

/// Whether the `count` words from `first` on have one permission.
fn is_uniform<M: WordMap>(map: &M, first: u32, count: u32) -> bool
    requires { first + count < 2 ^ 32 }
    ensures { IsTrue result ↔ IsUniform (M.list map.now) first count }
{
    let perm = map.at(first);
    let end = map.words().min(first + count);
    for word in first..end {
        if map.at(word) != perm {
            return false;
        }
    }
    if end == first + count {
        return true;
    }
    perm == Perm::None
}

/// Whether each of the eight parts of `part` words, from word `first` on, has one permission.
fn is_even<M: WordMap>(map: &M, first: u32, part: u32) -> bool
    requires { first + 8 * part < 2 ^ 32 }
    ensures { IsTrue result ↔ IsEven (M.list map.now) first part }
{
    for e in 0..8 {
        if !is_uniform(map, first + e * part, part) {
            return false;
        }
    }
    true
}

/// Whether block `block` of `size` words is eighth-uniform.
pub(crate) fn is_eighth_uniform<M: WordMap>(map: &M, size: u32, block: u32) -> bool
    requires size { size % 8 ≡ 0 }
    requires some { 0 < size }
    requires small { block * size + size < 2 ^ 32 }
    ensures { result ≡ is_eighth_uniform size (block_of size (M.list map.now) block) }
{
    is_even(map, block * size, size / 8)
}

/// How many blocks of `size` words aren't eighth-uniform.
pub(crate) fn broken_blocks<M: WordMap>(map: &M, size: u32) -> u32
    requires size { size % 8 ≡ 0 }
    requires some { 0 < size }
    requires fair { size ≤ region_words }
    requires few { length (M.list map.now) ≤ most_words }
    ensures count { result ≡ broken_blocks size (M.list map.now) }
    ensures most { result ≤ most_words }
{
    let mut count = 0;
    for block in 0..map.words() / size + 1 {
        if !is_eighth_uniform(map, size, block) {
            count += 1;
        }
    }
    count
}

/// The permissions of the line that begins at word `first`.
pub(crate) fn line_from<M: WordMap>(map: &M, first: u32) -> [Perm; 16]
    requires { first + 16 < 2 ^ 32 }
    ensures { result ≡ whole_line (take line_words (drop first (M.list map.now))) }
{
    let mut line = [Perm::None; 16];
    for i in 0..16u32 {
        line[i as usize] = map.at(first + i);
    }
    line
}

/// Whether line `line` has more than four runs.
pub(crate) fn is_crowded<M: WordMap>(map: &M, line: u32) -> bool
    requires { line * 16 + 16 < 2 ^ 32 }
    ensures { result ≡ is_crowded (block_of line_words (M.list map.now) line) }
{
    runs(&line_from(map, line * LINE)) > 4
}

/// How many lines have more than four runs.
pub(crate) fn crowded_lines<M: WordMap>(map: &M) -> u32
    requires { length (M.list map.now) ≤ most_words }
    ensures count { result ≡ crowded_lines (M.list map.now) }
    ensures most { result ≤ most_words }
{
    let mut count = 0;
    for line in 0..map.words() / LINE + 1 {
        if is_crowded(map, line) {
            count += 1;
        }
    }
    count
}
