//! What a walk answers, read from a plain map.
ghost use Rattle.std.specs.Prelude.{◌≡◌, ◌+◌, ◌-◌, ◌<◌, ◌≤◌, length};
ghost use Rattle.mx_words.specs.declared.tables.Level.TheVariants as L;
ghost use Rattle.mx_words.specs.Reach.{first_in, count_in, level, trie_level, span_within, block_span, line_span};
ghost use Rattle.mx_words.specs.Reach.{left_reach, right_reach, reached, span_at, span};
ghost use Rattle.mx_table.specs.Tables.{most_words};

use crate::blocks::{LINE, PAGE, REGION, is_crowded, is_eighth_uniform};
use crate::maps::{PlainMap, WordMap};
use crate::runs::{alike_before, alike_from};
use mx_words::{Kind, Level, Span};

/// The greatest reach of an entry.
const MOST_REACH: u32 = 31;

/// The level of a trie at which a word is decided.
fn trie_level(kind: Kind, map: &PlainMap, word: u32) -> Level
    requires word { word < length map.now }
    requires small { length map.now ≤ most_words }
    ensures { result ≡ trie_level kind map.now word }
{
    if is_eighth_uniform(map, REGION, word / REGION) {
        return Level::Root;
    }
    if is_eighth_uniform(map, PAGE, word / PAGE) {
        return Level::Mid;
    }
    if kind == Kind::Packed && is_crowded(map, word / LINE) {
        return Level::Spill;
    }
    Level::Leaf
}

/// The level at which a kind of tables decides a word.
pub(crate) fn level_of(kind: Kind, map: &PlainMap, word: u32) -> Level
    requires word { word < length map.now }
    requires small { length map.now ≤ most_words }
    ensures { result ≡ level kind map.now word }
{
    match kind {
        Kind::Segments => Level::Segment,
        Kind::Multilevel => trie_level(kind, map, word),
        Kind::Packed => trie_level(kind, map, word),
    }
}

/// The run of equal permissions round a word among the words from `low` up to `high`.
pub(crate) fn span_within(map: &PlainMap, low: u32, high: u32, word: u32) -> Span
    requires low { low ≤ word }
    requires high { word < high }
    requires word { word < length map.now }
    requires small { length map.now ≤ most_words }
    ensures { result ≡ span_within map.now low high word }
{
    let perm = map.at(word);
    let left = alike_before(map, perm, low, word);
    let right = alike_from(map, perm, word, high);
    Span {
        first: word - left,
        count: left + right,
        perm,
    }
}

/// The first word of the block of `size` words that holds a word, and the number of the block's words in RAM.
pub(crate) fn block_round(map: &PlainMap, size: u32, word: u32) -> (u32, u32)
    requires some { 0 < size }
    requires word { word < length map.now }
    ensures first { result.0 ≡ first_in size word }
    ensures count { result.1 ≡ count_in size map.now word }
{
    let first = word / size * size;
    (first, size.min(map.words() - first))
}

/// A word's block of `size` words.
fn block_span(map: &PlainMap, size: u32, word: u32) -> Span
    requires some { 0 < size }
    requires word { word < length map.now }
    ensures { result ≡ block_span size map.now word }
{
    let (first, count) = block_round(map, size, word);
    Span {
        first,
        count,
        perm: map.at(word),
    }
}

/// The run of a word within its line.
fn line_span(map: &PlainMap, word: u32) -> Span
    requires word { word < length map.now }
    requires small { length map.now ≤ most_words }
    ensures { result ≡ line_span map.now word }
{
    let line = word / LINE * LINE;
    span_within(map, line, line + LINE, word)
}

/// How many words right before the line that begins at a word have the permission of its first word, at most 31.
pub(crate) fn left_reach(map: &PlainMap, line: u32) -> u32
    requires { line ≤ length map.now }
    ensures reach { result ≡ left_reach map.now line }
    ensures most { result ≤ 31 }
    ensures before { result ≤ line }
{
    alike_before(map, map.at(line), 0, line).min(MOST_REACH)
}

/// How many words right after the line that begins at a word have the permission of its last word, at most 31.
pub(crate) fn right_reach(map: &PlainMap, line: u32) -> u32
    requires line { line ≤ length map.now }
    requires small { length map.now ≤ most_words }
    ensures reach { result ≡ right_reach map.now line }
    ensures most { result ≤ 31 }
    ensures behind { result ≤ length map.now - line }
{
    let behind = line + LINE;
    alike_from(map, map.at(behind - 1), behind, map.words()).min(MOST_REACH)
}

/// A run of a line, lengthened by the reaches where it stands at the line's edges.
fn lengthen(map: &PlainMap, line: u32, span: Span) -> Span
    requires line { line ≤ span.first }
    requires inside { span.first + span.count ≤ length map.now }
    requires small { length map.now ≤ most_words }
    ensures { result ≡ reached map.now line span }
{
    let left = if span.first == line {
        left_reach(map, line)
    } else {
        0
    };
    let right = if span.first + span.count == line + LINE {
        right_reach(map, line)
    } else {
        0
    };
    Span {
        first: span.first - left,
        count: left + span.count + right,
        perm: span.perm,
    }
}

/// The span of a word's line run in a kind of tables.
fn leaf_span(kind: Kind, map: &PlainMap, word: u32) -> Span
    requires word { word < length map.now }
    requires small { length map.now ≤ most_words }
    ensures { result ≡ span_at kind L.Leaf map.now word }
{
    let span = line_span(map, word);
    match kind {
        Kind::Packed => lengthen(map, word / LINE * LINE, span),
        _ => span,
    }
}

/// The span that a walk answers for a word.
pub(crate) fn span_of(kind: Kind, map: &PlainMap, word: u32) -> Span
    requires word { word < length map.now }
    requires small { length map.now ≤ most_words }
    ensures { result ≡ span kind map.now word }
{
    match level_of(kind, map, word) {
        Level::Segment => span_within(map, 0, map.words(), word),
        Level::Root => block_span(map, REGION / 8, word),
        Level::Mid => block_span(map, PAGE / 8, word),
        Level::Leaf => leaf_span(kind, map, word),
        Level::Spill => line_span(map, word),
    }
}
