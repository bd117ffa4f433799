//! The stored item that decides a word, read from a plain map.
ghost use Rattle.std.specs.Prelude.{◌≡◌, ◌+◌, ◌*◌, ◌/◌, ◌^◌, ◌<◌, ◌≤◌, length, slice_index};
ghost use Rattle.std.specs.Prelude.{map as list_map};
ghost use Rattle.mx_words.specs.Rights.{same};
ghost use Rattle.mx_words.specs.Runs.{runs_of, run_before, line_words};
ghost use Rattle.mx_words.specs.Reach.{packed, vector, eighths, starts_from, mini_entry, line_entry, shown_block};
ghost use Rattle.mx_words.specs.Reach.{shown_run, stored};
ghost use Rattle.mx_table.specs.Tables.{most_words};
ghost use Rattle.mx_plain.specs.LineRuns.{runs_in, run_number, count_at, IsInLine};

use crate::blocks::{LINE, PAGE, REGION, line_from};
use crate::maps::{PlainMap, WordMap};
use crate::spans::{block_round, left_reach, level_of, right_reach, span_within};
use mx_words::{Kind, Level, Perm, RAM_BASE, Shown, Span};

/// The word that holds up to 16 permissions of two bits each, the first in the lowest bits.
fn word_of_perms(perms: &[Perm]) -> u32
    requires { length perms.now ≤ 16 }
    ensures word { result ≡ packed perms.now }
    ensures few { length perms.now ≤ 8 → result < 2 ^ 16 }
{
    let mut word = 0;
    let mut place = perms.len();
    while place > 0 {
        place -= 1;
        word = perms[place].number() + 4 * word;
    }
    word
}

/// The permissions of the first words of the eight parts of a block that begins at a word.
fn eighths(map: &PlainMap, size: u32, first: u32) -> [Perm; 8]
    requires { first + size < 2 ^ 32 }
    ensures { result ≡ eighths size map.now first }
{
    let mut perms = [Perm::None; 8];
    for e in 0..8u32 {
        perms[e as usize] = map.at(first + size / 8 * e);
    }
    perms
}

/// The entry of an upper table for an eighth-uniform block that begins at a word.
fn vector(map: &PlainMap, size: u32, first: u32) -> u32
    requires { first + size < 2 ^ 32 }
    ensures { result ≡ vector size map.now first }
{
    1 + 4 * word_of_perms(&eighths(map, size, first))
}

/// A run of a line.
#[derive(Clone, Copy)]
struct LineRun {
    count: u32,
    perm: Perm,
}

/// The runs of some words of a line: those from place `from` on.
#[derive(Clone, Copy)]
struct LineRuns {
    from: u32,
    places: [LineRun; 16],
}

/// The runs with one more word in front.
fn with_word(perm: Perm, runs: LineRuns) -> LineRuns
    requires some { 0 < runs.from }
    requires inside { runs.from ≤ 16 }
    requires whole { length runs.places ≡ 16 }
    requires short { count_at runs runs.from < 16 }
    ensures runs { runs_in result ≡ run_before same perm (runs_in runs) }
    ensures inside { result.from ≤ 16 }
    ensures whole { length result.places ≡ 16 }
{
    let mut places = runs.places;
    let from = runs.from as usize;
    if from < 16 && perm == places[from].perm {
        places[from].count += 1;
        return LineRuns {
            from: runs.from,
            places,
        };
    }
    places[from - 1] = LineRun { count: 1, perm };
    LineRuns {
        from: runs.from - 1,
        places,
    }
}

/// The runs of a line.
fn line_runs(line: &[Perm; 16]) -> LineRuns
    ensures runs { runs_in result ≡ runs_of same line.now }
    ensures line { IsInLine result }
{
    let none = LineRun {
        count: 0,
        perm: Perm::None,
    };
    let mut runs = LineRuns {
        from: 16,
        places: [none; 16],
    };
    let mut place = 16;
    while place > 0 {
        place -= 1;
        runs = with_word(line[place], runs);
    }
    runs
}

/// The number of the permission of run `i`, 0 where there is none.
fn number_of(runs: &LineRuns, i: u32) -> u32
    requires line { IsInLine runs.now }
    requires few { i ≤ 3 }
    ensures number { result ≡ slice_index (list_map run_number (runs_in runs.now)) i }
    ensures small { result < 4 }
{
    let place = runs.from + i;
    if place < 16 {
        runs.places[place as usize].perm.number()
    } else {
        0
    }
}

/// The start of run `i` in the line, 0 where there is none.
fn start_of(runs: &LineRuns, i: u32) -> u32
    requires line { IsInLine runs.now }
    requires few { i ≤ 3 }
    ensures start { result ≡ slice_index (starts_from 0 (runs_in runs.now)) i }
    ensures small { result < 16 }
{
    if runs.from + i >= 16 {
        return 0;
    }
    let mut start = 0;
    for place in runs.from..runs.from + i {
        start += runs.places[place as usize].count;
    }
    start
}

/// The packed entry of a line of at most four runs, with both reaches.
fn mini_entry(line: &[Perm; 16], left: u32, right: u32) -> u32
    requires left { left ≤ 31 }
    requires right { right ≤ 31 }
    ensures { result ≡ mini_entry (runs_of same line.now) left right }
{
    let runs = line_runs(line);
    let perms = number_of(&runs, 0)
        + 4 * number_of(&runs, 1)
        + 16 * number_of(&runs, 2)
        + 64 * number_of(&runs, 3);
    let starts = start_of(&runs, 1) + 16 * start_of(&runs, 2) + 256 * start_of(&runs, 3);
    2 + 4 * perms + 0x400 * starts + 0x40_0000 * right + 0x800_0000 * left
}

/// The stored word of a line that isn't crowded and begins at a word.
fn line_entry(kind: Kind, map: &PlainMap, first: u32) -> u32
    requires line { first / line_words * line_words ≡ first }
    requires inside { first ≤ length map.now }
    requires small { length map.now ≤ most_words }
    ensures { result ≡ line_entry kind map.now first }
{
    let line = line_from(map, first);
    match kind {
        Kind::Packed => mini_entry(&line, left_reach(map, first), right_reach(map, first)),
        _ => word_of_perms(&line),
    }
}

/// An item that stands for a word's block of `size` words.
fn shown_block(level: Level, map: &PlainMap, size: u32, word: u32, stored: u32) -> Shown
    requires some { 0 < size }
    requires word { word < length map.now }
    ensures { result ≡ shown_block level size map.now word stored }
{
    let (first, count) = block_round(map, size, word);
    Shown {
        level,
        first,
        count,
        stored,
    }
}

/// An entry of a list of runs.
fn shown_run(span: Span) -> Shown
    requires { span.first ≤ most_words }
    ensures { result ≡ shown_run span }
{
    Shown {
        level: Level::Segment,
        first: span.first,
        count: span.count,
        stored: RAM_BASE + 4 * span.first + span.perm.number(),
    }
}

/// The stored item that decides a word.
pub(crate) fn stored_of(kind: Kind, map: &PlainMap, word: u32) -> Shown
    requires word { word < length map.now }
    requires small { length map.now ≤ most_words }
    ensures { result ≡ stored kind map.now word }
{
    let level = level_of(kind, map, word);
    match level {
        Level::Segment => shown_run(span_within(map, 0, map.words(), word)),
        Level::Root => shown_block(
            level,
            map,
            REGION,
            word,
            vector(map, REGION, word / REGION * REGION),
        ),
        Level::Mid => shown_block(
            level,
            map,
            PAGE,
            word,
            vector(map, PAGE, word / PAGE * PAGE),
        ),
        Level::Leaf => shown_block(
            level,
            map,
            LINE,
            word,
            line_entry(kind, map, word / LINE * LINE),
        ),
        Level::Spill => shown_block(
            level,
            map,
            LINE,
            word,
            word_of_perms(&line_from(map, word / LINE * LINE)),
        ),
    }
}
