//! How many frames a row of spans needs, counted before any frame is taken.
ghost use Rattle.std.specs.Prelude.{◌≡◌, ◌+◌, ◌*◌, ◌<◌, ◌≤◌, length, sum_by, All};
ghost use Rattle.mx_words.specs.Need.{segment_frames};
ghost use Rattle.mx_table.specs.Tables.{most_words, row_map, IsRow, most_modules};
ghost use Rattle.mx_table.specs.Rows.{end_at, first_spans};
ghost use Rattle.mx_segments.specs.Lists.{longest_list};
ghost use Rattle.mx_segments.specs.Tally.{IsTally, counted_before, perm_before, begins_at, begins_behind};

use crate::plan::Plan;
use mx_words::{Perm, Span, Spans};

/// The runs of the map of a row's first spans. From word `end` on the map has no permission.
#[derive(Clone, Copy)]
pub(crate) struct Tally {
    /// The word after the last span.
    pub end: u32,
    /// How many runs begin before it.
    pub before: u32,
    /// How many runs there are.
    pub runs: u32,
    /// The permission of the word before `end`.
    pub last: Perm,
}

// How many runs begin before a word after the spans.
fn count_before(tally: &Tally, first: u32) -> u32
    ensures { result ≡ counted_before tally.now first }
{
    if tally.end < first {
        tally.runs
    } else {
        tally.before
    }
}

// The permission of the word before a word after the spans.
fn perm_of_previous(tally: &Tally, first: u32) -> Perm
    ensures { result ≡ perm_before tally.now first }
{
    if tally.end < first {
        Perm::None
    } else {
        tally.last
    }
}

// Whether a run begins at the next span.
fn is_begun(tally: &Tally, span: Span) -> bool
    ensures { result ≡ begins_at tally.now span }
{
    if span.first == 0 {
        return true;
    }
    perm_of_previous(tally, span.first) != span.perm
}

// Whether a run begins right after the next span.
fn is_ended(span: Span, words: u32) -> bool
    requires { span.first + span.count ≤ words }
    ensures { result ≡ begins_behind span words }
{
    span.first + span.count < words && span.perm != Perm::None
}

// The tally with span `n` of a row, which lies after those before it.
fn with_span(tally: &Tally, row: &Spans, n: u32, words: u32) -> Tally
    requires row { IsRow words row.now }
    requires place { n < length row.now }
    requires small { words ≤ most_words }
    requires tally { IsTally words (first_spans words row.now n) tally.now }
    requires end { tally.now.end ≡ end_at row.now n }
    ensures tally { IsTally words (first_spans words row.now (n + 1)) result }
    ensures end { result.end ≡ end_at row.now (n + 1) }
{
    let span = row.get(n);
    let plan = Plan {
        before: count_before(tally, span.first),
        behind: tally.runs,
        all: tally.runs,
        starts: is_begun(tally, span),
        ends: is_ended(span, words),
        next: Perm::None,
    };
    Tally {
        end: span.first + span.count,
        before: plan.second(),
        runs: plan.kept_count(),
        last: span.perm,
    }
}

/// How many frames a row's map needs.
pub(crate) fn frames_of(row: &Spans, words: u32) -> u32
    requires row { IsRow words row.now }
    requires some { 1 ≤ words }
    requires small { words ≤ most_words }
    ensures need { result ≡ segment_frames (row_map words row.now) }
    ensures most { result ≤ longest_list }
{
    let mut tally = Tally {
        end: 0,
        before: 0,
        runs: 1,
        last: Perm::None,
    };
    for n in 0..row.len() {
        tally = with_span(&tally, row, n, words);
    }
    tally.runs.div_ceil(64)
}

/// How many frames all rows' maps need.
pub(crate) fn frames_of_all(rows: &[Spans], words: u32) -> u32
    requires rows { All (IsRow words) rows.now }
    requires few { length rows.now ≤ most_modules }
    requires some { 1 ≤ words }
    requires small { words ≤ most_words }
    ensures { result ≡ sum_by (λ row. segment_frames (row_map words row)) rows.now }
{
    let mut needed = 0;
    for row in rows {
        needed += frames_of(row, words);
    }
    needed
}
