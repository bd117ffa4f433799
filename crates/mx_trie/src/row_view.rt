//! The map of a row of spans.
ghost use Rattle.std.specs.Prelude.{◌≡◌, ℕ, ◌+◌, ◌<◌, ◌≤◌, List, length};
ghost use Rattle.mx_words.specs.declared.perm.Perm.{Perm};
ghost use Rattle.mx_table.specs.Tables.{most_words, row_map, IsRow};
ghost use Rattle.mx_trie.specs.Views.{IsRound, IsBegun, IsBegin};

use crate::view::View;
use mx_words::{MOST_WORDS, Perm, Span, Spans};

/// The map of a row of spans over a RAM of `words` words.
#[derive(Drop)]
pub(crate) struct RowView<'a> {
    pub row: &'a Spans,
    pub words: u32,
}

/// How many spans of a row begin at a word or before it.
fn spans_up_to(row: &Spans, word: u32) -> u32
    requires { (words : ℕ) × IsRow words row.now }
    ensures { IsBegun row.now word result }
{
    let mut low = 0;
    let mut high = row.len();
    while low < high {
        let middle = low + (high - low) / 2;
        if row.get(middle).first <= word {
            low = middle + 1;
        } else {
            high = middle;
        }
    }
    low
}

/// Where the span at a place of a row begins, or the end of all words where there is none.
fn begin_of(row: &Spans, place: u32) -> u32
    ensures { IsBegin row.now place result }
{
    if place < row.len() {
        row.get(place).first
    } else {
        MOST_WORDS
    }
}

impl View for RowView<'_> {
    ghost map = { λ v. row_map v.words v.row.now };

    ghost lawful = { λ v. IsRow v.words v.row.now × (v.words ≤ most_words) };

    fn around(&self, word: u32) -> Span {
        let next = spans_up_to(self.row, word);
        let end = begin_of(self.row, next);
        if next == 0 {
            return Span {
                first: 0,
                count: end,
                perm: Perm::None,
            };
        }
        let span = self.row.get(next - 1);
        let behind = span.first + span.count;
        if word < behind {
            span
        } else {
            Span {
                first: behind,
                count: end - behind,
                perm: Perm::None,
            }
        }
    }

    fn around_far(&self, word: u32) -> Span {
        self.around(word)
    }
}
