//! The entries of a domain's runs: found by halves, and read.
ghost use Rattle.std.specs.Prelude.{◌≡◌, ◌+◌, ◌*◌, ◌<◌, ◌≤◌, ◌^◌, ◌↔◌, length, min, true, IsNone, IfSome};
ghost use Rattle.mx_words.specs.declared.tables.Kind.TheVariants as K;
ghost use Rattle.mx_words.specs.Rights.{perm_at};
ghost use Rattle.mx_words.specs.Counting.{count_below};
ghost use Rattle.mx_words.specs.Newest.{laid};
ghost use Rattle.mx_words.specs.Changes.{grant_of};
ghost use Rattle.mx_words.specs.Runs.{runs};
ghost use Rattle.mx_words.specs.Reach.{span, stored};
ghost use Rattle.mx_words.specs.Starts.{is_start};
ghost use Rattle.mx_table.specs.Tables.{most_words};
ghost use Rattle.mx_segments.specs.Store.{frames_in, IsStore};
ghost use Rattle.mx_segments.specs.Entries.{begins_before, perm_of, run_start, entry_of};
ghost use Rattle.mx_segments.specs.Sound.{map_in, IsSound};

use crate::Chains;
use crate::store::word;
use mx_pool::Pool;
use mx_words::{Level, Perm, RAM_BASE, Shown, Span};

// Whether a stored word is an entry of a run that begins before a word.
fn is_before(stored: u32, word: u32) -> bool
    requires { word ≤ most_words }
    ensures { result ≡ begins_before stored word }
{
    stored != 0 && stored < RAM_BASE + 4 * word
}

// The permission in an entry.
fn entry_perm(entry: u32) -> Perm
    ensures { result ≡ perm_of entry }
{
    Perm::from_number(entry % 4).unwrap_or(Perm::None)
}

/// How many runs of the map at a row begin before a word, and before RAM's end.
pub(crate) fn runs_before(
    leaf: &Pool<64>,
    chains: &Chains,
    row: u32,
    words: u32,
    before: u32,
) -> u32
    requires store { IsStore leaf.now chains.now.lists }
    requires row { row < length chains.now.lists }
    requires small { words ≤ most_words }
    requires sound { IsSound words leaf.now chains.now.lists row }
    ensures { result
        ≡ count_below (min before words) (is_start (map_in words leaf.now chains.now.lists row)) }
{
    let before = before.min(words);
    let mut low = 0;
    let mut high = 64 * chains.len_at(row);
    while low < high {
        let middle = low + (high - low) / 2;
        if is_before(word(leaf, chains, row, middle), before) {
            low = middle + 1;
        } else {
            high = middle;
        }
    }
    low
}

/// The stored entry of run `i` of the map at a row. `None` exactly where there is no such run.
pub(crate) fn entry_at(
    leaf: &Pool<64>,
    chains: &Chains,
    row: u32,
    words: u32,
    i: u32,
) -> Option<u32>
    requires store { IsStore leaf.now chains.now.lists }
    requires row { row < length chains.now.lists }
    requires sound { IsSound words leaf.now chains.now.lists row }
    ensures none { IsNone result ↔ (runs (map_in words leaf.now chains.now.lists row) ≤ i) }
    ensures entry { IfSome result
        (λ e. e ≡ entry_of (map_in words leaf.now chains.now.lists row) i) }
{
    if i / 64 >= chains.len_at(row) {
        return None;
    }
    match word(leaf, chains, row, i) {
        0 => None,
        entry => Some(entry),
    }
}

/// The word at which run `i` of the map at a row begins, and RAM's end where there is no such run.
pub(crate) fn start_at(leaf: &Pool<64>, chains: &Chains, row: u32, words: u32, i: u32) -> u32
    requires store { IsStore leaf.now chains.now.lists }
    requires row { row < length chains.now.lists }
    requires sound { IsSound words leaf.now chains.now.lists row }
    ensures { result ≡ run_start (map_in words leaf.now chains.now.lists row) i }
{
    match entry_at(leaf, chains, row, words, i) {
        Some(entry) => (entry - RAM_BASE) / 4,
        None => words,
    }
}

/// The permission of a word in the map at a row.
pub(crate) fn perm_in(leaf: &Pool<64>, chains: &Chains, row: u32, words: u32, at: u32) -> Perm
    requires store { IsStore leaf.now chains.now.lists }
    requires row { row < length chains.now.lists }
    requires small { words ≤ most_words }
    requires sound { IsSound words leaf.now chains.now.lists row }
    requires word { at < words }
    ensures { result ≡ perm_at (map_in words leaf.now chains.now.lists row) at }
{
    let behind = runs_before(leaf, chains, row, words, at + 1);
    entry_perm(word(leaf, chains, row, behind - 1))
}

/// The whole run of a word in the map at a row.
pub(crate) fn run_in(leaf: &Pool<64>, chains: &Chains, row: u32, words: u32, at: u32) -> Span
    requires store { IsStore leaf.now chains.now.lists }
    requires row { row < length chains.now.lists }
    requires small { words ≤ most_words }
    requires sound { IsSound words leaf.now chains.now.lists row }
    requires word { at < words }
    ensures { result ≡ span K.Segments (map_in words leaf.now chains.now.lists row) at }
{
    let behind = runs_before(leaf, chains, row, words, at + 1);
    let first = start_at(leaf, chains, row, words, behind - 1);
    let next = start_at(leaf, chains, row, words, behind);
    let perm = entry_perm(word(leaf, chains, row, behind - 1));
    Span {
        first,
        count: next - first,
        perm,
    }
}

/// Whether the words `first` to `first + count - 1` of the map at a row have a permission already: they lie in one run
/// then.
pub(crate) fn has_already(
    leaf: &Pool<64>,
    chains: &Chains,
    row: u32,
    words: u32,
    first: u32,
    count: u32,
    perm: Perm,
) -> bool
    requires store { IsStore leaf.now chains.now.lists }
    requires row { row < length chains.now.lists }
    requires small { words ≤ most_words }
    requires sound { IsSound words leaf.now chains.now.lists row }
    requires some { 0 < count }
    requires inside { first + count ≤ words }
    ensures { result ≡ true →
        laid (grant_of first count perm) (map_in words leaf.now chains.now.lists row)
        ≡ map_in words leaf.now chains.now.lists row }
{
    let run = run_in(leaf, chains, row, words, first);
    run.perm == perm && first + count <= run.first + run.count
}

/// The stored entry of a word's run in the map at a row, with the run.
pub(crate) fn shown_in(leaf: &Pool<64>, chains: &Chains, row: u32, words: u32, at: u32) -> Shown
    requires store { IsStore leaf.now chains.now.lists }
    requires row { row < length chains.now.lists }
    requires small { words ≤ most_words }
    requires sound { IsSound words leaf.now chains.now.lists row }
    requires word { at < words }
    ensures { result ≡ stored K.Segments (map_in words leaf.now chains.now.lists row) at }
{
    let behind = runs_before(leaf, chains, row, words, at + 1);
    let first = start_at(leaf, chains, row, words, behind - 1);
    let next = start_at(leaf, chains, row, words, behind);
    let stored = word(leaf, chains, row, behind - 1);
    Shown {
        level: Level::Segment,
        first,
        count: next - first,
        stored,
    }
}
